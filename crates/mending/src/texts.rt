// A whole recording that went through an editor, mended, with a report byte for each of its lines; and
// the same for a recording of any length, in pieces cut anywhere.
ghost use Rattle.std.specs.Prelude.{◌≡◌, ◌≤◌, false, [], length};
ghost use Rattle.basic_laws.specs.Laid.{laid};
ghost use Rattle.refusals.specs.Refusals.{no_room};
ghost use Rattle.text.specs.Lines.{lines_of};
ghost use Rattle.text.specs.Laying.{lay_leaves};
ghost use Rattle.pieces.specs.Carried.{carried_in};
ghost use Rattle.pieces.specs.Pieces.{said_whole};
ghost use Rattle.mending.specs.Mending.{mended_bytes};
ghost use Rattle.mending.specs.Claims.{report_said};
ghost use Rattle.mending.specs.MendingText.{text_answer, text_written, text_reported, TextWithin, PieceAnswer};
ghost use Rattle.mending.specs.MendingText.{piece_written, piece_reported};
ghost use Rattle.mending.specs.Laws.{Through};

use pieces::Carried;
use text::{LINE_FEED, laying};

// As much of an unfinished line as tells that it is over-long: one character more than is mended.
const MOST_HELD: usize = 257;

// What came of a text.
#[derive(Clone, Copy)]
pub struct TextMended {
    pub refusal: u8,
    // how many bytes stand at the front of the output
    pub written: usize,
    // how many lines it has, each with its byte at the front of the report
    pub lines: usize,
}

// What came of a piece.
#[derive(Clone, Copy)]
pub struct PieceMended {
    pub refusal: u8,
    pub written: usize,
    pub lines: usize,
    pub carried: Carried,
}

// How far the lines with a feed go.
#[derive(Clone, Copy)]
struct LinesMended {
    written: usize,
    lines: usize,
    // where the unfinished line begins
    next: usize,
}

// Each line that has its feed, and the report on it.
fn mend_whole(s: &[u8], out: &mut [u8], report: &mut [u8]) -> LinesMended
    requires { (length s.now ≤ length out.old) × (length (lines_of s.now) ≤ length report.old) }
    ensures answer { Through s.now result }
    ensures written { out.new ≡ laid out.old 0 (said_whole mended_bytes s.now) }
    ensures reported { report.new
        ≡ laid report.old 0 (said_whole report_said s.now) }
{
    let mut at = 0;
    let mut written = 0;
    let mut lines = 0;
    for line in s.split_inclusive(|&c| c == LINE_FEED) {
        let Some(chars) = line.strip_suffix(&[LINE_FEED]) else {
            break;
        };
        let mended = crate::mend_line(out, written, chars, true);
        let note = [mended.report];
        let noted = laying::lay(report, lines, &note);
        written = mended.written.next;
        lines = noted.next;
        at += line.len();
    }
    LinesMended {
        written,
        lines,
        next: at,
    }
}

fn no_room() -> PieceMended
    ensures { (result.refusal ≡ no_room) × (result.written ≡ 0) × (result.lines ≡ 0) × (carried_in result.carried ≡ []) }
{
    PieceMended {
        refusal: refusals::NO_ROOM,
        written: 0,
        lines: 0,
        carried: pieces::nothing(),
    }
}

// One piece: its lines that have their feed, and what is carried over.
pub fn feed(s: &[u8], out: &mut [u8], report: &mut [u8]) -> PieceMended
    ensures answer { PieceAnswer s.now out.old report.old result }
    ensures written { out.new ≡ piece_written s.now out.old
        report.old }
    ensures reported { report.new
        ≡ piece_reported s.now out.old report.old }
{
    if out.len() < s.len() {
        return no_room();
    }
    let lines = text::count_lines(s);
    if report.len() < lines {
        return no_room();
    }
    let done = mend_whole(s, out, report);
    let carried = pieces::carry(s, done.next, MOST_HELD);
    PieceMended {
        refusal: refusals::ACCEPTED,
        written: done.written,
        lines: done.lines,
        carried,
    }
}

fn refuse_text() -> TextMended
    ensures { result ≡ record { refusal = no_room; written = 0; lines = 0 } }
{
    TextMended {
        refusal: refusals::NO_ROOM,
        written: 0,
        lines: 0,
    }
}

// A last line without a feed, and the report on it.
fn mend_last(line: &[u8], out: &mut [u8], written: usize, report: &mut [u8], lines: usize)
    requires { written ≤ length out.old }
    ensures written { out.new ≡ lay_leaves out.old written
        (mended_bytes record { chars = line.now; fed = false }) }
    ensures reported { report.new
        ≡ lay_leaves report.old lines (report_said record { chars = line.now; fed = false }) }
{
    let mended = crate::mend_line(out, written, line, false);
    let note = [mended.report];
    laying::lay(report, lines, &note);
}

// A whole text: the lines that are left of it, and the report on each of its lines. A text in pieces
// ends with this, on what is carried over from the last piece.
pub fn mend(s: &[u8], out: &mut [u8], report: &mut [u8]) -> TextMended
    ensures answer { (result ≡ text_answer s.now out.old report.old)
        × TextWithin out.old report.old result }
    ensures written { out.new ≡ text_written s.now out.old report.old }
    ensures reported { report.new
        ≡ text_reported s.now out.old report.old }
{
    if out.len() < s.len() {
        return refuse_text();
    }
    let lines = text::count_lines(s);
    if report.len() < lines {
        return refuse_text();
    }
    let done = mend_whole(s, out, report);
    let next = done.next;
    if s.len() <= next {
        return TextMended {
            refusal: refusals::ACCEPTED,
            written: done.written,
            lines,
        };
    }
    mend_last(&s[next..], out, done.written, report, done.lines);
    TextMended {
        refusal: refusals::ACCEPTED,
        written: done.written,
        lines,
    }
}
