// The line that tells what became of a line of a recording that was mended.
ghost use Rattle.std.specs.Prelude.{◌≡◌, ◌≤◌, length};
ghost use Rattle.text.specs.Laying.{lay_answer, lay_leaves};
ghost use Rattle.text.specs.Putting.{Puts, line_room, line_answer, line_leaves};
ghost use Rattle.mending.specs.Notice.{notice_line, notice_of, notices_answer, notices_leaves};

use text::laying::Written;
use text::putting::LINE_ROOM;
use text::{LINE_FEED, SPACE, laying, putting};

// The most bytes that are told of a line: a number of 64 bits, a space, a byte, a feed.
pub const MOST_TOLD: usize = 25;

// What came of a report.
#[derive(Clone, Copy)]
pub struct Noticed {
    pub refusal: u8,
    // how many bytes of what is told stand at the front of its buffer
    pub written: usize,
    // how many lines there were in all, in 64 bits
    pub lines: u64,
}

// The two fields of the line, each with the character behind it.
fn put_fields(out: &mut [u8], number: u64, report: u8) -> usize
    ensures { Puts out.old 0 (notice_line number report) out.new result
        × (length (notice_line number report) ≤ line_room) }
{
    let behind_number = putting::put_number(out, 0, number, SPACE);
    putting::put_number(out, behind_number, report as u64, LINE_FEED)
}

// The number of a line and its report, at the front of a buffer; nothing for a line that was kept.
fn notice(out: &mut [u8], number: u64, report: u8) -> Written
    ensures answer { (result ≡ line_answer out.old 0 (notice_of number report))
        × (result.next ≤ length out.old) }
    ensures written { out.new ≡ line_leaves out.old 0 (notice_of number report) }
{
    let room = laying::has_room(out, 0, LINE_ROOM);
    if !room {
        return putting::no_room();
    }
    if report == 0 {
        return putting::behind(0);
    }
    putting::behind(put_fields(out, number, report))
}

// The same at a place of a buffer.
fn lay_notice(out: &mut [u8], at: usize, number: u64, report: u8) -> Written
    ensures answer { result ≡ lay_answer out.old at (notice_of number report) }
    ensures written { out.new ≡ lay_leaves out.old at (notice_of number report) }
{
    let mut text = [0u8; LINE_ROOM];
    let told = notice(&mut text, number, report);
    let end = told.next;
    laying::lay(out, at, &text[..end])
}

// What is told of lines by their reports, behind so many lines before them, at the front of a buffer.
pub fn notices(out: &mut [u8], report: &[u8], before: u64) -> Noticed
    ensures answer { (result ≡ notices_answer before report.now out.old)
        × (result.written ≤ length out.old) }
    ensures written { out.new ≡ notices_leaves before report.now out.old }
{
    if out.len() / MOST_TOLD < report.len() {
        return Noticed {
            refusal: refusals::NO_ROOM,
            written: 0,
            lines: 0,
        };
    }
    let mut number = before;
    let mut written = 0;
    for &byte in report {
        number = number.wrapping_add(1);
        written = lay_notice(out, written, number, byte).next;
    }
    Noticed {
        refusal: refusals::ACCEPTED,
        written,
        lines: number,
    }
}
