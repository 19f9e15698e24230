// Recordings of any length, in pieces cut anywhere: the program lends a buffer that holds what was
// carried over from the piece before and the newly read bytes behind it, and a buffer for the text.
ghost use Rattle.std.specs.Prelude.{◌≡◌, ◌*◌, ◌≤◌, length};
ghost use Rattle.basic_laws.specs.Laid.{laid};
ghost use Rattle.pieces.specs.Pieces.{said_whole, FeedAnswer, feed_written, finish_answer, finish_written};
ghost use Rattle.pieces.specs.Walk.{Told};
ghost use Rattle.naming.specs.Printing.{printed_line};
ghost use Rattle.naming.specs.Streaming.{most_printed, most_held_of_recording};

use crate::printing;
use pieces::{Fed, Progress};
use text::LINE_FEED;
use text::laying::Written;

// As much of an unfinished line as tells that it is over-long: one character more than a line may have.
const MOST_HELD: usize = 135;

// The most bytes printed for one byte of a recording: an empty line is refused with ten.
const MOST_PRINTED: usize = 10;

// The text of each line that has its feed.
fn print_whole(s: &[u8], out: &mut [u8]) -> Progress
    requires { most_printed * length s.now ≤ length out.old }
    ensures answer { Told printed_line most_printed s.now result }
    ensures written { out.new ≡ laid out.old 0 (said_whole printed_line s.now) }
{
    let mut at = 0;
    let mut written = 0;
    for line in s.split_inclusive(|&c| c == LINE_FEED) {
        let Some(chars) = line.strip_suffix(&[LINE_FEED]) else {
            break;
        };
        written = printing::print_line(out, written, chars, true).next;
        at += line.len();
    }
    Progress { written, next: at }
}

// One piece: the text of its whole lines, and what is carried over. The buffer for the text must have ten
// bytes for each byte of the piece.
pub fn feed(s: &[u8], out: &mut [u8]) -> Fed
    ensures answer { FeedAnswer printed_line most_printed most_held_of_recording s.now
        out.old result }
    ensures written { out.new ≡ feed_written printed_line most_printed most_held_of_recording s.now
        out.old }
{
    if out.len() / MOST_PRINTED < s.len() {
        return Fed {
            refusal: refusals::NO_ROOM,
            written: 0,
            carried: pieces::nothing(),
        };
    }
    let done = print_whole(s, out);
    let carried = pieces::carry(s, done.next, MOST_HELD);
    Fed {
        refusal: refusals::ACCEPTED,
        written: done.written,
        carried,
    }
}

// The end of the recording: the text of what was carried over, a last line without a feed among it.
pub fn finish(s: &[u8], out: &mut [u8]) -> Written
    ensures answer { (result ≡ finish_answer printed_line most_printed s.now out.old)
        × (result.next ≤ length out.old) }
    ensures written { out.new ≡ finish_written printed_line most_printed s.now
        out.old }
{
    if out.len() / MOST_PRINTED < s.len() {
        return Written {
            refusal: refusals::NO_ROOM,
            next: 0,
        };
    }
    let done = print_whole(s, out);
    let next = done.next;
    if next < s.len() {
        return printing::print_line(out, done.written, &s[next..], false);
    }
    Written {
        refusal: refusals::ACCEPTED,
        next: done.written,
    }
}
