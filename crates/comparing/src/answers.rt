// The line in front of the part of two recordings: which of them it comes from, and the number of its
// first line.
ghost use Rattle.std.specs.Prelude.{◌≡◌, ◌≤◌, length};
ghost use Rattle.text.specs.Lines.{space};
ghost use Rattle.text.specs.Putting.{field_next, field_leaves, line_answer, line_leaves};
ghost use Rattle.comparing.specs.Heading.{side_word, heading_of};

use crate::FROM_OTHER;
use text::laying::Written;
use text::putting::LINE_ROOM;
use text::{LINE_FEED, SPACE, laying, putting};

// A word and a space, at the front.
fn put_word(out: &mut [u8], word: &[u8]) -> usize
    ensures answer { result ≡ field_next out.old 0 word.now space }
    ensures written { out.new ≡ field_leaves out.old 0 word.now space }
{
    let w = laying::lay(out, 0, word);
    putting::put_char(out, w.next, SPACE)
}

// The word of a side, or that there is none where the recordings are equal.
fn put_side(out: &mut [u8], side: u8, line: usize) -> usize
    ensures answer { result ≡ field_next out.old 0 (side_word side line) space }
    ensures written { out.new ≡ field_leaves out.old 0 (side_word side line) space }
{
    if line == 0 {
        return put_word(out, b"equal");
    }
    if side == FROM_OTHER {
        return put_word(out, b"other");
    }
    put_word(out, b"reference")
}

pub fn heading(out: &mut [u8], side: u8, line: usize) -> Written
    ensures answer { (result ≡ line_answer out.old 0 (heading_of side line))
        × (result.next ≤ length out.old) }
    ensures written { out.new ≡ line_leaves out.old 0 (heading_of side line) }
{
    let room = laying::has_room(out, 0, LINE_ROOM);
    if !room {
        return putting::no_room();
    }
    let behind_word = put_side(out, side, line);
    putting::behind(putting::put_number(out, behind_word, line as u64, LINE_FEED))
}
