// The lines of a recording: each carries a frame, or is refused.
ghost use Rattle.std.specs.Prelude.{◌≡◌, ◌+◌, ◌*◌, ◌≤◌, length};
ghost use Rattle.basic_laws.specs.Laid.{laid};
ghost use Rattle.frame.specs.Frames.{bytes_for, most_slots};
ghost use Rattle.frame.specs.ReadLine.{line_read_at};
ghost use Rattle.frame.specs.Writing.{fed_line, line_write_answer, line_write_leaves};

use crate::Frame;
use text::laying;
use text::laying::Written;

mod parsing;

pub use parsing::read_line;

// What stands at a place of a recording.
#[derive(Clone, Copy)]
pub struct LineRead {
    pub refusal: u8,
    // whether nothing stands there, at or past the end
    pub done: bool,
    // the place of the next line; where there is nothing to read, the place asked for
    pub next: usize,
    // the frame, blank when there is none
    pub frame: Frame,
}

// The line that starts at a place, and the place of the next; done at or past the end.
pub fn read_line_at(s: &[u8], at: usize) -> LineRead
    ensures answer { result ≡ line_read_at s.now at }
{
    if s.len() <= at {
        return LineRead {
            refusal: refusals::ACCEPTED,
            done: true,
            next: at,
            frame: crate::blank(false),
        };
    }
    let end = text::line_end(s, at);
    if end < s.len() {
        return read_line(&s[at..end], true, end + 1);
    }
    read_line(&s[at..end], false, end)
}

// The whole line with its feed, where there is room for it: two digits presence, four digits count,
// the slots' bytes.
fn put_line(s: &mut [u8], at: usize, f: Frame)
    requires { (f.count ≤ most_slots) × (at + (7 + 2 * bytes_for f.count) ≤ length s.old) }
    ensures { s.new ≡ laid s.old at (fed_line f) }
{
    let count = f.count;
    let bits = f.bits;
    let n = crate::bytes_for(count);
    laying::lay_hex(s, at, 2, u64::from(f.presence));
    laying::lay_hex(s, at + 2, 4, count as u64);
    laying::lay_hex_bytes(s, at + 6, &bits[0..n]);
    let end = at + 6 + 2 * n;
    s[end] = text::LINE_FEED;
}

fn refuse_write(refusal: u8) -> Written
    ensures { result ≡ record { refusal = refusal; next = 0 } }
{
    Written { refusal, next: 0 }
}

// The frame's line with its feed, written at a place. A frame that no line can carry is refused before a lack of room.
pub fn write_line_at(s: &mut [u8], at: usize, f: Frame) -> Written
    ensures answer { result ≡ line_write_answer s.old at f }
    ensures written { s.new ≡ line_write_leaves s.old at f }
{
    let sound = crate::can_carry(f);
    if !sound {
        return refuse_write(refusals::MALFORMED);
    }
    let width = 7 + 2 * crate::bytes_for(f.count);
    let room = laying::has_room(s, at, width);
    if !room {
        return refuse_write(refusals::NO_ROOM);
    }
    put_line(s, at, f);
    Written {
        refusal: refusals::ACCEPTED,
        next: at + width,
    }
}
