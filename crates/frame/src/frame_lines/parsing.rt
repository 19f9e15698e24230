// The parts of reading a line, each over the characters before its feed.
ghost use Rattle.std.specs.Prelude.{◌≡◌, true, ◌*◌, ◌≤◌, length};
ghost use Rattle.text.specs.Digits.{spells};
ghost use Rattle.frame.specs.Frames.{bytes_for, most_slots};
ghost use Rattle.frame.specs.ReadLine.{presence_in, slot_count_in, read_body, read_digits, read_line, found};
ghost use Rattle.frame.specs.ReadLine.{line_answer_of, no_frame};

use crate::Frame;
use crate::frame_lines::LineRead;
use text::laying;

// The most characters before a feed.
const LONGEST: usize = 134;

// The characters of presence and count.
const HEAD: usize = 6;

// The answer for a refused line.
fn refuse(refusal: u8, next: usize) -> LineRead
    ensures { result ≡ line_answer_of (found (no_frame refusal) next) }
{
    LineRead {
        refusal,
        done: false,
        next,
        frame: crate::blank(false),
    }
}

// The slots' bytes, behind a head that is in order.
fn read_slots(body: &[u8], presence: bool, count: u16, next: usize) -> LineRead
    requires { (count ≤ most_slots) × (length body.now ≡ 2 * bytes_for count) × (spells 16 body.now ≡ true) }
    ensures { result ≡ line_answer_of (found (read_body presence count body.now) next) }
{
    let n = crate::bytes_for(count);
    let mut bits = [0u8; 64];
    laying::read_bytes(&mut bits, body);
    let clear = crate::clear_from(&bits[0..n], count);
    if !clear {
        return refuse(refusals::MALFORMED, next);
    }
    LineRead {
        refusal: refusals::ACCEPTED,
        done: false,
        next,
        frame: Frame {
            presence,
            count,
            bits,
        },
    }
}

// What the first two digits say.
fn presence_of(line: &[u8]) -> u64
    requires { (6 ≤ length line.now) × (spells 16 line.now ≡ true) }
    ensures { result ≡ presence_in line.now }
{
    let read = text::read_fixed(&line[0..2], 16, 2);
    read.number
}

// What the four digits after them say.
fn count_of(line: &[u8]) -> u16
    requires { (6 ≤ length line.now) × (spells 16 line.now ≡ true) }
    ensures { result ≡ slot_count_in line.now }
{
    let read = text::read_fixed(&line[2..6], 16, 4);
    read.number as u16
}

// A line of digits only, with a feed behind it: presence, count and the slots' bytes.
fn read_digits(line: &[u8], next: usize) -> LineRead
    requires { spells 16 line.now ≡ true }
    ensures { result ≡ line_answer_of (found (read_digits line.now) next) }
{
    if line.len() < HEAD {
        return refuse(refusals::MALFORMED, next);
    }
    let presence = presence_of(line);
    if 1 < presence {
        return refuse(refusals::MALFORMED, next);
    }
    let count = count_of(line);
    let shown = presence == 1;
    let allowed = crate::count_allowed(shown, count);
    if !allowed {
        return refuse(refusals::MALFORMED, next);
    }
    let length = HEAD + 2 * crate::bytes_for(count);
    if line.len() != length {
        return refuse(refusals::MALFORMED, next);
    }
    read_slots(&line[HEAD..], shown, count, next)
}

// A line, by its characters before the feed or the end and whether there is a feed. The place of the
// next line is handed on.
pub fn read_line(line: &[u8], fed: bool, next: usize) -> LineRead
    ensures answer { result ≡ line_answer_of (found (read_line record { chars = line.now; fed = fed }) next) }
{
    if LONGEST < line.len() {
        return refuse(refusals::MALFORMED, next);
    }
    if !fed {
        return refuse(refusals::NOT_HEX, next);
    }
    let digits = text::all_digits(line, 16);
    if !digits {
        return refuse(refusals::NOT_HEX, next);
    }
    read_digits(line, next)
}
