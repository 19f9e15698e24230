// The line that answers a read or a write at a code, laid at a place of a buffer.
ghost use Rattle.std.specs.Prelude.{◌≡◌, ◌+◌, ◌≤◌};
ghost use Rattle.text.specs.Putting.{Puts, line_room, line_answer, line_leaves};
ghost use Rattle.bench_answers.specs.AccessLine.{access_fields, access_line};

use scratchpad::fine::FineDegrees;
use temperature::Reading;
use text::laying::Written;
use text::putting::LINE_ROOM;
use text::{LINE_FEED, SLASH, SPACE, laying, putting};

// The nine bytes of a scratchpad as a master reads them.
pub type Pad = [u8; 9];

// The fields of the line, each with the character behind it.
fn put_access(
    out: &mut [u8],
    at: usize,
    refusal: u8,
    pad: Pad,
    reading: Reading,
    numerator: i32,
    denominator: u16,
) -> usize
    ensures { Puts out.old at (access_fields refusal pad reading numerator denominator)
        out.new result }
{
    let bytes = pad;
    let register = temperature::register_of(reading);
    let digits = [register.high, register.low];
    let behind_refusal = putting::put_number(out, at, refusal as u64, SPACE);
    let behind_pad = putting::put_bytes(out, behind_refusal, &bytes, SPACE);
    let behind_reading = putting::put_bytes(out, behind_pad, &digits, SPACE);
    let behind_numerator = putting::put_signed(out, behind_reading, numerator, SLASH);
    putting::put_number(out, behind_numerator, denominator as u64, LINE_FEED)
}

pub fn access_line(
    out: &mut [u8],
    at: usize,
    refusal: u8,
    pad: Pad,
    reading: Reading,
    fine: FineDegrees,
) -> Written
    ensures answer { result ≡ line_answer out.old at (access_line refusal pad reading fine) }
    ensures written { out.new ≡ line_leaves out.old at
        (access_line refusal pad reading fine) }
    ensures fits { result.next ≤ at + line_room }
{
    let room = laying::has_room(out, at, LINE_ROOM);
    if !room {
        return putting::no_room();
    }
    putting::behind(put_access(
        out,
        at,
        refusal,
        pad,
        reading,
        fine.numerator,
        fine.denominator,
    ))
}
