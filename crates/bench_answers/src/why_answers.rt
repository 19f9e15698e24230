// The line that answers why a code is on the list of an alarm search, laid at a place of a buffer.
ghost use Rattle.std.specs.Prelude.{◌≡◌, ◌+◌, ◌≤◌, length};
ghost use Rattle.text.specs.Putting.{Puts, line_room, line_answer, line_leaves};
ghost use Rattle.bench_answers.specs.WhyLine.{why_fields, why_line};

use text::laying::Written;
use text::putting::LINE_ROOM;
use text::{LINE_FEED, SPACE, laying, putting};
use why::rules::Why;

// The fields of the line, each with the character behind it.
fn put_fields(
    out: &mut [u8],
    at: usize,
    refusal: u8,
    reason: u8,
    count: i16,
    high: i16,
    low: i16,
    differs: bool,
) -> usize
    ensures { Puts out.old at (why_fields refusal reason count high low differs) out.new result
        × (length (why_fields refusal reason count high low differs) ≤ line_room) }
{
    let behind_refusal = putting::put_number(out, at, refusal as u64, SPACE);
    let behind_reason = putting::put_number(out, behind_refusal, reason as u64, SPACE);
    let behind_reading = putting::put_signed(out, behind_reason, count as i32, SPACE);
    let behind_high = putting::put_signed(out, behind_reading, high as i32, SPACE);
    let behind_low = putting::put_signed(out, behind_high, low as i32, SPACE);
    putting::put_flag(out, behind_low, differs, LINE_FEED)
}

pub fn why_line(out: &mut [u8], at: usize, w: Why) -> Written
    ensures answer { result ≡ line_answer out.old at (why_line w) }
    ensures written { out.new ≡ line_leaves out.old at (why_line w) }
    ensures fits { result.next ≤ at + line_room }
{
    let room = laying::has_room(out, at, LINE_ROOM);
    if !room {
        return putting::no_room();
    }
    let reason = w.reason;
    let number = why::number_of(reason);
    let reading = w.reading;
    let count = temperature::count_of(reading);
    let high = w.high;
    let low = w.low;
    putting::behind(put_fields(out, at, w.refusal, number, count, high.0, low.0, w.differs))
}
