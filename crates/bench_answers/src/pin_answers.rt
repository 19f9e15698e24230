// The call for address pins and its answer: the counts with the shared number, then a line for each probe.
ghost use Rattle.std.specs.Prelude.{◌≡◌, ◌++◌, ◌≤◌, ◌+◌, ◌*◌, length};
ghost use Rattle.basic_laws.specs.Laid.{laid};
ghost use Rattle.master_rules.specs.Pins.{pins_outcome};
ghost use Rattle.master_rules.specs.declared.SharedPin.TheVariants.{NoPin};
ghost use Rattle.text.specs.Putting.{Puts, line_room, line_answer, line_leaves, field_next, field_leaves};
ghost use Rattle.bench_answers.specs.Said.{says};
ghost use Rattle.bench_answers.specs.Whole.{room, Says, whole_said, whole_left};
ghost use Rattle.bench_answers.specs.PinLines.{shared_text, pins_line, pin_line, pin_lines, of_pins};

use crate::call_answers::Said;
use crate::search_answers::ROOM;
use bench::Bench;
use master_rules::SharedPin;
use search::FEWEST_PLACES;
use text::laying::Written;
use text::putting::LINE_ROOM;
use text::{LINE_FEED, SPACE, laying, putting};

// Shown where no two probes have a pin number.
const NO_NUMBER: u8 = 0x2D;

fn put_shared(out: &mut [u8], at: usize, shared: SharedPin, mark: u8) -> usize
    ensures answer { result ≡ field_next out.old at (shared_text shared) mark }
    ensures written { out.new ≡ field_leaves out.old at (shared_text shared) mark }
{
    match shared {
        SharedPin::NoPin => {
            let next = putting::put_char(out, at, NO_NUMBER);
            putting::put_char(out, next, mark)
        }
        SharedPin::Pin(pin) => putting::put_number(out, at, pin as u64, mark),
    }
}

// The first line.
fn put_counts(out: &mut [u8], at: usize, refusal: u8, codes: u8, shared: SharedPin) -> usize
    ensures { Puts out.old at (pins_line refusal codes shared) out.new result }
{
    let behind_refusal = putting::put_number(out, at, refusal as u64, SPACE);
    let behind_codes = putting::put_number(out, behind_refusal, codes as u64, SPACE);
    put_shared(out, behind_codes, shared, LINE_FEED)
}

// The answer to a call that is refused before it is made.
pub fn refusal_line(out: &mut [u8], at: usize, refusal: u8) -> Written
    ensures answer { result ≡ line_answer out.old at (pins_line refusal 0 NoPin) }
    ensures written { out.new ≡ line_leaves out.old at (pins_line refusal 0 NoPin) }
{
    let room = laying::has_room(out, at, LINE_ROOM);
    if !room {
        return putting::no_room();
    }
    putting::behind(put_counts(out, at, refusal, 0, SharedPin::NoPin))
}

// The line of a probe.
fn put_pin(out: &mut [u8], at: usize, code: u64, pin: u8) -> usize
    ensures { Puts out.old at (pin_line code pin) out.new result
        × (length (pin_line code pin) ≤ 21) }
{
    let behind_code = putting::put_digits(out, at, 16, code, SPACE);
    putting::put_number(out, behind_code, pin as u64, LINE_FEED)
}

// The lines of all probes, one behind the other.
fn put_pins(out: &mut [u8], at: usize, codes: &[u64], pins: &[u8]) -> usize
    requires { (length codes.now ≡ length pins.now) × (at + 21 * length codes.now ≤ length out.old) }
    ensures { (result ≡ at + length (pin_lines codes.now pins.now))
        × (out.new ≡ laid out.old at (pin_lines codes.now pins.now))
        × (length (pin_lines codes.now pins.now) ≤ 21 * length codes.now) }
{
    let mut to = at;
    for (&code, &pin) in codes.iter().zip(pins) {
        to = put_pin(out, to, code, pin);
    }
    to
}

// The answer in text: what the call came to, the codes that it listed and their pins.
fn say(
    bench: Bench,
    refusal: u8,
    shared: SharedPin,
    codes: &[u64],
    pins: &[u8],
    out: &mut [u8],
) -> Said
    requires { (length codes.now ≤ 32) × (length codes.now ≡ length pins.now)
        × (length (pins_line refusal (length codes.now) shared) ≤ line_room) × (room ≤ length out.old) }
    ensures { Says out.old (says (pins_line refusal (length codes.now) shared
        ++ pin_lines codes.now pins.now) bench) out.new result }
{
    let behind_counts = put_counts(out, 0, refusal, codes.len() as u8, shared);
    let end = put_pins(out, behind_counts, codes, pins);
    Said {
        refusal: refusals::ACCEPTED,
        count: end,
        bench,
    }
}

// The call with a list lent to it.
fn ask(bench: Bench, list: &mut [u64], out: &mut [u8]) -> Said
    requires { room ≤ length out.old }
    ensures { Says out.old (of_pins (pins_outcome bench (length list.old)))
        out.new result }
{
    let answer = pins::read_pins(bench, list);
    let after = answer.bench;
    let refusal = answer.refusal;
    let shared = answer.shared;
    let numbers = answer.pins;
    let codes = answer.codes as usize;
    let bytes: &[u8] = &numbers;
    say(after, refusal, shared, &list[..codes], &bytes[..codes], out)
}

// A part of a list is lent. More than the call takes is as good as just enough.
fn lend(bench: Bench, list: &mut [u64], places: usize, out: &mut [u8]) -> Said
    requires { (length list.old ≡ 32) × (room ≤ length out.old) }
    ensures { Says out.old (of_pins (pins_outcome bench places)) out.new result }
{
    let lent = places.min(FEWEST_PLACES);
    ask(bench, &mut list[..lent], out)
}

fn answer(bench: Bench, places: usize, out: &mut [u8]) -> Said
    requires { room ≤ length out.old }
    ensures { Says out.old (of_pins (pins_outcome bench places)) out.new result }
{
    let mut list = [0u64; FEWEST_PLACES];
    lend(bench, &mut list, places, out)
}

// The call and its answer at the front of what is lent. Refused with 1 where less than the room is lent.
pub fn found(bench: Bench, places: usize, out: &mut [u8]) -> Said
    ensures answer { result ≡ whole_said bench (of_pins (pins_outcome bench places)) out.old }
    ensures written { out.new ≡ whole_left (of_pins (pins_outcome bench places)) out.old }
    ensures fits { result.count ≤ room }
{
    if out.len() < ROOM {
        return Said {
            refusal: refusals::NO_ROOM,
            count: 0,
            bench,
        };
    }
    answer(bench, places, out)
}
