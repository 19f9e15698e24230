// A search or an alarm search and its answer: the counts, a line for each code, the lines that it recorded.
ghost use Rattle.std.specs.Prelude.{◌≡◌, ◌≤◌, ◌+◌, ◌*◌, ◌++◌, length};
ghost use Rattle.basic_laws.specs.Laid.{laid};
ghost use Rattle.master_rules.specs.Search.{search_outcome, answer_of, list_after, recording_after};
ghost use Rattle.bench_answers.specs.Answers.{search_line, code_lines};
ghost use Rattle.bench_answers.specs.Said.{says};
ghost use Rattle.bench_answers.specs.Whole.{room, Says, whole_said, whole_left};
ghost use Rattle.bench_answers.specs.Found.{command_for, of_search};

use crate::call_answers::Said;
use bench::Bench;
use search::{FEWEST_BYTES, FEWEST_PLACES, Searched};
use text::laying;

// The bytes that an answer is lent: more than any answer needs.
pub const ROOM: usize = 4096;

// The lines of codes, one behind the other.
fn put_codes(out: &mut [u8], at: usize, codes: &[u64]) -> usize
    requires { at + 17 * length codes.now + 64 ≤ length out.old }
    ensures answer { result ≡ at + 17 * length codes.now }
    ensures written { out.new ≡ laid out.old at (code_lines codes.now) }
{
    let mut to = at;
    for &code in codes {
        to = crate::code_line(out, to, code).next;
    }
    to
}

// The counts of a search, the codes that it listed and the lines that it recorded.
fn say_found(
    bench: Bench,
    refusal: u8,
    passes: u8,
    slots: u16,
    codes: &[u64],
    recording: &[u8],
    out: &mut [u8],
) -> Said
    requires { (length codes.now ≤ 32) × (length recording.now ≤ 1824) × (room ≤ length out.old) }
    ensures { Says out.old (says
        (search_line refusal (length codes.now) passes slots (length recording.now)
        ++ (code_lines codes.now ++ recording.now)) bench) out.new result }
{
    let count = codes.len() as u8;
    let bytes = recording.len() as u16;
    let head = crate::search_line(out, 0, refusal, count, passes, slots, bytes);
    let behind_codes = put_codes(out, head.next, codes);
    let end = laying::lay(out, behind_codes, recording);
    Said {
        refusal: refusals::ACCEPTED,
        count: end.next,
        bench,
    }
}

// The search for all devices, or for those with the alarm flag.
fn run(bench: Bench, alarms: bool, list: &mut [u64], recording: &mut [u8]) -> Searched
    ensures answer { result ≡ answer_of (search_outcome (command_for alarms) bench (length list.old)
        (length recording.old)) }
    ensures listed { list.new ≡ list_after list.old
        (search_outcome (command_for alarms) bench (length list.old) (length recording.old)) }
    ensures written { recording.new
        ≡ recording_after recording.old
        (search_outcome (command_for alarms) bench (length list.old) (length recording.old)) }
{
    if alarms {
        return search::alarm_search(bench, list, recording);
    }
    search::search(bench, list, recording)
}

fn found_in(
    bench: Bench,
    alarms: bool,
    list: &mut [u64],
    recording: &mut [u8],
    out: &mut [u8],
) -> Said
    requires { room ≤ length out.old }
    ensures { Says out.old (of_search
        (search_outcome (command_for alarms) bench (length list.old) (length recording.old)))
        out.new result }
{
    let r = run(bench, alarms, list, recording);
    let after = r.bench;
    let codes = r.codes as usize;
    let bytes = r.bytes as usize;
    say_found(
        after,
        r.refusal,
        r.passes,
        r.slots,
        &list[..codes],
        &recording[..bytes],
        out,
    )
}

// Parts of a list and a recording lent to a search. More than it takes is as good as just enough.
fn lend(
    bench: Bench,
    alarms: bool,
    list: &mut [u64],
    recording: &mut [u8],
    places: usize,
    bytes: usize,
    out: &mut [u8],
) -> Said
    requires { (length list.old ≡ 32) × (length recording.old ≡ 1824) × (room ≤ length out.old) }
    ensures { Says out.old (of_search (search_outcome (command_for alarms) bench places bytes))
        out.new result }
{
    let lent_places = places.min(FEWEST_PLACES);
    let lent_bytes = bytes.min(FEWEST_BYTES);
    found_in(
        bench,
        alarms,
        &mut list[..lent_places],
        &mut recording[..lent_bytes],
        out,
    )
}

fn search(bench: Bench, alarms: bool, places: usize, bytes: usize, out: &mut [u8]) -> Said
    requires { room ≤ length out.old }
    ensures { Says out.old (of_search (search_outcome (command_for alarms) bench places bytes))
        out.new result }
{
    let mut list = [0u64; FEWEST_PLACES];
    let mut recording = [0u8; FEWEST_BYTES];
    lend(bench, alarms, &mut list, &mut recording, places, bytes, out)
}

// The search and its answer at the front of what is lent. Refused with 1 where less than the room is lent.
pub fn found(bench: Bench, alarms: bool, places: usize, bytes: usize, out: &mut [u8]) -> Said
    ensures answer { result ≡ whole_said bench (of_search (search_outcome (command_for alarms) bench places bytes))
        out.old }
    ensures written { out.new ≡ whole_left
        (of_search (search_outcome (command_for alarms) bench places bytes)) out.old }
    ensures fits { result.count ≤ room }
{
    if out.len() < ROOM {
        return Said {
            refusal: refusals::NO_ROOM,
            count: 0,
            bench,
        };
    }
    search(bench, alarms, places, bytes, out)
}
