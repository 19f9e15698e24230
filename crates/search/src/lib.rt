// A master over the bench: search and alarm search, and reading and writing at a code.
#![tactic(auto)]

pub mod pass;
pub mod place;

ghost use Rattle.std.specs.Prelude.{◌<◌, ◌≤◌, ◌≡◌, length};
ghost use Rattle.basic_laws.specs.Laid.{laid};
ghost use Rattle.commands.specs.Commands.{search_rom, alarm_search};
ghost use Rattle.frame.specs.Recording.{write_all};
ghost use Rattle.frame.specs.Writing.{fed_line};
ghost use Rattle.bench.specs.Slot.{reset_done};
ghost use Rattle.master_rules.specs.Search.{most_passes, fewest_places, fewest_bytes, refused_outcome, lonely_outcome};
ghost use Rattle.master_rules.specs.Search.{search_outcome, answer_of, list_after, recording_after};
ghost use Rattle.history_laws.specs.Demand.{SearchPromise, AlarmPromise};
ghost use Rattle.search.specs.Sweep.{frames_of, sweep_of, swept_all, pass_from, codes_with, goes_on, swept, entered_at};
ghost use Rattle.search.specs.Sweep.{listed_after, Counted};

use crate::pass::CODE_BITS;
pub use at_code::{read_at, write_at};
use bench::Bench;
use frame::frame_lines;
pub use master_rules::{Access, Searched};

// The fewest places of a list and bytes of a recording that a search takes: 32 codes, and a line of 57
// bytes for each.
pub const FEWEST_PLACES: usize = 32;

pub const FEWEST_BYTES: usize = 1824;

// How many passes a search makes at most.
const MOST_PASSES: u8 = 32;

// The passes so far: whether one more is to be made, the code before it and the place at which to
// depart from that, and the counts of what has been listed and recorded.
#[derive(Clone, Copy)]
struct Sweep {
    going: bool,
    previous: u64,
    departure: u8,
    codes: u8,
    passes: u8,
    slots: u16,
    bytes: u16,
    bench: Bench,
}

// The code in its place of the list, and how many there are then; nothing where nobody has answered.
fn enter(list: &mut [u64], place: u8, answered: bool, code: u64) -> u8
    requires { (place < most_passes) × (place < length list.old) }
    ensures answer { result ≡ codes_with answered place }
    ensures listed { list.new ≡ entered_at list.old place answered code }
{
    if answered {
        list[place as usize] = code;
        return place + 1;
    }
    place
}

// Whether a pass that found a code leaves a place at which to depart from it.
fn goes_on(answered: bool, last: u8) -> bool
    ensures answer { result ≡ goes_on answered last }
{
    if answered {
        return last < CODE_BITS;
    }
    false
}

// One pass on a bench that its reset has restarted, its frame written behind the others and its code
// listed behind the others.
fn turn(s: Sweep, restarted: Bench, command: u8, list: &mut [u64], recording: &mut [u8]) -> Sweep
    requires { Counted s × (s.passes < most_passes) × (fewest_places ≤ length list.old)
        × (fewest_bytes ≤ length recording.old) }
    ensures answer { result ≡ swept s (pass_from command s restarted) }
    ensures listed { list.new ≡ listed_after list.old s.codes
        (pass_from command s restarted) }
    ensures written { recording.new
        ≡ laid recording.old s.bytes (fed_line (pass_from command s restarted).shown) }
{
    let w = pass::pass(restarted, command, s.previous, s.departure);
    let shown = w.shown;
    let after = w.bench;
    let slots = shown.count;
    let written = frame_lines::write_line_at(recording, s.bytes as usize, shown);
    let codes = enter(list, s.codes, w.answered, w.code);
    Sweep {
        going: goes_on(w.answered, w.last),
        previous: w.code,
        departure: w.last,
        codes,
        passes: s.passes + 1,
        slots: s.slots + slots,
        bytes: written.next as u16,
        bench: after,
    }
}

// Passes from the first plan on, up to one that leaves no place to depart at or that nobody answers. The
// first goes on from the reset that showed presence; each later one makes its own.
fn sweep_wire(
    bench: Bench,
    restarted: Bench,
    command: u8,
    list: &mut [u64],
    recording: &mut [u8],
) -> Sweep
    requires { (restarted ≡ (reset_done bench).bench) × (fewest_places ≤ length list.old)
        × (fewest_bytes ≤ length recording.old) }
    ensures answer { result ≡ sweep_of (swept_all command bench) }
    ensures listed { list.new ≡ laid list.old 0 (swept_all command bench).codes }
    ensures written { recording.new
        ≡ laid recording.old 0 (write_all (frames_of (swept_all command bench))) }
{
    let none = Sweep {
        going: true,
        previous: 0,
        departure: CODE_BITS,
        codes: 0,
        passes: 0,
        slots: 0,
        bytes: 0,
        bench,
    };
    let mut s = turn(none, restarted, command, list, recording);
    for _ in 1..MOST_PASSES {
        if !s.going {
            return s;
        }
        let last = s.bench;
        let r = bench::reset(last);
        s = turn(s, r.bench, command, list, recording);
    }
    s
}

fn refuse_search(number: u8, bench: Bench) -> Searched
    ensures answer { result ≡ answer_of (refused_outcome number bench) }
{
    Searched {
        refusal: number,
        codes: 0,
        passes: 0,
        slots: 0,
        bytes: 0,
        bench,
    }
}

// The answer where nobody showed presence: one frame without it.
fn record_absence(bench: Bench, recording: &mut [u8]) -> Searched
    requires { fewest_bytes ≤ length recording.old }
    ensures answer { result ≡ answer_of (lonely_outcome bench) }
    ensures written { recording.new ≡ recording_after recording.old (lonely_outcome bench) }
{
    let written = frame_lines::write_line_at(recording, 0, frame::blank(false));
    Searched {
        refusal: refusals::ACCEPTED,
        codes: 0,
        passes: 0,
        slots: 0,
        bytes: written.next as u16,
        bench,
    }
}

// The search by a command: refusals first, then the wire, then the passes.
fn run_search(bench: Bench, command: u8, list: &mut [u64], recording: &mut [u8]) -> Searched
    ensures answer { result ≡ answer_of (search_outcome command bench (length list.old)
        (length recording.old)) }
    ensures listed { list.new ≡ list_after list.old
        (search_outcome command bench (length list.old) (length recording.old)) }
    ensures written { recording.new
        ≡ recording_after recording.old
        (search_outcome command bench (length list.old) (length recording.old)) }
{
    if list.len() < FEWEST_PLACES {
        return refuse_search(refusals::NO_ROOM, bench);
    }
    if recording.len() < FEWEST_BYTES {
        return refuse_search(refusals::NO_ROOM, bench);
    }
    if !bench::is_free(bench) {
        return refuse_search(refusals::WIRE_BUSY, bench);
    }
    let r = bench::reset(bench);
    if !r.presence {
        let after = r.bench;
        return record_absence(after, recording);
    }
    let restarted = r.bench;
    let s = sweep_wire(bench, restarted, command, list, recording);
    let after = s.bench;
    Searched {
        refusal: refusals::ACCEPTED,
        codes: s.codes,
        passes: s.passes,
        slots: s.slots,
        bytes: s.bytes,
        bench: after,
    }
}

// Lists the code of every device.
pub fn search(bench: Bench, list: &mut [u64], recording: &mut [u8]) -> Searched
    ensures answer { result ≡ answer_of (search_outcome search_rom bench (length list.old)
        (length recording.old)) }
    ensures listed { list.new ≡ list_after list.old
        (search_outcome search_rom bench (length list.old) (length recording.old)) }
    ensures written { recording.new
        ≡ recording_after recording.old
        (search_outcome search_rom bench (length list.old) (length recording.old)) }
    ensures history { SearchPromise bench (length list.old) (length recording.old) }
{
    run_search(bench, commands::SEARCH_ROM, list, recording)
}

// Lists the code of every device with the alarm flag.
pub fn alarm_search(bench: Bench, list: &mut [u64], recording: &mut [u8]) -> Searched
    ensures answer { result ≡ answer_of (search_outcome alarm_search bench (length list.old)
        (length recording.old)) }
    ensures listed { list.new ≡ list_after list.old
        (search_outcome alarm_search bench (length list.old) (length recording.old)) }
    ensures written { recording.new
        ≡ recording_after recording.old
        (search_outcome alarm_search bench (length list.old) (length recording.old)) }
    ensures history { AlarmPromise bench (length list.old) (length recording.old) }
{
    run_search(bench, commands::ALARM_SEARCH, list, recording)
}
