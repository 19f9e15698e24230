// The call for address pins: a search, then a read at the code of each probe that has pins.
#![tactic(auto)]

ghost use Rattle.std.specs.Prelude.{◌≡◌, ◌≤◌, ◌<◌, ◌+◌, length, take};
ghost use Rattle.refusals.specs.Refusals.{accepted};
ghost use Rattle.basic_laws.specs.Fold.{fold};
ghost use Rattle.master_rules.specs.Pins.{is_pinned, have_pin, shared_pin, pins_step, PinsFound, nobody_read, not_pinned};
ghost use Rattle.master_rules.specs.Pins.{pins_searched, pins_outcome, pinned_of, pins_list_after};
ghost use Rattle.commands.specs.Commands.{search_rom};
ghost use Rattle.master_rules.specs.Search.{search_outcome};
ghost use Rattle.access_laws.specs.Pinning.{PinsPromise};
ghost use Rattle.pins.specs.Reading.{Holds};

use bench::Bench;
use master_rules::{Pinned, SharedPin};
use search::{FEWEST_BYTES, FEWEST_PLACES};

// How many pin numbers there are.
const PIN_NUMBERS: u8 = 16;

// The probes read so far, with their pins.
#[derive(Clone, Copy)]
struct Reading {
    codes: u8,
    pins: [u8; 32],
    bench: Bench,
}

fn is_pinned(code: u64) -> bool
    ensures answer { result ≡ is_pinned code }
{
    let row = family::properties_of(rom::family_of(code));
    row.pinned
}

// A read at the code of a probe that has pins; a reply that is refused adds nothing.
fn read_one(r: Reading, code: u64, list: &mut [u64]) -> Reading
    requires { (r.codes < 32) × (32 ≤ length list.old) }
    ensures { (result.codes ≤ r.codes + 1)
        × ((list0 : _) (f : PinsFound) → Holds list0 list.old r f
        → Holds list0 list.new result (pins_step f code)) }
{
    if !is_pinned(code) {
        return r;
    }
    let before = r.bench;
    let access = search::read_at(before, code);
    let after = access.bench;
    let mut pins = r.pins;
    let codes = r.codes;
    if access.refusal != refusals::ACCEPTED {
        return Reading {
            codes,
            pins,
            bench: after,
        };
    }
    let pad = access.pad;
    list[codes as usize] = code;
    pins[codes as usize] = pad[family::CONFIGURATION] % 16;
    Reading {
        codes: codes + 1,
        pins,
        bench: after,
    }
}

// A read at each of some codes whose family has pins, one after another.
fn read_all(bench: Bench, codes: &[u64], list: &mut [u64]) -> Reading
    requires { (length codes.now ≤ 32) × (32 ≤ length list.old) }
    ensures { Holds list.old list.new result
        (fold pins_step (nobody_read bench) codes.now) }
{
    let mut r = Reading {
        codes: 0,
        pins: [0; 32],
        bench,
    };
    for &code in codes {
        r = read_one(r, code, list);
    }
    r
}

// How many probes have a pin number.
fn have_pin(pins: &[u8], pin: u8) -> usize
    ensures { result ≡ have_pin pins.now pin }
{
    pins.iter().filter(|there| **there == pin).count()
}

// The lowest pin number that two probes have.
fn shared_pin(pins: &[u8]) -> SharedPin
    ensures { result ≡ shared_pin pins.now }
{
    for pin in 0..PIN_NUMBERS {
        let have = have_pin(pins, pin);
        if 1 < have {
            return SharedPin::Pin(pin);
        }
    }
    SharedPin::NoPin
}

fn refuse(refusal: u8, bench: Bench) -> Pinned
    ensures { result ≡ pinned_of (not_pinned refusal bench) }
{
    Pinned {
        refusal,
        codes: 0,
        pins: [0; 32],
        shared: SharedPin::NoPin,
        bench,
    }
}

// The answer of the reads.
fn answer_of(read: Reading) -> Pinned
    requires { read.codes ≤ 32 }
    ensures { result ≡ record {
      refusal = accepted;
      codes = read.codes;
      pins = read.pins;
      shared = shared_pin (take read.codes read.pins);
      bench = read.bench;
    } }
{
    let pins = read.pins;
    let codes = read.codes;
    let bench = read.bench;
    let bytes: &[u8] = &pins;
    let shared = shared_pin(&bytes[..codes as usize]);
    Pinned {
        refusal: refusals::ACCEPTED,
        codes,
        pins,
        shared,
        bench,
    }
}

// A search in room lent for it, then the reads at the codes that it listed.
fn search_and_read(
    bench: Bench,
    found: &mut [u64],
    recording: &mut [u8],
    list: &mut [u64],
) -> Pinned
    requires { (length found.old ≡ 32) × (length recording.old ≡ 1824) × (32 ≤ length list.old) }
    ensures answer { result ≡ pinned_of (pins_searched (search_outcome search_rom bench 32 1824)) }
    ensures listed { list.new ≡ pins_list_after list.old
        (pins_searched (search_outcome search_rom bench 32 1824)) }
{
    let searched = search::search(bench, found, recording);
    let after = searched.bench;
    if searched.refusal != refusals::ACCEPTED {
        return refuse(searched.refusal, after);
    }
    answer_of(read_all(after, &found[..searched.codes as usize], list))
}

// Lists the probes that have address pins, in the order of a search, with their pins as they are read.
pub fn read_pins(bench: Bench, list: &mut [u64]) -> Pinned
    ensures answer { result ≡ pinned_of (pins_outcome bench (length list.old)) }
    ensures listed { list.new ≡ pins_list_after list.old
        (pins_outcome bench (length list.old)) }
    ensures history { PinsPromise bench (length list.old) }
{
    if list.len() < FEWEST_PLACES {
        return refuse(refusals::NO_ROOM, bench);
    }
    let mut found = [0u64; FEWEST_PLACES];
    let mut recording = [0u8; FEWEST_BYTES];
    search_and_read(bench, &mut found, &mut recording, list)
}
