// A bench of up to 32 thermometers on one wire. The bench goes in by value and comes back in the
// answer; its fields are private, so that only these calls make or change one. `of_records` makes one of
// records that were kept elsewhere, where a table can hold them.
#![tactic(auto)]

pub mod settling;
pub mod wire;

ghost use Rattle.std.specs.Prelude.{◌<◌, ◌&&◌, ◌≡◌};
ghost use Rattle.refusals.specs.Refusals.{not_a_table};
ghost use Rattle.device.specs.Offer.{offer_of};
ghost use Rattle.bench.specs.Bench.{vacant, empty_bench, place_of, free};
ghost use Rattle.bench.specs.Slot.{slotted, reset_done};
ghost use Rattle.bench.specs.Records.{absent, codes_fit, made_of};
ghost use Rattle.bench.specs.Settling.{settled_bench};
ghost use Rattle.bench.specs.Calls.{put_last, added_to, device_at, put_back, conversion_finished, copy_finished};
ghost use Rattle.bench.specs.Calls.{power_cycled, looked};

use crate::wire::Devices;
use device::{Device, Ended, Joining, Power, hearing, offer, power_and_finishes, stages};
use temperature::Sixteenths;

#[derive(Clone, Copy)]
pub struct Bench {
    devices: [Device; 32],
    count: u8,
}

// Where a code stands on a bench.
#[derive(Clone, Copy)]
pub enum Place {
    At(usize),
    Nowhere,
}

// The answer of a call that changes devices: 0, or the refusal and the bench as it came.
#[derive(Clone, Copy)]
pub struct Changed {
    pub refusal: u8,
    pub bench: Bench,
}

// The bench of records, or 22 and the empty bench.
#[derive(Clone, Copy)]
pub struct Made {
    pub refusal: u8,
    pub bench: Bench,
}

// The record of one device, or 12 and a vacant place.
#[derive(Clone, Copy)]
pub struct Looked {
    pub refusal: u8,
    pub device: Device,
}

// The bench stands first in an answer: a record that has it behind smaller fields is copied once more.
#[derive(Clone, Copy)]
pub struct ResetDone {
    pub bench: Bench,
    pub refusal: u8,
    pub presence: bool,
}

#[derive(Clone, Copy)]
pub struct Slotted {
    pub bench: Bench,
    pub refusal: u8,
    pub line: bool,
}

fn vacant_place() -> Device
    ensures answer { result ≡ vacant }
{
    power_and_finishes::join(Joining {
        code: 0,
        power: Power::External,
        high: 0,
        low: 0,
        configuration: 0,
        pins: 0,
    })
}

// The empty bench.
pub fn new() -> Bench
    ensures answer { result ≡ empty_bench }
{
    let vacant = vacant_place();
    Bench {
        devices: [vacant; 32],
        count: 0,
    }
}

// Where the first device with this code stands.
fn find(bench: Bench, code: u64) -> Place
    ensures answer { result ≡ place_of bench code }
{
    let taken = wire::places(bench.count);
    match bench.devices[..taken].iter().position(|d| d.code == code) {
        Some(i) => Place::At(i),
        None => Place::Nowhere,
    }
}

// Whether no line-powered device is busy, so that a reset or a slot can pass.
pub fn is_free(bench: Bench) -> bool
    ensures answer { result ≡ free bench }
{
    let devices = bench.devices;
    wire::is_free(devices, bench.count)
}

// The line with one device more on it. A line that shows 0 stays at 0.
fn line_with(line: bool, d: Device) -> bool
    ensures answer { result ≡ (line && offer_of d) }
{
    line && offer::offer(d)
}

// One slot in which the master offers this bit; 1 to read. Both rounds along the devices stand in one body, for a call
// between them would copy the bench.
pub fn slot(bench: Bench, bit: bool) -> Slotted
    ensures answer { result ≡ slotted bench bit }
{
    let mut next = bench.devices;
    let taken = wire::places(bench.count);
    let mut line = bit;
    for d in &next[..taken] {
        if device::holds_wire(*d) {
            return Slotted {
                bench,
                refusal: refusals::WIRE_BUSY,
                line: false,
            };
        }
        line = line_with(line, *d);
    }
    for d in next[..taken].iter_mut() {
        if !stages::is_still(d.stage) {
            *d = hearing::hear(*d, line);
        }
    }
    Slotted {
        bench: Bench {
            devices: next,
            ..bench
        },
        refusal: refusals::ACCEPTED,
        line,
    }
}

// A reset, and whether any device showed its presence.
pub fn reset(bench: Bench) -> ResetDone
    ensures answer { result ≡ reset_done bench }
{
    if is_free(bench) {
        let devices = bench.devices;
        let next = wire::restart_all(devices, bench.count);
        return ResetDone {
            refusal: refusals::ACCEPTED,
            presence: 0 < bench.count,
            bench: Bench {
                devices: next,
                ..bench
            },
        };
    }
    ResetDone {
        refusal: refusals::WIRE_BUSY,
        presence: false,
        bench,
    }
}

// A new device joins the wire, quiet until the next reset.
pub fn add(bench: Bench, new: Joining) -> Changed
    ensures answer { result ≡ added_to bench new }
{
    let refusal = rom::refusal_of(new.code);
    if refusal != refusals::ACCEPTED {
        return Changed { refusal, bench };
    }
    let place = find(bench, new.code);
    match place {
        Place::At(_) => Changed {
            refusal: refusals::DUPLICATE,
            bench,
        },
        Place::Nowhere => put_last(bench, new),
    }
}

// The device after the others, where there is a place left and its pins can be.
fn put_last(bench: Bench, new: Joining) -> Changed
    ensures answer { result ≡ put_last bench new }
{
    let count = bench.count;
    let place = count as usize;
    if 32 <= place {
        return Changed {
            refusal: refusals::BENCH_FULL,
            bench,
        };
    }
    if family::pins_wrong(device::family_row(new.code), new.pins) {
        return Changed {
            refusal: refusals::WRONG_PINS,
            bench,
        };
    }
    let mut devices = bench.devices;
    devices[place] = power_and_finishes::join(new);
    Changed {
        refusal: refusals::ACCEPTED,
        bench: Bench {
            devices,
            count: count + 1,
        },
    }
}

fn device_at(bench: Bench, place: usize) -> Device
    requires { place < 32 }
    ensures answer { result ≡ device_at bench place }
{
    let devices = bench.devices;
    devices[place]
}

// The device at a place after an attempt to end what it does.
fn put_back(bench: Bench, place: usize, ended: Ended) -> Changed
    requires { place < 32 }
    ensures answer { result ≡ put_back bench place ended }
{
    let refusal = ended.refusal;
    if refusal == refusals::ACCEPTED {
        let device = ended.device;
        let mut devices = bench.devices;
        devices[place] = device;
        return Changed {
            refusal: refusals::ACCEPTED,
            bench: Bench { devices, ..bench },
        };
    }
    Changed { refusal, bench }
}

// A conversion of the device with this code ends with a count of sixteenths.
pub fn finish_conversion(bench: Bench, code: u64, count: Sixteenths) -> Changed
    ensures answer { result ≡ conversion_finished bench code count }
{
    let place = find(bench, code);
    match place {
        Place::At(i) => put_back(
            bench,
            i,
            power_and_finishes::end_conversion(device_at(bench, i), count),
        ),
        Place::Nowhere => Changed {
            refusal: refusals::NOT_FOUND,
            bench,
        },
    }
}

// A copy of the device with this code ends.
pub fn finish_copy(bench: Bench, code: u64) -> Changed
    ensures answer { result ≡ copy_finished bench code }
{
    let place = find(bench, code);
    match place {
        Place::At(i) => put_back(bench, i, power_and_finishes::end_copy(device_at(bench, i))),
        Place::Nowhere => Changed {
            refusal: refusals::NOT_FOUND,
            bench,
        },
    }
}

// The power of the device with this code goes away and comes back.
pub fn power_cycle(bench: Bench, code: u64) -> Changed
    ensures answer { result ≡ power_cycled bench code }
{
    let place = find(bench, code);
    match place {
        Place::At(i) => {
            let device = power_and_finishes::power_cycle(device_at(bench, i));
            let ended = Ended {
                refusal: refusals::ACCEPTED,
                device,
            };
            put_back(bench, i, ended)
        }
        Place::Nowhere => Changed {
            refusal: refusals::NOT_FOUND,
            bench,
        },
    }
}

// The record of the device with this code. Looking changes nothing.
pub fn look(bench: Bench, code: u64) -> Looked
    ensures answer { result ≡ looked bench code }
{
    let place = find(bench, code);
    match place {
        Place::At(i) => Looked {
            refusal: refusals::ACCEPTED,
            device: device_at(bench, i),
        },
        Place::Nowhere => Looked {
            refusal: refusals::NOT_FOUND,
            device: vacant_place(),
        },
    }
}

// ---- The records themselves, for those who keep them elsewhere

// The places of the table; devices stand in the first ones.
pub fn records_of(bench: Bench) -> Devices
    ensures answer { result ≡ bench.devices }
{
    bench.devices
}

// How many of the places are taken.
pub fn count_of(bench: Bench) -> u8
    ensures answer { result ≡ bench.count }
{
    bench.count
}

// Whether no device has this code.
fn is_absent(devices: &[Device], code: u64) -> bool
    ensures answer { result ≡ absent code devices.now }
{
    devices.iter().all(|d| d.code != code)
}

// Whether each code is sound, and no two are the same.
fn codes_fit(devices: &[Device]) -> bool
    ensures answer { result ≡ codes_fit devices.now }
{
    for (i, d) in devices.iter().enumerate() {
        let refusal = rom::refusal_of(d.code);
        if refusal != refusals::ACCEPTED {
            return false;
        }
        if !is_absent(&devices[i + 1..], d.code) {
            return false;
        }
    }
    true
}

fn no_bench() -> Made
    ensures answer { result ≡ record { refusal = not_a_table; bench = empty_bench } }
{
    Made {
        refusal: refusals::NOT_A_TABLE,
        bench: new(),
    }
}

// The bench of the first records of a table, at most 32 with different sound codes. It need not be one that
// calls have made.
pub fn of_records(devices: Devices, count: u8) -> Made
    ensures answer { result ≡ made_of devices count }
{
    let taken = count as usize;
    if wire::PLACES < taken {
        return no_bench();
    }
    if !codes_fit(&devices[..taken]) {
        return no_bench();
    }
    let mut places = new().devices;
    places[..taken].copy_from_slice(&devices[..taken]);
    Made {
        refusal: refusals::ACCEPTED,
        bench: Bench {
            devices: places,
            count,
        },
    }
}

// The bench after the three slots of one place of a search, made at once: each device that is not quiet is
// at the first of them, and the last showed this bit.
pub fn settle(bench: Bench, place: u8, bit: bool) -> Bench
    ensures answer { result ≡ settled_bench place bit bench }
{
    let devices = bench.devices;
    let count = bench.count;
    Bench {
        devices: settling::settle_all(devices, count, place, bit),
        count,
    }
}
