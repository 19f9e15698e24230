// The three slots of one place of a search. Where every device is quiet or about to send its bit of that
// place, they are made at once, by the devices' codes; elsewhere one by one.
ghost use Rattle.std.specs.Prelude.{◌&&◌, ◌≡◌, take};
ghost use Rattle.basic_laws.specs.Fold.{fold};
ghost use Rattle.search.specs.Place.{chosen, placed};
ghost use Rattle.search.specs.Standing.{survey_start, surveyed_with};

use bench::wire::Devices;
use bench::{Bench, wire};
use device::{Device, stages};

// What the slots gave: what the two reads showed, the bit taken, what the line showed then, and the bench
// after them. Where both reads showed 1 nobody answers, and there is no third slot.
#[derive(Clone, Copy)]
pub struct Placed {
    pub bench: Bench,
    pub first: bool,
    pub second: bool,
    pub taken: bool,
    pub third: bool,
}

// What the devices up to one say: whether each is quiet or about to send its bit of the place, with the
// wire free; and whether those that send have 1 there, and 0.
#[derive(Clone, Copy)]
struct Survey {
    fits: bool,
    ones: bool,
    zeros: bool,
}

fn both(a: bool, b: bool) -> bool
    ensures answer { result ≡ (a && b) }
{
    a && b
}

// The survey with one device more.
fn survey_with(s: Survey, d: Device, place: u8) -> Survey
    ensures answer { result ≡ surveyed_with place s d }
{
    let stage = d.stage;
    let held = device::holds_wire(d);
    if stages::is_quiet(stage) {
        return Survey {
            fits: both(s.fits, !held),
            ones: s.ones,
            zeros: s.zeros,
        };
    }
    let own = rom::bit_of(d.code, place);
    Survey {
        fits: both(s.fits, both(!held, stages::starts_at(stage, place))),
        ones: both(s.ones, own),
        zeros: both(s.zeros, !own),
    }
}

fn look_over(devices: Devices, count: u8, place: u8) -> Survey
    ensures answer { result ≡ fold (surveyed_with place) survey_start (take count devices) }
{
    let none = Survey {
        fits: true,
        ones: true,
        zeros: true,
    };
    devices[..wire::places(count)]
        .iter()
        .fold(none, |s, d| survey_with(s, *d, place))
}

// The bit to take where the two reads showed a bit and its complement, not both 1.
fn choose(bit: bool, complement: bool, plan: bool) -> bool
    ensures answer { result ≡ chosen bit complement plan }
{
    if bit {
        return true;
    }
    if complement {
        return false;
    }
    plan
}

// The three slots one by one.
fn by_slots(bench: Bench, plan: bool) -> Placed
    ensures answer { result ≡ placed bench plan }
{
    let one = bench::slot(bench, true);
    let once = one.bench;
    let two = bench::slot(once, true);
    let twice = two.bench;
    if both(one.line, two.line) {
        return Placed {
            bench: twice,
            first: one.line,
            second: two.line,
            taken: false,
            third: false,
        };
    }
    let taken = choose(one.line, two.line, plan);
    let three = bench::slot(twice, taken);
    let after = three.bench;
    Placed {
        bench: after,
        first: one.line,
        second: two.line,
        taken,
        third: three.line,
    }
}

// Two reads and the slot of the bit that they leave, of the plan's bit at a conflict. The place is where
// searching devices are expected.
pub fn slots_at(bench: Bench, place: u8, plan: bool) -> Placed
    ensures answer { result ≡ placed bench plan }
{
    let devices = bench::records_of(bench);
    let count = bench::count_of(bench);
    let s = look_over(devices, count, place);
    if both(s.fits, !both(s.ones, s.zeros)) {
        let bit = choose(s.ones, s.zeros, plan);
        return Placed {
            bench: bench::settle(bench, place, bit),
            first: s.ones,
            second: s.zeros,
            taken: bit,
            third: bit,
        };
    }
    by_slots(bench, plan)
}
