// One pass of a search: the command, and for each place of the code two reads and the bit taken.
ghost use Rattle.std.specs.Prelude.{◌+◌, ◌*◌, ◌^◌, ◌<◌, ◌&&◌, ◌≡◌};
ghost use Rattle.basic_laws.specs.Bits.{bit_number, bits_of};
ghost use Rattle.search_laws.specs.Departure.{takes};
ghost use Rattle.search_laws.specs.PassLoop.{started_pass};
ghost use Rattle.master_rules.specs.Buses.{calls};
ghost use Rattle.master_rules.specs.Search.{code_length};
ghost use Rattle.search.specs.Pass.{one_slot, last_after, one_place, pass_begun, walk_of};

use crate::place;
use bench::Bench;
use frame::Frame;

// How many bits a code has; as a place, it stands for none.
pub const CODE_BITS: u8 = 64;

// What one slot of a pass gave: the frame with the line's bit in it, that bit, and the bench after it.
#[derive(Clone, Copy)]
struct Shown {
    bench: Bench,
    frame: Frame,
    line: bool,
}

// A pass so far: whether somebody answered at every place, the bits taken, the last place at which 0
// was taken at a conflict (64 for none), and what the line showed.
#[derive(Clone, Copy)]
pub struct Walk {
    pub bench: Bench,
    pub shown: Frame,
    pub code: u64,
    pub last: u8,
    pub answered: bool,
}

// One more bit of a number that comes first bit lowest.
fn with_bit(number: u64, place: u8, bit: bool) -> u64
    requires { (place < 64) × (number < 2 ^ place) }
    ensures answer { result ≡ number + bit_number bit * 2 ^ place }
{
    if bit {
        let weight: u64 = 1 << place;
        number + weight
    } else {
        number
    }
}

// One slot, its line kept in the frame.
fn show(frame: Frame, bench: Bench, bit: bool) -> Shown
    ensures answer { result ≡ one_slot frame bench bit }
{
    let r = bench::slot(bench, bit);
    let line = r.line;
    let after = r.bench;
    Shown {
        frame: frame::push(frame, line),
        line,
        bench: after,
    }
}

// The bit to take at a conflict: that of the code before, up to the place of departure; 1 there, 0 past it.
fn planned(previous: u64, departure: u8, place: u8) -> bool
    requires { place < code_length }
    ensures answer { result ≡ takes previous departure place }
{
    if place < departure {
        return (previous >> place) % 2 == 1;
    }
    place == departure
}

// The last place at which 0 was taken at a conflict, after one place more.
fn last_after(bit: bool, complement: bool, taken: bool, here: u8, last: u8) -> u8
    ensures answer { result ≡ last_after bit complement taken here last }
{
    if bit {
        return last;
    }
    if complement {
        return last;
    }
    if taken {
        return last;
    }
    here
}

// Whether both reads showed 1, which no device that answers lets happen.
fn silent(bit: bool, complement: bool) -> bool
    ensures answer { result ≡ (bit && complement) }
{
    bit && complement
}

// One place of the code: two reads and the bit taken, or the two reads where nobody answers.
fn take_bit(w: Walk, place: u8, previous: u64, departure: u8) -> Walk
    requires { (place < code_length) × (w.code < 2 ^ place) }
    ensures answer { result ≡ one_place previous departure place w }
{
    let start = w.bench;
    let r = place::slots_at(start, place, planned(previous, departure, place));
    let after = r.bench;
    let shown = w.shown;
    let reads = frame::push(frame::push(shown, r.first), r.second);
    if silent(r.first, r.second) {
        return Walk {
            bench: after,
            shown: reads,
            code: w.code,
            last: w.last,
            answered: false,
        };
    }
    Walk {
        bench: after,
        shown: frame::push(reads, r.third),
        code: with_bit(w.code, place, r.taken),
        last: last_after(r.first, r.second, r.taken, place, w.last),
        answered: true,
    }
}

// The eight slots of the command.
fn begin_pass(bench: Bench, command: u8) -> Walk
    ensures answer { result ≡ pass_begun command bench }
{
    let mut b = bench;
    let mut frame = frame::blank(true);
    let mut left = command;
    for _ in 0..8u8 {
        let s = show(frame, b, left % 2 == 1);
        frame = s.frame;
        b = s.bench;
        left /= 2;
    }
    Walk {
        answered: true,
        code: 0,
        last: CODE_BITS,
        shown: frame,
        bench: b,
    }
}

// One pass on a bench that its reset has restarted: the command, and the 64 places, up to one at which
// nobody answers.
pub fn pass(bench: Bench, command: u8, previous: u64, departure: u8) -> Walk
    ensures answer { result ≡ walk_of (started_pass calls (bits_of 8 command) code_length previous departure bench) }
{
    let mut w = begin_pass(bench, command);
    for place in 0..CODE_BITS {
        if !w.answered {
            return w;
        }
        w = take_bit(w, place, previous, departure);
    }
    w
}
