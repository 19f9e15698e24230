// Where two recordings part: the first line that is not the same in both, and the rest of a recording
// from there on. Any bytes are taken, and nothing is refused.
#![tactic(auto)]

pub mod answers;

ghost use Rattle.std.specs.Prelude.{◌≡◌, ◌+◌, ◌<◌};
ghost use Rattle.comparing.specs.Departure.{shared_lines, departure_of, side_number, part_of};
ghost use Rattle.comparing.specs.Claims.{Parted};

use text::LINE_FEED;

// Which of two recordings a part comes from.
#[derive(Clone, Copy)]
pub enum Side {
    Reference,
    Other,
}

// Where two recordings part.
#[derive(Clone, Copy)]
pub struct Departure {
    // the one that the part comes from
    pub side: Side,
    // where the part begins in it
    pub place: usize,
    // the number of the part's first line, from 1; 0 where the recordings are equal
    pub line: usize,
}

// A part that begins at a place, behind so many lines that are shared.
fn behind_shared(side: Side, place: usize, shared: usize) -> Departure
    requires { shared < 18446744073709551615 }
    ensures { result ≡ record { side = side; place = place; line = shared + 1 } }
{
    Departure {
        side,
        place,
        line: shared + 1,
    }
}

// Which recording the part comes from, where it begins there, and the number of its first line.
pub fn compare(reference: &[u8], other: &[u8]) -> Departure
    ensures answer { result ≡ departure_of reference.now other.now }
{
    let lines = reference.split_inclusive(|&c| c == LINE_FEED);
    let other_lines = other.split_inclusive(|&c| c == LINE_FEED);
    let mut at = 0;
    let mut shared = 0;
    for (line, other_line) in lines.zip(other_lines) {
        if line != other_line {
            break;
        }
        at += line.len();
        shared += 1;
    }
    if at < reference.len() {
        return behind_shared(Side::Reference, at, shared);
    }
    if at < other.len() {
        return behind_shared(Side::Other, at, shared);
    }
    Departure {
        side: Side::Reference,
        place: at,
        line: 0,
    }
}

// The numbers of the two sides.
pub const FROM_REFERENCE: u8 = 1;

pub const FROM_OTHER: u8 = 2;

pub fn side_number(side: Side) -> u8
    ensures answer { result ≡ side_number side }
{
    match side {
        Side::Reference => FROM_REFERENCE,
        Side::Other => FROM_OTHER,
    }
}

// The rest of one of the recordings from where they part; the number of its side and that of its first
// line go with it.
pub fn part<'a>(reference: &'a [u8], other: &'a [u8], side: &mut u8, line: &mut usize) -> &'a [u8]
    ensures answer { result.now ≡ part_of reference.now other.now }
    ensures side { side.new ≡ side_number
        (departure_of reference.now other.now).side }
    ensures line { line.new ≡ (departure_of reference.now other.now).line }
    ensures parted { Parted reference.now other.now
        (shared_lines reference.now other.now)
        (departure_of reference.now other.now) result.now }
{
    let found = compare(reference, other);
    let from = found.side;
    let place = found.place;
    *side = side_number(from);
    *line = found.line;
    match from {
        Side::Reference => &reference[place..],
        Side::Other => &other[place..],
    }
}
