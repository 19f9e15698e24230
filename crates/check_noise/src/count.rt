// Counts how many noisy scratchpads are refused for their CRC.
use crate::turn::{POLYNOMIAL, turn};
use scratchpad::NineBytes;

// How many were refused with 5, and how many not.
#[derive(Clone, Copy, Default)]
pub struct Count {
    pub refused: u32,
    pub passed: u32,
}

// One more, by the judgement of a scratchpad of B.
fn tally(pad: NineBytes, count: Count) -> Count {
    let judged = scratchpad::judge(family::DS18B20, pad);
    if judged.refusal == refusals::WRONG_CRC {
        Count {
            refused: count.refused.wrapping_add(1),
            ..count
        }
    } else {
        Count {
            passed: count.passed.wrapping_add(1),
            ..count
        }
    }
}

// Every way to turn so many bits before a place: one of them, and one fewer before that.
pub fn turned(pad: NineBytes, before: u8, bits: u8, count: Count) -> Count {
    if bits == 0 {
        return tally(pad, count);
    }
    let mut all = count;
    for place in 0..before {
        all = turned(turn(pad, place, 1), place, bits - 1, all);
    }
    all
}

// How many bursts begin at a place: its bit is turned, and each of the seven behind it may be, which
// are fewer near the end.
fn bursts_at(place: u8) -> u8 {
    if place < 65 {
        128
    } else if place < 72 {
        128 >> (place - 64)
    } else {
        0
    }
}

// Every burst that begins at a place.
fn bursts_from(pad: NineBytes, place: u8, count: Count) -> Count {
    (0..bursts_at(place)).fold(count, |all, others| {
        tally(turn(pad, place, 2 * (others as u16) + 1), all)
    })
}

// Every burst: at least one bit turned, and all within eight neighbours.
pub fn bursts(pad: NineBytes) -> Count {
    (0..72).fold(Count::default(), |all, place| bursts_from(pad, place, all))
}

// The polynomial at every place that has eight more behind it.
pub fn polynomials(pad: NineBytes) -> Count {
    (0..64).fold(Count::default(), |all, place| {
        tally(turn(pad, place, POLYNOMIAL), all)
    })
}
