// What the master's calls answer. The rules that the answers follow are in specs/.
#![tactic(auto)]

use bench::Bench;
use scratchpad::fine::FineDegrees;
use temperature::Reading;

// The answer of a read or a write at a code: the nine bytes of the scratchpad, the reading and the fine
// reading, or a refusal with zeros; and the bench as the reset and the slots sent left it.
#[derive(Clone, Copy)]
pub struct Access {
    pub refusal: u8,
    pub pad: [u8; 9],
    pub reading: Reading,
    pub fine: FineDegrees,
    pub bench: Bench,
}

// The answer of a search: how many codes it listed, passes and slots it made, and bytes it recorded,
// or a refusal with zeros; and the bench as the last slot left it.
#[derive(Clone, Copy)]
pub struct Searched {
    pub refusal: u8,
    pub codes: u8,
    pub passes: u8,
    pub slots: u16,
    pub bytes: u16,
    pub bench: Bench,
}

// The lowest pin number that two probes share, or none.
#[derive(Clone, Copy)]
pub enum SharedPin {
    NoPin,
    Pin(u8),
}

// The answer of the call for address pins: how many probes have any, the pins of each in the order of
// the list and 0 behind them, and the lowest number that two share; or a refusal with zeros; and the
// bench as the last slot left it.
#[derive(Clone, Copy)]
pub struct Pinned {
    pub refusal: u8,
    pub codes: u8,
    pub pins: [u8; 32],
    pub shared: SharedPin,
    pub bench: Bench,
}
