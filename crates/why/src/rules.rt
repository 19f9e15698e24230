// Why a device is on the list of an alarm search, or is not. The rules that the answer follows are in specs/.
use temperature::{Reading, WholeDegrees};

// By the last conversion that finished since power-up, and the two limits of that moment.
#[derive(Clone, Copy)]
pub enum Reason {
    NotOnBench,
    NoConversion,
    InBand,
    High,
    Low,
    Both,
}

// The reason, with the reading and the limits of that conversion, and whether either of today's limits
// differs from them. All are zero and no where there was no conversion, and beside a refusal.
#[derive(Clone, Copy)]
pub struct Why {
    pub refusal: u8,
    pub reason: Reason,
    pub reading: Reading,
    pub high: WholeDegrees,
    pub low: WholeDegrees,
    pub differs: bool,
}
