// What the two calls on a DS1821 are given and answer. `specs/` has the calls, and what happens when
// conversions finish while they go on.
use crate::Thermostat;

// The bits of the status that a host changes: the mode for the next power-up, true for thermostat, the
// polarity of the output, and one-shot.
#[derive(Clone, Copy)]
pub struct Asked {
    pub mode: bool,
    pub polarity: bool,
    pub oneshot: bool,
}

// The status byte as the line showed it and the probe after it, or a refusal and 0.
#[derive(Clone, Copy)]
pub struct StatusRead {
    pub refusal: u8,
    pub status: u8,
    pub probe: Thermostat,
}

#[derive(Clone, Copy)]
pub struct Changed {
    pub refusal: u8,
    pub probe: Thermostat,
}
