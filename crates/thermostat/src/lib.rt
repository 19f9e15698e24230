// The DS1821, a thermometer and thermostat that is alone on its wire and has no code. It goes in by
// value and comes back in the answer. Its status register has two writers, the host and the probe itself.
#![tactic(auto)]

pub mod master;
pub mod rules;
pub mod wire;

ghost use Rattle.std.specs.Prelude.{not, ◌&&◌, ◌||◌, ◌≡◌};
ghost use Rattle.thermostat.specs.Record.{probe_with_stage, with_converting, with_high, with_low};
ghost use Rattle.thermostat.specs.Status.{status_of, status_written};
ghost use Rattle.thermostat.specs.Finish.{above, below, reaches, output_after, measured, finished};
ghost use Rattle.thermostat.specs.Power.{probe_powered_up};

use temperature::WholeDegrees;

// What the probe keeps without power: the two limits as signed bytes, and the last three bits of the
// status.
#[derive(Clone, Copy)]
pub struct Kept {
    pub high: u8,
    pub low: u8,
    // the mode that the next power-up takes up, true for thermostat
    pub mode: bool,
    pub polarity: bool,
    pub oneshot: bool,
}

// Whether a reading was above the high limit, and whether one was below the low limit, since power-up
// and since the host cleared the flag.
#[derive(Clone, Copy)]
pub struct Flags {
    pub high: bool,
    pub low: bool,
}

// What can be sent.
#[derive(Clone, Copy)]
pub enum Readable {
    Temperature,
    HighLimit,
    LowLimit,
    Status,
}

// What can be taken.
#[derive(Clone, Copy)]
pub enum Writable {
    NewHigh,
    NewLow,
    NewStatus,
}

// Where the probe stands in the protocol. A place that no sequence of slots reaches behaves as quiet.
#[derive(Clone, Copy)]
pub enum ProbeStage {
    AwaitCommand {
        shift: u8,
        count: u8,
    },
    Take {
        register: Writable,
        shift: u8,
        count: u8,
    },
    Send {
        register: Readable,
        bit: u8,
    },
    Quiet,
}

#[derive(Clone, Copy)]
pub struct Thermostat {
    pub kept: Kept,
    pub stage: ProbeStage,
    // the last reading, as a signed byte
    pub temperature: u8,
    pub flags: Flags,
    // whether the thermostat output is active
    pub output: bool,
    pub converting: bool,
    // whether it is in thermostat mode, where it neither hears the wire nor answers
    pub thermostat: bool,
}

// An attempt to end a conversion: 0 and the probe after it, or the refusal and the probe as it was.
#[derive(Clone, Copy)]
pub struct Finished {
    pub refusal: u8,
    pub probe: Thermostat,
}

pub fn with_stage(p: Thermostat, stage: ProbeStage) -> Thermostat
    ensures answer { result ≡ probe_with_stage p stage }
{
    Thermostat { stage, ..p }
}

pub fn with_converting(p: Thermostat, converting: bool) -> Thermostat
    ensures answer { result ≡ with_converting p converting }
{
    Thermostat { converting, ..p }
}

// A new high limit, as a signed byte.
pub fn with_high(p: Thermostat, byte: u8) -> Thermostat
    ensures answer { result ≡ with_high p byte }
{
    let kept = p.kept;
    Thermostat {
        kept: Kept { high: byte, ..kept },
        ..p
    }
}

// A new low limit, as a signed byte.
pub fn with_low(p: Thermostat, byte: u8) -> Thermostat
    ensures answer { result ≡ with_low p byte }
{
    let kept = p.kept;
    Thermostat {
        kept: Kept { low: byte, ..kept },
        ..p
    }
}

// ---- The status register

// The status byte as it stands.
pub fn status_of(p: Thermostat) -> u8
    ensures answer { result ≡ status_of p }
{
    let kept = p.kept;
    let flags = p.flags;
    let oneshot = commands::push(0, kept.oneshot);
    let polarity = commands::push(oneshot, kept.polarity);
    let mode = commands::push(polarity, kept.mode);
    let low = commands::push(mode, flags.low);
    let high = commands::push(low, flags.high);
    let writing = commands::push(high, false);
    let one = commands::push(writing, true);
    commands::push(one, !p.converting)
}

// A flag after the host has written its bit: a 1 leaves it as it is, so that none is lost which the probe
// set after the host last looked.
fn left_by(flag: bool, written: bool) -> bool
    ensures answer { result ≡ (flag && written) }
{
    flag && written
}

// The host has written this byte.
pub fn status_written(p: Thermostat, byte: u8) -> Thermostat
    ensures answer { result ≡ status_written p byte }
{
    let kept = p.kept;
    let flags = p.flags;
    Thermostat {
        kept: Kept {
            mode: commands::byte_slot(byte, 2),
            polarity: commands::byte_slot(byte, 1),
            oneshot: commands::byte_slot(byte, 0),
            ..kept
        },
        flags: Flags {
            high: left_by(flags.high, commands::byte_slot(byte, 4)),
            low: left_by(flags.low, commands::byte_slot(byte, 3)),
        },
        ..p
    }
}

// ---- The sensor

// Whether a temperature is above a limit.
fn is_above(t: WholeDegrees, limit: u8) -> bool
    ensures answer { result ≡ above t limit }
{
    let bound = temperature::limit_of(limit);
    let degree = t.0;
    degree > bound.0
}

// Whether a temperature is below a limit.
fn is_below(t: WholeDegrees, limit: u8) -> bool
    ensures answer { result ≡ below t limit }
{
    let bound = temperature::limit_of(limit);
    let degree = t.0;
    degree < bound.0
}

// Whether a temperature is at a limit or above it.
fn reaches(t: WholeDegrees, limit: u8) -> bool
    ensures answer { result ≡ reaches t limit }
{
    let bound = temperature::limit_of(limit);
    let degree = t.0;
    degree >= bound.0
}

// The thermostat output after a reading: between the limits it stays.
fn output_after(p: Thermostat, t: WholeDegrees) -> bool
    ensures answer { result ≡ output_after p t }
{
    let kept = p.kept;
    if reaches(t, kept.high) {
        return true;
    }
    if is_below(t, kept.low) {
        return false;
    }
    p.output
}

// A flag after a reading.
fn raised(flag: bool, past: bool) -> bool
    ensures answer { result ≡ (flag || past) }
{
    flag || past
}

// Whether the next conversion follows at once.
fn goes_on(thermostat: bool, oneshot: bool) -> bool
    ensures answer { result ≡ (thermostat || not oneshot) }
{
    thermostat || !oneshot
}

// The probe after a reading.
fn measure(p: Thermostat, t: WholeDegrees) -> Thermostat
    ensures answer { result ≡ measured p t }
{
    let kept = p.kept;
    let flags = p.flags;
    let register = temperature::limit_byte_of(t);
    Thermostat {
        temperature: register.byte,
        flags: Flags {
            high: raised(flags.high, is_above(t, kept.high)),
            low: raised(flags.low, is_below(t, kept.low)),
        },
        output: output_after(p, t),
        converting: goes_on(p.thermostat, kept.oneshot),
        ..p
    }
}

// A conversion ends with so many degrees.
pub fn finish(p: Thermostat, t: WholeDegrees) -> Finished
    ensures answer { result ≡ finished p t }
{
    if !p.converting {
        return Finished {
            refusal: refusals::MISMATCH,
            probe: p,
        };
    }
    if !temperature::whole_in_range(t) {
        return Finished {
            refusal: refusals::OUT_OF_RANGE,
            probe: p,
        };
    }
    Finished {
        refusal: refusals::ACCEPTED,
        probe: measure(p, t),
    }
}

// ---- Power

// A probe that keeps these things, powered up.
pub fn start(kept: Kept) -> Thermostat
    ensures answer { result ≡ probe_powered_up kept }
{
    Thermostat {
        kept,
        stage: ProbeStage::Quiet,
        temperature: 0,
        flags: Flags {
            high: false,
            low: false,
        },
        output: false,
        converting: kept.mode,
        thermostat: kept.mode,
    }
}

// The power goes away and comes back.
pub fn power_cycle(p: Thermostat) -> Thermostat
    ensures answer { result ≡ probe_powered_up p.kept }
{
    let kept = p.kept;
    start(kept)
}
