// The rule over edges: what the line's lows and highs come to by how long they last, in microseconds.
ghost use Rattle.std.specs.Prelude.{◌≡◌};
ghost use Rattle.captures.specs.Bounds.{pulse_of};
ghost use Rattle.captures.specs.Rule.{untouched, goes, refuses, moves, restarts, takes_slot, after_first_low};
ghost use Rattle.captures.specs.Rule.{after_release, after_presence, after_low, after_level, edge_step, ending_at};

use frame::Frame;

// What a low is by how long it lasts.
#[derive(Clone, Copy)]
pub enum Pulse {
    One,
    Zero,
    Reset,
    Other,
}

// Where the line stands after its last edge.
#[derive(Clone, Copy)]
pub enum PulseStage {
    // high, before any edge
    Idle,
    // in the first low
    FirstLow,
    // high, just released from a reset
    Released,
    // in the low that may be presence
    Presence,
    // high, after presence or a slot
    High,
    // in the low of a slot or a reset
    Low,
}

// The line and the frame that is open on it. A frame without presence takes no slot.
#[derive(Clone, Copy)]
pub struct Wire {
    pub stage: PulseStage,
    // the time of the last edge
    pub last: u32,
    pub frame: Frame,
}

// What an edge comes to: a refusal and the line as it was, or the line after it, and whether the frame
// that was open is closed.
#[derive(Clone, Copy)]
pub struct Step {
    pub refusal: u8,
    pub closes: bool,
    pub wire: Wire,
}

// What an end comes to: a refusal, or whether the open frame is closed.
#[derive(Clone, Copy)]
pub struct Ending {
    pub refusal: u8,
    pub closes: bool,
}

// The lows of a slot and of a reset.
const SHORTEST_ONE: u32 = 1;

const LONGEST_ONE: u32 = 15;

const LONGEST_ZERO: u32 = 120;

const SHORTEST_RESET: u32 = 480;

const LONGEST_RESET: u32 = 960;

// The high after a reset: before presence, or without it.
const SHORTEST_WAIT: u32 = 15;

const LONGEST_WAIT: u32 = 60;

const SHORTEST_SILENCE: u32 = 480;

// The low of presence.
const SHORTEST_PRESENCE: u32 = 60;

const LONGEST_PRESENCE: u32 = 240;

// What a low is.
fn pulse_of(lasted: u32) -> Pulse
    ensures { result ≡ pulse_of lasted }
{
    if lasted < SHORTEST_ONE {
        return Pulse::Other;
    }
    if lasted <= LONGEST_ONE {
        return Pulse::One;
    }
    if lasted <= LONGEST_ZERO {
        return Pulse::Zero;
    }
    if lasted < SHORTEST_RESET {
        return Pulse::Other;
    }
    if lasted <= LONGEST_RESET {
        return Pulse::Reset;
    }
    Pulse::Other
}

// The line before any edge.
pub fn idle() -> Wire
    ensures answer { result ≡ untouched }
{
    Wire {
        stage: PulseStage::Idle,
        last: 0,
        frame: frame::blank(false),
    }
}

fn refuse(wire: Wire, refusal: u8) -> Step
    ensures { result ≡ refuses wire refusal }
{
    Step {
        refusal,
        closes: false,
        wire,
    }
}

fn go(stage: PulseStage, time: u32, frame: Frame) -> Step
    ensures { result ≡ goes stage time frame }
{
    Step {
        refusal: refusals::ACCEPTED,
        closes: false,
        wire: Wire {
            stage,
            last: time,
            frame,
        },
    }
}

// The frame stays as it is.
fn move_on(wire: Wire, stage: PulseStage, time: u32) -> Step
    ensures { result ≡ moves wire stage time }
{
    let frame = wire.frame;
    go(stage, time, frame)
}

// A reset opens a frame, and closes the one before it.
fn restart(time: u32, closes: bool) -> Step
    ensures { result ≡ restarts time closes }
{
    Step {
        refusal: refusals::ACCEPTED,
        closes,
        wire: Wire {
            stage: PulseStage::Released,
            last: time,
            frame: frame::blank(false),
        },
    }
}

fn take_slot(wire: Wire, time: u32, bit: bool) -> Step
    ensures { result ≡ takes_slot wire time bit }
{
    let frame = wire.frame;
    if !frame.presence {
        return refuse(wire, refusals::MALFORMED);
    }
    if frame::MOST_SLOTS <= frame.count {
        return refuse(wire, refusals::MALFORMED);
    }
    go(PulseStage::High, time, frame::push(frame, bit))
}

fn after_first_low(wire: Wire, time: u32, lasted: u32) -> Step
    ensures { result ≡ after_first_low wire time lasted }
{
    if lasted < SHORTEST_RESET {
        return refuse(wire, refusals::BAD_PULSE);
    }
    if lasted <= LONGEST_RESET {
        return restart(time, false);
    }
    refuse(wire, refusals::BAD_PULSE)
}

fn after_release(wire: Wire, time: u32, lasted: u32) -> Step
    ensures { result ≡ after_release wire time lasted }
{
    if lasted < SHORTEST_WAIT {
        return refuse(wire, refusals::BAD_PULSE);
    }
    if lasted <= LONGEST_WAIT {
        return move_on(wire, PulseStage::Presence, time);
    }
    if lasted < SHORTEST_SILENCE {
        return refuse(wire, refusals::BAD_PULSE);
    }
    move_on(wire, PulseStage::Low, time)
}

fn after_presence(wire: Wire, time: u32, lasted: u32) -> Step
    ensures { result ≡ after_presence wire time lasted }
{
    if lasted < SHORTEST_PRESENCE {
        return refuse(wire, refusals::BAD_PULSE);
    }
    if lasted <= LONGEST_PRESENCE {
        return go(PulseStage::High, time, frame::blank(true));
    }
    refuse(wire, refusals::BAD_PULSE)
}

fn after_low(wire: Wire, time: u32, lasted: u32) -> Step
    ensures { result ≡ after_low wire time (pulse_of lasted) }
{
    let pulse = pulse_of(lasted);
    match pulse {
        Pulse::One => take_slot(wire, time, true),
        Pulse::Zero => take_slot(wire, time, false),
        Pulse::Reset => restart(time, true),
        Pulse::Other => refuse(wire, refusals::BAD_PULSE),
    }
}

// An edge, by how long the level before it lasted.
fn after_level(wire: Wire, time: u32, lasted: u32) -> Step
    ensures { result ≡ after_level wire.stage wire time lasted }
{
    let stage = wire.stage;
    match stage {
        PulseStage::Idle => move_on(wire, PulseStage::FirstLow, time),
        PulseStage::FirstLow => after_first_low(wire, time, lasted),
        PulseStage::Released => after_release(wire, time, lasted),
        PulseStage::Presence => after_presence(wire, time, lasted),
        PulseStage::High => move_on(wire, PulseStage::Low, time),
        PulseStage::Low => after_low(wire, time, lasted),
    }
}

// An edge. The first may have any time; every other comes later than the one before.
pub fn edge(wire: Wire, time: u32) -> Step
    ensures answer { result ≡ edge_step wire time }
{
    let stage = wire.stage;
    let last = wire.last;
    if matches!(stage, PulseStage::Idle) {
        return after_level(wire, time, 0);
    }
    if time <= last {
        return refuse(wire, refusals::NOT_LATER);
    }
    after_level(wire, time, time - last)
}

// The end of the edges.
pub fn end_at(stage: PulseStage) -> Ending
    ensures answer { result ≡ ending_at stage }
{
    match stage {
        PulseStage::Idle => Ending {
            refusal: refusals::ACCEPTED,
            closes: false,
        },
        PulseStage::FirstLow => Ending {
            refusal: refusals::BAD_PULSE,
            closes: false,
        },
        PulseStage::Released => Ending {
            refusal: refusals::ACCEPTED,
            closes: true,
        },
        PulseStage::Presence => Ending {
            refusal: refusals::BAD_PULSE,
            closes: false,
        },
        PulseStage::High => Ending {
            refusal: refusals::ACCEPTED,
            closes: true,
        },
        PulseStage::Low => Ending {
            refusal: refusals::BAD_PULSE,
            closes: false,
        },
    }
}
