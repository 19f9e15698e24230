// The wire of a DS1821: resets and slots, its commands, and the bytes that it takes and sends.
ghost use Rattle.std.specs.Prelude.{◌≡◌};
ghost use Rattle.thermostat.specs.declared.ProbeStage.TheVariants.{Take, Send};
ghost use Rattle.thermostat.specs.Slot.{probe_register, stored, runs_after, stage_after, command_done, heard_command};
ghost use Rattle.thermostat.specs.Slot.{heard_byte, sent_on, probe_offer, probe_line_shown, probe_heard, probe_slotted};
ghost use Rattle.thermostat.specs.Slot.{probe_reset};

use crate::{ProbeStage, Readable, Thermostat, Writable};
use commands::Shifted;

// Commands, taken right after a reset.
pub const START_CONVERSION: u8 = 0xEE;

pub const STOP_CONVERSION: u8 = 0x22;

pub const READ_TEMPERATURE: u8 = 0xAA;

pub const WRITE_HIGH: u8 = 0x01;

pub const WRITE_LOW: u8 = 0x02;

pub const READ_HIGH: u8 = 0xA1;

pub const READ_LOW: u8 = 0xA2;

pub const WRITE_STATUS: u8 = 0x0C;

pub const READ_STATUS: u8 = 0xAC;

#[derive(Clone, Copy)]
pub struct ResetDone {
    pub presence: bool,
    pub probe: Thermostat,
}

#[derive(Clone, Copy)]
pub struct Slotted {
    pub line: bool,
    pub probe: Thermostat,
}

fn register_of(p: Thermostat, register: Readable) -> u8
    ensures answer { result ≡ probe_register p register }
{
    let kept = p.kept;
    match register {
        Readable::Temperature => p.temperature,
        Readable::HighLimit => kept.high,
        Readable::LowLimit => kept.low,
        Readable::Status => crate::status_of(p),
    }
}

// What the probe puts on the line in the next slot.
fn offer(p: Thermostat) -> bool
    ensures answer { result ≡ probe_offer p }
{
    if p.thermostat {
        return true;
    }
    let stage = p.stage;
    match stage {
        ProbeStage::Send { register, bit } => commands::byte_slot(register_of(p, register), bit),
        ProbeStage::AwaitCommand { shift: _, count: _ } => true,
        ProbeStage::Take {
            register: _,
            shift: _,
            count: _,
        } => true,
        ProbeStage::Quiet => true,
    }
}

// Whether a conversion runs after a command.
fn runs_after(command: u8, running: bool) -> bool
    ensures answer { result ≡ runs_after command running }
{
    match command {
        START_CONVERSION => true,
        STOP_CONVERSION => false,
        _ => running,
    }
}

// A byte to take, from its first bit.
fn take(register: Writable) -> ProbeStage
    ensures answer { result ≡ Take register 0 0 }
{
    ProbeStage::Take {
        register,
        shift: 0,
        count: 0,
    }
}

// A byte to send, from its first bit.
fn send(register: Readable) -> ProbeStage
    ensures answer { result ≡ Send register 0 }
{
    ProbeStage::Send { register, bit: 0 }
}

// Where a command leads.
fn stage_after(command: u8) -> ProbeStage
    ensures answer { result ≡ stage_after command }
{
    match command {
        READ_TEMPERATURE => send(Readable::Temperature),
        WRITE_HIGH => take(Writable::NewHigh),
        WRITE_LOW => take(Writable::NewLow),
        READ_HIGH => send(Readable::HighLimit),
        READ_LOW => send(Readable::LowLimit),
        WRITE_STATUS => take(Writable::NewStatus),
        READ_STATUS => send(Readable::Status),
        _ => ProbeStage::Quiet,
    }
}

// A whole command has arrived.
fn obey(p: Thermostat, command: u8) -> Thermostat
    ensures answer { result ≡ command_done p command }
{
    let running = runs_after(command, p.converting);
    crate::with_stage(crate::with_converting(p, running), stage_after(command))
}

// By what the probe holds of a command.
fn hear_command(p: Thermostat, taken: Shifted) -> Thermostat
    ensures answer { result ≡ heard_command p taken }
{
    match taken {
        Shifted::Partial { shift, count } => crate::with_stage(
            p,
            ProbeStage::AwaitCommand { shift, count },
        ),
        Shifted::Whole(command) => obey(p, command),
        Shifted::Beyond => crate::with_stage(p, ProbeStage::Quiet),
    }
}

// A whole byte has arrived.
fn store(p: Thermostat, register: Writable, byte: u8) -> Thermostat
    ensures answer { result ≡ stored p register byte }
{
    match register {
        Writable::NewHigh => crate::with_high(p, byte),
        Writable::NewLow => crate::with_low(p, byte),
        Writable::NewStatus => crate::status_written(p, byte),
    }
}

// By what the probe holds of a byte that it takes.
fn hear_byte(p: Thermostat, register: Writable, taken: Shifted) -> Thermostat
    ensures answer { result ≡ heard_byte p register taken }
{
    match taken {
        Shifted::Partial { shift, count } => crate::with_stage(
            p,
            ProbeStage::Take {
                register,
                shift,
                count,
            },
        ),
        Shifted::Whole(byte) => crate::with_stage(store(p, register, byte), ProbeStage::Quiet),
        Shifted::Beyond => crate::with_stage(p, ProbeStage::Quiet),
    }
}

// The next bit of a byte that is sent.
fn send_on(register: Readable, bit: u8) -> ProbeStage
    ensures answer { result ≡ sent_on register bit }
{
    if bit < 7 {
        return ProbeStage::Send {
            register,
            bit: bit + 1,
        };
    }
    ProbeStage::Quiet
}

// The line has shown this bit.
fn hear(p: Thermostat, line: bool) -> Thermostat
    ensures answer { result ≡ probe_heard p line }
{
    if p.thermostat {
        return p;
    }
    let stage = p.stage;
    match stage {
        ProbeStage::AwaitCommand { shift, count } => {
            hear_command(p, commands::shift_in(shift, count, line))
        }
        ProbeStage::Take {
            register,
            shift,
            count,
        } => hear_byte(p, register, commands::shift_in(shift, count, line)),
        ProbeStage::Send { register, bit } => crate::with_stage(p, send_on(register, bit)),
        ProbeStage::Quiet => p,
    }
}

// What the line shows when the master offers this bit.
fn line_shown(p: Thermostat, bit: bool) -> bool
    ensures answer { result ≡ probe_line_shown p bit }
{
    offer(p) && bit
}

// One slot in which the master offers this bit; 1 to read.
pub fn slot(p: Thermostat, bit: bool) -> Slotted
    ensures answer { result ≡ probe_slotted p bit }
{
    let line = line_shown(p, bit);
    Slotted {
        line,
        probe: hear(p, line),
    }
}

// A reset, and whether the probe showed its presence.
pub fn reset(p: Thermostat) -> ResetDone
    ensures answer { result ≡ probe_reset p }
{
    if p.thermostat {
        return ResetDone {
            presence: false,
            probe: p,
        };
    }
    ResetDone {
        presence: true,
        probe: crate::with_stage(p, ProbeStage::AwaitCommand { shift: 0, count: 0 }),
    }
}
