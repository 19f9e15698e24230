// One thermometer: its record, the record with one part replaced, and the settings that it keeps.
#![tactic(auto)]

pub mod cell;
pub mod function_commands;
pub mod hearing;
pub mod offer;
pub mod power_and_finishes;
pub mod rom_commands;
pub mod stages;

ghost use Rattle.std.specs.Prelude.{◌≡◌};
ghost use Rattle.device.specs.Record.{with_stage, with_activity, with_scratchpad, with_eeprom, with_alarm, with_page};
ghost use Rattle.device.specs.Record.{family_row, row_of, busy, holds_wire};
ghost use Rattle.device.specs.Settings.{settings_in, with_settings};

use family::Properties;
use scratchpad::EightBytes;
use temperature::Reading;

// How a device is powered: from the data wire, or by a supply of its own.
#[derive(Clone, Copy)]
pub enum Power {
    Line,
    External,
}

// The bytes that EEPROM keeps and that 4Eh writes together. A family without a configuration has 0
// there, so that equal devices are equal records.
#[derive(Clone, Copy)]
pub struct Settings {
    pub high: u8,
    pub low: u8,
    pub configuration: u8,
}

// What keeps a device busy. A copy holds the bytes as they stood at its command.
#[derive(Clone, Copy)]
pub enum Activity {
    Idle,
    Converting,
    Copying(Settings),
}

// The three slots of one bit in a search.
#[derive(Clone, Copy)]
pub enum Phase {
    SendBit,
    SendComplement,
    TakeBit,
}

// Where a device stands in the protocol, each case with its own place. A place that no sequence of
// slots reaches behaves as quiet.
#[derive(Clone, Copy)]
pub enum Stage {
    AwaitRom { shift: u8, count: u8 },
    SendRom(u8),
    Match(u8),
    Search { bit: u8, phase: Phase },
    AwaitFunction { shift: u8, count: u8 },
    TakeSettings { place: u8, shift: u8, count: u8 },
    SendScratchpad { byte: u8, bit: u8 },
    SendStatus,
    SendPower,
    Quiet,
}

// What the last finished conversion since power-up stored, and the two limits of that moment.
#[derive(Clone, Copy)]
pub struct Page {
    pub taken: bool,
    pub reading: Reading,
    pub high: u8,
    pub low: u8,
}

#[derive(Clone, Copy)]
pub struct Device {
    pub code: u64,
    pub power: Power,
    pub stage: Stage,
    pub activity: Activity,
    pub scratchpad: EightBytes,
    pub eeprom: Settings,
    pub alarm: bool,
    pub page: Page,
    // the address pins of a family that has them, else 0
    pub pins: u8,
}

// An attempt to end a conversion or a copy: 0 and the device after it, or the refusal and the device as
// it was.
#[derive(Clone, Copy)]
pub struct Ended {
    pub refusal: u8,
    pub device: Device,
}

// What a device joins the bench with.
#[derive(Clone, Copy)]
pub struct Joining {
    pub code: u64,
    pub power: Power,
    pub high: u8,
    pub low: u8,
    pub configuration: u8,
    // looked at where the family has address pins
    pub pins: u8,
}

// ---- The record with one part replaced

pub fn with_stage(d: Device, stage: Stage) -> Device
    ensures answer { result ≡ with_stage d stage }
{
    Device { stage, ..d }
}

pub fn with_activity(d: Device, activity: Activity) -> Device
    ensures answer { result ≡ with_activity d activity }
{
    Device { activity, ..d }
}

pub fn with_scratchpad(d: Device, scratchpad: EightBytes) -> Device
    ensures answer { result ≡ with_scratchpad d scratchpad }
{
    Device { scratchpad, ..d }
}

pub fn with_eeprom(d: Device, eeprom: Settings) -> Device
    ensures answer { result ≡ with_eeprom d eeprom }
{
    Device { eeprom, ..d }
}

pub fn with_alarm(d: Device, alarm: bool) -> Device
    ensures answer { result ≡ with_alarm d alarm }
{
    Device { alarm, ..d }
}

pub fn with_page(d: Device, page: Page) -> Device
    ensures answer { result ≡ with_page d page }
{
    Device { page, ..d }
}

// Whether a conversion or a copy is under way.
pub fn is_busy(d: Device) -> bool
    ensures answer { result ≡ busy d }
{
    let activity = d.activity;
    match activity {
        Activity::Idle => false,
        Activity::Converting => true,
        Activity::Copying(_) => true,
    }
}

// Whether no slot can pass: the device is busy and lives on the data wire.
pub fn holds_wire(d: Device) -> bool
    ensures answer { result ≡ holds_wire d }
{
    let power = d.power;
    match power {
        Power::Line => is_busy(d),
        Power::External => false,
    }
}

// The properties of the code's family.
pub fn family_row(code: u64) -> Properties
    ensures answer { result ≡ family_row code }
{
    family::properties_of(rom::family_of(code))
}

// Those of one device of the family, with its pins.
pub fn row_of(code: u64, pins: u8) -> Properties
    ensures answer { result ≡ row_of code pins }
{
    family::with_pins(family_row(code), pins)
}

// ---- The settings

pub fn settings_in(row: Properties, pad: EightBytes) -> Settings
    ensures answer { result ≡ settings_in row pad }
{
    let high = pad[family::HIGH_LIMIT];
    let low = pad[family::LOW_LIMIT];
    if row.configurable {
        return Settings {
            high,
            low,
            configuration: pad[family::CONFIGURATION],
        };
    }
    Settings {
        high,
        low,
        configuration: 0,
    }
}

pub fn with_settings(row: Properties, pad: EightBytes, s: Settings) -> EightBytes
    ensures answer { result ≡ with_settings row pad s }
{
    let mut next = pad;
    next[family::HIGH_LIMIT] = s.high;
    next[family::LOW_LIMIT] = s.low;
    if row.configurable {
        next[family::CONFIGURATION] = family::kept_configuration(row, s.configuration);
        return next;
    }
    next
}
