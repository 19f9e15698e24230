// One device as 48 bytes and back. Each field of the record has its own bytes, and all others are
// zero; docs/TABLE.md has the layout. Bytes are read whatever they are.
ghost use Rattle.std.specs.Prelude.{◌≤◌, ◌≡◌, [], ◌∷◌, ◌++◌};
ghost use Rattle.basic_laws.specs.Laid.{laid};
ghost use Rattle.basic_laws.specs.Complement.{Fits16};
ghost use Rattle.temperature.specs.Register.{count_of};
ghost use Rattle.packed_bench.specs.Bytes.{eight_at};
ghost use Rattle.packed_bench.specs.Parts.{truth_byte, power_byte, stage_case, activity_case};
ghost use Rattle.packed_bench.specs.Types.{InTypes};
ghost use Rattle.packed_bench.specs.Packed.{case_bytes, settings_bytes, page_bytes, case_at, packed_device, fields_of};

use crate::record_parts;
use crate::record_parts::Case;
use device::{Activity, Device, Page, Power, Settings, Stage};

// The bytes of one device.
pub type Entry = [u8; 48];

fn eight_at(t: Entry, i: usize) -> [u8; 8]
    requires { i ≤ 40 }
    ensures answer { result ≡ eight_at t i }
{
    let mut b = [0u8; 8];
    b.copy_from_slice(&t[i..i + 8]);
    b
}

fn case_at(t: Entry, i: usize) -> Case
    requires { i ≤ 44 }
    ensures answer { result ≡ case_at t i }
{
    Case(t[i], t[i + 1], t[i + 2], t[i + 3])
}

// Eight bytes over those from a place on.
fn with_eight(t: Entry, at: usize, b: [u8; 8]) -> Entry
    requires { at ≤ 40 }
    ensures answer { result ≡ laid t at b }
{
    let mut e = t;
    e[at..at + 8].copy_from_slice(&b);
    e
}

// The bytes of what a device is at: its stage and its activity.
fn course_bytes(stage: Stage, activity: Activity) -> [u8; 8]
    ensures answer { result ≡ case_bytes (stage_case stage) ++ case_bytes (activity_case activity) }
{
    let s = record_parts::stage_case(stage);
    let a = record_parts::activity_case(activity);
    [s.0, s.1, s.2, s.3, a.0, a.1, a.2, a.3]
}

// The bytes of the settings in EEPROM, the power and the alarm flag, and three zeros.
fn kept_bytes(eeprom: Settings, power: Power, alarm: bool) -> [u8; 8]
    ensures answer { result ≡ settings_bytes eeprom ++ (power_byte power ∷ truth_byte alarm ∷ 0 ∷ 0 ∷ 0 ∷ []) }
{
    [
        eeprom.high,
        eeprom.low,
        eeprom.configuration,
        record_parts::power_byte(power),
        record_parts::truth_byte(alarm),
        0,
        0,
        0,
    ]
}

// The bytes of the page and the pins, and a zero.
fn page_bytes(page: Page, pins: u8) -> [u8; 8]
    ensures answer { result ≡ page_bytes page ++ (pins ∷ 0 ∷ []) }
    ensures typed { Fits16 (count_of page.reading) }
{
    let reading = page.reading;
    let register = temperature::register_of(reading);
    [
        record_parts::truth_byte(page.taken),
        record_parts::unit_byte(reading),
        register.low,
        register.high,
        page.high,
        page.low,
        pins,
        0,
    ]
}

// The bytes of a device. Whatever the device, they unpack to it.
pub fn pack(d: Device) -> Entry
    ensures answer { result ≡ packed_device d }
    ensures typed { InTypes d }
{
    let code = record_parts::code_bytes(d.code);
    let pad = d.scratchpad;
    let stage = d.stage;
    let activity = d.activity;
    let eeprom = d.eeprom;
    let power = d.power;
    let page = d.page;
    let empty = [0u8; 48];
    let coded = with_eight(empty, 0, code);
    let padded = with_eight(coded, 8, pad);
    let staged = with_eight(padded, 16, course_bytes(stage, activity));
    let kept = with_eight(staged, 24, kept_bytes(eeprom, power, d.alarm));
    // The page stands where the three zeros of the part before it are.
    with_eight(kept, 29, page_bytes(page, d.pins))
}

// The record that is read from bytes, whatever they are.
pub fn fields(t: Entry) -> Device
    ensures answer { result ≡ fields_of t }
{
    let code = record_parts::code_of(eight_at(t, 0));
    let scratchpad = eight_at(t, 8);
    let stage = record_parts::stage_of(case_at(t, 16));
    let activity = record_parts::activity_of(case_at(t, 20));
    let power = record_parts::power_of(t[27]);
    let reading = record_parts::reading_from(t[30], t[31], t[32]);
    Device {
        code,
        power,
        stage,
        activity,
        scratchpad,
        eeprom: Settings {
            high: t[24],
            low: t[25],
            configuration: t[26],
        },
        alarm: t[28] == 1,
        page: Page {
            taken: t[29] == 1,
            reading,
            high: t[33],
            low: t[34],
        },
        pins: t[35],
    }
}
