// What a reset, power and the end of a conversion or a copy make of one thermometer.
ghost use Rattle.std.specs.Prelude.{◌≡◌};
ghost use Rattle.device.specs.Power.{reset_of, powered_up, power_up, joined};
ghost use Rattle.device.specs.Finish.{conversion_done, copy_done, not_ended, conversion_ended, copy_ended};

use crate::{Activity, Device, Ended, Joining, Page, Power, Settings, Stage};
use temperature::{Reading, Sixteenths};

// A reset: the device listens for a ROM command.
pub fn reset(d: Device) -> Device
    ensures answer { result ≡ reset_of d }
{
    crate::with_stage(d, Stage::AwaitRom { shift: 0, count: 0 })
}

fn powered_up(code: u64, power: Power, pins: u8, eeprom: Settings) -> Device
    ensures answer { result ≡ powered_up code power pins eeprom }
{
    let row = crate::row_of(code, pins);
    let initial = row.initial;
    let scratchpad = crate::with_settings(row, initial, eeprom);
    Device {
        code,
        power,
        stage: Stage::Quiet,
        activity: Activity::Idle,
        scratchpad,
        eeprom,
        alarm: false,
        page: Page {
            taken: false,
            reading: Reading::InSixteenths(Sixteenths(0)),
            high: 0,
            low: 0,
        },
        pins,
    }
}

// The device after its power went away and came back.
pub fn power_cycle(d: Device) -> Device
    ensures answer { result ≡ power_up d }
{
    let power = d.power;
    let eeprom = d.eeprom;
    powered_up(d.code, power, d.pins, eeprom)
}

// A new device, powered up.
pub fn join(new: Joining) -> Device
    ensures answer { result ≡ joined new }
{
    let power = new.power;
    let pins = family::kept_pins(crate::family_row(new.code), new.pins);
    let row = crate::row_of(new.code, pins);
    let configuration = family::kept_configuration(row, new.configuration);
    powered_up(
        new.code,
        power,
        pins,
        Settings {
            high: new.high,
            low: new.low,
            configuration,
        },
    )
}

// The device after a conversion that ended with this count.
fn finish_conversion(d: Device, count: Sixteenths) -> Device
    ensures answer { result ≡ conversion_done d count }
{
    let pad = d.scratchpad;
    let row = crate::row_of(d.code, d.pins);
    let reading = scratchpad::stored_reading(row, count, pad);
    let high = pad[family::HIGH_LIMIT];
    let low = pad[family::LOW_LIMIT];
    let idle = crate::with_activity(d, Activity::Idle);
    let stored = crate::with_scratchpad(idle, scratchpad::after_conversion(row, count, pad));
    let judged = crate::with_alarm(stored, temperature::verdict(reading, high, low));
    crate::with_page(
        judged,
        Page {
            taken: true,
            reading,
            high,
            low,
        },
    )
}

// The device after its copy of these settings.
fn finish_copy(d: Device, latched: Settings) -> Device
    ensures answer { result ≡ copy_done d latched }
{
    crate::with_eeprom(crate::with_activity(d, Activity::Idle), latched)
}

fn refuse(d: Device, refusal: u8) -> Ended
    ensures answer { result ≡ not_ended refusal d }
{
    Ended { refusal, device: d }
}

// The end of a conversion with this count, of a device that may not be converting.
pub fn end_conversion(d: Device, count: Sixteenths) -> Ended
    ensures answer { result ≡ conversion_ended d count }
{
    let activity = d.activity;
    match activity {
        Activity::Idle => refuse(d, refusals::MISMATCH),
        Activity::Converting => {
            if temperature::in_range(Reading::InSixteenths(count)) {
                return Ended {
                    refusal: refusals::ACCEPTED,
                    device: finish_conversion(d, count),
                };
            }
            refuse(d, refusals::OUT_OF_RANGE)
        }
        Activity::Copying(_) => refuse(d, refusals::MISMATCH),
    }
}

// The end of a copy, of a device that may not be copying.
pub fn end_copy(d: Device) -> Ended
    ensures answer { result ≡ copy_ended d }
{
    let activity = d.activity;
    match activity {
        Activity::Idle => refuse(d, refusals::MISMATCH),
        Activity::Converting => refuse(d, refusals::MISMATCH),
        Activity::Copying(latched) => Ended {
            refusal: refusals::ACCEPTED,
            device: finish_copy(d, latched),
        },
    }
}
