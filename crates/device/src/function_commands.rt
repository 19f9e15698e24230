// What one thermometer becomes in the slots of a function command, once it is addressed.
ghost use Rattle.std.specs.Prelude.{◌≡◌};
ghost use Rattle.device.specs.Settings.{settings_count, setting_byte};
ghost use Rattle.device.specs.Hear.{after_scratchpad, copying, recalled, idle_command, function_command};
ghost use Rattle.device.specs.Hear.{hear_function};
ghost use Rattle.device.specs.Hear.{store_setting, hear_settings};

use crate::{Activity, Device, Stage};
use commands::Shifted;
use family::Properties;

// 48h: the settings as they stand are on their way to EEPROM.
fn copying(d: Device) -> Device
    ensures answer { result ≡ copying d }
{
    let pad = d.scratchpad;
    let latched = crate::settings_in(crate::row_of(d.code, d.pins), pad);
    crate::with_activity(d, Activity::Copying(latched))
}

// B8h: the settings of EEPROM are back in the scratchpad.
fn recalled(d: Device) -> Device
    ensures answer { result ≡ recalled d }
{
    let pad = d.scratchpad;
    let eeprom = d.eeprom;
    crate::with_scratchpad(
        d,
        crate::with_settings(crate::row_of(d.code, d.pins), pad, eeprom),
    )
}

// A function command given to a device that is not busy.
fn idle_command(d: Device, command: u8) -> Device
    ensures answer { result ≡ idle_command d command }
{
    match command {
        commands::CONVERT => {
            crate::with_stage(
                crate::with_activity(d, Activity::Converting),
                Stage::SendStatus,
            )
        }
        commands::WRITE_SCRATCHPAD => crate::with_stage(
            d,
            Stage::TakeSettings {
                place: 0,
                shift: 0,
                count: 0,
            },
        ),
        commands::COPY_SCRATCHPAD => crate::with_stage(copying(d), Stage::SendStatus),
        commands::RECALL_EEPROM => crate::with_stage(recalled(d), Stage::Quiet),
        _ => crate::with_stage(d, Stage::Quiet),
    }
}

fn function_command(d: Device, command: u8) -> Device
    ensures answer { result ≡ function_command d command }
{
    match command {
        commands::READ_SCRATCHPAD => {
            crate::with_stage(d, Stage::SendScratchpad { byte: 0, bit: 0 })
        }
        commands::READ_POWER => crate::with_stage(d, Stage::SendPower),
        _ => {
            if crate::is_busy(d) {
                return crate::with_stage(d, Stage::Quiet);
            }
            idle_command(d, command)
        }
    }
}

// By what a device that awaits a function command holds of it.
pub fn hear_function(d: Device, taken: Shifted) -> Device
    ensures answer { result ≡ hear_function d taken }
{
    match taken {
        Shifted::Partial { shift, count } => crate::with_stage(
            d,
            Stage::AwaitFunction { shift, count },
        ),
        Shifted::Whole(command) => function_command(d, command),
        Shifted::Beyond => crate::with_stage(d, Stage::Quiet),
    }
}

fn settings_count(row: Properties) -> u8
    ensures answer { result ≡ settings_count row }
{
    if row.configurable { 3 } else { 2 }
}

fn setting_byte(row: Properties, k: u8, byte: u8) -> u8
    ensures answer { result ≡ setting_byte row k byte }
{
    if k == 2 {
        return family::kept_configuration(row, byte);
    }
    byte
}

// A whole byte has arrived: it is stored, and the next one is awaited or all are there.
fn store_setting(d: Device, k: u8, byte: u8) -> Device
    ensures answer { result ≡ store_setting d k byte }
{
    let row = crate::row_of(d.code, d.pins);
    let last = settings_count(row);
    if last <= k {
        return crate::with_stage(d, Stage::Quiet);
    }
    let mut pad = d.scratchpad;
    let place = family::HIGH_LIMIT + k as usize;
    pad[place] = setting_byte(row, k, byte);
    let next = crate::with_scratchpad(d, pad);
    if k + 1 < last {
        return crate::with_stage(
            next,
            Stage::TakeSettings {
                place: k + 1,
                shift: 0,
                count: 0,
            },
        );
    }
    crate::with_stage(next, Stage::Quiet)
}

// By what a device that takes setting k holds of it.
pub fn hear_settings(d: Device, k: u8, taken: Shifted) -> Device
    ensures answer { result ≡ hear_settings d k taken }
{
    match taken {
        Shifted::Partial { shift, count } => crate::with_stage(
            d,
            Stage::TakeSettings {
                place: k,
                shift,
                count,
            },
        ),
        Shifted::Whole(byte) => store_setting(d, k, byte),
        Shifted::Beyond => crate::with_stage(d, Stage::Quiet),
    }
}

// The scratchpad and its CRC are sent, byte by byte.
pub fn after_scratchpad(k: u8, j: u8) -> Stage
    ensures answer { result ≡ after_scratchpad k j }
{
    if 9 <= k {
        return Stage::Quiet;
    }
    if 8 <= j {
        return Stage::Quiet;
    }
    if j < 7 {
        return Stage::SendScratchpad {
            byte: k,
            bit: j + 1,
        };
    }
    if k < 8 {
        return Stage::SendScratchpad {
            byte: k + 1,
            bit: 0,
        };
    }
    Stage::Quiet
}
