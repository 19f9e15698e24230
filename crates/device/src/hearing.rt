// What one thermometer becomes when the line has shown a bit.
ghost use Rattle.std.specs.Prelude.{◌≡◌};
ghost use Rattle.device.specs.Hear.{hear_of};

use crate::{Device, Stage, function_commands, rom_commands};

// The device after a slot in which the line showed this bit.
pub fn hear(d: Device, line: bool) -> Device
    ensures answer { result ≡ hear_of d line }
{
    let stage = d.stage;
    match stage {
        Stage::AwaitRom { shift, count } => rom_commands::hear_rom(
            d,
            commands::shift_in(shift, count, line),
        ),
        Stage::SendRom(i) => crate::with_stage(d, rom_commands::after_send_rom(i)),
        Stage::Match(i) => crate::with_stage(d, rom_commands::after_match(d.code, i, line)),
        Stage::Search { bit, phase } => crate::with_stage(
            d,
            rom_commands::after_search(d.code, bit, phase, line),
        ),
        Stage::AwaitFunction { shift, count } => function_commands::hear_function(
            d,
            commands::shift_in(shift, count, line),
        ),
        Stage::TakeSettings {
            place,
            shift,
            count,
        } => function_commands::hear_settings(d, place, commands::shift_in(shift, count, line)),
        Stage::SendScratchpad { byte, bit } => crate::with_stage(
            d,
            function_commands::after_scratchpad(byte, bit),
        ),
        Stage::SendStatus => d,
        Stage::SendPower => d,
        Stage::Quiet => d,
    }
}
