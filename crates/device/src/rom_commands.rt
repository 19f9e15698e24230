// What one thermometer becomes in the slots of a ROM command: until it is addressed, or quiet.
ghost use Rattle.std.specs.Bool.{beq};
ghost use Rattle.std.specs.Prelude.{◌≡◌};
ghost use Rattle.basic_laws.specs.Bits.{bit_at};
ghost use Rattle.device.specs.declared.Phase.TheVariants.{TakeBit};
ghost use Rattle.device.specs.Hear.{after_send_rom, after_match, after_search, rom_command, hear_rom};

use crate::{Device, Phase, Stage};
use commands::Shifted;

fn same_bit(code: u64, i: u8, line: bool) -> bool
    ensures answer { result ≡ beq (bit_at code i) line }
{
    let own = rom::bit_of(code, i);
    if own { line } else { !line }
}

// The code is sent, bit by bit.
pub fn after_send_rom(i: u8) -> Stage
    ensures answer { result ≡ after_send_rom i }
{
    if i < 63 {
        return Stage::SendRom(i + 1);
    }
    if i == 63 {
        return Stage::AwaitFunction { shift: 0, count: 0 };
    }
    Stage::Quiet
}

// The code that the master sends is compared, bit by bit.
pub fn after_match(code: u64, i: u8, line: bool) -> Stage
    ensures answer { result ≡ after_match code i line }
{
    if same_bit(code, i, line) {
        if i < 63 {
            return Stage::Match(i + 1);
        }
        if i == 63 {
            return Stage::AwaitFunction { shift: 0, count: 0 };
        }
    }
    Stage::Quiet
}

// The third slot of a bit in a search.
fn after_taking(code: u64, i: u8, line: bool) -> Stage
    ensures answer { result ≡ after_search code i TakeBit line }
{
    if same_bit(code, i, line) {
        if i < 63 {
            return Stage::Search {
                bit: i + 1,
                phase: Phase::SendBit,
            };
        }
        if i == 63 {
            return Stage::AwaitFunction { shift: 0, count: 0 };
        }
    }
    Stage::Quiet
}

// One slot of a search.
pub fn after_search(code: u64, i: u8, phase: Phase, line: bool) -> Stage
    ensures answer { result ≡ after_search code i phase line }
{
    match phase {
        Phase::SendBit => Stage::Search {
            bit: i,
            phase: Phase::SendComplement,
        },
        Phase::SendComplement => Stage::Search {
            bit: i,
            phase: Phase::TakeBit,
        },
        Phase::TakeBit => after_taking(code, i, line),
    }
}

fn rom_command(alarm: bool, command: u8) -> Stage
    ensures answer { result ≡ rom_command alarm command }
{
    match command {
        commands::READ_ROM => Stage::SendRom(0),
        commands::MATCH_ROM => Stage::Match(0),
        commands::SKIP_ROM => Stage::AwaitFunction { shift: 0, count: 0 },
        commands::SEARCH_ROM => Stage::Search {
            bit: 0,
            phase: Phase::SendBit,
        },
        commands::ALARM_SEARCH => {
            if alarm {
                Stage::Search {
                    bit: 0,
                    phase: Phase::SendBit,
                }
            } else {
                Stage::Quiet
            }
        }
        _ => Stage::Quiet,
    }
}

// By what a device that awaits a ROM command holds of it.
pub fn hear_rom(d: Device, taken: Shifted) -> Device
    ensures answer { result ≡ hear_rom d taken }
{
    match taken {
        Shifted::Partial { shift, count } => crate::with_stage(d, Stage::AwaitRom { shift, count }),
        Shifted::Whole(command) => crate::with_stage(d, rom_command(d.alarm, command)),
        Shifted::Beyond => crate::with_stage(d, Stage::Quiet),
    }
}
