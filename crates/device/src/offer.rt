// What one thermometer puts on the line in the next slot.
ghost use Rattle.std.specs.Prelude.{◌≡◌};
ghost use Rattle.device.specs.Offer.{code_slot, search_slot, scratchpad_slot, power_slot, offer_of};

use crate::{Device, Phase, Power, Stage};

fn code_slot(code: u64, i: u8) -> bool
    ensures answer { result ≡ code_slot code i }
{
    if i < 64 { rom::bit_of(code, i) } else { true }
}

fn search_slot(code: u64, i: u8, phase: Phase) -> bool
    ensures answer { result ≡ search_slot code i phase }
{
    match phase {
        Phase::SendBit => code_slot(code, i),
        Phase::SendComplement => {
            if i < 64 {
                let bit = rom::bit_of(code, i);
                !bit
            } else {
                true
            }
        }
        Phase::TakeBit => true,
    }
}

// The CRC is taken of the bytes as they stand in this very slot.
fn scratchpad_slot(pad: [u8; 8], k: u8, j: u8) -> bool
    ensures answer { result ≡ scratchpad_slot pad k j }
{
    if k < 8 {
        let place = k as usize;
        return commands::byte_slot(pad[place], j);
    }
    if k == 8 {
        return commands::byte_slot(crc::crc_of(&pad), j);
    }
    true
}

fn power_slot(power: Power) -> bool
    ensures answer { result ≡ power_slot power }
{
    match power {
        Power::Line => false,
        Power::External => true,
    }
}

// What the device puts on the line: 1 leaves the line alone.
pub fn offer(d: Device) -> bool
    ensures answer { result ≡ offer_of d }
{
    let stage = d.stage;
    match stage {
        Stage::AwaitRom { shift: _, count: _ } => true,
        Stage::SendRom(i) => code_slot(d.code, i),
        Stage::Match(_) => true,
        Stage::Search { bit, phase } => search_slot(d.code, bit, phase),
        Stage::AwaitFunction { shift: _, count: _ } => true,
        Stage::TakeSettings {
            place: _,
            shift: _,
            count: _,
        } => true,
        Stage::SendScratchpad { byte, bit } => {
            let pad = d.scratchpad;
            scratchpad_slot(pad, byte, bit)
        }
        Stage::SendStatus => {
            let busy = crate::is_busy(d);
            !busy
        }
        Stage::SendPower => {
            let power = d.power;
            power_slot(power)
        }
        Stage::Quiet => true,
    }
}
