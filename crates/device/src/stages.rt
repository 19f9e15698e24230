// Tests of the stage that a device is in.
ghost use Rattle.std.specs.Prelude.{◌&&◌, ◌≡◌};
ghost use Rattle.device.specs.Stages.{still_at, quiet_at, first_of, starts_at};

use crate::{Phase, Stage};

const CODE_BITS: u8 = 64;

// Whether a slot leaves a device in this stage as it is.
pub fn is_still(stage: Stage) -> bool
    ensures answer { result ≡ still_at stage }
{
    match stage {
        Stage::AwaitRom { shift: _, count: _ } => false,
        Stage::SendRom(_) => false,
        Stage::Match(_) => false,
        Stage::Search { bit: _, phase: _ } => false,
        Stage::AwaitFunction { shift: _, count: _ } => false,
        Stage::TakeSettings {
            place: _,
            shift: _,
            count: _,
        } => false,
        Stage::SendScratchpad { byte: _, bit: _ } => false,
        Stage::SendStatus => true,
        Stage::SendPower => true,
        Stage::Quiet => true,
    }
}

pub fn is_quiet(stage: Stage) -> bool
    ensures answer { result ≡ quiet_at stage }
{
    match stage {
        Stage::AwaitRom { shift: _, count: _ } => false,
        Stage::SendRom(_) => false,
        Stage::Match(_) => false,
        Stage::Search { bit: _, phase: _ } => false,
        Stage::AwaitFunction { shift: _, count: _ } => false,
        Stage::TakeSettings {
            place: _,
            shift: _,
            count: _,
        } => false,
        Stage::SendScratchpad { byte: _, bit: _ } => false,
        Stage::SendStatus => false,
        Stage::SendPower => false,
        Stage::Quiet => true,
    }
}

fn both(a: bool, b: bool) -> bool
    ensures answer { result ≡ (a && b) }
{
    a && b
}

fn is_first(phase: Phase) -> bool
    ensures answer { result ≡ first_of phase }
{
    match phase {
        Phase::SendBit => true,
        Phase::SendComplement => false,
        Phase::TakeBit => false,
    }
}

// Whether its next slot is the first of a place of a search, the one in which it sends its bit.
pub fn starts_at(stage: Stage, place: u8) -> bool
    ensures answer { result ≡ starts_at place stage }
{
    match stage {
        Stage::AwaitRom { shift: _, count: _ } => false,
        Stage::SendRom(_) => false,
        Stage::Match(_) => false,
        Stage::Search { bit, phase } => both(
            is_first(phase),
            both(bit == place, place < CODE_BITS),
        ),
        Stage::AwaitFunction { shift: _, count: _ } => false,
        Stage::TakeSettings {
            place: _,
            shift: _,
            count: _,
        } => false,
        Stage::SendScratchpad { byte: _, bit: _ } => false,
        Stage::SendStatus => false,
        Stage::SendPower => false,
        Stage::Quiet => false,
    }
}
