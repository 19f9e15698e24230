// The parts of a device's record as bytes, and the part that bytes hold: an enum as the number of its
// case with the numbers that the case holds. Reading refuses nothing: a number past the last case is
// taken as the last one. Who packs what was read and compares finds the bytes that no part has.
ghost use Rattle.std.specs.Prelude.{◌≡◌};
ghost use Rattle.basic_laws.specs.Complement.{Fits16};
ghost use Rattle.temperature.specs.Register.{count_of};
ghost use Rattle.packed_bench.specs.Bytes.{eight_at, code_bytes, code_from_bytes};
ghost use Rattle.packed_bench.specs.Parts.{truth_byte, power_byte, power_of, phase_byte, phase_of, unit_byte, unit_at};
ghost use Rattle.packed_bench.specs.Parts.{reading_from, stage_case, stage_of, activity_case, activity_of};

use device::{Activity, Phase, Power, Settings, Stage};
use family::Unit;
use temperature::Reading;

// A configuration of twelve bits, at which no bit of a register is undefined.
const TWELVE_BITS: u8 = 0x60;

// The eight bytes of a code, lowest first.
pub type CodeBytes = [u8; 8];

// The case of an enum by its number, and up to three numbers that the case holds.
#[derive(Clone, Copy)]
pub struct Case(pub u8, pub u8, pub u8, pub u8);

pub fn truth_byte(t: bool) -> u8
    ensures answer { result ≡ truth_byte t }
{
    u8::from(t)
}

pub fn power_byte(power: Power) -> u8
    ensures answer { result ≡ power_byte power }
{
    match power {
        Power::Line => 0,
        Power::External => 1,
    }
}

pub fn power_of(byte: u8) -> Power
    ensures answer { result ≡ power_of byte }
{
    match byte {
        0 => Power::Line,
        _ => Power::External,
    }
}

fn phase_byte(phase: Phase) -> u8
    ensures answer { result ≡ phase_byte phase }
{
    match phase {
        Phase::SendBit => 0,
        Phase::SendComplement => 1,
        Phase::TakeBit => 2,
    }
}

fn phase_of(byte: u8) -> Phase
    ensures answer { result ≡ phase_of byte }
{
    match byte {
        0 => Phase::SendBit,
        1 => Phase::SendComplement,
        _ => Phase::TakeBit,
    }
}

// The unit of a reading. Its number is copied out so that the check knows it for one of its type.
pub fn unit_byte(reading: Reading) -> u8
    ensures answer { result ≡ unit_byte reading }
    ensures typed { Fits16 (count_of reading) }
{
    match reading {
        Reading::InSixteenths(c) => {
            let _z = c.0;
            0
        }
        Reading::InHalves(h) => {
            let _z = h.0;
            1
        }
    }
}

fn unit_at(byte: u8) -> Unit
    ensures answer { result ≡ unit_at byte }
{
    match byte {
        0 => Unit::Sixteenths,
        _ => Unit::HalfDegrees,
    }
}

// The reading that a unit's number and two bytes hold, whatever bits are set.
pub fn reading_from(unit: u8, low: u8, high: u8) -> Reading
    ensures answer { result ≡ reading_from unit low high }
{
    temperature::reading_of(unit_at(unit), low, high, TWELVE_BITS)
}

pub fn stage_case(stage: Stage) -> Case
    ensures answer { result ≡ stage_case stage }
{
    match stage {
        Stage::AwaitRom { shift, count } => Case(0, shift, count, 0),
        Stage::SendRom(i) => Case(1, i, 0, 0),
        Stage::Match(i) => Case(2, i, 0, 0),
        Stage::Search { bit, phase } => Case(3, bit, phase_byte(phase), 0),
        Stage::AwaitFunction { shift, count } => Case(4, shift, count, 0),
        Stage::TakeSettings {
            place,
            shift,
            count,
        } => Case(5, place, shift, count),
        Stage::SendScratchpad { byte, bit } => Case(6, byte, bit, 0),
        Stage::SendStatus => Case(7, 0, 0, 0),
        Stage::SendPower => Case(8, 0, 0, 0),
        Stage::Quiet => Case(9, 0, 0, 0),
    }
}

pub fn stage_of(x: Case) -> Stage
    ensures answer { result ≡ stage_of x }
{
    let tag = x.0;
    match tag {
        0 => Stage::AwaitRom {
            shift: x.1,
            count: x.2,
        },
        1 => Stage::SendRom(x.1),
        2 => Stage::Match(x.1),
        3 => {
            let phase = phase_of(x.2);
            Stage::Search { bit: x.1, phase }
        }
        4 => Stage::AwaitFunction {
            shift: x.1,
            count: x.2,
        },
        5 => Stage::TakeSettings {
            place: x.1,
            shift: x.2,
            count: x.3,
        },
        6 => Stage::SendScratchpad {
            byte: x.1,
            bit: x.2,
        },
        7 => Stage::SendStatus,
        8 => Stage::SendPower,
        _ => Stage::Quiet,
    }
}

pub fn activity_case(activity: Activity) -> Case
    ensures answer { result ≡ activity_case activity }
{
    match activity {
        Activity::Idle => Case(0, 0, 0, 0),
        Activity::Converting => Case(1, 0, 0, 0),
        Activity::Copying(s) => Case(2, s.high, s.low, s.configuration),
    }
}

pub fn activity_of(x: Case) -> Activity
    ensures answer { result ≡ activity_of x }
{
    let tag = x.0;
    match tag {
        0 => Activity::Idle,
        1 => Activity::Converting,
        _ => Activity::Copying(Settings {
            high: x.1,
            low: x.2,
            configuration: x.3,
        }),
    }
}

pub fn code_bytes(code: u64) -> CodeBytes
    ensures answer { result ≡ code_bytes code }
{
    code.to_le_bytes()
}

pub fn code_of(b: CodeBytes) -> u64
    ensures answer { result ≡ code_from_bytes (eight_at b 0) }
{
    u64::from_le_bytes(b)
}
