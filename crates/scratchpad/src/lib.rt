// Scratchpads: what the end of a conversion stores in one, and the one judgement of its nine bytes, which
// frame naming and the master's calls share.
#![tactic(auto)]

pub mod fine;

ghost use Rattle.std.specs.Prelude.{◌≡◌};
ghost use Rattle.temperature.specs.Register.{register_of};
ghost use Rattle.scratchpad.specs.Stored.{reading_in, fine_in, stored_reading, with_register, with_counts};
ghost use Rattle.scratchpad.specs.Stored.{scratchpad_after};
ghost use Rattle.temperature.specs.Degrees.{IsSixteenths};
ghost use Rattle.scratchpad.specs.InDegrees.{sixteenths_of, degrees_in};
ghost use Rattle.scratchpad.specs.Judgement.{crc_right, all_zeros, kind_right, counts_believed, refused_pad, judged};

use crate::fine::FineDegrees;
use family::{Properties, Unit};
use temperature::{Converted, Degrees, Reading, Sixteenths};

// A scratchpad, and a whole one as it is sent: eight bytes and their CRC.
pub type EightBytes = [u8; 8];

pub type NineBytes = [u8; 9];

// A refusal, or 0, the reading in the family's unit and the fine reading, which is zero over zero where the
// family has none. A refusal's readings are zero.
#[derive(Clone, Copy)]
pub struct Judged {
    pub refusal: u8,
    pub reading: Reading,
    pub fine: FineDegrees,
}

// A refusal, or 0 and the temperature in degrees. A refusal's degrees are zero.
#[derive(Clone, Copy)]
pub struct DegreesRead {
    pub refusal: u8,
    pub degrees: Degrees,
}

fn refuse(number: u8) -> Judged
    ensures answer { result ≡ refused_pad number }
{
    Judged {
        refusal: number,
        reading: Reading::InSixteenths(Sixteenths(0)),
        fine: FineDegrees {
            numerator: 0,
            denominator: 0,
        },
    }
}

fn crc_right(pad: NineBytes) -> bool
    ensures answer { result ≡ crc_right pad }
{
    let bytes: &[u8] = &pad;
    let right = crc::crc_of(&bytes[..family::CRC]);
    pad[family::CRC] == right
}

fn all_zeros(pad: NineBytes) -> bool
    ensures answer { result ≡ all_zeros pad }
{
    pad.iter().all(|&byte| byte == 0)
}

fn kind_right(row: Properties, pad: NineBytes) -> bool
    ensures answer { result ≡ kind_right row pad }
{
    if row.known {
        return family::configuration_in_form(row, pad[family::CONFIGURATION]);
    }
    false
}

// The reading that a scratchpad holds, in the family's unit.
fn reading_in(row: Properties, pad: NineBytes) -> Reading
    ensures answer { result ≡ reading_in row pad }
{
    let unit = row.unit;
    temperature::reading_of(
        unit,
        pad[family::READING_LOW],
        pad[family::READING_HIGH],
        pad[family::CONFIGURATION],
    )
}

fn counts_believed(row: Properties, pad: NineBytes) -> bool
    ensures answer { result ≡ counts_believed row pad }
{
    let unit = row.unit;
    fine::counts_right(
        unit,
        pad[family::COUNT_REMAIN],
        pad[family::COUNT_PER_DEGREE],
    )
}

fn fine_in(row: Properties, pad: NineBytes) -> FineDegrees
    ensures answer { result ≡ fine_in row pad }
{
    fine::fine_of(
        reading_in(row, pad),
        pad[family::COUNT_REMAIN],
        pad[family::COUNT_PER_DEGREE],
    )
}

// Judges a scratchpad of a device of this family.
pub fn judge(family: u8, pad: NineBytes) -> Judged
    ensures answer { result ≡ judged family pad }
{
    if !crc_right(pad) {
        return refuse(refusals::WRONG_CRC);
    }
    if all_zeros(pad) {
        return refuse(refusals::ALL_ZERO);
    }
    let row = family::properties_of(family);
    if !kind_right(row, pad) {
        return refuse(refusals::WRONG_KIND);
    }
    let reading = reading_in(row, pad);
    if !temperature::in_range(reading) {
        return refuse(refusals::OUT_OF_RANGE);
    }
    if !counts_believed(row, pad) {
        return refuse(refusals::WRONG_COUNTS);
    }
    Judged {
        refusal: refusals::ACCEPTED,
        reading,
        fine: fine_in(row, pad),
    }
}

// A reading in sixteenths; half degrees out of range are refused.
pub fn sixteenths_of(reading: Reading) -> Converted
    ensures answer { result ≡ sixteenths_of reading }
{
    match reading {
        Reading::InSixteenths(count) => Converted {
            refusal: refusals::ACCEPTED,
            count,
        },
        Reading::InHalves(h) => temperature::to_sixteenths(h),
    }
}

// The temperature of a scratchpad in degrees, with nothing lost.
pub fn degrees_in(family: u8, pad: NineBytes) -> DegreesRead
    ensures answer { result ≡ degrees_in family pad }
    ensures exact { IsSixteenths result.degrees.0 (sixteenths_of (judged family pad).reading).count.0 }
{
    let judged = judge(family, pad);
    let reading = judged.reading;
    let converted = sixteenths_of(reading);
    let count = converted.count;
    DegreesRead {
        refusal: judged.refusal,
        degrees: temperature::to_degrees(count),
    }
}

// The reading that a conversion of this count stores, with the configuration of that moment.
pub fn stored_reading(row: Properties, count: Sixteenths, pad: EightBytes) -> Reading
    ensures answer { result ≡ stored_reading row count pad }
{
    let unit = row.unit;
    temperature::measured(unit, count, pad[family::CONFIGURATION])
}

fn with_register(pad: EightBytes, reading: Reading) -> EightBytes
    ensures answer { result ≡ with_register pad (register_of reading) }
{
    let register = temperature::register_of(reading);
    let mut next = pad;
    next[family::READING_LOW] = register.low;
    next[family::READING_HIGH] = register.high;
    next
}

fn with_counts(unit: Unit, count: Sixteenths, pad: EightBytes) -> EightBytes
    ensures answer { result ≡ with_counts unit count pad }
{
    let mut next = pad;
    match unit {
        Unit::Sixteenths => next,
        Unit::HalfDegrees => {
            next[family::COUNT_REMAIN] = fine::remaining(count);
            next[family::COUNT_PER_DEGREE] = fine::COUNTS_PER_DEGREE;
            next
        }
    }
}

// The scratchpad after a conversion of this count.
pub fn after_conversion(row: Properties, count: Sixteenths, pad: EightBytes) -> EightBytes
    ensures answer { result ≡ scratchpad_after row count pad }
{
    let unit = row.unit;
    with_counts(
        unit,
        count,
        with_register(pad, stored_reading(row, count, pad)),
    )
}
