// The two count bytes that a half-degree device keeps beside its register, and the fine reading that they
// give with it: the exact temperature, as a whole number over another.
ghost use Rattle.std.specs.Prelude.{◌≡◌, ◌≤◌, ◌<◌};
ghost use Rattle.scratchpad.specs.Fine.{remaining_of, counts_right, fraction, no_fine, fine_of};

use family::Unit;
use temperature::{Reading, Sixteenths, WholeDegrees};

// What a finished conversion leaves in the second count byte.
pub const COUNTS_PER_DEGREE: u8 = 16;

// Degrees as a fraction, not reduced. Zero over zero where there is no fine reading.
#[derive(Clone, Copy)]
pub struct FineDegrees {
    pub numerator: i32,
    pub denominator: u16,
}

// What a finished conversion leaves in the first count byte, 1 to 16: what four sixteenths more than the
// count lack to the next whole degree.
pub fn remaining(count: Sixteenths) -> u8
    ensures answer { result ≡ remaining_of count }
{
    let register = temperature::register_of(Reading::InSixteenths(count));
    16 - (register.low % 16 + 4) % 16
}

// Whether the count bytes of a device that counts in this unit can be believed.
pub fn counts_right(unit: Unit, remaining: u8, per: u8) -> bool
    ensures answer { result ≡ counts_right unit remaining per }
{
    match unit {
        Unit::Sixteenths => true,
        Unit::HalfDegrees => 0 < per && remaining <= per,
    }
}

fn fraction(whole: WholeDegrees, remaining: u8, per: u8) -> FineDegrees
    requires { (0 < per) × (remaining ≤ per) }
    ensures { result ≡ fraction whole remaining per }
{
    let degrees = whole.0 as i32;
    let quarters = 4 * (per as u16);
    let counted = 4 * ((per - remaining) as u16);
    FineDegrees {
        numerator: degrees * (quarters as i32) - (per as i32) + (counted as i32),
        denominator: quarters,
    }
}

fn no_fine() -> FineDegrees
    ensures { result ≡ no_fine }
{
    FineDegrees {
        numerator: 0,
        denominator: 0,
    }
}

// The fine reading of a reading and the count bytes beside it.
pub fn fine_of(reading: Reading, remaining: u8, per: u8) -> FineDegrees
    ensures answer { result ≡ fine_of reading remaining per }
{
    match reading {
        Reading::InSixteenths(_) => no_fine(),
        Reading::InHalves(_) => {
            let right = counts_right(Unit::HalfDegrees, remaining, per);
            if right {
                return fraction(temperature::whole_of(reading), remaining, per);
            }
            no_fine()
        }
    }
}
