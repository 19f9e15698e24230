// Temperatures that carry their unit in their type, the register that holds a reading, and the alarm
// rule. The sensor counts sixteenths of a degree; the families store sixteenths or half degrees; limits
// are whole degrees. Every conversion to a coarser unit rounds down, by a shift that copies the sign;
// what a half-degree device stores is the nearest half.
#![tactic(auto)]

ghost use Rattle.std.specs.Prelude.{◌≡◌};
ghost use Rattle.temperature.specs.Alarm.{alarms_at, limit_of, limit_byte_of, verdict};
ghost use Rattle.temperature.specs.Degrees.{degrees_of, IsSixteenths};
ghost use Rattle.temperature.specs.Measured.{measured_of, nearest_halves, rounded_of};
ghost use Rattle.temperature.specs.Range.{between, in_range, whole_in_range, is_limit};
ghost use Rattle.temperature.specs.Register.{count_of, count_bytes, reading_of, register_of};
ghost use Rattle.temperature.specs.Units.{converted, not_converted, to_half_degrees, to_sixteenths};
ghost use Rattle.temperature.specs.Units.{whole_to_sixteenths, whole_of};
ghost use Rattle.basic_laws.specs.Complement.{signed16, bits16};

use family::Unit;

// -55 and +125 degrees, the ends of what the devices measure, in each unit.
const LOWEST_SIXTEENTHS: i16 = -880;

const HIGHEST_SIXTEENTHS: i16 = 2000;

const LOWEST_HALVES: i16 = -110;

const HIGHEST_HALVES: i16 = 250;

const LOWEST_WHOLE: i16 = -55;

const HIGHEST_WHOLE: i16 = 125;

// The ends of a signed byte, as every limit is.
const LOWEST_LIMIT: i16 = -128;

const HIGHEST_LIMIT: i16 = 127;

#[derive(Clone, Copy)]
pub struct Sixteenths(pub i16);

#[derive(Clone, Copy)]
pub struct HalfDegrees(pub i16);

#[derive(Clone, Copy)]
pub struct WholeDegrees(pub i16);

// Degrees in single precision.
#[derive(Clone, Copy)]
pub struct Degrees(pub f32);

// A stored temperature, in the unit of the family that stores it.
#[derive(Clone, Copy)]
pub enum Reading {
    InSixteenths(Sixteenths),
    InHalves(HalfDegrees),
}

// Scratchpad bytes 0 and 1.
#[derive(Clone, Copy)]
pub struct Register {
    pub low: u8,
    pub high: u8,
}

// An answer in sixteenths, or a refusal and zero.
#[derive(Clone, Copy)]
pub struct Converted {
    pub refusal: u8,
    pub count: Sixteenths,
}

// A limit as its byte of the scratchpad, or a refusal and zero.
#[derive(Clone, Copy)]
pub struct LimitByte {
    pub refusal: u8,
    pub byte: u8,
}

pub fn to_half_degrees(c: Sixteenths) -> HalfDegrees
    ensures answer { result ≡ to_half_degrees c }
{
    let z = c.0;
    HalfDegrees(z >> 3)
}

fn in_sixteenths(count: Sixteenths) -> Converted
    ensures answer { result ≡ converted count }
{
    Converted {
        refusal: refusals::ACCEPTED,
        count,
    }
}

fn refuse() -> Converted
    ensures answer { result ≡ not_converted }
{
    Converted {
        refusal: refusals::OUT_OF_RANGE,
        count: Sixteenths(0),
    }
}

// Eight times a count of half degrees, where that is a temperature the devices measure.
pub fn to_sixteenths(h: HalfDegrees) -> Converted
    ensures answer { result ≡ to_sixteenths h }
{
    if in_range(Reading::InHalves(h)) {
        let z = h.0;
        return in_sixteenths(Sixteenths(z * 8));
    }
    refuse()
}

// Sixteen times a count of whole degrees, where that is a temperature the devices measure.
pub fn whole_to_sixteenths(w: WholeDegrees) -> Converted
    ensures answer { result ≡ whole_to_sixteenths w }
{
    if whole_in_range(w) {
        let z = w.0;
        return in_sixteenths(Sixteenths(z * 16));
    }
    refuse()
}

// The whole degree at or below a reading.
pub fn whole_of(r: Reading) -> WholeDegrees
    ensures answer { result ≡ whole_of r }
{
    match r {
        Reading::InSixteenths(c) => {
            let z = c.0;
            WholeDegrees(z >> 4)
        }
        Reading::InHalves(h) => {
            let z = h.0;
            WholeDegrees(z >> 1)
        }
    }
}

fn between(low: i16, high: i16, z: i16) -> bool
    ensures answer { result ≡ between low high z }
{
    low <= z && z <= high
}

// Whether a reading is from -55 to +125 degrees, both included.
pub fn in_range(r: Reading) -> bool
    ensures answer { result ≡ in_range r }
{
    match r {
        Reading::InSixteenths(c) => between(LOWEST_SIXTEENTHS, HIGHEST_SIXTEENTHS, c.0),
        Reading::InHalves(h) => between(LOWEST_HALVES, HIGHEST_HALVES, h.0),
    }
}

// Whether a temperature is from -55 to +125 whole degrees, both included.
pub fn whole_in_range(w: WholeDegrees) -> bool
    ensures answer { result ≡ whole_in_range w }
{
    between(LOWEST_WHOLE, HIGHEST_WHOLE, w.0)
}

fn is_limit(w: WholeDegrees) -> bool
    ensures answer { result ≡ is_limit w }
{
    between(LOWEST_LIMIT, HIGHEST_LIMIT, w.0)
}

// A limit byte of the scratchpad as a signed number of degrees.
pub fn limit_of(byte: u8) -> WholeDegrees
    ensures answer { result ≡ limit_of byte }
{
    let z = byte as i16;
    if byte < 128 {
        return WholeDegrees(z);
    }
    WholeDegrees(z - 256)
}

// A limit as its byte of the scratchpad. Only a signed byte can be one.
pub fn limit_byte_of(w: WholeDegrees) -> LimitByte
    ensures answer { result ≡ limit_byte_of w }
{
    if is_limit(w) {
        let z = w.0;
        if 0 <= z {
            return LimitByte {
                refusal: refusals::ACCEPTED,
                byte: z as u8,
            };
        }
        return LimitByte {
            refusal: refusals::ACCEPTED,
            byte: (z + 256) as u8,
        };
    }
    LimitByte {
        refusal: refusals::OUT_OF_RANGE,
        byte: 0,
    }
}

// Whether a temperature is at or past a limit. A low limit above the high one is no error.
pub fn alarms(t: WholeDegrees, high: WholeDegrees, low: WholeDegrees) -> bool
    ensures answer { result ≡ alarms_at t high low }
{
    let degree = t.0;
    let upper = high.0;
    let lower = low.0;
    degree >= upper || degree <= lower
}

// Whether a reading is at or past a limit, the two limits given as their bytes.
pub fn verdict(reading: Reading, high: u8, low: u8) -> bool
    ensures answer { result ≡ verdict reading high low }
{
    alarms(whole_of(reading), limit_of(high), limit_of(low))
}

// A count rounded down to the step of a configuration: its bits 6 and 5 choose 8, 4, 2 or 1.
fn rounded(count: Sixteenths, configuration: u8) -> Sixteenths
    ensures answer { result ≡ rounded_of count configuration }
{
    let z = count.0;
    let resolution = configuration / 32 % 4;
    match resolution {
        0 => Sixteenths((z >> 3) * 8),
        1 => Sixteenths((z >> 2) * 4),
        2 => Sixteenths((z >> 1) * 2),
        _ => count,
    }
}

// The nearest half degree: four sixteenths more, divided by eight and rounded down. Halved twice, since
// four more than a 16-bit count may be none.
fn nearest_halves(count: Sixteenths) -> HalfDegrees
    ensures answer { result ≡ nearest_halves count }
{
    let z = count.0;
    HalfDegrees(((z >> 2) + 1) >> 1)
}

// What a finished conversion stores for the sensor's count.
pub fn measured(unit: Unit, count: Sixteenths, configuration: u8) -> Reading
    ensures answer { result ≡ measured_of unit count configuration }
{
    match unit {
        Unit::Sixteenths => Reading::InSixteenths(rounded(count, configuration)),
        Unit::HalfDegrees => Reading::InHalves(nearest_halves(count)),
    }
}

// The sixteen bits of a number in two's complement.
fn bits_of(z: i16) -> u16
    ensures answer { result ≡ bits16 z }
{
    if 0 <= z {
        return z as u16;
    }
    ((z as i32) + 65536) as u16
}

// The number that sixteen bits stand for in two's complement.
fn signed_of(bits: u16) -> i16
    ensures answer { result ≡ signed16 bits }
{
    if bits < 32768 {
        return bits as i16;
    }
    ((bits as i32) - 65536) as i16
}

// A number as two bytes, low byte first.
fn bytes_of(z: i16) -> Register
    ensures answer { result ≡ count_bytes z }
{
    let bits = bits_of(z);
    Register {
        low: (bits % 256) as u8,
        high: (bits / 256) as u8,
    }
}

// How many of its unit a reading counts.
pub fn count_of(reading: Reading) -> i16
    ensures answer { result ≡ count_of reading }
{
    match reading {
        Reading::InSixteenths(c) => c.0,
        Reading::InHalves(h) => h.0,
    }
}

// The two bytes of a reading in the scratchpad.
pub fn register_of(r: Reading) -> Register
    ensures answer { result ≡ register_of r }
{
    match r {
        Reading::InSixteenths(c) => bytes_of(c.0),
        Reading::InHalves(h) => bytes_of(h.0),
    }
}

// The reading that two bytes of the scratchpad hold, without the bits that the configuration leaves
// undefined. Any configuration byte is taken: its bits 6 and 5 count.
pub fn reading_of(unit: Unit, low: u8, high: u8, configuration: u8) -> Reading
    ensures answer { result ≡ reading_of unit low high configuration }
{
    let z = signed_of((low as u16) + 256 * (high as u16));
    match unit {
        Unit::Sixteenths => Reading::InSixteenths(rounded(Sixteenths(z), configuration)),
        Unit::HalfDegrees => Reading::InHalves(HalfDegrees(z)),
    }
}

// A count of sixteenths in degrees. Single precision holds every one of them with nothing lost.
pub fn to_degrees(c: Sixteenths) -> Degrees
    ensures answer { (result ≡ degrees_of c) × IsSixteenths result.0 c.0 }
{
    let z = c.0;
    Degrees((z as f32) / 16.0)
}
