// The fields of a call.
ghost use Rattle.std.specs.Prelude.{◌≡◌, ◌&&◌};
ghost use Rattle.lines.specs.Fields.{code_in, byte_in, bit_in, places_in, bytes_in, pins_in, count_in, three_bytes_in};
ghost use Rattle.lines.specs.Fields.{power_in};

use device::{Power, Settings};
use temperature::Sixteenths;
use text::{NumberRead, same};

// The most places of a list and bytes of a recording that a search is lent.
pub const MOST_PLACES: usize = 32;

pub const MOST_BYTES: usize = 1824;

// What was read of a field: whether it is one, and its value where it is.
#[derive(Clone, Copy)]
pub struct CountRead {
    pub valid: bool,
    pub count: Sixteenths,
}

#[derive(Clone, Copy)]
pub struct PowerRead {
    pub valid: bool,
    pub power: Power,
}

#[derive(Clone, Copy)]
pub struct SettingsRead {
    pub valid: bool,
    pub settings: Settings,
}

// The most digits of a decimal number.
const MOST_DIGITS: usize = 5;

pub fn code_in(w: &[u8]) -> NumberRead
    ensures answer { result ≡ code_in w.now }
{
    text::read_fixed(w, 16, 16)
}

fn byte_in(w: &[u8]) -> NumberRead
    ensures { result ≡ byte_in w.now }
{
    text::read_fixed(w, 16, 2)
}

pub fn bit_in(w: &[u8]) -> NumberRead
    ensures answer { result ≡ bit_in w.now }
{
    text::read_fixed(w, 2, 1)
}

pub fn places_in(w: &[u8]) -> NumberRead
    ensures answer { result ≡ places_in w.now }
{
    text::read_decimal(w, MOST_DIGITS, MOST_PLACES as u64)
}

pub fn bytes_in(w: &[u8]) -> NumberRead
    ensures answer { result ≡ bytes_in w.now }
{
    text::read_decimal(w, MOST_DIGITS, MOST_BYTES as u64)
}

pub fn pins_in(w: &[u8]) -> NumberRead
    ensures answer { result ≡ pins_in w.now }
{
    text::read_decimal(w, 3, 255)
}

pub fn count_in(w: &[u8]) -> CountRead
    ensures answer { result ≡ count_in w.now }
{
    if text::is_negative(w) {
        let below = text::read_decimal(&w[1..], MOST_DIGITS, 32768);
        let size = below.number as i32;
        return CountRead {
            valid: below.valid,
            count: Sixteenths((0 - size) as i16),
        };
    }
    let above = text::read_decimal(w, MOST_DIGITS, 32767);
    CountRead {
        valid: above.valid,
        count: Sixteenths(above.number as i16),
    }
}

// Whether two fields are what they should be.
pub fn both(a: bool, b: bool) -> bool
    ensures answer { result ≡ (a && b) }
{
    a && b
}

// The high limit, the low limit and the configuration.
pub fn settings_in(high: &[u8], low: &[u8], configuration: &[u8]) -> SettingsRead
    ensures answer { result ≡ three_bytes_in high.now low.now configuration.now }
{
    let h = byte_in(high);
    let l = byte_in(low);
    let c = byte_in(configuration);
    SettingsRead {
        valid: h.valid && l.valid && c.valid,
        settings: Settings {
            high: h.number as u8,
            low: l.number as u8,
            configuration: c.number as u8,
        },
    }
}

pub fn power_in(w: &[u8]) -> PowerRead
    ensures answer { result ≡ power_in w.now }
{
    if same(w, b"line") {
        return PowerRead {
            valid: true,
            power: Power::Line,
        };
    }
    PowerRead {
        valid: same(w, b"external"),
        power: Power::External,
    }
}
