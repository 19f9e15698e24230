// What differs between the thermometer families, in one table, and the layout that they share.
#![tactic(auto)]

ghost use Rattle.std.specs.Prelude.{◌≡◌};
ghost use Rattle.family.specs.Families.{properties_of, with_pins, kept_pins, pins_wrong};
ghost use Rattle.family.specs.Configuration.{stored_form, kept_configuration, same_seen, configuration_as_asked};
ghost use Rattle.family.specs.Configuration.{in_form};

// The family codes, the low byte of a ROM code.
pub const DS18S20: u8 = 0x10;

pub const DS18B20: u8 = 0x28;

pub const DS1825: u8 = 0x3B;

// The places of a scratchpad. The ninth byte is the CRC of the eight before it.
pub const READING_LOW: usize = 0;

pub const READING_HIGH: usize = 1;

pub const HIGH_LIMIT: usize = 2;

pub const LOW_LIMIT: usize = 3;

pub const CONFIGURATION: usize = 4;

pub const COUNT_REMAIN: usize = 6;

pub const COUNT_PER_DEGREE: usize = 7;

pub const CRC: usize = 8;

// The unit in which a family counts its readings.
#[derive(Clone, Copy)]
pub enum Unit {
    Sixteenths,
    HalfDegrees,
}

// One row of the table.
#[derive(Clone, Copy)]
pub struct Properties {
    // whether this is a family that the bench and the master know
    pub known: bool,
    // whether a configuration byte follows the two limits
    pub configurable: bool,
    // whether the low four bits of a configuration read address pins
    pub pinned: bool,
    pub unit: Unit,
    // the low four bits of a stored configuration
    pub nibble: u8,
    // the scratchpad at power-up, with zeros where the stored settings go
    pub initial: [u8; 8],
}

// The row of a family; an unknown one has the row of nothing known.
pub fn properties_of(family: u8) -> Properties
    ensures answer { result ≡ properties_of family }
{
    match family {
        DS18S20 => Properties {
            known: true,
            configurable: false,
            pinned: false,
            unit: Unit::HalfDegrees,
            nibble: 0,
            initial: [0xAA, 0x00, 0, 0, 0xFF, 0xFF, 0x0C, 0x10],
        },
        DS18B20 => Properties {
            known: true,
            configurable: true,
            pinned: false,
            unit: Unit::Sixteenths,
            nibble: 0x0F,
            initial: [0x50, 0x05, 0, 0, 0, 0xFF, 0x0C, 0x10],
        },
        DS1825 => Properties {
            known: true,
            configurable: true,
            pinned: true,
            unit: Unit::Sixteenths,
            nibble: 0,
            initial: [0x50, 0x05, 0, 0, 0, 0xFF, 0x0C, 0x10],
        },
        _ => Properties {
            known: false,
            configurable: false,
            pinned: false,
            unit: Unit::Sixteenths,
            nibble: 0,
            initial: [0; 8],
        },
    }
}

fn nibble_of(row: Properties, pins: u8) -> u8
    ensures answer { result ≡ (with_pins row pins).nibble }
{
    if row.pinned {
        return pins;
    }
    row.nibble
}

// The row of one device: where its family has pins, they are the low four bits of its configuration.
pub fn with_pins(row: Properties, pins: u8) -> Properties
    ensures answer { result ≡ with_pins row pins }
{
    let nibble = nibble_of(row, pins);
    Properties { nibble, ..row }
}

// The pins that a device keeps.
pub fn kept_pins(row: Properties, pins: u8) -> u8
    ensures answer { result ≡ kept_pins row pins }
{
    if row.pinned {
        return pins;
    }
    0
}

// Whether a device of this family cannot have these pins: there are four.
pub fn pins_wrong(row: Properties, pins: u8) -> bool
    ensures answer { result ≡ pins_wrong row pins }
{
    row.pinned && 15 < pins
}

// The stored form of a configuration byte: the two resolution bits, a 1, and the family's low four bits.
pub fn stored_form(byte: u8, nibble: u8) -> u8
    ensures answer { result ≡ stored_form byte nibble }
{
    (byte & 0x60) + 0x10 + nibble % 16
}

// A configuration as a device of this row keeps it, or 0 where the family has none.
pub fn kept_configuration(row: Properties, byte: u8) -> u8
    ensures answer { result ≡ kept_configuration row byte }
{
    if row.configurable {
        return stored_form(byte, row.nibble);
    }
    0
}

// Whether a master takes two configurations for the same: no master knows the pins.
fn same_seen(row: Properties, a: u8, b: u8) -> bool
    ensures answer { result ≡ same_seen row a b }
{
    if row.pinned {
        return a / 16 == b / 16;
    }
    a == b
}

// Whether a master takes a byte for what became of this configuration. A family without one may have any
// byte.
pub fn configuration_as_asked(row: Properties, asked: u8, byte: u8) -> bool
    ensures answer { result ≡ configuration_as_asked row asked byte }
{
    if row.configurable {
        return same_seen(row, byte, stored_form(asked, row.nibble));
    }
    true
}

// Whether a master takes the byte for a configuration.
pub fn configuration_in_form(row: Properties, byte: u8) -> bool
    ensures answer { result ≡ in_form row byte }
{
    configuration_as_asked(row, byte, byte)
}
