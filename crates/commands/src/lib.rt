// The command bytes of the 1-Wire bus and of the thermometers, named once, and a byte on the wire bit by
// bit. `specs/Commands.antt` has the same names for the definitions.
#![tactic(auto)]

ghost use Rattle.std.specs.Prelude.{◌≡◌};
ghost use Rattle.commands.specs.Bytes.{shift_in, shifted, byte_slot};

// ROM commands, taken after a reset.
pub const READ_ROM: u8 = 0x33;

pub const MATCH_ROM: u8 = 0x55;

pub const SKIP_ROM: u8 = 0xCC;

pub const SEARCH_ROM: u8 = 0xF0;

pub const ALARM_SEARCH: u8 = 0xEC;

// Function commands, taken after a ROM command.
pub const CONVERT: u8 = 0x44;

pub const WRITE_SCRATCHPAD: u8 = 0x4E;

pub const READ_SCRATCHPAD: u8 = 0xBE;

pub const COPY_SCRATCHPAD: u8 = 0x48;

pub const RECALL_EEPROM: u8 = 0xB8;

pub const READ_POWER: u8 = 0xB4;

// What a listener holds after one more bit of a byte.
#[derive(Clone, Copy)]
pub enum Shifted {
    // so many bits of it, in a shift register
    Partial { shift: u8, count: u8 },
    // all eight
    Whole(u8),
    // no sequence of bits leads here
    Beyond,
}

// One more bit into a shift register; of eight the first ends up lowest.
pub fn push(shift: u8, bit: bool) -> u8
    ensures answer { result ≡ shift_in shift bit }
{
    if bit { shift / 2 + 128 } else { shift / 2 }
}

// One more bit of a byte of which `count` bits are in the shift register.
pub fn shift_in(shift: u8, count: u8, bit: bool) -> Shifted
    ensures answer { result ≡ shifted shift count bit }
{
    let next = push(shift, bit);
    if count < 7 {
        return Shifted::Partial {
            shift: next,
            count: count + 1,
        };
    }
    if count == 7 {
        return Shifted::Whole(next);
    }
    Shifted::Beyond
}

// Bit `place` of a byte that is sent; past its eighth the sender leaves the line alone.
pub fn byte_slot(byte: u8, place: u8) -> bool
    ensures answer { result ≡ byte_slot byte place }
{
    if place < 8 {
        return (byte >> place) % 2 == 1;
    }
    true
}
