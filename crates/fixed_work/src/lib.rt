// The work that the measures have in common: devices with serial numbers from 0 on, and slots in rounds.
#![tactic(auto)]

ghost use Rattle.std.specs.Prelude.{◌≡◌};
ghost use Rattle.fixed_work.specs.Work.{code_numbered, numbered, offered};

use device::{Joining, Power};

pub const SLOTS: u32 = 500000;

// The slots after one reset: 33h, the code, BEh, the scratchpad.
pub const ROUND: u32 = 152;

// The code of family 28h with this serial number.
fn code_of(serial: u64) -> u64
    ensures { result ≡ code_numbered serial }
{
    let low = serial % 0x1_0000_0000_0000 * 256 + 0x28;
    low + (crc::crc_of_code(low) as u64) * 0x100_0000_0000_0000
}

// A device with this serial number.
pub fn device_numbered(serial: u64) -> Joining
    ensures answer { result ≡ numbered serial }
{
    Joining {
        code: code_of(serial),
        power: Power::External,
        high: 25,
        low: 0,
        configuration: 0x7F,
        pins: 0,
    }
}

// What the master offers in a slot of a round.
pub fn bit_at(place: u8) -> bool
    ensures answer { result ≡ offered place }
{
    if place < 72 {
        commands::byte_slot(0x33, place)
    } else {
        commands::byte_slot(0xBE, place - 72)
    }
}
