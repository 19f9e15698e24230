// The wire of a bench: a table of 32 places for devices, of which the first `count` are taken, and what
// those devices do together.
ghost use Rattle.std.specs.Prelude.{min, ◌≡◌, take};
ghost use Rattle.bench.specs.Wire.{free_wire, all_restarted};

use device::{Device, power_and_finishes};

// How many devices a bench can hold.
pub const PLACES: usize = 32;

pub type Devices = [Device; 32];

// How many places are taken where so many are counted.
pub fn places(count: u8) -> usize
    ensures answer { result ≡ min count 32 }
{
    (count as usize).min(PLACES)
}

// Whether no line-powered device is busy, so that a reset or a slot can pass.
pub fn is_free(devices: Devices, count: u8) -> bool
    ensures answer { result ≡ free_wire (take count devices) }
{
    devices[..places(count)]
        .iter()
        .all(|d| !device::holds_wire(*d))
}

// Every device listens for a ROM command.
pub fn restart_all(devices: Devices, count: u8) -> Devices
    ensures answer { result ≡ all_restarted count devices }
{
    let mut next = devices;
    for d in next[..places(count)].iter_mut() {
        *d = power_and_finishes::reset(*d);
    }
    next
}
