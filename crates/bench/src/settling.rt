// The three slots of one place of a search, at once: where every device is quiet or about to send its bit
// of that place, what they make of each is settled by the bit that the last of them showed.
ghost use Rattle.std.specs.Prelude.{◌≡◌};
ghost use Rattle.basic_laws.specs.Front.{map_front};
ghost use Rattle.bench.specs.Settling.{settled_of};

use crate::wire;
use crate::wire::Devices;
use device::{Device, Phase, rom_commands, stages};

// A device after the three slots, of which the last showed this bit.
fn settled(d: Device, place: u8, bit: bool) -> Device
    ensures answer { result ≡ settled_of place bit d }
{
    if stages::is_quiet(d.stage) {
        return d;
    }
    device::with_stage(
        d,
        rom_commands::after_search(d.code, place, Phase::TakeBit, bit),
    )
}

// Every device after them. A quiet one is left as it stands.
pub fn settle_all(devices: Devices, count: u8, place: u8, bit: bool) -> Devices
    ensures answer { result ≡ map_front (settled_of place bit) count devices }
{
    let mut next = devices;
    for d in next[..wire::places(count)].iter_mut() {
        if !stages::is_quiet(d.stage) {
            *d = settled(*d, place, bit);
        }
    }
    next
}
