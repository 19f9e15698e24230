// One device record changed in place by the slot rule, for hosts that keep their devices themselves.
ghost use Rattle.std.specs.Prelude.{◌≡◌};
ghost use Rattle.device.specs.Hear.{hear_of};
ghost use Rattle.device.specs.Offer.{offer_of};

use crate::{Device, hearing, offer};

// A slot in which the line showed this bit: the answer is what the device offered in it, and the record
// becomes what the slot rule makes of it.
pub fn hear_in_place(d: &mut Device, line: bool) -> bool
    ensures answer { result ≡ offer_of d.old }
    ensures written { d.new ≡ hear_of d.old line }
{
    let old = *d;
    let offered = offer::offer(old);
    *d = hearing::hear(old, line);
    offered
}
