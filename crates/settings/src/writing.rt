// The settings that a store keeps for a code, written to the device with that code.
ghost use Rattle.std.specs.Prelude.{◌≡◌};
ghost use Rattle.settings.specs.Written.{settings_written};

use crate::Store;
use bench::Bench;
use master_rules::Access;

// Writes the settings of a code to its device, by a write at the code. The store stays as it is,
// whatever becomes of the write.
pub fn write(store: Store, bench: Bench, code: u64) -> Access
    ensures answer { result ≡ settings_written store bench code }
{
    let current = crate::read(store, code);
    if current.refusal != refusals::ACCEPTED {
        return at_code::refuse(current.refusal, bench);
    }
    let kept = current.settings;
    at_code::write_at(bench, code, kept)
}
