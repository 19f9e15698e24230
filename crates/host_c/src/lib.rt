// The functions that a host in C or Rust links, by the names of include/skiffleshower.h, which says what each does.
#![tactic(auto)]

ghost use Rattle.std.specs.Prelude.{◌≡◌};
ghost use Rattle.crc.specs.Crc.{crc_of};
ghost use Rattle.host.specs.HostNaming.{next_answer, next_leaves};

use host::exports::Line;
use host::{Answer, exports};

// The CRC of bytes; 0 of none.
#[unsafe(no_mangle)]
pub extern "C" fn skiffle_crc(bytes: &[u8]) -> u8
    ensures answer { result ≡ crc_of bytes.now }
{
    exports::skiffle_crc(bytes)
}

// The next of a recording that comes in pieces.
#[unsafe(no_mangle)]
pub extern "C" fn skiffle_next(
    line: &mut Line,
    held: usize,
    bytes: &[u8],
    at: usize,
    ended: bool,
) -> Answer
    ensures answer { result ≡ next_answer line.old held bytes.now at ended }
    ensures written { line.new ≡ next_leaves line.old held bytes.now at }
{
    exports::skiffle_next(line, held, bytes, at, ended)
}
