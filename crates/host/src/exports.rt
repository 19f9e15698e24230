// What a host in C or Rust calls; the crate `host_c` has it under the names that they link.
ghost use Rattle.std.specs.Prelude.{◌≡◌};
ghost use Rattle.crc.specs.Crc.{crc_of};
ghost use Rattle.host.specs.HostNaming.{next_answer, next_leaves};

use crate::{Answer, MOST_HELD};

// Room for a line that is not finished yet.
pub type Line = [u8; MOST_HELD];

// The CRC of bytes; 0 of none.
pub fn skiffle_crc(bytes: &[u8]) -> u8
    ensures answer { result ≡ crc_of bytes.now }
{
    crc::crc_of(bytes)
}

// The next of a recording that comes in pieces.
pub fn skiffle_next(line: &mut Line, held: usize, bytes: &[u8], at: usize, ended: bool) -> Answer
    ensures answer { result ≡ next_answer line.old held bytes.now at ended }
    ensures written { line.new ≡ next_leaves line.old held bytes.now at }
{
    crate::next(line, held, bytes, at, ended)
}
