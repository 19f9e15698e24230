// A bench as a table of bytes that a host lends, and back: 32 entries of 48 bytes, the devices in the
// leading ones, zeros in the others; docs/TABLE.md has the layout. Bytes are read whatever they are,
// and accepted where the records that were read pack to the very same bytes and make a bench.
ghost use Rattle.std.specs.Prelude.{◌≤◌, ◌≡◌, length, take};
ghost use Rattle.basic_laws.specs.Same.{same};
ghost use Rattle.refusals.specs.Refusals.{accepted, no_room, not_a_table};
ghost use Rattle.bench.specs.Bench.{live};
ghost use Rattle.bench.specs.Records.{bench_of};
ghost use Rattle.packed_bench.specs.Table.{table_bytes, table_of, not_unpacked, held, unpacked, pack_refusal};
ghost use Rattle.packed_bench.specs.Table.{packed_into};

use crate::entries;
use crate::entries::Found;
use bench::Bench;

// 32 entries of 48 bytes.
pub const TABLE_BYTES: usize = 1536;

// The bench that bytes hold, or the refusal and the empty bench.
#[derive(Clone, Copy)]
pub struct Unpacked {
    pub refusal: u8,
    pub bench: Bench,
}

// Whether records pack to the bytes of this table.
fn is_packed(t: &[u8], found: Found) -> bool
    requires { table_bytes ≤ length t.now }
    ensures { result ≡ same (table_of 32 (take found.count found.devices)) (take table_bytes t.now) }
{
    let mut again = [0u8; TABLE_BYTES];
    let devices = found.devices;
    entries::write(devices, found.count, &mut again);
    text::same(&again, &t[..TABLE_BYTES])
}

fn refuse(refusal: u8) -> Unpacked
    ensures { result ≡ not_unpacked refusal }
{
    Unpacked {
        refusal,
        bench: bench::new(),
    }
}

// The bench that lent bytes hold. 1 comes before 22.
pub fn unpack(t: &[u8]) -> Unpacked
    ensures answer { result ≡ unpacked t.now }
{
    if t.len() < TABLE_BYTES {
        return refuse(refusals::NO_ROOM);
    }
    let found = entries::read(t);
    if !is_packed(t, found) {
        return refuse(refusals::NOT_A_TABLE);
    }
    let devices = found.devices;
    let made = bench::of_records(devices, found.count);
    let bench = made.bench;
    Unpacked {
        refusal: made.refusal,
        bench,
    }
}

// A bench into lent bytes, or 1 where they are too few for a table, and 22 for a bench that no table holds.
// From then on they hold its records; on a refusal they stay as they are.
pub fn pack(bench: Bench, t: &mut [u8]) -> u8
    ensures answer { result ≡ pack_refusal t.old bench }
    ensures written { t.new ≡ packed_into t.old bench }
    ensures back { result ≡ accepted → unpacked t.new ≡ held (bench_of (live bench)) }
{
    if t.len() < TABLE_BYTES {
        return refusals::NO_ROOM;
    }
    let devices = bench::records_of(bench);
    let count = bench::count_of(bench);
    let made = bench::of_records(devices, count);
    let refusal = made.refusal;
    if refusal != refusals::ACCEPTED {
        return refusal;
    }
    entries::write(devices, count, t);
    refusals::ACCEPTED
}
