// The entries of a table: 32 of 48 bytes, the records in the leading ones, zeros in the others.
ghost use Rattle.std.specs.Prelude.{◌+◌, ◌≤◌, ◌<◌, ◌≡◌, length, get_or, take, drop};
ghost use Rattle.basic_laws.specs.Each.{Each};
ghost use Rattle.basic_laws.specs.Laid.{laid};
ghost use Rattle.bench.specs.Bench.{vacant};
ghost use Rattle.packed_bench.specs.Types.{InTypes};
ghost use Rattle.packed_bench.specs.Table.{table_bytes, entry_bytes, table_of, devices_in};
ghost use Rattle.packed_bench.specs.Table.{written_over, records_in};

use crate::packing;
use crate::table::TABLE_BYTES;
use bench::wire::Devices;
use device::Device;

// The records of the leading entries, up to the first with the code 0, in the first places of a table.
#[derive(Clone, Copy)]
pub struct Found {
    pub devices: Devices,
    pub count: u8,
}

// The 48 bytes from a place on.
fn entry_at(t: &[u8], at: usize) -> [u8; 48]
    requires { at + 48 ≤ length t.now }
    ensures answer { result ≡ take 48 (drop at t.now) }
{
    let mut e = [0u8; 48];
    e.copy_from_slice(&t[at..at + 48]);
    e
}

// These 48 bytes over those from a place on; all others stay.
fn put_entry(t: &mut [u8], at: usize, e: [u8; 48])
    requires { at + 48 ≤ length t.old }
    ensures written { t.new ≡ laid t.old at e }
{
    t[at..at + 48].copy_from_slice(&e);
}

// The bytes of the device at a place, or zeros where there is none.
fn entry_of(devices: Devices, count: usize, place: usize) -> [u8; 48]
    requires { place < 32 }
    ensures answer { result ≡ entry_bytes (drop place (take count devices)) }
    ensures typed { place < count → InTypes (get_or devices place vacant) }
{
    if place < count {
        return packing::pack(devices[place]);
    }
    [0u8; 48]
}

// The table of the first records at the front of what is lent; all behind it stays.
fn write_entries(devices: Devices, count: u8, t: &mut [u8])
    requires { table_bytes ≤ length t.old }
    ensures written { t.new ≡ laid t.old 0 (table_of 32 (take count devices)) }
    ensures typed { Each InTypes (take count devices) }
{
    for place in 0..32 {
        put_entry(t, 48 * place, entry_of(devices, count as usize, place));
    }
}

// The same, and nothing where the bytes are too few for a table.
pub fn write(devices: Devices, count: u8, t: &mut [u8])
    ensures written { t.new ≡ written_over t.old (take count devices) }
    ensures typed { table_bytes ≤ length t.old → Each InTypes (take count devices) }
{
    if t.len() < TABLE_BYTES {
        return;
    }
    write_entries(devices, count, t);
}

// Whatever the bytes are.
fn read_entries(t: &[u8]) -> Found
    requires { table_bytes ≤ length t.now }
    ensures answer { take result.count result.devices ≡ devices_in 32 t.now }
    ensures few { result.count ≤ 32 }
{
    let mut devices = bench::records_of(bench::new());
    for place in 0..32 {
        let device = packing::fields(entry_at(t, 48 * place));
        if device.code == 0 {
            return Found {
                devices,
                count: place as u8,
            };
        }
        devices[place] = device;
    }
    Found { devices, count: 32 }
}

// The same, and none where the bytes are too few for a table.
pub fn read(t: &[u8]) -> Found
    ensures answer { take result.count result.devices ≡ records_in t.now }
    ensures few { result.count ≤ 32 }
{
    if t.len() < TABLE_BYTES {
        return Found {
            devices: bench::records_of(bench::new()),
            count: 0,
        };
    }
    read_entries(t)
}
