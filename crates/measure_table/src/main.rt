// Fixed work on a table of 32 devices: the slots that `measure_search` makes on the records, one by one,
// each unpacked from the bytes and packed again.
#![tactic(auto)]

use fixed_work::{ROUND, SLOTS};
use packed_bench::calls;
use packed_bench::table::TABLE_BYTES;

fn say_number(rt: &impl Print, label: &[u8], n: u64) {
    streams::write_all(rt, label);
    streams::print_decimal(rt, n);
    streams::write_all(rt, b"\n");
}

// Devices with serial numbers 0 to 31.
fn fill(table: &mut [u8]) {
    for serial in 0..32 {
        calls::add(table, fixed_work::device_numbered(serial));
    }
}

// How many of the slots show 1, behind a reset where a round begins.
fn read_often(table: &mut [u8]) -> u64 {
    let mut ones: u64 = 0;
    for i in 0..SLOTS {
        let place = i % ROUND;
        if place == 0 {
            calls::reset(table);
        }
        if calls::slot(table, fixed_work::bit_at(place as u8)).line {
            ones = ones % 0x1_0000_0000 + 1;
        }
    }
    ones
}

fn main(rt: HostRuntime) {
    let mut table = [0u8; TABLE_BYTES];
    fill(&mut table);
    say_number(&rt, b"ones ", read_often(&mut table));
}
