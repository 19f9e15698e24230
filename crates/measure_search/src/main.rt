// Fixed work on a bench: searches, and slots one by one. An `s` on standard input asks for the searches
// alone, another byte for the slots alone, no input for both. A second byte says how many devices there
// are; else there are 32.
#![tactic(auto)]

use bench::{Bench, Slotted};
use fixed_work::{ROUND, SLOTS};
use search::Searched;

const SEARCHES: u32 = 100;

// A search takes these as fewest.
const CODES: usize = 32;

const BYTES: usize = 1824;

const MOST: u8 = 32;

#[derive(Clone, Copy, Default)]
struct Totals {
    codes: u64,
    passes: u64,
    slots: u64,
    bytes: u64,
}

fn say_number(rt: &impl Print, label: &[u8], n: u64) {
    streams::write_all(rt, label);
    streams::print_decimal(rt, n);
    streams::write_all(rt, b"\n");
}

// Devices with serial numbers from 0 on.
fn bench_of(devices: u8) -> Bench {
    (0..devices as u64).fold(bench::new(), |bench, serial| {
        bench::add(bench, fixed_work::device_numbered(serial)).bench
    })
}

// A sum that starts over before it can overflow.
fn sum(total: u64, more: u64) -> u64 {
    total % 0x1_0000_0000 + more % 0x1_0000_0000
}

fn with(t: Totals, r: Searched) -> Totals {
    Totals {
        codes: sum(t.codes, r.codes as u64),
        passes: sum(t.passes, r.passes as u64),
        slots: sum(t.slots, r.slots as u64),
        bytes: sum(t.bytes, r.bytes as u64),
    }
}

// A number that every code of the list and their order have a part in.
fn mix(list: &[u64]) -> u64 {
    list.iter().fold(0, |mixed, code| (mixed / 2) ^ *code)
}

fn search_often(rt: &impl Print, bench: Bench, list: &mut [u64], recording: &mut [u8]) {
    let mut b = bench;
    let mut t = Totals::default();
    for _ in 0..SEARCHES {
        let r = search::search(b, list, recording);
        t = with(t, r);
        b = r.bench;
    }
    say_number(rt, b"codes ", t.codes);
    say_number(rt, b"passes ", t.passes);
    say_number(rt, b"slots ", t.slots);
    say_number(rt, b"bytes ", t.bytes);
    say_number(rt, b"list ", mix(list));
    say_number(rt, b"recording ", crc::crc_of(recording) as u64);
}

fn search_in_room(rt: &impl Print, bench: Bench) {
    let mut list = [0u64; CODES];
    let mut recording = [0u8; BYTES];
    search_often(rt, bench, &mut list, &mut recording);
}

// The answer of a slot is kept whole and its bench handed on, since a bench in a variable of its own is
// copied once more.
fn read_often(rt: &impl Print, bench: Bench) {
    let mut s = Slotted {
        bench,
        refusal: 0,
        line: false,
    };
    let mut ones: u64 = 0;
    for i in 0..SLOTS {
        let place = i % ROUND;
        if place == 0 {
            let bench = bench::reset(s.bench).bench;
            s = Slotted { bench, ..s };
        }
        s = bench::slot(s.bench, fixed_work::bit_at(place as u8));
        if s.line {
            ones = sum(ones, 1);
        }
    }
    say_number(rt, b"ones ", ones);
}

fn main(rt: HostRuntime) {
    let mut asked = [0u8, MOST];
    let got = streams::read_full(&rt, &mut asked);
    let bench = bench_of(asked[1]);
    if got == 0 || asked[0] == b's' {
        search_in_room(&rt, bench);
    }
    if got == 0 || asked[0] != b's' {
        read_often(&rt, bench);
    }
}
