// Runs what the console cannot lend: lists and recordings that are longer than a search needs. All that
// is lent is 7 before; each line tells the five numbers of a search, then the first two places of
// the list, and the bytes of the recording on both sides of the end of one frame.
#![tactic(auto)]

ghost use Rattle.std.specs.Prelude.{◌≤◌};

use bench::Bench;
use device::{Joining, Power};

const CODE: u64 = 0x1E00_0000_0000_0028;

const PLACES: usize = 33;

const ROOM: usize = 1825;

// The length of a frame of 200 slots, with its feed.
const FRAME: usize = 57;

fn say(rt: &impl Print, text: &[u8]) {
    streams::write_all(rt, text);
}

fn say_number(rt: &impl Print, n: u64) {
    say(rt, b" ");
    streams::print_decimal(rt, n);
}

fn say_code(rt: &impl Print, code: u64) {
    say(rt, b" ");
    streams::print_hex(rt, code, 16);
}

fn one_device() -> Bench {
    let new = Joining {
        code: CODE,
        power: Power::External,
        high: 25,
        low: 0,
        configuration: 0x7F,
        pins: 0,
    };
    bench::add(bench::new(), new).bench
}

fn say_lent(rt: &impl Print, list: [u64; PLACES], recording: [u8; ROOM]) {
    say_code(rt, list[0]);
    say_code(rt, list[1]);
    say_number(rt, recording[FRAME - 1] as u64);
    say_number(rt, recording[FRAME] as u64);
    say(rt, b"\n");
}

// A search that is lent so many places of the list.
fn say_search(rt: &impl Print, label: &[u8], places: usize)
    requires { places ≤ PLACES }
{
    let mut list = [7u64; PLACES];
    let mut recording = [7u8; ROOM];
    say(rt, label);
    let r = search::search(one_device(), &mut list[..places], &mut recording);
    say_number(rt, r.refusal as u64);
    say_number(rt, r.codes as u64);
    say_number(rt, r.passes as u64);
    say_number(rt, r.slots as u64);
    say_number(rt, r.bytes as u64);
    say_lent(rt, list, recording);
}

fn main(rt: HostRuntime) {
    say_search(&rt, b"33 places, 1825 bytes:", 33);
    say_search(&rt, b"31 places, 1825 bytes:", 31);
}
