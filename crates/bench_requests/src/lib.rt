// The lines of the bench console, read as requests.
#![tactic(auto)]

pub mod settings_requests;

ghost use Rattle.std.specs.Prelude.{◌≡◌};
ghost use Rattle.bench_requests.specs.Requests.{request_of};

mod calls;

pub use calls::asks;
use device::{Joining, Settings};
use temperature::Sixteenths;

// The most characters of a line, its feed not counted.
pub const LONGEST: usize = 80;

// What a line asks for.
#[derive(Clone, Copy)]
pub enum Request {
    Bad,
    Add(Joining),
    Reset,
    Slot(bool),
    Converted { code: u64, count: Sixteenths },
    Copied(u64),
    Cycle(u64),
    Search { places: usize, bytes: usize },
    Alarm { places: usize, bytes: usize },
    Read(u64),
    Write { code: u64, settings: Settings },
    Show(u64),
    Why(u64),
    Pins(usize),
}

// What a line, without its feed, asks for.
pub fn parse(line: &[u8]) -> Request
    ensures answer { result ≡ request_of line.now }
{
    if LONGEST < line.len() {
        return Request::Bad;
    }
    calls::of_bench(line)
}
