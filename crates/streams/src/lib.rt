// The streams of a program as bytes: standard input, standard output and error, a file that an argument
// names. Nothing is kept from one call to the next: what a call was given is written when it returns, and
// a read takes no more than what it hands on.
#![tactic(auto)]

ghost use Rattle.std.specs.Prelude.{◌≤◌, length};

mod conversion;
mod files;
mod following;
mod numbers;
mod suited;

pub use conversion::{Conversion, MeasuredConversion, write_converted, write_where_room};
pub use files::{MOST, ROOM, arg, arg_count, fail, open, tell_too_long};
pub use following::{ReadyFollower, read_when_ready};
pub use numbers::{print_decimal, print_hex};
use std::io::{Error, Input, Print, Read};
pub use suited::{Follower, read_pieces};

// What came of reads into a slice: how many bytes stand at its front, and why the last read failed, if it did.
#[derive(Clone, Copy)]
pub struct Filled {
    pub count: usize,
    pub error: Option<Error>,
}

// Reads once from standard input, and answers how many bytes came to the front: 0 at the end of the input,
// and where the read failed.
pub fn read(from: &impl Input, into: &mut [u8]) -> usize
    ensures { result ≤ length into.new }
{
    from.reader().read(into).unwrap_or(0)
}

// Reads until there is no more room, the source ends or a read fails.
pub fn fill(from: &mut impl Read, into: &mut [u8]) -> Filled
    ensures { result.count ≤ length into.new }
{
    let mut count = 0;
    // The step is what a read brings, so no range counts it.
    while count < into.len() {
        match from.read(&mut into[count..]) {
            Ok(0) => break,
            Ok(came) => count += came,
            Err(error) => {
                return Filled {
                    count,
                    error: Some(error),
                };
            }
        }
    }
    Filled { count, error: None }
}

// Reads from standard input until there is no more room, the input ends or a read fails.
pub fn read_full(from: &impl Input, into: &mut [u8]) -> usize
    ensures { result ≤ length into.new }
{
    fill(&mut from.reader(), into).count
}

// Writes all of the bytes, or stops at the first write that takes nothing or fails, and answers whether
// all were written. Without bytes nothing is called.
pub fn write_all(to: &impl Print, bytes: &[u8]) -> bool {
    let mut done = 0;
    // The step is what a write takes, so no range counts it.
    while done < bytes.len() {
        match to.write_some(&bytes[done..]) {
            Ok(0) | Err(_) => return false,
            Ok(taken) => done += taken,
        }
    }
    true
}
