// Arguments, the files that they name, and what is said where one cannot be read.
ghost use Rattle.std.specs.Prelude.{◌≡◌, ◌≤◌, ltb, length, IfOk};

use crate::write_all;
use std::env::{Env, FillError};
use std::fmt::Write;
use std::io::{Error, Print, Result};
use std::rt::Files;
use std::{fmt, fs};

// The most bytes of a file that is read whole, 2 MiB, and one more, by which a longer one is told.
pub const MOST: usize = 2097152;

pub const ROOM: usize = 2097153;

// The system's numbers: there is no such argument, a name that is too long, a name that is not text.
const EINVAL: i32 = 22;

const ENAMETOOLONG: i32 = 36;

const EILSEQ: i32 = 84;

// How many arguments the program was started with, its own name among them.
pub fn arg_count(rt: &impl Env) -> usize {
    (0..usize::MAX)
        .position(|i| !has_arg(rt, i))
        .unwrap_or(usize::MAX)
}

fn has_arg(rt: &impl Env, i: usize) -> bool {
    !matches!(rt.arg(i, &mut [0u8; 0]), Err(FillError::NotPresent))
}

// Puts an argument at the front, and answers its length.
pub fn arg(rt: &impl Env, i: usize, into: &mut [u8]) -> Result<usize>
    ensures { IfOk result (λ n. n ≤ length into.new) }
{
    match rt.arg(i, into) {
        Ok(count) => Ok(count),
        Err(FillError::NotPresent) => Err(Error::from_raw_os_error(EINVAL)),
        Err(FillError::TooLong) => Err(Error::from_raw_os_error(ENAMETOOLONG)),
    }
}

// Opens the file of a name for reading. A name has to be text.
pub fn open<R: Files>(rt: &R, name: &[u8]) -> Result<R::File> {
    match str::from_utf8(name) {
        Ok(path) => fs::open(rt, path),
        Err(_) => Err(Error::from_raw_os_error(EILSEQ)),
    }
}

// Writes a line: what failed, a colon, and the system's words for the error.
pub fn fail(to: &impl Print, what: &[u8], error: Error) {
    write_all(to, what);
    write_all(to, b": ");
    let mut words = Words { to };
    let _ = write!(words, "{error}");
    write_all(to, b"\n");
}

// Writes a line where a file of so many bytes is too long to be read whole, and answers whether it is.
pub fn tell_too_long(to: &impl Print, what: &[u8], count: usize) -> bool
    ensures answer { result ≡ ltb MOST count }
{
    let long = MOST < count;
    if long {
        write_all(to, what);
        write_all(to, b": longer than 2097152 bytes\n");
    }
    long
}

// Passes on what is written, up to the number that an error has behind its words.
#[derive(Drop)]
struct Words<'a, P> {
    to: &'a P,
}

impl<P: Print> fmt::Write for Words<'_, P> {
    fn write_str(&mut self, s: &str) -> fmt::Result {
        if s.starts_with(" (os error") {
            return Err(fmt::Error);
        }
        write_all(self.to, s.as_bytes());
        Ok(())
    }
}
