// Shows where one recording leaves another: `compare_recordings REFERENCE OTHER`, two file names. It
// only moves bytes; where they part, and what is printed, is decided by the libraries.
#![tactic(auto)]

ghost use Rattle.std.specs.Prelude.{◌≡◌, ◌≤◌, length, IfOk, IfSome};
ghost use Rattle.comparing.specs.Departure.{part_of};
ghost use Rattle.comparing.specs.Heading.{heading_for};

use comparing::answers;
use std::env::Env;
use std::io::Result;
use std::rt::Files;
use streams::ROOM;

// The bytes of the file that an argument names, and the number of the argument.
#[derive(Clone, Copy)]
struct File<'a> {
    argument: usize,
    bytes: &'a [u8],
}

// Reads the file of a name, and answers how many bytes stand at the front of the buffer.
fn read_named(rt: &impl Files, name: &[u8], buffer: &mut [u8]) -> Result<usize>
    ensures { IfOk result (λ n. n ≤ length buffer.new) }
{
    let mut file = streams::open(rt, name)?;
    let read = streams::fill(&mut file, buffer);
    match read.error {
        None => Ok(read.count),
        Some(error) => Err(error),
    }
}

// The same for a file that is not too long; what is wrong with it is said.
fn load_named(rt: &impl Files, errors: &impl Print, name: &[u8], buffer: &mut [u8]) -> Option<usize>
    ensures { IfSome result (λ n. n ≤ length buffer.new) }
{
    match read_named(rt, name, buffer) {
        Ok(count) => {
            if !streams::tell_too_long(errors, name, count) {
                return Some(count);
            }
        }
        Err(error) => streams::fail(errors, name, error),
    }
    None
}

// The file that an argument names.
fn load<'a>(
    rt: &(impl Env + Files),
    errors: &impl Print,
    argument: usize,
    buffer: &'a mut [u8],
) -> Option<File<'a>>
    ensures { IfSome result (λ file. file.argument ≡ argument) }
{
    let mut name = [0u8; 4096];
    match streams::arg(rt, argument, &mut name) {
        Ok(length) => {
            let count = load_named(rt, errors, &name[..length], buffer)?;
            let bytes = &buffer[..count];
            Some(File { argument, bytes })
        }
        Err(error) => {
            streams::fail(errors, b"file name", error);
            None
        }
    }
}

// Hands the answer for two recordings to the output: its first line, and then the part.
fn write_shown(rt: &impl Print, reference: &[u8], other: &[u8], heading: &[u8], part: &[u8])
    requires { (heading.now ≡ heading_for reference.now other.now)
        × (part.now ≡ part_of reference.now other.now) }
{
    if streams::write_all(rt, heading) {
        streams::write_all(rt, part);
    }
}

// The bytes of the first file are the reference, those of the second the other.
fn show<'a>(rt: &impl Print, first: File<'a>, second: File<'a>)
    requires { (first.argument ≡ 1) × (second.argument ≡ 2) }
{
    let reference = first.bytes;
    let other = second.bytes;
    let mut side: u8 = 0;
    let mut line: usize = 0;
    let part = comparing::part(reference, other, &mut side, &mut line);
    let mut text = [0u8; 64];
    let end = answers::heading(&mut text, side, line).next;
    write_shown(rt, reference, other, &text[..end], part);
}

fn compare(
    rt: &(impl Env + Files + Print),
    errors: &impl Print,
    reference: &mut [u8],
    other: &mut [u8],
) {
    let Some(first) = load(rt, errors, 1, reference) else {
        return;
    };
    let Some(second) = load(rt, errors, 2, other) else {
        return;
    };
    show(rt, first, second);
}

fn compare_files(rt: &(impl Env + Files + Print), errors: &impl Print) {
    let mut reference = [0u8; ROOM];
    let mut other = [0u8; ROOM];
    compare(rt, errors, &mut reference, &mut other);
}

fn main(rt: HostRuntime) {
    let errors = rt.stderr();
    if streams::arg_count(&rt) == 3 {
        compare_files(&rt, &errors);
    } else {
        streams::write_all(&errors, b"usage: compare_recordings REFERENCE OTHER\n");
    }
}
