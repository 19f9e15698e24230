// The frames of a recording named call by call, for a host that hands the recording over in pieces.
// The end of a piece is not the end of the recording: a line that is cut there is held until it is whole.
#![tactic(auto)]

pub mod exports;

ghost use Rattle.std.specs.Prelude.{◌≡◌, ◌≤◌, min, length, take};
ghost use Rattle.basic_laws.specs.Laid.{laid};
ghost use Rattle.naming.specs.Streaming.{most_held_of_recording};
ghost use Rattle.host.specs.HostNaming.{number_told, told_name, open_told, held_from, lent_answer};
ghost use Rattle.host.specs.HostNaming.{lent_leaves};

use naming::Named;
use text::laying;

// The kinds of an answer that are no name: the recording is over, the next piece is wanted, and what
// is added to the number of a refusal. A name is 1 to 6.
pub const DONE: u32 = 0;

pub const MORE_WANTED: u32 = 7;

pub const REFUSED: u32 = 100;

// As much of a line as tells that it is over-long: one character more than a line may have.
pub const MOST_HELD: usize = 135;

// What a call comes to. The order of the fields is that of the C header.
#[repr(C)]
#[derive(Clone, Copy)]
pub struct Answer {
    // the code of a search pass or of a read, else 0
    pub code: u64,
    // the place in the piece from which the next call goes on
    pub next: usize,
    // how many characters of an unfinished line are held
    pub held: usize,
    // DONE, a name, MORE_WANTED, or REFUSED and the number
    pub kind: u32,
    // scratchpad bytes 1 and 0 of a read, else 0
    pub raw: u16,
}

fn least(a: usize, b: usize) -> usize
    ensures { result ≡ min a b }
{
    if a < b { a } else { b }
}

// The number of a name, or of the refusal in its place.
fn number_told(named: Named) -> u32
    ensures { result ≡ number_told named }
{
    let refusal = named.refusal;
    if refusal != refusals::ACCEPTED {
        return REFUSED + (refusal as u32);
    }
    let name = named.name;
    naming::number_of(name) as u32
}

// A line that is named, or refused.
fn tell_name(named: Named, next: usize) -> Answer
    ensures { result ≡ told_name named next }
{
    Answer {
        code: named.code,
        next,
        held: 0,
        kind: number_told(named),
        raw: named.raw,
    }
}

// Nothing to name: the recording is over, or the next piece is wanted.
fn tell_none(kind: u32, held: usize, next: usize) -> Answer
    ensures { result ≡ record { code = 0; next = next; held = held; kind = kind; raw = 0 } }
{
    Answer {
        code: 0,
        next,
        held,
        kind,
        raw: 0,
    }
}

// A line that has no feed: it goes on in the next piece, or it is the last of the recording.
fn tell_open(line: &[u8], ended: bool, next: usize) -> Answer
    requires { length line.now ≤ most_held_of_recording }
    ensures { result ≡ open_told line.now ended next }
{
    if !ended {
        return tell_none(MORE_WANTED, line.len(), next);
    }
    if line.len() == 0 {
        return tell_none(DONE, 0, next);
    }
    tell_name(naming::name_line(line, false), next)
}

// Characters behind those that are held, as many as tell that a line is over-long; the answer is how
// many are held then.
fn hold(line: &mut [u8], held: usize, more: &[u8]) -> usize
    requires { most_held_of_recording ≤ length line.old }
    ensures answer { result ≡ length (held_from (take held line.old) more.now) }
    ensures written { line.new
        ≡ laid line.old 0 (held_from (take held line.old) more.now) }
{
    let start = least(held, MOST_HELD);
    let count = least(more.len(), MOST_HELD - start);
    laying::lay(line, start, &more[0..count]);
    start + count
}

// The next of a recording: `line` has the characters of an unfinished line from the pieces before, as
// many as `held` says, and `bytes` goes on from the place `at`. A line that stands whole in the piece
// is read where it stands.
pub fn next(line: &mut [u8], held: usize, bytes: &[u8], at: usize, ended: bool) -> Answer
    ensures answer { result ≡ lent_answer line.old held bytes.now at ended }
    ensures written { line.new ≡ lent_leaves line.old held bytes.now at }
{
    if line.len() < MOST_HELD {
        return tell_name(naming::refuse(refusals::NO_ROOM), 0);
    }
    let from = least(at, bytes.len());
    let end = text::line_end(bytes, from);
    if end < bytes.len() {
        if held == 0 {
            return tell_name(naming::name_line(&bytes[from..end], true), end + 1);
        }
        let count = hold(line, held, &bytes[from..end]);
        return tell_name(naming::name_line(&line[0..count], true), end + 1);
    }
    let count = hold(line, held, &bytes[from..end]);
    tell_open(&line[0..count], ended, end)
}
