// A text in pieces: what came of one, and what of an unfinished line is carried to the next.
#![tactic(auto)]

ghost use Rattle.std.specs.Prelude.{◌≡◌, [], ◌≤◌, min, length, take, drop};
ghost use Rattle.text.specs.Laying.{lay_answer, lay_leaves};
ghost use Rattle.pieces.specs.Carried.{carried_in, most_carried, reads_left};

use text::laying;
use text::laying::Written;

// The most characters of an unfinished line that can be carried.
const MOST_CARRIED: usize = 257;

// The characters of an unfinished line, carried to the next piece.
#[derive(Clone, Copy)]
pub struct Carried {
    line: [u8; 257],
    count: usize,
}

// What came of a piece.
#[derive(Clone, Copy)]
pub struct Fed {
    pub refusal: u8,
    // how many bytes of what is said stand at the front of its buffer
    pub written: usize,
    pub carried: Carried,
}

// How far the whole lines of a piece go.
#[derive(Clone, Copy)]
pub struct Progress {
    // how many bytes were said for them
    pub written: usize,
    // where the unfinished line begins
    pub next: usize,
}

fn least(a: usize, b: usize) -> usize
    ensures { result ≡ min a b }
{
    if a < b { a } else { b }
}

// Before the first piece.
pub fn nothing() -> Carried
    ensures answer { carried_in result ≡ [] }
{
    Carried {
        line: [0; 257],
        count: 0,
    }
}

// The bytes from a place on, or the first of them where they are more than so many.
pub fn carry(s: &[u8], from: usize, most: usize) -> Carried
    ensures answer { carried_in result ≡ take (min most most_carried) (drop from s.now) }
{
    if s.len() < from {
        return nothing();
    }
    let end = from + least(least(most, MOST_CARRIED), s.len() - from);
    let mut line = [0u8; 257];
    let laid = laying::lay(&mut line, 0, &s[from..end]);
    Carried {
        line,
        count: laid.next,
    }
}

// What is carried, laid at the front of a buffer.
pub fn put_back(carried: Carried, buffer: &mut [u8]) -> Written
    ensures answer { result ≡ lay_answer buffer.old 0 (carried_in carried) }
    ensures written { buffer.new ≡ lay_leaves buffer.old 0 (carried_in carried) }
    ensures few { length (carried_in carried) ≤ most_carried }
{
    let line = carried.line;
    let count = least(carried.count, MOST_CARRIED);
    laying::lay(buffer, 0, &line[..count])
}

// How many reads may follow one that brought so many bytes, whose answer was written or was not: none at
// the end of the input, and none where the output takes no more. A proved loop has to end, and nothing
// says that an input does: so they are counted down from a number that no run uses up.
pub fn reads_left(reads: u64, came: usize, wrote: bool) -> u64
    ensures answer { result ≡ reads_left reads came wrote }
{
    if came == 0 {
        return 0;
    }
    if !wrote {
        return 0;
    }
    if reads == 0 {
        return 0;
    }
    reads - 1
}
