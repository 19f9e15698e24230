// A reader over a lent recording: the bytes and the place of the next line. The work is done by the
// parser of `frame`, which takes plain bytes and a place; these functions take the struct apart and
// call it. `first_line`, with plain parameters, needs no reader at its caller's side.
ghost use Rattle.std.specs.Prelude.{◌≡◌};
ghost use Rattle.frame.specs.ReadLine.{line_read_at};

use crate::frame_lines;
use crate::frame_lines::LineRead;

#[derive(Clone, Copy)]
pub struct Reader<'a> {
    pub bytes: &'a [u8],
    pub at: usize,
}

// A reader at the first line.
pub fn open<'a>(bytes: &'a [u8]) -> Reader<'a>
    ensures answer { (result.bytes ≡ bytes.entry) × (result.at ≡ 0) }
{
    Reader { bytes, at: 0 }
}

// The line at the reader's place: its frame or refusal, or done, and the place of the next line.
pub fn next<'a>(r: Reader<'a>) -> LineRead
    ensures answer { result ≡ line_read_at r.entry.bytes.now r.entry.at }
{
    frame_lines::read_line_at(r.bytes, r.at)
}

// The same recording at another place, such as the one that `next` answered.
pub fn moved<'a>(r: Reader<'a>, at: usize) -> Reader<'a>
    ensures answer { (result.bytes ≡ r.entry.bytes) × (result.at ≡ at) }
{
    Reader { bytes: r.bytes, at }
}

// The first line of a recording.
pub fn first_line(bytes: &[u8]) -> LineRead
    ensures answer { result ≡ line_read_at bytes.now 0 }
{
    next(open(bytes))
}
