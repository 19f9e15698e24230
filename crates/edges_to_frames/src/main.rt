// Turns the edges of a logic analyser into frames: reads a capture from standard input and prints the
// frames as they are closed; at a refusal its line, and it stops. It only moves bytes; what is printed
// is decided by the library.
#![tactic(auto)]

ghost use Rattle.std.specs.Prelude.{◌≡◌, [], ◌+◌, ◌≤◌, IsTrue, length, take};
ghost use Rattle.capture_laws.specs.Transcript.{enough_room, Waiting, piece_text, piece_after, end_text};

use captures::edges::Reader;
use captures::{edge_printing, edges};
use streams::ReadyFollower;

// 64 KiB of a capture.
const PIECE: usize = 65536;

// 172 bytes more, which is room for the frames that a piece can close and for the line of a refusal.
const TEXT: usize = 65708;

// The reader of the capture, whether it goes on, which is where no refusal has come, and the room for what is printed.
#[derive(Drop)]
struct Frames {
    reader: Reader,
    going: bool,
    text: [u8; TEXT],
    ghost waits: { IsTrue going → ∥ Waiting reader ∥₁ },
}

// Hands to the output what the reader hands on for a piece: so many bytes at the front of a buffer.
fn write_piece(to: &impl Print, reader: Reader, piece: &[u8], text: &[u8], count: usize) -> bool
    requires { take count text.now ≡ piece_text reader piece.now }
{
    count <= text.len() && streams::write_all(to, &text[..count])
}

// Hands to the output what the reader hands on for the end.
fn write_end(to: &impl Print, reader: Reader, text: &[u8], count: usize)
    requires { take count text.now ≡ end_text reader }
{
    if count <= text.len() {
        streams::write_all(to, &text[..count]);
    }
}

impl ReadyFollower for Frames {
    ghost Suits = { λ s n. enough_room + n ≤ length s.text };

    ghost Waits = { λ s. IsTrue s.going };

    ghost in_front = { λ s. [] };

    ghost LeadsTo = { λ s came t. t.reader ≡ piece_after s.reader came };

    fn is_ready(&self, bytes: usize) -> bool {
        self.going && bytes <= PIECE
    }

    fn put_back(&self, _buffer: &mut [u8]) -> usize {
        0
    }

    // A piece of the capture. After a refusal, and where the output takes no more, none follows it.
    fn follow(&mut self, to: &impl Print, piece: &[u8], _held: usize) -> bool {
        let before = self.reader;
        let printed = edge_printing::print_piece(before, piece, &mut self.text);
        self.reader = printed.reader;
        self.going = printed.going;
        let wrote = write_piece(to, before, piece, &self.text, printed.written);
        wrote && printed.going
    }
}

impl Frames {
    // The end of the capture.
    fn print_end(&mut self, to: &impl Print)
        requires { IsTrue self.old.going × (enough_room ≤ length self.old.text) }
    {
        let printed = edge_printing::print_end(self.reader, &mut self.text);
        write_end(to, self.reader, &self.text, printed.written);
    }
}

fn print_capture(rt: &(impl Input + Print), frames: &mut Frames, buffer: &mut [u8])
    requires { IsTrue frames.old.going × (enough_room + length buffer.old ≤ length frames.old.text) }
{
    if streams::read_when_ready(rt, frames, buffer) {
        frames.print_end(rt);
    }
}

fn main(rt: HostRuntime) {
    let mut buffer = [0u8; PIECE];
    let mut frames = Frames {
        reader: edges::start(),
        going: true,
        text: [0; TEXT],
    };
    print_capture(&rt, &mut frames, &mut buffer);
}
