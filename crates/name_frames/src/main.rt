// Names the frames of a recording: reads it from standard input and prints one line for each of its
// lines. It only moves bytes; what is printed is decided by the library.
#![tactic(auto)]

ghost use Rattle.std.specs.Prelude.{◌≡◌, ◌++◌, ◌*◌, ◌≤◌, length};
ghost use Rattle.pieces.specs.Carried.{carried_in, most_carried};
ghost use Rattle.pieces.specs.Pieces.{said, said_whole, carried};
ghost use Rattle.naming.specs.Printing.{printed_line};
ghost use Rattle.naming.specs.Streaming.{most_printed, most_held_of_recording};

use naming::streaming;
use pieces::Carried;
use streams::ReadyFollower;

// 64 KiB of a recording, behind what is carried over from before.
const PIECE: usize = 65671;

// Ten times as much, which has room for all that a piece can print.
const TEXT: usize = 656710;

// The most bytes of an unfinished line that are carried over.
const MOST_CARRIED: usize = 257;

// What is carried over, and the room for what is printed.
#[derive(Drop)]
struct Names {
    carried: Carried,
    text: [u8; TEXT],
}

// Hands to the output what is said for the whole lines of a piece.
fn write_said(to: &impl Print, piece: &[u8], text: &[u8]) -> bool
    requires { text.now ≡ said_whole printed_line piece.now }
{
    streams::write_all(to, text)
}

// Hands to the output what is said for what was carried to the end of the input.
fn write_last(to: &impl Print, carried: Carried, text: &[u8])
    requires { text.now ≡ said printed_line (carried_in carried) }
{
    streams::write_all(to, text);
}

impl ReadyFollower for Names {
    ghost Suits = { λ s n. (most_carried ≤ n) × (most_printed * n ≤ length s.text) };

    ghost in_front = { λ s. carried_in s.carried };

    ghost LeadsTo = { λ s came t. carried_in t.carried ≡ carried most_held_of_recording (carried_in s.carried ++ came) };

    fn is_ready(&self, bytes: usize) -> bool {
        MOST_CARRIED <= bytes && bytes <= PIECE
    }

    fn put_back(&self, buffer: &mut [u8]) -> usize {
        pieces::put_back(self.carried, buffer).next
    }

    // Prints the lines of a piece that have their feed.
    fn follow(&mut self, to: &impl Print, piece: &[u8], _held: usize) -> bool {
        let fed = streaming::feed(piece, &mut self.text);
        self.carried = fed.carried;
        write_said(to, piece, &self.text[..fed.written])
    }
}

impl Names {
    // Prints what is carried to the end of the input: a last line without a feed.
    fn print_last(&mut self, to: &impl Print, buffer: &mut [u8])
        requires { ⟦<Names as ReadyFollower>⟧.Suits self.old (length buffer.old) }
    {
        let end = pieces::put_back(self.carried, buffer).next;
        let last = streaming::finish(&buffer[..end], &mut self.text);
        write_last(to, self.carried, &self.text[..last.next]);
    }
}

fn print_recording(rt: &(impl Input + Print), names: &mut Names, buffer: &mut [u8])
    requires { ⟦<Names as ReadyFollower>⟧.Suits names.old (length buffer.old) }
{
    streams::read_when_ready(rt, names, buffer);
    names.print_last(rt, buffer);
}

fn main(rt: HostRuntime) {
    let mut buffer = [0u8; PIECE];
    let mut names = Names {
        carried: pieces::nothing(),
        text: [0; TEXT],
    };
    print_recording(&rt, &mut names, &mut buffer);
}
