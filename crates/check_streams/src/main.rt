// Runs what `streams` and `consoles` have for a caller who knows that the buffers suit: reads a text till twelve bytes
// have come, answers the lines behind the last piece, reads on at the end, and writes what two inputs are turned into.
#![tactic(auto)]

ghost use Rattle.std.specs.Prelude.{◌≡◌, ◌-◌, ◌<◌, ◌≤◌, [], length};
ghost use Rattle.check_streams.specs.Small.{turns, empty_told};

use consoles::Answerer;
use streams::{Conversion, Follower};

// How many bytes are still wanted.
#[derive(Drop)]
struct Wanted {
    bytes: usize,
}

impl Follower for Wanted {
    ghost Suits = { λ s n. n ≤ 8 };

    ghost Waits = { λ s. 0 < s.bytes };

    ghost in_front = { λ s. [] };

    ghost LeadsTo = { λ s came t. t.bytes ≡ s.bytes - length came };

    fn put_back(&self, _buffer: &mut [u8]) -> usize {
        0
    }

    fn follow(&mut self, to: &impl Print, piece: &[u8], held: usize) -> bool {
        streams::write_all(to, &piece[held..]);
        streams::write_all(to, b"|");
        self.bytes = self.bytes.saturating_sub(piece.len() - held);
        self.bytes > 0
    }
}

// Whose turn it is.
#[derive(Clone, Copy)]
struct Turn {
    first: bool,
}

impl Answerer for Turn {
    ghost console = { turns };

    ghost state = { λ s. s.first };

    ghost room = { 2 };

    fn answer(&mut self, _line: &[u8], _fed: bool, out: &mut [u8]) -> usize {
        out[0] = if self.first { b'a' } else { b'b' };
        out[1] = b'\n';
        self.first = !self.first;
        2
    }
}

struct Emptiness;

impl Conversion for Emptiness {
    ghost room = { 1 };

    ghost converted = { empty_told };

    fn convert(input: &[u8], text: &mut [u8]) -> usize {
        text[0] = if input.is_empty() { b'y' } else { b'n' };
        1
    }
}

// Reads till twelve bytes have come, eight at a time, and tells whether the input ended before.
fn read_twelve(rt: &(impl Input + Print)) {
    let mut buffer = [0u8; 8];
    let mut wanted = Wanted { bytes: 12 };
    let ended = streams::read_pieces(rt, &mut wanted, &mut buffer);
    let told: &[u8] = if ended { b" ended\n" } else { b" stopped\n" };
    streams::write_all(rt, told);
}

fn main(rt: HostRuntime) {
    read_twelve(&rt);
    let mut out = [0u8; 2];
    consoles::run(&rt, Turn { first: true }, &mut out);
    read_twelve(&rt);
    let mut text = [0u8; 1];
    streams::write_converted::<Emptiness>(&rt, b"", &mut text);
    streams::write_converted::<Emptiness>(&rt, b"one", &mut text);
    streams::write_all(&rt, b"\n");
}
