// A text that is read in pieces, each of which is followed before the next is read, through any buffer.
ghost use Rattle.std.specs.Prelude.{◌≡◌, ◌≤◌, ◌<◌, ◌↔◌, ℕ, List, IsTrue, length, take, drop};
ghost use Rattle.std.specs.List.{FoldsTo};
ghost use Rattle.pieces.specs.Carried.{behind};
ghost use Rattle.streams.specs.Following.{Fits};

use crate::read;
use std::io::{Input, Print};

// What follows a text that comes in pieces, and says whether it is ready for them.
pub trait ReadyFollower {
    // That pieces from a buffer of so many bytes suit it.
    ghost Suits: { Self → ℕ → Type 0 };

    // That it waits for a piece.
    ghost Waits: { Self → Type 0 } = { λ _. Unit {0} };

    // What of the pieces before goes in front of the next.
    ghost in_front: { Self → List ℕ };

    // Where bytes lead that come.
    ghost LeadsTo: { Self → List ℕ → Self → Type 0 };

    // Whether it waits for a piece, and pieces from a buffer of so many bytes suit it.
    fn is_ready(&self, bytes: usize) -> bool
        ensures ready { IsTrue result ↔ (Suits self.now bytes × Waits self.now) };

    // Lays what is carried at the front of a buffer, and answers how long it is.
    fn put_back(&self, buffer: &mut [u8]) -> usize
        requires { Suits self.now (length buffer.old) }
        ensures within { result ≤ length buffer.new }
        ensures front { take result buffer.new ≡ in_front self.now };

    // Follows a piece, of which so many bytes were carried, and answers whether another may come.
    fn follow(&mut self, to: &impl Print, piece: &[u8], held: usize) -> bool
        requires held { held ≤ length piece.now }
        requires front { take held piece.now ≡ in_front self.old }
        requires fits { Fits (Suits self.old) (length piece.now) }
        requires waits { Waits self.old }
        ensures leads { LeadsTo self.old (drop held piece.now) self.new }
        ensures suits { (n : ℕ) → Suits self.old n → Suits self.new n }
        ensures waits { IsTrue result → Waits self.new };
}

// What came of one read: how many bytes it brought, whether another piece may come, and how many reads may follow.
#[derive(Clone, Copy)]
struct Run {
    came: usize,
    going: bool,
    reads: u64,
}

// One read, behind what is carried, and what follows it; at the end of the input that is what was carried alone.
fn next_piece<F: ReadyFollower>(
    rt: &(impl Input + Print),
    follower: &mut F,
    reads: u64,
    buffer: &mut [u8],
) -> Run
    requires suits { F.Suits follower.old (length buffer.old) }
    requires waits { F.Waits follower.old }
    ensures leads { F.LeadsTo follower.old (behind (F.in_front follower.old) result.came buffer.new) follower.new }
    ensures suits { F.Suits follower.new (length buffer.new) }
    ensures waits { IsTrue result.going → F.Waits follower.new }
    ensures on { 0 < result.reads → IsTrue result.going }
    ensures reads { 0 < reads → result.reads < reads }
{
    let held = follower.put_back(buffer);
    let came = read(rt, &mut buffer[held..]);
    let going = follower.follow(rt, &buffer[..held + came], held);
    Run {
        came,
        going,
        reads: pieces::reads_left(reads, came, going),
    }
}

// Reads to the end of the input, and follows each piece before it reads the next. The answer is whether the input
// ended; else no further piece was to come, or none at all, where the follower was not ready for the buffer.
pub fn read_when_ready<F: ReadyFollower>(
    rt: &(impl Input + Print),
    follower: &mut F,
    buffer: &mut [u8],
) -> bool
    ensures leads { (pieces : List (List ℕ)) × FoldsTo F.LeadsTo follower.old pieces follower.new }
    ensures suits { F.Suits follower.old (length buffer.old) → F.Suits follower.new (length buffer.new) }
    ensures waits { IsTrue result → F.Waits follower.new }
{
    if !follower.is_ready(buffer.len()) {
        return false;
    }
    let mut run = Run {
        came: 0,
        going: true,
        reads: u64::MAX,
    };
    // What a read brings says how many may follow it, so no range counts them.
    while run.reads > 0 {
        run = next_piece(rt, follower, run.reads, buffer);
    }
    run.going
}
