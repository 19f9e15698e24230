// A text that is read in pieces, for a caller who knows that the buffer suits what follows them.
ghost use Rattle.std.specs.Prelude.{◌≡◌, ◌≤◌, ℕ, List, IsTrue, IfSome, length, take, drop};
ghost use Rattle.std.specs.List.{FoldsTo};
ghost use Rattle.pieces.specs.Carried.{behind};
ghost use Rattle.streams.specs.Following.{Fits, After};

use crate::read;
use std::io::{Input, Print};

// What follows a text that comes in pieces.
pub trait Follower {
    // That pieces from a buffer of so many bytes suit it.
    ghost Suits: { Self → ℕ → Type 0 };

    // That it waits for a piece.
    ghost Waits: { Self → Type 0 } = { λ _. Unit {0} };

    // What of the pieces before goes in front of the next.
    ghost in_front: { Self → List ℕ };

    // Where bytes lead that come.
    ghost LeadsTo: { Self → List ℕ → Self → Type 0 };

    // Lays what is carried at the front of a buffer, and answers how long it is.
    fn put_back(&self, buffer: &mut [u8]) -> usize
        requires { Suits self.now (length buffer.old) }
        ensures within { result ≤ length buffer.new }
        ensures front { take result buffer.new ≡ in_front self.now };

    // Follows a piece, of which so many bytes were carried, and answers whether another may come.
    fn follow(&mut self, to: &impl Print, piece: &[u8], held: usize) -> bool
        requires held { held ≤ length piece.now }
        requires front { take held piece.now ≡ in_front self.old }
        requires fits { Fits (Suits self.old) (length piece.now) }
        requires waits { Waits self.old }
        ensures leads { IsTrue result → LeadsTo self.old (drop held piece.now) self.new }
        ensures suits { (n : ℕ) → Suits self.old n → Suits self.new n }
        ensures waits { IsTrue result → Waits self.new };
}

// One read, behind what is carried. The answer is how many bytes came, which are none at the end of the input, or
// nothing where no further piece may come.
fn next_piece<F: Follower>(
    rt: &(impl Input + Print),
    follower: &mut F,
    buffer: &mut [u8],
) -> Option<usize>
    requires suits { F.Suits follower.old (length buffer.old) }
    requires waits { F.Waits follower.old }
    ensures leads { IfSome result (λ n. After F.LeadsTo follower.old
        (behind (F.in_front follower.old) n buffer.new) follower.new) }
    ensures suits { F.Suits follower.new (length buffer.new) }
    ensures waits { IfSome result (λ n. F.Waits follower.new) }
{
    let held = follower.put_back(buffer);
    let count = read(rt, &mut buffer[held..]);
    if count == 0 {
        return Some(0);
    }
    if follower.follow(rt, &buffer[..held + count], held) {
        Some(count)
    } else {
        None
    }
}

// Reads to the end of the input, and follows each piece before it reads the next. The answer is whether the input
// ended; else no further piece was to come.
pub fn read_pieces<F: Follower>(
    rt: &(impl Input + Print),
    follower: &mut F,
    buffer: &mut [u8],
) -> bool
    requires suits { F.Suits follower.old (length buffer.old) }
    requires waits { F.Waits follower.old }
    ensures leads { IsTrue result → (pieces : List (List ℕ)) × FoldsTo F.LeadsTo follower.old pieces follower.new }
    ensures suits { F.Suits follower.new (length buffer.new) }
    ensures waits { IsTrue result → F.Waits follower.new }
{
    for _ in 0..u64::MAX {
        match next_piece(rt, follower, buffer) {
            None => return false,
            Some(0) => return true,
            Some(_) => {}
        }
    }
    true
}
