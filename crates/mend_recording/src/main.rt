// Mends a recording that went through an editor: reads it from standard input, and writes what is left of
// it to standard output, and to standard error the number of each line that was not kept with the report
// on it. It only moves bytes; what becomes of a line is decided by the libraries.
#![tactic(auto)]

ghost use Rattle.std.specs.Prelude.{◌*◌, ◌≤◌, ◌≡◌, ◌++◌, length};
ghost use Rattle.pieces.specs.Carried.{carried_in, most_carried};
ghost use Rattle.pieces.specs.Pieces.{said_whole, carried};
ghost use Rattle.mending.specs.Mending.{mended_bytes, mended_text, reports};
ghost use Rattle.mending.specs.Claims.{most_held_of_mending, report_said};
ghost use Rattle.mending.specs.Notice.{notices_of, lines_after, most_told};

use mending::{answers, texts};
use pieces::Carried;
use streams::ReadyFollower;

// 4 KiB of a recording, behind what is carried over from before. What is left of a piece, and the report
// on its lines, take no more.
const PIECE: usize = 4353;

// What is told of the lines of a piece takes at most 25 bytes for each of its bytes.
const TOLD: usize = 108825;

// The most bytes of an unfinished line that are carried over.
const MOST_CARRIED: usize = 257;

// What is carried over, how many lines there were, and the room for what comes of a piece: what is left of it, the
// report on its lines, and what is told of them.
#[derive(Drop)]
struct Mender<'a, E> {
    errors: &'a E,
    carried: Carried,
    lines: u64,
    left: [u8; PIECE],
    report: [u8; PIECE],
    told: [u8; TOLD],
}

// Hands on what is left of the lines of a piece that have their feed.
fn write_left(to: &impl Print, piece: &[u8], left: &[u8]) -> bool
    requires { left.now ≡ said_whole mended_bytes piece.now }
{
    streams::write_all(to, left)
}

// Hands on what is told of them, behind so many lines before.
fn write_told(errors: &impl Print, piece: &[u8], before: u64, told: &[u8])
    requires { told.now ≡ notices_of before (said_whole report_said piece.now) }
{
    streams::write_all(errors, told);
}

// The same of what was carried to the end of the input.
fn write_last(
    to: &impl Print,
    errors: &impl Print,
    carried: Carried,
    before: u64,
    left: &[u8],
    told: &[u8],
)
    requires { (left.now ≡ mended_text (carried_in carried))
        × (told.now ≡ notices_of before (reports (carried_in carried))) }
{
    streams::write_all(errors, told);
    streams::write_all(to, left);
}

impl<E: Print> ReadyFollower for Mender<'_, E> {
    ghost Suits = { λ s n. (most_carried ≤ n) × (n ≤ length s.left) × (n ≤ length s.report)
        × (most_told * n ≤ length s.told) };

    ghost in_front = { λ s. carried_in s.carried };

    ghost LeadsTo = { λ s came t.
        (carried_in t.carried ≡ carried most_held_of_mending (carried_in s.carried ++ came))
        × (t.lines ≡ lines_after s.lines (said_whole report_said (carried_in s.carried ++ came))) };

    fn is_ready(&self, bytes: usize) -> bool {
        MOST_CARRIED <= bytes && bytes <= PIECE
    }

    fn put_back(&self, buffer: &mut [u8]) -> usize {
        pieces::put_back(self.carried, buffer).next
    }

    // Mends the lines of a piece that have their feed.
    fn follow(&mut self, to: &impl Print, piece: &[u8], _held: usize) -> bool {
        let fed = texts::feed(piece, &mut self.left, &mut self.report);
        let before = self.lines;
        let noticed = answers::notices(&mut self.told, &self.report[..fed.lines], before);
        write_told(self.errors, piece, before, &self.told[..noticed.written]);
        self.carried = fed.carried;
        self.lines = noticed.lines;
        write_left(to, piece, &self.left[..fed.written])
    }
}

impl<E: Print> Mender<'_, E> {
    // What is carried to the end of the input: a last line without a feed.
    fn mend_last(&mut self, to: &impl Print, buffer: &mut [u8])
        requires { ⟦<Mender<'static, E> as ReadyFollower>⟧.Suits self.old (length buffer.old) }
    {
        let held = pieces::put_back(self.carried, buffer).next;
        let last = texts::mend(&buffer[..held], &mut self.left, &mut self.report);
        let before = self.lines;
        let noticed = answers::notices(&mut self.told, &self.report[..last.lines], before);
        let left = &self.left[..last.written];
        let told = &self.told[..noticed.written];
        write_last(to, self.errors, self.carried, before, left, told);
    }
}

fn mend_recording<E: Print>(
    rt: &(impl Input + Print),
    mender: &mut Mender<'_, E>,
    buffer: &mut [u8],
)
    requires { ⟦<Mender<'static, E> as ReadyFollower>⟧.Suits mender.old (length buffer.old) }
{
    streams::read_when_ready(rt, mender, buffer);
    mender.mend_last(rt, buffer);
}

fn main(rt: HostRuntime) {
    let mut buffer = [0u8; PIECE];
    let errors = rt.stderr();
    let mut mender = Mender {
        errors: &errors,
        carried: pieces::nothing(),
        lines: 0,
        left: [0; PIECE],
        report: [0; PIECE],
        told: [0; TOLD],
    };
    mend_recording(&rt, &mut mender, &mut buffer);
}
