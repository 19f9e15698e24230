// A console at work: one call a line on standard input, its answer on standard output at once. It only moves bytes:
// `sessions::gathering` says where a line ends, and the console reads it, makes the call and forms the answer.
#![tactic(auto)]

ghost use Rattle.std.specs.Prelude.{◌≡◌, ℕ, List, [], true, false, ◌<◌, ◌≤◌, ◌↔◌, IsTrue, length, take};
ghost use Rattle.text.specs.Lines.{Line};
ghost use Rattle.sessions.specs.Session.{Console, held_ended, run_after, at_end, run_at, Holding};

use sessions::gathering;
use sessions::gathering::{Gathered, MOST_HELD};
use streams::ReadyFollower;

// What answers lines, one after the other.
pub trait Answerer: Copy {
    // What is said to a line in a state, and the state that it leads to.
    ghost console: { Console };

    ghost state: { Self → console.State };

    // The most bytes of an answer.
    ghost room: { ℕ };

    // Lays the answer to a line, which has its feed or none, at the front of what is lent for it, and says how
    // long it is.
    fn answer(&mut self, line: &[u8], fed: bool, out: &mut [u8]) -> usize
        requires { room ≤ length out.old }
        ensures within { result ≤ length out.new }
        ensures says { take result out.new
            ≡ console.says (state self.old) (record { chars = line.now; fed = fed }) }
        ensures leads { state self.new
            ≡ console.next (state self.old) (record { chars = line.now; fed = fed }) };
}

// What answers lines, and says how much room an answer needs.
pub trait MeasuredAnswerer: Answerer {
    fn room() -> usize
        ensures answer { result ≡ Self.room };
}

// The console, the characters of the line not yet ended and how many are held, and the room for an answer.
#[derive(Drop)]
struct Talk<'a, C: Answerer> {
    console: C,
    line: [u8; MOST_HELD],
    held: usize,
    out: &'a mut [u8],
    ghost roomy: { C.room ≤ length out.now },
}

// Hands to the output what is said to a line in the state in hand.
fn write_answer<C: Answerer>(to: &impl Print, console: &C, line: &[u8], text: &[u8])
    requires { text.now ≡ C.console.says (C.state console.now) (record { chars = line.now; fed = true }) }
{
    streams::write_all(to, text);
}

// Hands to the output what is said at the end to what is held.
fn write_last<C: Answerer>(to: &impl Print, console: &C, line: &[u8], text: &[u8])
    requires { text.now ≡ at_end C.console (record { state = C.state console.now; held = line.now }) }
{
    streams::write_all(to, text);
}

// A line that has its feed, answered. The console is the one after it.
fn answer_line<C: Answerer>(to: &impl Print, console: C, line: &[u8], out: &mut [u8]) -> C
    requires { C.room ≤ length out.old }
    ensures { C.state result ≡ C.console.next (C.state console) (record { chars = line.now; fed = true }) }
{
    let mut after = console;
    let count = after.answer(line, true, out);
    write_answer(to, &console, line, &out[..count]);
    after
}

// A last line without a feed, answered.
fn answer_last<C: Answerer>(to: &impl Print, console: C, line: &[u8], out: &mut [u8])
    requires { (C.room ≤ length out.old) × (0 < length line.now) }
{
    let mut after = console;
    let count = after.answer(line, false, out);
    write_last(to, &console, line, &out[..count]);
}

impl<C: Answerer> Talk<'_, C> {
    // What was gathered is answered where it has its feed, and held no more.
    fn end_line(&mut self, to: &impl Print, gathered: Gathered)
        requires { (gathered.held ≤ length self.old.line) × (C.room ≤ length self.old.out.now) }
        ensures run { run_at (C.state self.new.console) self.new.line self.new.held
            ≡ held_ended C.console (run_at (C.state self.old.console) self.old.line gathered.held) gathered.whole }
        ensures few { self.new.held ≤ gathered.held }
        ensures line { self.new.line ≡ self.old.line }
        ensures room { length self.new.out.now ≡ length self.old.out.now }
    {
        if gathered.whole {
            self.console = answer_line(to, self.console, &self.line[..gathered.held], self.out);
            self.held = 0;
        } else {
            self.held = gathered.held;
        }
    }
}

impl<'a, C: Answerer> Talk<'a, C> {
    // Nothing of a line is held yet.
    fn begin(console: C, out: &'a mut [u8]) -> Self
        requires { C.room ≤ length out.old }
        ensures { result.held ≡ 0 }
    {
        Talk {
            console,
            line: [0; MOST_HELD],
            held: 0,
            out,
        }
    }
}

impl<C: Answerer> Talk<'_, C> {
    // All lines, where nothing of one is held yet.
    fn run(&mut self, rt: &(impl Input + Print))
        requires { (C.room ≤ length self.old.out.now) × (self.old.held ≡ 0) }
    {
        let mut buffer = [0u8; 4096];
        streams::read_when_ready(rt, self, &mut buffer);
        let held = self.held;
        if held > 0 {
            answer_last(rt, self.console, &self.line[..held], self.out);
        }
    }
}

impl<C: Answerer> ReadyFollower for Talk<'_, C> {
    ghost Suits = { λ t n. Holding t.line t.held × (C.room ≤ length t.out.now) };

    ghost in_front = { λ t. [] };

    ghost LeadsTo = { λ t piece u. run_at (C.state u.console) u.line u.held
        ≡ run_after C.console (run_at (C.state t.console) t.line t.held) piece };

    fn is_ready(&self, _bytes: usize) -> bool {
        self.held <= MOST_HELD
    }

    fn put_back(&self, _buffer: &mut [u8]) -> usize {
        0
    }

    fn follow(&mut self, to: &impl Print, piece: &[u8], _held: usize) -> bool {
        let mut at = 0;
        // The step is the length of a line, so no range counts it.
        while at < piece.len() {
            let gathered = gathering::take_line(&mut self.line, self.held, piece, at);
            self.end_line(to, gathered);
            at = gathered.next;
        }
        true
    }
}

// Answers the lines of standard input till it ends, a last line without a feed too, for a caller who knows that there
// is room for an answer.
pub fn run<C: Answerer>(rt: &(impl Input + Print), console: C, out: &mut [u8])
    requires { C.room ≤ length out.old }
{
    Talk::begin(console, out).run(rt);
}

// Answers the lines of standard input till it ends, a last line without a feed too. The answer is whether there was room
// for an answer; else nothing is read.
pub fn run_where_room<C: MeasuredAnswerer>(
    rt: &(impl Input + Print),
    console: C,
    out: &mut [u8],
) -> bool
    ensures answer { IsTrue result ↔ (C.room ≤ length out.old) }
{
    if out.len() < C::room() {
        return false;
    }
    Talk::begin(console, out).run(rt);
    true
}
