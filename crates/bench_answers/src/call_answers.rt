// What a call came to, said in one line at the front of what is lent, with the bench after it.
ghost use Rattle.std.specs.Prelude.{◌≡◌, ◌≤◌};
ghost use Rattle.bench_answers.specs.Answers.{bad_line, show_line};
ghost use Rattle.bench_answers.specs.WhyLine.{why_line};
ghost use Rattle.text.specs.Putting.{line_room};
ghost use Rattle.bench_answers.specs.Said.{says, line_said, line_left, of_change, of_reset, of_slot, of_access};

use crate::{access_answers, why_answers};
use bench::{Bench, Changed, Looked, ResetDone, Slotted};
use master_rules::Access;
use text::laying::Written;
use why::rules::Why;

// What came of a line.
#[derive(Clone, Copy)]
pub struct Said {
    pub refusal: u8,
    // how many bytes of text stand at the front of what was lent, 0 on a refusal
    pub count: usize,
    pub bench: Bench,
}

// A line that was laid at the front, and the bench.
pub fn say(w: Written, bench: Bench) -> Said
    ensures answer { result ≡ record { refusal = w.refusal; count = w.next; bench = bench } }
{
    Said {
        refusal: w.refusal,
        count: w.next,
        bench,
    }
}

// A line that asks for nothing that there is.
pub fn bad(bench: Bench, out: &mut [u8]) -> Said
    ensures answer { result ≡ line_said (says bad_line bench) out.old }
    ensures written { out.new ≡ line_left (says bad_line bench) out.old }
    ensures fits { result.count ≤ line_room }
{
    let w = crate::bad_line(out, 0);
    say(w, bench)
}

// An adding, a finish or a power cycle.
pub fn change(done: Changed, out: &mut [u8]) -> Said
    ensures answer { result ≡ line_said (of_change done) out.old }
    ensures written { out.new ≡ line_left (of_change done) out.old }
    ensures fits { result.count ≤ line_room }
{
    let bench = done.bench;
    let w = crate::refusal_line(out, 0, done.refusal);
    say(w, bench)
}

pub fn reset(done: ResetDone, out: &mut [u8]) -> Said
    ensures answer { result ≡ line_said (of_reset done) out.old }
    ensures written { out.new ≡ line_left (of_reset done) out.old }
    ensures fits { result.count ≤ line_room }
{
    let bench = done.bench;
    let w = crate::bit_line(out, 0, done.refusal, done.presence);
    say(w, bench)
}

pub fn slot(done: Slotted, out: &mut [u8]) -> Said
    ensures answer { result ≡ line_said (of_slot done) out.old }
    ensures written { out.new ≡ line_left (of_slot done) out.old }
    ensures fits { result.count ≤ line_room }
{
    let bench = done.bench;
    let w = crate::bit_line(out, 0, done.refusal, done.line);
    say(w, bench)
}

// A read or a write at a code.
pub fn access(done: Access, out: &mut [u8]) -> Said
    ensures answer { result ≡ line_said (of_access done) out.old }
    ensures written { out.new ≡ line_left (of_access done) out.old }
    ensures fits { result.count ≤ line_room }
{
    let bench = done.bench;
    let pad = done.pad;
    let reading = done.reading;
    let fine = done.fine;
    let w = access_answers::access_line(out, 0, done.refusal, pad, reading, fine);
    say(w, bench)
}

// A device that was looked at.
pub fn device(bench: Bench, looked: Looked, out: &mut [u8]) -> Said
    ensures answer { result ≡ line_said (says (show_line looked) bench) out.old }
    ensures written { out.new ≡ line_left (says (show_line looked) bench) out.old }
    ensures fits { result.count ≤ line_room }
{
    let w = crate::show_line(out, 0, looked);
    say(w, bench)
}

// Why a code is on the list of an alarm search.
pub fn why(bench: Bench, why: Why, out: &mut [u8]) -> Said
    ensures answer { result ≡ line_said (says (why_line why) bench) out.old }
    ensures written { out.new ≡ line_left (says (why_line why) bench) out.old }
    ensures fits { result.count ≤ line_room }
{
    let w = why_answers::why_line(out, 0, why);
    say(w, bench)
}
