// A line of a recording that went through an editor, mended: letters raised, one carriage return and
// the spaces at its end dropped.
#![tactic(auto)]

pub mod answers;
pub mod texts;

ghost use Rattle.std.specs.Prelude.{◌≡◌, ◌+◌, ◌<◌, ◌≤◌, true, [], map, length, nat_eq};
ghost use Rattle.std.specs.Prelude.{if◌then◌else◌};
ghost use Rattle.basic_laws.specs.Laid.{laid};
ghost use Rattle.text.specs.Laying.{lay_answer, lay_leaves};
ghost use Rattle.mending.specs.Mending.{raised, unreturned, unspaced, longest_mended, reported, line_mended};
ghost use Rattle.mending.specs.Mending.{mended_bytes};
ghost use Rattle.mending.specs.Repair.{Repaired};

use frame::frame_lines;
use text::laying::Written;
use text::{CARRIAGE_RETURN, LINE_FEED, SPACE, laying};

// The most characters of a line that is mended, and room for its feed.
const LONGEST: usize = 256;

const ROOM: usize = 257;

// What the report adds for a line that was mended, and for one that was dropped.
const MENDED: u8 = 16;

const DROPPED: u8 = 32;

// What became of a line.
#[derive(Clone, Copy)]
pub struct LineMended {
    // the report on it; 0 where there is no room
    pub report: u8,
    // where what is written of it ends, or that there is no room
    pub written: Written,
}

// A line under repair.
#[derive(Clone, Copy)]
struct Repair {
    // its characters, from the front
    chars: [u8; ROOM],
    // how many
    end: usize,
    // which steps altered it
    altered: u8,
}

fn raise(c: u8) -> u8
    ensures { result ≡ raised c }
{
    if c < 0x61 {
        return c;
    }
    if c <= 0x66 { c - 0x20 } else { c }
}

// The characters of a line, raised, at the front of a buffer.
fn put_raised(out: &mut [u8], line: &[u8])
    requires { length line.now ≤ length out.old }
    ensures { out.new ≡ laid out.old 0 (map raised line.now) }
{
    for (i, &c) in line.iter().enumerate() {
        out[i] = raise(c);
    }
}

// How many characters stand before a carriage return at the end.
fn before_return(s: &[u8]) -> usize
    ensures { result ≡ length (unreturned s.now) }
{
    s.strip_suffix(&[CARRIAGE_RETURN]).unwrap_or(s).len()
}

// How many characters stand before the spaces at the end.
fn before_spaces(s: &[u8]) -> usize
    ensures { result ≡ length (unspaced s.now) }
{
    s.len() - s.iter().rev().take_while(|&&c| c == SPACE).count()
}

// The number of a step, where it altered the line.
fn mark(same: bool, step: u8) -> u8
    ensures { (result ≡ (if same then 0 else step)) × (result ≤ step) }
{
    if same { 0 } else { step }
}

// The three steps, one after the other.
fn mend_chars(line: &[u8]) -> Repair
    requires { length line.now ≤ longest_mended }
    ensures { Repaired line.now result }
{
    let mut chars = [0u8; ROOM];
    put_raised(&mut chars, line);
    let size = line.len();
    let same = line == &chars[..size];
    let unreturned = before_return(&chars[..size]);
    let unspaced = before_spaces(&chars[..unreturned]);
    let altered = mark(same, 1) + mark(unreturned == size, 2) + mark(unspaced == unreturned, 4);
    Repair {
        chars,
        end: unspaced,
        altered,
    }
}

// A report beside what was written, and none beside a refusal.
fn reported(report: u8, written: Written) -> LineMended
    ensures { result ≡ reported report written }
{
    if written.refusal != refusals::ACCEPTED {
        return LineMended { report: 0, written };
    }
    LineMended { report, written }
}

// A line that is dropped: nothing of it is written.
fn drop_line(out: &mut [u8], at: usize, line: &[u8], refusal: u8) -> LineMended
    requires { refusal < 4 }
    ensures answer { result ≡ reported (32 + refusal) (lay_answer out.old at []) }
    ensures written { out.new ≡ lay_leaves out.old at [] }
{
    let written = laying::lay(out, at, &line[0..0]);
    reported(DROPPED + refusal, written)
}

// The report on a line that is written, by which steps altered it.
fn report_written(altered: u8) -> u8
    requires { altered < 8 }
    ensures { result ≡ (if nat_eq altered 0 then 0 else 16 + altered) }
{
    if altered == 0 { 0 } else { MENDED + altered }
}

// A line with its feed that is not over-long: it is written where it reads once mended.
fn mend_fed(out: &mut [u8], at: usize, line: &[u8]) -> LineMended
    requires { length line.now ≤ longest_mended }
    ensures answer { result ≡ line_mended record { chars = line.now; fed = true } out.old at }
    ensures written { out.new ≡ lay_leaves out.old at
        (mended_bytes record { chars = line.now; fed = true }) }
{
    let repair = mend_chars(line);
    let mut chars = repair.chars;
    let end = repair.end;
    let read = frame_lines::read_line(&chars[..end], true, 0);
    if read.refusal != refusals::ACCEPTED {
        return drop_line(out, at, line, read.refusal);
    }
    chars[end] = LINE_FEED;
    let next = end + 1;
    let report = report_written(repair.altered);
    let written = laying::lay(out, at, &chars[..next]);
    reported(report, written)
}

// A line, by its characters before the feed or the end and whether there is a feed: what is left of it
// is laid at a place.
pub fn mend_line(out: &mut [u8], at: usize, line: &[u8], fed: bool) -> LineMended
    ensures answer { result ≡ line_mended record { chars = line.now; fed = fed } out.old at }
    ensures written { out.new ≡ lay_leaves out.old at
        (mended_bytes record { chars = line.now; fed = fed }) }
{
    if LONGEST < line.len() {
        return drop_line(out, at, line, refusals::MALFORMED);
    }
    if !fed {
        return drop_line(out, at, line, refusals::NOT_HEX);
    }
    mend_fed(out, at, line)
}
