// What the packed console says that the bench's console does not: a refusal of the bytes, in the form
// of the line that asked, and the bytes themselves.
ghost use Rattle.std.specs.Prelude.{◌≤◌, ◌≡◌, pos, length, replicate, set};
ghost use Rattle.basic_laws.specs.Laid.{laid};
ghost use Rattle.temperature.specs.declared.Reading.TheVariants.{InSixteenths};
ghost use Rattle.scratchpad.specs.Fine.{no_fine};
ghost use Rattle.text.specs.Putting.{line_answer, line_leaves};
ghost use Rattle.bench_answers.specs.Answers.{show_line};
ghost use Rattle.bench_answers.specs.AccessLine.{access_line};
ghost use Rattle.why.specs.Why.{silent};
ghost use Rattle.why.specs.declared.rules.Reason.TheVariants.{NotOnBench};
ghost use Rattle.bench_answers.specs.WhyLine.{why_line};
ghost use Rattle.packed_bench.specs.Table.{table_bytes};
ghost use Rattle.packed_bench.specs.Through.{unseen};
ghost use Rattle.packed_session.specs.TableAnswers.{refused_on_table, text_room, table_text, dump_answer, dump_leaves};
ghost use Rattle.packed_session.specs.TableAnswers.{poke_refusal};

use bench::Looked;
use bench_answers::{access_answers, pin_answers, why_answers};
use bench_requests::Request;
use packed_bench::table::TABLE_BYTES;
use scratchpad::fine::FineDegrees;
use temperature::{Reading, Sixteenths, WholeDegrees};
use text::laying::Written;
use text::{LINE_FEED, putting};
use why::rules::{Reason, Why};

// The room for the text of a table: 32 lines of 96 digits and a feed.
pub const TEXT_ROOM: usize = 3104;

// ---- A refusal

fn no_access(refusal: u8, out: &mut [u8]) -> Written
    ensures answer { result ≡ line_answer out.old 0
        (access_line refusal (replicate 9 0) (InSixteenths (record { 0 = pos 0 })) no_fine) }
    ensures written { out.new ≡ line_leaves out.old 0
        (access_line refusal (replicate 9 0) (InSixteenths (record { 0 = pos 0 })) no_fine) }
{
    let reading = Reading::InSixteenths(Sixteenths(0));
    let fine = FineDegrees {
        numerator: 0,
        denominator: 0,
    };
    access_answers::access_line(out, 0, refusal, [0; 9], reading, fine)
}

fn no_device(refusal: u8, out: &mut [u8]) -> Written
    ensures answer { result ≡ line_answer out.old 0 (show_line (unseen refusal)) }
    ensures written { out.new ≡ line_leaves out.old 0 (show_line (unseen refusal)) }
{
    let nothing = bench::look(bench::new(), 0);
    let device = nothing.device;
    bench_answers::show_line(out, 0, Looked { refusal, device })
}

fn no_reason(refusal: u8, out: &mut [u8]) -> Written
    ensures answer { result ≡ line_answer out.old 0 (why_line (silent refusal NotOnBench)) }
    ensures written { out.new ≡ line_leaves out.old 0 (why_line (silent refusal NotOnBench)) }
{
    let why = Why {
        refusal,
        reason: Reason::NotOnBench,
        reading: Reading::InSixteenths(Sixteenths(0)),
        high: WholeDegrees(0),
        low: WholeDegrees(0),
        differs: false,
    };
    why_answers::why_line(out, 0, why)
}

// The refusal of bytes that hold no bench, at the front of what is lent, as an answer to this request.
pub fn refuse(request: Request, refusal: u8, out: &mut [u8]) -> Written
    ensures answer { result ≡ line_answer out.old 0 (refused_on_table refusal request) }
    ensures written { out.new ≡ line_leaves out.old 0 (refused_on_table refusal request) }
{
    match request {
        Request::Bad => bench_answers::bad_line(out, 0),
        Request::Add(_) => bench_answers::refusal_line(out, 0, refusal),
        Request::Reset => bench_answers::bit_line(out, 0, refusal, false),
        Request::Slot(_) => bench_answers::bit_line(out, 0, refusal, false),
        Request::Converted { code: _, count: _ } => bench_answers::refusal_line(out, 0, refusal),
        Request::Copied(_) => bench_answers::refusal_line(out, 0, refusal),
        Request::Cycle(_) => bench_answers::refusal_line(out, 0, refusal),
        Request::Search {
            places: _,
            bytes: _,
        } => { bench_answers::search_line(out, 0, refusal, 0, 0, 0, 0) }
        Request::Alarm {
            places: _,
            bytes: _,
        } => bench_answers::search_line(out, 0, refusal, 0, 0, 0, 0),
        Request::Read(_) => no_access(refusal, out),
        Request::Write {
            code: _,
            settings: _,
        } => no_access(refusal, out),
        Request::Show(_) => no_device(refusal, out),
        Request::Why(_) => no_reason(refusal, out),
        Request::Pins(_) => pin_answers::refusal_line(out, 0, refusal),
    }
}

// ---- The bytes

// The 32 entries of a table, a line each, at the front of what is lent, and how many bytes they are.
fn put_entries(t: &[u8], out: &mut [u8]) -> usize
    requires { (table_bytes ≤ length t.now) × (text_room ≤ length out.old) }
    ensures answer { result ≡ length (table_text 32 t.now) }
    ensures written { out.new ≡ laid out.old 0 (table_text 32 t.now) }
{
    let mut to: usize = 0;
    for entry in t[..TABLE_BYTES].chunks_exact(48) {
        to = putting::put_bytes(out, to, entry, LINE_FEED);
    }
    to
}

// The entries as they are, whatever the bytes; refused in the text with 1 where less than a table is
// lent. Refused without a text where less than its room is lent to it.
pub fn dump(t: &[u8], out: &mut [u8]) -> Written
    ensures answer { result ≡ dump_answer t.now out.old }
    ensures written { out.new ≡ dump_leaves t.now out.old }
{
    if out.len() < TEXT_ROOM {
        return putting::no_room();
    }
    if t.len() < TABLE_BYTES {
        return bench_answers::refusal_line(out, 0, refusals::NO_ROOM);
    }
    putting::behind(put_entries(t, out))
}

// One byte stored, or 1 for a place behind what is lent.
pub fn poke(t: &mut [u8], place: usize, byte: u8) -> u8
    ensures answer { result ≡ poke_refusal t.old place }
    ensures written { t.new ≡ set t.old place byte }
{
    if place < t.len() {
        t[place] = byte;
        return refusals::ACCEPTED;
    }
    refusals::NO_ROOM
}
