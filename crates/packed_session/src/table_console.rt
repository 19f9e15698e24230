// The bench console on a table of lent bytes: each line of the bench is answered as the console answers
// it on the bench that the bytes hold, and the bench that it leaves is packed again. Besides there are
// lines to store a byte and to show all.
ghost use Rattle.std.specs.Prelude.{◌≤◌, ◌≡◌, length, set};
ghost use Rattle.basic_laws.specs.Laid.{laid};
ghost use Rattle.bench_answers.specs.Answers.{refusal_line};
ghost use Rattle.text.specs.Putting.{line_answer, line_leaves};
ghost use Rattle.bench_answers.specs.Whole.{room};
ghost use Rattle.bench_session.specs.Console.{asked};
ghost use Rattle.packed_session.specs.TableAnswers.{refused_on_table, poke_refusal};
ghost use Rattle.packed_session.specs.TableConsole.{table_asked, line_on_table, spoken_to, spoken, telling};
ghost use Rattle.packed_session.specs.TableConsole.{table_told, wrote, keeps, AfterLine, TableAfter, Tells};

use crate::table_requests::TableRequest;
use crate::{table_answers, table_requests};
use bench_answers::search_answers::ROOM;
use bench_requests::Request;
use bench_session::console;
use packed_bench::table;
use text::laying::Written;

// The refusal of the bytes, in the form of the line.
fn refuse(line: &[u8], fed: bool, refusal: u8, out: &mut [u8]) -> Written
    ensures answer { result ≡ line_answer out.old 0
        (refused_on_table refusal (asked (record { chars = line.now; fed = fed }))) }
    ensures written { out.new ≡ line_leaves out.old 0
        (refused_on_table refusal (asked (record { chars = line.now; fed = fed }))) }
{
    if fed {
        return table_answers::refuse(bench_requests::parse(line), refusal, out);
    }
    table_answers::refuse(Request::Bad, refusal, out)
}

// A line of the bench.
fn on_bench(t: &mut [u8], line: &[u8], fed: bool, out: &mut [u8]) -> Written
    requires { room ≤ length out.old }
    ensures answer { result ≡ telling (line_on_table t.old
        (record { chars = line.now; fed = fed })).text }
    ensures written { out.new ≡ laid out.old 0
        (line_on_table t.old (record { chars = line.now; fed = fed })).text }
    ensures table { t.new ≡ (line_on_table t.old
        (record { chars = line.now; fed = fed })).left }
    ensures after { AfterLine t.old (record { chars = line.now; fed = fed })
        t.new }
{
    let there = table::unpack(t);
    let refusal = there.refusal;
    if refusal != refusals::ACCEPTED {
        return refuse(line, fed, refusal, out);
    }
    let bench = there.bench;
    let said = console::answer(bench, line, fed, out);
    let left = said.bench;
    table::pack(left, t);
    Written {
        refusal: said.refusal,
        next: said.count,
    }
}

fn store(t: &mut [u8], place: usize, byte: u8, out: &mut [u8]) -> Written
    ensures answer { result ≡ line_answer out.old 0 (refusal_line (poke_refusal t.old place)) }
    ensures written { out.new ≡ line_leaves out.old 0
        (refusal_line (poke_refusal t.old place)) }
    ensures table { t.new ≡ set t.old place byte }
{
    let refusal = table_answers::poke(t, place, byte);
    bench_answers::refusal_line(out, 0, refusal)
}

// Whatever the line asks for.
fn speak(request: TableRequest, t: &mut [u8], line: &[u8], fed: bool, out: &mut [u8]) -> Written
    requires { room ≤ length out.old }
    ensures { Tells (spoken_to request t.old (record { chars = line.now; fed = fed }))
        out.old out.new t.new result
        × TableAfter request t.old (record { chars = line.now; fed = fed }) t.new }
{
    match request {
        TableRequest::Poke { place, byte } => store(t, place, byte, out),
        TableRequest::Dump => table_answers::dump(t, out),
        TableRequest::Other => on_bench(t, line, fed, out),
    }
}

// One line, without its feed, and whether it had one: what it asks for is done, and the text of the
// answer is laid at the front of what is lent for it.
pub fn answer(t: &mut [u8], line: &[u8], fed: bool, out: &mut [u8]) -> Written
    ensures answer { result ≡ table_told (spoken t.old (record { chars = line.now; fed = fed }))
        out.old }
    ensures written { out.new ≡ wrote
        (spoken t.old (record { chars = line.now; fed = fed })) out.old }
    ensures table { t.new ≡ keeps t.old
        (spoken t.old (record { chars = line.now; fed = fed })) out.old }
    ensures after { room ≤ length out.old
        → TableAfter (table_asked (record { chars = line.now; fed = fed })) t.old
        (record { chars = line.now; fed = fed }) t.new }
{
    if out.len() < ROOM {
        return Written {
            refusal: refusals::NO_ROOM,
            next: 0,
        };
    }
    if fed {
        return speak(table_requests::parse(line), t, line, fed, out);
    }
    speak(TableRequest::Other, t, line, fed, out)
}
