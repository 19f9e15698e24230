// The bench console: a line of input is one call, and its answer is some lines of text.
ghost use Rattle.std.specs.Prelude.{◌≡◌, ◌≤◌, length};
ghost use Rattle.bench_answers.specs.Whole.{room, Says};
ghost use Rattle.bench_session.specs.Console.{answered, answer, bench_leaves};

use bench::Bench;
use bench_answers::call_answers::Said;
use bench_answers::search_answers::ROOM;
use bench_answers::{call_answers, pin_answers, search_answers};
use bench_requests::Request;

// The call that a request asks for, and its answer.
fn respond(bench: Bench, request: Request, out: &mut [u8]) -> Said
    requires { room ≤ length out.old }
    ensures { Says out.old (answered bench request) out.new result }
{
    match request {
        Request::Bad => call_answers::bad(bench, out),
        Request::Add(new) => call_answers::change(bench::add(bench, new), out),
        Request::Reset => call_answers::reset(bench::reset(bench), out),
        Request::Slot(bit) => call_answers::slot(bench::slot(bench, bit), out),
        Request::Converted { code, count } => {
            call_answers::change(bench::finish_conversion(bench, code, count), out)
        }
        Request::Copied(code) => call_answers::change(bench::finish_copy(bench, code), out),
        Request::Cycle(code) => call_answers::change(bench::power_cycle(bench, code), out),
        Request::Search { places, bytes } => {
            search_answers::found(bench, false, places, bytes, out)
        }
        Request::Alarm { places, bytes } => search_answers::found(bench, true, places, bytes, out),
        Request::Read(code) => call_answers::access(at_code::read_at(bench, code), out),
        Request::Write { code, settings } => {
            call_answers::access(at_code::write_at(bench, code, settings), out)
        }
        Request::Show(code) => call_answers::device(bench, bench::look(bench, code), out),
        Request::Why(code) => call_answers::why(bench, why::why(bench, code), out),
        Request::Pins(places) => pin_answers::found(bench, places, out),
    }
}

// One line, without its feed, and whether it had one: the call that it asks for is made, and the text
// of the answer is laid at the front of what is lent. No answer is longer than the room.
pub fn answer(bench: Bench, line: &[u8], fed: bool, out: &mut [u8]) -> Said
    ensures answer { result ≡ answer bench (record { chars = line.now; fed = fed }) out.old }
    ensures written { out.new ≡ bench_leaves bench (record { chars = line.now; fed = fed })
        out.old }
    ensures fits { result.count ≤ room }
{
    if out.len() < ROOM {
        return Said {
            refusal: refusals::NO_ROOM,
            count: 0,
            bench,
        };
    }
    if fed {
        return respond(bench, bench_requests::parse(line), out);
    }
    respond(bench, Request::Bad, out)
}
