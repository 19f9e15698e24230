// The console with a settings store beside the bench: a line is one call on either.
ghost use Rattle.std.specs.Prelude.{◌≡◌, ◌≤◌, length};
ghost use Rattle.text.specs.Lines.{Line};
ghost use Rattle.bench_answers.specs.Whole.{room, Says};
ghost use Rattle.bench_session.specs.SettingsConsole.{responded, store_left, told, leaves};

use crate::{console, settings_calls};
use bench::Bench;
use bench_answers::call_answers;
use bench_answers::call_answers::Said;
use bench_answers::search_answers::ROOM;
use bench_requests::settings_requests;
use bench_requests::settings_requests::StoreRequest;
use settings::{Store, writing};

// What came of a line, and the store after it.
#[derive(Clone, Copy)]
pub struct Told {
    pub said: Said,
    pub store: Store,
}

// The call that a request asks for, and its answer. What the store does not know is the bench's.
fn respond(
    bench: Bench,
    store: Store,
    request: StoreRequest,
    line: &[u8],
    fed: bool,
    out: &mut [u8],
) -> Told
    requires { room ≤ length out.old }
    ensures { Says out.old (responded bench store (record { chars = line.now; fed = fed })
        request) out.new result.said × (result.store ≡ store_left store request) }
{
    match request {
        StoreRequest::Other => Told {
            said: console::answer(bench, line, fed, out),
            store,
        },
        StoreRequest::Write(code) => Told {
            said: call_answers::access(writing::write(store, bench, code), out),
            store,
        },
        _ => {
            let done = settings_calls::call(store, request, out);
            let written = done.written;
            let after = done.store;
            Told {
                said: call_answers::say(written, bench),
                store: after,
            }
        }
    }
}

// One line, without its feed, and whether it had one: the call that it asks for is made, and the text
// of the answer is laid at the front of what is lent. No answer is longer than the room.
pub fn answer(bench: Bench, store: Store, line: &[u8], fed: bool, out: &mut [u8]) -> Told
    ensures answer { result ≡ told bench store (record { chars = line.now; fed = fed })
        out.old }
    ensures written { out.new ≡ leaves bench store (record { chars = line.now; fed = fed })
        out.old }
    ensures fits { result.said.count ≤ room }
{
    if out.len() < ROOM {
        return Told {
            said: Said {
                refusal: refusals::NO_ROOM,
                count: 0,
                bench,
            },
            store,
        };
    }
    if fed {
        return respond(bench, store, settings_requests::parse(line), line, fed, out);
    }
    respond(bench, store, StoreRequest::Other, line, fed, out)
}
