// The console on a table of lent bytes, with a settings store beside it: a line is one call on either.
ghost use Rattle.std.specs.Prelude.{◌≤◌, ◌≡◌, length};
ghost use Rattle.basic_laws.specs.Laid.{laid};
ghost use Rattle.bench_answers.specs.Whole.{room};
ghost use Rattle.bench_session.specs.SettingsConsole.{store_left, store_asked};
ghost use Rattle.packed_bench.specs.Through.{After};
ghost use Rattle.packed_session.specs.TableConsole.{telling, wrote, keeps, Tells};
ghost use Rattle.settings.specs.Written.{settings_written};
ghost use Rattle.packed_session.specs.TableSettings.{written_on, spoken_of, told_of};

use crate::{table_answers, table_console};
use bench_answers::call_answers;
use bench_answers::search_answers::ROOM;
use bench_requests::settings_requests::StoreRequest;
use bench_requests::{Request, settings_requests};
use bench_session::settings_calls;
use packed_bench::table;
use settings::{Store, writing};
use text::laying::Written;

// What came of a line, and the store after it.
#[derive(Clone, Copy)]
pub struct TableTold {
    pub written: Written,
    pub store: Store,
}

// The settings of a code, written to its device on the table.
fn write(t: &mut [u8], store: Store, code: u64, out: &mut [u8]) -> Written
    requires { room ≤ length out.old }
    ensures answer { result ≡ telling (written_on t.old store code).text }
    ensures written { out.new ≡ laid out.old 0
        (written_on t.old store code).text }
    ensures table { t.new ≡ (written_on t.old store code).left }
    ensures after { After (λ b. (settings_written store b code).bench) t.old t.new }
{
    let there = table::unpack(t);
    let refusal = there.refusal;
    if refusal != refusals::ACCEPTED {
        return table_answers::refuse(Request::Read(code), refusal, out);
    }
    let bench = there.bench;
    let said = call_answers::access(writing::write(store, bench, code), out);
    let left = said.bench;
    table::pack(left, t);
    Written {
        refusal: said.refusal,
        next: said.count,
    }
}

// Whatever the line asks for. What the store does not know is the table's.
fn respond(
    t: &mut [u8],
    store: Store,
    request: StoreRequest,
    line: &[u8],
    fed: bool,
    out: &mut [u8],
) -> TableTold
    requires { room ≤ length out.old }
    ensures { Tells (spoken_of t.old store (record { chars = line.now; fed = fed }) request)
        out.old out.new t.new result.written × (result.store ≡ store_left store request) }
{
    match request {
        StoreRequest::Other => TableTold {
            written: table_console::answer(t, line, fed, out),
            store,
        },
        StoreRequest::Write(code) => TableTold {
            written: write(t, store, code, out),
            store,
        },
        _ => {
            let done = settings_calls::call(store, request, out);
            let written = done.written;
            let after = done.store;
            TableTold {
                written,
                store: after,
            }
        }
    }
}

// One line, without its feed, and whether it had one: the call that it asks for is made, and the text
// of the answer is laid at the front of what is lent for it.
pub fn answer(t: &mut [u8], store: Store, line: &[u8], fed: bool, out: &mut [u8]) -> TableTold
    ensures answer { result ≡ told_of t.old store (record { chars = line.now; fed = fed })
        out.old }
    ensures written { out.new ≡ wrote
        (spoken_of t.old store (record { chars = line.now; fed = fed })
        (store_asked (record { chars = line.now; fed = fed }))) out.old }
    ensures table { t.new ≡ keeps t.old
        (spoken_of t.old store (record { chars = line.now; fed = fed })
        (store_asked (record { chars = line.now; fed = fed }))) out.old }
{
    if out.len() < ROOM {
        return TableTold {
            written: Written {
                refusal: refusals::NO_ROOM,
                next: 0,
            },
            store,
        };
    }
    if fed {
        return respond(t, store, settings_requests::parse(line), line, fed, out);
    }
    respond(t, store, StoreRequest::Other, line, fed, out)
}
