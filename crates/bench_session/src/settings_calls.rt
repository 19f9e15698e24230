// A call on the settings store alone: it is made, and its answer laid as one line at the front of what
// is lent. Without room for a line nothing is done.
ghost use Rattle.std.specs.Prelude.{◌≡◌, true, ◌≤◌, length};
ghost use Rattle.text.specs.Laying.{has_room};
ghost use Rattle.text.specs.Putting.{line_room, line_leaves};
ghost use Rattle.bench_answers.specs.Answers.{refusal_line};
ghost use Rattle.bench_answers.specs.SettingsLines.{current_line, change_line};
ghost use Rattle.bench_session.specs.StoreCalls.{store_says, store_left, called, Calls};

use bench_answers::settings_answers;
use bench_requests::settings_requests::StoreRequest;
use settings::{ChangeDone, Current, Store, StoreAfter};
use text::laying::Written;
use text::putting::LINE_ROOM;
use text::{laying, putting};

// The line that was laid, and the store after the call.
#[derive(Clone, Copy)]
pub struct Called {
    pub written: Written,
    pub store: Store,
}

// An adding or a removal.
fn tell_refusal(done: StoreAfter, out: &mut [u8]) -> Called
    ensures { Calls out.old (refusal_line done.refusal) done.store out.new result }
{
    let store = done.store;
    Called {
        written: bench_answers::refusal_line(out, 0, done.refusal),
        store,
    }
}

// A read.
fn tell_current(store: Store, current: Current, out: &mut [u8]) -> Called
    ensures { Calls out.old (current_line current) store out.new result }
{
    Called {
        written: settings_answers::current_line(out, 0, current),
        store,
    }
}

// A change.
fn tell_change(done: ChangeDone, out: &mut [u8]) -> Called
    ensures { Calls out.old (change_line done.refusal done.version) done.store
        out.new result }
{
    let store = done.store;
    Called {
        written: settings_answers::change_line(out, 0, done.refusal, done.version),
        store,
    }
}

// Nothing to say.
fn tell_nothing(store: Store) -> Called
    ensures { result ≡ record { written = record { refusal = 0; next = 0 }; store = store } }
{
    Called {
        written: Written {
            refusal: refusals::ACCEPTED,
            next: 0,
        },
        store,
    }
}

// The call that a request asks for.
fn make(store: Store, request: StoreRequest, out: &mut [u8]) -> Called
    requires { has_room out.old 0 line_room ≡ true }
    ensures { Calls out.old (store_says store request) (store_left store request)
        out.new result }
{
    match request {
        StoreRequest::Other => tell_nothing(store),
        StoreRequest::Add { code, first } => tell_refusal(settings::add(store, code, first), out),
        StoreRequest::Remove(code) => tell_refusal(settings::remove(store, code), out),
        StoreRequest::Read(code) => tell_current(store, settings::read(store, code), out),
        StoreRequest::Change {
            code,
            version,
            asked,
        } => tell_change(settings::change(store, code, version, asked), out),
        StoreRequest::Write(_) => tell_nothing(store),
    }
}

// What a request asks of the store alone. To a line that asks nothing of it, and to one that writes
// settings to a device, the store has nothing to say.
pub fn call(store: Store, request: StoreRequest, out: &mut [u8]) -> Called
    ensures answer { result ≡ called store request out.old }
    ensures written { out.new ≡ line_leaves out.old 0 (store_says store request) }
    ensures fits { result.written.next ≤ line_room }
{
    let room = laying::has_room(out, 0, LINE_ROOM);
    if !room {
        return Called {
            written: putting::no_room(),
            store,
        };
    }
    make(store, request, out)
}
