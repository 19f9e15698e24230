// Drives a bench and a settings store by lines: one call a line on standard input, its answer on standard output at
// once. `bench_session::settings_console` reads a line, makes the call and forms the answer.
#![tactic(auto)]

ghost use Rattle.std.specs.Prelude.{◌≡◌};
ghost use Rattle.bench_answers.specs.Whole.{room as answer_room};
ghost use Rattle.bench_session.specs.SettingsSession.{both, bench_console, nothing_yet};

use bench::Bench;
use bench_answers::search_answers::ROOM;
use bench_session::settings_console;
use consoles::{Answerer, MeasuredAnswerer};
use settings::Store;

// The bench and the store.
#[derive(Clone, Copy)]
struct State {
    bench: Bench,
    store: Store,
}

impl Answerer for State {
    ghost console = { bench_console };

    ghost state = { λ s. both s.bench s.store };

    ghost room = { answer_room };

    fn answer(&mut self, line: &[u8], fed: bool, out: &mut [u8]) -> usize {
        let told = settings_console::answer(self.bench, self.store, line, fed, out);
        self.bench = told.said.bench;
        self.store = told.store;
        told.said.count
    }
}

impl MeasuredAnswerer for State {
    fn room() -> usize {
        ROOM
    }
}

// An empty bench and an empty store.
fn first_state() -> State
    ensures { both result.bench result.store ≡ nothing_yet }
{
    State {
        bench: bench::new(),
        store: settings::new(),
    }
}

fn main(rt: HostRuntime) {
    let mut out = [0u8; ROOM];
    consoles::run_where_room(&rt, first_state(), &mut out);
}
