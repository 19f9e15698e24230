// Drives a bench that is kept in a table of bytes, and a settings store, by lines: one call a line on standard input,
// its answer on standard output at once. `packed_session::table_settings` reads a line, unpacks the table, makes the
// call, packs the bench again and forms the answer.
#![tactic(auto)]

ghost use Rattle.std.specs.Prelude.{◌≡◌};
ghost use Rattle.bench_answers.specs.Whole.{room as answer_room};
ghost use Rattle.packed_session.specs.TableSession.{table_state, table_console, first_state};

use bench_answers::search_answers::ROOM;
use consoles::{Answerer, MeasuredAnswerer};
use packed_bench::table::TABLE_BYTES;
use packed_session::table_settings;
use settings::Store;

// The bytes of the table, and the store.
#[derive(Clone, Copy)]
struct State {
    table: [u8; TABLE_BYTES],
    store: Store,
}

impl Answerer for State {
    ghost console = { table_console };

    ghost state = { λ s. table_state s.table s.store };

    ghost room = { answer_room };

    fn answer(&mut self, line: &[u8], fed: bool, out: &mut [u8]) -> usize {
        let told = table_settings::answer(&mut self.table, self.store, line, fed, out);
        self.store = told.store;
        told.written.next
    }
}

impl MeasuredAnswerer for State {
    fn room() -> usize {
        ROOM
    }
}

// The table of the empty bench, which is zeros, and an empty store.
fn empty_table() -> State
    ensures { table_state result.table result.store ≡ first_state }
{
    State {
        table: [0; TABLE_BYTES],
        store: settings::new(),
    }
}

fn main(rt: HostRuntime) {
    let mut out = [0u8; ROOM];
    consoles::run_where_room(&rt, empty_table(), &mut out);
}
