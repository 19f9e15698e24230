// Drives a DS1821 by lines: one request a line on standard input, its answer on standard output at once.
// `thermostat_session` reads a line, makes the call and forms the answer.
#![tactic(auto)]

ghost use Rattle.std.specs.Prelude.{◌≡◌};
ghost use Rattle.text.specs.Putting.{line_room};
ghost use Rattle.thermostat_session.specs.ProbeSession.{probe_console, first_probe};

use consoles::{Answerer, MeasuredAnswerer};
use text::putting::LINE_ROOM;
use thermostat::{Kept, Thermostat};

// The probe on its wire.
#[derive(Clone, Copy)]
struct State {
    probe: Thermostat,
}

impl Answerer for State {
    ghost console = { probe_console };

    ghost state = { λ s. s.probe };

    ghost room = { line_room };

    fn answer(&mut self, line: &[u8], fed: bool, out: &mut [u8]) -> usize {
        let said = thermostat_session::answer(self.probe, line, fed, out);
        self.probe = said.probe;
        said.count
    }
}

impl MeasuredAnswerer for State {
    fn room() -> usize {
        LINE_ROOM
    }
}

// The probe is that of `start 0 0 0 0 0`.
fn first_state() -> State
    ensures { result.probe ≡ first_probe }
{
    let kept = Kept {
        high: 0,
        low: 0,
        mode: false,
        polarity: false,
        oneshot: false,
    };
    State {
        probe: thermostat::start(kept),
    }
}

fn main(rt: HostRuntime) {
    let mut out = [0u8; LINE_ROOM];
    consoles::run_where_room(&rt, first_state(), &mut out);
}
