// The thermostat console: a line of input is one request to a DS1821, and its answer is one line of text.
#![tactic(auto)]

pub mod answers;
pub mod requests;

ghost use Rattle.std.specs.Prelude.{◌≡◌, ◌≤◌};
ghost use Rattle.text.specs.Lines.{Line};
ghost use Rattle.text.specs.Putting.{line_room};
ghost use Rattle.thermostat.specs.Calls.{status_read};
ghost use Rattle.thermostat_session.specs.ProbeConsole.{replies, status_replied, probe_responded, probe_asked};
ghost use Rattle.thermostat_session.specs.ProbeConsole.{probe_said, probe_leaves};

use crate::answers::Reply;
use crate::requests::ProbeRequest;
use refusals::ACCEPTED;
use text::putting::LINE_ROOM;
use thermostat::{Thermostat, master, wire};

// What a request is answered, and the probe after it.
#[derive(Clone, Copy)]
pub struct Responded {
    pub reply: Reply,
    pub probe: Thermostat,
}

// What came of a line.
#[derive(Clone, Copy)]
pub struct ProbeSaid {
    pub refusal: u8,
    // how many bytes of text stand at the front of what was lent, 0 on a refusal
    pub count: usize,
    pub probe: Thermostat,
}

// A reply, and a probe.
fn say(reply: Reply, probe: Thermostat) -> Responded
    ensures { result ≡ replies reply probe }
{
    Responded { reply, probe }
}

// To a read of the status.
fn read(probe: Thermostat) -> Responded
    ensures { result ≡ status_replied (status_read probe) }
{
    let done = master::read_status(probe);
    let after = done.probe;
    let reply = Reply::StatusByte {
        refusal: done.refusal,
        status: done.status,
    };
    say(reply, after)
}

// The call that a request asks for, and its answer.
pub fn respond(probe: Thermostat, request: ProbeRequest) -> Responded
    ensures answer { result ≡ probe_responded probe request }
{
    match request {
        ProbeRequest::Bad => say(Reply::Unknown, probe),
        ProbeRequest::Start(kept) => say(Reply::Plain(ACCEPTED), thermostat::start(kept)),
        ProbeRequest::Reset => {
            let done = wire::reset(probe);
            let after = done.probe;
            say(Reply::Bit(done.presence), after)
        }
        ProbeRequest::Slot(bit) => {
            let done = wire::slot(probe, bit);
            let after = done.probe;
            say(Reply::Bit(done.line), after)
        }
        ProbeRequest::Finish(degrees) => {
            let done = thermostat::finish(probe, degrees);
            let after = done.probe;
            say(Reply::Plain(done.refusal), after)
        }
        ProbeRequest::Cycle => say(Reply::Plain(ACCEPTED), thermostat::power_cycle(probe)),
        ProbeRequest::Status => read(probe),
        ProbeRequest::Change { status, asked } => {
            let done = master::change(probe, status, asked);
            let after = done.probe;
            say(Reply::Plain(done.refusal), after)
        }
        ProbeRequest::Show => say(Reply::Probe(probe), probe),
    }
}

// A line without its feed asks for nothing that there is.
fn asked(line: &[u8], fed: bool) -> ProbeRequest
    ensures { result ≡ probe_asked (record { chars = line.now; fed = fed }) }
{
    if fed {
        return requests::parse(line);
    }
    ProbeRequest::Bad
}

// One line, without its feed, and whether it had one: the call that it asks for is made, and the text
// of the answer is laid at the front of what is lent. No answer is longer than a line's room.
pub fn answer(probe: Thermostat, line: &[u8], fed: bool, out: &mut [u8]) -> ProbeSaid
    ensures answer { result ≡ probe_said probe (record { chars = line.now; fed = fed }) out.old }
    ensures written { out.new ≡ probe_leaves probe (record { chars = line.now; fed = fed })
        out.old }
    ensures fits { result.count ≤ line_room }
{
    if out.len() < LINE_ROOM {
        return ProbeSaid {
            refusal: refusals::NO_ROOM,
            count: 0,
            probe,
        };
    }
    let done = respond(probe, asked(line, fed));
    let reply = done.reply;
    let after = done.probe;
    let w = answers::write(out, 0, reply);
    ProbeSaid {
        refusal: w.refusal,
        count: w.next,
        probe: after,
    }
}
