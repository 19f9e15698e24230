// The lines of the thermostat console, read as requests.
ghost use Rattle.std.specs.Prelude.{◌≡◌};
ghost use Rattle.lines.specs.Words.{words_of, word_of};
ghost use Rattle.lines.specs.Fields.{byte_in, bit_in};
ghost use Rattle.thermostat_session.specs.ProbeRequests.{degrees_asked, limit_in, asked_in, start_asked};
ghost use Rattle.thermostat_session.specs.ProbeRequests.{probe_slot_asked, finish_asked, probe_change_asked, of_probe};
ghost use Rattle.thermostat_session.specs.ProbeRequests.{probe_request_of};

use bench_requests::{LONGEST, asks};
use lines::fields;
use lines::fields::{bit_in, both};
use lines::words::word;
use temperature::WholeDegrees;
use thermostat::Kept;
use thermostat::rules::Asked;

// What a line asks for.
#[derive(Clone, Copy)]
pub enum ProbeRequest {
    Bad,
    Start(Kept),
    Reset,
    Slot(bool),
    Finish(WholeDegrees),
    Cycle,
    Status,
    Change { status: u8, asked: Asked },
    Show,
}

// What was read of a field: whether it is one, and its value where it is.
#[derive(Clone, Copy)]
pub struct DegreesRead {
    valid: bool,
    degrees: WholeDegrees,
}

#[derive(Clone, Copy)]
pub struct LimitRead {
    valid: bool,
    byte: u8,
}

#[derive(Clone, Copy)]
pub struct AskedRead {
    valid: bool,
    asked: Asked,
}

// ---- Fields

// Degrees are written as counts are.
fn degrees_in(w: &[u8]) -> DegreesRead
    ensures { result ≡ degrees_asked w.now }
{
    let read = fields::count_in(w);
    let count = read.count;
    DegreesRead {
        valid: read.valid,
        degrees: WholeDegrees(count.0),
    }
}

fn limit_in(w: &[u8]) -> LimitRead
    ensures { result ≡ limit_in w.now }
{
    let read = degrees_in(w);
    let degrees = read.degrees;
    let limit = temperature::limit_byte_of(degrees);
    LimitRead {
        valid: both(read.valid, limit.refusal == refusals::ACCEPTED),
        byte: limit.byte,
    }
}

// The mode, the polarity and one-shot.
fn asked_in(mode: &[u8], polarity: &[u8], oneshot: &[u8]) -> AskedRead
    ensures { result ≡ asked_in mode.now polarity.now oneshot.now }
{
    let m = bit_in(mode);
    let p = bit_in(polarity);
    let o = bit_in(oneshot);
    AskedRead {
        valid: both(both(m.valid, p.valid), o.valid),
        asked: Asked {
            mode: m.number == 1,
            polarity: p.number == 1,
            oneshot: o.number == 1,
        },
    }
}

// ---- Requests, by their fields

// `start HIGH LOW MODE POLARITY ONESHOT`
fn start(line: &[u8]) -> ProbeRequest
    ensures { result ≡ start_asked (limit_in (word_of (words_of line.now) 1))
        (limit_in (word_of (words_of line.now) 2))
        (asked_in (word_of (words_of line.now) 3) (word_of (words_of line.now) 4)
        (word_of (words_of line.now) 5)) }
{
    let high = limit_in(word(line, 1));
    let low = limit_in(word(line, 2));
    let a = asked_in(word(line, 3), word(line, 4), word(line, 5));
    let asked = a.asked;
    if both(both(high.valid, low.valid), a.valid) {
        return ProbeRequest::Start(Kept {
            high: high.byte,
            low: low.byte,
            mode: asked.mode,
            polarity: asked.polarity,
            oneshot: asked.oneshot,
        });
    }
    ProbeRequest::Bad
}

// `slot BIT`
fn slot(line: &[u8]) -> ProbeRequest
    ensures { result ≡ probe_slot_asked (bit_in (word_of (words_of line.now) 1)) }
{
    let bit = bit_in(word(line, 1));
    if bit.valid {
        return ProbeRequest::Slot(bit.number == 1);
    }
    ProbeRequest::Bad
}

// `finish DEGREES`
fn finish(line: &[u8]) -> ProbeRequest
    ensures { result ≡ finish_asked (degrees_asked (word_of (words_of line.now) 1)) }
{
    let read = degrees_in(word(line, 1));
    let degrees = read.degrees;
    if read.valid {
        return ProbeRequest::Finish(degrees);
    }
    ProbeRequest::Bad
}

// `change STATUS MODE POLARITY ONESHOT`
fn change(line: &[u8]) -> ProbeRequest
    ensures { result ≡ probe_change_asked (byte_in (word_of (words_of line.now) 1))
        (asked_in (word_of (words_of line.now) 2) (word_of (words_of line.now) 3)
        (word_of (words_of line.now) 4)) }
{
    let status = text::read_fixed(word(line, 1), 16, 2);
    let a = asked_in(word(line, 2), word(line, 3), word(line, 4));
    let asked = a.asked;
    if both(status.valid, a.valid) {
        return ProbeRequest::Change {
            status: status.number as u8,
            asked,
        };
    }
    ProbeRequest::Bad
}

// ---- The table

fn of_words(line: &[u8]) -> ProbeRequest
    ensures { result ≡ of_probe (words_of line.now) }
{
    if asks(line, b"start", 5) {
        return start(line);
    }
    if asks(line, b"reset", 0) {
        return ProbeRequest::Reset;
    }
    if asks(line, b"slot", 1) {
        return slot(line);
    }
    if asks(line, b"finish", 1) {
        return finish(line);
    }
    if asks(line, b"cycle", 0) {
        return ProbeRequest::Cycle;
    }
    if asks(line, b"status", 0) {
        return ProbeRequest::Status;
    }
    if asks(line, b"change", 4) {
        return change(line);
    }
    if asks(line, b"show", 0) {
        return ProbeRequest::Show;
    }
    ProbeRequest::Bad
}

// What a line, without its feed, asks for.
pub fn parse(line: &[u8]) -> ProbeRequest
    ensures answer { result ≡ probe_request_of line.now }
{
    if LONGEST < line.len() {
        return ProbeRequest::Bad;
    }
    of_words(line)
}
