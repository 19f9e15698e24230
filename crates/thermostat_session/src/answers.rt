// The lines that answer the requests of the thermostat console, laid at a place of a buffer.
ghost use Rattle.std.specs.Prelude.{◌≡◌, ◌+◌, ◌≤◌, length};
ghost use Rattle.text.specs.Putting.{Puts, line_room, line_answer, line_leaves};
ghost use Rattle.thermostat_session.specs.ProbeLines.{status_line, fields_line, probe_line, reply_line};

use bench_answers::{bad_line, bit_line, refusal_line};
use temperature::limit_of;
use text::laying::Written;
use text::putting::{LINE_ROOM, put_digits, put_flag, put_number, put_signed};
use text::{LINE_FEED, SPACE, laying, putting};
use thermostat::Thermostat;

// What a request is answered.
#[derive(Clone, Copy)]
pub enum Reply {
    // that there is no such request
    Unknown,
    // a refusal, or 0
    Plain(u8),
    // 0 and a bit: the presence at a reset, or the line in a slot
    Bit(bool),
    // a refusal, or 0, and a status byte
    StatusByte { refusal: u8, status: u8 },
    // what is shown of a probe
    Probe(Thermostat),
}

fn put_status(out: &mut [u8], at: usize, refusal: u8, status: u8) -> usize
    ensures { Puts out.old at (status_line refusal status) out.new result
        × (length (status_line refusal status) ≤ line_room) }
{
    let behind_refusal = put_number(out, at, refusal as u64, SPACE);
    put_digits(out, behind_refusal, 2, status as u64, LINE_FEED)
}

fn status_line(out: &mut [u8], at: usize, refusal: u8, status: u8) -> Written
    ensures answer { result ≡ line_answer out.old at (status_line refusal status) }
    ensures written { out.new ≡ line_leaves out.old at (status_line refusal status) }
    ensures fits { result.next ≤ at + line_room }
{
    let room = laying::has_room(out, at, LINE_ROOM);
    if !room {
        return putting::no_room();
    }
    putting::behind(put_status(out, at, refusal, status))
}

// The fields of a probe, each with the character behind it.
fn put_fields(
    out: &mut [u8],
    at: usize,
    temperature: i16,
    high: i16,
    low: i16,
    status: u8,
    output: bool,
    converting: bool,
    thermostat: bool,
) -> usize
    ensures { Puts out.old at (fields_line temperature high low status output converting thermostat)
        out.new result × (length (fields_line temperature high low status output converting thermostat)
        ≤ line_room) }
{
    let behind_temperature = put_signed(out, at, temperature as i32, SPACE);
    let behind_high = put_signed(out, behind_temperature, high as i32, SPACE);
    let behind_low = put_signed(out, behind_high, low as i32, SPACE);
    let behind_status = put_digits(out, behind_low, 2, status as u64, SPACE);
    let behind_output = put_flag(out, behind_status, output, SPACE);
    let behind_converting = put_flag(out, behind_output, converting, SPACE);
    put_flag(out, behind_converting, thermostat, LINE_FEED)
}

fn probe_line(out: &mut [u8], at: usize, p: Thermostat) -> Written
    ensures answer { result ≡ line_answer out.old at (probe_line p) }
    ensures written { out.new ≡ line_leaves out.old at (probe_line p) }
    ensures fits { result.next ≤ at + line_room }
{
    let room = laying::has_room(out, at, LINE_ROOM);
    if !room {
        return putting::no_room();
    }
    let kept = p.kept;
    let t = limit_of(p.temperature);
    let high = limit_of(kept.high);
    let low = limit_of(kept.low);
    let status = thermostat::status_of(p);
    putting::behind(put_fields(
        out,
        at,
        t.0,
        high.0,
        low.0,
        status,
        p.output,
        p.converting,
        p.thermostat,
    ))
}

// The line of a reply, at a place.
pub fn write(out: &mut [u8], at: usize, reply: Reply) -> Written
    ensures answer { result ≡ line_answer out.old at (reply_line reply) }
    ensures written { out.new ≡ line_leaves out.old at (reply_line reply) }
    ensures fits { result.next ≤ at + line_room }
{
    match reply {
        Reply::Unknown => bad_line(out, at),
        Reply::Plain(refusal) => refusal_line(out, at, refusal),
        Reply::Bit(bit) => bit_line(out, at, refusals::ACCEPTED, bit),
        Reply::StatusByte { refusal, status } => status_line(out, at, refusal, status),
        Reply::Probe(probe) => probe_line(out, at, probe),
    }
}
