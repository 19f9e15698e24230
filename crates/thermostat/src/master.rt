// The two calls by which a host changes the mode, the polarity or one-shot of a DS1821 and loses no flag.
ghost use Rattle.std.specs.Prelude.{◌≡◌};
ghost use Rattle.thermostat.specs.Calls.{byte_sent, byte_shown_by, after_reading, status_read, changed_status};
ghost use Rattle.thermostat.specs.Calls.{status_changed};
ghost use Rattle.thermostat.specs.Replies.{probe_byte_read};

use crate::rules::{Asked, Changed, StatusRead};
use crate::{Thermostat, wire};

// What eight read slots gave: the byte that the line showed, and the probe after them.
#[derive(Clone, Copy)]
struct ByteRead {
    byte: u8,
    probe: Thermostat,
}

// The eight bits of a byte, lowest first.
fn send(probe: Thermostat, byte: u8) -> Thermostat
    ensures answer { result ≡ byte_sent byte probe }
{
    let mut p = probe;
    let mut left = byte;
    for _ in 0..8u8 {
        p = wire::slot(p, left % 2 == 1).probe;
        left /= 2;
    }
    p
}

fn read_byte(probe: Thermostat) -> ByteRead
    ensures answer { result ≡ probe_byte_read probe }
{
    let mut p = probe;
    let mut byte = 0;
    for _ in 0..8u8 {
        let r = wire::slot(p, true);
        p = r.probe;
        byte = commands::push(byte, r.line);
    }
    ByteRead { byte, probe: p }
}

// Reads the status: reset, ACh and eight read slots.
pub fn read_status(probe: Thermostat) -> StatusRead
    ensures answer { result ≡ status_read probe }
{
    let r = wire::reset(probe);
    let awake = r.probe;
    if r.presence {
        let read = read_byte(send(awake, wire::READ_STATUS));
        let after = read.probe;
        return StatusRead {
            refusal: refusals::ACCEPTED,
            status: read.byte,
            probe: after,
        };
    }
    StatusRead {
        refusal: refusals::NO_PRESENCE,
        status: 0,
        probe: awake,
    }
}

// The byte to write: that which was read, with the bits that are asked, and a 1 for both flags, so that
// one which the probe has set meanwhile stays.
fn changed_status(status: u8, asked: Asked) -> u8
    ensures answer { result ≡ changed_status status asked }
{
    let oneshot = commands::push(0, asked.oneshot);
    let polarity = commands::push(oneshot, asked.polarity);
    let mode = commands::push(polarity, asked.mode);
    let flags = commands::push(commands::push(mode, true), true);
    let fifth = commands::push(flags, commands::byte_slot(status, 5));
    let sixth = commands::push(fifth, commands::byte_slot(status, 6));
    commands::push(sixth, commands::byte_slot(status, 7))
}

// Writes the status back, with the mode, polarity and one-shot that are asked: reset, 0Ch and the byte.
// The status is what `read_status` gave.
pub fn change(probe: Thermostat, status: u8, asked: Asked) -> Changed
    ensures answer { result ≡ status_changed probe status asked }
    ensures flags { result.probe.flags ≡ probe.flags }
{
    let r = wire::reset(probe);
    let awake = r.probe;
    if r.presence {
        let open = send(awake, wire::WRITE_STATUS);
        return Changed {
            refusal: refusals::ACCEPTED,
            probe: send(open, changed_status(status, asked)),
        };
    }
    Changed {
        refusal: refusals::NO_PRESENCE,
        probe: awake,
    }
}
