// Reading and writing at a code.
#![tactic(auto)]

ghost use Rattle.std.specs.Prelude.{◌≡◌};
ghost use Rattle.master_rules.specs.Wire.{sent};
ghost use Rattle.master_rules.specs.Access.{refused_at, addressed, fetched, read_back, admission, read_at, settings_sent};
ghost use Rattle.master_rules.specs.Access.{as_asked, written_and_read, write_at};
ghost use Rattle.access_laws.specs.Shown.{ReadPromise};
ghost use Rattle.access_laws.specs.Written.{WritePromise};
ghost use Rattle.at_code.specs.Replies.{byte_read_of, replied};

use bench::Bench;
use device::Settings;
use family::Properties;
use master_rules::Access;
use scratchpad::NineBytes;
use scratchpad::fine::FineDegrees;
use temperature::{Reading, Sixteenths};

// What eight read slots gave: the byte that the line showed, and the bench after them.
#[derive(Clone, Copy)]
struct ByteRead {
    byte: u8,
    bench: Bench,
}

// What the 72 read slots of a scratchpad gave.
#[derive(Clone, Copy)]
struct Reply {
    pad: [u8; 9],
    bench: Bench,
}

// The lowest bits of a number, as many as `count` says, first bit lowest.
fn send(bench: Bench, number: u64, count: u8) -> Bench
    ensures answer { result ≡ sent count number bench }
{
    let mut b = bench;
    let mut left = number;
    for _ in 0..count {
        let r = bench::slot(b, left % 2 == 1);
        b = r.bench;
        left /= 2;
    }
    b
}

// An answer that refuses: zeros, no fine reading, and the bench.
pub fn refuse(number: u8, bench: Bench) -> Access
    ensures answer { result ≡ refused_at number bench }
{
    Access {
        refusal: number,
        pad: [0; 9],
        reading: Reading::InSixteenths(Sixteenths(0)),
        fine: FineDegrees {
            numerator: 0,
            denominator: 0,
        },
        bench,
    }
}

// 55h, the code, and a function command.
fn address(bench: Bench, code: u64, command: u8) -> Bench
    ensures answer { result ≡ addressed code command bench }
{
    let matching = send(bench, commands::MATCH_ROM as u64, 8);
    let matched = send(matching, code, 64);
    send(matched, command as u64, 8)
}

fn read_byte(bench: Bench) -> ByteRead
    ensures answer { result ≡ byte_read_of bench }
{
    let mut b = bench;
    let mut byte: u8 = 0;
    for _ in 0..8u8 {
        let r = bench::slot(b, true);
        b = r.bench;
        byte = commands::push(byte, r.line);
    }
    ByteRead { byte, bench: b }
}

fn read_reply(bench: Bench) -> Reply
    ensures answer { result ≡ replied bench }
{
    let mut b = bench;
    let mut pad = [0; 9];
    for place in pad.iter_mut() {
        let r = read_byte(b);
        *place = r.byte;
        b = r.bench;
    }
    Reply { pad, bench: b }
}

// BEh to the device that answers to the code, and its reply judged for the code's family.
fn fetch(bench: Bench, code: u64) -> Access
    ensures answer { result ≡ fetched code bench }
{
    let asked = address(bench, code, commands::READ_SCRATCHPAD);
    let reply = read_reply(asked);
    let pad = reply.pad;
    let judged = scratchpad::judge(rom::family_of(code), pad);
    if judged.refusal == refusals::ACCEPTED {
        let reading = judged.reading;
        let fine = judged.fine;
        let after = reply.bench;
        return Access {
            refusal: refusals::ACCEPTED,
            pad,
            reading,
            fine,
            bench: after,
        };
    }
    let after = reply.bench;
    refuse(judged.refusal, after)
}

// A reset and a read, for a code and a bench that have passed the tests.
fn read_back(bench: Bench, code: u64) -> Access
    ensures answer { result ≡ read_back code bench }
{
    let r = bench::reset(bench);
    let after = r.bench;
    if r.presence {
        return fetch(after, code);
    }
    refuse(refusals::NO_PRESENCE, after)
}

// The tests before anything is sent: the given code, then the wire.
fn admit(bench: Bench, code: u64) -> u8
    ensures answer { result ≡ admission bench code }
{
    let refusal = rom::refusal_of(code);
    if refusal != refusals::ACCEPTED {
        return refusal;
    }
    if bench::is_free(bench) {
        refusals::ACCEPTED
    } else {
        refusals::WIRE_BUSY
    }
}

// Reads the scratchpad of the device with this code: reset, 55h, the code, BEh and 72 read slots.
pub fn read_at(bench: Bench, code: u64) -> Access
    ensures answer { result ≡ read_at bench code }
    ensures history { ReadPromise bench code }
{
    let refusal = admit(bench, code);
    if refusal != refusals::ACCEPTED {
        return refuse(refusal, bench);
    }
    read_back(bench, code)
}

// 4Eh, the limits and, where the family has one, the configuration.
fn write_settings(row: Properties, bench: Bench, code: u64, s: Settings) -> Bench
    ensures answer { result ≡ settings_sent row code s bench }
{
    let open = address(bench, code, commands::WRITE_SCRATCHPAD);
    let high = send(open, s.high as u64, 8);
    let low = send(high, s.low as u64, 8);
    if row.configurable {
        return send(low, s.configuration as u64, 8);
    }
    low
}

// Whether the bytes read back are those asked, the configuration in its stored form.
fn as_asked(row: Properties, s: Settings, pad: NineBytes) -> bool
    ensures answer { result ≡ as_asked row s pad }
{
    if pad[family::HIGH_LIMIT] != s.high {
        return false;
    }
    if pad[family::LOW_LIMIT] != s.low {
        return false;
    }
    family::configuration_as_asked(row, s.configuration, pad[family::CONFIGURATION])
}

// The write and the read that follows it, after a reset that showed presence.
fn write_and_compare(bench: Bench, code: u64, s: Settings) -> Access
    ensures answer { result ≡ written_and_read code s bench }
{
    let row = family::properties_of(rom::family_of(code));
    let back = read_back(write_settings(row, bench, code, s), code);
    if back.refusal == refusals::ACCEPTED {
        let pad = back.pad;
        if !as_asked(row, s, pad) {
            let after = back.bench;
            return refuse(refusals::MISMATCH, after);
        }
    }
    back
}

// Writes the settings of the device with this code, all of them and nothing else, and reads them back:
// reset, 55h, the code, 4Eh and the bytes, then a read at the code. A family without a configuration
// ignores that byte.
pub fn write_at(bench: Bench, code: u64, s: Settings) -> Access
    ensures answer { result ≡ write_at bench code s }
    ensures history { WritePromise bench code s }
{
    let refusal = admit(bench, code);
    if refusal != refusals::ACCEPTED {
        return refuse(refusal, bench);
    }
    let r = bench::reset(bench);
    let started = r.bench;
    if r.presence {
        return write_and_compare(started, code, s);
    }
    refuse(refusals::NO_PRESENCE, started)
}
