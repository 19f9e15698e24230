// The calls, by name, number of fields and request.
ghost use Rattle.std.specs.Prelude.{◌≡◌};
ghost use Rattle.lines.specs.Words.{words_of, word_of};
ghost use Rattle.lines.specs.Fields.{code_in, bit_in, places_in, bytes_in, pins_in, count_in, three_bytes_in, power_in};
ghost use Rattle.bench_requests.specs.declared.Request.TheVariants.{Copied, Cycle, Search, Alarm, Read, Show};
ghost use Rattle.bench_requests.specs.declared.Request.TheVariants.{Why};
ghost use Rattle.bench_requests.specs.Requests.{asks, slot_asked, converted_asked, at_code, lent, pins_asked};
ghost use Rattle.bench_requests.specs.Requests.{write_asked, add_asked, pinned_asked, of_master, of_bench};

use crate::Request;
use device::Joining;
use lines::fields::{
    MOST_BYTES, MOST_PLACES, bit_in, bytes_in, code_in, count_in, pins_in, places_in, power_in,
    settings_in,
};
use lines::words::{count, word};
use text::same;

// ---- Requests, by their fields

// `add CODE POWER HIGH LOW CONFIGURATION`, with the pins of the device
fn add(line: &[u8], pins: u8) -> Request
    ensures { result ≡ add_asked (code_in (word_of (words_of line.now) 1))
        (power_in (word_of (words_of line.now) 2))
        (three_bytes_in (word_of (words_of line.now) 3) (word_of (words_of line.now) 4)
        (word_of (words_of line.now) 5)) pins }
{
    let code = code_in(word(line, 1));
    let p = power_in(word(line, 2));
    let s = settings_in(word(line, 3), word(line, 4), word(line, 5));
    let power = p.power;
    let settings = s.settings;
    if code.valid {
        if p.valid {
            if s.valid {
                return Request::Add(Joining {
                    code: code.number,
                    power,
                    high: settings.high,
                    low: settings.low,
                    configuration: settings.configuration,
                    pins,
                });
            }
        }
    }
    Request::Bad
}

// `add CODE POWER HIGH LOW CONFIGURATION PINS`
fn add_pinned(line: &[u8]) -> Request
    ensures { result ≡ pinned_asked (code_in (word_of (words_of line.now) 1))
        (power_in (word_of (words_of line.now) 2))
        (three_bytes_in (word_of (words_of line.now) 3) (word_of (words_of line.now) 4)
        (word_of (words_of line.now) 5)) (pins_in (word_of (words_of line.now) 6)) }
{
    let pins = pins_in(word(line, 6));
    if pins.valid {
        return add(line, pins.number as u8);
    }
    Request::Bad
}

// `slot BIT`
fn slot(line: &[u8]) -> Request
    ensures { result ≡ slot_asked (bit_in (word_of (words_of line.now) 1)) }
{
    let bit = bit_in(word(line, 1));
    if bit.valid {
        return Request::Slot(bit.number == 1);
    }
    Request::Bad
}

// `converted CODE COUNT`
fn converted(line: &[u8]) -> Request
    ensures { result ≡ converted_asked (code_in (word_of (words_of line.now) 1))
        (count_in (word_of (words_of line.now) 2)) }
{
    let code = code_in(word(line, 1));
    let read = count_in(word(line, 2));
    let count = read.count;
    if code.valid {
        if read.valid {
            return Request::Converted {
                code: code.number,
                count,
            };
        }
    }
    Request::Bad
}

// `copied CODE`
fn copied(line: &[u8]) -> Request
    ensures { result ≡ at_code Copied (code_in (word_of (words_of line.now) 1)) }
{
    let code = code_in(word(line, 1));
    if code.valid {
        return Request::Copied(code.number);
    }
    Request::Bad
}

// `cycle CODE`
fn cycle(line: &[u8]) -> Request
    ensures { result ≡ at_code Cycle (code_in (word_of (words_of line.now) 1)) }
{
    let code = code_in(word(line, 1));
    if code.valid {
        return Request::Cycle(code.number);
    }
    Request::Bad
}

// `show CODE`
fn show(line: &[u8]) -> Request
    ensures { result ≡ at_code Show (code_in (word_of (words_of line.now) 1)) }
{
    let code = code_in(word(line, 1));
    if code.valid {
        return Request::Show(code.number);
    }
    Request::Bad
}

// `why CODE`
fn why(line: &[u8]) -> Request
    ensures { result ≡ at_code Why (code_in (word_of (words_of line.now) 1)) }
{
    let code = code_in(word(line, 1));
    if code.valid {
        return Request::Why(code.number);
    }
    Request::Bad
}

// `read CODE`
fn read(line: &[u8]) -> Request
    ensures { result ≡ at_code Read (code_in (word_of (words_of line.now) 1)) }
{
    let code = code_in(word(line, 1));
    if code.valid {
        return Request::Read(code.number);
    }
    Request::Bad
}

// `search PLACES BYTES`
fn search(line: &[u8]) -> Request
    ensures { result ≡ lent Search (places_in (word_of (words_of line.now) 1))
        (bytes_in (word_of (words_of line.now) 2)) }
{
    let places = places_in(word(line, 1));
    let bytes = bytes_in(word(line, 2));
    if places.valid {
        if bytes.valid {
            return Request::Search {
                places: places.number as usize,
                bytes: bytes.number as usize,
            };
        }
    }
    Request::Bad
}

// `alarm PLACES BYTES`
fn alarm(line: &[u8]) -> Request
    ensures { result ≡ lent Alarm (places_in (word_of (words_of line.now) 1))
        (bytes_in (word_of (words_of line.now) 2)) }
{
    let places = places_in(word(line, 1));
    let bytes = bytes_in(word(line, 2));
    if places.valid {
        if bytes.valid {
            return Request::Alarm {
                places: places.number as usize,
                bytes: bytes.number as usize,
            };
        }
    }
    Request::Bad
}

// `pins PLACES`
fn pins(line: &[u8]) -> Request
    ensures { result ≡ pins_asked (places_in (word_of (words_of line.now) 1)) }
{
    let places = places_in(word(line, 1));
    if places.valid {
        return Request::Pins(places.number as usize);
    }
    Request::Bad
}

// `write CODE HIGH LOW CONFIGURATION`
fn write(line: &[u8]) -> Request
    ensures { result ≡ write_asked (code_in (word_of (words_of line.now) 1))
        (three_bytes_in (word_of (words_of line.now) 2) (word_of (words_of line.now) 3)
        (word_of (words_of line.now) 4)) }
{
    let code = code_in(word(line, 1));
    let s = settings_in(word(line, 2), word(line, 3), word(line, 4));
    let settings = s.settings;
    if code.valid {
        if s.valid {
            return Request::Write {
                code: code.number,
                settings,
            };
        }
    }
    Request::Bad
}

// ---- The table

// Whether a line is this name and so many fields.
pub fn asks(line: &[u8], name: &[u8], fields: usize) -> bool
    ensures answer { result ≡ asks name.now fields (words_of line.now) }
{
    if same(word(line, 0), name) {
        return count(line) - 1 == fields;
    }
    false
}

// The calls of the master.
fn of_master(line: &[u8]) -> Request
    ensures { result ≡ of_master (words_of line.now) }
{
    if asks(line, b"search", 0) {
        return Request::Search {
            places: MOST_PLACES,
            bytes: MOST_BYTES,
        };
    }
    if asks(line, b"alarm", 0) {
        return Request::Alarm {
            places: MOST_PLACES,
            bytes: MOST_BYTES,
        };
    }
    if asks(line, b"search", 2) {
        return search(line);
    }
    if asks(line, b"alarm", 2) {
        return alarm(line);
    }
    if asks(line, b"read", 1) {
        return read(line);
    }
    if asks(line, b"write", 4) {
        return write(line);
    }
    if asks(line, b"pins", 0) {
        return Request::Pins(MOST_PLACES);
    }
    if asks(line, b"pins", 1) {
        return pins(line);
    }
    Request::Bad
}

// The calls on the bench, and behind them the master's.
pub(crate) fn of_bench(line: &[u8]) -> Request
    ensures { result ≡ of_bench (words_of line.now) }
{
    if asks(line, b"add", 5) {
        return add(line, 0);
    }
    if asks(line, b"add", 6) {
        return add_pinned(line);
    }
    if asks(line, b"reset", 0) {
        return Request::Reset;
    }
    if asks(line, b"slot", 1) {
        return slot(line);
    }
    if asks(line, b"converted", 2) {
        return converted(line);
    }
    if asks(line, b"copied", 1) {
        return copied(line);
    }
    if asks(line, b"cycle", 1) {
        return cycle(line);
    }
    if asks(line, b"show", 1) {
        return show(line);
    }
    if asks(line, b"why", 1) {
        return why(line);
    }
    of_master(line)
}
