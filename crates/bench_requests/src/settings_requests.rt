// The lines of the console that ask for a call on the settings store.
ghost use Rattle.std.specs.Prelude.{◌≡◌};
ghost use Rattle.lines.specs.Words.{words_of, word_of};
ghost use Rattle.lines.specs.Fields.{code_in, three_bytes_in};
ghost use Rattle.bench_requests.specs.declared.settings_requests.StoreRequest.TheVariants.{Remove, Read, Write};
ghost use Rattle.bench_requests.specs.StoreRequests.{version_in, alter_in, alterations_in, asks_store, store_at_code};
ghost use Rattle.bench_requests.specs.StoreRequests.{store_add_asked, store_change_asked, of_store, store_request_of};

use crate::LONGEST;
use device::Settings;
use lines::fields::{both, code_in, settings_in};
use lines::words::{count, word};
use settings::{Alter, Alterations};
use text::{NumberRead, same};

// What a line asks of the store.
#[derive(Clone, Copy)]
pub enum StoreRequest {
    // nothing that the store knows
    Other,
    Add {
        code: u64,
        first: Settings,
    },
    Remove(u64),
    Read(u64),
    Change {
        code: u64,
        version: u16,
        asked: Alterations,
    },
    Write(u64),
}

// What was read of a field: whether it is one, and its value where it is.
#[derive(Clone, Copy)]
pub struct AlterRead {
    valid: bool,
    alter: Alter,
}

#[derive(Clone, Copy)]
pub struct AlterationsRead {
    valid: bool,
    alterations: Alterations,
}

// ---- Fields

fn version_in(w: &[u8]) -> NumberRead
    ensures { result ≡ version_in w.now }
{
    text::read_decimal(w, 5, 65535)
}

// A byte, or a minus for a setting that stays.
fn alter_in(w: &[u8]) -> AlterRead
    ensures { result ≡ alter_in w.now }
{
    if same(w, b"-") {
        return AlterRead {
            valid: true,
            alter: Alter::Leave,
        };
    }
    let byte = text::read_fixed(w, 16, 2);
    AlterRead {
        valid: byte.valid,
        alter: Alter::To(byte.number as u8),
    }
}

fn alterations_in(high: &[u8], low: &[u8], configuration: &[u8]) -> AlterationsRead
    ensures { result ≡ alterations_in high.now low.now configuration.now }
{
    let h = alter_in(high);
    let l = alter_in(low);
    let c = alter_in(configuration);
    let to_high = h.alter;
    let to_low = l.alter;
    let to_configuration = c.alter;
    AlterationsRead {
        valid: both(both(h.valid, l.valid), c.valid),
        alterations: Alterations {
            high: to_high,
            low: to_low,
            configuration: to_configuration,
        },
    }
}

// ---- Requests, by their fields

// `settings add CODE HIGH LOW CONFIGURATION`
fn add(line: &[u8]) -> StoreRequest
    ensures { result ≡ store_add_asked (code_in (word_of (words_of line.now) 2))
        (three_bytes_in (word_of (words_of line.now) 3) (word_of (words_of line.now) 4)
        (word_of (words_of line.now) 5)) }
{
    let code = code_in(word(line, 2));
    let s = settings_in(word(line, 3), word(line, 4), word(line, 5));
    let first = s.settings;
    if code.valid {
        if s.valid {
            return StoreRequest::Add {
                code: code.number,
                first,
            };
        }
    }
    StoreRequest::Other
}

// `settings remove CODE`
fn remove(line: &[u8]) -> StoreRequest
    ensures { result ≡ store_at_code Remove (code_in (word_of (words_of line.now) 2)) }
{
    let code = code_in(word(line, 2));
    if code.valid {
        return StoreRequest::Remove(code.number);
    }
    StoreRequest::Other
}

// `settings read CODE`
fn read(line: &[u8]) -> StoreRequest
    ensures { result ≡ store_at_code Read (code_in (word_of (words_of line.now) 2)) }
{
    let code = code_in(word(line, 2));
    if code.valid {
        return StoreRequest::Read(code.number);
    }
    StoreRequest::Other
}

// `settings change CODE VERSION HIGH LOW CONFIGURATION`
fn change(line: &[u8]) -> StoreRequest
    ensures { result ≡ store_change_asked (code_in (word_of (words_of line.now) 2))
        (version_in (word_of (words_of line.now) 3))
        (alterations_in (word_of (words_of line.now) 4) (word_of (words_of line.now) 5)
        (word_of (words_of line.now) 6)) }
{
    let code = code_in(word(line, 2));
    let version = version_in(word(line, 3));
    let a = alterations_in(word(line, 4), word(line, 5), word(line, 6));
    let asked = a.alterations;
    if code.valid {
        if version.valid {
            if a.valid {
                return StoreRequest::Change {
                    code: code.number,
                    version: version.number as u16,
                    asked,
                };
            }
        }
    }
    StoreRequest::Other
}

// `settings write CODE`
fn write(line: &[u8]) -> StoreRequest
    ensures { result ≡ store_at_code Write (code_in (word_of (words_of line.now) 2)) }
{
    let code = code_in(word(line, 2));
    if code.valid {
        return StoreRequest::Write(code.number);
    }
    StoreRequest::Other
}

// ---- The table

// Whether a line is `settings`, this name and its fields, so many words in all.
fn asks(line: &[u8], name: &[u8], words: usize) -> bool
    ensures { result ≡ asks_store name.now words (words_of line.now) }
{
    if same(word(line, 0), b"settings") {
        if same(word(line, 1), name) {
            return count(line) == words;
        }
    }
    false
}

fn of_words(line: &[u8]) -> StoreRequest
    ensures { result ≡ of_store (words_of line.now) }
{
    if asks(line, b"add", 6) {
        return add(line);
    }
    if asks(line, b"remove", 3) {
        return remove(line);
    }
    if asks(line, b"read", 3) {
        return read(line);
    }
    if asks(line, b"change", 7) {
        return change(line);
    }
    if asks(line, b"write", 3) {
        return write(line);
    }
    StoreRequest::Other
}

// What a line, without its feed, asks of the store.
pub fn parse(line: &[u8]) -> StoreRequest
    ensures answer { result ≡ store_request_of line.now }
{
    if LONGEST < line.len() {
        return StoreRequest::Other;
    }
    of_words(line)
}
