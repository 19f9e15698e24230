// The lines of the packed console that are about the bytes of its table, and not about the bench in them.
ghost use Rattle.std.specs.Prelude.{◌≡◌};
ghost use Rattle.lines.specs.Words.{words_of, word_of};
ghost use Rattle.packed_session.specs.TableRequests.{place_in, poke_asked, of_table, table_request_of};
ghost use Rattle.lines.specs.Fields.{byte_in};

use bench_requests::LONGEST;
use lines::words::{count, word};
use text::same;

// The last place of a table.
const LAST_PLACE: u64 = 1535;

// What a line asks of the bytes.
#[derive(Clone, Copy)]
pub enum TableRequest {
    Poke { place: usize, byte: u8 },
    Dump,
    Other,
}

// `poke PLACE BYTE`
fn poke(line: &[u8]) -> TableRequest
    ensures { result ≡ poke_asked (place_in (word_of (words_of line.now) 1))
        (byte_in (word_of (words_of line.now) 2)) }
{
    let place = text::read_decimal(word(line, 1), 4, LAST_PLACE);
    let byte = text::read_fixed(word(line, 2), 16, 2);
    if place.valid {
        if byte.valid {
            return TableRequest::Poke {
                place: place.number as usize,
                byte: byte.number as u8,
            };
        }
    }
    TableRequest::Other
}

fn of_words(line: &[u8]) -> TableRequest
    ensures { result ≡ of_table (words_of line.now) }
{
    let words = count(line);
    if words == 3 {
        if same(word(line, 0), b"poke") {
            return poke(line);
        }
        return TableRequest::Other;
    }
    if words == 1 {
        if same(word(line, 0), b"table") {
            return TableRequest::Dump;
        }
    }
    TableRequest::Other
}

// What a line, without its feed, asks of the bytes.
pub fn parse(line: &[u8]) -> TableRequest
    ensures answer { result ≡ table_request_of line.now }
{
    if LONGEST < line.len() {
        return TableRequest::Other;
    }
    of_words(line)
}
