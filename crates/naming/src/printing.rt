// What is printed for a line of a recording: the name of its frame, or why it is refused.
ghost use Rattle.std.specs.Prelude.{◌≡◌, ◌+◌, ◌≤◌, ◌∷◌, length};
ghost use Rattle.basic_laws.specs.Laid.{laid};
ghost use Rattle.text.specs.Digits.{hex_digits};
ghost use Rattle.text.specs.Laying.{lay_answer, lay_leaves};
ghost use Rattle.text.specs.Lines.{space};
ghost use Rattle.naming.specs.Printing.{word, detail, refused_text, described, printed_name, printed_line};
ghost use Rattle.naming.specs.Printing.{printed_text};

use crate::{Name, Named};
use text::laying;
use text::laying::Written;

// A printed line, and how many bytes it has.
#[derive(Clone, Copy)]
pub struct Text {
    pub bytes: [u8; 32],
    pub count: usize,
}

// A space and the lowest hexadecimal digits of a number, laid at a place.
fn put_spaced(s: &mut [u8], at: usize, count: usize, number: u64)
    requires { at + (count + 1) ≤ length s.old }
    ensures { s.new ≡ laid s.old at (space ∷ hex_digits count number) }
{
    s[at] = b' ';
    laying::lay_hex(s, at + 1, count, number);
}

// The word of a name, laid at a place.
fn put_word(s: &mut [u8], at: usize, name: Name) -> Written
    ensures answer { result ≡ lay_answer s.old at (word name) }
    ensures written { s.new ≡ lay_leaves s.old at (word name) }
{
    match name {
        Name::Empty => laying::lay(s, at, b"EMPTY"),
        Name::Search => laying::lay(s, at, b"SEARCH"),
        Name::Alarm => laying::lay(s, at, b"ALARM"),
        Name::Nobody => laying::lay(s, at, b"NOBODY"),
        Name::Pad => laying::lay(s, at, b"PAD"),
        Name::Other => laying::lay(s, at, b"OTHER"),
    }
}

// The code and the reading that a name comes with, laid at a place; the answer is the place behind.
fn put_detail(s: &mut [u8], at: usize, name: Name, code: u64, raw: u16) -> usize
    requires { at + 22 ≤ length s.old }
    ensures answer { result ≡ at + length (detail name code raw) }
    ensures written { s.new ≡ laid s.old at (detail name code raw) }
{
    match name {
        Name::Search => {
            put_spaced(s, at, 16, code);
            at + 17
        }
        Name::Alarm => {
            put_spaced(s, at, 16, code);
            at + 17
        }
        Name::Pad => {
            put_spaced(s, at, 16, code);
            put_spaced(s, at + 17, 4, raw as u64);
            at + 22
        }
        Name::Empty => at,
        Name::Nobody => at,
        Name::Other => at,
    }
}

// The text of a refusal, laid at the front; the answer is the place behind it.
fn put_refused(s: &mut [u8], refusal: u8) -> usize
    requires { 28 ≤ length s.old }
    ensures answer { result ≡ length (refused_text refusal) }
    ensures written { s.new ≡ laid s.old 0 (refused_text refusal) }
{
    laying::lay(s, 0, b"REFUSED ");
    let number = laying::lay_decimal(s, 8, refusal as u64);
    number.next
}

// The text of a name or a refusal, laid at the front; the answer is the place behind it.
fn put_described(s: &mut [u8], named: Named) -> usize
    requires { 28 ≤ length s.old }
    ensures answer { result ≡ length (described named) }
    ensures written { s.new ≡ laid s.old 0 (described named) }
{
    let refusal = named.refusal;
    if refusal != refusals::ACCEPTED {
        return put_refused(s, refusal);
    }
    let name = named.name;
    let word = put_word(s, 0, name);
    put_detail(s, word.next, name, named.code, named.raw)
}

// The printed line of a name or a refusal.
fn text_of(named: Named) -> Text
    ensures { result ≡ printed_text named }
{
    let mut bytes = [0u8; 32];
    let end = put_described(&mut bytes, named);
    bytes[end] = text::LINE_FEED;
    Text {
        bytes,
        count: end + 1,
    }
}

// The printed line of a name or a refusal, written at a place.
pub fn print_named(out: &mut [u8], at: usize, named: Named) -> Written
    ensures answer { result ≡ lay_answer out.old at (printed_name named) }
    ensures written { out.new ≡ lay_leaves out.old at (printed_name named) }
{
    let line = text_of(named);
    let bytes = line.bytes;
    let count = line.count;
    laying::lay(out, at, &bytes[0..count])
}

// What is printed for a line, by its characters before the feed or the end and whether there is a
// feed, written at a place.
pub fn print_line(out: &mut [u8], at: usize, line: &[u8], fed: bool) -> Written
    ensures answer { result ≡ lay_answer out.old at
        (printed_line record { chars = line.now; fed = fed }) }
    ensures written { out.new ≡ lay_leaves out.old at
        (printed_line record { chars = line.now; fed = fed }) }
{
    print_named(out, at, crate::name_line(line, fed))
}
