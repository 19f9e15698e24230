// The fields of a line, each with the character behind it, put into a lent buffer one behind the other.
// A part that does not fit is left out, and the next one is put at place 0: a line asks for room first.
ghost use Rattle.std.specs.Prelude.{◌≡◌, [], ◌∷◌};
ghost use Rattle.text.specs.Decimal.{decimal, signed_decimal};
ghost use Rattle.text.specs.Digits.{hex_digits, hex_of};
ghost use Rattle.text.specs.Laying.{lay_answer, lay_leaves};
ghost use Rattle.refusals.specs.Refusals.{accepted, no_room};
ghost use Rattle.text.specs.Putting.{flag, field_next, field_leaves};

use crate::laying;
use crate::laying::Written;

// What must be left for a line: more than any line needs.
pub const LINE_ROOM: usize = 64;

// What is answered where there is no room for a line.
pub fn no_room() -> Written
    ensures answer { result ≡ record { refusal = no_room; next = 0 } }
{
    Written {
        refusal: refusals::NO_ROOM,
        next: 0,
    }
}

// What is answered for a line that ends before a place.
pub fn behind(next: usize) -> Written
    ensures answer { result ≡ record { refusal = accepted; next = next } }
{
    Written {
        refusal: refusals::ACCEPTED,
        next,
    }
}

pub fn put_char(out: &mut [u8], at: usize, c: u8) -> usize
    ensures answer { result ≡ (lay_answer out.old at (c ∷ [])).next }
    ensures written { out.new ≡ lay_leaves out.old at (c ∷ []) }
{
    let text = [c];
    let w = laying::lay(out, at, &text);
    w.next
}

// A number in plain decimal.
pub fn put_number(out: &mut [u8], at: usize, number: u64, mark: u8) -> usize
    ensures answer { result ≡ field_next out.old at (decimal number) mark }
    ensures written { out.new ≡ field_leaves out.old at (decimal number) mark }
{
    let w = laying::lay_decimal(out, at, number);
    put_char(out, w.next, mark)
}

// The same with a minus in front of a negative number.
pub fn put_signed(out: &mut [u8], at: usize, number: i32, mark: u8) -> usize
    ensures answer { result ≡ field_next out.old at (signed_decimal number) mark }
    ensures written { out.new ≡ field_leaves out.old at (signed_decimal number) mark }
{
    let w = laying::lay_signed(out, at, number);
    put_char(out, w.next, mark)
}

// So many hexadecimal digits of a number.
pub fn put_digits(out: &mut [u8], at: usize, count: usize, number: u64, mark: u8) -> usize
    ensures answer { result ≡ field_next out.old at (hex_digits count number) mark }
    ensures written { out.new ≡ field_leaves out.old at (hex_digits count number) mark }
{
    let w = laying::lay_hex(out, at, count, number);
    put_char(out, w.next, mark)
}

// The two digits of each byte.
pub fn put_bytes(out: &mut [u8], at: usize, bytes: &[u8], mark: u8) -> usize
    ensures answer { result ≡ field_next out.old at (hex_of bytes.now) mark }
    ensures written { out.new ≡ field_leaves out.old at (hex_of bytes.now) mark }
{
    let w = laying::lay_hex_bytes(out, at, bytes);
    put_char(out, w.next, mark)
}

fn flag_digit(on: bool) -> u8
    ensures { result ∷ [] ≡ flag on }
{
    if on { 0x31 } else { 0x30 }
}

pub fn put_flag(out: &mut [u8], at: usize, on: bool, mark: u8) -> usize
    ensures answer { result ≡ field_next out.old at (flag on) mark }
    ensures written { out.new ≡ field_leaves out.old at (flag on) mark }
{
    let next = put_char(out, at, flag_digit(on));
    put_char(out, next, mark)
}
