// Text laid into a buffer at a place, where there is room for it: all of it or nothing.
ghost use Rattle.std.specs.Prelude.{◌≡◌, true, ◌+◌, ◌*◌, ◌/◌, ◌≤◌, ◌<◌, length, get_or, nat_abs, ◌++◌};
ghost use Rattle.text.specs.Ascii.{ascii};
ghost use Rattle.basic_laws.specs.Laid.{laid};
ghost use Rattle.text.specs.Digits.{value_of, spells, digits, hex_digits, hex_of, bytes_of};
ghost use Rattle.text.specs.Decimal.{decimal, signed_decimal};
ghost use Rattle.text.specs.Laying.{has_room, lay_answer, lay_leaves, decode_answer, decode_leaves};

// What came of laying text at a place.
#[derive(Clone, Copy)]
pub struct Written {
    pub refusal: u8,
    // the place behind the text, 0 on a refusal
    pub next: usize,
}

fn refuse(refusal: u8) -> Written
    ensures { result ≡ record { refusal = refusal; next = 0 } }
{
    Written { refusal, next: 0 }
}

// Whether so many characters from a place on end within a buffer.
pub fn has_room(out: &[u8], at: usize, count: usize) -> bool
    ensures answer { result ≡ has_room out.now at count }
{
    if out.len() < at {
        return false;
    }
    count <= out.len() - at
}

fn put(out: &mut [u8], at: usize, text: &[u8])
    requires { at + length text.now ≤ length out.old }
    ensures { out.new ≡ laid out.old at text.now }
{
    // An archive for C wants no function from outside, as std's copying of slices would.
    for (i, &c) in text.iter().enumerate() {
        out[at + i] = c;
    }
}

// Some characters, laid at a place.
pub fn lay(out: &mut [u8], at: usize, text: &[u8]) -> Written
    ensures answer { result ≡ lay_answer out.old at text.now }
    ensures written { out.new ≡ lay_leaves out.old at text.now }
{
    let count = text.len();
    let room = has_room(out, at, count);
    if !room {
        return refuse(refusals::NO_ROOM);
    }
    put(out, at, text);
    Written {
        refusal: refusals::ACCEPTED,
        next: at + count,
    }
}

// The lowest digits of a number in a base, the last of them first.
fn put_digits(out: &mut [u8], at: usize, base: u64, count: usize, number: u64)
    requires { (0 < base) × (base ≤ 16) × (at + count ≤ length out.old) }
    ensures { out.new ≡ laid out.old at (digits base count number) }
{
    let mut rest = number;
    for i in (0..count).rev() {
        out[at + i] = crate::digit((rest % base) as u8);
        rest = rest / base;
    }
}

// The lowest digits of a number in a base, laid at a place.
fn lay_digits(out: &mut [u8], at: usize, base: u64, count: usize, number: u64) -> Written
    requires { (0 < base) × (base ≤ 16) }
    ensures answer { result ≡ lay_answer out.old at (digits base count number) }
    ensures written { out.new ≡ lay_leaves out.old at (digits base count number) }
{
    let room = has_room(out, at, count);
    if !room {
        return refuse(refusals::NO_ROOM);
    }
    put_digits(out, at, base, count, number);
    Written {
        refusal: refusals::ACCEPTED,
        next: at + count,
    }
}

// The lowest hexadecimal digits of a number, laid at a place.
pub fn lay_hex(out: &mut [u8], at: usize, count: usize, number: u64) -> Written
    ensures answer { result ≡ lay_answer out.old at (hex_digits count number) }
    ensures written { out.new ≡ lay_leaves out.old at (hex_digits count number) }
{
    lay_digits(out, at, 16, count, number)
}

// The lowest decimal digits of a number, laid at a place.
pub fn lay_decimals(out: &mut [u8], at: usize, count: usize, number: u64) -> Written
    ensures answer { result ≡ lay_answer out.old at (digits 10 count number) }
    ensures written { out.new ≡ lay_leaves out.old at (digits 10 count number) }
{
    lay_digits(out, at, 10, count, number)
}

// A number in plain decimal, laid at a place.
pub fn lay_decimal(out: &mut [u8], at: usize, number: u64) -> Written
    ensures answer { result ≡ lay_answer out.old at (decimal number) }
    ensures written { out.new ≡ lay_leaves out.old at (decimal number) }
{
    let count = crate::decimal_length(number);
    lay_digits(out, at, 10, count, number)
}

// How far a number is from zero.
pub fn size_of(number: i32) -> u64
    ensures answer { result ≡ nat_abs number }
{
    u64::from(number.unsigned_abs())
}

// A minus and a number, laid at a place.
fn lay_negative(out: &mut [u8], at: usize, size: u64) -> Written
    ensures answer { result ≡ lay_answer out.old at (ascii "-" ++ decimal size) }
    ensures written { out.new ≡ lay_leaves out.old at (ascii "-" ++ decimal size) }
{
    let count = crate::decimal_length(size);
    let room = has_room(out, at, count + 1);
    if !room {
        return refuse(refusals::NO_ROOM);
    }
    out[at] = crate::MINUS;
    lay_decimal(out, at + 1, size)
}

// A number with a minus in front where it is negative, laid at a place.
pub fn lay_signed(out: &mut [u8], at: usize, number: i32) -> Written
    ensures answer { result ≡ lay_answer out.old at (signed_decimal number) }
    ensures written { out.new ≡ lay_leaves out.old at (signed_decimal number) }
{
    let size = size_of(number);
    if number < 0 {
        return lay_negative(out, at, size);
    }
    lay_decimal(out, at, size)
}

fn put_hex_bytes(out: &mut [u8], at: usize, bytes: &[u8])
    requires { at + 2 * length bytes.now ≤ length out.old }
    ensures { out.new ≡ laid out.old at (hex_of bytes.now) }
{
    for (i, &byte) in bytes.iter().enumerate() {
        put_digits(out, at + 2 * i, 16, 2, byte as u64);
    }
}

// The two digits of each byte in turn, laid at a place.
pub fn lay_hex_bytes(out: &mut [u8], at: usize, bytes: &[u8]) -> Written
    ensures answer { result ≡ lay_answer out.old at (hex_of bytes.now) }
    ensures written { out.new ≡ lay_leaves out.old at (hex_of bytes.now) }
{
    let count = 2 * bytes.len();
    let room = has_room(out, at, count);
    if !room {
        return refuse(refusals::NO_ROOM);
    }
    put_hex_bytes(out, at, bytes);
    Written {
        refusal: refusals::ACCEPTED,
        next: at + count,
    }
}

// The byte that the two digits at a place stand for.
fn byte_at(s: &[u8], at: usize) -> u8
    requires { (at + 1 < length s.now) × (spells 16 s.now ≡ true) }
    ensures { result ≡ 16 * value_of (get_or s.now at 0) + value_of (get_or s.now (at + 1) 0) }
{
    let high = crate::value(s[at]);
    let low = crate::value(s[at + 1]);
    16 * high + low
}

fn decode(out: &mut [u8], s: &[u8])
    requires { (length s.now / 2 ≤ length out.old) × (spells 16 s.now ≡ true) }
    ensures { out.new ≡ laid out.old 0 (bytes_of s.now) }
{
    for i in 0..s.len() / 2 {
        out[i] = byte_at(s, 2 * i);
    }
}

// The bytes that pairs of hexadecimal digits stand for, laid at the front.
pub fn read_bytes(out: &mut [u8], s: &[u8]) -> Written
    ensures answer { result ≡ decode_answer out.old s.now }
    ensures written { out.new ≡ decode_leaves out.old s.now }
{
    let spelt = crate::all_digits(s, 16);
    if !spelt {
        return refuse(refusals::NOT_HEX);
    }
    let count = s.len() / 2;
    let room = has_room(out, 0, count);
    if !room {
        return refuse(refusals::NO_ROOM);
    }
    decode(out, s);
    Written {
        refusal: refusals::ACCEPTED,
        next: count,
    }
}
