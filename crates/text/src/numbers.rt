// Digits, and the numbers and bytes that they stand for. The digits from ten on are A to F.
ghost use Rattle.std.specs.Prelude.{◌≡◌, ◌%◌};
ghost use Rattle.text.specs.Digits.{digit_of, value_of, spells};
ghost use Rattle.text.specs.Decimal.{decimal_length, is_negative, plain_decimal};
ghost use Rattle.text.specs.Numbers.{no_number, number_read, fixed_read, decimal_read, plain_read};

use crate::{MINUS, NumberRead};

// The value of a character; 16 for one that is no digit.
pub fn value(c: u8) -> u8
    ensures answer { result ≡ value_of c }
{
    if c < 0x30 {
        return 16;
    }
    if c <= 0x39 {
        return c - 0x30;
    }
    if c < 0x41 {
        return 16;
    }
    if c <= 0x46 {
        return c - 0x37;
    }
    16
}

// The digit of the four low bits of a value.
pub fn digit(value: u8) -> u8
    ensures answer { result ≡ digit_of (value % 16) }
{
    let v = value % 16;
    if v < 10 { 0x30 + v } else { 0x37 + v }
}

// Whether all characters are digits below a base.
pub fn all_digits(s: &[u8], base: u8) -> bool
    ensures answer { result ≡ spells base s.now }
{
    s.iter().all(|&c| value(c) < base)
}

fn no_number() -> NumberRead
    ensures { result ≡ no_number }
{
    NumberRead {
        valid: false,
        number: 0,
    }
}

// The number up to a bound that digits below a base stand for.
pub fn read_number(s: &[u8], base: u8, bound: u64) -> NumberRead
    ensures answer { result ≡ number_read base bound s.now }
{
    let mut number: u64 = 0;
    for &c in s {
        let v = value(c);
        if base <= v {
            return no_number();
        }
        let d = v as u64;
        if bound < d {
            return no_number();
        }
        if (bound - d) / (base as u64) < number {
            return no_number();
        }
        number = (base as u64) * number + d;
    }
    NumberRead {
        valid: true,
        number,
    }
}

// The number of just so many digits below a base.
pub fn read_fixed(s: &[u8], base: u8, count: usize) -> NumberRead
    ensures answer { result ≡ fixed_read base count s.now }
{
    if s.len() != count {
        return no_number();
    }
    read_number(s, base, u64::MAX)
}

// The number up to a bound of one decimal digit to so many; zeros in front are taken.
pub fn read_decimal(s: &[u8], most: usize, bound: u64) -> NumberRead
    ensures answer { result ≡ decimal_read most bound s.now }
{
    if s.is_empty() || most < s.len() {
        return no_number();
    }
    read_number(s, 10, bound)
}

// How many digits a number has in plain decimal.
pub fn decimal_length(number: u64) -> usize
    ensures answer { result ≡ decimal_length number }
{
    let mut rest = number;
    let mut count: usize = 1;
    while 10 <= rest {
        rest = rest / 10;
        count += 1;
    }
    count
}

// Whether some characters start with a minus.
pub fn is_negative(s: &[u8]) -> bool
    ensures answer { result ≡ is_negative s.now }
{
    s.first() == Some(&MINUS)
}

// Whether some characters are a number in plain decimal: digits, the first of several no zero.
pub fn is_plain(s: &[u8]) -> bool
    ensures answer { result ≡ plain_decimal s.now }
{
    if s.is_empty() || !all_digits(s, 10) {
        return false;
    }
    s.len() == 1 || s[0] != 0x30
}

// A number in plain decimal of any size, or the bound where it is greater.
pub fn read_plain(s: &[u8], bound: u64) -> NumberRead
    ensures answer { result ≡ plain_read bound s.now }
{
    let plain = is_plain(s);
    if !plain {
        return no_number();
    }
    let within = read_number(s, 10, bound);
    if within.valid {
        return within;
    }
    NumberRead {
        valid: true,
        number: bound,
    }
}
