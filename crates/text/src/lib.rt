// Text: numbers as digits, and lines.
#![tactic(auto)]

pub mod laying;
mod lines;
mod numbers;
pub mod putting;

pub use lines::{count_lines, line_behind, line_end, same};
pub use numbers::{
    all_digits, decimal_length, digit, is_negative, is_plain, read_decimal, read_fixed,
    read_number, read_plain, value,
};

// The character that ends a line, the one that some editors put in front of it, that between two
// words, and that in front of a negative number.
pub const LINE_FEED: u8 = 0x0A;

pub const CARRIAGE_RETURN: u8 = 0x0D;

pub const SPACE: u8 = 0x20;

pub const MINUS: u8 = 0x2D;

pub const SLASH: u8 = 0x2F;

// A number that was read, or that there is none.
#[derive(Clone, Copy)]
pub struct NumberRead {
    pub valid: bool,
    // 0 where there is none
    pub number: u64,
}
