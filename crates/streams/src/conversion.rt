// A text that a whole input is turned into.
ghost use Rattle.std.specs.Prelude.{◌≡◌, ◌≤◌, ℕ, List, IsTrue, length, take};

use crate::write_all;
use std::io::Print;

// How an input is turned into a text.
pub trait Conversion {
    // The most bytes of a text.
    ghost room: { ℕ };

    ghost converted: { List ℕ → List ℕ };

    // Lays the text of an input at the front of what is lent for it, and answers how long it is.
    fn convert(input: &[u8], text: &mut [u8]) -> usize
        requires { room ≤ length text.old }
        ensures within { result ≤ length text.new }
        ensures front { take result text.new ≡ converted input.now };
}

// A conversion that says how much room it needs.
pub trait MeasuredConversion: Conversion {
    fn room() -> usize
        ensures answer { result ≡ Self.room };
}

// Hands to the output the text of an input.
fn write_text<C: Conversion>(to: &impl Print, input: &[u8], text: &[u8]) -> bool
    requires { text.now ≡ C.converted input.now }
{
    write_all(to, text)
}

fn convert_in_room<C: Conversion>(to: &impl Print, input: &[u8], text: &mut [u8]) -> bool
    requires { C.room ≤ length text.old }
{
    let end = C::convert(input, text);
    write_text::<C>(to, input, &text[..end])
}

// Turns an input into its text, and writes it, for a caller who knows that there is room.
pub fn write_converted<C: Conversion>(to: &impl Print, input: &[u8], text: &mut [u8])
    requires { C.room ≤ length text.old }
{
    convert_in_room::<C>(to, input, text);
}

// Turns an input into its text, and writes it. The answer is whether all was written, which is nothing where less room
// is lent than a text may take.
pub fn write_where_room<C: MeasuredConversion>(
    to: &impl Print,
    input: &[u8],
    text: &mut [u8],
) -> bool
    ensures { IsTrue result → C.room ≤ length text.old }
{
    if text.len() < C::room() {
        return false;
    }
    convert_in_room::<C>(to, input, text)
}
