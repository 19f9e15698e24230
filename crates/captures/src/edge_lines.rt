// A line of a capture, character by character: just what tells at its feed whether it is a time.
ghost use Rattle.std.specs.Prelude.{◌≡◌, ◌&&◌, ltb};
ghost use Rattle.basic_laws.specs.Fold.{fold};
ghost use Rattle.captures.specs.Partial.{no_line, counted, longer_partial};

// The digits of a time.
pub const TIME_DIGITS: u8 = 8;

// One character more than a time has: so many tell that a line is too long.
const MOST_HELD: u8 = 9;

// What is known of a line so far.
#[derive(Clone, Copy)]
pub struct Partial {
    // how many characters it has, 9 where they are more than 8
    pub count: u8,
    // whether each of them is a hexadecimal digit
    pub spelt: bool,
    // the number that the last eight stand for
    pub number: u32,
}

// A line without a character.
pub fn none() -> Partial
    ensures answer { result ≡ no_line }
{
    Partial {
        count: 0,
        spelt: true,
        number: 0,
    }
}

fn count_one(count: u8) -> u8
    ensures { result ≡ counted count }
{
    if count < MOST_HELD { count + 1 } else { count }
}

// Whether a line is of digits so far, behind a character of some value.
fn still_spelt(spelt: bool, value: u8) -> bool
    ensures { result ≡ (spelt && ltb value 16) }
{
    spelt && value < 16
}

fn lengthen(line: Partial, c: u8) -> Partial
    ensures { result ≡ longer_partial line c }
{
    let value = text::value(c);
    Partial {
        count: count_one(line.count),
        spelt: still_spelt(line.spelt, value),
        number: line.number.wrapping_mul(16).wrapping_add(u32::from(value)),
    }
}

// The line with some characters more.
pub fn gather(line: Partial, characters: &[u8]) -> Partial
    ensures answer { result ≡ fold longer_partial line characters.now }
{
    let mut held = line;
    for &c in characters {
        held = lengthen(held, c);
    }
    held
}
