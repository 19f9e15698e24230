// Reads comma-separated text on standard input and prints its readings, lines `CODE COUNT`, on standard
// output, or the one line `REFUSED N`. It only moves bytes; what is printed is decided by the library.
#![tactic(auto)]

ghost use Rattle.readings.specs.Csv.{most_text};
ghost use Rattle.reading_programs.specs.Answers.{lines_answer};

use reading_programs::csv_answers;
use streams::{Conversion, MeasuredConversion};

// The most bytes of a text of 32 rows, and more.
const MOST_TEXT: usize = 1024;

struct ToLines;

impl Conversion for ToLines {
    ghost room = { most_text };

    ghost converted = { lines_answer };

    fn convert(input: &[u8], text: &mut [u8]) -> usize {
        csv_answers::to_lines(input, text).next
    }
}

impl MeasuredConversion for ToLines {
    fn room() -> usize {
        MOST_TEXT
    }
}

// An input that goes on behind the buffer is judged by what is in it: a header and 32 rows are far
// shorter, so that it is refused.
fn main(rt: HostRuntime) {
    let mut input = [0u8; 65536];
    let mut text = [0u8; 4096];
    let count = streams::read_full(&rt, &mut input);
    streams::write_where_room::<ToLines>(&rt, &input[..count], &mut text);
}
