// Writes readings as comma-separated text: lines `CODE COUNT` on standard input, the text on standard
// output, or the one line `REFUSED N`. It only moves bytes; what is printed is decided by the library.
#![tactic(auto)]

ghost use Rattle.readings.specs.Csv.{most_text};
ghost use Rattle.reading_programs.specs.Answers.{csv_answer};

use reading_programs::csv_answers;
use streams::{Conversion, MeasuredConversion};

// The most bytes of a text of 32 rows, and more.
const MOST_TEXT: usize = 1024;

struct ToCsv;

impl Conversion for ToCsv {
    ghost room = { most_text };

    ghost converted = { csv_answer };

    fn convert(input: &[u8], text: &mut [u8]) -> usize {
        csv_answers::to_csv(input, text).next
    }
}

impl MeasuredConversion for ToCsv {
    fn room() -> usize {
        MOST_TEXT
    }
}

// An input that goes on behind the buffer is judged by what is in it: 32 lines of readings are far
// shorter, so that it is refused.
fn main(rt: HostRuntime) {
    let mut input = [0u8; 65536];
    let mut text = [0u8; 4096];
    let count = streams::read_full(&rt, &mut input);
    streams::write_where_room::<ToCsv>(&rt, &input[..count], &mut text);
}
