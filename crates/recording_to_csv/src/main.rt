// Turns a recording on standard input into comma-separated text on standard output: of its PAD frames,
// the last reading of each code. It only moves bytes; what is printed is decided by the library.
#![tactic(auto)]

ghost use Rattle.std.specs.Prelude.{◌≤◌, length};
ghost use Rattle.readings.specs.Csv.{csv_text, most_text};
ghost use Rattle.reading_programs.specs.Answers.{rows_told};
ghost use Rattle.reading_programs.specs.Latest.{recording_read};

use reading_programs::pad_readings;
use streams::{Conversion, MOST, MeasuredConversion, ROOM};

// The most bytes of a text of 32 rows, and more.
const MOST_TEXT: usize = 1024;

struct ToCsv;

impl Conversion for ToCsv {
    ghost room = { most_text };

    ghost converted = { λ recording. rows_told csv_text (recording_read recording) };

    fn convert(recording: &[u8], text: &mut [u8]) -> usize {
        pad_readings::to_csv(recording, text).next
    }
}

impl MeasuredConversion for ToCsv {
    fn room() -> usize {
        MOST_TEXT
    }
}

fn answer(rt: &(impl Input + Print), errors: &impl Print, recording: &mut [u8], text: &mut [u8])
    requires { most_text ≤ length text.old }
{
    let count = streams::read_full(rt, recording);
    if MOST < count {
        streams::write_all(errors, b"recording_to_csv: longer than 2097152 bytes\n");
    } else {
        streams::write_where_room::<ToCsv>(rt, &recording[..count], text);
    }
}

fn main(rt: HostRuntime) {
    let mut recording = [0u8; ROOM];
    let mut text = [0u8; 4096];
    answer(&rt, &rt.stderr(), &mut recording, &mut text);
}
