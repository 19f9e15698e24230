// The lines that answer a read and a change of settings.
ghost use Rattle.std.specs.Prelude.{◌≡◌, ◌+◌, ◌≤◌, length};
ghost use Rattle.text.specs.Putting.{Puts, line_room, line_answer, line_leaves};
ghost use Rattle.bench_answers.specs.SettingsLines.{settings_fields, current_line, change_line};

use settings::Current;
use text::laying::Written;
use text::putting::LINE_ROOM;
use text::{LINE_FEED, SPACE, laying, putting};

// The fields of settings that were read, each with the character behind it.
fn put_current(
    out: &mut [u8],
    at: usize,
    refusal: u8,
    high: u8,
    low: u8,
    configuration: u8,
    version: u16,
) -> usize
    ensures { Puts out.old at (settings_fields refusal high low configuration version)
        out.new result × (length (settings_fields refusal high low configuration version) ≤ line_room) }
{
    let behind_refusal = putting::put_number(out, at, refusal as u64, SPACE);
    let behind_high = putting::put_digits(out, behind_refusal, 2, high as u64, SPACE);
    let behind_low = putting::put_digits(out, behind_high, 2, low as u64, SPACE);
    let behind_configuration = putting::put_digits(out, behind_low, 2, configuration as u64, SPACE);
    putting::put_number(out, behind_configuration, version as u64, LINE_FEED)
}

// The line of a read of settings, at a place.
pub fn current_line(out: &mut [u8], at: usize, current: Current) -> Written
    ensures answer { result ≡ line_answer out.old at (current_line current) }
    ensures written { out.new ≡ line_leaves out.old at (current_line current) }
    ensures fits { result.next ≤ at + line_room }
{
    let room = laying::has_room(out, at, LINE_ROOM);
    if !room {
        return putting::no_room();
    }
    let s = current.settings;
    putting::behind(put_current(
        out,
        at,
        current.refusal,
        s.high,
        s.low,
        s.configuration,
        current.version,
    ))
}

fn put_change(out: &mut [u8], at: usize, refusal: u8, version: u16) -> usize
    ensures { Puts out.old at (change_line refusal version) out.new result
        × (length (change_line refusal version) ≤ line_room) }
{
    let behind_refusal = putting::put_number(out, at, refusal as u64, SPACE);
    putting::put_number(out, behind_refusal, version as u64, LINE_FEED)
}

// The line of a change of settings, at a place.
pub fn change_line(out: &mut [u8], at: usize, refusal: u8, version: u16) -> Written
    ensures answer { result ≡ line_answer out.old at (change_line refusal version) }
    ensures written { out.new ≡ line_leaves out.old at (change_line refusal version) }
    ensures fits { result.next ≤ at + line_room }
{
    let room = laying::has_room(out, at, LINE_ROOM);
    if !room {
        return putting::no_room();
    }
    putting::behind(put_change(out, at, refusal, version))
}
