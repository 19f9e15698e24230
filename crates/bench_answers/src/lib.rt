// The lines that answer the calls of the bench console, laid at a place of a buffer.
#![tactic(auto)]

pub mod access_answers;
pub mod call_answers;
pub mod pin_answers;
pub mod search_answers;
pub mod settings_answers;
pub mod why_answers;

ghost use Rattle.std.specs.Prelude.{◌≡◌, [], ◌∷◌};
ghost use Rattle.bench_answers.specs.Answers.{bad_line, refusal_line, bit_line, search_line, code_line, record_line};
ghost use Rattle.bench_answers.specs.Answers.{show_line};
ghost use Rattle.bench_answers.specs.Answers.{busy_digit};
ghost use Rattle.text.specs.Putting.{Puts, field_next, field_leaves, line_answer, line_leaves};

use bench::Looked;
use device::{Activity, Settings};
use text::laying::Written;
use text::putting::{
    LINE_ROOM, behind, no_room, put_bytes, put_char, put_digits, put_flag, put_number,
};
use text::{LINE_FEED, SPACE, laying};

// The eight bytes of a scratchpad that a device holds.
pub type Scratchpad = [u8; 8];

fn put_bad(out: &mut [u8], at: usize) -> usize
    ensures { Puts out.old at bad_line out.new result }
{
    let w = laying::lay(out, at, b"?\n");
    w.next
}

// To a line that matches no call.
pub fn bad_line(out: &mut [u8], at: usize) -> Written
    ensures answer { result ≡ line_answer out.old at bad_line }
    ensures written { out.new ≡ line_leaves out.old at bad_line }
{
    let room = laying::has_room(out, at, LINE_ROOM);
    if !room {
        return no_room();
    }
    behind(put_bad(out, at))
}

// To an adding, a finish or a power cycle.
pub fn refusal_line(out: &mut [u8], at: usize, refusal: u8) -> Written
    ensures answer { result ≡ line_answer out.old at (refusal_line refusal) }
    ensures written { out.new ≡ line_leaves out.old at (refusal_line refusal) }
{
    let room = laying::has_room(out, at, LINE_ROOM);
    if !room {
        return no_room();
    }
    behind(put_number(out, at, refusal as u64, LINE_FEED))
}

fn put_bit(out: &mut [u8], at: usize, refusal: u8, bit: bool) -> usize
    ensures { Puts out.old at (bit_line refusal bit) out.new result }
{
    let behind_refusal = put_number(out, at, refusal as u64, SPACE);
    put_flag(out, behind_refusal, bit, LINE_FEED)
}

// To a reset or a slot.
pub fn bit_line(out: &mut [u8], at: usize, refusal: u8, bit: bool) -> Written
    ensures answer { result ≡ line_answer out.old at (bit_line refusal bit) }
    ensures written { out.new ≡ line_leaves out.old at (bit_line refusal bit) }
{
    let room = laying::has_room(out, at, LINE_ROOM);
    if !room {
        return no_room();
    }
    behind(put_bit(out, at, refusal, bit))
}

fn put_counts(
    out: &mut [u8],
    at: usize,
    refusal: u8,
    codes: u8,
    passes: u8,
    slots: u16,
    bytes: u16,
) -> usize
    ensures { Puts out.old at (search_line refusal codes passes slots bytes) out.new result }
{
    let behind_refusal = put_number(out, at, refusal as u64, SPACE);
    let behind_codes = put_number(out, behind_refusal, codes as u64, SPACE);
    let behind_passes = put_number(out, behind_codes, passes as u64, SPACE);
    let behind_slots = put_number(out, behind_passes, slots as u64, SPACE);
    put_number(out, behind_slots, bytes as u64, LINE_FEED)
}

// The first line to a search.
pub fn search_line(
    out: &mut [u8],
    at: usize,
    refusal: u8,
    codes: u8,
    passes: u8,
    slots: u16,
    bytes: u16,
) -> Written
    ensures answer { result ≡ line_answer out.old at (search_line refusal codes passes slots bytes) }
    ensures written { out.new ≡ line_leaves out.old at
        (search_line refusal codes passes slots bytes) }
{
    let room = laying::has_room(out, at, LINE_ROOM);
    if !room {
        return no_room();
    }
    behind(put_counts(out, at, refusal, codes, passes, slots, bytes))
}

// The line of a listed code.
pub fn code_line(out: &mut [u8], at: usize, code: u64) -> Written
    ensures answer { result ≡ line_answer out.old at (code_line code) }
    ensures written { out.new ≡ line_leaves out.old at (code_line code) }
{
    let room = laying::has_room(out, at, LINE_ROOM);
    if !room {
        return no_room();
    }
    behind(put_digits(out, at, 16, code, LINE_FEED))
}

fn busy_digit(activity: Activity) -> u8
    ensures { result ∷ [] ≡ busy_digit activity }
{
    match activity {
        Activity::Idle => 0x30,
        Activity::Converting => 0x31,
        Activity::Copying(_) => 0x32,
    }
}

fn put_busy(out: &mut [u8], at: usize, activity: Activity, mark: u8) -> usize
    ensures answer { result ≡ field_next out.old at (busy_digit activity) mark }
    ensures written { out.new ≡ field_leaves out.old at (busy_digit activity) mark }
{
    let next = put_char(out, at, busy_digit(activity));
    put_char(out, next, mark)
}

fn put_record(
    out: &mut [u8],
    at: usize,
    refusal: u8,
    pad: Scratchpad,
    eeprom: Settings,
    alarm: bool,
    activity: Activity,
) -> usize
    ensures { Puts out.old at (record_line refusal pad eeprom alarm activity) out.new result }
{
    let bytes = pad;
    let settings = [eeprom.high, eeprom.low, eeprom.configuration];
    let behind_refusal = put_number(out, at, refusal as u64, SPACE);
    let behind_pad = put_bytes(out, behind_refusal, &bytes, SPACE);
    let behind_settings = put_bytes(out, behind_pad, &settings, SPACE);
    let behind_alarm = put_flag(out, behind_settings, alarm, SPACE);
    put_busy(out, behind_alarm, activity, LINE_FEED)
}

fn record_line(
    out: &mut [u8],
    at: usize,
    refusal: u8,
    pad: Scratchpad,
    eeprom: Settings,
    alarm: bool,
    activity: Activity,
) -> Written
    ensures answer { result ≡ line_answer out.old at (record_line refusal pad eeprom alarm activity) }
    ensures written { out.new ≡ line_leaves out.old at
        (record_line refusal pad eeprom alarm activity) }
{
    let room = laying::has_room(out, at, LINE_ROOM);
    if !room {
        return no_room();
    }
    behind(put_record(out, at, refusal, pad, eeprom, alarm, activity))
}

// To a look at a device.
pub fn show_line(out: &mut [u8], at: usize, looked: Looked) -> Written
    ensures answer { result ≡ line_answer out.old at (show_line looked) }
    ensures written { out.new ≡ line_leaves out.old at (show_line looked) }
{
    let refusal = looked.refusal;
    let d = looked.device;
    if refusal == refusals::ACCEPTED {
        let pad = d.scratchpad;
        let eeprom = d.eeprom;
        let activity = d.activity;
        return record_line(out, at, refusals::ACCEPTED, pad, eeprom, d.alarm, activity);
    }
    let none = Settings {
        high: 0,
        low: 0,
        configuration: 0,
    };
    record_line(out, at, refusal, [0; 8], none, false, Activity::Idle)
}
