// One line of output for each thing that is checked: what was asked, what came out, and `ok` where
// that is what the source says, `WRONG` where it is not.
use temperature::{HalfDegrees, Sixteenths};

pub fn say(rt: &impl Print, text: &[u8]) {
    streams::write_all(rt, text);
}

fn verdict(right: bool) -> &'static [u8] {
    if right { b" ok\n" } else { b" WRONG\n" }
}

fn say_number(rt: &impl Print, z: i16) {
    if z < 0 {
        say(rt, b"-");
    }
    streams::print_decimal(rt, z.unsigned_abs() as u64);
}

// The CRC of some bytes.
pub fn crc(rt: &impl Print, bytes: &[u8], label: &[u8], right: u8) {
    let got = crc::crc_of(bytes);
    say(rt, label);
    say(rt, b": ");
    streams::print_hex(rt, got as u64, 2);
    say(rt, verdict(got == right));
}

// Half degrees in sixteenths, or a refusal.
pub fn widened(rt: &impl Print, count: i16, refusal: u8, right: i16) {
    let got = temperature::to_sixteenths(HalfDegrees(count));
    let number = got.refusal;
    let wide = got.count.0;
    say_number(rt, count);
    say(rt, b" half degrees: refusal ");
    streams::print_decimal(rt, number as u64);
    say(rt, b", ");
    say_number(rt, wide);
    say(rt, b" sixteenths");
    say(rt, verdict(number == refusal && wide == right));
}

// The single-precision degrees of a count: exactly those of the source.
pub fn degrees(rt: &impl Print, label: &[u8], count: i16, right: f32) {
    let got = temperature::to_degrees(Sixteenths(count));
    say_number(rt, count);
    say(rt, b" sixteenths are ");
    say(rt, label);
    say(rt, verdict(got.0 == right));
}
