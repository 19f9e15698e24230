// Prints, for each count of sixteenths from -880 to 2000, the register that it is stored as and the
// number that this register reads back as: by a family that counts half degrees, with the count byte
// behind it, then by one that counts sixteenths at 9, 10, 11 and 12 bits. The stored output is that of
// the second implementation under tests/.
#![tactic(auto)]

use family::Unit;
use scratchpad::fine;
use temperature::{Reading, Sixteenths};

// The configurations of 9 to 12 bits.
const CONFIGURATIONS: [u8; 4] = [0x1F, 0x3F, 0x5F, 0x7F];

fn say(rt: &impl Print, text: &[u8]) {
    streams::write_all(rt, text);
}

fn say_number(rt: &impl Print, z: i16) {
    if z < 0 {
        say(rt, b"-");
    }
    streams::print_decimal(rt, z.unsigned_abs() as u64);
}

fn say_stored(rt: &impl Print, unit: Unit, count: Sixteenths, configuration: u8) {
    let register = temperature::register_of(temperature::measured(unit, count, configuration));
    let bits = u16::from_le_bytes([register.low, register.high]);
    let read = temperature::reading_of(unit, register.low, register.high, configuration);
    let back = match read {
        Reading::InSixteenths(c) => c.0,
        Reading::InHalves(h) => h.0,
    };
    say(rt, b" ");
    streams::print_hex(rt, bits as u64, 4);
    say(rt, b" ");
    say_number(rt, back);
}

fn say_line(rt: &impl Print, count: Sixteenths) {
    say_number(rt, count.0);
    say_stored(rt, Unit::HalfDegrees, count, 0);
    say(rt, b" ");
    streams::print_decimal(rt, fine::remaining(count) as u64);
    for configuration in CONFIGURATIONS {
        say_stored(rt, Unit::Sixteenths, count, configuration);
    }
    say(rt, b"\n");
}

fn main(rt: HostRuntime) {
    for count in -880..=2000 {
        say_line(&rt, Sixteenths(count));
    }
}
