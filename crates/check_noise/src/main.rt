// Judges one scratchpad with every one, two and three bits turned, with every burst of up to eight
// neighbouring bits, and with the polynomial at every place, and counts what is refused for its CRC.
// Places are those of the 72 bits as sent.
#![tactic(auto)]

mod count;
mod turn;

use count::Count;
use scratchpad::NineBytes;

// 25.0625 degrees, limits of 75 and 70 degrees, 12 bits; with its CRC.
const SOUND: NineBytes = [0x91, 0x01, 0x4B, 0x46, 0x7F, 0xFF, 0x0C, 0x10, 0x70];

fn say(rt: &impl Print, text: &[u8]) {
    streams::write_all(rt, text);
}

fn say_count(rt: &impl Print, label: &[u8], count: Count) {
    say(rt, label);
    say(rt, b": ");
    streams::print_decimal(rt, count.refused as u64);
    say(rt, b" refused with 5, ");
    streams::print_decimal(rt, count.passed as u64);
    say(rt, b" not\n");
}

fn say_judged(rt: &impl Print, label: &[u8], pad: NineBytes) {
    let judged = scratchpad::judge(family::DS18B20, pad);
    let register = temperature::register_of(judged.reading);
    say(rt, label);
    say(rt, b" ");
    for byte in pad {
        streams::print_hex(rt, byte as u64, 2);
    }
    say(rt, b": refusal ");
    streams::print_decimal(rt, judged.refusal as u64);
    say(rt, b", reading ");
    streams::print_hex(rt, register.high as u64, 2);
    streams::print_hex(rt, register.low as u64, 2);
    say(rt, b"\n");
}

fn main(rt: HostRuntime) {
    let none = Count::default();
    say_judged(&rt, b"as sent", SOUND);
    say_count(&rt, b"one bit turned", count::turned(SOUND, 72, 1, none));
    say_count(&rt, b"two bits turned", count::turned(SOUND, 72, 2, none));
    say_count(&rt, b"three bits turned", count::turned(SOUND, 72, 3, none));
    say_count(&rt, b"bursts of up to eight bits", count::bursts(SOUND));
    say_count(
        &rt,
        b"the polynomial at each place",
        count::polynomials(SOUND),
    );
    say_judged(
        &rt,
        b"the first of these",
        turn::turn(SOUND, 0, turn::POLYNOMIAL),
    );
}
