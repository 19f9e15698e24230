// Runs what no line of a program can ask for: CRCs of any bytes, half degrees in sixteenths, and
// degrees in single precision. The numbers are from outside: the temperature tables of the two sheets,
// Application Note 27, and the cases and edges of the scope. Refusals are the scope's numbers, written
// out so that they are compared with it and not with our names.
#![tactic(auto)]

mod line;

use line::{crc, degrees, say, widened};

fn crcs(rt: &impl Print) {
    say(rt, b"CRC\n");
    crc(rt, b"", b"P1 nothing", 0x00);
    crc(rt, &[0x00; 8], b"P2 eight 00", 0x00);
    crc(rt, &[0xFF; 8], b"P3 eight FF", 0xC9);
    crc(
        rt,
        b"\x28\x00\x00\x00\x00\x00\x00",
        b"P4 28 00 00 00 00 00 00",
        0x1E,
    );
    crc(
        rt,
        b"\x02\x1C\xB8\x01\x00\x00\x00",
        b"P5 02 1C B8 01 00 00 00",
        0xA2,
    );
    crc(
        rt,
        b"\x02\x1C\xB8\x01\x00\x00\x00\xA2",
        b"02 1C B8 01 00 00 00 A2",
        0x00,
    );
}

fn conversions(rt: &impl Print) {
    say(rt, b"\nHalf degrees in sixteenths\n");
    widened(rt, -111, 11, 0);
    widened(rt, -110, 0, -880);
    widened(rt, -1, 0, -8);
    widened(rt, 250, 0, 2000);
    widened(rt, 251, 11, 0);
}

fn single_precision(rt: &impl Print) {
    say(rt, b"\nSingle precision\n");
    degrees(rt, b"-55", -880, -55.0);
    degrees(rt, b"-25.0625", -401, -25.0625);
    degrees(rt, b"-0.5", -8, -0.5);
    degrees(rt, b"-0.0625", -1, -0.0625);
    degrees(rt, b"0", 0, 0.0);
    degrees(rt, b"0.0625", 1, 0.0625);
    degrees(rt, b"25.0625", 401, 25.0625);
    degrees(rt, b"124.9375", 1999, 124.9375);
    degrees(rt, b"125", 2000, 125.0);
}

fn main(rt: HostRuntime) {
    crcs(&rt);
    conversions(&rt);
    single_precision(&rt);
}
