// CRCs of fixed work, each written into the bytes of a later one: of 4,096 bytes 5,000 times, and of
// 500 scratchpads of nine bytes 20,000 times. With `l` on standard input only the long ones are taken,
// with anything else only the scratchpads. Prints the last CRC of each.
#![tactic(auto)]

const TIMES: u32 = 5000;

const LONG: usize = 4096;

const ROUNDS: u32 = 20000;

const PADS: usize = 500;

const PAD: usize = 9;

const ALL_PADS: usize = PADS * PAD;

// Bytes that follow no short pattern.
fn fill(bytes: &mut [u8]) {
    for (i, byte) in bytes.iter_mut().enumerate() {
        *byte = (i % 4096 * 157 / 3 % 256) as u8;
    }
}

fn crc_often(bytes: &mut [u8; LONG]) -> u8 {
    let mut last = 0;
    for _ in 0..TIMES {
        last = crc::crc_of(bytes);
        bytes[0] = last;
    }
    last
}

// By places, since chunks took a fourteenth more of the instructions that are measured.
fn crc_pads(bytes: &mut [u8; ALL_PADS]) -> u8 {
    let mut last = 0;
    for i in 0..PADS {
        let pad = &mut bytes[i * PAD..i * PAD + PAD];
        last = crc::crc_of(pad);
        pad[0] = last;
    }
    last
}

fn crc_pads_often(bytes: &mut [u8; ALL_PADS]) -> u8 {
    let mut last = 0;
    for _ in 0..ROUNDS {
        last = crc_pads(bytes);
    }
    last
}

fn say(rt: &impl Print, last: u8) {
    streams::print_hex(rt, last as u64, 2);
    streams::write_all(rt, b"\n");
}

fn long_ones(rt: &impl Print) {
    let mut bytes = [0u8; LONG];
    fill(&mut bytes);
    say(rt, crc_often(&mut bytes));
}

fn scratchpads(rt: &impl Print) {
    let mut bytes = [0u8; ALL_PADS];
    fill(&mut bytes);
    say(rt, crc_pads_often(&mut bytes));
}

fn main(rt: HostRuntime) {
    let mut asked = [0u8; 1];
    let got = streams::read_full(&rt, &mut asked);
    if got == 0 || asked[0] == b'l' {
        long_ones(&rt);
    }
    if got == 0 || asked[0] != b'l' {
        scratchpads(&rt);
    }
}
