// Reads one capture of three frames, in two pieces, into buffers of 40, 17, 10 and 0 bytes: the lines of
// the frames have 9, 7 and 9 bytes. All 44 bytes are dots before. Each run tells refusal and count of each
// feed and of the end, and then shows all 44 bytes.
#![tactic(auto)]

ghost use Rattle.std.specs.Prelude.{◌≤◌};

use captures::edges;
use captures::edges::Answer;

const ROOM: usize = 44;

fn say(rt: &impl Print, text: &[u8]) {
    streams::write_all(rt, text);
}

fn say_answer(rt: &impl Print, label: &[u8], a: Answer) {
    say(rt, label);
    streams::print_decimal(rt, a.refusal as u64);
    say(rt, b" ");
    streams::print_decimal(rt, a.written as u64);
}

// A reset with presence and two slots, a reset that nobody answers, and the first again.
fn run(rt: &impl Print, out: &mut [u8]) {
    let first = edges::feed(
        edges::start(),
        b"00000000\n000001E0\n00000200\n00000260\n00000280\n00000286\n00000290\n000002CC\n00000400\n000005E0\n000",
        out,
    );
    say_answer(rt, b" feed ", first);
    let second = edges::feed(
        first.reader,
        b"00800\n000009E0\n00000A00\n00000A60\n00000A80\n00000A86\n00000A90\n00000ACC\n",
        out,
    );
    say_answer(rt, b", feed ", second);
    let ended = edges::end(second.reader, out);
    say_answer(rt, b", end ", ended);
    say(rt, b"\n");
}

// A run into so many of the bytes.
fn run_in(rt: &impl Print, label: &[u8], bytes: usize)
    requires { bytes ≤ ROOM }
{
    let mut room = [b'.'; ROOM];
    say(rt, label);
    run(rt, &mut room[..bytes]);
    say(rt, &room);
    say(rt, b"\n");
}

fn main(rt: HostRuntime) {
    run_in(&rt, b"40 bytes:", 40);
    run_in(&rt, b"17 bytes:", 17);
    run_in(&rt, b"10 bytes:", 10);
    run_in(&rt, b"no bytes:", 0);
}
