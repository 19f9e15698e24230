// Captures of a logic analyser, in pieces cut anywhere. Each line is the time of an edge, and each
// closed frame is written as a line into the lent buffer.
ghost use Rattle.std.specs.Prelude.{◌≡◌, ◌-◌, true, length, take};
ghost use Rattle.basic_laws.specs.Fold.{fold, all};
ghost use Rattle.refusals.specs.Refusals.{accepted};
ghost use Rattle.text.specs.Lines.{not_feed};
ghost use Rattle.frame.specs.Writing.{line_write_leaves};
ghost use Rattle.captures.specs.Edges.{fresh_reader, refused_with, with_line, on_edge, line_ended, closed_reader};
ghost use Rattle.captures.specs.Edges.{fed_line_reader, fed_line_leaves, on_byte, answers_of, feed_answer, feed_leaves};
ghost use Rattle.captures.specs.Edges.{finished_with, end_closed, end_answer, end_leaves, taken_so_far};

use crate::edge_lines::Partial;
use crate::pulses::{Step, Wire};
use crate::{edge_lines, pulses};
use frame::frame_lines;
use text::LINE_FEED;

// What is kept of a capture between two pieces. Only `start` makes one.
#[derive(Clone, Copy)]
pub struct Reader {
    // the refusal that came, and comes again at each call
    refusal: u8,
    // how many bytes stand in the buffer
    written: usize,
    // the line that has no feed yet
    line: Partial,
    wire: Wire,
}

// What a call answers: 0 or a refusal, and in either case how many bytes stand in the buffer.
#[derive(Clone, Copy)]
pub struct Answer {
    pub refusal: u8,
    pub written: usize,
    pub reader: Reader,
}

// What a line comes to: the reader after it, and whether the frame that was open is closed.
#[derive(Clone, Copy)]
struct Turn {
    closes: bool,
    reader: Reader,
}

// A reader before the first byte.
pub fn start() -> Reader
    ensures answer { result ≡ fresh_reader }
{
    Reader {
        refusal: refusals::ACCEPTED,
        written: 0,
        line: edge_lines::none(),
        wire: pulses::idle(),
    }
}

// The reader once the host has taken the bytes that stand in the buffer: the next are written from its
// front on.
pub fn taken(reader: Reader) -> Reader
    ensures answer { result ≡ taken_so_far reader }
{
    Reader {
        written: 0,
        ..reader
    }
}

fn refuse(reader: Reader, refusal: u8) -> Reader
    ensures { result ≡ refused_with reader refusal }
{
    Reader { refusal, ..reader }
}

fn with_line(reader: Reader, line: Partial) -> Reader
    ensures { result ≡ with_line reader line }
{
    Reader { line, ..reader }
}

fn answer_of(reader: Reader) -> Answer
    ensures { result ≡ answers_of reader }
{
    Answer {
        refusal: reader.refusal,
        written: reader.written,
        reader,
    }
}

// An edge has come.
fn on_edge(reader: Reader, step: Step) -> Turn
    ensures { result ≡ on_edge reader step }
{
    let refusal = step.refusal;
    let wire = step.wire;
    if refusal != refusals::ACCEPTED {
        return Turn {
            closes: false,
            reader: refuse(reader, refusal),
        };
    }
    Turn {
        closes: step.closes,
        reader: Reader {
            line: edge_lines::none(),
            wire,
            ..reader
        },
    }
}

// A line has its feed: it is judged.
fn end_line(reader: Reader) -> Turn
    ensures { result ≡ line_ended reader }
{
    let line = reader.line;
    let wire = reader.wire;
    if !line.spelt {
        return Turn {
            closes: false,
            reader: refuse(reader, refusals::NOT_HEX),
        };
    }
    if line.count != edge_lines::TIME_DIGITS {
        return Turn {
            closes: false,
            reader: refuse(reader, refusals::MALFORMED),
        };
    }
    on_edge(reader, pulses::edge(wire, line.number))
}

// The frame that was open is written, or refused for want of room.
fn close(before: Reader, after: Reader, out: &mut [u8]) -> Reader
    ensures answer { result ≡ closed_reader before after out.old }
    ensures written { out.new ≡ line_write_leaves out.old before.written
        before.wire.frame }
{
    let wire = before.wire;
    let frame = wire.frame;
    let written = frame_lines::write_line_at(out, before.written, frame);
    if written.refusal != refusals::ACCEPTED {
        return refuse(before, written.refusal);
    }
    Reader {
        written: written.next,
        ..after
    }
}

// A feed: the line is judged, and the frame that it closes is written.
fn take_feed(reader: Reader, out: &mut [u8]) -> Reader
    ensures answer { result ≡ fed_line_reader reader out.old }
    ensures written { out.new ≡ fed_line_leaves reader out.old }
{
    let turn = end_line(reader);
    let after = turn.reader;
    if turn.closes {
        return close(reader, after, out);
    }
    after
}

// The characters of a line that a piece has, and its feed if that is among them.
fn feed_line(reader: Reader, line: &[u8], out: &mut [u8]) -> Reader
    requires { (reader.refusal ≡ accepted) × (all not_feed (take (length line.now - 1) line.now) ≡ true) }
    ensures answer { fold on_byte record { reader = reader; out = out.old } line.now
        ≡ record { reader = result; out = out.new } }
{
    match line.strip_suffix(&[LINE_FEED]) {
        Some(chars) => {
            let held = with_line(reader, edge_lines::gather(reader.line, chars));
            take_feed(held, out)
        }
        None => with_line(reader, edge_lines::gather(reader.line, line)),
    }
}

// A piece of the capture. After a refusal it changes nothing, and the refusal comes again.
pub fn feed(reader: Reader, s: &[u8], out: &mut [u8]) -> Answer
    ensures answer { result ≡ feed_answer reader out.old s.now }
    ensures written { out.new ≡ feed_leaves reader out.old s.now }
{
    if reader.refusal != refusals::ACCEPTED {
        return answer_of(reader);
    }
    let mut held = reader;
    for line in s.split_inclusive(|&c| c == LINE_FEED) {
        held = feed_line(held, line, out);
        // the rest of the piece is not even looked at
        if held.refusal != refusals::ACCEPTED {
            break;
        }
    }
    answer_of(held)
}

fn finish(written: usize) -> Answer
    ensures { result ≡ finished_with written }
{
    Answer {
        refusal: refusals::ACCEPTED,
        written,
        reader: start(),
    }
}

// An end that closes the last frame.
fn close_last(reader: Reader, out: &mut [u8]) -> Answer
    ensures answer { result ≡ end_closed reader out.old }
    ensures written { out.new ≡ line_write_leaves out.old reader.written
        reader.wire.frame }
{
    let wire = reader.wire;
    let frame = wire.frame;
    let written = frame_lines::write_line_at(out, reader.written, frame);
    if written.refusal != refusals::ACCEPTED {
        return answer_of(refuse(reader, written.refusal));
    }
    finish(written.next)
}

// The end of the capture. Where it is accepted, the reader is one that has just started.
pub fn end(reader: Reader, out: &mut [u8]) -> Answer
    ensures answer { result ≡ end_answer reader out.old }
    ensures written { out.new ≡ end_leaves reader out.old }
{
    if reader.refusal != refusals::ACCEPTED {
        return answer_of(reader);
    }
    let line = reader.line;
    if 0 < line.count {
        return answer_of(refuse(reader, refusals::NOT_HEX));
    }
    let wire = reader.wire;
    let stage = wire.stage;
    let ending = pulses::end_at(stage);
    if ending.refusal != refusals::ACCEPTED {
        return answer_of(refuse(reader, ending.refusal));
    }
    if ending.closes {
        return close_last(reader, out);
    }
    finish(reader.written)
}
