// What is printed for a capture, piece by piece: the lines of the frames that a piece closes, and
// behind them the line of a refusal.
ghost use Rattle.std.specs.Prelude.{◌≡◌};
ghost use Rattle.text.specs.Laying.{lay_leaves};
ghost use Rattle.captures.specs.Edges.{feed_answer, feed_leaves, end_answer, end_leaves};
ghost use Rattle.captures.specs.EdgePrinting.{refused_line, behind_refusal, printed_for, printed_leaves};

use crate::edges;
use crate::edges::{Answer, Reader};
use naming::printing;

// What came of a piece or of the end.
#[derive(Clone, Copy)]
pub struct Printed {
    pub reader: Reader,
    // how many bytes stand in the buffer, to be handed on before the next call
    pub written: usize,
    // whether no refusal has come
    pub going: bool,
}

// The line of a refusal, laid behind the frames; the answer is the place behind it.
fn add_refusal(out: &mut [u8], at: usize, refusal: u8) -> usize
    ensures answer { result ≡ behind_refusal out.old at refusal }
    ensures written { out.new ≡ lay_leaves out.old at (refused_line refusal) }
{
    let line = printing::print_named(out, at, naming::refuse(refusal));
    if line.refusal != refusals::ACCEPTED {
        return at;
    }
    line.next
}

fn print_answer(answer: Answer, out: &mut [u8]) -> Printed
    ensures answer { result ≡ printed_for answer out.old }
    ensures written { out.new ≡ printed_leaves answer out.old }
{
    let reader = answer.reader;
    if answer.refusal != refusals::ACCEPTED {
        return Printed {
            written: add_refusal(out, answer.written, answer.refusal),
            reader: edges::taken(reader),
            going: false,
        };
    }
    Printed {
        written: answer.written,
        reader: edges::taken(reader),
        going: true,
    }
}

// A piece of the capture.
pub fn print_piece(reader: Reader, s: &[u8], out: &mut [u8]) -> Printed
    ensures answer { result ≡ printed_for (feed_answer reader out.old s.now)
        (feed_leaves reader out.old s.now) }
    ensures written { out.new ≡ printed_leaves (feed_answer reader out.old s.now)
        (feed_leaves reader out.old s.now) }
{
    let fed = edges::feed(reader, s, out);
    print_answer(fed, out)
}

// The end of the capture.
pub fn print_end(reader: Reader, out: &mut [u8]) -> Printed
    ensures answer { result ≡ printed_for (end_answer reader out.old)
        (end_leaves reader out.old) }
    ensures written { out.new ≡ printed_leaves (end_answer reader out.old)
        (end_leaves reader out.old) }
{
    let ended = edges::end(reader, out);
    print_answer(ended, out)
}
