// A line gathered from pieces of a text, up to as many characters as tell that it is over-long.
ghost use Rattle.std.specs.Prelude.{◌≡◌, ◌+◌, length};
ghost use Rattle.basic_laws.specs.Laid.{laid};
ghost use Rattle.sessions.specs.Gathering.{fitting, taken, taken_leaves};

// As much of a line as tells that it is over-long: one character more than it may have.
pub const MOST_HELD: usize = 81;

// What came of a part of a line.
#[derive(Clone, Copy)]
pub struct Gathered {
    // how many characters of the line are held
    pub held: usize,
    // whether its feed has come
    pub whole: bool,
    // the place behind what was taken of the piece
    pub next: usize,
}

// Characters behind those that are held, while there is room.
fn hold(line: &mut [u8], held: usize, chars: &[u8]) -> usize
    ensures answer { result ≡ held + length (fitting line.old held chars.now) }
    ensures written { line.new
        ≡ laid line.old held (fitting line.old held chars.now) }
{
    if line.len() <= held {
        return held;
    }
    let count = chars.len().min(line.len() - held);
    let end = held + count;
    line[held..end].copy_from_slice(&chars[..count]);
    end
}

// The line that goes on at a place of a piece, up to and with its feed or to the end of the piece. Past
// the end there is nothing to take.
pub fn take_line(line: &mut [u8], held: usize, piece: &[u8], at: usize) -> Gathered
    ensures answer { result ≡ taken line.old held piece.now at }
    ensures written { line.new ≡ taken_leaves line.old held piece.now at }
{
    if piece.len() <= at {
        return Gathered {
            held,
            whole: false,
            next: at,
        };
    }
    let end = text::line_end(piece, at);
    let after = hold(line, held, &piece[at..end]);
    if end < piece.len() {
        return Gathered {
            held: after,
            whole: true,
            next: end + 1,
        };
    }
    Gathered {
        held: after,
        whole: false,
        next: end,
    }
}
