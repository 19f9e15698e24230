// The words of a line.
ghost use Rattle.std.specs.Prelude.{◌≡◌, length};
ghost use Rattle.lines.specs.Words.{words_of, word_of};

use text::SPACE;

// How many words a line has: one more than it has spaces.
pub fn count(line: &[u8]) -> usize
    ensures answer { result ≡ length (words_of line.now) }
{
    line.split(|c| *c == SPACE).count()
}

// Word k, counted from 0; the empty word where there is none.
pub fn word(line: &[u8], k: usize) -> &[u8]
    ensures answer { result.now ≡ word_of (words_of line.now) k }
{
    line.split(|c| *c == SPACE).nth(k).unwrap_or(&[])
}
