// Lines of a text.
ghost use Rattle.std.specs.Prelude.{◌≡◌, ◌+◌, ◌==◌, ◌≤◌, length, drop, position};
ghost use Rattle.basic_laws.specs.Same.{same};
ghost use Rattle.text.specs.Lines.{line_feed, feed_at, first_line, lines_of, width};

use crate::LINE_FEED;

fn first_feed(s: &[u8]) -> Option<usize>
    ensures { result ≡ position (λ c. c == line_feed) s.now }
{
    s.iter().position(|&c| c == LINE_FEED)
}

fn before_feed(s: &[u8]) -> usize
    ensures count { result ≡ feed_at s.now }
    ensures within { result ≤ length s.now }
{
    first_feed(s).unwrap_or(s.len())
}

// Where the line that starts at a place ends: at its feed, or at the end of the data. Past the end it
// is the place itself.
pub fn line_end(s: &[u8], at: usize) -> usize
    ensures answer { result ≡ at + feed_at (drop at s.now) }
{
    if s.len() < at {
        return at;
    }
    at + before_feed(&s[at..])
}

// The place behind the line that starts at a place. Past the end it is the place itself.
pub fn line_behind(s: &[u8], at: usize) -> usize
    ensures answer { result ≡ at + width (first_line (drop at s.now)) }
{
    let end = line_end(s, at);
    if end < s.len() { end + 1 } else { end }
}

// How many lines a text has.
pub fn count_lines(s: &[u8]) -> usize
    ensures answer { result ≡ length (lines_of s.now) }
{
    let mut at: usize = 0;
    let mut count: usize = 0;
    while at < s.len() {
        at = line_behind(s, at);
        count += 1;
    }
    count
}

// Whether two texts are the same.
pub fn same(a: &[u8], b: &[u8]) -> bool
    ensures answer { result ≡ same a.now b.now }
{
    a == b
}
