//! The lines of a text, and the limits of a text.
ghost use Rattle.std.specs.Prelude.{◌≡◌, ◌+◌, ◌-◌, ◌≤◌, ◌&&◌, nat_le, length, drop};
ghost use Rattle.std.specs.Iterator.{YieldsFirstBy, at_most};
ghost use Rattle.std.specs.List.{prefix_len};
ghost use Rattle.reading.specs.Lines.{in_line, lines_of, all_short, limits, bytes_of, placed, placed_line, lines_left};

use crate::line::TextLine;
use crate::program::MOST_LINES;
use lexer::cursor::Cursor;

/// How many bytes tell whether a text is too large: one more than it may have.
pub const ENOUGH: u64 = 65_537;

/// How many bytes a text has at most.
const MOST_BYTES: usize = 65_536;

/// How many bytes a line has at most.
const LINE_BYTES: usize = 512;

/// What ends a line.
const LINE_END: u8 = b'\n';

/// Where the line that begins at a place ends.
// A text and a place, as `code_end` has them: no token is read here, so the cursor cuts the text and is gone.
fn line_end(text: &[u8], from: usize) -> usize
    ensures value { result ≡ from + prefix_len in_line (drop from text.now) }
    ensures low { from ≤ result }
    ensures inside { from ≤ length text.now → result ≤ length text.now }
{
    let rest = Cursor {
        line: text,
        at: from,
    }
    .rest();
    from + rest.iter().take_while(|b| **b != LINE_END).count()
}

/// The lines of a text from a place on, one after the other.
#[derive(Drop)]
pub(crate) struct Lines<'t> {
    text: &'t [u8],
    from: usize,
}

impl<'t> Lines<'t> {
    /// All lines of a text.
    pub(crate) fn of(text: &'t [u8]) -> Lines<'t>
        ensures value { lines_left result ≡ placed text.now }
    {
        Lines { text, from: 0 }
    }
}

impl<'t> Iterator for Lines<'t> {
    type Item = TextLine<'t>;

    ghost next_gives = { YieldsFirstBy placed_line lines_left };

    ghost remaining = { λ it. at_most (length it.text.now - it.from) };

    /// A line end after the last byte opens no line.
    fn next(&mut self) -> Option<TextLine<'t>> {
        let text = self.text;
        let from = self.from;
        if from >= text.len() {
            return None;
        }
        let end = line_end(text, from);
        self.from = end + 1;
        Some(TextLine { text, from, end })
    }
}

impl TextLine<'_> {
    /// How many bytes the line has.
    fn len(self) -> usize
        ensures value { result ≡ length (bytes_of self.entry) }
    {
        self.end - self.from
    }

    /// Whether the line has no byte too many.
    fn is_short(self) -> bool
        ensures value { result ≡ nat_le (length (bytes_of self.entry)) 512 }
    {
        self.len() <= LINE_BYTES
    }
}

/// Whether a text has no line too many, and no line of it a byte too many.
// One walk over the text, which ends where the first line too many or too long does.
fn each_fits(text: &[u8]) -> bool
    ensures value { result ≡ (nat_le (length (lines_of text.now)) 2000 && all_short (lines_of text.now)) }
{
    Lines::of(text)
        .enumerate()
        .all(|(before, line)| before < MOST_LINES && line.is_short())
}

/// Whether a text is within its three limits.
pub fn within_limits(text: &[u8]) -> bool
    ensures value { result ≡ limits text.now }
{
    text.len() <= MOST_BYTES && each_fits(text)
}
