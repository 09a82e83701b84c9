//! Reading a text into a program.
ghost use Rattle.std.specs.Prelude.{◌≡◌, ◌≤◌, true, [], map, IfOk, None, vec_len, vec_capacity};
ghost use Rattle.std.specs.Option.{option_map};
ghost use Rattle.forms.specs.Forms.{line_at};
ghost use Rattle.reading.specs.Lines.{lines_of, limits, bytes_of, placed_line};
ghost use Rattle.reading.specs.Reading.{lines as whole, formless, read_lines, bad, said, held_text, held_lines, Read};

use crate::line::TextLine;
use crate::lines::{Lines, within_limits};
use crate::program::{Held, MOST_LINES, Program};
use forms::line::line_at;
use lexer::code::code_end;
use lexer::cursor::Cursor;
use motions::refusal::{Reason, Refusal};
use std::alloc::{AllocError, Global};

impl TextLine<'_> {
    /// What the line says, if it has a form.
    fn held(self) -> Option<Held>
        ensures value { line_at self.entry.from (bytes_of self.entry) ≡ option_map (said self.entry.text.now) result }
    {
        let code = code_end(&self.text[..self.end], self.from);
        let line = line_at(Cursor {
            line: &self.text[..code],
            at: self.from,
        })?;
        Some(Held { end: code, line })
    }

    /// Whether the line has no form.
    fn is_bad(self) -> bool
        ensures value { result ≡ formless (placed_line self.entry) }
    {
        self.held().is_none()
    }
}

/// The number of the first line of no form, if there is one.
fn first_bad(text: &[u8]) -> Option<usize>
    ensures value { result ≡ bad (read_lines 1 0 (lines_of text.now)) }
{
    let before = Lines::of(text).position(|line| line.is_bad())?;
    Some(before + 1)
}

/// Puts the lines of a text, each of which has a form, in the place of those that were there.
// The field alone is lent here, so the program's two facts about it are asked and given back.
fn fill(lines: &mut Vec<Held>, text: &[u8])
    requires room { 2000 ≤ vec_capacity lines.old }
    requires fits { limits text.now ≡ true }
    ensures value { bad (read_lines 1 0 (lines_of text.now)) ≡ None → read_lines 1 0 (lines_of text.now) ≡ whole (map (said text.now) lines.new.items) }
    ensures room { 2000 ≤ vec_capacity lines.new }
    ensures few { vec_len lines.new ≤ 2000 }
{
    lines.clear();
    for line in Lines::of(text) {
        if let Some(held) = line.held() {
            lines.push_reserved(held);
        }
    }
}

impl<'t> Program<'t> {
    /// The program of the empty text, with room for the lines of any.
    pub fn new(heap: Global) -> Result<Program<'t>, AllocError>
        ensures made { IfOk result (λ p. (held_text p ≡ []) × (held_lines p ≡ [])) }
    {
        let lines = Vec::with_capacity(heap, MOST_LINES)?;
        Ok(Program { text: b"", lines })
    }

    /// Reads a text in the place of the one before, or says why it cannot and leaves the program as it was.
    pub fn read(&mut self, text: &'t [u8]) -> Result<(), Refusal>
        ensures value { Read text.now self.old self.new result }
    {
        if !within_limits(text) {
            return Err(Refusal::of_line(Reason::TextSize, 0));
        }
        if let Some(line) = first_bad(text) {
            return Err(Refusal::of_line(Reason::LineForm, line));
        }
        fill(&mut self.lines, text);
        self.text = text;
        Ok(())
    }
}
