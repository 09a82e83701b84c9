//! What a program holds.
ghost use Rattle.std.specs.Prelude.{◌≡◌, ◌≤◌, length, map, take, pos, Some};
ghost use Rattle.std.specs.Option.{option_map};
ghost use Rattle.sums.specs.Sums.{total};
ghost use Rattle.sums.specs.Model.{value_is};
ghost use Rattle.forms.specs.Numbered.{numbered};
ghost use Rattle.reading.specs.Reading.{said, held_text, held_lines};

use crate::program::{Held, Program};
use sums::amount::Amount;
use sums::parameters::Parameters;
use sums::reading::worth;
use sums::value::Value;

impl<'t> Program<'t> {
    /// The text that was read.
    pub fn text(&self) -> &'t [u8]
        ensures value { result.now ≡ held_text self.now }
    {
        self.text
    }

    /// What its lines say, one after the other.
    pub fn lines(&self) -> &[Held]
        ensures value { map (said (held_text self.now)) result.now ≡ held_lines self.now }
    {
        &self.lines
    }

    /// How many lines it has.
    pub fn count(&self) -> usize
        ensures value { result ≡ length (held_lines self.now) }
        ensures few { result ≤ 2000 }
    {
        self.lines.len()
    }

    /// The line with a number, counted from 1.
    pub fn line(&self, number: usize) -> Option<Held>
        ensures value { option_map (said (held_text self.now)) result ≡ numbered (held_lines self.now) number }
    {
        let before = number.checked_sub(1)?;
        self.lines.get(before).copied()
    }

    /// The text up to the end of a line's code, in which what the line holds has its places.
    pub fn up_to(&self, line: Held) -> &'t [u8]
        ensures value { result.now ≡ take line.end (held_text self.now) }
    {
        &self.text[..line.end.min(self.text.len())]
    }

    /// What a value that a line holds is worth; nothing where a partial result is beyond the range.
    pub fn worth(&self, line: Held, v: Value, params: &Parameters) -> Option<Amount>
        ensures value { result ≡ total params.now.values (Some (pos 0)) (value_is (take line.end (held_text self.now)) v) }
    {
        worth(self.up_to(line), v, params)
    }
}
