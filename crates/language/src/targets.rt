//! Entering the targets of a program's lines into two indexes.
ghost use Rattle.std.specs.Prelude.{◌≡◌, OnOk};
ghost use Rattle.std.specs.Option.{option_map};
ghost use Rattle.index.specs.Entries.{SameRoom};
ghost use Rattle.reading.specs.Reading.{said, held_lines};
ghost use Rattle.language.specs.Indexing.{place_of, room_of, put, enter_line, enter_all, rooms_of, answer, Left, SameRooms, Whole};

use crate::names::within_line;
use forms::said::Place;
use index::index::Index;
use index::key::Key;
use motions::refusal::{Reason, Refusal};
use reading::program::{Held, Program};

/// Two indexes over lent rooms, for the N numbers and for the labels of a program's lines.
#[derive(Drop)]
pub struct Targets<'r> {
    pub numbers: Index<'r, u32>,
    pub labels: Index<'r, Place>,
}

impl Targets<'_> {
    /// Enters the targets of all lines in their order. Where one finds no place its line is refused, and what was entered before stays.
    pub fn enter(&mut self, program: &Program<'_>) -> Result<(), Refusal>
        ensures entered { Left self.new result (enter_all (held_lines program.now) (room_of self.old.numbers) (room_of self.old.labels)) }
        ensures whole { OnOk result (self.old.numbers.used ≡ 0 → self.old.labels.used ≡ 0 → Whole (held_lines program.now) self.new) }
        ensures same { SameRooms self.old self.new }
    {
        for (held, number) in program.lines().iter().zip(1..) {
            self.enter_line(program.text(), *held, number)?;
        }
        Ok(())
    }

    /// Enters the targets of a line: its N number, and then its label.
    fn enter_line(&mut self, text: &[u8], held: Held, line: usize) -> Result<(), Refusal>
        ensures entered { Left self.new result (enter_line line (said text.now held) (rooms_of self.old)) }
        ensures same { SameRooms self.old self.new }
    {
        enter_one(&mut self.numbers, held.line.number, line)?;
        enter_one(&mut self.labels, label_place(text, held), line)
    }
}

/// Enters a target of a line, if it has that one.
fn enter_one<K: Key>(
    index: &mut Index<'_, K>,
    target: Option<K>,
    line: usize,
) -> Result<(), Refusal>
    ensures room { room_of index.new ≡ (put target line (room_of index.old)).room }
    ensures answer { result ≡ answer (put target line (room_of index.old)).full }
    ensures same { SameRoom index.old index.new }
{
    let Some(key) = target else {
        return Ok(());
    };
    index
        .enter(key, line)
        .map_err(|_| Refusal::of_line(Reason::IndexRoom, line))
}

/// Where the label of a line stands in the text.
fn label_place(text: &[u8], held: Held) -> Option<Place>
    ensures value { result ≡ option_map place_of (said text.now held).label }
{
    held.line
        .label
        .map(|place| within_line(text, held.end, place))
}
