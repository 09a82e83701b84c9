//! What a line asks for.
ghost use Rattle.std.specs.Prelude.{◌≡◌, ℕ, List, ◌∷◌, OnSome};
ghost use Rattle.std.specs.Result.{result_ok};
ghost use Rattle.pathcheck.specs.Fields.{fields};
ghost use Rattle.pathcheck.specs.Said.{Taken, letter_of, command_of, number_at, plane_from, position_at, centre_at, straight_of, curve_of, said as said_by};

use crate::field::{Fields, number};
use algebra::vector::Vector;
use motions::axes::{Axes, Plane, Position};
use motions::row::{Arc, PathKind, Turn};

/// The letter that opens a line.
#[derive(Clone, Copy, Drop)]
pub enum Command {
    /// R, a rapid, or L, a line: an end follows.
    Straight(PathKind),
    /// A, counterclockwise, or C, clockwise: a plane, an end and a centre follow.
    Curve(Turn),
}

/// A byte that is the letter of no command.
#[derive(Clone, Copy, Drop)]
pub struct NoCommand;

impl TryFrom<u8> for Command {
    type Error = NoCommand;

    ghost try_from_gives = { λ byte r. result_ok r ≡ letter_of byte };

    fn try_from(byte: u8) -> Result<Command, NoCommand> {
        match byte {
            b'R' => Ok(Command::Straight(PathKind::Rapid)),
            b'L' => Ok(Command::Straight(PathKind::Line)),
            b'A' => Ok(Command::Curve(Turn::Counterclockwise)),
            b'C' => Ok(Command::Curve(Turn::Clockwise)),
            _ => Err(NoCommand),
        }
    }
}

/// A motion that is asked for, from wherever the machine stands.
#[derive(Clone, Copy, Drop)]
pub struct Asked {
    pub kind: PathKind,
    pub end: Position,
}

/// The command that a field spells.
fn opening(field: &[u8]) -> Option<Command>
    ensures value { result ≡ command_of field.now }
{
    match field {
        [letter] => Command::try_from(*letter).ok(),
        _ => None,
    }
}

impl Fields<'_> {
    /// The number in the next field.
    fn next_number(&mut self) -> Option<i32>
        ensures value { result ≡ number_at (fields self.old.0.now) 0 }
        ensures taken { OnSome result (Taken 1 (fields self.old.0.now) (fields self.new.0.now)) }
    {
        number(self.next()?)
    }

    /// The plane in the next field.
    fn next_plane(&mut self) -> Option<Plane>
        ensures value { result ≡ plane_from (number_at (fields self.old.0.now) 0) }
        ensures taken { OnSome result (Taken 1 (fields self.old.0.now) (fields self.new.0.now)) }
    {
        let number = self.next_number()?;
        Plane::try_from(u32::try_from(number).ok()?).ok()
    }

    /// The position in the next three fields.
    fn next_position(&mut self) -> Option<Position>
        ensures value { result ≡ position_at (fields self.old.0.now) 0 }
        ensures taken { OnSome result (Taken 3 (fields self.old.0.now) (fields self.new.0.now)) }
    {
        let x = self.next_number()?;
        let y = self.next_number()?;
        let z = self.next_number()?;
        Some(Axes { x, y, z })
    }

    /// The centre in the next two fields.
    fn next_centre(&mut self) -> Option<Vector>
        ensures value { result ≡ centre_at (fields self.old.0.now) 0 }
        ensures taken { OnSome result (Taken 2 (fields self.old.0.now) (fields self.new.0.now)) }
    {
        let u = self.next_number()?;
        let v = self.next_number()?;
        Some(Vector { u, v })
    }
}

/// What R or L asks for, where an end and no more follows.
fn straight(kind: PathKind, mut left: Fields<'_>) -> Option<Asked>
    ensures value { (f : List ℕ) → result ≡ straight_of kind (f ∷ fields left.entry.0.now) }
{
    let end = left.next_position()?;
    left.next().is_none().then_some(Asked { kind, end })
}

/// What A or C asks for, where a plane, an end and a centre and no more follow.
fn curve(turn: Turn, mut left: Fields<'_>) -> Option<Asked>
    ensures value { (f : List ℕ) → result ≡ curve_of turn (f ∷ fields left.entry.0.now) }
{
    let plane = left.next_plane()?;
    let end = left.next_position()?;
    let centre = left.next_centre()?;
    let kind = PathKind::Arc(Arc {
        plane,
        turn,
        centre,
    });
    left.next().is_none().then_some(Asked { kind, end })
}

/// The motion that a line asks for, where it is of the form.
pub fn said(line: &[u8]) -> Option<Asked>
    ensures value { result ≡ said_by line.now }
{
    let mut left = Fields(line);
    match opening(left.next()?)? {
        Command::Straight(kind) => straight(kind, left),
        Command::Curve(turn) => curve(turn, left),
    }
}
