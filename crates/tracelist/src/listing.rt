//! How a listing writes the motions of a trace.
ghost use Rattle.std.specs.Prelude.{◌≡◌, [], ◌∷◌, Some};
ghost use Rattle.motions.specs.Model.{row_of};
ghost use Rattle.tracelist.specs.Letters.{letter_of, point, centre_of, listed};

use algebra::vector::Vector;
use motions::axes::{Axes, Position};
use motions::row::{PathKind, Row, Turn};
use rules::run::Made;
use std::fmt;

/// A kind of motion, written by its letter: R for a rapid, L for a line, A for a counterclockwise and C for a clockwise arc.
#[derive(Clone, Copy)]
struct Letter(PathKind);

impl fmt::Display for Letter {
    ghost output = { λ k. Some (letter_of k.0 ∷ []) };

    fn fmt<W: fmt::Write>(&self, f: &mut fmt::Formatter<W>) -> fmt::Result {
        f.write_str(match self.0 {
            PathKind::Rapid => "R",
            PathKind::Line => "L",
            PathKind::Arc(arc) => match arc.turn {
                Turn::Counterclockwise => "A",
                Turn::Clockwise => "C",
            },
        })
    }
}

/// A position, written as its numbers, a blank between each two.
#[derive(Clone, Copy)]
struct Point(Position);

impl fmt::Display for Point {
    ghost output = { λ p. Some (point p.0) };

    fn fmt<W: fmt::Write>(&self, f: &mut fmt::Formatter<W>) -> fmt::Result {
        let Axes { x, y, z } = self.0;
        write!(f, "{x} {y} {z}")
    }
}

/// The centre of an arc, written with a blank before each number; of the other kinds nothing is written.
#[derive(Clone, Copy)]
struct Centre(PathKind);

impl fmt::Display for Centre {
    ghost output = { λ k. Some (centre_of k.0) };

    fn fmt<W: fmt::Write>(&self, f: &mut fmt::Formatter<W>) -> fmt::Result {
        match self.0 {
            PathKind::Rapid | PathKind::Line => Ok(()),
            PathKind::Arc(arc) => {
                let Vector { u, v } = arc.centre;
                write!(f, " {u} {v}")
            }
        }
    }
}

/// A motion of a trace, written as its line, the letter of its kind, its end, and the centre of an arc.
#[derive(Clone, Copy)]
pub(crate) struct Listed {
    line: usize,
    row: Row,
}

impl Listed {
    /// A motion that a run made.
    pub(crate) fn of(made: &Made) -> Listed
        ensures line { result.line ≡ made.now.line }
        ensures row { result.row ≡ row_of made.now.motion }
    {
        Listed {
            line: made.line,
            row: made.motion.row(),
        }
    }
}

impl fmt::Display for Listed {
    ghost output = { λ m. Some (listed m.line m.row) };

    fn fmt<W: fmt::Write>(&self, f: &mut fmt::Formatter<W>) -> fmt::Result {
        let line = self.line;
        let letter = Letter(self.row.kind);
        let end = Point(self.row.end);
        let centre = Centre(self.row.kind);
        write!(f, "{line} {letter} {end}{centre}")
    }
}
