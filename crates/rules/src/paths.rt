//! The motion that a line of words makes.
ghost use Rattle.std.specs.Prelude.{◌≡◌};
ghost use Rattle.motions.specs.Ranges.{centre_range};
ghost use Rattle.rules.specs.Moves.{centre_along as centre_along_is, centre_of, kind_of, misplaced as misplaced_by, framed as framed_by, counted};
ghost use Rattle.rules.specs.State.{no_frame};
ghost use Rattle.rules.specs.Model.{in_reach as within_reach, centre_in_reach, kind_in_reach, row_in_reach, row_at, misplaced_at, Judged};

use crate::ends::in_reach;
use crate::functions::framed;
use crate::state::{Frame, Functions, Interpolation, Named, Zeros};
use algebra::vector::Vector;
use forms::said::Words;
use motions::axes::{Axis, Position};
use motions::motion::Motion;
use motions::ranges::CENTRE_RANGE;
use motions::refusal::Reason;
use motions::row::{Arc, PathKind, Row};
use sums::amount::Amount;

/// What a line's motion is made from beside its words and the zero and shift record.
#[derive(Clone, Copy, Drop)]
pub(crate) struct Standing<'a> {
    /// The functions in force.
    pub(crate) functions: &'a Functions,
    /// The zero points.
    pub(crate) zeros: &'a Zeros,
    /// Where the tool stands.
    pub(crate) at: Position,
}

impl Standing<'_> {
    /// One coordinate of an arc's centre, the start's and what I, J or K adds to it, if it is in range.
    fn centre_along(&self, axis: Axis, centres: &Named<Amount>) -> Option<i32>
        ensures value { result ≡ within_reach centre_range (centre_along_is axis self.now.at centres.now) }
    {
        let step = centres.along(axis).map_or(0, i64::from);
        in_reach(CENTRE_RANGE, i64::from(self.at.along(axis)) + step)
    }

    /// The centre of an arc, if it is in range.
    fn centre(&self, centres: &Named<Amount>) -> Option<Vector>
        ensures value { result ≡ centre_in_reach (centre_of self.now.functions.now.plane self.now.at centres.now) }
    {
        let plane = self.functions.plane;
        let u = self.centre_along(plane.u(), centres)?;
        let v = self.centre_along(plane.v(), centres)?;
        Some(Vector { u, v })
    }

    /// How the line gets from its start to its end, if the centre of an arc is in range.
    fn kind(&self, centres: &Named<Amount>) -> Option<PathKind>
        ensures value { result ≡ kind_in_reach (kind_of self.now.functions.now.interpolation self.now.functions.now.plane self.now.at centres.now) }
    {
        match self.functions.interpolation {
            Interpolation::Rapid => Some(PathKind::Rapid),
            Interpolation::Line => Some(PathKind::Line),
            Interpolation::Arc(turn) => {
                let centre = self.centre(centres)?;
                Some(PathKind::Arc(Arc {
                    plane: self.functions.plane,
                    turn,
                    centre,
                }))
            }
        }
    }

    /// Whether I, J or K stands where none belongs.
    fn misplaced(&self, centres: &Named<Amount>) -> bool
        ensures value { result ≡ misplaced_by self.now.functions.now.interpolation self.now.functions.now.plane centres.now }
    {
        match self.functions.interpolation {
            Interpolation::Rapid | Interpolation::Line => !centres.is_empty(),
            Interpolation::Arc(_) => centres.along(self.functions.plane.w()).is_some(),
        }
    }

    /// The numbers of the line's motion, if its end and centre are in range.
    fn row(&self, frame: &Frame, words: &Words<Amount>) -> Option<Row>
        ensures value { result ≡ row_in_reach (row_at self.now frame.now words.now) }
    {
        let end = self.end(frame, &words.axes)?;
        let kind = self.kind(&words.centres)?;
        Some(Row {
            kind,
            start: self.at,
            end,
        })
    }

    /// The line's motion from where the tool stands, or why it makes none.
    fn motion(&self, frame: &Frame, words: &Words<Amount>) -> Result<Motion, Reason>
        ensures value { Judged (misplaced_at self.now words.now) (row_at self.now frame.now words.now) result }
    {
        let row = self.row(frame, words).ok_or(Reason::MotionRange)?;
        let motion = Motion::from_row(&row)?;
        if self.misplaced(&words.centres) {
            return Err(Reason::ArcRule);
        }
        Ok(motion)
    }

    /// The motion of a line with G53: zero and shift count as 0, and stand again after it.
    fn bare_motion(&self, frame: &mut Frame, words: &Words<Amount>) -> Result<Motion, Reason>
        ensures value { Judged (misplaced_at self.now words.now) (row_at self.now no_frame words.now) result }
        ensures stands { frame.new ≡ frame.old }
    {
        let saved = *frame;
        let guard = Zeroed { held: frame, saved };
        *guard.held = Frame::NONE;
        self.motion(guard.held, words)
    }

    /// The motion of a line whose functions are in force, or why it makes none; the zero and shift record stands after it.
    pub(crate) fn line_motion(
        &self,
        frame: &mut Frame,
        words: &Words<Amount>,
    ) -> Result<Motion, Reason>
        ensures value { Judged (misplaced_at self.now words.now) (row_at self.now (counted words.now (framed_by words.now frame.old)) words.now) result }
        ensures stands { frame.new ≡ frame.old }
    {
        if words.groups.g53 {
            return self.bare_motion(frame, words);
        }
        self.motion(&framed(words, *frame), words)
    }
}

/// Counts zero and shift as 0 for as long as it lives, and then puts back what stood there.
struct Zeroed<'a> {
    held: &'a mut Frame,
    saved: Frame,
}

impl Drop for Zeroed<'_> {
    fn drop(self)
        ensures back { self.exit.0.now ≡ self.entry.saved }
    {
        *self.held = self.saved;
        let Zeroed { held: _, saved: _ } = self;
    }
}
