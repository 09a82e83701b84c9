//! A motion is made from a row that passes the check, and gives that row back.
ghost use Rattle.std.specs.Prelude.{◌≡◌, None};
ghost use Rattle.motions.specs.Motions.{arc_in_range, centre_in_range, row_in_range, keeps_arc_rule, fault};
ghost use Rattle.motions.specs.Model.{row_of, Remade};

use super::Motion;
use crate::ranges::{CENTRE_RANGE, POSITION_RANGE, Ranged};
use crate::refusal::Reason;
use crate::row::{Arc, PathKind, Row};

impl Arc {
    fn in_range(&self) -> bool
        ensures value { result ≡ arc_in_range self.now }
    {
        self.centre.u.within(CENTRE_RANGE) && self.centre.v.within(CENTRE_RANGE)
    }
}

impl Row {
    fn centre_in_range(&self) -> bool
        ensures value { result ≡ centre_in_range self.now.kind }
    {
        match &self.kind {
            PathKind::Rapid | PathKind::Line => true,
            PathKind::Arc(arc) => arc.in_range(),
        }
    }

    fn in_range(&self) -> bool
        ensures value { result ≡ row_in_range self.now }
    {
        self.start.within(POSITION_RANGE)
            && self.end.within(POSITION_RANGE)
            && self.centre_in_range()
    }

    fn keeps_arc_rule(&self) -> bool
        ensures value { result ≡ keeps_arc_rule self.now }
    {
        match &self.kind {
            PathKind::Rapid | PathKind::Line => true,
            PathKind::Arc(arc) => arc.closes(&self.start, &self.end),
        }
    }
}

impl Motion {
    /// The motion with the numbers of a row; refused where one of them is out of range, or else where an arc breaks the arc rule.
    pub fn from_row(row: &Row) -> Result<Motion, Reason>
        ensures value { Remade row.now result }
    {
        if !row.in_range() {
            return Err(Reason::MotionRange);
        }
        if !row.keeps_arc_rule() {
            return Err(Reason::ArcRule);
        }
        Ok(Motion { row: *row })
    }

    /// The motion's numbers, of which the same motion can be made again.
    pub fn row(&self) -> Row
        ensures value { result ≡ row_of self.now }
        ensures remade { fault result ≡ None }
    {
        self.row
    }
}
