//! Where the motion of a line ends.
ghost use Rattle.std.specs.Prelude.{◌≡◌, ◌<◌, ◌^◌};
ghost use Rattle.motions.specs.Axes.{coordinate};
ghost use Rattle.motions.specs.Ranges.{position_range};
ghost use Rattle.rules.specs.Moves.{zero_of, goal_of, end_of};
ghost use Rattle.rules.specs.Model.{each_in_reach, in_reach as within_reach};

use crate::paths::Standing;
use crate::state::{Frame, Measure, Named, Slot, Zeros};
use motions::axes::{Axes, Axis, Position};
use motions::ranges::{POSITION_RANGE, Ranged};
use sums::amount::Amount;

/// The zero point that counts.
fn zero(zeros: &Zeros, slot: Slot) -> Axes<i32>
    ensures value { result ≡ zero_of zeros.now slot }
{
    match slot {
        Slot::G500 => Axes::alike(0),
        Slot::G54 => zeros.g54,
        Slot::G55 => zeros.g55,
        Slot::G56 => zeros.g56,
        Slot::G57 => zeros.g57,
    }
}

/// Where one axis goes, in range or not.
fn goal(measure: Measure, from: i32, zero: i32, shift: Amount, value: Option<Amount>) -> i64
    ensures value { result ≡ goal_of measure from zero shift value }
{
    match (value, measure) {
        (None, _) => i64::from(from),
        (Some(v), Measure::Absolute) => i64::from(v) + (i64::from(zero) + i64::from(shift)),
        (Some(v), Measure::Incremental) => i64::from(from) + i64::from(v),
    }
}

/// A number, if it lies from -bound to bound.
pub(crate) fn in_reach(bound: u32, number: i64) -> Option<i32>
    ensures value { bound < 2 ^ 31 → result ≡ within_reach bound number }
{
    i32::try_from(number).ok().filter(|near| near.within(bound))
}

impl Standing<'_> {
    /// Where one axis goes, if it stays in range.
    fn reach(&self, axis: Axis, frame: &Frame, values: &Named<Amount>) -> Option<i32>
        ensures value { result ≡ within_reach position_range (coordinate axis (end_of self.now.functions.now.measure frame.now self.now.zeros.now self.now.at values.now)) }
    {
        let zero = zero(self.zeros, frame.slot);
        let goal = goal(
            self.functions.measure,
            self.at.along(axis),
            zero.along(axis),
            frame.shift.along(axis),
            values.along(axis),
        );
        in_reach(POSITION_RANGE, goal)
    }

    /// Where the motion of a line ends, if each axis stays in range.
    pub(crate) fn end(&self, frame: &Frame, values: &Named<Amount>) -> Option<Position>
        ensures value { result ≡ each_in_reach (end_of self.now.functions.now.measure frame.now self.now.zeros.now self.now.at values.now) }
    {
        let x = self.reach(Axis::X, frame, values)?;
        let y = self.reach(Axis::Y, frame, values)?;
        let z = self.reach(Axis::Z, frame, values)?;
        Some(Axes { x, y, z })
    }
}
