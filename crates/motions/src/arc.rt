//! Arcs seen from their centres.
ghost use Rattle.std.specs.Prelude.{◌≡◌};
ghost use Rattle.motions.specs.Motions.{square as square_of, closes as closes_is};

use crate::axes::Position;
use crate::row::Arc;

impl Arc {
    /// The square distance of a position from the centre, in the arc's plane. At this width it fits for all numbers, in range or not.
    fn square(&self, position: &Position) -> i128
        ensures value { result ≡ square_of self.now position.now }
    {
        let at = self.plane.flat(position);
        let u = i128::from(at.u) - i128::from(self.centre.u);
        let v = i128::from(at.v) - i128::from(self.centre.v);
        u * u + v * v
    }

    /// Whether an arc from `start` to `end` keeps the arc rule.
    pub(crate) fn closes(&self, start: &Position, end: &Position) -> bool
        ensures value { result ≡ closes_is self.now start.now end.now }
    {
        let third = self.plane.w();
        let square = self.square(start);
        start.along(third) == end.along(third) && square == self.square(end) && 0 < square
    }
}
