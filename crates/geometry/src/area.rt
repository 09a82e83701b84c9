//! What every area answers, whatever its kind, and the pair of two areas.
ghost use Rattle.geometry.specs.Points.{Point};
ghost use Rattle.geometry.specs.Areas.{Answered};
ghost use Rattle.motions.specs.Model.{row_of};

use motions::motion::Motion;

/// An area stands for a set of points, and answers whether a motion lies in it.
pub trait Area {
    /// The points of the area.
    ghost contains: { Self → Point → Type 0 };

    /// Whether every point of the motion is in the area: with every no comes a point of the motion that is not.
    fn admits(&self, motion: &Motion) -> bool
        ensures { Answered result (contains self.now) (row_of motion.now) };
}

/// The points that lie in both of two areas.
#[derive(Clone, Copy, Drop)]
pub struct Pair<A, B> {
    pub first: A,
    pub second: B,
}

impl<A: Area, B: Area> Area for Pair<A, B> {
    ghost contains = { λ s p. A.Area.contains s.first p × B.Area.contains s.second p };

    fn admits(&self, motion: &Motion) -> bool {
        self.first.admits(motion) && self.second.admits(motion)
    }
}
