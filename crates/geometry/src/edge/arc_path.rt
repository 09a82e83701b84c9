//! An arc with its ends, and how they are seen from its centre.
ghost use Rattle.std.specs.Prelude.{◌≡◌, true};
ghost use Rattle.algebra.specs.Sizes.{Short};
ghost use Rattle.motions.specs.Motions.{arm, arc_in_range};
ghost use Rattle.motions.specs.Ranges.{each_within, position_range};

use algebra::vector::Vector;
use motions::axes::Position;
use motions::row::Arc;

/// An arc from its start to its end, all numbers in range.
#[derive(Clone, Copy, Drop)]
pub(crate) struct ArcPath {
    pub(crate) arc: Arc,
    pub(crate) start: Position,
    pub(crate) end: Position,
    ghost centre_ranged: { arc_in_range arc ≡ true },
    ghost start_ranged: { each_within position_range start ≡ true },
    ghost end_ranged: { each_within position_range end ≡ true },
}

impl ArcPath {
    /// From the arc's centre to its start and to its end, in the arc's plane.
    pub(crate) fn arms(&self) -> (Vector, Vector)
        ensures start { result.0 ≡ arm self.now.arc self.now.start }
        ensures end { result.1 ≡ arm self.now.arc self.now.end }
        ensures start_size { Short 6000000 result.0 }
        ensures end_size { Short 6000000 result.1 }
    {
        let centre = self.arc.centre;
        let start = self.arc.plane.flat(&self.start);
        let end = self.arc.plane.flat(&self.end);
        (
            Vector {
                u: start.u - centre.u,
                v: start.v - centre.v,
            },
            Vector {
                u: end.u - centre.u,
                v: end.v - centre.v,
            },
        )
    }
}
