//! An arc about the origin against a half plane, decided on whole numbers.
ghost use Rattle.std.specs.Prelude.{◌≡◌};
ghost use Rattle.algebra.specs.Plane.{stays as stays_is, side as side_is};
ghost use Rattle.geometry.specs.Sizes.{Posed};

use algebra::number::product_is_positive;
use algebra::vector::Vector;

/// The arc from `start` to `end`, counterclockwise about the origin, and the half plane normal·x ≤ limit.
/// They are seen from a centre in range, so none of the sums is too large to compute.
#[derive(Clone, Copy, Drop)]
pub(crate) struct ArcAndHalfPlane {
    pub(crate) start: Vector,
    pub(crate) end: Vector,
    pub(crate) normal: Vector,
    pub(crate) limit: i128,
    ghost posed: { Posed start end normal limit },
}

impl ArcAndHalfPlane {
    /// The number whose sign tells on which side of the chord the mirrored point lies.
    fn side(self) -> i128
        ensures value { result ≡ side_is self.start self.end self.normal self.limit }
    {
        let radius = self.start.dot(self.start);
        let slope = self.normal.dot(self.normal);
        let at_start = self.normal.dot(self.start);
        let ahead = self.end.dot(self.start) - radius;
        let climb = self.normal.dot(self.end) - at_start;
        let gauge = radius * slope - self.limit * at_start;
        let gap = self.limit - at_start;
        (gauge + gap * slope) * ahead + (gauge + gap * radius) * climb
    }

    /// Whether the arc stays in the half plane.
    // A hint to LLVM: the arc and the half plane then need not be laid down in memory to be handed over.
    #[inline(always)]
    pub(crate) fn stays(self) -> bool
        ensures value { result ≡ stays_is self.start self.end self.normal self.limit }
    {
        let limit = self.limit;
        let at_start = self.normal.dot(self.start);
        if at_start > limit {
            return false;
        }
        if self.normal.dot(self.end) > limit {
            return false;
        }
        if at_start + limit < 0 {
            return self.start.cross(self.end) > 0;
        }
        if limit * limit < self.start.dot(self.start) * self.normal.dot(self.normal) {
            let mirrored = self.side();
            return product_is_positive(self.start.cross(self.normal), mirrored);
        }
        true
    }
}
