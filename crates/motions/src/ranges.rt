//! The ranges of the numbers that are handed in, and the tests of them.
ghost use Rattle.std.specs.Prelude.{◌≡◌, ℕ, Bool};
ghost use Rattle.motions.specs.Ranges.{within as is_within, each, present};

use crate::axes::Axes;

/// Of a position's coordinates and a box's limits, in micrometres on both sides of 0.
pub const POSITION_RANGE: u32 = 2_000_000;

/// Of the coordinates of an arc's centre, likewise.
pub const CENTRE_RANGE: u32 = 4_000_000;

/// Of an edge's factors.
pub const FACTOR_RANGE: u32 = 100;

/// Of an edge's limit.
pub const EDGE_RANGE: u32 = 1_000_000_000;

/// What can be tested against a range that reaches equally far on both sides of 0.
pub trait Ranged {
    /// Whether a value lies in the range up to a bound.
    ghost lies: { ℕ → Self → Bool };

    /// Whether the value lies from -bound to bound.
    fn within(&self, bound: u32) -> bool
        ensures value { result ≡ lies bound self.now };
}

impl Ranged for i32 {
    ghost lies = { λ b z. is_within b z };

    fn within(&self, bound: u32) -> bool {
        let bound = i64::from(bound);
        let number = i64::from(*self);
        -bound <= number && number <= bound
    }
}

/// What is absent lies in every range.
impl<T: Ranged> Ranged for Option<T> {
    ghost lies = { λ b o. present (T.lies b) o };

    fn within(&self, bound: u32) -> bool {
        match self {
            None => true,
            Some(value) => value.within(bound),
        }
    }
}

/// Of three values, each lies in the range.
impl<T: Ranged> Ranged for Axes<T> {
    ghost lies = { λ b t. each (T.lies b) t };

    fn within(&self, bound: u32) -> bool {
        self.x.within(bound) && self.y.within(bound) && self.z.within(bound)
    }
}
