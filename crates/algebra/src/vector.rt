//! Vectors of a plane.
ghost use Rattle.std.specs.Prelude.{◌≡◌, ◌^◌};
ghost use Rattle.algebra.specs.Sizes.{Bounded};
ghost use Rattle.algebra.specs.Plane.{dot as dot_of, cross as cross_of};

use crate::number::product;

/// A vector with whole components along the plane's two axes.
#[derive(Clone, Copy, Drop, PartialEq, Eq)]
pub struct Vector {
    pub u: i32,
    pub v: i32,
}

impl Vector {
    /// The inner product: the product of the lengths and the cosine of the angle between.
    pub fn dot(self, other: Vector) -> i128
        ensures value { result ≡ dot_of self other }
        ensures bound { Bounded (2 ^ 64) result }
    {
        i128::from(product(self.u, other.u)) + i128::from(product(self.v, other.v))
    }

    /// The signed area that the two span: above 0 where `other` lies counterclockwise of `self`.
    pub fn cross(self, other: Vector) -> i128
        ensures value { result ≡ cross_of self other }
        ensures bound { Bounded (2 ^ 64) result }
    {
        i128::from(product(self.u, other.v)) - i128::from(product(self.v, other.u))
    }
}
