//! A box asks each of its limits as an edge whose normal is the direction of an axis.
ghost use Rattle.std.specs.Prelude.{◌≡◌};
ghost use Rattle.geometry.specs.Areas.{InBox};
ghost use Rattle.geometry.specs.Deciding.{limit_on, keeps_limit, keeps_axis, keeps_box};
ghost use Rattle.geometry.specs.Model.{limits_of};
ghost use Rattle.motions.specs.Model.{row_of};

use super::LimitBox;
use super::side::Side;
use crate::area::Area;
use crate::edge::Edge;
use motions::axes::{Axes, Axis};
use motions::motion::Motion;

impl LimitBox {
    /// The limit of an axis on a side.
    fn limit(&self, side: Side, axis: Axis) -> Option<i32>
        ensures value { result ≡ limit_on side axis (limits_of self.now) }
    {
        match side {
            Side::Lower => self.limits.lower.along(axis),
            Side::Upper => self.limits.upper.along(axis),
        }
    }

    /// Whether a motion keeps that limit, where there is one.
    fn keeps_limit(&self, side: Side, axis: Axis, motion: &Motion) -> bool
        ensures value { result ≡ keeps_limit side axis (limit_on side axis (limits_of self.now)) (row_of motion.now) }
    {
        match self.limit(side, axis) {
            None => true,
            Some(limit) => {
                let factor = side.factor();
                let edge = Edge {
                    normal: Axes::alike(0).with(axis, factor),
                    limit: factor * limit,
                };
                edge.keeps(motion)
            }
        }
    }

    /// Whether it keeps both limits of an axis.
    fn keeps_axis(&self, axis: Axis, motion: &Motion) -> bool
        ensures value { result ≡ keeps_axis (limits_of self.now) axis (row_of motion.now) }
    {
        self.keeps_limit(Side::Lower, axis, motion) && self.keeps_limit(Side::Upper, axis, motion)
    }

    /// Whether it keeps all limits.
    fn keeps(&self, motion: &Motion) -> bool
        ensures value { result ≡ keeps_box (limits_of self.now) (row_of motion.now) }
    {
        self.keeps_axis(Axis::X, motion)
            && self.keeps_axis(Axis::Y, motion)
            && self.keeps_axis(Axis::Z, motion)
    }
}

impl Area for LimitBox {
    ghost contains = { λ b p. InBox (limits_of b) p };

    fn admits(&self, motion: &Motion) -> bool {
        self.keeps(motion)
    }
}
