//! A box is made from limits in range.
ghost use Rattle.std.specs.Prelude.{◌≡◌};
ghost use Rattle.geometry.specs.Model.{limits_of};
ghost use Rattle.geometry.specs.Settings.{box_taken, with_limit};
ghost use Rattle.motions.specs.Ranges.{present_within, position_range};
ghost use Rattle.motions.specs.Settings.{Taken};

use super::LimitBox;
use motions::axes::Axis;
use motions::limits::Limits;
use motions::ranges::{POSITION_RANGE, Ranged};
use motions::refusal::Refusal;

/// The limits with one of them changed.
// `upper` stays a bool, as callers hand it: a `Side` would first be made of that bool, by one more `if`.
fn with_limit(upper: bool, axis: Axis, limit: Option<i32>, limits: Limits) -> Limits
    ensures value { result ≡ with_limit upper axis limit limits }
{
    if upper {
        Limits {
            upper: limits.upper.with(axis, limit),
            ..limits
        }
    } else {
        Limits {
            lower: limits.lower.with(axis, limit),
            ..limits
        }
    }
}

impl LimitBox {
    /// The box with these limits; refused where one is out of range. A lower limit above its upper one is taken: no point lies in that box.
    pub fn new(limits: Limits) -> Result<LimitBox, Refusal>
        ensures value { Taken (box_taken limits) (λ b. limits_of b ≡ limits) result }
    {
        if limits.lower.within(POSITION_RANGE) && limits.upper.within(POSITION_RANGE) {
            Ok(LimitBox { limits })
        } else {
            Err(Refusal::setting())
        }
    }

    /// The box with one limit changed, or taken away; refused where the new one is out of range.
    pub fn with(&self, upper: bool, axis: Axis, limit: Option<i32>) -> Result<LimitBox, Refusal>
        ensures value { Taken (present_within position_range limit) (λ b. limits_of b ≡ with_limit upper axis limit (limits_of self.now)) result }
    {
        if !limit.within(POSITION_RANGE) {
            return Err(Refusal::setting());
        }
        let limits = with_limit(upper, axis, limit, self.limits);
        Ok(LimitBox { limits })
    }

    /// The box's limits.
    pub fn limits(&self) -> Limits
        ensures value { result ≡ limits_of self.now }
    {
        self.limits
    }
}
