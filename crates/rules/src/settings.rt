//! G25 and G26 set limits of the working area, TRANS and ATRANS the shift.
ghost use Rattle.std.specs.Prelude.{◌≡◌};
ghost use Rattle.std.specs.Option.{option_map};
ghost use Rattle.geometry.specs.Model.{limits_of};
ghost use Rattle.rules.specs.Steps.{limit_on, new_limits, added as added_to, shifted as shifted_by};

use crate::ends::in_reach;
use crate::state::Named;
use geometry::limit_box::LimitBox;
use motions::axes::{Axes, Axis};
use motions::ranges::POSITION_RANGE;
use sums::amount::Amount;

/// The area with the limit of one axis, if the line names it; nothing where it is out of range.
fn limited(area: LimitBox, upper: bool, axis: Axis, value: Option<Amount>) -> Option<LimitBox>
    ensures value { option_map limits_of result ≡ limit_on upper axis value (limits_of area) }
{
    let Some(v) = value else {
        return Some(area);
    };
    let limit = in_reach(POSITION_RANGE, i64::from(v))?;
    area.with(upper, axis, Some(limit)).ok()
}

/// The area with the limits that the line names on one side; nothing where one is out of range.
pub(crate) fn new_limits(area: LimitBox, upper: bool, values: &Named<Amount>) -> Option<LimitBox>
    ensures value { option_map limits_of result ≡ new_limits upper values.now (limits_of area) }
{
    let area = limited(area, upper, Axis::X, values.x)?;
    let area = limited(area, upper, Axis::Y, values.y)?;
    limited(area, upper, Axis::Z, values.z)
}

/// One axis of a shift, and what the line adds to it; nothing where it is then out of range.
fn added(old: Amount, value: Option<Amount>) -> Option<Amount>
    ensures value { result ≡ added_to old value }
{
    match value {
        None => Some(old),
        Some(v) => old.checked_add(v),
    }
}

/// A shift, and what the line adds to it; nothing where it is then out of range.
pub(crate) fn shifted(old: Axes<Amount>, values: &Named<Amount>) -> Option<Axes<Amount>>
    ensures value { result ≡ shifted_by old values.now }
{
    let x = added(old.x, values.x)?;
    let y = added(old.y, values.y)?;
    let z = added(old.z, values.z)?;
    Some(Axes { x, y, z })
}
