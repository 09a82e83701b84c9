//! A box: the points between limits, any of which may be absent.
ghost use Rattle.std.specs.Prelude.{◌≡◌, true};
ghost use Rattle.geometry.specs.Settings.{box_taken};

use motions::limits::Limits;

pub mod asking;
mod making;
mod side;

/// The points from the lower to the upper limit of each axis, limits counted. An absent limit admits every coordinate on its side.
#[derive(Clone, Copy, Drop)]
pub struct LimitBox {
    limits: Limits,
    ghost taken: { box_taken limits ≡ true },
}
