//! An edge: a half space, all that lies on one side of a plane.
ghost use Rattle.std.specs.Prelude.{◌≡◌, true};
ghost use Rattle.geometry.specs.Settings.{edge_taken};

use motions::axes::Axes;

mod arc_path;
pub mod asking;
mod making;

/// The points with a·X + b·Y + c·Z ≤ d: `normal` has a, b and c, not all 0, and `limit` is d.
#[derive(Clone, Copy, Drop)]
pub struct Edge {
    pub(crate) normal: Axes<i32>,
    pub(crate) limit: i32,
    ghost taken: { edge_taken normal limit ≡ true },
}
