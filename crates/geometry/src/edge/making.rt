//! An edge is made from numbers in range.
ghost use Rattle.std.specs.Prelude.{◌≡◌};
ghost use Rattle.geometry.specs.Model.{normal_of, limit_of};
ghost use Rattle.geometry.specs.Settings.{edge_taken};
ghost use Rattle.motions.specs.Settings.{Taken};

use super::Edge;
use motions::axes::Axes;
use motions::ranges::{EDGE_RANGE, FACTOR_RANGE, Ranged};
use motions::refusal::Refusal;

impl Edge {
    /// The edge a·X + b·Y + c·Z ≤ limit, where `normal` has a, b and c; refused where a number is out of range or all three are 0.
    pub fn new(normal: Axes<i32>, limit: i32) -> Result<Edge, Refusal>
        ensures value { Taken (edge_taken normal limit) (λ e. (normal_of e ≡ normal) × (limit_of e ≡ limit)) result }
    {
        if normal.within(FACTOR_RANGE) && normal != Axes::alike(0) && limit.within(EDGE_RANGE) {
            Ok(Edge { normal, limit })
        } else {
            Err(Refusal::setting())
        }
    }
}
