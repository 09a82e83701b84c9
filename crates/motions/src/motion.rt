//! A motion that keeps its rules as long as it exists.
ghost use Rattle.std.specs.Prelude.{◌≡◌, true};
ghost use Rattle.motions.specs.Motions.{row_in_range, keeps_arc_rule};

use crate::row::Row;

mod making;

/// A motion: its numbers, with the promise that they are in range and that an arc keeps the arc rule.
#[derive(Clone, Copy, Drop)]
pub struct Motion {
    row: Row,
    ghost ranged: { row_in_range row ≡ true },
    ghost closed: { keeps_arc_rule row ≡ true },
}
