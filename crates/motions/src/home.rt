//! The position where the machine stands at first.
ghost use Rattle.std.specs.Prelude.{◌≡◌, true};
ghost use Rattle.motions.specs.Settings.{home_taken};

use crate::axes::Position;

mod making;

/// A home: a position in range.
#[derive(Clone, Copy, Drop)]
pub struct Home {
    position: Position,
    ghost taken: { home_taken position ≡ true },
}
