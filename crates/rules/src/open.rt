//! The repeats that are open.
ghost use Rattle.std.specs.Prelude.{◌≤◌};

use crate::state::Repeat;

pub(crate) mod changing;

/// How many repeats are open at most.
pub(crate) const MOST_REPEATS: usize = 8;

/// No further repeat can be opened.
#[derive(Clone, Copy, Debug, PartialEq, Eq)]
pub(crate) struct Full;

/// The open repeats, the last one opened at `used - 1`.
// An array and a count: a run is Copy and asks for no memory, so neither a Vec nor the kit's arrayvec serves.
#[derive(Clone, Copy, Drop)]
pub(crate) struct OpenRepeats {
    rows: [Repeat; MOST_REPEATS],
    used: usize,
    ghost few: { used ≤ 8 },
}
