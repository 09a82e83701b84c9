//! The functions of a line of words come into force.
ghost use Rattle.std.specs.Prelude.{◌≡◌};
ghost use Rattle.rules.specs.Moves.{in_force, framed as framed_by, stops as stops_at};

use crate::state::{Frame, Functions};
use forms::said::Words;
use sums::amount::Amount;

/// The functions with those that the line sets.
pub(crate) fn in_force(words: &Words<Amount>, functions: Functions) -> Functions
    ensures value { result ≡ in_force words.now functions }
{
    Functions {
        interpolation: words.groups.motion.unwrap_or(functions.interpolation),
        plane: words.groups.plane.unwrap_or(functions.plane),
        measure: words.groups.measure.unwrap_or(functions.measure),
        watched: words.area.unwrap_or(functions.watched),
    }
}

/// The zero and shift record with the zero point that the line chooses.
pub(crate) fn framed(words: &Words<Amount>, frame: Frame) -> Frame
    ensures value { result ≡ framed_by words.now frame }
{
    Frame {
        slot: words.groups.zero.unwrap_or(frame.slot),
        ..frame
    }
}

/// Whether the line ends the run: M2 or M30.
pub(crate) fn stops(action: Option<u32>) -> bool
    ensures value { result ≡ stops_at action }
{
    // An M number may have any two digits, and only these two mean something here
    matches!(action, Some(2 | 30))
}
