//! What holds in a run until it is set again: plain data.
pub use forms::said::{Interpolation, Measure, Named, Slot};
use motions::axes::{Axes, Plane};
use sums::amount::Amount;

/// The functions in force; `watched` is whether the working area is on.
#[derive(Clone, Copy, Drop, PartialEq, Eq)]
pub struct Functions {
    pub interpolation: Interpolation,
    pub plane: Plane,
    pub measure: Measure,
    pub watched: bool,
}

/// The zero and shift record: what is added to a value under G90.
#[derive(Clone, Copy, Drop, PartialEq, Eq)]
pub struct Frame {
    pub slot: Slot,
    pub shift: Axes<Amount>,
}

impl Frame {
    /// No zero and no shift.
    pub const NONE: Frame = Frame {
        slot: Slot::G500,
        shift: Axes {
            x: Amount::ZERO,
            y: Amount::ZERO,
            z: Amount::ZERO,
        },
    };
}

/// The zero points of the four slots, in whole micrometres.
#[derive(Clone, Copy, Drop, PartialEq, Eq)]
pub struct Zeros {
    pub g54: Axes<i32>,
    pub g55: Axes<i32>,
    pub g56: Axes<i32>,
    pub g57: Axes<i32>,
}

/// An open repeat: its line, and the rounds that are left.
#[derive(Clone, Copy, Drop, PartialEq, Eq)]
pub struct Repeat {
    pub line: usize,
    pub left: u32,
}
