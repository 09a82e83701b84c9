//! The limits of a box, as they are handed in.
use crate::axes::Axes;

/// A lower and an upper limit for each axis, in whole micrometres; an absent one sets no limit on its side.
#[derive(Clone, Copy, Drop, PartialEq, Eq)]
pub struct Limits {
    pub lower: Axes<Option<i32>>,
    pub upper: Axes<Option<i32>>,
}
