//! A motion's bare numbers. They promise nothing: `Motion` is made from them after a check.
use crate::axes::{Plane, Position};
use algebra::vector::Vector;

/// The way round of an arc: counterclockwise turns the plane's first axis towards its second.
#[derive(Clone, Copy, Drop, PartialEq, Eq)]
pub enum Turn {
    Counterclockwise,
    Clockwise,
}

/// What an arc has beside its start and end: its plane, its way round and its centre in that plane.
#[derive(Clone, Copy, Drop, PartialEq, Eq)]
pub struct Arc {
    pub plane: Plane,
    pub turn: Turn,
    pub centre: Vector,
}

/// How a motion gets from its start to its end.
#[derive(Clone, Copy, Drop, PartialEq, Eq)]
pub enum PathKind {
    /// Each axis on its own: the tool may pass anywhere in the box between start and end.
    Rapid,
    /// Straight.
    Line,
    /// Along a circle.
    Arc(Arc),
}

/// A motion's bare numbers, all in whole micrometres.
#[derive(Clone, Copy, Drop, PartialEq, Eq)]
pub struct Row {
    pub kind: PathKind,
    pub start: Position,
    pub end: Position,
}
