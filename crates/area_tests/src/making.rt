//! Helpers of the tests: motions, boxes and edges from bare numbers.
use algebra::vector::Vector;
use geometry::edge::Edge;
use geometry::limit_box::LimitBox;
use motions::axes::{Axes, Axis, Plane, Position};
use motions::limits::Limits;
use motions::motion::Motion;
use motions::row::{Arc, PathKind, Row, Turn};
use std::test::Fail;

pub(crate) fn at(x: i32, y: i32, z: i32) -> Position {
    Axes { x, y, z }
}

/// The motion of a row that keeps the rules.
pub(crate) fn motion(kind: PathKind, start: Position, end: Position) -> Result<Motion, Fail> {
    Motion::from_row(&Row { kind, start, end }).map_err(|_| Fail::new("the row makes no motion"))
}

/// An arc from start to end about a centre in its plane.
pub(crate) fn arc(
    plane: Plane,
    turn: Turn,
    start: Position,
    end: Position,
    u: i32,
    v: i32,
) -> Result<Motion, Fail> {
    motion(
        PathKind::Arc(Arc {
            plane,
            turn,
            centre: Vector { u, v },
        }),
        start,
        end,
    )
}

/// The box that has only limits for one axis.
pub(crate) fn from_to(axis: Axis, low: Option<i32>, high: Option<i32>) -> Result<LimitBox, Fail> {
    let none = Axes::alike(None);
    LimitBox::new(Limits {
        lower: none.with(axis, low),
        upper: none.with(axis, high),
    })
    .map_err(|_| Fail::new("the limits are refused"))
}

pub(crate) fn edge(a: i32, b: i32, c: i32, d: i32) -> Result<Edge, Fail> {
    Edge::new(at(a, b, c), d).map_err(|_| Fail::new("the edge is refused"))
}
