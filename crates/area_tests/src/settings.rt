//! What rows, boxes, edges and homes are taken, and what they give back.
use crate::making::{at, from_to, motion};
use algebra::vector::Vector;
use geometry::area::Area;
use geometry::edge::Edge;
use geometry::limit_box::LimitBox;
use motions::axes::{Axes, Axis, Plane, Position};
use motions::home::Home;
use motions::limits::Limits;
use motions::motion::Motion;
use motions::refusal::Reason;
use motions::row::{Arc, PathKind, Row, Turn};
use std::test::Fail;

/// The number of the reason for which a row is refused, if it is.
fn refused(row: &Row) -> Option<u8> {
    Motion::from_row(row).err().map(Reason::number)
}

#[test]
fn row_comes_back(rt: HostRuntime) -> Result<(), Fail> {
    let centre = Vector { u: 0, v: 0 };
    let kind = PathKind::Arc(Arc {
        plane: Plane::YZ,
        turn: Turn::Clockwise,
        centre,
    });
    let row = Row {
        kind,
        start: at(7, 3, 4),
        end: at(7, -4, 3),
    };
    assert!(rt; motion(kind, row.start, row.end)?.row() == row);
    Ok(())
}

/// A line from one position to another.
fn line(start: Position, end: Position) -> Row {
    Row {
        kind: PathKind::Line,
        start,
        end,
    }
}

/// A clockwise arc in the plane XY about a centre with u = 0.
fn arc(start: Position, end: Position, v: i32) -> Row {
    let centre = Vector { u: 0, v };
    let kind = PathKind::Arc(Arc {
        plane: Plane::XY,
        turn: Turn::Clockwise,
        centre,
    });
    Row { kind, start, end }
}

#[test]
fn rows_out_of_range(rt: HostRuntime) {
    assert_eq!(rt; refused(&line(at(0, 0, 0), at(0, 2_000_001, 0))), Some(4));
    assert_eq!(rt; refused(&line(at(0, 0, -2_000_001), at(0, 0, 0))), Some(4));
    assert_eq!(rt; refused(&line(at(0, 0, 0), at(0, 0, -2_000_000))), None);
    assert_eq!(rt; refused(&arc(at(0, 1, 0), at(0, 2, 5), 4_000_001)), Some(4));
}

#[test]
fn rows_that_break_the_arc_rule(rt: HostRuntime) {
    assert_eq!(rt; refused(&arc(at(0, 5, 0), at(3, 4, 0), 0)), None);
    assert_eq!(rt; refused(&arc(at(0, 5, 0), at(3, 4, 1), 0)), Some(5));
    assert_eq!(rt; refused(&arc(at(0, 5, 0), at(3, 5, 0), 0)), Some(5));
    assert_eq!(rt; refused(&arc(at(0, 0, 0), at(0, 0, 0), 0)), Some(5));
}

#[test]
fn settings_out_of_range(rt: HostRuntime) {
    assert!(rt; Edge::new(at(100, -100, 0), -1_000_000_000).is_ok());
    assert!(rt; Edge::new(at(0, 0, 0), 5).is_err() && Edge::new(at(101, 0, 0), 5).is_err());
    assert!(rt; Edge::new(at(1, 0, 0), 1_000_000_001).is_err());
    assert!(rt;
        Home::new(at(2_000_000, -2_000_000, 0)).is_ok() && Home::new(at(0, 0, -2_000_001)).is_err()
    );
    let none = Axes::alike(None);
    let far = none.with(Axis::Y, Some(-2_000_001));
    assert!(rt;
        LimitBox::new(Limits {
            lower: none,
            upper: none,
        })
        .is_ok()
    );
    assert!(rt;
        LimitBox::new(Limits {
            lower: far,
            upper: none,
        })
        .is_err()
    );
    assert!(rt;
        LimitBox::new(Limits {
            lower: none,
            upper: far,
        })
        .is_err()
    );
}

// A box whose lower limit lies above its upper one is taken, and admits nothing.
#[test]
fn empty_box(rt: HostRuntime) -> Result<(), Fail> {
    let still = motion(PathKind::Rapid, at(0, 0, 0), at(0, 0, 0))?;
    assert!(rt;
        !from_to(Axis::X, Some(1), Some(-1))?.admits(&still)
            && from_to(Axis::X, None, None)?.admits(&still)
    );
    Ok(())
}
