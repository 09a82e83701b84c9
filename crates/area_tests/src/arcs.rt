//! Arcs against boxes and edges, at limits that they just keep and just pass.
use crate::making::{arc, at, edge, from_to};
use geometry::area::{Area, Pair};
use motions::axes::{Axis, Plane};
use motions::row::Turn;
use std::test::Fail;

// The rightmost point lies at 100000 + 70000·√2 = 198994.949…
#[test]
fn circle_between_two_micrometres(rt: HostRuntime) -> Result<(), Fail> {
    let through = at(170_000, 170_000, 0);
    let left = arc(
        Plane::XY,
        Turn::Counterclockwise,
        through,
        through,
        100_000,
        100_000,
    )?;
    let right = arc(
        Plane::XY,
        Turn::Clockwise,
        through,
        through,
        100_000,
        100_000,
    )?;
    let wide = from_to(Axis::X, None, Some(198_995))?;
    let tight = from_to(Axis::X, None, Some(198_994))?;
    assert!(rt; wide.admits(&left) && wide.admits(&right));
    assert!(rt; !tight.admits(&left) && !tight.admits(&right));
    Ok(())
}

// A quarter keeps to the first quadrant; the three quarters of the other way round leave it.
#[test]
fn quarter_and_its_other_way_round(rt: HostRuntime) -> Result<(), Fail> {
    let start = at(100_000, 0, 0);
    let end = at(0, 100_000, 0);
    let quarter = arc(Plane::XY, Turn::Counterclockwise, start, end, 0, 0)?;
    let rest = arc(Plane::XY, Turn::Clockwise, start, end, 0, 0)?;
    let quadrant = Pair {
        first: from_to(Axis::X, Some(0), None)?,
        second: from_to(Axis::Y, Some(0), None)?,
    };
    assert!(rt; quadrant.admits(&quarter) && !quadrant.admits(&rest));
    Ok(())
}

#[test]
fn circle_touches_a_wall(rt: HostRuntime) -> Result<(), Fail> {
    let through = at(200_000, 100_000, 0);
    let circle = arc(
        Plane::XY,
        Turn::Clockwise,
        through,
        through,
        100_000,
        100_000,
    )?;
    assert!(rt; from_to(Axis::X, Some(0), Some(200_000))?.admits(&circle));
    assert!(rt; !from_to(Axis::X, Some(1), None)?.admits(&circle));
    assert!(rt; !from_to(Axis::X, None, Some(199_999))?.admits(&circle));
    Ok(())
}

// The circle of radius 5 reaches 5·√2 = 7.07… along the two axes of its plane together.
#[test]
fn circle_in_each_plane_against_a_slanted_edge(rt: HostRuntime) -> Result<(), Fail> {
    let xy = arc(
        Plane::XY,
        Turn::Counterclockwise,
        at(3, 4, 10),
        at(3, 4, 10),
        0,
        0,
    )?;
    assert!(rt; edge(1, 1, 0, 8)?.admits(&xy) && !edge(1, 1, 0, 7)?.admits(&xy));
    assert!(rt; edge(1, 1, 1, 18)?.admits(&xy) && !edge(1, 1, 1, 17)?.admits(&xy));
    let zx = arc(
        Plane::ZX,
        Turn::Counterclockwise,
        at(3, 10, 4),
        at(3, 10, 4),
        0,
        0,
    )?;
    assert!(rt; edge(1, 0, 1, 8)?.admits(&zx) && !edge(1, 0, 1, 7)?.admits(&zx));
    assert!(rt; edge(1, 1, 1, 18)?.admits(&zx) && !edge(1, 1, 1, 17)?.admits(&zx));
    let yz = arc(Plane::YZ, Turn::Clockwise, at(10, 3, 4), at(10, 3, 4), 0, 0)?;
    assert!(rt; edge(0, 1, 1, 8)?.admits(&yz) && !edge(0, 1, 1, 7)?.admits(&yz));
    assert!(rt; edge(1, 1, 1, 18)?.admits(&yz) && !edge(1, 1, 1, 17)?.admits(&yz));
    Ok(())
}

// A short arc of radius √61·10⁶ about the farthest centre: X + Y reaches √122·10⁶ − 8·10⁶ = 3045361.017…
#[test]
fn widest_arc(rt: HostRuntime) -> Result<(), Fail> {
    let start = at(2_000_000, 1_000_000, 0);
    let end = at(1_000_000, 2_000_000, 0);
    let short = arc(
        Plane::XY,
        Turn::Counterclockwise,
        start,
        end,
        -4_000_000,
        -4_000_000,
    )?;
    assert!(rt;
        edge(1, 1, 0, 3_045_362)?.admits(&short) && !edge(1, 1, 0, 3_045_361)?.admits(&short)
    );
    assert!(rt;
        from_to(Axis::X, None, Some(2_000_000))?.admits(&short)
            && !from_to(Axis::X, None, Some(1_999_999))?.admits(&short)
    );
    let long = arc(
        Plane::XY,
        Turn::Clockwise,
        start,
        end,
        -4_000_000,
        -4_000_000,
    )?;
    assert!(rt; !from_to(Axis::X, None, Some(2_000_000))?.admits(&long));
    assert!(rt;
        !edge(100, 100, 0, 304_536_101)?.admits(&short)
            && edge(100, 100, 0, 304_536_102)?.admits(&short)
    );
    Ok(())
}

#[test]
fn half_circle_up_to_a_limit_at_its_ends(rt: HostRuntime) -> Result<(), Fail> {
    let start = at(10, 0, 0);
    let end = at(-10, 0, 0);
    let above = arc(Plane::XY, Turn::Counterclockwise, start, end, 0, 0)?;
    let below = arc(Plane::XY, Turn::Clockwise, start, end, 0, 0)?;
    assert!(rt;
        from_to(Axis::Y, Some(0), None)?.admits(&above)
            && !from_to(Axis::Y, Some(0), None)?.admits(&below)
    );
    assert!(rt;
        from_to(Axis::Y, None, Some(0))?.admits(&below)
            && !from_to(Axis::Y, None, Some(0))?.admits(&above)
    );
    assert!(rt; !from_to(Axis::Y, Some(1), None)?.admits(&above));
    Ok(())
}

// The start lies on the limit, and every other point beyond it.
#[test]
fn circle_from_the_point_farthest_from_the_limit(rt: HostRuntime) -> Result<(), Fail> {
    let start = at(-10, 0, 0);
    let circle = arc(Plane::XY, Turn::Counterclockwise, start, start, 0, 0)?;
    assert!(rt; !from_to(Axis::X, None, Some(-10))?.admits(&circle));
    assert!(rt; !from_to(Axis::X, None, Some(9))?.admits(&circle));
    assert!(rt; from_to(Axis::X, None, Some(10))?.admits(&circle));
    Ok(())
}
