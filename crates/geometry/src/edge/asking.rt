//! An edge decides on whole numbers whether a motion lies in it.
ghost use Rattle.std.specs.Prelude.{◌≡◌, int_le};
ghost use Rattle.geometry.specs.Areas.{rise as rise_of, InEdge};
ghost use Rattle.geometry.specs.Deciding.{higher as higher_of, corner as corner_of, centre_rise, keeps_arc, keeps as keeps_is};
ghost use Rattle.geometry.specs.Model.{normal_of, limit_of};
ghost use Rattle.motions.specs.Model.{row_of};

use super::Edge;
use super::arc_path::ArcPath;
use crate::area::Area;
use crate::half_plane::ArcAndHalfPlane;
use algebra::number::product;
use motions::axes::{Axes, Position};
use motions::motion::Motion;
use motions::row::{PathKind, Turn};

/// a·X + b·Y + c·Z at a position.
fn rise(normal: &Axes<i32>, at: &Position) -> i128
    ensures value { result ≡ rise_of normal.now at.now }
{
    i128::from(product(normal.x, at.x))
        + i128::from(product(normal.y, at.y))
        + i128::from(product(normal.z, at.z))
}

/// That of two coordinates at which the factor times it is larger.
fn higher(factor: i32, a: i32, b: i32) -> i32
    ensures value { result ≡ higher_of factor a b }
{
    if factor > 0 { a.max(b) } else { a.min(b) }
}

/// Of the box between two positions, the corner at which the rise is largest.
fn corner(normal: &Axes<i32>, start: &Position, end: &Position) -> Position
    ensures value { result ≡ corner_of normal.now start.now end.now }
{
    Axes {
        x: higher(normal.x, start.x, end.x),
        y: higher(normal.y, start.y, end.y),
        z: higher(normal.z, start.z, end.z),
    }
}

impl Edge {
    /// Whether a position lies in the edge.
    fn holds(&self, at: &Position) -> bool
        ensures value { result ≡ int_le (rise_of (normal_of self.now) at.now) (limit_of self.now) }
    {
        rise(&self.normal, at) <= i128::from(self.limit)
    }

    /// The rise at an arc's centre, at the level of its start.
    fn centre_rise(&self, path: &ArcPath) -> i128
        ensures value { result ≡ centre_rise path.now.arc path.now.start (normal_of self.now) }
    {
        let plane = path.arc.plane;
        let third = plane.w();
        let level = product(self.normal.along(third), path.start.along(third));
        plane.flat(&self.normal).dot(path.arc.centre) + i128::from(level)
    }

    /// Whether an arc stays in the edge, seen in its plane from its centre.
    fn keeps_arc(&self, path: &ArcPath) -> bool
        ensures value { result ≡ keeps_arc (normal_of self.now) (limit_of self.now) path.now.arc path.now.start path.now.end }
    {
        let limit = i128::from(self.limit) - self.centre_rise(path);
        let normal = path.arc.plane.flat(&self.normal);
        let (from, to) = path.arms();
        match path.arc.turn {
            Turn::Counterclockwise => ArcAndHalfPlane {
                start: from,
                end: to,
                normal,
                limit,
            }
            .stays(),
            Turn::Clockwise => ArcAndHalfPlane {
                start: to,
                end: from,
                normal,
                limit,
            }
            .stays(),
        }
    }

    /// Whether a motion stays in the edge.
    // A hint to LLVM: a box asks up to six edges of the same motion, and then reads its numbers once.
    #[inline(always)]
    pub(crate) fn keeps(&self, motion: &Motion) -> bool
        ensures value { result ≡ keeps_is (normal_of self.now) (limit_of self.now) (row_of motion.now) }
    {
        let row = motion.row();
        match row.kind {
            PathKind::Rapid => self.holds(&corner(&self.normal, &row.start, &row.end)),
            PathKind::Line => self.holds(&row.start) && self.holds(&row.end),
            PathKind::Arc(arc) => self.keeps_arc(&ArcPath {
                arc,
                start: row.start,
                end: row.end,
            }),
        }
    }
}

impl Area for Edge {
    ghost contains = { λ e p. InEdge (normal_of e) (limit_of e) p };

    fn admits(&self, motion: &Motion) -> bool {
        self.keeps(motion)
    }
}
