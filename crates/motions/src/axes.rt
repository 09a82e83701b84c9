//! The machine's three axes, a value for each, and the three planes.
ghost use Rattle.std.specs.Prelude.{◌≡◌};
ghost use Rattle.motions.specs.Axes.{coordinate, alike, set_on, none_named, u_axis, v_axis, w_axis, flat as flat_of, Chosen};

use algebra::vector::Vector;

/// A machine axis.
#[derive(Clone, Copy, Drop, PartialEq, Eq)]
pub enum Axis {
    X,
    Y,
    Z,
}

/// A value for each axis.
#[derive(Clone, Copy, Drop, PartialEq, Eq)]
pub struct Axes<T> {
    pub x: T,
    pub y: T,
    pub z: T,
}

/// Where the tool stands, in whole micrometres.
pub type Position = Axes<i32>;

impl<T: Copy> Axes<T> {
    /// The same value for each axis.
    pub fn alike(value: T) -> Axes<T>
        ensures value { result ≡ alike value }
    {
        Axes {
            x: value,
            y: value,
            z: value,
        }
    }

    /// These, with a value for one axis in the place of what was there.
    pub fn with(self, axis: Axis, value: T) -> Axes<T>
        ensures value { result ≡ set_on axis value self }
    {
        match axis {
            Axis::X => Axes { x: value, ..self },
            Axis::Y => Axes { y: value, ..self },
            Axis::Z => Axes { z: value, ..self },
        }
    }

    /// The value for one axis.
    pub fn along(&self, axis: Axis) -> T
        ensures value { result ≡ coordinate axis self.now }
    {
        match axis {
            Axis::X => self.x,
            Axis::Y => self.y,
            Axis::Z => self.z,
        }
    }
}

impl<T: Copy> Axes<Option<T>> {
    /// Whether no axis has a value.
    pub fn is_empty(&self) -> bool
        ensures value { result ≡ none_named self.now }
    {
        self.x.is_none() && self.y.is_none() && self.z.is_none()
    }
}

/// The plane in which an arc lies.
#[derive(Clone, Copy, Drop, PartialEq, Eq)]
pub enum Plane {
    /// G17
    XY,
    /// G18
    ZX,
    /// G19
    YZ,
}

/// A number of a G function that chooses no plane.
#[derive(Clone, Copy, Debug, PartialEq, Eq)]
pub struct NoPlane(pub u32);

impl TryFrom<u32> for Plane {
    type Error = NoPlane;

    ghost try_from_gives = { Chosen };

    fn try_from(g: u32) -> Result<Plane, NoPlane> {
        match g {
            17 => Ok(Plane::XY),
            18 => Ok(Plane::ZX),
            19 => Ok(Plane::YZ),
            _ => Err(NoPlane(g)),
        }
    }
}

impl Plane {
    /// The axis that a counterclockwise turn leaves.
    pub fn u(self) -> Axis
        ensures value { result ≡ u_axis self }
    {
        match self {
            Plane::XY => Axis::X,
            Plane::ZX => Axis::Z,
            Plane::YZ => Axis::Y,
        }
    }

    /// The axis that a counterclockwise turn goes to.
    pub fn v(self) -> Axis
        ensures value { result ≡ v_axis self }
    {
        match self {
            Plane::XY => Axis::Y,
            Plane::ZX => Axis::X,
            Plane::YZ => Axis::Z,
        }
    }

    /// The third axis, which the plane leaves out.
    pub fn w(self) -> Axis
        ensures value { result ≡ w_axis self }
    {
        match self {
            Plane::XY => Axis::Z,
            Plane::ZX => Axis::Y,
            Plane::YZ => Axis::X,
        }
    }

    /// Three values seen in the plane.
    pub fn flat(self, values: &Axes<i32>) -> Vector
        ensures value { result ≡ flat_of self values.now }
    {
        Vector {
            u: values.along(self.u()),
            v: values.along(self.v()),
        }
    }
}
