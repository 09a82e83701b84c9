//! The G functions of a line.
ghost use Rattle.std.specs.Prelude.{◌≡◌};
ghost use Rattle.forms.specs.Groups.{with_g, no_modal, no_flag};

use crate::modal::Modal;
use crate::said::{Groups, Interpolation, Measure, Slot};
use motions::axes::Plane;

impl Groups {
    /// These and the function `g`, if it has a group and the group has none yet.
    pub fn with(self, g: u32) -> Option<Groups>
        ensures value { result ≡ with_g g self }
    {
        let mut s = self;
        match g {
            0..=3 if s.motion.is_none() => s.motion = Some(Interpolation::of(g)),
            17..=19 if s.plane.is_none() => s.plane = Some(Plane::of(g)),
            90..=91 if s.measure.is_none() => s.measure = Some(Measure::of(g)),
            54..=57 | 500 if s.zero.is_none() => s.zero = Some(Slot::of(g)),
            53 if !s.g53 => s.g53 = true,
            40 if !s.g40 => s.g40 = true,
            60 if !s.g60 => s.g60 = true,
            64 if !s.g64 => s.g64 = true,
            71 if !s.g71 => s.g71 = true,
            94 if !s.g94 => s.g94 = true,
            _ => return None,
        }
        Some(s)
    }

    /// Whether no function that holds on for the next lines stands there.
    pub(crate) fn no_modal(self) -> bool
        ensures value { result ≡ no_modal self }
    {
        self.motion.is_none()
            && self.plane.is_none()
            && self.measure.is_none()
            && self.zero.is_none()
    }

    /// Whether none of the other functions stands there.
    pub(crate) fn no_flag(self) -> bool
        ensures value { result ≡ no_flag self }
    {
        !self.g53 && !self.g40 && !self.g60 && !self.g64 && !self.g71 && !self.g94
    }
}
