//! What the G functions that hold on for the next lines stand for, and their numbers.
ghost use Rattle.std.specs.Prelude.{◌≡◌, ℕ, refl};
ghost use Rattle.motions.specs.declared.axes.Plane.TheVariants.{XY, ZX, YZ};
ghost use Rattle.motions.specs.declared.row.Turn.TheVariants.{Counterclockwise, Clockwise};
ghost use Rattle.forms.specs.Groups.{interpolation_of, plane_of, measure_of, slot_of, interpolation_number, plane_number, measure_number, slot_number};
ghost use Rattle.forms.specs.declared.said.Interpolation.TheVariants.{Rapid, Line, Arc};
ghost use Rattle.forms.specs.declared.said.Measure.TheVariants.{Absolute, Incremental};
ghost use Rattle.forms.specs.declared.said.Slot.TheVariants.{G500, G54, G55, G56, G57};

use crate::said::{Interpolation, Measure, Slot};
use motions::axes::Plane;
use motions::row::Turn;

/// What the G functions of one group stand for. The numbers are those that a line writes.
// No pair of `TryFrom` and `From`: no law joins those, and `Groups::with` has found the group before, so no error could come.
pub trait Modal: Copy {
    /// What the function with a number stands for.
    ghost stands_for: { ℕ → Self };

    /// The number of the function that stands for a value.
    ghost number: { Self → ℕ };

    /// What the function with a number stands for, where the number is one of the group.
    fn of(g: u32) -> Self
        ensures value { result ≡ stands_for g };

    /// The number of the function that stands for this.
    fn number(self) -> u32
        ensures value { result ≡ number self };

    /// The number tells which function it is.
    ghost back: { (f : Self) → stands_for (number f) ≡ f };
}

impl Modal for Interpolation {
    ghost stands_for = { interpolation_of };

    ghost number = { interpolation_number };

    ghost back = { elim [ Rapid ↦ refl | Line ↦ refl | Arc t ↦ elim t as (λ k. interpolation_of (interpolation_number (Arc k)) ≡ Arc k) [ Counterclockwise ↦ refl | Clockwise ↦ refl ] ] };

    fn of(g: u32) -> Interpolation {
        match g {
            0 => Interpolation::Rapid,
            1 => Interpolation::Line,
            2 => Interpolation::Arc(Turn::Clockwise),
            _ => Interpolation::Arc(Turn::Counterclockwise),
        }
    }

    fn number(self) -> u32 {
        match self {
            Interpolation::Rapid => 0,
            Interpolation::Line => 1,
            Interpolation::Arc(Turn::Clockwise) => 2,
            Interpolation::Arc(Turn::Counterclockwise) => 3,
        }
    }
}

impl Modal for Plane {
    ghost stands_for = { plane_of };

    ghost number = { plane_number };

    ghost back = { elim [ XY ↦ refl | ZX ↦ refl | YZ ↦ refl ] };

    fn of(g: u32) -> Plane {
        Plane::try_from(g).unwrap_or(Plane::YZ)
    }

    fn number(self) -> u32 {
        match self {
            Plane::XY => 17,
            Plane::ZX => 18,
            Plane::YZ => 19,
        }
    }
}

impl Modal for Measure {
    ghost stands_for = { measure_of };

    ghost number = { measure_number };

    ghost back = { elim [ Absolute ↦ refl | Incremental ↦ refl ] };

    fn of(g: u32) -> Measure {
        match g {
            91 => Measure::Incremental,
            _ => Measure::Absolute,
        }
    }

    fn number(self) -> u32 {
        match self {
            Measure::Absolute => 90,
            Measure::Incremental => 91,
        }
    }
}

impl Modal for Slot {
    ghost stands_for = { slot_of };

    ghost number = { slot_number };

    ghost back = { elim [ G500 ↦ refl | G54 ↦ refl | G55 ↦ refl | G56 ↦ refl | G57 ↦ refl ] };

    fn of(g: u32) -> Slot {
        match g {
            54 => Slot::G54,
            55 => Slot::G55,
            56 => Slot::G56,
            57 => Slot::G57,
            _ => Slot::G500,
        }
    }

    fn number(self) -> u32 {
        match self {
            Slot::G500 => 500,
            Slot::G54 => 54,
            Slot::G55 => 55,
            Slot::G56 => 56,
            Slot::G57 => 57,
        }
    }
}
