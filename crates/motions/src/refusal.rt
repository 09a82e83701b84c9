//! Why a request is turned down: one type for every part of the software.
ghost use Rattle.std.specs.Prelude.{◌≡◌, Some};
ghost use Rattle.std.specs.Fmt.{decimal};
ghost use Rattle.motions.specs.Refusals.{number_of, refused_on, refused_setting, written};

use std::fmt;

/// The reasons for a refusal, each with the number that a shop knows it by.
/// Those up to 10 lie in what was handed in, those from 21 on in the state that it met.
#[derive(Clone, Copy, Drop, PartialEq, Eq)]
pub enum Reason {
    /// The text is beyond one of its three limits.
    TextSize = 1,
    /// A line has none of the forms that a line may have.
    LineForm = 2,
    /// A sum, a shift or a limit is beyond its range.
    ValueRange = 3,
    /// A motion's start or end, or an arc's centre, is beyond its range.
    MotionRange = 4,
    /// An arc breaks the arc rule, or a centre word stands where none may.
    ArcRule = 5,
    /// The target of a jump or repeat is missing.
    NoTarget = 6,
    /// The run goes past the last line.
    NoEnd = 7,
    /// A motion has a point outside the fixed area.
    FixedArea = 8,
    /// A motion has a point outside the working area while that is on.
    WorkingArea = 9,
    /// A setting (an axis, a side, a slot, a limit, a home, an edge's numbers) is unknown or beyond its range.
    Setting = 10,
    /// Motions wait to be drawn.
    MotionsWait = 21,
    /// As many lines have run as may run.
    LinesRun = 22,
    /// As many motions exist as may exist.
    MotionsMade = 23,
    /// An index room has no place left.
    IndexRoom = 24,
    /// No motion waits.
    NothingWaits = 25,
    /// As many repeats are open as may be open.
    RepeatsOpen = 26,
}

impl Reason {
    /// The number of the reason.
    pub fn number(self) -> u8
        ensures value { result ≡ number_of self }
    {
        // Rust has no other way from a variant to its number
        self as u8
    }
}

/// A refusal: its reason, the line and the motion that it speaks of, each 0 where it speaks of none.
// 0 and no `Option`: lines and motions are counted from 1, and what a shop reads has the 0.
#[derive(Clone, Copy, Drop, PartialEq, Eq)]
pub struct Refusal {
    pub reason: Reason,
    pub line: usize,
    pub motion: usize,
}

impl Refusal {
    /// The refusal of a line, or of a text where the line is 0, which belongs to no motion.
    pub fn of_line(reason: Reason, line: usize) -> Refusal
        ensures value { result ≡ refused_on reason line }
    {
        Refusal {
            reason,
            line,
            motion: 0,
        }
    }

    /// The refusal of a setting, which belongs to no line and no motion.
    pub fn setting() -> Refusal
        ensures value { result ≡ refused_setting }
    {
        Refusal::of_line(Reason::Setting, 0)
    }
}

/// A reason is written as its number.
impl fmt::Display for Reason {
    ghost output = { λ r. Some (decimal (number_of r)) };

    fn fmt<W: fmt::Write>(&self, f: &mut fmt::Formatter<W>) -> fmt::Result {
        let number = self.number();
        write!(f, "{number}")
    }
}

/// A refusal is written as its number, its line and its motion.
impl fmt::Display for Refusal {
    ghost output = { λ r. Some (written r) };

    fn fmt<W: fmt::Write>(&self, f: &mut fmt::Formatter<W>) -> fmt::Result {
        let reason = self.reason;
        let line = self.line;
        let motion = self.motion;
        write!(f, "refused {reason} {line} {motion}")
    }
}
