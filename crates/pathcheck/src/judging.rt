//! The answer to a line.
ghost use Rattle.std.specs.Prelude.{◌≡◌, Some, MatchResult};
ghost use Rattle.motions.specs.Model.{row_of};
ghost use Rattle.pathcheck.specs.declared.judging.Unjudged.TheVariants.{Refused};
ghost use Rattle.pathcheck.specs.Judging.{row_asked, Judged};
ghost use Rattle.pathcheck.specs.Written.{verdict_text, unjudged_text, answer_text};

use crate::line::{Asked, said};
use geometry::area::Area;
use motions::axes::Position;
use motions::motion::Motion;
use motions::refusal::Reason;
use motions::row::Row;
use std::fmt;

/// How a motion lies to the area.
#[derive(Clone, Copy, Drop, PartialEq, Eq)]
pub enum Verdict {
    /// Every point of the motion is in the area.
    Inside,
    /// Some point of it is not.
    Outside,
}

/// Why there is no motion to judge.
#[derive(Clone, Copy, Drop, PartialEq, Eq)]
pub enum Unjudged {
    /// The numbers make no motion.
    Refused(Reason),
    /// The line is not of the form.
    Unreadable,
}

impl From<Reason> for Unjudged {
    ghost from_gives = { λ reason unjudged. unjudged ≡ Refused reason };

    fn from(reason: Reason) -> Unjudged {
        Unjudged::Refused(reason)
    }
}

/// What is answered to a line, and where the machine stands after it.
#[derive(Clone, Copy, Drop, PartialEq, Eq)]
pub struct Answer {
    pub verdict: Result<Verdict, Unjudged>,
    pub position: Position,
}

impl fmt::Display for Verdict {
    ghost output = { λ v. Some (verdict_text v) };

    fn fmt<W: fmt::Write>(&self, f: &mut fmt::Formatter<W>) -> fmt::Result {
        match self {
            Self::Inside => write!(f, "inside"),
            Self::Outside => write!(f, "outside"),
        }
    }
}

impl fmt::Display for Unjudged {
    ghost output = { λ w. Some (unjudged_text w) };

    fn fmt<W: fmt::Write>(&self, f: &mut fmt::Formatter<W>) -> fmt::Result {
        match self {
            Self::Refused(reason) => write!(f, "refused {reason}"),
            Self::Unreadable => write!(f, "unreadable"),
        }
    }
}

impl fmt::Display for Answer {
    ghost output = { λ a. Some (answer_text a.verdict) };

    fn fmt<W: fmt::Write>(&self, f: &mut fmt::Formatter<W>) -> fmt::Result {
        match self.verdict {
            Ok(verdict) => write!(f, "{verdict}"),
            Err(unjudged) => write!(f, "{unjudged}"),
        }
    }
}

/// The motion that a line asks for, from a position.
fn motion_asked(position: &Position, line: &[u8]) -> Result<Motion, Unjudged>
    ensures value { MatchResult result (λ motion. row_asked position.now line.now ≡ Ok (row_of motion)) (λ unjudged. row_asked position.now line.now ≡ Err unjudged) }
{
    let Asked { kind, end } = said(line).ok_or(Unjudged::Unreadable)?;
    let motion = Motion::from_row(&Row {
        kind,
        start: *position,
        end,
    })?;
    Ok(motion)
}

/// Judges the motion that a line asks for, from a position.
pub fn judge<A: Area>(area: &A, position: &Position, line: &[u8]) -> Answer
    ensures judged { Judged (A.Area.contains area.now) position.now line.now result.verdict result.position }
{
    match motion_asked(position, line) {
        Ok(motion) => {
            let verdict = if area.admits(&motion) {
                Verdict::Inside
            } else {
                Verdict::Outside
            };
            Answer {
                verdict: Ok(verdict),
                position: motion.row().end,
            }
        }
        Err(unjudged) => Answer {
            verdict: Err(unjudged),
            position: *position,
        },
    }
}
