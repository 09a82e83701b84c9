//! A run of a part program, and what its lines come to.
ghost use Rattle.std.specs.Prelude.{◌≤◌};

use crate::open::OpenRepeats;
use crate::state::{Frame, Functions, Zeros};
use geometry::limit_box::LimitBox;
use motions::axes::Position;
use motions::home::Home;
use motions::motion::Motion;
use sums::parameters::Parameters;

mod acting;
mod performing;
mod stepping;

/// How many motions a run makes at most.
pub const MOST_MOTIONS: usize = 1000;

/// What a run starts from: the panel's limits and zero points, and the position.
#[derive(Clone, Copy, Drop)]
pub struct Setup {
    pub limits: LimitBox,
    pub zeros: Zeros,
    pub at: Home,
}

/// A motion as the run made it: its line, the working area as it stood, and whether that was on.
#[derive(Clone, Copy, Drop)]
pub struct Made {
    pub line: usize,
    pub motion: Motion,
    pub limits: LimitBox,
    pub watched: bool,
}

/// What a line came to: its motion, if it made one, and whether it ended the run.
#[derive(Clone, Copy, Drop)]
pub struct Step {
    pub made: Option<Made>,
    pub ended: bool,
}

/// Where a run goes on.
// No `Option`: to go on at the next line is an answer, not the lack of one.
#[derive(Clone, Copy, Drop, PartialEq, Eq)]
pub(crate) enum Goes {
    /// At the next line.
    On,
    /// At the line with a number.
    To(usize),
}

/// What a line did: what it came to, and where the run goes on.
#[derive(Clone, Copy, Drop)]
pub(crate) struct Done {
    step: Step,
    goes: Goes,
}

// What a line comes to joins the state before it with the state after, so it stands in the contract of each method, and in no type.

/// Where a run stands: the line that is due, what holds until it is set again, and what was made.
#[derive(Clone, Copy, Drop)]
pub(crate) struct RunState {
    due: usize,
    functions: Functions,
    params: Parameters,
    frame: Frame,
    limits: LimitBox,
    zeros: Zeros,
    at: Position,
    repeats: OpenRepeats,
    made: usize,
    ghost few: { made ≤ 1000 },
}

/// A run: where it stands, and how many more lines may run.
#[derive(Clone, Copy, Drop)]
pub struct Run {
    state: RunState,
    left: usize,
}
