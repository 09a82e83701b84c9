//! A run starts, and goes on line by line.
ghost use Rattle.std.specs.Prelude.{◌≡◌};
ghost use Rattle.rules.specs.State.{start as starts_at};
ghost use Rattle.rules.specs.Steps.{most_lines, step as step_is};
ghost use Rattle.rules.specs.Model.{setup_is, state_in, left_in, event_in, Counted};

use super::{Goes, Run, RunState, Setup, Step};
use crate::open::OpenRepeats;
use crate::source::Source;
use crate::state::{Frame, Functions, Interpolation, Measure};
use motions::axes::Plane;
use motions::refusal::{Reason, Refusal};
use sums::parameters::Parameters;

/// How many lines run at most.
const MOST_LINES: usize = 100_000;

impl Run {
    /// A run from a setup, before its first line.
    pub fn start(setup: &Setup) -> Run
        ensures value { state_in result ≡ starts_at (setup_is setup.now) }
        ensures left { left_in result ≡ most_lines }
    {
        let functions = Functions {
            interpolation: Interpolation::Line,
            plane: Plane::XY,
            measure: Measure::Absolute,
            watched: true,
        };
        let state = RunState {
            due: 1,
            functions,
            params: Parameters::new(),
            frame: Frame::NONE,
            limits: setup.limits,
            zeros: setup.zeros,
            at: setup.at.position(),
            repeats: OpenRepeats::none(),
            made: 0,
        };
        Run {
            state,
            left: MOST_LINES,
        }
    }

    /// Runs the line that is due: what it came to, or why the run is refused, which leaves it as it was.
    pub fn step<S: Source>(&mut self, source: &S) -> Result<Step, Refusal>
        ensures value { event_in self.new result ≡ step_is (left_in self.old) (S.Source.lines source.now) (state_in self.old) }
        ensures left { Counted self.old self.new result }
    {
        let count = source.count();
        let line = self.state.due;
        if line > count {
            return Err(Refusal::of_line(Reason::NoEnd, count));
        }
        if self.left == 0 {
            return Err(self.state.refusal(Reason::LinesRun));
        }
        let says = source
            .says(line, &self.state.params)
            .ok_or(self.state.refusal(Reason::ValueRange))?;
        let done = self.state.performs(source, says)?;
        self.left -= 1;
        self.state.due = match done.goes {
            Goes::On => line + 1,
            Goes::To(goal) => goal,
        };
        Ok(done.step)
    }
}
