//! A run is recorded from its setup to its end.
ghost use Rattle.std.specs.Prelude.{◌≡◌, [], map, IfOk};
ghost use Rattle.rules.specs.Model.{setup_is, made_is};
ghost use Rattle.traces.specs.Laws.{Lawful};
ghost use Rattle.traces.specs.Model.{recorded, noted, with_next, HasRoom, counted_with, trace_of};
ghost use Rattle.std.specs.Option.{option_map};
ghost use Rattle.traces.specs.Traces.{trace as trace_is};

use super::Journal;
use motions::refusal::Refusal;
use rules::run::{MOST_MOTIONS, Made, Run, Setup};
use rules::source::Source;
use std::alloc::{AllocError, Global};

impl Journal {
    /// An empty journal, with room for the motions of any run.
    pub fn new(heap: Global) -> Result<Journal, AllocError>
        ensures made { IfOk result (λ j. recorded j ≡ []) }
    {
        let made = Vec::with_capacity(heap, MOST_MOTIONS)?;
        Ok(Journal { made })
    }

    /// The motions that were recorded.
    pub fn motions(&self) -> &[Made]
        ensures value { map made_is result.now ≡ recorded self.now }
    {
        self.made.as_slice()
    }

    /// Records the motion of a line, if it made one.
    fn note(&mut self, made: Option<Made>)
        requires { HasRoom made (noted self.old) }
        ensures value { recorded self.new ≡ with_next (recorded self.old) (option_map made_is made) }
        ensures count { noted self.new ≡ counted_with made (noted self.old) }
    {
        if let Some(made) = made {
            self.made.push_reserved(made);
        }
    }

    /// Runs a program from a setup: records its motions in the place of those before, and answers how the run ended.
    pub fn record<S: Source>(&mut self, source: &S, setup: &Setup) -> Result<(), Refusal>
        ensures value { trace_of self.new result ≡ trace_is (S.Source.lines source.now) (setup_is setup.now) }
        ensures law { Lawful (S.Source.lines source.now) (setup_is setup.now) (trace_of self.new result) }
    {
        self.made.clear();
        let mut run = Run::start(setup);
        'lines: loop {
            let step = run.step(source)?;
            self.note(step.made);
            if step.ended {
                return Ok(());
            }
        }
    }
}
