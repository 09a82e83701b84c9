//! What the lines other than words do.
ghost use Rattle.std.specs.Prelude.{◌≡◌, false, None};
ghost use Rattle.motions.specs.Refusals.{refused_on};
ghost use Rattle.motions.specs.declared.refusal.Reason.TheVariants.{ValueRange};
ghost use Rattle.rules.specs.Values.{named, named_target};
ghost use Rattle.rules.specs.State.{or_refuse};
ghost use Rattle.rules.specs.Targets.{target as target_is};
ghost use Rattle.rules.specs.Steps.{new_limits, shifted as shifted_by, shift_from, with_limits, with_shift, sets, compares as compares_by, holds as holds_if, jumps, repeats, performs};
ghost use Rattle.rules.specs.Model.{state_of, came_to, Unchanged};

use super::{Done, Goes, RunState, Step};
use crate::settings::{new_limits, shifted};
use crate::source::Source;
use crate::state::{Frame, Named, Repeat};
use forms::said::{Comparison, Place, Statement, Target, Test};
use motions::refusal::{Reason, Refusal};
use sums::amount::Amount;

fn compares(how: Comparison, left: i64, right: i64) -> bool
    ensures value { result ≡ compares_by how left right }
{
    match how {
        Comparison::Same => left == right,
        Comparison::Differs => left != right,
        Comparison::Less => left < right,
        Comparison::Greater => left > right,
        Comparison::AtMost => left <= right,
        Comparison::AtLeast => left >= right,
    }
}

/// Whether the comparison after IF holds, where there is one.
fn holds(test: Option<Test<Amount>>) -> bool
    ensures value { result ≡ holds_if test }
{
    test.is_none_or(|test| compares(test.how, i64::from(test.left), i64::from(test.right)))
}

impl Done {
    /// What a line did that made no motion and did not end the run.
    fn going(goes: Goes) -> Done
        ensures value { result ≡ record { step = record { made = None; ended = false }; goes = goes } }
    {
        Done {
            step: Step {
                made: None,
                ended: false,
            },
            goes,
        }
    }
}

impl RunState {
    /// The refusal of the line that is due.
    pub(super) fn refusal(&self, reason: Reason) -> Refusal
        ensures value { result ≡ refused_on reason self.now.due }
    {
        Refusal::of_line(reason, self.due)
    }

    /// G25 and G26: sets limits of the working area.
    fn limits(&mut self, upper: bool, values: &Named<Amount>) -> Result<Done, Refusal>
        ensures value { came_to self.old.due self.new result ≡ or_refuse ValueRange (state_of self.old) (new_limits upper values.now (state_of self.old).modal.limits) (λ l. sets (with_limits l (state_of self.old).modal) (state_of self.old)) }
        ensures same { Unchanged self.old self.new result }
    {
        let limits = new_limits(self.limits, upper, values);
        self.limits = limits.ok_or(self.refusal(Reason::ValueRange))?;
        Ok(Done::going(Goes::On))
    }

    /// TRANS and ATRANS: sets the shift, or adds to it.
    fn shifts(&mut self, adds: bool, values: &Named<Amount>) -> Result<Done, Refusal>
        ensures value { came_to self.old.due self.new result ≡ or_refuse ValueRange (state_of self.old) (shifted_by (shift_from adds self.old.frame.shift) values.now) (λ t. sets (with_shift t (state_of self.old).modal) (state_of self.old)) }
        ensures same { Unchanged self.old self.new result }
    {
        // Two arms of `performs` in place of this test were tried, and their proof did not close.
        let old = if adds {
            self.frame.shift
        } else {
            Frame::NONE.shift
        };
        self.frame.shift = shifted(old, values).ok_or(self.refusal(Reason::ValueRange))?;
        Ok(Done::going(Goes::On))
    }

    /// A jump to the line that its target means, if the comparison before it holds.
    fn jumps<S: Source>(
        &self,
        source: &S,
        forward: bool,
        target: Target<Place>,
        test: Option<Test<Amount>>,
    ) -> Result<Done, Refusal>
        ensures value { came_to self.now.due self.now result ≡ jumps (holds_if test) (target_is (S.Source.lines source.now) forward (named_target (S.Source.names source.now) target) self.now.due) (state_of self.now) }
    {
        if !holds(test) {
            return Ok(Done::going(Goes::On));
        }
        let line = source
            .find(forward, target, self.due)
            .ok_or(self.refusal(Reason::NoTarget))?;
        Ok(Done::going(Goes::To(line)))
    }

    /// A repeat that goes back to a line.
    fn repeats(&mut self, goal: usize, rounds: u32) -> Result<Done, Refusal>
        ensures value { came_to self.old.due self.new result ≡ repeats goal rounds (state_of self.old) }
        ensures same { Unchanged self.old self.new result }
    {
        let line = self.due;
        match self.repeats.last() {
            Some(open) if open.line == line => {
                let Some(left) = open.left.checked_sub(1) else {
                    self.repeats.close();
                    return Ok(Done::going(Goes::On));
                };
                self.repeats.replace_last(Repeat { line, left });
            }
            _ => {
                let left = rounds.saturating_sub(1);
                self.repeats
                    .open(Repeat { line, left })
                    .map_err(|_| self.refusal(Reason::RepeatsOpen))?;
            }
        }
        Ok(Done::going(Goes::To(goal)))
    }

    /// Does what a statement says, whose sums have their values.
    pub(super) fn performs<S: Source>(
        &mut self,
        source: &S,
        says: Statement<Amount, Place>,
    ) -> Result<Done, Refusal>
        ensures value { came_to self.old.due self.new result ≡ performs (S.Source.lines source.now) (named (S.Source.names source.now) says) (state_of self.old) }
        ensures same { Unchanged self.old self.new result }
    {
        match says {
            Statement::Nothing | Statement::Dwell(_) => Ok(Done::going(Goes::On)),
            Statement::Words(words) => self.acts(&words),
            Statement::Limits { upper, axes } => self.limits(upper, &axes),
            Statement::Shift { adds, axes } => self.shifts(adds, &axes),
            Statement::Assign { parameter, sum } => {
                // `as`: there is no `From<u32>` for usize.
                self.params.set(parameter as usize, i64::from(sum));
                Ok(Done::going(Goes::On))
            }
            Statement::Jump {
                forward,
                target,
                test,
            } => self.jumps(source, forward, target, test),
            Statement::Repeat { label, times } => {
                let before = self.due.saturating_sub(1);
                let goal = source
                    .find(false, Target::Label(label), before)
                    .ok_or(self.refusal(Reason::NoTarget))?;
                self.repeats(goal, times.unwrap_or(1))
            }
        }
    }
}
