//! A line of words acts: its functions first, then its motion.
ghost use Rattle.std.specs.Prelude.{◌≡◌, ◌+◌};
ghost use Rattle.rules.specs.Moves.{settled, moves, acts};
ghost use Rattle.rules.specs.Model.{state_of, came_to, Unchanged};

use super::{Done, Goes, MOST_MOTIONS, Made, RunState, Step};
use crate::functions::{framed, in_force, stops};
use crate::paths::Standing;
use forms::said::Words;
use motions::refusal::{Reason, Refusal};
use sums::amount::Amount;

impl RunState {
    /// The refusal of the motion that the line would make.
    fn motion_refusal(&self, reason: Reason) -> Refusal
        ensures value { result ≡ record { reason = reason; line = self.now.due; motion = self.now.made + 1 } }
    {
        Refusal {
            reason,
            line: self.due,
            motion: self.made + 1,
        }
    }

    /// Makes the motion of a line.
    fn moves(&mut self, words: &Words<Amount>) -> Result<Done, Refusal>
        ensures value { came_to self.old.due self.new result ≡ moves words.now (settled words.now (state_of self.old)) }
        ensures same { Unchanged self.old self.new result }
    {
        let functions = in_force(words, self.functions);
        let standing = Standing {
            functions: &functions,
            zeros: &self.zeros,
            at: self.at,
        };
        let motion = standing
            .line_motion(&mut self.frame, words)
            .map_err(|reason| self.motion_refusal(reason))?;
        if self.made >= MOST_MOTIONS {
            return Err(self.motion_refusal(Reason::MotionsMade));
        }
        self.functions = functions;
        self.frame = framed(words, self.frame);
        self.at = motion.row().end;
        self.made += 1;
        let made = Made {
            line: self.due,
            motion,
            limits: self.limits,
            watched: functions.watched,
        };
        Ok(Done {
            step: Step {
                made: Some(made),
                ended: stops(words.action),
            },
            goes: Goes::On,
        })
    }

    /// Does what a line of words says.
    pub(super) fn acts(&mut self, words: &Words<Amount>) -> Result<Done, Refusal>
        ensures value { came_to self.old.due self.new result ≡ acts words.now (state_of self.old) }
        ensures same { Unchanged self.old self.new result }
    {
        if !words.axes.is_empty() || !words.centres.is_empty() {
            return self.moves(words);
        }
        self.functions = in_force(words, self.functions);
        self.frame = framed(words, self.frame);
        Ok(Done {
            step: Step {
                made: None,
                ended: stops(words.action),
            },
            goes: Goes::On,
        })
    }
}
