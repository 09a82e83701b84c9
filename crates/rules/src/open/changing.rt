//! A repeat is opened, counted down and closed.
ghost use Rattle.std.specs.Prelude.{◌≡◌, [], OnErr};
ghost use Rattle.rules.specs.Model.{open_of, last_of, before_last, with_last, Opened};

use super::{Full, MOST_REPEATS, OpenRepeats};
use crate::state::Repeat;

impl OpenRepeats {
    /// No repeat is open.
    pub(crate) fn none() -> OpenRepeats
        ensures value { open_of result ≡ [] }
    {
        OpenRepeats {
            rows: [Repeat { line: 0, left: 0 }; MOST_REPEATS],
            used: 0,
        }
    }

    /// The last one opened.
    pub(crate) fn last(&self) -> Option<Repeat>
        ensures value { result ≡ last_of (open_of self.now) }
    {
        self.rows[..self.used].last().copied()
    }

    /// Opens a repeat, if there is room for one; else nothing changes.
    #[tactic(auto, using(crate::proofs::Stacked::opened))]
    pub(crate) fn open(&mut self, repeat: Repeat) -> Result<(), Full>
        ensures value { Opened repeat (open_of self.old) (open_of self.new) result }
        ensures same { OnErr result (self.new ≡ self.old) }
    {
        if self.used == MOST_REPEATS {
            return Err(Full);
        }
        self.rows[self.used] = repeat;
        self.used += 1;
        Ok(())
    }

    /// Puts a repeat in the place of the last one opened, if one is open.
    #[tactic(auto, using(crate::proofs::Stacked::replaced))]
    pub(crate) fn replace_last(&mut self, repeat: Repeat)
        ensures value { open_of self.new ≡ with_last repeat (open_of self.old) }
    {
        if let Some(place) = self.used.checked_sub(1) {
            self.rows[place] = repeat;
        }
    }

    /// Closes the last one opened, if one is open.
    pub(crate) fn close(&mut self)
        ensures value { open_of self.new ≡ before_last (open_of self.old) }
    {
        self.used = self.used.saturating_sub(1);
    }
}
