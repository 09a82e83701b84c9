//! A home is made from a position in range.
ghost use Rattle.std.specs.Prelude.{◌≡◌, true};
ghost use Rattle.motions.specs.Model.{home_of};
ghost use Rattle.motions.specs.Settings.{home_taken, Taken};

use super::Home;
use crate::axes::Position;
use crate::ranges::{POSITION_RANGE, Ranged};
use crate::refusal::Refusal;

impl Home {
    /// The home at a position; refused where that is out of range.
    pub fn new(position: Position) -> Result<Home, Refusal>
        ensures value { Taken (home_taken position) (λ h. home_of h ≡ position) result }
    {
        if position.within(POSITION_RANGE) {
            Ok(Home { position })
        } else {
            Err(Refusal::setting())
        }
    }

    /// The home's position, which is in range.
    pub fn position(&self) -> Position
        ensures value { result ≡ home_of self.now }
        ensures taken { home_taken result ≡ true }
    {
        self.position
    }
}
