//! The R parameters, whose values sums take.
ghost use Rattle.std.specs.Prelude.{◌≡◌, replicate, pos, if◌then◌else◌, slice_index_or, slice_set};
ghost use Rattle.sums.specs.Ranges.{in_range};

use crate::amount::Amount;
pub use crate::amount::LARGEST;

/// How many parameters there are.
pub const PARAMETERS: usize = 100;

/// The values of the parameters.
#[derive(Clone, Copy)]
pub struct Parameters {
    values: [Amount; PARAMETERS],
}

impl Parameters {
    /// Each parameter is 0.
    pub fn new() -> Parameters
        ensures value { result.values ≡ replicate 100 (pos 0) }
    {
        Parameters {
            values: [Amount::ZERO; PARAMETERS],
        }
    }

    /// The value of a parameter, and 0 past the last.
    pub fn get(&self, k: usize) -> Amount
        ensures value { result ≡ slice_index_or self.now.values k (pos 0) }
    {
        self.values.get(k).copied().unwrap_or(Amount::ZERO)
    }

    /// Gives a parameter a value. A value beyond the range changes nothing, nor does a parameter past the last.
    pub fn set(&mut self, k: usize, value: i64)
        ensures value { self.new.values ≡ (if in_range value then slice_set self.old.values k value else self.old.values) }
    {
        if k >= PARAMETERS {
            return;
        }
        if let Ok(amount) = Amount::try_from(value) {
            self.values[k] = amount;
        }
    }
}
