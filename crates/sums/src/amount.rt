//! A number of thousandths in the range of sums and parameters.
ghost use Rattle.std.specs.Prelude.{◌≡◌, ℤ, pos, negsuc, true, ◌≤ℤ◌, ◌+ℤ◌, ◌-ℤ◌};
ghost use Rattle.std.specs.Result.{result_ok};
ghost use Rattle.sums.specs.Ranges.{in_range};
ghost use Rattle.sums.specs.Sums.{ranged};

use std::marker::Model;

/// The largest amount, in thousandths.
pub const LARGEST: i64 = 9_999_999_999;

/// What a sum or a parameter is worth, in thousandths: at most 9,999,999.999 either way.
#[derive(Clone, Copy, Debug, PartialEq, Eq)]
pub struct Amount {
    thousandths: i64,
}

impl Model for Amount {
    ghost Value = { ℤ };

    ghost view = { λ a. a.thousandths };

    ghost invariant = { λ a. in_range a.thousandths ≡ true };

    ghost inverse = { λ z. record { thousandths = z } };
}

/// A number of thousandths that no sum and no parameter may be worth.
#[derive(Clone, Copy, Debug, PartialEq, Eq)]
pub struct BeyondRange;

impl TryFrom<i64> for Amount {
    type Error = BeyondRange;

    ghost try_from_gives = { λ z r. result_ok r ≡ ranged z };

    fn try_from(thousandths: i64) -> Result<Amount, BeyondRange> {
        if (-LARGEST..=LARGEST).contains(&thousandths) {
            Ok(Amount { thousandths })
        } else {
            Err(BeyondRange)
        }
    }
}

impl TryFrom<u64> for Amount {
    type Error = BeyondRange;

    ghost try_from_gives = { λ n r. result_ok r ≡ ranged (pos n) };

    fn try_from(thousandths: u64) -> Result<Amount, BeyondRange> {
        let thousandths = i64::try_from(thousandths).map_err(|_| BeyondRange)?;
        Amount::try_from(thousandths)
    }
}

impl From<Amount> for i64 {
    ghost from_gives = { λ a z. (z ≡ a) × (negsuc 9999999998 ≤ℤ z) × (z ≤ℤ pos 9999999999) };

    fn from(amount: Amount) -> i64 {
        amount.thousandths
    }
}

impl Amount {
    /// Nothing.
    pub const ZERO: Amount = Amount { thousandths: 0 };

    /// The sum of two amounts; nothing beyond the range.
    pub fn checked_add(self, other: Amount) -> Option<Amount>
        ensures value { result ≡ ranged (self +ℤ other) }
    {
        Amount::try_from(i64::from(self) + i64::from(other)).ok()
    }

    /// An amount less another; nothing beyond the range.
    pub fn checked_sub(self, other: Amount) -> Option<Amount>
        ensures value { result ≡ ranged (self -ℤ other) }
    {
        Amount::try_from(i64::from(self) - i64::from(other)).ok()
    }
}
