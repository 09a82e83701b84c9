//! The two sides on which a box has limits.
ghost use Rattle.std.specs.Prelude.{◌≡◌};
ghost use Rattle.geometry.specs.Deciding.{factor};

/// Where a limit stands on its axis: below what it admits, or above.
#[derive(Clone, Copy, Drop)]
pub(crate) enum Side {
    Lower,
    Upper,
}

impl Side {
    /// A coordinate keeps a limit of this side where it is at most that, both times the factor.
    pub(crate) fn factor(self) -> i32
        ensures value { result ≡ factor self }
    {
        match self {
            Side::Lower => -1,
            Side::Upper => 1,
        }
    }
}
