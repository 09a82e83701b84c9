//! The letters and marks that the forms of a line are made of.
ghost use Rattle.std.specs.Prelude.{◌≡◌};
ghost use Rattle.std.specs.Char.{to_ascii_lowercase};
ghost use Rattle.lexer.specs.Bytes.{letter_of};
ghost use Rattle.lexer.specs.Tokens.{mark_length};

/// An address letter.
#[derive(Clone, Copy, PartialEq, Eq, Debug)]
pub enum Letter {
    X,
    Y,
    Z,
    I,
    J,
    K,
    F,
    S,
    T,
    M,
    G,
    N,
    R,
    P,
    /// A letter that opens no form: it is a letter all the same, so no `Option`.
    Other,
}

impl From<u8> for Letter {
    ghost from_gives = { λ c l. l ≡ letter_of (to_ascii_lowercase c) };

    /// The address letter that a byte is, in either case.
    fn from(c: u8) -> Letter {
        match c.to_ascii_lowercase() {
            b'x' => Letter::X,
            b'y' => Letter::Y,
            b'z' => Letter::Z,
            b'i' => Letter::I,
            b'j' => Letter::J,
            b'k' => Letter::K,
            b'f' => Letter::F,
            b's' => Letter::S,
            b't' => Letter::T,
            b'm' => Letter::M,
            b'g' => Letter::G,
            b'n' => Letter::N,
            b'r' => Letter::R,
            b'p' => Letter::P,
            _ => Letter::Other,
        }
    }
}

/// A mark of one byte or two.
#[derive(Clone, Copy, PartialEq, Eq, Debug)]
pub enum Mark {
    Plus,
    Minus,
    Equals,
    Opening,
    Closing,
    Colon,
    Same,
    Differs,
    Less,
    Greater,
    AtMost,
    AtLeast,
}

impl Mark {
    /// How many bytes the mark has.
    pub(crate) fn length(self) -> usize
        ensures value { result ≡ mark_length self }
    {
        match self {
            Mark::Same | Mark::Differs | Mark::AtMost | Mark::AtLeast => 2,
            _ => 1,
        }
    }
}

/// What opens at a byte that is no blank.
#[derive(Clone, Copy)]
pub(crate) enum Opens {
    Name,
    Word,
    Letter,
    Number,
    Mark(Mark),
}
