//! The tokens of a line.
use crate::number::Number;
use crate::symbols::{Letter, Mark};

/// A name: its bytes, where the first of them stands, and whether a blank or the end follows it.
#[derive(Clone, Copy)]
pub struct Name<'t> {
    pub bytes: &'t [u8],
    pub place: usize,
    pub closed: bool,
}

/// A token, as long as it can be. A form asks for the end of a line, or meets a byte that it can't take, as it does any
/// other token, so these two are tokens, and no `Option` round one.
#[derive(Clone, Copy)]
pub enum Token<'t> {
    Name(Name<'t>),
    /// A letter with a number directly after it.
    Word(Letter, Number<'t>),
    /// A letter with none.
    Letter(Letter),
    Number(Number<'t>),
    Mark(Mark),
    /// A byte that opens no token.
    Bad,
    /// What stands after the last token.
    End,
}
