//! A place in a line, and the token that stands next from it on.
ghost use Rattle.std.specs.Prelude.{◌≡◌, ◌+◌, take, drop};
ghost use Rattle.std.specs.List.{prefix_len};
ghost use Rattle.lexer.specs.Bytes.{is_blank, in_name};
ghost use Rattle.lexer.specs.Tokens.{name_of};
ghost use Rattle.lexer.specs.Model.{token_is, Begins, Cut};

use crate::bytes::{in_name, is_blank, opens};
use crate::number::Number;
use crate::symbols::{Letter, Opens};
use crate::token::{Name, Token};

/// A place in a line, from which its tokens are read.
// That a reader comes further stands in the contract of each: it joins what was handed in with what comes back, and no type of one
// value can say that.
#[derive(Clone, Copy)]
pub struct Cursor<'t> {
    pub line: &'t [u8],
    pub at: usize,
}

/// The name that stands first, at a place of its line.
fn name(place: usize, s: &[u8]) -> Name<'_>
    ensures value { token_is (Token.Name result) ≡ name_of place s.entry.now }
    ensures bytes { result.bytes.now ≡ take (prefix_len in_name s.entry.now) s.entry.now }
{
    let n = s.iter().take_while(|b| in_name(**b)).count();
    Name {
        bytes: &s[..n],
        place,
        closed: s.get(n).is_none_or(|b| is_blank(*b)),
    }
}

/// The token that bytes begin with, which is no blank, and its length; they stand at a place of their line.
// A hint to LLVM, here and at `token`: a caller that asks for one kind of token keeps no other, where a token handed over is large.
#[inline(always)]
fn first(place: usize, s: &[u8]) -> Option<(Token<'_>, usize)>
    ensures begins { Begins place s.entry.now result }
{
    let (c, more) = s.split_first()?;
    let d = more.first().copied().unwrap_or(0);
    match opens(*c, d) {
        Some(Opens::Name) => {
            let name = name(place, s);
            Some((Token::Name(name), name.bytes.len()))
        }
        Some(Opens::Word) => {
            let n = Number::first(more);
            Some((Token::Word(Letter::from(*c), n), 1 + n.length()))
        }
        Some(Opens::Letter) => Some((Token::Letter(Letter::from(*c)), 1)),
        Some(Opens::Number) => {
            let n = Number::first(s);
            Some((Token::Number(n), n.length()))
        }
        Some(Opens::Mark(m)) => Some((Token::Mark(m), m.length())),
        None => Some((Token::Bad, 1)),
    }
}

impl<'t> Cursor<'t> {
    /// The bytes from the cursor on.
    pub fn rest(self) -> &'t [u8]
        ensures value { result.now ≡ drop self.entry.at self.entry.line.now }
    {
        self.line.get(self.at..).unwrap_or(&[])
    }

    /// The cursor after the blanks that stand next.
    fn past_blanks(self) -> Cursor<'t>
        ensures at { result.at ≡ self.entry.at + prefix_len is_blank (drop self.entry.at self.entry.line.now) }
        ensures line { result.line.now ≡ self.entry.line.now }
    {
        let blanks = self.rest().iter().take_while(|b| is_blank(**b)).count();
        Cursor {
            at: self.at + blanks,
            ..self
        }
    }

    /// The token that stands next, and the cursor after it.
    #[inline(always)]
    pub fn token(self) -> (Token<'t>, Cursor<'t>)
        ensures cut { Cut self.entry result.0 result.1 }
    {
        let start = self.past_blanks();
        match first(start.at, start.rest()) {
            Some((token, length)) => (
                token,
                Cursor {
                    at: start.at + length,
                    ..start
                },
            ),
            None => (Token::End, start),
        }
    }
}
