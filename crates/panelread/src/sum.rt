//! Sums, written without blanks.
ghost use Rattle.lexer.specs.Model.{left};
ghost use Rattle.std.specs.Iterator.{at_most};

use crate::pieces::Decimal;
use lexer::cursor::Cursor;
use lexer::symbols::{Letter, Mark};
use lexer::token::Token;
use std::fmt;

/// The tokens of a line from a cursor on.
#[derive(Drop)]
struct Tokens<'t>(Cursor<'t>);

impl<'t> Iterator for Tokens<'t> {
    type Item = Token<'t>;

    ghost remaining = { λ s. at_most (left s.0) };

    fn next(&mut self) -> Option<Token<'t>> {
        let (token, next) = self.0.token();
        self.0 = next;
        match token {
            Token::End => None,
            _ => Some(token),
        }
    }
}

/// The sum that stands at a cursor.
#[derive(Clone, Copy)]
pub(crate) struct Sum<'a>(pub(crate) Cursor<'a>);

impl fmt::Display for Sum<'_> {
    fn fmt<W: fmt::Write>(&self, f: &mut fmt::Formatter<W>) -> fmt::Result {
        for token in Tokens(self.0) {
            match token {
                Token::Number(number) => {
                    let decimal = Decimal(number.thousandths().unwrap_or(0));
                    write!(f, "{decimal}")?;
                }
                Token::Word(Letter::R, number) => {
                    let parameter = number.digits(2).unwrap_or(0);
                    write!(f, "R{parameter}")?;
                }
                Token::Mark(Mark::Plus) => f.write_str("+")?,
                Token::Mark(Mark::Minus) => f.write_str("-")?,
                Token::Mark(Mark::Opening) => f.write_str("(")?,
                Token::Mark(Mark::Closing) => f.write_str(")")?,
                _ => break,
            }
        }
        Ok(())
    }
}
