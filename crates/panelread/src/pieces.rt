//! The pieces that canonical lines are made of.
use crate::sum::Sum;
use forms::said::{Comparison, Place, Target, Test};
use lexer::cursor::Cursor;
use std::fmt;
use sums::value::Value;

/// Something that a line says, and the text up to the end of its code, in which its names and sums stand by their places.
#[derive(Clone, Copy)]
pub(crate) struct Shown<'a, T> {
    pub(crate) text: &'a [u8],
    pub(crate) said: T,
}

impl<'a, T> Shown<'a, T> {
    /// A part of what the line says.
    pub(crate) fn part<U>(&self, said: U) -> Shown<'a, U> {
        Shown {
            text: self.text,
            said,
        }
    }
}

/// Thousandths, written as a decimal without needless zeros.
#[derive(Clone, Copy)]
pub(crate) struct Decimal(pub(crate) u64);

impl fmt::Display for Decimal {
    fn fmt<W: fmt::Write>(&self, f: &mut fmt::Formatter<W>) -> fmt::Result {
        let whole = self.0 / 1000;
        let part = self.0 % 1000;
        if part == 0 {
            write!(f, "{whole}")
        } else if part % 100 == 0 {
            let tenths = part / 100;
            write!(f, "{whole}.{tenths}")
        } else if part % 10 == 0 {
            let hundredths = part / 10;
            write!(f, "{whole}.{hundredths:02}")
        } else {
            write!(f, "{whole}.{part:03}")
        }
    }
}

/// A number with its sign, or a sum.
impl fmt::Display for Shown<'_, Value> {
    fn fmt<W: fmt::Write>(&self, f: &mut fmt::Formatter<W>) -> fmt::Result {
        match self.said {
            Value::Number { minus, thousandths } => {
                let sign = if minus { "-" } else { "" };
                let number = Decimal(thousandths);
                write!(f, "{sign}{number}")
            }
            Value::Sum(at) => {
                let sum = Sum(Cursor {
                    line: self.text,
                    at,
                });
                write!(f, "{sum}")
            }
        }
    }
}

/// A name, in capitals.
impl fmt::Display for Shown<'_, Place> {
    fn fmt<W: fmt::Write>(&self, f: &mut fmt::Formatter<W>) -> fmt::Result {
        let place = self.said;
        for byte in self.text.iter().skip(place.from).take(place.length) {
            let capital = char::from(byte.to_ascii_uppercase());
            write!(f, "{capital}")?;
        }
        Ok(())
    }
}

/// A label, or an N number.
impl fmt::Display for Shown<'_, Target<Place>> {
    fn fmt<W: fmt::Write>(&self, f: &mut fmt::Formatter<W>) -> fmt::Result {
        match self.said {
            Target::Label(label) => {
                let label = self.part(label);
                write!(f, "{label}")
            }
            Target::Number(number) => write!(f, "N{number}"),
        }
    }
}

/// The mark of a comparison.
impl fmt::Display for Shown<'_, Comparison> {
    fn fmt<W: fmt::Write>(&self, f: &mut fmt::Formatter<W>) -> fmt::Result {
        f.write_str(match self.said {
            Comparison::Same => "==",
            Comparison::Differs => "<>",
            Comparison::Less => "<",
            Comparison::Greater => ">",
            Comparison::AtMost => "<=",
            Comparison::AtLeast => ">=",
        })
    }
}

/// IF and the comparison after it.
impl fmt::Display for Shown<'_, Test<Value>> {
    fn fmt<W: fmt::Write>(&self, f: &mut fmt::Formatter<W>) -> fmt::Result {
        let left = self.part(self.said.left);
        let sign = self.part(self.said.how);
        let right = self.part(self.said.right);
        write!(f, "IF {left} {sign} {right}")
    }
}
