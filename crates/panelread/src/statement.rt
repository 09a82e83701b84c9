//! The canonical form of a line, and of what it says after its number and its label.
use crate::pieces::{Decimal, Shown};
use forms::said::{Line, Pause, Place, Statement};
use std::fmt;
use sums::value::Value;

/// A line: its number, its label, and what it says.
impl fmt::Display for Shown<'_, Line<Value, Place>> {
    fn fmt<W: fmt::Write>(&self, f: &mut fmt::Formatter<W>) -> fmt::Result {
        let mut gap = "";
        if let Some(number) = self.said.number {
            write!(f, "N{number}")?;
            gap = " ";
        }
        if let Some(label) = self.said.label {
            let label = self.part(label);
            write!(f, "{gap}{label}:")?;
            gap = " ";
        }
        let says = self.part(self.said.says);
        match says.said {
            Statement::Nothing => Ok(()),
            _ => write!(f, "{gap}{says}"),
        }
    }
}

/// What G4 waits for.
impl fmt::Display for Shown<'_, Pause> {
    fn fmt<W: fmt::Write>(&self, f: &mut fmt::Formatter<W>) -> fmt::Result {
        let (letter, length) = match self.said {
            Pause::Feed(time) => ('F', Decimal(time)),
            Pause::Speed(turns) => ('S', Decimal(turns)),
        };
        write!(f, "{letter}{length}")
    }
}

// The flags are asked where each is written: they choose a word, and no step.
impl fmt::Display for Shown<'_, Statement<Value, Place>> {
    fn fmt<W: fmt::Write>(&self, f: &mut fmt::Formatter<W>) -> fmt::Result {
        match self.said {
            Statement::Nothing => Ok(()),
            Statement::Words(words) => {
                let words = self.part(words);
                write!(f, "{words}")
            }
            Statement::Limits { upper, axes } => {
                let number = if upper { 26 } else { 25 };
                let axes = self.part(axes);
                write!(f, "G{number}{axes}")
            }
            Statement::Dwell(pause) => {
                let pause = self.part(pause);
                write!(f, "G4 {pause}")
            }
            Statement::Shift { adds, axes } => {
                let command = if adds { "ATRANS" } else { "TRANS" };
                let axes = self.part(axes);
                write!(f, "{command}{axes}")
            }
            Statement::Assign { parameter, sum } => {
                let sum = self.part(sum);
                write!(f, "R{parameter}={sum}")
            }
            Statement::Jump {
                forward,
                target,
                test,
            } => {
                if let Some(test) = test {
                    let test = self.part(test);
                    write!(f, "{test} ")?;
                }
                let command = if forward { "GOTOF" } else { "GOTOB" };
                let target = self.part(target);
                write!(f, "{command} {target}")
            }
            Statement::Repeat { label, times } => {
                let label = self.part(label);
                write!(f, "REPEAT {label}")?;
                match times {
                    Some(times) => write!(f, " P={times}"),
                    None => Ok(()),
                }
            }
        }
    }
}
