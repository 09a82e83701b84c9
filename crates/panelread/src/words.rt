//! The canonical form of the words of a line.
use crate::pieces::{Decimal, Shown};
use forms::modal::Modal;
use forms::said::{Groups, Named, Words};
use std::fmt;
use sums::value::Value;

/// A word: a name alone, or a letter and what stands after it.
#[derive(Clone, Copy)]
enum Word {
    Name(&'static str),
    Number(char, u32),
    Length(char, u64),
    Value(char, Value),
}

impl fmt::Display for Shown<'_, Word> {
    fn fmt<W: fmt::Write>(&self, f: &mut fmt::Formatter<W>) -> fmt::Result {
        match self.said {
            Word::Name(name) => write!(f, "{name}"),
            Word::Number(letter, number) => write!(f, "{letter}{number}"),
            Word::Length(letter, thousandths) => {
                let length = Decimal(thousandths);
                write!(f, "{letter}{length}")
            }
            Word::Value(letter, value) => {
                let equals = match value {
                    Value::Sum(_) => "=",
                    Value::Number { .. } => "",
                };
                let value = self.part(value);
                write!(f, "{letter}{equals}{value}")
            }
        }
    }
}

/// The words of the axes that are named, by their letters.
fn along(letters: [char; 3], axes: Named<Value>) -> [Option<Word>; 3] {
    let [x, y, z] = letters;
    [
        axes.x.map(|value| Word::Value(x, value)),
        axes.y.map(|value| Word::Value(y, value)),
        axes.z.map(|value| Word::Value(z, value)),
    ]
}

/// A G function that stands in the line or does not.
fn flag(stands: bool, number: u32) -> Option<Word> {
    stands.then_some(Word::Number('G', number))
}

/// A G function of a group of which one may stand in the line.
fn modal<M: Modal>(function: Option<M>) -> Option<Word> {
    Some(Word::Number('G', function?.number()))
}

/// G functions, in the order of their groups.
fn functions(groups: Groups) -> [Option<Word>; 10] {
    [
        modal(groups.motion),
        modal(groups.plane),
        modal(groups.measure),
        modal(groups.zero),
        flag(groups.g53, 53),
        flag(groups.g40, 40),
        flag(groups.g60, 60),
        flag(groups.g64, 64),
        flag(groups.g71, 71),
        flag(groups.g94, 94),
    ]
}

/// The words after those of the axes.
fn others(words: Words<Value>) -> [Option<Word>; 4] {
    [
        words.feed.map(|feed| Word::Length('F', feed)),
        words.speed.map(|speed| Word::Length('S', speed)),
        words.tool.map(|tool| Word::Number('T', tool)),
        words.action.map(|action| Word::Number('M', action)),
    ]
}

/// The words of a line, a blank between each two.
impl fmt::Display for Shown<'_, Words<Value>> {
    fn fmt<W: fmt::Write>(&self, f: &mut fmt::Formatter<W>) -> fmt::Result {
        let words = self.said;
        let area = words
            .area
            .map(|on| Word::Name(if on { "WALIMON" } else { "WALIMOF" }));
        let mut all = functions(words.groups)
            .into_iter()
            .chain([area])
            .chain(along(['X', 'Y', 'Z'], words.axes))
            .chain(along(['I', 'J', 'K'], words.centres))
            .chain(others(words))
            .flatten();
        if let Some(first) = all.next() {
            let first = self.part(first);
            write!(f, "{first}")?;
        }
        for word in all {
            let word = self.part(word);
            write!(f, " {word}")?;
        }
        Ok(())
    }
}

/// The words of the axes that are named, a blank before each.
impl fmt::Display for Shown<'_, Named<Value>> {
    fn fmt<W: fmt::Write>(&self, f: &mut fmt::Formatter<W>) -> fmt::Result {
        for word in along(['X', 'Y', 'Z'], self.said).into_iter().flatten() {
            let word = self.part(word);
            write!(f, " {word}")?;
        }
        Ok(())
    }
}
