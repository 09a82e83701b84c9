//! A value as a line holds it.

/// The value of an axis or centre word: a number and its sign, or the place of a sum in the text. The sign stands by itself
/// because minus zero is written back as minus zero, which no `i64` is.
#[derive(Clone, Copy)]
pub enum Value {
    Number { minus: bool, thousandths: u64 },
    Sum(usize),
}
