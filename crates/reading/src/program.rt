//! A part program that was read.
ghost use Rattle.std.specs.Prelude.{◌≤◌, vec_len, vec_capacity};

use forms::said::{Line, Place};
use sums::value::Value;

/// How many lines a text has at most.
pub const MOST_LINES: usize = 2000;

/// A line as it is held: where its code ends in the text, and what it says.
// Names and sums are held by their places in the text: that is a form that was asked for.
#[derive(Clone, Copy)]
pub struct Held {
    pub end: usize,
    pub line: Line<Value, Place>,
}

/// A text and what its lines say. There is room for the lines of any text.
#[derive(Drop)]
pub struct Program<'t> {
    pub(crate) text: &'t [u8],
    pub(crate) lines: Vec<Held>,
    ghost room: { 2000 ≤ vec_capacity lines },
    ghost few: { vec_len lines ≤ 2000 },
}
