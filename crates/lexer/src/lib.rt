//! A line's bytes as tokens: names, words, numbers and marks, each cut when it is asked for.
#![tactic(auto)]

mod bytes;
pub mod code;
pub mod cursor;
pub mod number;
pub mod symbols;
pub mod token;
