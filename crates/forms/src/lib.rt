//! What one line of a part program says: its number, its label and its statement.
#![tactic(auto)]

pub mod groups;
mod kinds;
pub mod line;
pub mod modal;
mod parts;
pub mod said;
mod statement;
mod word;
pub mod words;
