//! Finding the lines of a part program that bear a target, by an index over a lent room of entries.
#![tactic(auto)]

pub mod entry;
pub mod index;
pub mod key;
