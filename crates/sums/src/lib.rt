//! Sums: what stands at a place of a line, and what it is worth.
#![tactic(auto)]

pub mod amount;
pub mod marks;
pub mod parameters;
pub mod reading;
pub mod value;
