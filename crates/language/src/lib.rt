//! Part programs that run: their targets, the values of their lines, and what a run asks of them.
#![tactic(auto)]

pub mod indexed;
mod names;
pub mod source;
pub mod targets;
mod valuing;
