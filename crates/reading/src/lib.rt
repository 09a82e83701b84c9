//! Part programs: a text, its lines, and what each of them says.
#![tactic(auto)]

pub mod held;
pub mod laws;
mod line;
pub mod lines;
pub mod program;
pub mod read;
