//! The rules of a run: what each line does, motion by motion.
#![tactic(auto)]

mod ends;
mod functions;
mod open;
mod paths;
pub mod run;
mod settings;
pub mod source;
pub mod state;
