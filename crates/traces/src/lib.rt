//! Whole runs: the trace of a part program, what holds of every one, and the journal that records one.
#![tactic(auto)]

pub mod journal;
pub mod laws;
