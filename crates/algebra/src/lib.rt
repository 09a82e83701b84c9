//! Whole-number algebra: vectors of a plane, products that fit, and the facts about arcs that follow from them.
#![tactic(auto)]

pub mod number;
pub mod vector;
