//! The areas of the machine: box, edge and pair, and whether a motion lies in one.
#![tactic(auto)]

pub mod area;
pub mod edge;
mod half_plane;
pub mod limit_box;
