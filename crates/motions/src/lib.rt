//! Axes, rows and motions of the machine, and the one refusal type.
#![tactic(auto)]

mod arc;
pub mod axes;
pub mod home;
pub mod limits;
pub mod motion;
pub mod ranges;
pub mod refusal;
pub mod row;
