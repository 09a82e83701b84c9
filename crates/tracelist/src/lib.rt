//! Tells the trace of a part program in the sample shop. No area is asked, so a motion that is told may leave the shop's area.
#![tactic(auto)]

mod listing;
pub mod setup;
pub mod telling;
