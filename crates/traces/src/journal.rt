//! The journal of a run: the motions that it made.
ghost use Rattle.std.specs.Prelude.{◌≤◌, vec_capacity};

use rules::run::Made;

mod recording;

/// The motions that a run made, in order. There is room for those of any run.
#[derive(Drop)]
pub struct Journal {
    made: Vec<Made>,
    ghost room: { 1000 ≤ vec_capacity made },
}
