//! A part program as a run sees it.
ghost use Rattle.std.specs.Prelude.{◌≡◌, ◌≤◌, List, length};
ghost use Rattle.std.specs.Option.{option_map};
ghost use Rattle.forms.specs.Forms.{Named};
ghost use Rattle.forms.specs.declared.said.Place.{Place as PlaceIs};
ghost use Rattle.rules.specs.Values.{value, valued, named, named_target};
ghost use Rattle.forms.specs.Numbered.{numbered};
ghost use Rattle.rules.specs.Targets.{Said, target as target_is};
ghost use Rattle.rules.specs.Steps.{says_of};

use forms::said::{Place, Statement, Target};
use sums::amount::Amount;
use sums::parameters::Parameters;

/// A part program that was read, with names held by their places.
pub trait Source {
    /// What its lines say.
    ghost lines: { Self → List Said };
    /// The name that stands at a place.
    ghost names: { Self → PlaceIs → Named };

    /// How many lines there are.
    fn count(&self) -> usize
        ensures value { result ≡ length (Self.lines self.now) }
        ensures few { result ≤ 2000 };

    /// What a line says, with the value of each of its sums; nothing where one of them is beyond its range.
    fn says(&self, number: usize, params: &Parameters) -> Option<Statement<Amount, Place>>
        ensures value { option_map (named (Self.names self.now)) result ≡ valued (value params.now.values) (says_of (numbered (Self.lines self.now) number)) };

    /// The line that a target means, seen from a line.
    fn find(&self, forward: bool, target: Target<Place>, from: usize) -> Option<usize>
        ensures value { result ≡ target_is (Self.lines self.now) forward (named_target (Self.names self.now) target) from };
}
