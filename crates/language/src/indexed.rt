//! A program with the indexes that hold its targets.
ghost use Rattle.std.specs.Prelude.{◌≡◌};
ghost use Rattle.forms.specs.Model.{name_at};
ghost use Rattle.index.specs.Entries.{entries, lines_with};
ghost use Rattle.rules.specs.Targets.{target as target_is};
ghost use Rattle.rules.specs.Values.{named_target};
ghost use Rattle.reading.specs.Reading.{held_text, held_lines};
ghost use Rattle.language.specs.Indexing.{nearest_by, Whole};

use crate::targets::Targets;
use forms::said::{Place, Target};
use index::index::Index;
use index::key::Key;
use reading::program::Program;

/// A program, and the indexes that hold the targets of its lines, and no others.
#[derive(Drop)]
pub struct Indexed<'a, 't, 'r> {
    pub program: &'a Program<'t>,
    pub targets: &'a Targets<'r>,
    ghost whole: { ∥ Whole (held_lines program.now) targets.now ∥₁ },
}

/// The nearest line under a key: above a line, or else up to it.
// The flag is the jump's own; a closure in its place would be chosen by the same test.
fn nearest<K: Key>(
    index: &Index<'_, K>,
    text: &[u8],
    key: &K,
    forward: bool,
    from: usize,
) -> Option<usize>
    ensures value { result ≡ nearest_by forward from (lines_with (K.same text.now) key.now (entries index.now)) }
{
    if forward {
        index.after(text, key, from)
    } else {
        index.up_to(text, key, from)
    }
}

impl Indexed<'_, '_, '_> {
    /// The line that a target means, seen from a line.
    pub fn find(&self, forward: bool, target: Target<Place>, from: usize) -> Option<usize>
        ensures value { result ≡ target_is (held_lines self.now.program.now) forward (named_target (name_at (held_text self.now.program.now)) target) from }
    {
        let text = self.program.text();
        match target {
            Target::Number(number) => nearest(&self.targets.numbers, text, &number, forward, from),
            Target::Label(name) => nearest(&self.targets.labels, text, &name, forward, from),
        }
    }
}
