//! A program with its targets is a source of runs.
ghost use Rattle.forms.specs.Model.{name_at};
ghost use Rattle.reading.specs.Reading.{held_text, held_lines};

use crate::indexed::Indexed;
use crate::valuing::Valuing;
use forms::said::{Place, Statement, Target};
use rules::source::Source;
use sums::amount::Amount;
use sums::parameters::Parameters;

impl Source for Indexed<'_, '_, '_> {
    ghost lines = { λ s. held_lines s.program.now };

    ghost names = { λ s p. name_at (held_text s.program.now) p };

    fn count(&self) -> usize {
        self.program.count()
    }

    fn says(&self, number: usize, params: &Parameters) -> Option<Statement<Amount, Place>> {
        let program = self.program;
        match program.line(number) {
            Some(held) => Valuing {
                program,
                held,
                params,
            }
            .says(),
            None => Some(Statement::Nothing),
        }
    }

    fn find(&self, forward: bool, target: Target<Place>, from: usize) -> Option<usize> {
        Indexed::find(self, forward, target, from)
    }
}
