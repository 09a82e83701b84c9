//! What a line says, with the values of its sums.
ghost use Rattle.std.specs.Prelude.{◌≡◌};
ghost use Rattle.std.specs.Option.{option_map};
ghost use Rattle.sums.specs.Model.{value_is};
ghost use Rattle.forms.specs.Model.{axes_is, words_is, test_is, target_is, statement_is, name_at};
ghost use Rattle.rules.specs.Values.{optional, each, valued_test, valued_words, valued, named_target, named};
ghost use Rattle.reading.specs.Reading.{held_text};
ghost use Rattle.language.specs.Valuing.{code_of, worth_of};

use crate::names::within_line;
use forms::said::{Named, Place, Statement, Target, Test, Words};
use motions::axes::Axes;
use reading::program::{Held, Program};
use sums::amount::Amount;
use sums::parameters::Parameters;
use sums::value::Value;

/// A line that a program holds, and the parameters that its sums are worth by.
#[derive(Clone, Copy)]
pub(crate) struct Valuing<'a, 't> {
    pub(crate) program: &'a Program<'t>,
    pub(crate) held: Held,
    pub(crate) params: &'a Parameters,
}

impl Valuing<'_, '_> {
    /// What a sum is worth.
    fn worth(&self, v: Value) -> Option<Amount>
        ensures value { result ≡ worth_of self.now (value_is (code_of self.now) v) }
    {
        self.program.worth(self.held, v, self.params)
    }

    /// The value of one axis, if the line names it.
    fn axis(&self, v: Option<Value>) -> Option<Option<Amount>>
        ensures value { result ≡ optional (worth_of self.now) (option_map (value_is (code_of self.now)) v) }
    {
        // `map_or` was tried, and its proof did not close
        let Some(v) = v else {
            return Some(None);
        };
        Some(Some(self.worth(v)?))
    }

    /// The value of each axis that the line names.
    fn axes(&self, a: Named<Value>) -> Option<Named<Amount>>
        ensures value { result ≡ each (worth_of self.now) (axes_is (code_of self.now) a) }
    {
        Some(Axes {
            x: self.axis(a.x)?,
            y: self.axis(a.y)?,
            z: self.axis(a.z)?,
        })
    }

    /// The words of the line, with the values of its axes and of its centre.
    fn words(&self, ws: Words<Value>) -> Option<Words<Amount>>
        ensures value { result ≡ valued_words (worth_of self.now) (words_is (code_of self.now) ws) }
    {
        Some(Words {
            groups: ws.groups,
            axes: self.axes(ws.axes)?,
            centres: self.axes(ws.centres)?,
            feed: ws.feed,
            speed: ws.speed,
            tool: ws.tool,
            action: ws.action,
            area: ws.area,
        })
    }

    /// The comparison of the values of two sums.
    fn test(&self, t: Test<Value>) -> Option<Test<Amount>>
        ensures value { result ≡ valued_test (worth_of self.now) (test_is (code_of self.now) t) }
    {
        Some(Test {
            left: self.worth(t.left)?,
            how: t.how,
            right: self.worth(t.right)?,
        })
    }

    /// The comparison after IF, if there is one.
    fn tests(&self, t: Option<Test<Value>>) -> Option<Option<Test<Amount>>>
        ensures value { result ≡ optional (valued_test (worth_of self.now)) (option_map (test_is (code_of self.now)) t) }
    {
        let Some(t) = t else {
            return Some(None);
        };
        Some(Some(self.test(t)?))
    }

    /// The place of a name, cut at the end of the line's code.
    fn name(&self, place: Place) -> Place
        ensures name { name_at (held_text self.now.program.now) result ≡ name_at (code_of self.now) place }
    {
        within_line(self.program.text(), self.held.end, place)
    }

    /// Where a jump goes, with its label cut at the end of the line's code.
    fn target(&self, t: Target<Place>) -> Target<Place>
        ensures name { named_target (name_at (held_text self.now.program.now)) result ≡ target_is (code_of self.now) t }
    {
        match t {
            Target::Label(place) => Target::Label(self.name(place)),
            Target::Number(n) => Target::Number(n),
        }
    }

    /// What the line says, with the value of each of its sums; nothing where one of them is beyond its range.
    pub(crate) fn says(&self) -> Option<Statement<Amount, Place>>
        ensures value { option_map (named (name_at (held_text self.now.program.now))) result ≡ valued (worth_of self.now) (statement_is (code_of self.now) self.now.held.line.says) }
    {
        Some(match self.held.line.says {
            Statement::Nothing => Statement::Nothing,
            Statement::Words(ws) => Statement::Words(self.words(ws)?),
            Statement::Limits { upper, axes } => Statement::Limits {
                upper,
                axes: self.axes(axes)?,
            },
            Statement::Dwell(pause) => Statement::Dwell(pause),
            Statement::Shift { adds, axes } => Statement::Shift {
                adds,
                axes: self.axes(axes)?,
            },
            Statement::Assign { parameter, sum } => Statement::Assign {
                parameter,
                sum: self.worth(sum)?,
            },
            Statement::Jump {
                forward,
                target,
                test,
            } => Statement::Jump {
                forward,
                target: self.target(target),
                test: self.tests(test)?,
            },
            Statement::Repeat { label, times } => Statement::Repeat {
                label: self.name(label),
                times,
            },
        })
    }
}
