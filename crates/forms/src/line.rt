//! A whole line.
ghost use Rattle.std.specs.Prelude.{◌≡◌, IfSome};
ghost use Rattle.std.specs.Option.{option_map};
ghost use Rattle.lexer.specs.Model.{ahead};
ghost use Rattle.forms.specs.Forms.{number_of, label_of, form_of};
ghost use Rattle.forms.specs.Model.{read_by, name_at, line_is};

use crate::parts::{NUMBER_DIGITS, after_n, name};
use crate::said::{Line, Place};
use crate::statement::statement;
use lexer::cursor::Cursor;
use lexer::symbols::Mark;
use sums::marks::take;
use sums::value::Value;

/// The N number at a cursor, if there is one, and the cursor after it.
fn number(c: Cursor<'_>) -> Option<(Option<u32>, Cursor<'_>)>
    ensures value { number_of (ahead c.entry) ≡ read_by (λ n. n) result }
    ensures line { IfSome result (λ r. r.1.line.now ≡ c.entry.line.now) }
{
    match after_n(c) {
        Some((n, next)) => Some((Some(n.digits(NUMBER_DIGITS)?), next)),
        None => Some((None, c)),
    }
}

/// The label at a cursor, if there is one, and the cursor after its colon.
fn label(c: Cursor<'_>) -> Option<(Option<Place>, Cursor<'_>)>
    ensures value { label_of (ahead c.entry) ≡ read_by (option_map (name_at c.entry.line.now)) result }
    ensures line { IfSome result (λ r. r.1.line.now ≡ c.entry.line.now) }
{
    let (_, second) = c.token();
    match take(second, Mark::Colon) {
        Some(next) => {
            let (p, _) = name(c)?;
            Some((Some(p), next))
        }
        None => Some((None, c)),
    }
}

/// What a line says: the cursor stands where it begins, in the bytes of the text up to the end of its code.
pub fn line_at(c: Cursor<'_>) -> Option<Line<Value, Place>>
    ensures value { form_of (ahead c.entry) ≡ option_map (line_is c.entry.line.now) result }
{
    let (number, second) = number(c)?;
    let (label, third) = label(second)?;
    let says = statement(third)?;
    Some(Line {
        number,
        label,
        says,
    })
}
