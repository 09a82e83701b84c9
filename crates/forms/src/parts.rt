//! The smaller parts that statements are made of: names, targets, comparisons and repetitions.
ghost use Rattle.std.specs.Prelude.{◌≡◌};
ghost use Rattle.lexer.specs.Model.{ahead, num_is};
ghost use Rattle.forms.specs.Forms.{pause_by, name_of, after_n, target_of, direction, direction_of, mark_comparison, comparison_of, test_of, times_of};
ghost use Rattle.forms.specs.Model.{read_by, Past, name_at, target_is, test_is};

use crate::kinds::{Command, Kind};
use crate::said::{Comparison, Pause, Place, Target, Test};
use lexer::cursor::Cursor;
use lexer::number::Number;
use lexer::symbols::{Letter, Mark};
use lexer::token::Token;
use sums::marks::take;
use sums::reading::sum_end;
use sums::value::Value;

/// How many bytes a label has at most.
const NAME_BYTES: usize = 32;
/// How many digits N takes at most.
pub(crate) const NUMBER_DIGITS: usize = 5;
/// How often a repeat runs at most.
const MOST_TIMES: u32 = 9999;

/// What G4 waits for.
pub(crate) fn pause(kind: Kind, n: Number<'_>) -> Option<Pause>
    ensures value { result ≡ pause_by kind (num_is n.entry) }
{
    match kind {
        Kind::Feed => Some(Pause::Feed(n.thousandths()?)),
        Kind::Speed => Some(Pause::Speed(n.thousandths()?)),
        _ => None,
    }
}

/// The name at a cursor, if it is short enough for a label, and the cursor after it.
pub(crate) fn name(c: Cursor<'_>) -> Option<(Place, Cursor<'_>)>
    ensures value { name_of (ahead c.entry) ≡ read_by (name_at c.entry.line.now) result }
    ensures past { Past c.entry result }
{
    let (Token::Name(n), next) = c.token() else {
        return None;
    };
    let length = n.bytes.len();
    if length > NAME_BYTES {
        return None;
    }
    Some((
        Place {
            from: n.place,
            length,
        },
        next,
    ))
}

/// The number directly after N at a cursor, and the cursor after it.
pub(crate) fn after_n(c: Cursor<'_>) -> Option<(Number<'_>, Cursor<'_>)>
    ensures value { after_n (ahead c.entry) ≡ read_by num_is result }
    ensures past { Past c.entry result }
{
    let (Token::Word(Letter::N, n), next) = c.token() else {
        return None;
    };
    Some((n, next))
}

/// The target of a jump: a label, or N and its digits.
pub(crate) fn target(c: Cursor<'_>) -> Option<(Target<Place>, Cursor<'_>)>
    ensures value { target_of (ahead c.entry) ≡ read_by (target_is c.entry.line.now) result }
    ensures past { Past c.entry result }
{
    match name(c) {
        Some((p, next)) => Some((Target::Label(p), next)),
        None => {
            let (n, next) = after_n(c)?;
            Some((Target::Number(n.digits(NUMBER_DIGITS)?), next))
        }
    }
}

impl Command {
    /// Which way a jump command goes: true for forward. It is no `TryFrom`, since a way is not what a command is.
    fn heading(self) -> Option<bool>
        ensures value { result ≡ direction self }
    {
        match self {
            Command::Gotof => Some(true),
            Command::Gotob => Some(false),
            _ => None,
        }
    }
}

/// The jump command at a cursor, true for GOTOF, and the cursor after it.
pub(crate) fn forward(c: Cursor<'_>) -> Option<(bool, Cursor<'_>)>
    ensures value { direction_of (ahead c.entry) ≡ read_by (λ d. d) result }
    ensures past { Past c.entry result }
{
    let (Token::Name(n), next) = c.token() else {
        return None;
    };
    Some((Command::of(n)?.heading()?, next))
}

impl Comparison {
    /// The comparison that a mark is, if it is one. It is no `TryFrom`, since all that is said of another mark is that it is none.
    fn of(m: Mark) -> Option<Comparison>
        ensures value { result ≡ mark_comparison m }
    {
        Some(match m {
            Mark::Same => Comparison::Same,
            Mark::Differs => Comparison::Differs,
            Mark::Less => Comparison::Less,
            Mark::Greater => Comparison::Greater,
            Mark::AtMost => Comparison::AtMost,
            Mark::AtLeast => Comparison::AtLeast,
            _ => return None,
        })
    }
}

/// The comparison at a cursor, and the cursor after it.
fn comparison_at(c: Cursor<'_>) -> Option<(Comparison, Cursor<'_>)>
    ensures value { comparison_of (ahead c.entry) ≡ read_by (λ h. h) result }
    ensures past { Past c.entry result }
{
    let (Token::Mark(m), next) = c.token() else {
        return None;
    };
    Some((Comparison::of(m)?, next))
}

/// Two sums and the comparison between them.
pub(crate) fn test_at(c: Cursor<'_>) -> Option<(Test<Value>, Cursor<'_>)>
    ensures value { test_of (ahead c.entry) ≡ read_by (test_is c.entry.line.now) result }
    ensures past { Past c.entry result }
{
    let middle = sum_end(c)?;
    let (how, start) = comparison_at(middle)?;
    let next = sum_end(start)?;
    Some((
        Test {
            left: Value::Sum(c.at),
            how,
            right: Value::Sum(start.at),
        },
        next,
    ))
}

/// P, an equals sign and how often a repeat runs.
pub(crate) fn times(c: Cursor<'_>) -> Option<(u32, Cursor<'_>)>
    ensures value { times_of (ahead c.entry) ≡ read_by (λ v. v) result }
    ensures past { Past c.entry result }
{
    let (Token::Letter(Letter::P), second) = c.token() else {
        return None;
    };
    let third = take(second, Mark::Equals)?;
    let (Token::Number(n), next) = third.token() else {
        return None;
    };
    let v = n.integer()?;
    if (1..=MOST_TIMES).contains(&v) {
        Some((v, next))
    } else {
        None
    }
}
