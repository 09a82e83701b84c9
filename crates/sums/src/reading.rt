//! Sums: what stands at a place of a line, and what it is worth.
ghost use Rattle.std.specs.Prelude.{◌≡◌, ◌≤◌, IfSome, pos, Some};
ghost use Rattle.std.specs.Option.{option_map};
ghost use Rattle.lexer.specs.Tokens.{first};
ghost use Rattle.lexer.specs.Model.{ahead, left, Further};
ghost use Rattle.sums.specs.Sums.{sign_of, minus_of, after_sign, term_of, sum_in, sum_of, bracket_of, plus, worth, total};
ghost use Rattle.sums.specs.Model.{Walked, sum_at, value_is};

use crate::amount::Amount;
use crate::marks::{is_letter, is_mark, sign, take};
use crate::parameters::Parameters;
use crate::value::Value;
use lexer::cursor::Cursor;
use lexer::symbols::{Letter, Mark};
use lexer::token::Token;

/// How many brackets may be open at once.
const BRACKETS: usize = 8;

/// What a part of a sum is worth, if it is in range, and the cursor after it.
// Taken apart by `let .. else` or `match`: `?` was tried, and where an amount stands beside a reference it got no proof.
type Read<'t> = (Option<Amount>, Cursor<'t>);

/// A value added to what was added so far, or taken from it; nothing where either is beyond the range.
fn plus(minus: bool, acc: Option<Amount>, v: Option<Amount>) -> Option<Amount>
    ensures value { result ≡ plus minus acc v }
{
    let x = acc?;
    let y = v?;
    if minus {
        x.checked_sub(y)
    } else {
        x.checked_add(y)
    }
}

/// Whether a minus stands before a sum's first term, and where that term begins.
fn lead(c: Cursor<'_>) -> (bool, Cursor<'_>)
    ensures minus { result.0 ≡ minus_of (sign_of (first (ahead c.entry))) }
    ensures start { ahead result.1 ≡ after_sign (sign_of (first (ahead c.entry))) (ahead c.entry) }
    ensures line { result.1.line.now ≡ c.entry.line.now }
    ensures moves { left result.1 ≤ left c.entry }
{
    sign(c).unwrap_or((false, c))
}

// A cursor, the brackets that may be opened and the parameters are handed to each of these three. Each call changes the first, and
// some the second, so a struct of them would be taken apart and made anew at each.

/// A sum, while `depth` brackets may be opened in it: what it is worth, and the cursor after it.
#[cycle(bracket_sum_term)]
fn sum<'t>(c: Cursor<'t>, depth: usize, params: &Parameters) -> Option<Read<'t>>
    ensures walks { Walked (total params.now.values (Some (pos 0))) (sum_in depth (ahead c.entry)) result }
    ensures further { IfSome result (λ r. Further c.entry r.1) }
{
    let (minus, start) = lead(c);
    let Some((v, mut after)) = term(start, depth, params) else {
        return None;
    };
    let mut acc = plus(minus, Some(Amount::ZERO), v);
    while let Some((m, next)) = sign(after) {
        let Some((w, end)) = term(next, depth, params) else {
            return None;
        };
        acc = plus(m, acc, w);
        after = end;
    }
    Some((acc, after))
}

/// A term: a number, a parameter, or a sum in brackets.
#[cycle(bracket_sum_term)]
fn term<'t>(c: Cursor<'t>, depth: usize, params: &Parameters) -> Option<Read<'t>>
    ensures walks { Walked (worth params.now.values) (term_of depth (ahead c.entry)) result }
    ensures further { IfSome result (λ r. Further c.entry r.1) }
{
    let (t, next) = c.token();
    match t {
        Token::Number(n) => {
            let v = n.thousandths()?;
            Some((Amount::try_from(v).ok(), next))
        }
        Token::Word(l, n) => {
            if !is_letter(Letter::R, l) {
                return None;
            }
            let k = n.digits(2)?;
            // by `as`: Rust has no `From<u32>` for `usize`, and a `TryFrom` would need an answer for what can't come
            Some((Some(params.get(k as usize)), next))
        }
        Token::Mark(_) => {
            if !is_mark(Mark::Opening, t) {
                return None;
            }
            bracket(next, depth, params)
        }
        _ => None,
    }
}

/// What follows an opening bracket, up to its closing one.
#[cycle(bracket_sum_term)]
fn bracket<'t>(c: Cursor<'t>, depth: usize, params: &Parameters) -> Option<Read<'t>>
    ensures walks { Walked (worth params.now.values) (bracket_of depth (ahead c.entry)) result }
    ensures further { IfSome result (λ r. Further c.entry r.1) }
{
    if depth == 0 {
        return None;
    }
    let Some((v, after)) = sum(c, depth - 1, params) else {
        return None;
    };
    let next = take(after, Mark::Closing)?;
    Some((v, next))
}

/// The cursor after the sum that stands at one.
pub fn sum_end(c: Cursor<'_>) -> Option<Cursor<'_>>
    ensures value { sum_of (ahead c.entry) ≡ option_map (λ next. (sum_at c.entry.line.now c.entry.at, ahead next)) result }
    ensures further { IfSome result (Further c.entry) }
{
    match sum(c, BRACKETS, &Parameters::new()) {
        Some((_, next)) => Some(next),
        None => None,
    }
}

/// What the sum at a cursor is worth; nothing where a partial result is beyond the range.
fn sum_worth(c: Cursor<'_>, params: &Parameters) -> Option<Amount>
    ensures value { result ≡ total params.now.values (Some (pos 0)) (sum_at c.entry.line.now c.entry.at) }
{
    match sum(c, BRACKETS, params) {
        Some((v, _)) => v,
        None => Some(Amount::ZERO),
    }
}

/// What a value that a line holds is worth; nothing where a partial result is beyond the range.
pub fn worth(line: &[u8], v: Value, params: &Parameters) -> Option<Amount>
    ensures value { result ≡ total params.now.values (Some (pos 0)) (value_is line.now v) }
{
    match v {
        Value::Number { minus, thousandths } => {
            let given = Amount::try_from(thousandths).ok();
            plus(minus, Some(Amount::ZERO), given)
        }
        Value::Sum(at) => sum_worth(Cursor { line, at }, params),
    }
}
