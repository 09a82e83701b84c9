//! A sign and a mark, where a line has one at a place.
ghost use Rattle.std.specs.Prelude.{◌≡◌, IfSome};
ghost use Rattle.std.specs.Option.{option_map};
ghost use Rattle.lexer.specs.Model.{ahead, token_is, Further};
ghost use Rattle.sums.specs.Sums.{mark_sign, is_mark, is_the, take_mark};
ghost use Rattle.sums.specs.Model.{Signed};

use lexer::cursor::Cursor;
use lexer::symbols::{Letter, Mark};
use lexer::token::Token;

/// The sign that a mark is, true for minus, as a value holds it.
// No `TryFrom`: a flag comes from much else than a mark.
fn sign_mark(m: Mark) -> Option<bool>
    ensures value { result ≡ mark_sign m }
{
    match m {
        Mark::Plus => Some(false),
        Mark::Minus => Some(true),
        _ => None,
    }
}

/// The sign at a cursor, true for minus, and the cursor after it.
pub fn sign(c: Cursor<'_>) -> Option<(bool, Cursor<'_>)>
    ensures value { Signed c.entry result }
{
    let (t, next) = c.token();
    let Token::Mark(m) = t else {
        return None;
    };
    Some((sign_mark(m)?, next))
}

/// Whether a letter is a certain one.
// The derived `==` by another name: the function is public, so it stays.
pub fn is_letter(a: Letter, b: Letter) -> bool
    ensures value { result ≡ is_the a b }
{
    a == b
}

/// Whether a token is a certain mark.
pub fn is_mark(m: Mark, t: Token<'_>) -> bool
    ensures value { result ≡ is_mark m (token_is t.entry) }
{
    match t {
        Token::Mark(k) => m == k,
        _ => false,
    }
}

/// The cursor after a certain mark at a cursor.
pub fn take(c: Cursor<'_>, m: Mark) -> Option<Cursor<'_>>
    ensures value { take_mark m (ahead c.entry) ≡ option_map ahead result }
    ensures further { IfSome result (Further c.entry) }
{
    let (t, next) = c.token();
    if is_mark(m, t) { Some(next) } else { None }
}
