//! What a byte is, and what opens at it.
ghost use Rattle.std.specs.Prelude.{◌≡◌};
ghost use Rattle.lexer.specs.Bytes.{is_blank, starts_name, in_name, mark_of, opens};
ghost use Rattle.lexer.specs.Model.{Tells};

use crate::symbols::{Mark, Opens};

/// Whether a byte is a tabulator, a carriage return or a space.
pub(crate) fn is_blank(c: u8) -> bool
    ensures value { result ≡ is_blank c }
{
    c == b'\t' || c == b'\r' || c == b' '
}

/// Whether a name may begin with a byte.
fn starts_name(c: u8) -> bool
    ensures value { result ≡ starts_name c }
{
    c.is_ascii_alphabetic() || c == b'_'
}

/// Whether a name may go on with a byte.
pub(crate) fn in_name(c: u8) -> bool
    ensures value { result ≡ in_name c }
{
    starts_name(c) || c.is_ascii_digit()
}

/// The mark that opens at `c` where `d` follows: one of two bytes before one of one.
fn mark(c: u8, d: u8) -> Option<Mark>
    ensures value { result ≡ mark_of c d }
{
    match (c, d) {
        (b'=', b'=') => Some(Mark::Same),
        (b'<', b'>') => Some(Mark::Differs),
        (b'<', b'=') => Some(Mark::AtMost),
        (b'>', b'=') => Some(Mark::AtLeast),
        (b'+', _) => Some(Mark::Plus),
        (b'-', _) => Some(Mark::Minus),
        (b'=', _) => Some(Mark::Equals),
        (b'(', _) => Some(Mark::Opening),
        (b')', _) => Some(Mark::Closing),
        (b':', _) => Some(Mark::Colon),
        (b'<', _) => Some(Mark::Less),
        (b'>', _) => Some(Mark::Greater),
        _ => None,
    }
}

/// What opens at `c`, which is no blank, where `d` follows it.
pub(crate) fn opens(c: u8, d: u8) -> Option<Opens>
    ensures value { result ≡ opens c d }
    ensures tells { Tells result c }
{
    if starts_name(c) && starts_name(d) {
        return Some(Opens::Name);
    }
    if c.is_ascii_alphabetic() && d.is_ascii_digit() {
        return Some(Opens::Word);
    }
    if c.is_ascii_alphabetic() {
        return Some(Opens::Letter);
    }
    if c.is_ascii_digit() {
        return Some(Opens::Number);
    }
    mark(c, d).map(Opens::Mark)
}
