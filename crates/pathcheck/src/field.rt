//! The fields of a line, and the numbers that they spell.
ghost use Rattle.std.specs.Prelude.{◌≡◌, ◌≤ℤ◌, pos, not, position, IfSome};
ghost use Rattle.std.specs.Iterator.{YieldsFirstRef, item_count};
ghost use Rattle.std.specs.Option.{option_map};
ghost use Rattle.pathcheck.specs.Fields.{is_blank, fields, digits_of, number_of};

/// As many digits as a number may have.
const MOST_DIGITS: usize = 9;

/// Whether a byte stands between fields.
// The lexer asks the same of its bytes; these lines are of another format, which may change alone.
fn is_blank(byte: u8) -> bool
    ensures value { result ≡ is_blank byte }
{
    matches!(byte, b'\t' | b'\r' | b' ')
}

// What `position` gives is known to a proof only as the result of a function of its own, so each of these two has one.

/// Where the first field begins, if there is one.
fn field_start(line: &[u8]) -> Option<usize>
    ensures value { result ≡ position (λ b. not (is_blank b)) line.now }
{
    line.iter().position(|b| !is_blank(*b))
}

/// Where the first blank stands, if there is one.
fn field_end(line: &[u8]) -> Option<usize>
    ensures value { result ≡ position is_blank line.now }
{
    line.iter().position(|b| is_blank(*b))
}

/// The fields of a line, or of what is left of it.
// A type of its own: whoever reads on promises which fields are left, for which a chain of closures has no word.
#[derive(Drop)]
pub struct Fields<'a>(pub &'a [u8]);

impl<'a> Iterator for Fields<'a> {
    type Item = &'a [u8];

    ghost next_gives = { YieldsFirstRef (λ s. fields s.0.now) };

    ghost remaining = { item_count (λ s. fields s.0.now) };

    fn next(&mut self) -> Option<&'a [u8]> {
        let start = field_start(self.0)?;
        let (_, line) = self.0.split_at(start);
        let (field, rest) = line.split_at(field_end(line).unwrap_or(line.len()));
        self.0 = rest;
        Some(field)
    }
}

/// The number that a run of digits spells, where there are neither too few nor too many.
fn digits(run: &[u8]) -> Option<i32>
    ensures value { result ≡ option_map pos (digits_of run.now) }
    ensures bound { IfSome result (λ v. pos 0 ≤ℤ v) }
{
    if run.is_empty() || run.len() > MOST_DIGITS {
        return None;
    }
    let mut value: u32 = 0;
    for b in run {
        if !b.is_ascii_digit() {
            return None;
        }
        value = value * 10 + u32::from(*b - b'0');
    }
    i32::try_from(value).ok()
}

/// The number that a field spells: an optional minus, then digits.
pub fn number(field: &[u8]) -> Option<i32>
    ensures value { result ≡ number_of field.now }
{
    match field {
        [b'-', run @ ..] => digits(run).map(|value| -value),
        run => digits(run),
    }
}
