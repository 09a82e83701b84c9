//! A number as it stands in a line, and what it stands for.
ghost use Rattle.std.specs.Prelude.{◌≡◌, ◌+◌, ◌-◌, ◌*◌, ◌^◌, ◌≤◌, min, length, take};
ghost use Rattle.std.specs.List.{prefix_len};
ghost use Rattle.lexer.specs.Digits.{is_digit};
ghost use Rattle.lexer.specs.Tokens.{pointed, part_of, num_of, num_length};
ghost use Rattle.lexer.specs.Numbers.{value_of, digits_of, integer_of, decimal_of};
ghost use Rattle.lexer.specs.Model.{part_is, num_is, Capped};

/// The digits before a number's point and, where it has one, those after it.
#[derive(Clone, Copy)]
pub struct Number<'t> {
    pub whole: &'t [u8],
    pub part: Option<&'t [u8]>,
}

/// How many digits may stand before a point, and how many after it.
const WHOLE_DIGITS: usize = 7;

const PART_DIGITS: usize = 3;
/// What a number of any length is cut to: more than any that a form takes.
const CAP: u32 = 10_000;

/// The digits that stand first.
fn digits(s: &[u8]) -> &[u8]
    ensures value { result.now ≡ take (prefix_len is_digit s.entry.now) s.entry.now }
{
    let n = s.iter().take_while(|b| b.is_ascii_digit()).count();
    &s[..n]
}

/// The digits after a point that stands first, where there are any.
fn part(s: &[u8]) -> Option<&[u8]>
    ensures value { part_is result ≡ part_of (pointed s.entry.now) s.entry.now }
{
    match s {
        [b'.', d, ..] if d.is_ascii_digit() => Some(digits(&s[1..])),
        _ => None,
    }
}

/// What a run of digits stands for, or the greatest number of 32 bits where it stands for more.
fn value(s: &[u8]) -> u32
    ensures value { result ≡ min (value_of s.now) 4294967295 }
    ensures bound { result + 23 ≤ 23 * 10 ^ length s.now }
{
    let mut v: u32 = 0;
    for b in s {
        v = v
            .saturating_mul(10)
            .saturating_add(u32::from(b.saturating_sub(b'0')));
    }
    v
}

impl<'t> Number<'t> {
    /// The number that stands first.
    pub(crate) fn first(s: &'t [u8]) -> Number<'t>
        ensures value { num_is result ≡ num_of s.entry.now }
    {
        let whole = digits(s);
        Number {
            whole,
            part: part(&s[whole.len()..]),
        }
    }

    /// How many bytes the number has.
    pub(crate) fn length(self) -> usize
        ensures value { result ≡ num_length (num_is self.entry) }
    {
        self.whole.len() + self.part.map_or(0, |p| p.len() + 1)
    }

    /// The number in thousandths, if it has few enough digits before and after its point.
    pub fn thousandths(self) -> Option<u64>
        ensures value { result ≡ decimal_of (num_is self.entry) }
    {
        let part = self.part.unwrap_or(&[]);
        if self.whole.len() > WHOLE_DIGITS || part.len() > PART_DIGITS {
            return None;
        }
        // by `as`, which is proved to keep the number: a `TryFrom` would need an answer for what can't come
        let scale = 10u64.pow((PART_DIGITS - part.len()) as u32);
        Some(u64::from(value(self.whole)) * 1000 + u64::from(value(part)) * scale)
    }

    /// The number, if it has no point and at most so many digits, and never more than may stand before a point.
    pub fn digits(self, most: usize) -> Option<u32>
        ensures value { result ≡ digits_of (min most 7) (num_is self.entry) }
    {
        if self.part.is_some() || self.whole.len() > most.min(WHOLE_DIGITS) {
            return None;
        }
        Some(value(self.whole))
    }

    /// The number, if it has no point, cut to the cap.
    pub fn integer(self) -> Option<u32>
        ensures value { Capped (integer_of (num_is self.entry)) result }
    {
        if self.part.is_some() {
            return None;
        }
        Some(value(self.whole).min(CAP))
    }
}
