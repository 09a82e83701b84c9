//! What a line is looked for by: a line's N number, or the name of a label.
ghost use Rattle.std.specs.Prelude.{◌≡◌, ℕ, Bool, List, take, drop, ◌==◌};
ghost use Rattle.index.specs.Entries.{same_name};

use forms::said::Place;

/// What a line is looked for by. Whether two keys are the same may depend on the text that they stand in.
pub trait Key: Copy {
    /// Whether two keys of a text are the same.
    ghost same: { List ℕ → Self → Self → Bool };

    /// Whether this key and another are the same in a text.
    fn is(&self, other: &Self, text: &[u8]) -> bool
        ensures value { result ≡ same text.now self.now other.now };
}

/// N numbers are the same where their values are, in every text.
impl Key for u32 {
    ghost same = { λ text a b. (a == b) };

    fn is(&self, other: &u32, text: &[u8]) -> bool {
        *self == *other
    }
}

/// Names are the same where their bytes are, with capitals made small.
impl Key for Place {
    ghost same = { λ text a b. same_name text a b };

    fn is(&self, other: &Place, text: &[u8]) -> bool {
        bytes_at(text, self).eq_ignore_ascii_case(bytes_at(text, other))
    }
}

/// The bytes of a text at a place, as far as the text goes.
fn bytes_at<'t>(text: &'t [u8], place: &Place) -> &'t [u8]
    ensures value { result.now ≡ take place.now.length (drop place.now.from text.now) }
{
    let rest = text.get(place.from..).unwrap_or(&[]);
    rest.get(..place.length).unwrap_or(rest)
}
