//! The places of names, held within the code of their line.
ghost use Rattle.std.specs.Prelude.{◌≡◌, length, take};
ghost use Rattle.forms.specs.Model.{name_at};

use forms::said::Place;

/// The place of a name, cut where its line's code ends: at it the whole text has the name that the line has.
pub(crate) fn within_line(text: &[u8], end: usize, place: Place) -> Place
    ensures name { name_at text.now result ≡ name_at (take end text.now) place }
    ensures from { result.from ≡ place.from }
    ensures length { result.length ≡ length (name_at (take end text.now) place).bytes }
{
    let code = end.min(text.len());
    Place {
        from: place.from,
        length: place.length.min(code.saturating_sub(place.from)),
    }
}
