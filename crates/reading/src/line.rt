//! One line of a text.
ghost use Rattle.std.specs.Prelude.{◌≤◌, length};

/// A line of a text: the text, and the places where the line begins and ends in it.
// Places and no slice: names and sums are held by their places in the text.
#[derive(Clone, Copy, Drop)]
pub(crate) struct TextLine<'t> {
    pub(crate) text: &'t [u8],
    pub(crate) from: usize,
    pub(crate) end: usize,
    ghost low: { from ≤ end },
    ghost high: { end ≤ length text.now },
}
