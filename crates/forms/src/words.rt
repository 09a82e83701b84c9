//! The words of a line, gathered one by one.
ghost use Rattle.std.specs.Prelude.{◌≡◌};
ghost use Rattle.forms.specs.Words.{no_words, on_axis, entered, no_numbered, only_axes};

use crate::said::{Groups, Named, Word, Words};
use motions::axes::{Axes, Axis};

/// These and a value for one axis, if it has none yet.
fn named<V: Copy>(axes: Named<V>, axis: Axis, value: V) -> Option<Named<V>>
    ensures value { result ≡ on_axis axis value axes }
{
    if axes.along(axis).is_none() {
        Some(axes.with(axis, Some(value)))
    } else {
        None
    }
}

impl<V: Copy> Words<V> {
    /// No word.
    pub(crate) fn none() -> Words<V>
        ensures value { result ≡ no_words }
    {
        Words {
            groups: Groups::default(),
            axes: Axes::alike(None),
            centres: Axes::alike(None),
            feed: None,
            speed: None,
            tool: None,
            action: None,
            area: None,
        }
    }

    /// These and one word more, if nothing has its address or its group yet.
    pub fn with(self, w: Word<V>) -> Option<Words<V>>
        ensures value { result ≡ entered w self }
    {
        let mut s = self;
        match w {
            Word::Function(g) => s.groups = s.groups.with(g)?,
            Word::Axis(a, v) => s.axes = named(s.axes, a, v)?,
            Word::Centre(a, v) => s.centres = named(s.centres, a, v)?,
            Word::Feed(v) if s.feed.is_none() => s.feed = Some(v),
            Word::Speed(v) if s.speed.is_none() => s.speed = Some(v),
            Word::Tool(v) if s.tool.is_none() => s.tool = Some(v),
            Word::Action(v) if s.action.is_none() => s.action = Some(v),
            Word::Area(on) if s.area.is_none() => s.area = Some(on),
            _ => return None,
        }
        Some(s)
    }

    /// Whether no word that holds a plain number stands there.
    fn no_numbered(self) -> bool
        ensures value { result ≡ no_numbered self }
    {
        self.feed.is_none() && self.speed.is_none() && self.tool.is_none() && self.action.is_none()
    }

    /// The axis words, if there are no others.
    pub(crate) fn only_axes(self) -> Option<Named<V>>
        ensures value { result ≡ only_axes self }
    {
        let g_free = self.groups.no_modal() && self.groups.no_flag();
        if g_free && self.centres.is_empty() && self.no_numbered() && self.area.is_none() {
            Some(self.axes)
        } else {
            None
        }
    }
}
