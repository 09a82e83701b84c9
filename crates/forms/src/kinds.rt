//! What a letter opens, and which command a name is.
ghost use Rattle.std.specs.Prelude.{◌≡◌, map};
ghost use Rattle.std.specs.Char.{to_ascii_lowercase};
ghost use Rattle.lexer.specs.Model.{num_is};
ghost use Rattle.forms.specs.Kinds.{kind_of, command_of, function_of};

use crate::said::Groups;
use lexer::number::Number;
use lexer::symbols::Letter;
use lexer::token::Name;
use motions::axes::Axis;

/// What kind of word a letter opens.
#[derive(Clone, Copy, PartialEq, Eq)]
pub(crate) enum Kind {
    Axis(Axis),
    Centre(Axis),
    Feed,
    Speed,
    Tool,
    Action,
    Function,
}

/// The commands that are names.
#[derive(Clone, Copy, PartialEq, Eq)]
pub(crate) enum Command {
    Walimon,
    Walimof,
    Trans,
    Atrans,
    Gotof,
    Gotob,
    If,
    Repeat,
}

// `of` and no `TryFrom`: a letter or a name that is none of these is no error, but another form.

impl Kind {
    /// The kind of word that a letter opens, if it opens one.
    pub(crate) fn of(l: Letter) -> Option<Kind>
        ensures value { result ≡ kind_of l }
    {
        Some(match l {
            Letter::X => Kind::Axis(Axis::X),
            Letter::Y => Kind::Axis(Axis::Y),
            Letter::Z => Kind::Axis(Axis::Z),
            Letter::I => Kind::Centre(Axis::X),
            Letter::J => Kind::Centre(Axis::Y),
            Letter::K => Kind::Centre(Axis::Z),
            Letter::F => Kind::Feed,
            Letter::S => Kind::Speed,
            Letter::T => Kind::Tool,
            Letter::M => Kind::Action,
            Letter::G => Kind::Function,
            _ => return None,
        })
    }
}

impl Command {
    /// The command that a name is, if a blank or the end follows it.
    pub(crate) fn of(n: Name<'_>) -> Option<Command>
        ensures value { result ≡ command_of (map to_ascii_lowercase n.entry.bytes.now) n.entry.closed }
    {
        if !n.closed {
            return None;
        }
        match n.bytes {
            name if name.eq_ignore_ascii_case(b"walimon") => Some(Command::Walimon),
            name if name.eq_ignore_ascii_case(b"walimof") => Some(Command::Walimof),
            name if name.eq_ignore_ascii_case(b"trans") => Some(Command::Trans),
            name if name.eq_ignore_ascii_case(b"atrans") => Some(Command::Atrans),
            name if name.eq_ignore_ascii_case(b"gotof") => Some(Command::Gotof),
            name if name.eq_ignore_ascii_case(b"gotob") => Some(Command::Gotob),
            name if name.eq_ignore_ascii_case(b"if") => Some(Command::If),
            name if name.eq_ignore_ascii_case(b"repeat") => Some(Command::Repeat),
            _ => None,
        }
    }
}

/// The G function that a number is, if it has a group.
pub(crate) fn function(n: Number<'_>) -> Option<u32>
    ensures value { result ≡ function_of (num_is n.entry) }
{
    let g = n.integer()?;
    Groups::default().with(g)?;
    Some(g)
}
