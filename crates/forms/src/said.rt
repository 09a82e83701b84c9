//! What a line says, as data. `V` is what the value of an axis is held as, and `N` what a name is held as:
//! the code holds both by their places in the text, and the definitions hold them whole.

use motions::axes::{Axes, Axis, Plane};
use motions::row::Turn;

/// A value for each axis that is named.
pub type Named<V> = Axes<Option<V>>;

/// A name's place in the text: where it begins, and how many bytes it has. It is no slice of the text, since the room for
/// labels is made once and filled anew from one text after another, so that what it holds can't borrow from one of them.
#[derive(Clone, Copy, Debug, Drop, PartialEq, Eq)]
pub struct Place {
    pub from: usize,
    pub length: usize,
}

/// One word of a line.
#[derive(Clone, Copy, Drop, PartialEq, Eq)]
pub enum Word<V> {
    /// A G function by its number: `Groups::with` chooses its group, by ranges and guards, which is a rule of the project.
    Function(u32),
    Axis(Axis, V),
    Centre(Axis, V),
    Feed(u64),
    Speed(u64),
    Tool(u32),
    Action(u32),
    /// WALIMON, or else WALIMOF.
    Area(bool),
}

/// The way from start to end: G0, G1, and G2 or G3.
#[derive(Clone, Copy, Drop, PartialEq, Eq)]
pub enum Interpolation {
    Rapid,
    Line,
    Arc(Turn),
}

/// G90 and G91: whether the value of an axis says where it goes or how far.
#[derive(Clone, Copy, Debug, Drop, PartialEq, Eq)]
pub enum Measure {
    Absolute,
    Incremental,
}

/// Which of the zero points counts; G500 is none.
#[derive(Clone, Copy, Debug, Drop, PartialEq, Eq)]
pub enum Slot {
    G500,
    G54,
    G55,
    G56,
    G57,
}

/// The G functions of a line, at most one of each group.
#[derive(Clone, Copy, Default, Drop, PartialEq, Eq)]
pub struct Groups {
    pub motion: Option<Interpolation>,
    pub plane: Option<Plane>,
    pub measure: Option<Measure>,
    pub zero: Option<Slot>,
    pub g53: bool,
    pub g40: bool,
    pub g60: bool,
    pub g64: bool,
    pub g71: bool,
    pub g94: bool,
}

/// The words of a line, each address at most once.
#[derive(Clone, Copy, Drop, PartialEq, Eq)]
pub struct Words<V> {
    pub groups: Groups,
    pub axes: Named<V>,
    pub centres: Named<V>,
    pub feed: Option<u64>,
    pub speed: Option<u64>,
    pub tool: Option<u32>,
    pub action: Option<u32>,
    pub area: Option<bool>,
}

/// How an IF compares its two sums.
#[derive(Clone, Copy, Debug, Drop, PartialEq, Eq)]
pub enum Comparison {
    Same,
    Differs,
    Less,
    Greater,
    AtMost,
    AtLeast,
}

/// The comparison after IF.
#[derive(Clone, Copy, Debug, Drop, PartialEq, Eq)]
pub struct Test<V> {
    pub left: V,
    pub how: Comparison,
    pub right: V,
}

/// Where a jump goes: to a label, or to a line's N number.
#[derive(Clone, Copy, Debug, Drop, PartialEq, Eq)]
pub enum Target<N> {
    Label(N),
    Number(u32),
}

/// What G4 waits for: a time, or turns of the spindle.
#[derive(Clone, Copy, Debug, Drop, PartialEq, Eq)]
pub enum Pause {
    Feed(u64),
    Speed(u64),
}

/// What a line says after its number and its label.
// `upper`, `adds` and `forward` are flags: each has two values, and its name says both.
#[derive(Clone, Copy, Drop, PartialEq, Eq)]
pub enum Statement<V, N> {
    /// An empty statement: nothing stands there.
    Nothing,
    Words(Words<V>),
    /// G25 sets the lower limits, G26 the upper ones.
    Limits {
        upper: bool,
        axes: Named<V>,
    },
    Dwell(Pause),
    /// TRANS sets the shift, ATRANS adds to it.
    Shift {
        adds: bool,
        axes: Named<V>,
    },
    Assign {
        parameter: u32,
        sum: V,
    },
    Jump {
        forward: bool,
        target: Target<N>,
        test: Option<Test<V>>,
    },
    /// `times` is what stands after P, where it was written.
    Repeat {
        label: N,
        times: Option<u32>,
    },
}

/// A line: its N number, its label, and what it says.
#[derive(Clone, Copy, Drop, PartialEq, Eq)]
pub struct Line<V, N> {
    pub number: Option<u32>,
    pub label: Option<N>,
    pub says: Statement<V, N>,
}
