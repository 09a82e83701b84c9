//! One word of a line, and all of them.
ghost use Rattle.std.specs.Prelude.{◌≡◌, ℕ, ◌<◌, List};
ghost use Rattle.std.specs.Option.{option_map};
ghost use Rattle.lexer.specs.Tokens.{first, rest};
ghost use Rattle.lexer.specs.Model.{ahead, num_is};
ghost use Rattle.forms.specs.Forms.{is_end, signed_of, alone, word_of, spaced_of, area_of, one_word, all_words};
ghost use Rattle.forms.specs.declared.said.Word.TheVariants.{Area};
ghost use Rattle.sums.specs.Model.{value_is};
ghost use Rattle.forms.specs.Model.{read_by, Past, word_is, words_is};

use crate::kinds::{Command, Kind, function};
use crate::said::{Word, Words};
use lexer::cursor::Cursor;
use lexer::number::Number;
use lexer::symbols::Mark;
use lexer::token::Token;
use sums::marks::{sign, take};
use sums::reading::sum_end;
use sums::value::Value;

/// How many digits T takes at most.
const TOOL_DIGITS: usize = 4;
/// How many digits M takes at most.
const ACTION_DIGITS: usize = 2;

/// What follows an axis letter that no number follows directly, and the cursor after it.
fn signed(c: Cursor<'_>) -> Option<(Value, Cursor<'_>)>
    ensures value { signed_of (ahead c.entry) ≡ read_by (value_is c.entry.line.now) result }
    ensures past { Past c.entry result }
{
    match sign(c) {
        Some((minus, start)) => {
            let (Token::Number(n), next) = start.token() else {
                return None;
            };
            let thousandths = n.thousandths()?;
            Some((Value::Number { minus, thousandths }, next))
        }
        None => {
            let start = take(c, Mark::Equals)?;
            let next = sum_end(start)?;
            Some((Value::Sum(start.at), next))
        }
    }
}

/// The word that a value makes with an axis letter, or with I, J or K.
fn valued(kind: Kind, value: Value) -> Option<Word<Value>>
    ensures value { result ≡ option_map (λ f. f value) (alone kind) }
{
    match kind {
        Kind::Axis(a) => Some(Word::Axis(a, value)),
        Kind::Centre(a) => Some(Word::Centre(a, value)),
        _ => None,
    }
}

/// A letter and the number directly after it.
fn attached(kind: Kind, n: Number<'_>) -> Option<Word<Value>>
    ensures value { (line : List ℕ) → word_of kind (num_is n.entry) ≡ option_map (word_is line) result }
{
    match kind {
        Kind::Axis(_) | Kind::Centre(_) => {
            let thousandths = n.thousandths()?;
            valued(
                kind,
                Value::Number {
                    minus: false,
                    thousandths,
                },
            )
        }
        Kind::Feed => Some(Word::Feed(n.thousandths()?)),
        Kind::Speed => Some(Word::Speed(n.thousandths()?)),
        Kind::Tool => Some(Word::Tool(n.digits(TOOL_DIGITS)?)),
        Kind::Action => Some(Word::Action(n.digits(ACTION_DIGITS)?)),
        Kind::Function => Some(Word::Function(function(n)?)),
    }
}

/// A letter alone, and what follows it.
fn apart(kind: Kind, c: Cursor<'_>) -> Option<(Word<Value>, Cursor<'_>)>
    ensures value { spaced_of kind (ahead c.entry) ≡ read_by (word_is c.entry.line.now) result }
    ensures past { Past c.entry result }
{
    // The kind is asked first: of a letter that takes no value, none is read
    match kind {
        Kind::Axis(_) | Kind::Centre(_) => {
            let (value, next) = signed(c)?;
            Some((valued(kind, value)?, next))
        }
        _ => None,
    }
}

impl Command {
    /// Whether the command turns the working area on, or off; nothing where it does neither.
    fn area(self) -> Option<bool>
        ensures value { area_of self ≡ option_map (λ on. Area on) result }
    {
        match self {
            Command::Walimon => Some(true),
            Command::Walimof => Some(false),
            _ => None,
        }
    }
}

/// The word that stands next, and the cursor after it.
fn word(c: Cursor<'_>) -> Option<(Word<Value>, Cursor<'_>)>
    ensures value { one_word (first (ahead c.entry)) (rest (ahead c.entry)) ≡ read_by (word_is c.entry.line.now) result }
    ensures past { Past c.entry result }
{
    let (t, next) = c.token();
    match t {
        Token::Name(n) => Some((Word::Area(Command::of(n)?.area()?), next)),
        Token::Word(l, n) => Some((attached(Kind::of(l)?, n)?, next)),
        Token::Letter(l) => apart(Kind::of(l)?, next),
        _ => None,
    }
}

/// Whether no token is left from a cursor on.
pub(crate) fn at_end(c: Cursor<'_>) -> bool
    ensures value { result ≡ is_end (first (ahead c.entry)) }
{
    matches!(c.token(), (Token::End, _))
}

/// The words from a cursor to the end of the line, each address once.
pub(crate) fn words(c: Cursor<'_>) -> Option<Words<Value>>
    ensures value { all_words (ahead c.entry) ≡ option_map (words_is c.entry.line.now) result }
{
    let mut all = Words::none();
    let mut place = c;
    while !at_end(place) {
        let (w, next) = word(place)?;
        all = all.with(w)?;
        place = next;
    }
    Some(all)
}
