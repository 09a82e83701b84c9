//! What a line says after its number and its label.
ghost use Rattle.std.specs.Prelude.{◌≡◌};
ghost use Rattle.std.specs.Option.{option_map};
ghost use Rattle.lexer.specs.Model.{ahead, num_is};
ghost use Rattle.forms.specs.Forms.{ended, words_line, axes_line, limits_line, shift_line, dwell_line, assign_line, jump_line, if_line, repeat_line, function_line, command_line, statement_of};
ghost use Rattle.forms.specs.Model.{axes_is, test_is, statement_is};

use crate::kinds::{Command, Kind};
use crate::parts::{forward, name, pause, target, test_at, times};
use crate::said::{Named, Place, Statement, Test};
use crate::word::{at_end, words};
use lexer::cursor::Cursor;
use lexer::number::Number;
use lexer::symbols::{Letter, Mark};
use lexer::token::Token;
use sums::marks::take;
use sums::reading::sum_end;
use sums::value::Value;

/// How many digits a parameter's number has at most.
const PARAMETER_DIGITS: usize = 2;

/// A statement, if the line ends at a cursor.
fn ended(c: Cursor<'_>, s: Statement<Value, Place>) -> Option<Statement<Value, Place>>
    ensures value { ended (statement_is c.entry.line.now s) (ahead c.entry) ≡ option_map (statement_is c.entry.line.now) result }
{
    if at_end(c) { Some(s) } else { None }
}

/// Words alone.
fn plain(c: Cursor<'_>) -> Option<Statement<Value, Place>>
    ensures value { words_line (ahead c.entry) ≡ option_map (statement_is c.entry.line.now) result }
{
    Some(Statement::Words(words(c)?))
}

/// The axis words up to the end of the line, where no others stand there.
#[tactic(auto, using(crate::proofs::Gather::only_axes_said))]
fn axes(c: Cursor<'_>) -> Option<Named<Value>>
    ensures value { axes_line (ahead c.entry) ≡ option_map (axes_is c.entry.line.now) result }
{
    words(c)?.only_axes()
}

/// What follows G25, or G26 for the upper limits.
fn limits(c: Cursor<'_>, upper: bool) -> Option<Statement<Value, Place>>
    ensures value { limits_line upper (ahead c.entry) ≡ option_map (statement_is c.entry.line.now) result }
{
    let axes = axes(c)?;
    if axes.is_empty() {
        return None;
    }
    Some(Statement::Limits { upper, axes })
}

/// What follows TRANS, or ATRANS where the shift is added.
fn shift(c: Cursor<'_>, adds: bool) -> Option<Statement<Value, Place>>
    ensures value { shift_line adds (ahead c.entry) ≡ option_map (statement_is c.entry.line.now) result }
{
    let axes = axes(c)?;
    Some(Statement::Shift { adds, axes })
}

/// What follows G4.
fn dwell(c: Cursor<'_>) -> Option<Statement<Value, Place>>
    ensures value { dwell_line (ahead c.entry) ≡ option_map (statement_is c.entry.line.now) result }
{
    let (Token::Word(l, n), next) = c.token() else {
        return None;
    };
    let p = pause(Kind::of(l)?, n)?;
    ended(next, Statement::Dwell(p))
}

/// What follows R and a number.
fn assign(c: Cursor<'_>, n: Number<'_>) -> Option<Statement<Value, Place>>
    ensures value { assign_line (num_is n.entry) (ahead c.entry) ≡ option_map (statement_is c.entry.line.now) result }
{
    let parameter = n.digits(PARAMETER_DIGITS)?;
    let start = take(c, Mark::Equals)?;
    let next = sum_end(start)?;
    ended(
        next,
        Statement::Assign {
            parameter,
            sum: Value::Sum(start.at),
        },
    )
}

/// What follows GOTOF or GOTOB.
fn jump(c: Cursor<'_>, forward: bool, test: Option<Test<Value>>) -> Option<Statement<Value, Place>>
    ensures value { jump_line forward (option_map (test_is c.entry.line.now) test) (ahead c.entry) ≡ option_map (statement_is c.entry.line.now) result }
{
    let (target, next) = target(c)?;
    ended(
        next,
        Statement::Jump {
            forward,
            target,
            test,
        },
    )
}

/// What follows IF.
fn conditional(c: Cursor<'_>) -> Option<Statement<Value, Place>>
    ensures value { if_line (ahead c.entry) ≡ option_map (statement_is c.entry.line.now) result }
{
    let (test, command) = test_at(c)?;
    let (ahead, next) = forward(command)?;
    jump(next, ahead, Some(test))
}

/// What follows REPEAT.
fn repeat(c: Cursor<'_>) -> Option<Statement<Value, Place>>
    ensures value { repeat_line (ahead c.entry) ≡ option_map (statement_is c.entry.line.now) result }
{
    let (label, next) = name(c)?;
    if at_end(next) {
        return Some(Statement::Repeat { label, times: None });
    }
    let (times, end) = times(next)?;
    ended(
        end,
        Statement::Repeat {
            label,
            times: Some(times),
        },
    )
}

/// What stands from a cursor on.
pub(crate) fn statement(c: Cursor<'_>) -> Option<Statement<Value, Place>>
    ensures value { statement_of (ahead c.entry) ≡ option_map (statement_is c.entry.line.now) result }
{
    let (t, next) = c.token();
    match t {
        Token::Name(n) => match Command::of(n)? {
            Command::Walimon | Command::Walimof => plain(c),
            Command::Trans => shift(next, false),
            Command::Atrans => shift(next, true),
            Command::Gotof => jump(next, true, None),
            Command::Gotob => jump(next, false, None),
            Command::If => conditional(next),
            Command::Repeat => repeat(next),
        },
        Token::Word(Letter::R, n) => assign(next, n),
        // 25, 26 and 4 belong to no group: such a number chooses the form of its line
        Token::Word(Letter::G, n) => match n.integer()? {
            25 => limits(next, false),
            26 => limits(next, true),
            4 => dwell(next),
            _ => plain(c),
        },
        Token::Word(..) | Token::Letter(_) => plain(c),
        Token::End => Some(Statement::Nothing),
        _ => None,
    }
}
