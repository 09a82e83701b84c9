//! The part of a line before its comment.
ghost use Rattle.std.specs.Prelude.{◌≡◌, ◌+◌, drop};
ghost use Rattle.std.specs.List.{prefix_len};
ghost use Rattle.lexer.specs.Bytes.{in_code};

use crate::cursor::Cursor;

const SEMICOLON: u8 = b';';

// The runs of digits, of a name's bytes and of code are one line each: a function over the test would ask something of its closure,
// and public functions ask nothing.

/// Where the code from a place on ends: at the first semicolon, or at the end.
pub fn code_end(line: &[u8], from: usize) -> usize
    ensures value { result ≡ from + prefix_len in_code (drop from line.now) }
{
    // Cut at the cursor: the library's `skip` goes past every byte before it, so each line of a text would be walked to from its start.
    let rest = Cursor { line, at: from }.rest();
    from + rest.iter().take_while(|b| **b != SEMICOLON).count()
}
