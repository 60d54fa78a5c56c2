//! The line and the column of a byte.

ghost use Rattle.std.specs.Prelude.{◌≡◌};
ghost use Rattle.txs_reader.specs.Place.{line_number, column_number};

use crate::line_bytes::{characters, newlines};
use crate::lines::{before, last_line};
use crate::place::Position;

/// The place of the byte at this offset, of a text in UTF-8. An offset past the end is taken for the end.
pub fn position(text: &[u8], offset: usize) -> Position
    ensures line { result.line ≡ line_number text.now offset }
    ensures column { result.column ≡ column_number text.now offset }
{
    let front = before(text, offset);
    Position {
        line: newlines(front) + 1,
        column: characters(last_line(front)) + 1,
    }
}
