//! Tables: rows of names or of bytes, with what is said of them.

ghost use Rattle.std.specs.Prelude.{◌≡◌, map};
ghost use Rattle.std.specs.Option.{option_copied};
ghost use Rattle.txs_cli_advice_script.specs.Nears.{Nearest};
ghost use Rattle.txs_cli_advice_script.specs.Rows.{has_byte, has_word, said_in, said_of, words, words_of};

use crate::near::{Near, nearer};

/// Names with a space between each two, or bytes, and what is said of each of them.
pub type Row = (&'static str, &'static str);

/// What the first row that has the name says of it, or this where none has it. The names of a row have a space between each two.
#[tactic(auto, unfolding(crate::specs::Rows::said_in))]
pub fn in_rows<T: Copy + 'static>(rows: &'static [(&'static str, T)], name: &str, otherwise: T) -> T
    ensures { result ≡ said_in (map (λ row. (row.0.now, row.1)) rows.now) name.now otherwise }
{
    for row in rows {
        if has_word(row.0, name) {
            return row.1;
        }
    }
    otherwise
}

/// Whether a row has a word.
#[tactic(auto, unfolding(crate::specs::Rows::has_word))]
fn has_word(row: &str, word: &str) -> bool
    ensures { result ≡ has_word row.now word.now }
{
    row.split(' ').any(|it| it == word)
}

/// The word of a row that is nearest to a name, if it is nearer than this.
fn nearest_word(row: &'static str, name: &str, best: Near<'static>) -> Near<'static>
    ensures { Nearest (words row.now) best.entry result }
{
    let mut best = best;
    for it in row.split(' ') {
        best = nearer(name, best, it);
    }
    best
}

/// The word of the rows that is nearest to a name, if it is nearer than this.
pub(crate) fn nearest_in<T: Copy + 'static>(
    rows: &'static [(&'static str, T)],
    name: &str,
    best: Near<'static>,
) -> Near<'static>
    ensures { Nearest (words_of (map (λ row. row.0.now) rows.now)) best.entry result }
{
    let mut best = best;
    for row in rows {
        best = nearest_word(row.0, name, best);
    }
    best
}

/// Whether a row has one of these bytes.
#[tactic(auto, unfolding(crate::specs::Rows::has_byte))]
fn has_byte(row: &str, bytes: &[u8]) -> bool
    ensures { result ≡ has_byte row.now bytes.now }
{
    row.as_bytes().iter().any(|byte| bytes.contains(byte))
}

/// What the first row that has one of the bytes says of it.
#[tactic(auto, unfolding(crate::specs::Rows::said_of))]
pub(crate) fn of_bytes(rows: &'static [Row], bytes: &[u8]) -> Option<&'static str>
    ensures { option_copied result ≡ said_of (map (λ row. (row.0.now, row.1.now)) rows.now) bytes.now }
{
    for row in rows {
        if has_byte(row.0, bytes) {
            return Some(row.1);
        }
    }
    None
}
