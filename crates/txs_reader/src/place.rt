//! What a place in a text is given by.

/// A place in a text, as editors show it: line and column are counted from 1, and a column is a character.
#[derive(Clone, Copy, Debug, PartialEq, Eq)]
pub struct Position {
    pub line: usize,
    pub column: usize,
}
