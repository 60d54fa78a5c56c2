//! Lines and columns of many places in one text.

use std::alloc::{AllocError, Global};
use txs_reader::place::Position;
use txs_reader::position;

/// How many bytes of the text there are from one mark to the next.
const BLOCK: usize = 1024;

/// A text, with the line and the column of each so many-th byte, so that no place takes a walk through the whole of it.
pub(crate) struct Places<'a> {
    text: &'a [u8],
    marks: Vec<Position>,
}

// Dropped by a call that is proved here.
impl Drop for Places<'_> {
    fn drop(self) {
        let Places { text: _, marks } = self;
        drop(marks);
    }
}

/// The place that is here in what is behind this mark.
fn behind(mark: Position, place: Position) -> Position {
    if place.line <= 1 {
        return Position {
            line: mark.line,
            column: mark.column.saturating_add(place.column).saturating_sub(1),
        };
    }
    Position {
        line: mark.line.saturating_add(place.line).saturating_sub(1),
        column: place.column,
    }
}

/// What is behind so many bytes.
fn rest_at(text: &[u8], from: usize) -> &[u8] {
    &text[from.min(text.len())..]
}

impl<'a> Places<'a> {
    /// The places of a text.
    pub(crate) fn of(alloc: Global, text: &'a [u8]) -> Result<Places<'a>, AllocError> {
        let mut marks = Vec::new(alloc);
        let mut mark = Position { line: 1, column: 1 };
        let mut rest = text;
        for _ in 0..text.len() / BLOCK + 1 {
            marks.push(mark)?;
            mark = behind(mark, position(rest, BLOCK));
            rest = rest_at(rest, BLOCK);
        }
        Ok(Places { text, marks })
    }

    /// The line and the column of the byte at this offset. An offset past the end is taken for the end.
    pub(crate) fn at(&self, offset: usize) -> Position {
        let number = offset.min(self.text.len()) / BLOCK;
        match self.marks.get(number) {
            Some(mark) => {
                let from = number * BLOCK;
                behind(*mark, position(rest_at(self.text, from), offset - from))
            }
            None => position(self.text, offset),
        }
    }
}
