//! The lines and columns of a script's bytes, each found in a part of its text.

use std::alloc::{AllocError, Global};
use txs_reader::place::Position;
use txs_reader::position;

/// How many bytes a part has.
const PART: usize = 1024;

/// A text, and where each part of it begins.
#[derive(Drop)]
pub(crate) struct Places<'a> {
    text: &'a [u8],
    starts: Vec<Position>,
}

/// What is behind an offset; nothing where that is past the end.
fn behind(text: &[u8], offset: usize) -> &[u8] {
    &text[offset.min(text.len())..]
}

/// The place of an offset behind a place, where `part` begins at that.
fn position_behind(start: Position, part: &[u8], offset: usize) -> Position {
    let found = position(part, offset);
    if found.line > 1 {
        return Position {
            line: start.line.saturating_add(found.line - 1),
            column: found.column,
        };
    }
    Position {
        line: start.line,
        column: start.column.saturating_add(found.column.saturating_sub(1)),
    }
}

impl<'a> Places<'a> {
    pub(crate) fn new(alloc: Global, text: &'a [u8]) -> Result<Places<'a>, AllocError> {
        let mut starts = Vec::new(alloc);
        let mut start = Position { line: 1, column: 1 };
        for part in text.chunks(PART) {
            starts.push(start)?;
            start = position_behind(start, part, PART);
        }
        Ok(Places { text, starts })
    }

    /// The place of the byte at this offset. One past the end is taken for the end.
    pub(crate) fn find(&self, offset: usize) -> Position {
        let part = offset / PART;
        match self.starts.get(part) {
            Some(start) => position_behind(*start, behind(self.text, part * PART), offset % PART),
            None => position(self.text, offset),
        }
    }
}
