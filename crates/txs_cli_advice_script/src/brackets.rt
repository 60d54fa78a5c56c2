//! The brackets of a script that are open somewhere in it.

use crate::sentence::{Sentence, plain};
use txs_reader::position;

/// Where a byte is: in the code, in a text, behind a backslash in one, or in a comment.
#[derive(Clone, Copy)]
enum Place {
    Code,
    Text,
    Escape,
    Comment,
}

/// Where the next byte is.
fn behind(place: Place, byte: u8) -> Place {
    match (place, byte) {
        (Place::Code, b'"') => Place::Text,
        (Place::Code, b';') => Place::Comment,
        (Place::Text, b'"') => Place::Code,
        (Place::Text, b'\\') => Place::Escape,
        (Place::Escape, _) => Place::Text,
        (Place::Comment, b'\n' | b'\r') => Place::Code,
        (place, _) => place,
    }
}

/// How many brackets are open behind a byte.
fn depth_behind(place: Place, depth: usize, byte: u8) -> usize {
    match (place, byte) {
        (Place::Code, b'(' | b'[') => depth.saturating_add(1),
        (Place::Code, b')' | b']') => depth.saturating_sub(1),
        _ => depth,
    }
}

/// How many brackets are open where a text ends.
fn depth_of(text: &[u8]) -> usize {
    let mut depth = 0_usize;
    let mut place = Place::Code;
    for byte in text {
        depth = depth_behind(place, depth, *byte);
        place = behind(place, *byte);
    }
    depth
}

/// The index of the last byte that opens a bracket in so many others and itself; past the end, if none does. Where so many are open
/// at the end of the text, it is the innermost of them.
fn last_opening(text: &[u8], level: usize) -> usize {
    let mut found = text.len();
    let mut depth = 0_usize;
    let mut place = Place::Code;
    for (at, byte) in text.iter().enumerate() {
        let next = depth_behind(place, depth, *byte);
        if (next > depth) & (next == level) {
            found = at;
        }
        depth = next;
        place = behind(place, *byte);
    }
    found
}

/// The sentence about the bracket that opens at an index: where that is, and what is said of it if it is round, and if it is square.
fn on_open<'a>(
    text: &'a [u8],
    at: usize,
    round: &'static str,
    square: &'static str,
) -> Sentence<'a> {
    let place = position(text, at);
    let is_square = text.get(at).copied() == Some(b'[');
    Sentence {
        front: if is_square { "`[`" } else { "`(`" },
        name: "",
        text: " of line ",
        first: Some(place.line),
        other: "",
        rest: ", column ",
        second: Some(place.column),
        after: "",
        end: if is_square { square } else { round },
    }
}

/// Whether the last byte that is no white space is `@`.
fn ends_with_deref(text: &[u8]) -> bool {
    for byte in text.iter().rev() {
        if !byte.is_ascii_whitespace() & (*byte != b',') {
            return *byte == b'@';
        }
    }
    false
}

/// What to do about a closing bracket, which stands behind this text, and fits none that is open.
pub(crate) fn on_unopened(front: &[u8]) -> Sentence<'_> {
    if ends_with_deref(front) {
        return plain("Put a form behind the `@`, before the bracket closes.");
    }
    let depth = depth_of(front);
    if depth == 0 {
        return plain("No bracket is open here: take this one out.");
    }
    on_open(
        front,
        last_opening(front, depth),
        " is open: close it by `)`.",
        " is open: close it by `]`.",
    )
}

/// What to do about a script that ends with a bracket, a text or a `@` open, of which the innermost begins with this byte.
pub(crate) fn on_unclosed(text: &[u8], byte: u8) -> Sentence<'_> {
    if byte == b'"' {
        return plain("The text that begins here has no end: close it by `\"`.");
    }
    if byte == b'@' {
        return plain("Put a form behind the `@`: the script ends here.");
    }
    let first = last_opening(text, 1);
    if depth_of(text) == 1 {
        return on_open(
            text,
            first,
            " is open at the end: close it by `)`.",
            " is open at the end: close it by `]`.",
        );
    }
    let all = " is the first of those that are open at the end: close each where its form ends.";
    on_open(text, first, all, all)
}
