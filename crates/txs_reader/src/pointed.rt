//! A line of a text with carets below a span of it.

ghost use Rattle.std.specs.Prelude.{◌≡◌, [], ◌∷◌, ◌++◌, replicate, OnOk, OnErr};
ghost use Rattle.std.specs.List.{flat_map};
ghost use Rattle.txs_reader.specs.Sign.{signs, blank};
ghost use Rattle.txs_reader.specs.Pointed.{without_return, mark, seen, two_lines, pointed};
ghost use Rattle.txs_reader.specs.Extends.{Extends};

use crate::lines::{before, behind, last_line, line_at};
use crate::sign::{append_blank, append_many, append_sign, first_sign};
use crate::window::{last_within, room, room_within, span_width};
use std::alloc::AllocError;

/// How many columns of a line are shown at most, apart from the marks where it is cut.
const WINDOW: usize = 72;

/// How many of them are kept for what a span begins with and what is behind it.
const HALF: usize = 36;

/// The line without the carriage return at its end.
fn without_return(line: &[u8]) -> &[u8]
    ensures { result.now ≡ without_return line.now }
{
    if !line.is_empty() && line[line.len() - 1] == b'\r' {
        return &line[..line.len() - 1];
    }
    line
}

/// Appends the mark of a cut line.
fn append_mark(cut: bool, byte: u8, out: &mut Vec<u8>) -> Result<(), AllocError>
    ensures ok { OnOk result (out.new.items ≡ out.old.items ++ mark cut byte) }
    ensures kept { Extends out.old.items out.new.items }
{
    append_many(byte, if cut { 3 } else { 0 }, out)
}

/// Appends what is shown of as many signs as have room, and a mark in place of the others.
fn append_signs(bytes: &[u8], limit: usize, out: &mut Vec<u8>) -> Result<(), AllocError>
    ensures ok { OnOk result (out.new.items ≡ out.old.items ++ seen limit (signs bytes.now)) }
    ensures kept { Extends out.old.items out.new.items }
{
    let mut rest = bytes;
    let mut left = limit;
    while !rest.is_empty() {
        let (found, size) = first_sign(rest);
        let room = room(found, size);
        if room > left {
            return append_mark(true, b'.', out);
        }
        append_sign(found, &rest[..size], out)?;
        left -= room;
        rest = &rest[size..];
    }
    Ok(())
}

/// Appends what takes the place of these signs in the line below.
fn append_blanks(bytes: &[u8], out: &mut Vec<u8>) -> Result<(), AllocError>
    ensures ok { OnOk result (out.new.items ≡ out.old.items ++ flat_map blank (signs bytes.now)) }
    ensures kept { Extends out.old.items out.new.items }
{
    let mut rest = bytes;
    while !rest.is_empty() {
        let (found, size) = first_sign(rest);
        append_blank(found, size, out)?;
        rest = &rest[size..];
    }
    Ok(())
}

/// Appends the line: what is shown of it before the span, and from the span's start on.
fn append_line(
    left: &[u8],
    cut: bool,
    back: &[u8],
    limit: usize,
    out: &mut Vec<u8>,
) -> Result<(), AllocError>
    ensures ok { OnOk result (out.new.items ≡ out.old.items ++ (mark cut 46 ++ seen 72 (signs left.now) ++ seen limit (signs back.now) ++ 10 ∷ [])) }
    ensures kept { Extends out.old.items out.new.items }
{
    append_mark(cut, b'.', out)?;
    append_signs(left, WINDOW, out)?;
    append_signs(back, limit, out)?;
    out.extend_from_slice(b"\n")
}

/// Appends the line below it: blanks below what is shown before the span, and so many carets.
fn append_below(left: &[u8], cut: bool, carets: usize, out: &mut Vec<u8>) -> Result<(), AllocError>
    ensures ok { OnOk result (out.new.items ≡ out.old.items ++ (mark cut 32 ++ flat_map blank (signs left.now) ++ replicate carets 94 ++ 10 ∷ [])) }
    ensures kept { Extends out.old.items out.new.items }
{
    append_mark(cut, b' ', out)?;
    append_blanks(left, out)?;
    append_many(b'^', carets, out)?;
    out.extend_from_slice(b"\n")
}

/// Appends the line and the line below it, given the line's bytes before the span, and from its start on.
fn append_lines(front: &[u8], back: &[u8], size: usize, out: &mut Vec<u8>) -> Result<(), AllocError>
    ensures ok { OnOk result (out.new.items ≡ out.old.items ++ two_lines (signs front.now) (signs back.now) size) }
    ensures kept { Extends out.old.items out.new.items }
{
    let from = last_within(front, WINDOW - room_within(back, HALF));
    let left = behind(front, from);
    let limit = WINDOW - room_within(left, WINDOW);
    append_line(left, from > 0, back, limit, out)?;
    append_below(left, from > 0, span_width(back, limit, size).max(1), out)
}

/// Appends the two lines.
fn append_pointed(
    text: &[u8],
    start: usize,
    end: usize,
    out: &mut Vec<u8>,
) -> Result<(), AllocError>
    ensures ok { OnOk result (out.new.items ≡ out.old.items ++ pointed text.now start end) }
    ensures kept { Extends out.old.items out.new.items }
{
    let line = without_return(line_at(text, start));
    let at = last_line(before(text, start)).len();
    append_lines(
        before(line, at),
        behind(line, at),
        end.saturating_sub(start),
        out,
    )
}

/// Appends two lines that show a span of a text, from the byte `start` up to the byte `end`, which isn't
/// part of it: the line in which the span begins, and below it carets under those of its characters that are seen in
/// that line, one caret at least.
///
/// A control character and others that can't be seen are shown by their number, as `\u001b`, and a byte that is no
/// UTF-8 by its value, as `\xff`. A carriage return before the line's end isn't shown. Of a line of more than 72
/// columns a part round `start` is shown, with `...` where it is cut. A tab before the span stays a tab, and a wide
/// character has two blanks, so that the carets are where they belong. After an error nothing is appended.
pub fn write_pointed(
    text: &[u8],
    start: usize,
    end: usize,
    out: &mut Vec<u8>,
) -> Result<(), AllocError>
    ensures ok { OnOk result (out.new.items ≡ out.old.items ++ pointed text.now start end) }
    ensures err { OnErr result (out.new.items ≡ out.old.items) }
{
    let length = out.len();
    let done = append_pointed(text, start, end, out);
    if done.is_err() {
        out.truncate(length);
    }
    done
}
