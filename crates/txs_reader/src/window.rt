//! Which part of a long line is shown.

ghost use Rattle.std.specs.Prelude.{◌≡◌, ◌++◌, ◌<◌, ◌≤◌, max, min, length, take, drop};
ghost use Rattle.txs_reader.specs.Sign.{signs, room, width, width_of};
ghost use Rattle.txs_reader.specs.Window.{total, first_within, begun, LeftPart};

use crate::sign::{first_sign, last_sign, width};

/// What a sign of so many bytes takes of a window.
pub(crate) fn room(found: Option<char>, size: usize) -> usize
    requires { size ≤ 4 }
    ensures { result ≡ max (width_of found size) 1 }
{
    width(found, size).max(1)
}

/// What these signs take of a window, up to a limit.
pub(crate) fn room_within(bytes: &[u8], limit: usize) -> usize
    ensures { result ≡ min limit (total room (signs bytes.now)) }
{
    let mut rest = bytes;
    let mut left = limit;
    while left > 0 && !rest.is_empty() {
        let (found, size) = first_sign(rest);
        left = left.saturating_sub(room(found, size));
        rest = &rest[size..];
    }
    limit - left
}

/// Where as many signs begin, at the end of these, as have room.
pub(crate) fn last_within(bytes: &[u8], limit: usize) -> usize
    ensures { LeftPart bytes.now limit result }
{
    let mut from = bytes.len();
    let mut left = limit;
    while from > 0 {
        let (found, size) = last_sign(&bytes[..from]);
        let room = room(found, size);
        if room > left {
            break;
        }
        left -= room;
        from -= size;
    }
    from
}

/// How wide those signs are that have room and begin in so many bytes.
pub(crate) fn span_width(bytes: &[u8], limit: usize, span: usize) -> usize
    ensures { result ≡ total width (begun span (first_within limit (signs bytes.now))) }
{
    let mut rest = bytes;
    let mut left = limit;
    let mut begun = span;
    let mut wide = 0;
    while begun > 0 && !rest.is_empty() {
        let (found, size) = first_sign(rest);
        let room = room(found, size);
        if room > left {
            break;
        }
        wide += width(found, size);
        left -= room;
        begun = begun.saturating_sub(size);
        rest = &rest[size..];
    }
    wide
}
