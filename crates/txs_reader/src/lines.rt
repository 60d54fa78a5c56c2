//! The line around a byte.

ghost use Rattle.std.specs.Prelude.{◌≡◌, ◌≤◌, take, drop, length};
ghost use Rattle.std.specs.List.{before_first, after_last};
ghost use Rattle.txs_reader.specs.Place.{is_newline, line_before, line_behind, line_around};

/// What is before the offset; the whole text where the offset is past its end.
pub(crate) fn before(text: &[u8], offset: usize) -> &[u8]
    ensures { result.now ≡ take offset text.now }
{
    &text[..offset.min(text.len())]
}

/// What stands from the offset on; nothing where the offset is past the end.
pub(crate) fn behind(text: &[u8], offset: usize) -> &[u8]
    ensures { result.now ≡ drop offset text.now }
{
    &text[offset.min(text.len())..]
}

/// What is behind the last newline.
pub(crate) fn last_line(bytes: &[u8]) -> &[u8]
    ensures { result.now ≡ after_last is_newline bytes.now }
{
    let mut from = bytes.len();
    while from > 0 && bytes[from - 1] != b'\n' {
        from -= 1;
    }
    &bytes[from..]
}

/// What is before the first newline.
pub(crate) fn first_line(bytes: &[u8]) -> &[u8]
    ensures { result.now ≡ before_first is_newline bytes.now }
{
    for (i, byte) in bytes.iter().enumerate() {
        if *byte == b'\n' {
            return &bytes[..i];
        }
    }
    bytes
}

/// The line in which the offset is, without its newline. An offset at a newline is in the line that the
/// newline ends, and one past the end of the text is in its last line.
pub fn line_at(text: &[u8], offset: usize) -> &[u8]
    ensures { result.now ≡ line_around text.now offset }
{
    let front = before(text, offset);
    let from = front.len() - last_line(front).len();
    let to = front.len() + first_line(behind(text, offset)).len();
    &text[from..to]
}
