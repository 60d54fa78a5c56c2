//! How a character is shown on a terminal, and how wide it is there.

ghost use Rattle.std.specs.Prelude.{◌≡◌, ◌++◌, ◌<◌, ◌≤◌, length, replicate, OnOk};
ghost use Rattle.std.specs.List.{flat_map};
ghost use Rattle.txs_reader.specs.Sign.{is_escaped, columns, width_of, digit, escaped, escaped_byte, shown_of, blank_of, First, Last};
ghost use Rattle.txs_reader.specs.Extends.{Extends};

use bstr::{decode_last_utf8, decode_utf8};
use std::alloc::AllocError;
use unicode_width::UnicodeWidthChar;

/// The sign at the front: its character, or none where the bytes are no UTF-8, and how many bytes it has.
pub(crate) fn first_sign(bytes: &[u8]) -> (Option<char>, usize)
    requires { 0 < length bytes.now }
    ensures { First bytes.now result.0 result.1 }
{
    decode_utf8(bytes)
}

/// The same of the sign at the end.
pub(crate) fn last_sign(bytes: &[u8]) -> (Option<char>, usize)
    requires { 0 < length bytes.now }
    ensures { Last bytes.now result.0 result.1 }
{
    decode_last_utf8(bytes)
}

/// Whether a character can't be seen, or changes how others are seen.
#[tactic(auto, unfolding(crate::specs::Sign::is_escaped))]
pub fn is_escaped(c: char) -> bool
    ensures { result ≡ is_escaped c }
{
    matches!(
        c,
        '\0'..='\u{8}'
            | '\n'..='\u{1F}'
            | '\u{7F}'..='\u{9F}'
            | '\u{61C}'
            | '\u{200B}'..='\u{200F}'
            | '\u{2028}'..='\u{202E}'
            | '\u{2060}'..='\u{206F}'
            | '\u{FEFF}'
    )
}

/// How many columns a character takes.
#[tactic(auto, unfolding(crate::specs::Sign::columns))]
fn columns(c: char) -> usize
    ensures value { result ≡ columns c }
    ensures few { result ≤ 6 }
{
    if c == '\t' {
        1
    } else if is_escaped(c) {
        6
    } else {
        c.width().unwrap_or(0)
    }
}

/// How many columns a sign of so many bytes takes.
pub(crate) fn width(found: Option<char>, size: usize) -> usize
    requires { size ≤ 4 }
    ensures value { result ≡ width_of found size }
    ensures few { result ≤ 16 }
{
    match found {
        None => 4 * size,
        Some(c) => columns(c),
    }
}

/// The last digit of a number in base 16.
fn digit(n: u32) -> u8
    ensures { result ≡ digit n }
{
    let digit = (n % 16) as u8;
    if digit < 10 {
        b'0' + digit
    } else {
        b'a' - 10 + digit
    }
}

/// Appends bytes that are no UTF-8, each by its value.
fn append_bytes(bytes: &[u8], out: &mut Vec<u8>) -> Result<(), AllocError>
    ensures ok { OnOk result (out.new.items ≡ out.old.items ++ flat_map escaped_byte bytes.now) }
    ensures kept { Extends out.old.items out.new.items }
{
    for byte in bytes {
        let value = u32::from(*byte);
        out.extend_from_slice(&[b'\\', b'x', digit(value / 16), digit(value)])?;
    }
    Ok(())
}

/// Appends the number of a character.
fn append_number(c: char, out: &mut Vec<u8>) -> Result<(), AllocError>
    ensures ok { OnOk result (out.new.items ≡ out.old.items ++ escaped c) }
    ensures kept { Extends out.old.items out.new.items }
{
    let n = c as u32;
    out.extend_from_slice(&[
        b'\\',
        b'u',
        digit(n / 4096),
        digit(n / 256),
        digit(n / 16),
        digit(n),
    ])
}

/// Appends what is shown of a sign with these bytes.
pub(crate) fn append_sign(
    found: Option<char>,
    bytes: &[u8],
    out: &mut Vec<u8>,
) -> Result<(), AllocError>
    ensures ok { OnOk result (out.new.items ≡ out.old.items ++ shown_of found bytes.now) }
    ensures kept { Extends out.old.items out.new.items }
{
    match found {
        None => append_bytes(bytes, out),
        Some(c) if is_escaped(c) => append_number(c, out),
        Some(_) => out.extend_from_slice(bytes),
    }
}

/// Appends a byte so many times.
pub(crate) fn append_many(byte: u8, count: usize, out: &mut Vec<u8>) -> Result<(), AllocError>
    ensures ok { OnOk result (out.new.items ≡ out.old.items ++ replicate count byte) }
    ensures kept { Extends out.old.items out.new.items }
{
    for _ in 0..count {
        out.push(byte)?;
    }
    Ok(())
}

/// Appends what takes the place of a sign of so many bytes in the line below.
pub(crate) fn append_blank(
    found: Option<char>,
    size: usize,
    out: &mut Vec<u8>,
) -> Result<(), AllocError>
    requires { size ≤ 4 }
    ensures ok { OnOk result (out.new.items ≡ out.old.items ++ blank_of found size) }
    ensures kept { Extends out.old.items out.new.items }
{
    match found {
        Some('\t') => out.extend_from_slice(b"\t"),
        _ => append_many(b' ', width(found, size), out),
    }
}
