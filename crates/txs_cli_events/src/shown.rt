//! Values as a person types them in Clojure, each in one line.

ghost use Rattle.std.specs.Prelude.{◌≡◌, ◌++◌, None, OnOk};
ghost use Rattle.std.specs.List.{flat_map};
ghost use Rattle.txs_value_data.specs.Printed.{gap};
ghost use Rattle.txs_value_data.specs.View.{plain_of, vector_items};
ghost use Rattle.txs_cli_events.specs.Shown.{by_number, digit, escaped, letter_of, quoted, shown};

use std::alloc::AllocError;
use txs_value_data::{Value, write_text};

/// The letter that is written for this byte behind a backslash, if there is one.
#[tactic(auto, unfolding(crate::specs::Shown::letter_of))]
fn letter_of(byte: u8) -> Option<u8>
    ensures { result ≡ letter_of byte }
{
    match byte {
        8 => Some(b'b'),
        b'\t' => Some(b't'),
        b'\n' => Some(b'n'),
        12 => Some(b'f'),
        b'\r' => Some(b'r'),
        b'"' => Some(b'"'),
        b'\\' => Some(b'\\'),
        _ => None,
    }
}

/// The last digit of a number in base 16.
fn digit(n: u8) -> u8
    ensures { result ≡ digit n }
{
    let digit = n % 16;
    if digit < 10 {
        b'0' + digit
    } else {
        b'a' - 10 + digit
    }
}

/// Appends a byte: a control character by its number, any other as it is.
#[tactic(auto, unfolding(crate::specs::Shown::by_number))]
fn write_by_number(out: &mut Vec<u8>, byte: u8) -> Result<(), AllocError>
    ensures { OnOk result (out.new.items ≡ out.old.items ++ by_number byte) }
{
    if byte < 32 || byte == 127 {
        let digits = [b'\\', b'u', b'0', b'0', digit(byte / 16), digit(byte)];
        return out.extend_from_slice(&digits);
    }
    out.extend_from_slice(&[byte])
}

/// Appends a byte of a text, escaped where it has to be.
fn write_byte(out: &mut Vec<u8>, byte: u8) -> Result<(), AllocError>
    ensures { OnOk result (out.new.items ≡ out.old.items ++ escaped byte) }
{
    match letter_of(byte) {
        Some(letter) => out.extend_from_slice(&[b'\\', letter]),
        None => write_by_number(out, byte),
    }
}

/// Appends the bytes of a text, escaped where they have to be.
fn write_bytes(out: &mut Vec<u8>, bytes: &[u8]) -> Result<(), AllocError>
    ensures { OnOk result (out.new.items ≡ out.old.items ++ flat_map escaped bytes.now) }
{
    for byte in bytes {
        write_byte(out, *byte)?;
    }
    Ok(())
}

/// Appends a text between quotes.
fn write_quoted(out: &mut Vec<u8>, bytes: &[u8]) -> Result<(), AllocError>
    ensures { OnOk result (out.new.items ≡ out.old.items ++ quoted bytes.now) }
{
    out.extend_from_slice(b"\"")?;
    write_bytes(out, bytes)?;
    out.extend_from_slice(b"\"")
}

/// Appends a value that is no vector.
fn write_leaf(out: &mut Vec<u8>, value: &Value) -> Result<(), AllocError>
    requires { vector_items value.now ≡ None }
    ensures { OnOk result (out.new.items ≡ out.old.items ++ shown (plain_of value.now)) }
{
    match value {
        Value::Text(text) => write_quoted(out, text.as_str().as_bytes()),
        _ => write_text(value, out),
    }
}

/// Appends a space before each item but the first.
fn write_gap(out: &mut Vec<u8>, i: usize) -> Result<(), AllocError>
    ensures { OnOk result (out.new.items ≡ out.old.items ++ gap i) }
{
    if i > 0 {
        return out.extend_from_slice(b" ");
    }
    Ok(())
}

/// Appends a value: as `println` writes it, but each text between quotes.
pub(crate) fn write_shown(out: &mut Vec<u8>, value: &Value) -> Result<(), AllocError>
    ensures { OnOk result (out.new.items ≡ out.old.items ++ shown (plain_of value.now)) }
{
    let Value::Vector(items) = value else {
        return write_leaf(out, value);
    };
    out.extend_from_slice(b"[")?;
    for i in 0..items.len() {
        write_gap(out, i)?;
        write_shown(out, items.get(i))?;
    }
    out.extend_from_slice(b"]")
}
