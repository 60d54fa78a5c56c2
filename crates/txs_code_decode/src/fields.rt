//! The fields that code is made of.

ghost use Rattle.std.specs.Prelude.{◌≡◌, ℕ, ◌≤◌, length, IfErr, IfOk, IsTrue, ◌↔◌, [], nat_lt, ◌==◌};
ghost use Rattle.std.specs.Int.{w16, w32, w64};
ghost use Rattle.std.specs.List.{list_all};
ghost use Rattle.std.specs.Str.{is_utf8};
ghost use Rattle.txs_value_data.specs.Names.{IsName, is_symbol_byte};
ghost use Rattle.txs_value_data.specs.View.{plain_of};
ghost use Rattle.txs_code_decode.specs.declared.tag.Tag.TheVariants as tag;
ghost use Rattle.txs_code_decode.specs.CodeForm.{IsMemory};
ghost use Rattle.txs_code_decode.specs.Format.{Gives, byte_at, bytes_at, never, number_at};
ghost use Rattle.txs_code_decode.specs.Names.{begins_foreign, begins_number, begins_with_digit, is_literal_word, name_test};
ghost use Rattle.txs_code_decode.specs.ValueForm.{name_over, text_format, value_body};

use crate::error::{CodeErrorKind, Stop, refused};
use std::alloc::{AllocError, Global};
use txs_value_data::value::is_name;
use txs_value_data::{Name, Text, Value};

/// A field of one byte, and the bytes behind it.
#[tactic(auto, unfolding(crate::specs::Format::byte_at))]
pub(crate) fn u8_at(bytes: &[u8]) -> Result<(u8, &[u8]), Stop>
    ensures { Gives (λ x. (x.0, x.1.now)) result (byte_at bytes.now) }
{
    match bytes {
        [] => Err(refused(CodeErrorKind::Truncated, bytes)),
        [b, rest @ ..] => Ok((*b, rest)),
    }
}

/// A field of two bytes.
#[tactic(auto, unfolding(crate::specs::Format::number_at))]
pub(crate) fn u16_at(bytes: &[u8]) -> Result<(u16, &[u8]), Stop>
    ensures { Gives (λ x. (x.0, x.1.now)) result (number_at w16 bytes.now) }
{
    match bytes.split_first_chunk::<2>() {
        Some((number, rest)) => Ok((u16::from_be_bytes(*number), rest)),
        None => Err(refused(CodeErrorKind::Truncated, &[])),
    }
}

/// A field of four bytes.
#[tactic(auto, unfolding(crate::specs::Format::number_at))]
pub(crate) fn u32_at(bytes: &[u8]) -> Result<(u32, &[u8]), Stop>
    ensures value { Gives (λ x. (x.0, x.1.now)) result (number_at w32 bytes.now) }
    ensures no_memory { IfErr result (λ stop. IsMemory stop → ⊥) }
{
    match bytes.split_first_chunk::<4>() {
        Some((number, rest)) => Ok((u32::from_be_bytes(*number), rest)),
        None => Err(refused(CodeErrorKind::Truncated, &[])),
    }
}

/// A field of eight bytes.
#[tactic(auto, unfolding(crate::specs::Format::number_at))]
pub(crate) fn u64_at(bytes: &[u8]) -> Result<(u64, &[u8]), Stop>
    ensures { Gives (λ x. (x.0, x.1.now)) result (number_at w64 bytes.now) }
{
    match bytes.split_first_chunk::<8>() {
        Some((number, rest)) => Ok((u64::from_be_bytes(*number), rest)),
        None => Err(refused(CodeErrorKind::Truncated, &[])),
    }
}

/// A field of so many bytes.
#[tactic(auto, unfolding(crate::specs::Format::bytes_at))]
fn some_at(n: usize, bytes: &[u8]) -> Result<(&[u8], &[u8]), Stop>
    ensures value { Gives (λ x. (x.0.now, x.1.now)) result (bytes_at n bytes.now) }
    ensures as_many { IfOk result (λ x. length x.0.now ≡ n) }
{
    if bytes.len() < n {
        return Err(refused(CodeErrorKind::Truncated, &[]));
    }
    Ok(bytes.split_at(n))
}

/// An empty list with room for so many items, each of which has a byte of its own among these: nothing is reserved for what a count
/// alone promises.
pub(crate) fn room_for<T>(alloc: Global, count: usize, bytes: &[u8]) -> Result<Vec<T>, AllocError>
    requires { count ≤ length bytes.now }
    ensures { IfOk result (λ v. v.items ≡ []) }
{
    Vec::with_capacity(alloc, count)
}

/// Whether all of 1 to 255 bytes are of those that names are made of.
fn all_symbol_bytes(bytes: &[u8]) -> bool
    requires some { 1 ≤ length bytes.now }
    requires few { length bytes.now ≤ 255 }
    ensures { result ≡ list_all is_symbol_byte bytes.now }
{
    is_name(bytes)
}

/// Whether the first byte is a digit.
fn begins_with_digit(bytes: &[u8]) -> bool
    ensures { result ≡ begins_with_digit bytes.now }
{
    match bytes {
        [] => false,
        [b, ..] => b.is_ascii_digit(),
    }
}

/// Whether the reader would read the bytes as a number.
#[tactic(auto, unfolding(crate::specs::Names::begins_number))]
fn begins_number(bytes: &[u8]) -> bool
    ensures { result ≡ begins_number bytes.now }
{
    match bytes {
        [] => false,
        [b, rest @ ..] => {
            b.is_ascii_digit() || ((*b == b'+' || *b == b'-') && begins_with_digit(rest))
        }
    }
}

/// Whether the first byte is one with which no symbol begins.
#[tactic(auto, unfolding(crate::specs::Names::begins_foreign))]
fn begins_foreign(bytes: &[u8]) -> bool
    ensures { result ≡ begins_foreign bytes.now }
{
    match bytes {
        [] => false,
        [b, ..] => *b == b'\'' || *b == b'.',
    }
}

/// Whether the bytes are one of the words that stand for values.
#[tactic(auto, unfolding(crate::specs::Names::is_literal_word))]
fn is_literal_word(bytes: &[u8]) -> bool
    ensures { result ≡ is_literal_word bytes.now }
{
    bytes == b"nil".as_slice() || bytes == b"true".as_slice() || bytes == b"false".as_slice()
}

/// Whether 1 to 255 bytes may name a cell, or else a keyword.
#[tactic(auto, unfolding(crate::specs::Names::names_cell))]
fn may_name(cell: bool, bytes: &[u8]) -> bool
    requires some { 1 ≤ length bytes.now }
    requires few { length bytes.now ≤ 255 }
    ensures value { result ≡ name_test cell bytes.now }
    ensures symbols { IsTrue result → IsTrue (list_all is_symbol_byte bytes.now) }
{
    if !cell {
        return all_symbol_bytes(bytes);
    }
    all_symbol_bytes(bytes)
        && !begins_number(bytes)
        && !begins_foreign(bytes)
        && !is_literal_word(bytes)
}

/// The name of a cell, or else of a keyword.
pub(crate) fn name_at(alloc: Global, cell: bool, bytes: &[u8]) -> Result<(Name, &[u8]), Stop>
    ensures { Gives (λ x. (x.0, x.1.now)) result ((name_over (name_test cell)).read bytes.now) }
{
    let (len, rest) = u8_at(bytes)?;
    if len == 0 {
        return Err(refused(CodeErrorKind::BadOperand, bytes));
    }
    let (name, after) = some_at(usize::from(len), rest)?;
    if !may_name(cell, name) {
        return Err(refused(CodeErrorKind::BadOperand, rest));
    }
    Ok((Name::from_bytes(alloc, name)?, after))
}

/// A keyword.
#[tactic(auto, unfolding(crate::specs::ValueForm::keyword_format))]
pub(crate) fn keyword_at(alloc: Global, bytes: &[u8]) -> Result<(Value, &[u8]), Stop>
    ensures { Gives (λ x. (plain_of x.0, x.1.now)) result ((value_body [] never tag.Key).read bytes.now) }
{
    match name_at(alloc, false, bytes) {
        Ok((name, rest)) => Ok((Value::Key(name), rest)),
        Err(stop) => Err(stop),
    }
}

/// A text.
#[tactic(auto, unfolding(crate::specs::ValueForm::text_format))]
pub(crate) fn text_at(alloc: Global, bytes: &[u8]) -> Result<(Value, &[u8]), Stop>
    ensures { Gives (λ x. (plain_of x.0, x.1.now)) result ((value_body [] never tag.Text).read bytes.now) }
{
    let (len, rest) = u16_at(bytes)?;
    let (text, after) = some_at(usize::from(len), rest)?;
    match str::from_utf8(text) {
        Ok(text) => Ok((
            Value::Text(Text::from_string(alloc, String::from_str(alloc, text)?)?),
            after,
        )),
        Err(_) => Err(refused(CodeErrorKind::BadOperand, rest)),
    }
}
