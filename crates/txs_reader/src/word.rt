//! Words: numbers, `nil`, truth values, keywords and symbols.

ghost use Rattle.std.specs.Prelude.{◌≡◌, ◌≤◌, true, false, bytes_eq, drop, length, slice_index, Ok, Err, IfSome, IfNone, IfOk, IfErr};
ghost use Rattle.std.specs.List.{list_all, list_any};
ghost use Rattle.std.specs.Char.{is_ascii_digit};
ghost use Rattle.std.specs.Str.Parse.{signed_digits_value, without_leading_sign};
ghost use Rattle.txs_value_data.specs.Names.{is_symbol_byte};
ghost use Rattle.txs_reader.specs.Bytes.{is_foreign_byte, is_sign, is_numeric, is_numeral, is_number, is_i64, is_keyword, is_symbol, is_left_out, unread, IsOther, meaning};
ghost use Rattle.txs_reader.specs.Refused.{IsWordRefusal, IsNameRefusal};
ghost use Rattle.txs_reader.specs.Tree.{Leaf, leaf, tree};

use crate::error::{ReadError, ReadErrorKind};
use crate::form::Form;
use std::alloc::Global;
use txs_value_data::value::is_symbol_byte;
use txs_value_data::{Name, Span};

/// How many bytes a name may have.
const MAX_NAME: usize = 255;

#[tactic(auto, unfolding(crate::specs::Bytes::is_foreign_byte))]
fn is_foreign_byte(b: u8) -> bool
    ensures { result ≡ is_foreign_byte b }
{
    matches!(b, b'\'' | b'#' | b'/' | b'&' | b'%' | b'$' | b'|' | b':')
}

#[tactic(auto, unfolding(crate::specs::Bytes::is_sign))]
fn is_sign(b: u8) -> bool
    ensures { result ≡ is_sign b }
{
    matches!(b, b'+' | b'-')
}

/// The byte at a place, 0 past the end.
fn byte_at(word: &[u8], i: usize) -> u8
    ensures { result ≡ slice_index word.now i }
{
    word.get(i).copied().unwrap_or(0)
}

fn all_digits(word: &[u8]) -> bool
    ensures { result ≡ list_all is_ascii_digit word.now }
{
    word.iter().all(|b| b.is_ascii_digit())
}

fn all_symbol_bytes(word: &[u8]) -> bool
    ensures { result ≡ list_all is_symbol_byte word.now }
{
    word.iter().all(|b| is_symbol_byte(*b))
}

fn any_foreign_byte(word: &[u8]) -> bool
    ensures { result ≡ list_any is_foreign_byte word.now }
{
    word.iter().any(|b| is_foreign_byte(*b))
}

#[tactic(auto, unfolding(crate::specs::Bytes::is_numeric))]
fn is_numeric(word: &[u8]) -> bool
    ensures { result ≡ is_numeric word.now }
{
    let first = byte_at(word, 0);
    let second = byte_at(word, 1);
    first.is_ascii_digit() || (is_sign(first) && second.is_ascii_digit())
}

fn without_sign(word: &[u8]) -> &[u8]
    ensures { result.now ≡ without_leading_sign word.now }
{
    match word {
        [b'+' | b'-', rest @ ..] => rest,
        _ => word,
    }
}

#[tactic(auto, unfolding(crate::specs::Bytes::is_numeral))]
fn is_numeral(digits: &[u8]) -> bool
    ensures { result ≡ is_numeral digits.now }
{
    all_digits(digits) && !digits.is_empty() && (digits.len() < 2 || byte_at(digits, 0) != b'0')
}

#[tactic(auto, unfolding(crate::specs::Bytes::is_number))]
fn is_number(word: &[u8]) -> bool
    ensures { result ≡ is_number word.now }
{
    is_numeral(without_sign(word))
}

/// The number, if it fits.
fn number_of(word: &[u8]) -> Option<i64>
    requires { is_number word.now ≡ true }
    ensures value { IfSome result (λ z. (z ≡ signed_digits_value 10 word.now) × (is_i64 z ≡ true)) }
    ensures none { IfNone result (is_i64 (signed_digits_value 10 word.now) ≡ false) }
{
    match str::from_utf8(word) {
        Ok(text) => match text.parse::<i64>() {
            Ok(z) => Some(z),
            Err(_) => None,
        },
        Err(_) => unreachable!(),
    }
}

#[tactic(auto, unfolding(crate::specs::Bytes::is_symbol))]
fn is_symbol(word: &[u8]) -> bool
    ensures { result ≡ is_symbol word.now }
{
    let first = byte_at(word, 0);
    all_symbol_bytes(word)
        && !word.is_empty()
        && !is_numeric(word)
        && first != b'\''
        && first != b'.'
}

#[tactic(auto, unfolding(crate::specs::Bytes::is_left_out))]
fn is_left_out(word: &[u8]) -> bool
    ensures { result ≡ is_left_out word.now }
{
    any_foreign_byte(word) || is_numeric(word) || byte_at(word, 0) == b'.'
}

/// Whether the word is a colon and symbol bytes.
#[tactic(auto, unfolding(crate::specs::Bytes::is_keyword))]
fn is_keyword(word: &[u8]) -> bool
    ensures { result ≡ is_keyword word.now }
{
    match word {
        [b':', name @ ..] => !name.is_empty() && all_symbol_bytes(name),
        _ => false,
    }
}

/// Whether the word is just this text.
fn is_just(word: &[u8], text: &[u8]) -> bool
    ensures { result ≡ bytes_eq word.now text.now }
{
    word == text
}

/// The name that symbol bytes are; too long a one is refused.
fn name_of(alloc: Global, bytes: &[u8], span: Span) -> Result<Name, ReadError>
    requires some { 1 ≤ length bytes.now }
    requires each { list_all is_symbol_byte bytes.now ≡ true }
    ensures ok { IfOk result (λ name. (name ≡ bytes.now) × (length bytes.now ≤ 255)) }
    ensures err { IfErr result (λ e. IsNameRefusal bytes.now span e) }
{
    if bytes.len() > MAX_NAME {
        return Err(ReadError {
            kind: ReadErrorKind::TooLarge,
            at: span,
        });
    }
    Ok(Name::from_bytes(alloc, bytes)?)
}

/// The bytes behind the first.
fn without_first(word: &[u8]) -> &[u8]
    ensures { result.now ≡ drop 1 word.now }
{
    match word {
        [_, rest @ ..] => rest,
        _ => word,
    }
}

/// The keyword or symbol that a word is.
fn named_form(alloc: Global, word: &[u8], span: Span) -> Result<Form, ReadError>
    requires { IsOther word.now }
    ensures ok { IfOk result (λ form. (x : Leaf) × (meaning word.now ≡ Ok x) × (tree form ≡ leaf x span)) }
    ensures err { IfErr result (λ e. IsWordRefusal word.now span e) }
{
    if is_keyword(word) {
        let name = name_of(alloc, without_first(word), span)?;
        Ok(Form::Keyword(name, span))
    } else if is_symbol(word) {
        let name = name_of(alloc, word, span)?;
        Ok(Form::Symbol(name, span))
    } else {
        Err(ReadError {
            kind: unread(word),
            at: span,
        })
    }
}

/// Why a word that is nothing else is refused.
fn unread(word: &[u8]) -> ReadErrorKind
    ensures { result ≡ unread word.now }
{
    if is_left_out(word) {
        ReadErrorKind::LeftOut
    } else {
        ReadErrorKind::BadToken
    }
}

/// The form that a word is.
#[tactic(auto, unfolding(crate::specs::Bytes::meaning))]
pub fn form_of(alloc: Global, word: &[u8], span: Span) -> Result<Form, ReadError>
    ensures ok { IfOk result (λ form. (x : Leaf) × (meaning word.now ≡ Ok x) × (tree form ≡ leaf x span)) }
    ensures err { IfErr result (λ e. IsWordRefusal word.now span e) }
{
    if is_number(word) {
        match number_of(word) {
            Some(z) => Ok(Form::Number(z, span)),
            None => Err(ReadError {
                kind: ReadErrorKind::NumberTooLarge,
                at: span,
            }),
        }
    } else if is_just(word, b"nil") {
        Ok(Form::Nil(span))
    } else if is_just(word, b"true") {
        Ok(Form::Truth(true, span))
    } else if is_just(word, b"false") {
        Ok(Form::Truth(false, span))
    } else {
        named_form(alloc, word, span)
    }
}
