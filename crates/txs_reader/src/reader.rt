//! The reading of a script, from left to right.

ghost use Rattle.std.specs.Prelude.{◌≡◌, ◌≢◌, ◌+◌, ◌^◌, ◌<◌, ◌≤◌, [], true, drop, length, slice_index, IfOk, IfErr};
ghost use Rattle.txs_reader.specs.Bytes.{is_word_byte, begins_part};
ghost use Rattle.txs_reader.specs.Reached.{Reached, HasRoom};
ghost use Rattle.txs_reader.specs.Refused.{IsRefusal};
ghost use Rattle.txs_reader.specs.Script.{Reads, ReadStops, Holds, between, opening_byte, closing_byte};
ghost use Rattle.txs_reader.specs.Tree.{trees};
ghost use Rattle.txs_reader.specs.declared.error.ReadErrorKind.TheVariants.{Memory};

use crate::bytes::{byte_at, is_left_out_byte, is_white, line_len, rest_at, span_of, word_len};
use crate::error::{ReadError, ReadErrorKind};
use crate::form::{Bracket, Form};
use crate::open_forms::OpenForms;
use crate::quoted::read_quoted;
use crate::word::form_of;
use std::alloc::Global;
use txs_value_data::limits::{MOST_NESTING, MOST_SCRIPT, MOST_TEXT};
use txs_value_data::{Span, Text};

/// Reads an opening bracket, or a `@`.
fn open(
    state: &mut OpenForms,
    script: &str,
    at: usize,
    bracket: Option<Bracket>,
) -> Result<usize, ReadError>
    requires inside { at < length script.now }
    requires small { length script.now < 2 ^ 32 }
    requires reached { Reached script.now state.old at }
    requires room { HasRoom state.old }
    requires byte { slice_index script.now at ≡ opening_byte bracket }
    ensures next { IfOk result (λ next. (at < next) × (next ≤ length script.now)) }
    ensures ok { IfOk result (λ next. Reached script.now state.new next) }
    ensures err { IfErr result (λ e. IsRefusal script.now e) }
{
    if state.open.len() >= MOST_NESTING {
        return Err(ReadError {
            kind: ReadErrorKind::TooDeep,
            at: span_of(at, at + 1),
        });
    }
    state.open(bracket, at as u32)?;
    Ok(at + 1)
}

/// Reads a closing bracket.
fn close(
    alloc: Global,
    state: &mut OpenForms,
    script: &str,
    at: usize,
    bracket: Bracket,
) -> Result<usize, ReadError>
    requires inside { at < length script.now }
    requires small { length script.now < 2 ^ 32 }
    requires reached { Reached script.now state.old at }
    requires byte { slice_index script.now at ≡ closing_byte bracket }
    ensures next { IfOk result (λ next. (at < next) × (next ≤ length script.now)) }
    ensures ok { IfOk result (λ next. Reached script.now state.new next) }
    ensures err { IfErr result (λ e. IsRefusal script.now e) }
{
    if !state.fits(bracket) {
        return Err(ReadError {
            kind: ReadErrorKind::Unopened,
            at: span_of(at, at + 1),
        });
    }
    let form = state.close(bracket, at as u32 + 1)?;
    state.add(alloc, form)?;
    Ok(at + 1)
}

/// Reads a word.
fn word(alloc: Global, state: &mut OpenForms, script: &str, at: usize) -> Result<usize, ReadError>
    requires inside { at < length script.now }
    requires small { length script.now < 2 ^ 32 }
    requires reached { Reached script.now state.old at }
    requires room { HasRoom state.old }
    requires byte { is_word_byte (slice_index script.now at) ≡ true }
    ensures next { IfOk result (λ next. (at < next) × (next ≤ length script.now)) }
    ensures ok { IfOk result (λ next. Reached script.now state.new next) }
    ensures err { IfErr result (λ e. IsRefusal script.now e) }
{
    let rest = rest_at(script, at);
    let len = word_len(rest);
    let span = span_of(at, at + len);
    let (front, _) = rest.split_at(len);
    let form = form_of(alloc, front, span)?;
    state.add(alloc, form)?;
    Ok(at + len)
}

/// Reads a text.
fn text(alloc: Global, state: &mut OpenForms, script: &str, at: usize) -> Result<usize, ReadError>
    requires inside { at < length script.now }
    requires small { length script.now < 2 ^ 32 }
    requires reached { Reached script.now state.old at }
    requires room { HasRoom state.old }
    requires byte { slice_index script.now at ≡ 34 }
    ensures next { IfOk result (λ next. (at < next) × (next ≤ length script.now)) }
    ensures ok { IfOk result (λ next. Reached script.now state.new next) }
    ensures err { IfErr result (λ e. IsRefusal script.now e) }
{
    let mut text = String::new(alloc);
    let end = read_quoted(&mut text, script, at)?;
    let span = span_of(at, end + 1);
    if text.len() > MOST_TEXT {
        return Err(ReadError {
            kind: ReadErrorKind::TooLarge,
            at: span,
        });
    }
    let text = Text::from_string(alloc, text)?;
    state.add(alloc, Form::Text(text, span))?;
    Ok(end + 1)
}

/// Reads what begins a part of a list.
fn part(alloc: Global, state: &mut OpenForms, script: &str, at: usize) -> Result<usize, ReadError>
    requires inside { at < length script.now }
    requires small { length script.now < 2 ^ 32 }
    requires reached { Reached script.now state.old at }
    requires room { HasRoom state.old }
    requires byte { begins_part (slice_index script.now at) ≡ true }
    ensures next { IfOk result (λ next. (at < next) × (next ≤ length script.now)) }
    ensures ok { IfOk result (λ next. Reached script.now state.new next) }
    ensures err { IfErr result (λ e. IsRefusal script.now e) }
{
    let byte = byte_at(script, at);
    if is_left_out_byte(byte) {
        return Err(ReadError {
            kind: ReadErrorKind::LeftOut,
            at: span_of(at, at + 1),
        });
    }
    match byte {
        b'(' => open(state, script, at, Some(Bracket::Round)),
        b'[' => open(state, script, at, Some(Bracket::Square)),
        b'@' => open(state, script, at, None),
        b'"' => text(alloc, state, script, at),
        _ => word(alloc, state, script, at),
    }
}

/// Reads what is at an offset, and says where to continue.
fn step(alloc: Global, state: &mut OpenForms, script: &str, at: usize) -> Result<usize, ReadError>
    requires inside { at < length script.now }
    requires small { length script.now < 2 ^ 32 }
    requires reached { Reached script.now state.old at }
    ensures next { IfOk result (λ next. (at < next) × (next ≤ length script.now)) }
    ensures ok { IfOk result (λ next. Reached script.now state.new next) }
    ensures err { IfErr result (λ e. IsRefusal script.now e) }
{
    let byte = byte_at(script, at);
    if is_white(byte) {
        return Ok(at + 1);
    }
    match byte {
        b';' => Ok(at + 1 + line_len(rest_at(script, at + 1))),
        b')' => close(alloc, state, script, at, Bracket::Round),
        b']' => close(alloc, state, script, at, Bracket::Square),
        _ => {
            if state.is_full() {
                return Err(ReadError {
                    kind: ReadErrorKind::TooLarge,
                    at: span_of(at, at + 1),
                });
            }
            part(alloc, state, script, at)
        }
    }
}

/// The forms of a script that is short enough and UTF-8.
fn read_forms(alloc: Global, script: &str) -> Result<Vec<Form>, ReadError>
    requires small { length script.now < 2 ^ 32 }
    ensures ok { IfOk result (λ forms. Holds script.now [] (trees forms.items) []) }
    ensures err { IfErr result (λ e. IsRefusal script.now e) }
{
    let mut state = OpenForms::new(alloc);
    let mut at = 0;
    while at < script.len() {
        at = step(alloc, &mut state, script, at)?;
    }
    let OpenForms {
        mut open,
        forms,
        ..
    } = state;
    match open.pop() {
        Some(last) => Err(ReadError {
            kind: ReadErrorKind::Unclosed,
            at: Span {
                from: last.from,
                to: last.from + 1,
            },
        }),
        None => Ok(forms),
    }
}

/// The forms of a script.
///
/// # Errors
/// `TooLarge` at 1048576..1048577 for more than 1,048,576 bytes, else `NotUtf8` at the first byte that
/// begins no character, else the first refusal from left to right. `Memory`, at 0..0, where the forms
/// didn't fit into memory.
pub fn read_script(alloc: Global, bytes: &[u8]) -> Result<Vec<Form>, ReadError>
    ensures ok { IfOk result (λ forms. Reads bytes.now (trees forms.items)) }
    ensures stops { IfErr result (λ e. e.kind ≢ Memory → ReadStops bytes.now e.kind e.at) }
    ensures memory { IfErr result (λ e. e.kind ≡ Memory → e.at ≡ between 0 0) }
{
    if bytes.len() > MOST_SCRIPT {
        return Err(ReadError {
            kind: ReadErrorKind::TooLarge,
            at: span_of(MOST_SCRIPT, MOST_SCRIPT + 1),
        });
    }
    match str::from_utf8(bytes) {
        Ok(script) => read_forms(alloc, script),
        Err(e) => {
            let at = e.valid_up_to();
            Err(ReadError {
                kind: ReadErrorKind::NotUtf8,
                at: span_of(at, at + 1),
            })
        }
    }
}
