//! Code, read.

ghost use Rattle.std.specs.Prelude.{◌≡◌, IfErr, IfOk, Ok};
ghost use Rattle.txs_code_meaning.specs.PlainCode.{PlainCode};
ghost use Rattle.txs_code_decode.specs.declared.error.CodeErrorKind.TheVariants.{Memory};
ghost use Rattle.txs_code_decode.specs.CellForm.{kinds_of};
ghost use Rattle.txs_code_decode.specs.Format.{Gives, whole};
ghost use Rattle.txs_code_decode.specs.CodeForm.{Answers, HasForm, HasMagic, IsMemory, decoded, error_of, form, magic_format, cells_format, told_cells_format, constants_format, code_format};

use crate::bodies::program_at;
use crate::cells::some_cells_at;
use crate::error::{CodeError, CodeErrorKind, Stop, refused, refused_before};
use crate::fields::{u16_at, u32_at};
use crate::values::{LEVELS, values_at};
use std::alloc::Global;
use txs_code_meaning::{Code, has_validator};
use txs_value_cell::CellDefinition;
use txs_value_data::Value;
use txs_value_data::limits::MOST_DEFINITIONS;

/// `TXS1` as a number.
const MAGIC: u32 = 0x5458_5331;

/// The constants of code.
const MOST_CONSTANTS: u32 = 1_000_000;

/// `TXS2` as a number.
const MAGIC_OF_VALIDATED: u32 = 0x5458_5332;

/// The first four bytes, which tell whether cells have validators.
#[tactic(auto, unfolding(crate::specs::CodeForm::magic_format))]
fn magic_at(bytes: &[u8]) -> Result<(bool, &[u8]), Stop>
    ensures value { Gives (λ x. (x.0, x.1.now)) result (magic_format.read bytes.now) }
    ensures magic { IfOk result (λ x. HasMagic bytes.now) }
    ensures no_memory { IfErr result (λ stop. IsMemory stop → ⊥) }
{
    let (magic, rest) = u32_at(bytes)?;
    if magic != MAGIC && magic != MAGIC_OF_VALIDATED {
        return Err(refused(CodeErrorKind::BadMagic, bytes));
    }
    Ok((magic == MAGIC_OF_VALIDATED, rest))
}

/// The cells, which have validators or not.
#[tactic(auto, unfolding(crate::specs::CodeForm::cells_format))]
fn cells_at(
    alloc: Global,
    validated: bool,
    bytes: &[u8],
) -> Result<(Vec<CellDefinition>, &[u8]), Stop>
    ensures { Gives (λ x. (x.0.items, x.1.now)) result ((cells_format validated).read bytes.now) }
{
    match u16_at(bytes) {
        Ok((count, rest)) => {
            if usize::from(count) > MOST_DEFINITIONS {
                return Err(refused(CodeErrorKind::TooLarge, bytes));
            }
            some_cells_at(alloc, validated, count, rest)
        }
        Err(stop) => Err(stop),
    }
}

/// The cells, of which one has a validator where the magic says so.
#[tactic(auto, unfolding(crate::specs::CodeForm::told_cells_format))]
fn told_cells_at(
    alloc: Global,
    validated: bool,
    bytes: &[u8],
) -> Result<(Vec<CellDefinition>, &[u8]), Stop>
    ensures { Gives (λ x. (x.0.items, x.1.now)) result ((told_cells_format validated).read bytes.now) }
{
    match cells_at(alloc, validated, bytes) {
        Ok((cells, rest)) => {
            if validated && !has_validator(&cells) {
                return Err(refused_before(CodeErrorKind::BadOperand, bytes));
            }
            Ok((cells, rest))
        }
        Err(stop) => Err(stop),
    }
}

/// The constants, where these cells are.
#[tactic(auto, unfolding(crate::specs::CodeForm::constants_format))]
fn constants_at<'a>(
    alloc: Global,
    defined: &[CellDefinition],
    bytes: &'a [u8],
) -> Result<(Vec<Value>, &'a [u8]), Stop>
    ensures { Gives (λ x. (x.0.items, x.1.now)) result ((constants_format (kinds_of defined.now)).read bytes.now) }
{
    match u32_at(bytes) {
        Ok((count, rest)) => {
            if count > MOST_CONSTANTS {
                return Err(refused(CodeErrorKind::TooLarge, bytes));
            }
            values_at(alloc, true, defined, LEVELS, count, rest)
        }
        Err(stop) => Err(stop),
    }
}

/// Code, and the bytes behind it.
#[tactic(auto, unfolding(crate::specs::CodeForm::code_format))]
fn code_at(alloc: Global, bytes: &[u8]) -> Result<(Code, &[u8]), Stop>
    ensures value { Gives (λ x. (x.0, x.1.now)) result (code_format.read bytes.now) }
    ensures magic { IfErr result (λ stop. IsMemory stop → HasMagic bytes.now) }
{
    let (validated, rest) = magic_at(bytes)?;
    let (cells, rest) = told_cells_at(alloc, validated, rest)?;
    match constants_at(alloc, &cells, rest) {
        Ok((constants, rest)) => match program_at(alloc, constants.len(), rest) {
            Ok(((functions, threads), rest)) => {
                Ok((Code::new(cells, constants, functions, threads), rest))
            }
            Err(stop) => Err(stop),
        },
        Err(stop) => Err(stop),
    }
}

/// The code that all of the bytes are the form of.
fn all_of(alloc: Global, bytes: &[u8]) -> Result<Code, Stop>
    ensures value { Gives (λ code. code) result (whole code_format bytes.now) }
    ensures magic { IfErr result (λ stop. IsMemory stop → HasMagic bytes.now) }
{
    let (code, rest) = code_at(alloc, bytes)?;
    if !rest.is_empty() {
        return Err(refused(CodeErrorKind::Trailing, rest));
    }
    Ok(code)
}

/// Why reading so many bytes stopped, with its place among them.
fn error_of(count: usize, stop: Stop) -> CodeError
    ensures { result ≡ error_of count stop }
{
    match stop {
        Stop::Memory => CodeError {
            kind: CodeErrorKind::Memory,
            at: 0,
        },
        Stop::Refused(refusal) => CodeError {
            kind: refusal.kind,
            at: count.saturating_sub(refusal.left),
        },
    }
}

/// The code that the bytes are the form of.
///
/// # Errors
/// The first refusal from left to right, with its place. `Memory`, at 0, where the code didn't fit into memory.
pub fn decode(alloc: Global, bytes: &[u8]) -> Result<Code, CodeError>
    // What is read is code in its form.
    ensures code { IfOk result (λ code. HasForm code × (bytes.now ≡ form code)) }
    // Code in its form is read, unless memory runs out, and no other code has it.
    ensures only { (code : PlainCode) → HasForm code → bytes.now ≡ form code → Answers result (Ok code) }
    // No memory is wanted for bytes that don't begin as code's.
    ensures magic { IfErr result (λ e. e.kind ≡ Memory → HasMagic bytes.now) }
    // Which refusal it is.
    ensures first { Answers result (decoded bytes.now) }
{
    match all_of(alloc, bytes) {
        Ok(code) => Ok(code),
        Err(stop) => Err(error_of(bytes.len(), stop)),
    }
}
