//! Cells and constants, read.

ghost use Rattle.std.specs.Prelude.{◌≡◌, true};
ghost use Rattle.txs_value_data.specs.Places.{nth};
ghost use Rattle.txs_code_decode.specs.Format.{Gives, many_at};
ghost use Rattle.txs_code_decode.specs.CellForm.{kinds, kinds_of, kind_format, modes, mode_format, constant_format, cell_format, validator_format};

use crate::error::{CodeErrorKind, Stop, refused};
use crate::fields::{name_at, room_for, u8_at};
use crate::operands::callee_at;
use crate::tag::ValidatorTag;
use crate::values::{LEVELS, value_at};
use std::alloc::Global;
use txs_value_cell::{CellDefinition, ErrorMode};
use txs_value_data::{Callee, CellKind, Value};

/// The kind of this byte, if one has it.
fn kind_of(byte: u8) -> Option<CellKind>
    ensures { result ≡ nth kinds byte }
{
    match byte {
        0 => Some(CellKind::Ref),
        1 => Some(CellKind::Atom),
        2 => Some(CellKind::Agent),
        _ => None,
    }
}

/// The error mode of this byte that a cell of this kind may have, if one has it.
fn mode_of(kind: CellKind, byte: u8) -> Option<ErrorMode>
    ensures { result ≡ nth (modes kind) byte }
{
    let is_fail = byte == 0;
    if is_fail {
        return Some(ErrorMode::Fail);
    }
    match (kind, byte) {
        (CellKind::Agent, 1) => Some(ErrorMode::Continue),
        _ => None,
    }
}

/// A value, where cells may be or not, and these are the cells.
fn constant_at<'a>(
    alloc: Global,
    cells: bool,
    defined: &[CellDefinition],
    bytes: &'a [u8],
) -> Result<(Value, &'a [u8]), Stop>
    ensures { Gives (λ x. (x.0, x.1.now)) result ((constant_format cells (kinds_of defined.now)).read bytes.now) }
{
    value_at(alloc, cells, defined, LEVELS, bytes)
}

/// The validator of a cell or none, where cells of the code have validators.
#[tactic(auto, unfolding(crate::specs::CellForm::validator_format))]
fn validator_at(validated: bool, bytes: &[u8]) -> Result<(Option<Callee>, &[u8]), Stop>
    ensures { Gives (λ x. (x.0, x.1.now)) result ((validator_format validated).read bytes.now) }
{
    if !validated {
        return Ok((None, bytes));
    }
    match u8_at(bytes) {
        Ok((byte, rest)) => match ValidatorTag::from_byte(byte) {
            None => Err(refused(CodeErrorKind::BadOperand, bytes)),
            Some(ValidatorTag::Nothing) => Ok((None, rest)),
            Some(ValidatorTag::Callee) => match callee_at(1000, rest) {
                Ok((callee, rest)) => Ok((Some(callee), rest)),
                Err(stop) => Err(stop),
            },
        },
        Err(stop) => Err(stop),
    }
}

/// A cell, where cells of the code have validators or not.
#[tactic(auto, unfolding(crate::specs::CellForm::cell_format, crate::specs::CellForm::kind_format, crate::specs::CellForm::mode_format, crate::specs::ValueForm::cell_name_format))]
fn cell_at(alloc: Global, validated: bool, bytes: &[u8]) -> Result<(CellDefinition, &[u8]), Stop>
    ensures { Gives (λ x. (x.0, x.1.now)) result ((cell_format validated).read bytes.now) }
{
    let (byte, behind) = u8_at(bytes)?;
    let Some(kind) = kind_of(byte) else {
        return Err(refused(CodeErrorKind::BadOperand, bytes));
    };
    let (byte, rest) = u8_at(behind)?;
    let Some(error_mode) = mode_of(kind, byte) else {
        return Err(refused(CodeErrorKind::BadOperand, behind));
    };
    match name_at(alloc, true, rest) {
        Ok((name, rest)) => match constant_at(alloc, false, &[], rest) {
            Ok((opening, rest)) => match validator_at(validated, rest) {
                Ok((validator, rest)) => {
                    let cell = CellDefinition {
                        kind,
                        name,
                        opening,
                        error_mode,
                        validator,
                    };
                    Ok((cell, rest))
                }
                Err(stop) => Err(stop),
            },
            Err(stop) => Err(stop),
        },
        Err(stop) => Err(stop),
    }
}

/// So many cells, where cells of the code have validators or not.
pub(crate) fn some_cells_at(
    alloc: Global,
    validated: bool,
    count: u16,
    bytes: &[u8],
) -> Result<(Vec<CellDefinition>, &[u8]), Stop>
    ensures { Gives (λ x. (x.0.items, x.1.now)) result (many_at (cell_format validated).read count bytes.now) }
{
    let mut cells = room_for(alloc, bytes.len().min(usize::from(count)), bytes)?;
    let mut rest = bytes;
    for _ in 0..count {
        match cell_at(alloc, validated, rest) {
            Ok((cell, after)) => {
                cells.push(cell)?;
                rest = after;
            }
            Err(stop) => return Err(stop),
        }
    }
    Ok((cells, rest))
}
