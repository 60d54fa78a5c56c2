//! The validators of a program's cells, which stand among its bodies.

ghost use Rattle.std.specs.Prelude.{◌≡◌, map, Ok, IfSome};
ghost use Rattle.txs_check.specs.Refused.{checked_each, of_validator, validates};
ghost use Rattle.txs_check.specs.Signatures.{known_as};
ghost use Rattle.txs_check.specs.Walked.{behind, left, left_by, taken_off};

use crate::class::Signature;
use crate::error::CheckError;
use crate::walk::check_callee;
use txs_value_cell::CellDefinition;
use txs_value_data::{Callee, Span};

/// Cells in the order of their numbers, and where the validator of each stands, or its definition where it has none.
#[derive(Clone, Copy)]
pub struct Validators<'a> {
    pub cells: &'a [CellDefinition],
    pub spans: &'a [Span],
}

/// The first of these validators, where it stands, and those behind it.
#[derive(Clone, Copy)]
struct Taken<'a> {
    callee: Option<Callee>,
    span: Span,
    rest: Validators<'a>,
}

/// The first validator and those behind it, if there is one.
fn take_off(validators: Validators<'_>) -> Option<Taken<'_>>
    ensures { taken_off result (left validators.entry) }
{
    let (cell, cells) = validators.cells.split_first()?;
    let (span, spans) = validators.spans.split_first()?;
    Some(Taken {
        callee: cell.validator,
        span: *span,
        rest: Validators { cells, spans },
    })
}

/// Whether a validator may be applied to one value: it is a pure function, or an operation.
fn check_validator(
    signatures: &[Signature],
    callee: Option<Callee>,
    at: Span,
) -> Result<(), CheckError>
    ensures { result ≡ validates (known_as signatures.now) callee at }
{
    match callee {
        None => Ok(()),
        Some(callee) => check_callee(signatures, callee, 1, at),
    }
}

/// Whether the validators that stand before this place of the script may be applied: then those behind it are left.
pub fn check_before<'a>(
    signatures: &[Signature],
    from: u32,
    validators: Validators<'a>,
) -> Result<Validators<'a>, CheckError>
    ensures { left_by result ≡ behind (known_as signatures.now) from (left validators.entry) }
{
    let mut rest = validators;
    while let Some(next) = take_off(rest) {
        if next.span.from >= from {
            return Ok(rest);
        }
        check_validator(signatures, next.callee, next.span)?;
        rest = next.rest;
    }
    Ok(rest)
}

/// Whether all these validators may be applied.
pub fn check_all(signatures: &[Signature], validators: Validators<'_>) -> Result<(), CheckError>
    ensures { result ≡ checked_each (known_as signatures.now) (map of_validator (left validators.entry)) }
{
    let mut rest = validators;
    while let Some(next) = take_off(rest) {
        check_validator(signatures, next.callee, next.span)?;
        rest = next.rest;
    }
    Ok(())
}
