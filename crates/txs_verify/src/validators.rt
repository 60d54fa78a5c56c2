//! Validators of cells: what they take, and whether they are pure.

ghost use Rattle.std.specs.Prelude.{◌≡◌, ◌<◌, ◌↔◌, IsTrue, IfErr, OnOk, Some, length};
ghost use Rattle.txs_code_meaning.specs.PlainCode.{parameters_of};
ghost use Rattle.txs_value_data.specs.Places.{nth};
ghost use Rattle.txs_value_data.specs.declared.op.Callee.{Callee as ACallee};
ghost use Rattle.txs_value_cell.specs.Cells.{validators_of};
ghost use Rattle.txs_verify.specs.Validators.{EachValidator, IsPure, IsRefusedValidator, IsWrongValidator, TakesOne, refused_cell};
ghost use Rattle.txs_verify.specs.declared.error.VerifyErrorKind.TheVariants.{ArityWrong, TxNesting};

use crate::alone::has_parameters;
use crate::error::{BodyName, VerifyError, VerifyErrorKind};
use crate::standing::{Kind, is_pure};
use txs_code_meaning::Body;
use txs_value_apply::takes;
use txs_value_cell::CellDefinition;
use txs_value_data::Callee;

/// The validator of a cell, if it has one.
fn validator_at(cells: &[CellDefinition], number: usize) -> Option<Callee>
    requires { number < length cells.now }
    ensures { nth (validators_of cells.now) number ≡ Some result }
{
    cells[number].validator
}

/// Whether a callee takes one value.
fn takes_one(functions: &[Body], callee: Callee) -> bool
    ensures { IsTrue result ↔ TakesOne (parameters_of functions.now) callee }
{
    match callee {
        Callee::Core(op) => takes(op, 1),
        Callee::Function(f) => has_parameters(functions, f, 1, false),
    }
}

/// The refusal of the validator of a cell.
fn refused_cell(kind: VerifyErrorKind, number: usize) -> VerifyError
    ensures { result ≡ refused_cell kind number }
{
    VerifyError {
        kind,
        body: BodyName::Cell(number),
        at: 0,
    }
}

/// Looks at what the validator of a cell takes.
fn count_at(functions: &[Body], cells: &[CellDefinition], number: usize) -> Result<(), VerifyError>
    requires { number < length cells.now }
    ensures right { OnOk result ((f : ACallee) → nth (validators_of cells.now) number ≡ Some (Some f) → TakesOne (parameters_of functions.now) f) }
    ensures wrong { IfErr result (λ e. IsWrongValidator (TakesOne (parameters_of functions.now)) ArityWrong (validators_of cells.now) number e) }
{
    match validator_at(cells, number) {
        None => Ok(()),
        Some(callee) => {
            if takes_one(functions, callee) {
                return Ok(());
            }
            Err(refused_cell(VerifyErrorKind::ArityWrong, number))
        }
    }
}

/// Looks at what the validators of cells take.
pub(crate) fn look_at_counts(
    functions: &[Body],
    cells: &[CellDefinition],
) -> Result<(), VerifyError>
    ensures right { OnOk result (EachValidator (TakesOne (parameters_of functions.now)) (validators_of cells.now)) }
    ensures wrong { IfErr result (λ e. IsRefusedValidator (TakesOne (parameters_of functions.now)) ArityWrong (validators_of cells.now) e) }
{
    for number in 0..cells.len() {
        count_at(functions, cells, number)?;
    }
    Ok(())
}

/// Looks at whether the validator of a cell is pure.
fn purity_at(kinds: &[Kind], cells: &[CellDefinition], number: usize) -> Result<(), VerifyError>
    requires { number < length cells.now }
    ensures right { OnOk result ((f : ACallee) → nth (validators_of cells.now) number ≡ Some (Some f) → IsPure kinds.now f) }
    ensures wrong { IfErr result (λ e. IsWrongValidator (IsPure kinds.now) TxNesting (validators_of cells.now) number e) }
{
    match validator_at(cells, number) {
        None => Ok(()),
        Some(callee) => {
            if is_pure(kinds, callee) {
                return Ok(());
            }
            Err(refused_cell(VerifyErrorKind::TxNesting, number))
        }
    }
}

/// Looks at whether the validators of cells are pure, by what functions are for.
pub(crate) fn look_at_purity(kinds: &[Kind], cells: &[CellDefinition]) -> Result<(), VerifyError>
    ensures right { OnOk result (EachValidator (IsPure kinds.now) (validators_of cells.now)) }
    ensures wrong { IfErr result (λ e. IsRefusedValidator (IsPure kinds.now) TxNesting (validators_of cells.now) e) }
{
    for number in 0..cells.len() {
        purity_at(kinds, cells, number)?;
    }
    Ok(())
}
