//! Which callees are pure, and which may be sent.

ghost use Rattle.std.specs.Prelude.{◌≡◌, ◌↔◌, IfOk, true};
ghost use Rattle.txs_tree_meaning.specs.Known.{known};
ghost use Rattle.txs_tree_meaning.specs.Pure.{PureCallee};
ghost use Rattle.txs_tree_meaning.specs.Sound.{SentCallee};
ghost use Rattle.txs_tree_meaning.specs.View.{functions_of};
ghost use Rattle.txs_check.specs.Signatures.{is_pure_call, is_sent_call, known_as};

use crate::class::{Signature, signature_of, signatures_of};
use std::alloc::{AllocError, Global};
use std::marker::Model;
use txs_tree_meaning::Program;
use txs_value_apply::takes;
use txs_value_data::Callee;

/// Whether the function of this number is pure and takes so many values.
fn is_pure_function(signatures: &[Signature], number: u16, count: usize) -> bool
    ensures { result ≡ is_pure_call (known_as signatures.now) number count }
{
    match signature_of(signatures, number) {
        None => false,
        Some(signature) => usize::from(signature.parameters) == count && signature.class.pure,
    }
}

/// Whether the function of this number takes so many values and isn't for transactions alone.
fn is_sent_function(signatures: &[Signature], number: u16, count: usize) -> bool
    ensures { result ≡ is_sent_call (known_as signatures.now) number count }
{
    match signature_of(signatures, number) {
        None => false,
        Some(signature) => usize::from(signature.parameters) == count && !signature.class.inside,
    }
}

/// What is known of a program's functions, found once for many callees. Contracts see it as the program.
#[derive(Drop)]
pub struct FunctionTable<'a> {
    program: &'a Program,
    signatures: Vec<Signature>,
}

impl<'a> Model for FunctionTable<'a> {
    ghost use Rattle.std.specs.Coded.{codes};
    ghost use Rattle.txs_tree_meaning.specs.View.{Parts};
    ghost use Rattle.txs_tree_meaning.specs.contracts.node.Node as node;
    ghost use Rattle.txs_value_data.specs.contracts.value.Value as value;

    ghost Value = { Parts };

    ghost coded = { Prim.hlevel (codes, node.the_row.coded, value.the_row.coded) };

    ghost view = { λ t. t.program.now };

    ghost use Rattle.std.specs.Prelude.{◌≡◌};
    ghost use Rattle.txs_tree_meaning.specs.Known.{known};
    ghost use Rattle.txs_tree_meaning.specs.View.{functions_of};
    ghost use Rattle.txs_check.specs.Signatures.{bare, known_as};

    ghost invariant = { λ t. bare (known_as t.signatures.items) ≡ bare (known (functions_of t.program.now.functions)) };
}

/// The table of the program's functions.
///
/// # Errors
/// `AllocError` where there was no memory for it.
pub fn function_table<'a>(
    alloc: Global,
    program: &'a Program,
) -> Result<FunctionTable<'a>, AllocError>
    ensures { IfOk result (λ t. t ≡ program.now) }
{
    let signatures = signatures_of(alloc, program.functions())?;
    Ok(FunctionTable {
        program,
        signatures,
    })
}

impl<'a> FunctionTable<'a> {
    /// The program.
    pub fn program(&self) -> &'a Program
        ensures { result.now ≡ self.now }
    {
        self.program
    }

    /// Whether the callee is pure and takes so many values: what its meaning on values alone rests on.
    pub fn is_pure(&self, callee: Callee, count: usize) -> bool
        ensures { (result ≡ true) ↔ PureCallee (known (functions_of self.now.functions)) callee count }
    {
        match callee {
            Callee::Core(op) => takes(op, count),
            Callee::Function(number) => {
                is_pure_function(self.signatures.as_slice(), number, count)
            }
        }
    }

    /// Whether the callee may be sent to so many values, the agent's state among them: what its meaning as an action rests on.
    pub fn may_be_sent(&self, callee: Callee, count: usize) -> bool
        ensures { (result ≡ true) ↔ SentCallee (known (functions_of self.now.functions)) callee count }
    {
        match callee {
            Callee::Core(operation) => takes(operation, count),
            Callee::Function(number) => {
                is_sent_function(self.signatures.as_slice(), number, count)
            }
        }
    }
}

/// Whether the callee is pure and takes so many values, for one callee alone.
///
/// # Errors
/// Where there was no memory for what is known of the functions.
pub fn is_pure_callee(
    alloc: Global,
    program: &Program,
    callee: Callee,
    count: usize,
) -> Result<bool, AllocError>
    ensures { IfOk result (λ pure. (pure ≡ true) ↔ PureCallee (known (functions_of program.now.functions)) callee count) }
{
    let functions = function_table(alloc, program)?;
    Ok(functions.is_pure(callee, count))
}

/// Whether the callee may be sent to so many values, the agent's state among them, for one callee alone.
///
/// # Errors
/// Where there was no memory for what is known of the functions.
pub fn is_sent_callee(
    alloc: Global,
    program: &Program,
    callee: Callee,
    count: usize,
) -> Result<bool, AllocError>
    ensures { IfOk result (λ sent. (sent ≡ true) ↔ SentCallee (known (functions_of program.now.functions)) callee count) }
{
    let functions = function_table(alloc, program)?;
    Ok(functions.may_be_sent(callee, count))
}
