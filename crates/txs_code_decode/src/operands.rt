//! The operands of instructions, read.

ghost use Rattle.std.specs.Prelude.{◌≡◌};
ghost use Rattle.std.specs.Int.{w16};
ghost use Rattle.txs_value_data.specs.Places.{nth};
ghost use Rattle.txs_value_data.specs.Operations.{op_number, operations};
ghost use Rattle.txs_code_decode.specs.declared.error.CodeErrorKind.TheVariants.{BadOperand};
ghost use Rattle.txs_code_decode.specs.declared.opcode.Opcode.TheVariants as opcode;
ghost use Rattle.txs_code_decode.specs.Format.{Gives, number, one_of, tested};
ghost use Rattle.txs_code_decode.specs.InstrForm.{op_format, callee_format, called_instr, callee_and_count, numbered_opcode, operands};
ghost use Rattle.txs_code_decode.specs.ValueForm.{below};

use crate::error::{CodeErrorKind, Stop, refused};
use crate::fields::{u8_at, u16_at, u32_at};
use crate::tag::CalleeTag;
use txs_code_meaning::{Instr, OpenForm};
use txs_value_data::{Callee, Op};

/// The operation of this number, if there is one.
fn op_of(number: u16) -> Option<Op>
    ensures { result ≡ nth operations number }
{
    if number < 256 {
        Op::from_number(number as u8)
    } else {
        None
    }
}

/// What is behind a number among operands, and in how many bytes the number is.
#[derive(Clone, Copy)]
pub(crate) enum Numbered {
    Local,
    Store,
    Jump,
    JumpFalse,
    Vector,
    Print,
    Alter,
}

/// What a callee and a count of arguments stand for.
#[derive(Clone, Copy)]
pub(crate) enum Called {
    Commute,
    Swap,
    Send,
}

/// The number of a function, where there are so many.
fn function_at(functions: usize, bytes: &[u8]) -> Result<(u16, &[u8]), Stop>
    ensures { Gives (λ x. (x.0, x.1.now)) result ((tested (number w16) (below functions)).read bytes.now) }
{
    match u16_at(bytes) {
        Ok((function, rest)) => {
            if usize::from(function) >= functions {
                return Err(refused(CodeErrorKind::BadOperand, bytes));
            }
            Ok((function, rest))
        }
        Err(stop) => Err(stop),
    }
}

/// An operation in two bytes.
fn wide_op_at(bytes: &[u8]) -> Result<(Op, &[u8]), Stop>
    ensures { Gives (λ x. (x.0, x.1.now)) result ((one_of (number w16) operations op_number BadOperand).read bytes.now) }
{
    match u16_at(bytes) {
        Ok((number, rest)) => match op_of(number) {
            Some(op) => Ok((op, rest)),
            None => Err(refused(CodeErrorKind::BadOperand, bytes)),
        },
        Err(stop) => Err(stop),
    }
}

/// A callee, where there are so many functions.
#[tactic(auto, unfolding(crate::specs::InstrForm::callee_format))]
pub(crate) fn callee_at(functions: usize, bytes: &[u8]) -> Result<(Callee, &[u8]), Stop>
    ensures { Gives (λ x. (x.0, x.1.now)) result ((callee_format functions).read bytes.now) }
{
    match u8_at(bytes) {
        Ok((byte, rest)) => match CalleeTag::from_byte(byte) {
            None => Err(refused(CodeErrorKind::BadOperand, bytes)),
            Some(CalleeTag::Core) => match wide_op_at(rest) {
                Ok((op, rest)) => Ok((Callee::Core(op), rest)),
                Err(stop) => Err(stop),
            },
            Some(CalleeTag::Function) => match function_at(functions, rest) {
                Ok((function, rest)) => Ok((Callee::Function(function), rest)),
                Err(stop) => Err(stop),
            },
        },
        Err(stop) => Err(stop),
    }
}

/// The number of a constant, where there are so many.
pub(crate) fn const_at(constants: usize, bytes: &[u8]) -> Result<(Instr, &[u8]), Stop>
    ensures { Gives (λ x. (x.0, x.1.now)) result ((operands constants 0 opcode.Const).read bytes.now) }
{
    match u32_at(bytes) {
        Ok((constant, rest)) => {
            if constant as usize >= constants {
                return Err(refused(CodeErrorKind::BadOperand, bytes));
            }
            Ok((Instr::Const(constant), rest))
        }
        Err(stop) => Err(stop),
    }
}

/// An operation and its count of arguments.
#[tactic(auto, unfolding(crate::specs::InstrForm::op_format))]
pub(crate) fn core_at(bytes: &[u8]) -> Result<(Instr, &[u8]), Stop>
    ensures { Gives (λ x. (x.0, x.1.now)) result ((operands 0 0 opcode.Core).read bytes.now) }
{
    match u8_at(bytes) {
        Ok((number, rest)) => match op_of(u16::from(number)) {
            Some(op) => match u16_at(rest) {
                Ok((count, rest)) => Ok((Instr::Core(op, count), rest)),
                Err(stop) => Err(stop),
            },
            None => Err(refused(CodeErrorKind::BadOperand, bytes)),
        },
        Err(stop) => Err(stop),
    }
}

/// The number of a function that is called, where there are so many.
pub(crate) fn call_at(functions: usize, bytes: &[u8]) -> Result<(Instr, &[u8]), Stop>
    ensures { Gives (λ x. (x.0, x.1.now)) result ((operands 0 functions opcode.Call).read bytes.now) }
{
    match function_at(functions, bytes) {
        Ok((function, rest)) => Ok((Instr::Call(function), rest)),
        Err(stop) => Err(stop),
    }
}

/// A callee and a count of arguments.
pub(crate) fn called_at(
    functions: usize,
    called: Called,
    bytes: &[u8],
) -> Result<(Instr, &[u8]), Stop>
    ensures { Gives (λ x. (x.0, x.1.now)) result ((callee_and_count functions (called_instr called)).read bytes.now) }
{
    match callee_at(functions, bytes) {
        Ok((callee, rest)) => match u16_at(rest) {
            Ok((count, rest)) => match called {
                Called::Commute => Ok((Instr::Open(OpenForm::Commute(callee), count), rest)),
                Called::Swap => Ok((Instr::Open(OpenForm::Swap(callee), count), rest)),
                Called::Send => Ok((Instr::Send(callee, count), rest)),
            },
            Err(stop) => Err(stop),
        },
        Err(stop) => Err(stop),
    }
}

/// A number: that of a local, the place of a jump, or how many values are taken.
pub(crate) fn number_at(numbered: Numbered, bytes: &[u8]) -> Result<(Instr, &[u8]), Stop>
    ensures { Gives (λ x. (x.0, x.1.now)) result ((operands 0 0 (numbered_opcode numbered)).read bytes.now) }
{
    match numbered {
        Numbered::Local => match u8_at(bytes) {
            Ok((local, rest)) => Ok((Instr::Local(local), rest)),
            Err(stop) => Err(stop),
        },
        Numbered::Store => match u8_at(bytes) {
            Ok((local, rest)) => Ok((Instr::Store(local), rest)),
            Err(stop) => Err(stop),
        },
        Numbered::Jump => match u32_at(bytes) {
            Ok((to, rest)) => Ok((Instr::Jump(to), rest)),
            Err(stop) => Err(stop),
        },
        Numbered::JumpFalse => match u32_at(bytes) {
            Ok((to, rest)) => Ok((Instr::JumpFalse(to), rest)),
            Err(stop) => Err(stop),
        },
        Numbered::Vector => match u16_at(bytes) {
            Ok((count, rest)) => Ok((Instr::Vector(count), rest)),
            Err(stop) => Err(stop),
        },
        Numbered::Print => match u16_at(bytes) {
            Ok((count, rest)) => Ok((Instr::Print(count), rest)),
            Err(stop) => Err(stop),
        },
        Numbered::Alter => match u16_at(bytes) {
            Ok((count, rest)) => Ok((Instr::Open(OpenForm::Alter, count), rest)),
            Err(stop) => Err(stop),
        },
    }
}
