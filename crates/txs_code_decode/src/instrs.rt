//! Instructions, read.

ghost use Rattle.std.specs.Prelude.{◌≡◌, length, IfOk};
ghost use Rattle.txs_code_decode.specs.Format.{Gives, many_at};
ghost use Rattle.txs_code_decode.specs.CodeForm.{paired};
ghost use Rattle.txs_code_decode.specs.InstrForm.{opcode_format, operands, instr_format, span_format, placed_format};

use crate::error::{CodeErrorKind, Stop, refused};
use crate::fields::{room_for, u8_at, u32_at};
use crate::opcode::Opcode;
use crate::operands::{Called, Numbered, call_at, called_at, const_at, core_at, number_at};
use std::alloc::Global;
use txs_code_meaning::Instr;
use txs_value_cell::{LookForm, PutForm, UpdateForm};
use txs_value_data::Span;

/// The instruction of this byte whose operands are here, where there are so many constants and functions.
fn operands_at(
    constants: usize,
    functions: usize,
    opcode: Opcode,
    bytes: &[u8],
) -> Result<(Instr, &[u8]), Stop>
    ensures { Gives (λ x. (x.0, x.1.now)) result ((operands constants functions opcode).read bytes.now) }
{
    match opcode {
        Opcode::Const => const_at(constants, bytes),
        Opcode::Local => number_at(Numbered::Local, bytes),
        Opcode::Store => number_at(Numbered::Store, bytes),
        Opcode::Pop => Ok((Instr::Pop, bytes)),
        Opcode::Jump => number_at(Numbered::Jump, bytes),
        Opcode::JumpFalse => number_at(Numbered::JumpFalse, bytes),
        Opcode::Core => core_at(bytes),
        Opcode::Call => call_at(functions, bytes),
        Opcode::Return => Ok((Instr::Return, bytes)),
        Opcode::Vector => number_at(Numbered::Vector, bytes),
        Opcode::Print => number_at(Numbered::Print, bytes),
        Opcode::Deref => Ok((Instr::Look(LookForm::Deref), bytes)),
        Opcode::TxBegin => Ok((Instr::TxBegin, bytes)),
        Opcode::TxEnd => Ok((Instr::TxEnd, bytes)),
        Opcode::RefSet => Ok((Instr::Put(PutForm::RefSet), bytes)),
        Opcode::AlterOpen => number_at(Numbered::Alter, bytes),
        Opcode::AlterClose => Ok((Instr::Close(UpdateForm::Alter), bytes)),
        Opcode::CommuteOpen => called_at(functions, Called::Commute, bytes),
        Opcode::CommuteClose => Ok((Instr::Close(UpdateForm::Commute), bytes)),
        Opcode::Ensure => Ok((Instr::Look(LookForm::Ensure), bytes)),
        Opcode::SwapOpen => called_at(functions, Called::Swap, bytes),
        Opcode::SwapClose => Ok((Instr::Close(UpdateForm::Swap), bytes)),
        Opcode::Reset => Ok((Instr::Put(PutForm::Reset), bytes)),
        Opcode::Send => called_at(functions, Called::Send, bytes),
        Opcode::Halt => Ok((Instr::Halt, bytes)),
    }
}

/// A span, which doesn't end before it begins.
#[tactic(auto, unfolding(crate::specs::InstrForm::span_format))]
fn span_at(bytes: &[u8]) -> Result<(Span, &[u8]), Stop>
    ensures { Gives (λ x. (x.0, x.1.now)) result (span_format.read bytes.now) }
{
    match u32_at(bytes) {
        Ok((from, rest)) => match u32_at(rest) {
            Ok((to, after)) => {
                if from > to {
                    return Err(refused(CodeErrorKind::BadOperand, rest));
                }
                Ok((Span { from, to }, after))
            }
            Err(stop) => Err(stop),
        },
        Err(stop) => Err(stop),
    }
}

/// An instruction and its span, where there are so many constants and functions.
#[tactic(auto, unfolding(crate::specs::InstrForm::placed_format, crate::specs::InstrForm::instr_format, crate::specs::InstrForm::opcode_format))]
fn placed_at(
    constants: usize,
    functions: usize,
    bytes: &[u8],
) -> Result<((Instr, Span), &[u8]), Stop>
    ensures { Gives (λ x. (x.0, x.1.now)) result ((placed_format constants functions).read bytes.now) }
{
    let (byte, rest) = u8_at(bytes)?;
    let Some(opcode) = Opcode::from_byte(byte) else {
        return Err(refused(CodeErrorKind::BadOpcode, bytes));
    };
    match operands_at(constants, functions, opcode, rest) {
        Ok((instr, rest)) => match span_at(rest) {
            Ok((span, rest)) => Ok(((instr, span), rest)),
            Err(stop) => Err(stop),
        },
        Err(stop) => Err(stop),
    }
}

/// Instructions, each with its span.
#[derive(Drop)]
pub(crate) struct Instructions {
    pub(crate) instrs: Vec<Instr>,
    pub(crate) spans: Vec<Span>,
}

/// So many instructions, where there are so many constants and functions.
pub(crate) fn instrs_at(
    alloc: Global,
    constants: usize,
    functions: usize,
    count: u32,
    bytes: &[u8],
) -> Result<(Instructions, &[u8]), Stop>
    ensures value { Gives (λ x. (paired x.0.instrs.items x.0.spans.items, x.1.now)) result (many_at (placed_format constants functions).read count bytes.now) }
    ensures as_many { IfOk result (λ x. length x.0.spans.items ≡ length x.0.instrs.items) }
{
    let room = bytes.len().min(count as usize);
    let instrs = room_for(alloc, room, bytes)?;
    let spans = room_for(alloc, room, bytes)?;
    let mut body = Instructions { instrs, spans };
    let mut rest = bytes;
    for _ in 0..count {
        match placed_at(constants, functions, rest) {
            Ok(((instr, span), after)) => {
                body.instrs.push(instr)?;
                body.spans.push(span)?;
                rest = after;
            }
            Err(stop) => return Err(stop),
        }
    }
    Ok((body, rest))
}
