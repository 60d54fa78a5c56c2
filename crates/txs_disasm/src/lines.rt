//! The lines of a listing.

ghost use Rattle.std.specs.Prelude.{◌≡◌, ◌++◌, decimal, OnOk};
ghost use Rattle.txs_value_data.specs.Printed.{printed};
ghost use Rattle.txs_value_data.specs.View.{plain_of};
ghost use Rattle.txs_disasm.specs.Listing.{at_span, body_head, body_line, callee_words, cell_line, constant_line, instr_line, operands, validator_words, word};

use crate::names::{instr_name, kind_name, mode_words};
use itoa::Buffer;
use std::alloc::AllocError;
use txs_code_meaning::{Body, Instr, OpenForm};
use txs_value_cell::CellDefinition;
use txs_value_data::{Callee, Span, Value, write_text};

/// What a body is of.
#[derive(Clone, Copy)]
pub(crate) enum BodyKind {
    Function,
    Thread,
}

/// Appends a word behind a space.
fn put_word(text: &[u8], out: &mut Vec<u8>) -> Result<(), AllocError>
    ensures { OnOk result (out.new.items ≡ out.old.items ++ word text.now) }
{
    out.push(b' ')?;
    out.extend_from_slice(text)
}

/// Appends a text, and a number behind it.
fn put_number(text: &[u8], n: u64, out: &mut Vec<u8>) -> Result<(), AllocError>
    ensures { OnOk result (out.new.items ≡ out.old.items ++ text.now ++ decimal n) }
{
    out.extend_from_slice(text)?;
    out.extend_from_slice(Buffer::new().format(n).as_bytes())
}

/// Appends a callee.
fn put_callee(callee: Callee, out: &mut Vec<u8>) -> Result<(), AllocError>
    ensures { OnOk result (out.new.items ≡ out.old.items ++ callee_words callee) }
{
    match callee {
        Callee::Core(op) => {
            out.extend_from_slice(b" core")?;
            put_word(op.name(), out)
        }
        Callee::Function(function) => put_number(b" fn ", u64::from(function), out),
    }
}

/// Appends the validator of a cell, if it has one.
fn put_validator(validator: Option<Callee>, out: &mut Vec<u8>) -> Result<(), AllocError>
    ensures { OnOk result (out.new.items ≡ out.old.items ++ validator_words validator) }
{
    match validator {
        None => Ok(()),
        Some(callee) => {
            out.extend_from_slice(b" validator")?;
            put_callee(callee, out)
        }
    }
}

/// Appends the operands of an instruction.
fn put_operands(instr: Instr, out: &mut Vec<u8>) -> Result<(), AllocError>
    ensures { OnOk result (out.new.items ≡ out.old.items ++ operands instr) }
{
    match instr {
        Instr::Const(number) | Instr::Jump(number) | Instr::JumpFalse(number) => {
            put_number(b" ", u64::from(number), out)
        }
        Instr::Local(local) | Instr::Store(local) => put_number(b" ", u64::from(local), out),
        Instr::Core(op, count) => {
            put_word(op.name(), out)?;
            put_number(b" ", u64::from(count), out)
        }
        Instr::Call(number)
        | Instr::Vector(number)
        | Instr::Print(number)
        | Instr::Open(OpenForm::Alter, number) => put_number(b" ", u64::from(number), out),
        Instr::Open(OpenForm::Commute(callee) | OpenForm::Swap(callee), count)
        | Instr::Send(callee, count) => {
            put_callee(callee, out)?;
            put_number(b" ", u64::from(count), out)
        }
        Instr::Pop
        | Instr::Return
        | Instr::Look(_)
        | Instr::Put(_)
        | Instr::TxBegin
        | Instr::TxEnd
        | Instr::Close(_)
        | Instr::Halt => Ok(()),
    }
}

/// Appends a span.
fn put_span(span: Span, out: &mut Vec<u8>) -> Result<(), AllocError>
    ensures { OnOk result (out.new.items ≡ out.old.items ++ at_span span) }
{
    put_number(b" @", u64::from(span.from), out)?;
    put_number(b"..", u64::from(span.to), out)
}

/// Appends the line of a cell.
pub(crate) fn put_cell(
    number: usize,
    cell: &CellDefinition,
    out: &mut Vec<u8>,
) -> Result<(), AllocError>
    ensures { OnOk result (out.new.items ≡ out.old.items ++ cell_line number cell.now) }
{
    put_number(b"cell ", number as u64, out)?;
    put_word(kind_name(cell.kind), out)?;
    put_word(cell.name.as_bytes(), out)?;
    out.push(b' ')?;
    write_text(&cell.opening, out)?;
    out.extend_from_slice(mode_words(cell.error_mode))?;
    put_validator(cell.validator, out)?;
    out.extend_from_slice(b"\n")
}

/// Appends the line of a constant.
pub(crate) fn put_constant(
    number: usize,
    value: &Value,
    out: &mut Vec<u8>,
) -> Result<(), AllocError>
    ensures { OnOk result (out.new.items ≡ out.old.items ++ constant_line number value.now) }
{
    put_number(b"const ", number as u64, out)?;
    out.push(b' ')?;
    write_text(value, out)?;
    out.extend_from_slice(b"\n")
}

/// Appends the beginning of the line of a body: what it is, its number, and of a function how many parameters it has.
fn put_head(
    kind: BodyKind,
    number: usize,
    parameters: u8,
    out: &mut Vec<u8>,
) -> Result<(), AllocError>
    ensures { OnOk result (out.new.items ≡ out.old.items ++ body_head kind number parameters) }
{
    match kind {
        BodyKind::Function => {
            put_number(b"fn ", number as u64, out)?;
            put_number(b" params ", u64::from(parameters), out)
        }
        BodyKind::Thread => put_number(b"thread ", number as u64, out),
    }
}

/// Appends the line of a body.
pub(crate) fn put_body(
    kind: BodyKind,
    number: usize,
    body: &Body,
    out: &mut Vec<u8>,
) -> Result<(), AllocError>
    ensures { OnOk result (out.new.items ≡ out.old.items ++ body_line kind number body.now) }
{
    put_head(kind, number, body.parameters(), out)?;
    put_number(b" locals ", u64::from(body.locals()), out)?;
    out.extend_from_slice(b"\n")
}

/// Appends the line of an instruction at a place of its body.
pub(crate) fn put_instr(
    place: usize,
    instr: Instr,
    span: Span,
    out: &mut Vec<u8>,
) -> Result<(), AllocError>
    ensures { OnOk result (out.new.items ≡ out.old.items ++ instr_line place instr span) }
{
    put_number(b"  ", place as u64, out)?;
    put_word(instr_name(instr), out)?;
    put_operands(instr, out)?;
    put_span(span, out)?;
    out.extend_from_slice(b"\n")
}
