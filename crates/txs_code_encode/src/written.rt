//! Names, values and instructions, written.

ghost use Rattle.std.specs.Prelude.{◌≡◌, ◌++◌, ◌∷◌, OnOk};
ghost use Rattle.txs_value_data.specs.PlainValue.{plain_row};
ghost use Rattle.txs_value_data.specs.View.{plain_of};
ghost use Rattle.txs_code_decode.specs.CellForm.{validator_bytes};
ghost use Rattle.txs_code_decode.specs.InstrForm.{callee_bytes, instr_bytes, opcode_byte, opcode_of, operand_bytes, placed_bytes, span_bytes};
ghost use Rattle.txs_code_decode.specs.ValueForm.{AreWritable, IsWritable, name_bytes, row_bytes, value_bytes};

use std::alloc::AllocError;
use txs_code_decode::Opcode;
use txs_code_meaning::{Instr, OpenForm};
use txs_value_data::{Callee, Items, Name, Span, Value};

/// Appends a byte, and bytes behind it.
pub(crate) fn put_behind(byte: u8, bytes: &[u8], out: &mut Vec<u8>) -> Result<(), AllocError>
    ensures { OnOk result (out.new.items ≡ out.old.items ++ byte ∷ bytes.now) }
{
    out.push(byte)?;
    out.extend_from_slice(bytes)
}

/// Appends a name behind its length.
pub(crate) fn put_name(name: &Name, out: &mut Vec<u8>) -> Result<(), AllocError>
    ensures { OnOk result (out.new.items ≡ out.old.items ++ name_bytes name.now) }
{
    let bytes = name.as_bytes();
    put_behind(bytes.len() as u8, bytes, out)
}

/// Appends a value behind its tag.
#[cycle(put)]
pub(crate) fn put_value(value: &Value, out: &mut Vec<u8>) -> Result<(), AllocError>
    requires { IsWritable (plain_of value.now) }
    ensures { OnOk result (out.new.items ≡ out.old.items ++ value_bytes (plain_of value.now)) }
{
    match value {
        Value::Nil => put_behind(0, &[], out),
        Value::Truth(false) => put_behind(1, &[], out),
        Value::Truth(true) => put_behind(2, &[], out),
        Value::Int(n) => put_behind(3, &n.cast_unsigned().to_be_bytes(), out),
        Value::Key(name) => {
            put_behind(4, &[], out)?;
            put_name(name, out)
        }
        Value::Text(text) => {
            let bytes = text.as_str().as_bytes();
            put_behind(5, &(bytes.len() as u16).to_be_bytes(), out)?;
            out.extend_from_slice(bytes)
        }
        Value::Vector(items) => {
            put_behind(6, &(items.len() as u16).to_be_bytes(), out)?;
            put_items(items, out)
        }
        Value::Cell(cell) => put_behind(7, &cell.number.to_be_bytes(), out),
    }
}

/// Appends the items of a vector, one behind the other.
#[cycle(put)]
fn put_items(items: &Items, out: &mut Vec<u8>) -> Result<(), AllocError>
    requires { AreWritable (plain_row items.now) }
    ensures { OnOk result (out.new.items ≡ out.old.items ++ row_bytes (plain_row items.now)) }
{
    for i in 0..items.len() {
        put_value(items.get(i), out)?;
    }
    Ok(())
}

/// Appends a callee.
fn put_callee(callee: Callee, out: &mut Vec<u8>) -> Result<(), AllocError>
    ensures { OnOk result (out.new.items ≡ out.old.items ++ callee_bytes callee) }
{
    match callee {
        Callee::Core(op) => put_behind(0, &u16::from(op.number()).to_be_bytes(), out),
        Callee::Function(function) => put_behind(1, &function.to_be_bytes(), out),
    }
}

/// Appends the validator of a cell or none, where cells of the code have validators.
pub(crate) fn put_validator(
    validated: bool,
    validator: Option<Callee>,
    out: &mut Vec<u8>,
) -> Result<(), AllocError>
    ensures { OnOk result (out.new.items ≡ out.old.items ++ validator_bytes validated validator) }
{
    if !validated {
        return Ok(());
    }
    match validator {
        None => put_behind(0, &[], out),
        Some(callee) => {
            out.push(1)?;
            put_callee(callee, out)
        }
    }
}

/// Appends the operands of an instruction.
fn put_operands(instr: Instr, out: &mut Vec<u8>) -> Result<(), AllocError>
    ensures { OnOk result (out.new.items ≡ out.old.items ++ operand_bytes instr) }
{
    match instr {
        Instr::Const(number) | Instr::Jump(number) | Instr::JumpFalse(number) => {
            out.extend_from_slice(&number.to_be_bytes())
        }
        Instr::Local(local) | Instr::Store(local) => put_behind(local, &[], out),
        Instr::Core(op, count) => put_behind(op.number(), &count.to_be_bytes(), out),
        Instr::Call(number)
        | Instr::Vector(number)
        | Instr::Print(number)
        | Instr::Open(OpenForm::Alter, number) => out.extend_from_slice(&number.to_be_bytes()),
        Instr::Open(OpenForm::Commute(callee) | OpenForm::Swap(callee), count)
        | Instr::Send(callee, count) => {
            put_callee(callee, out)?;
            out.extend_from_slice(&count.to_be_bytes())
        }
        Instr::Pop
        | Instr::Return
        | Instr::Look(_)
        | Instr::Put(_)
        | Instr::TxBegin
        | Instr::TxEnd
        | Instr::Close(_)
        | Instr::Halt => Ok(()),
    }
}

/// Appends an instruction and its span.
pub(crate) fn put_placed(instr: Instr, span: Span, out: &mut Vec<u8>) -> Result<(), AllocError>
    ensures { OnOk result (out.new.items ≡ out.old.items ++ placed_bytes (instr, span)) }
{
    out.push(Opcode::of(instr).byte())?;
    put_operands(instr, out)?;
    out.extend_from_slice(&span.from.to_be_bytes())?;
    out.extend_from_slice(&span.to.to_be_bytes())
}
