//! Code, written.

ghost use Rattle.std.specs.Option.{option_map};
ghost use Rattle.std.specs.Prelude.{◌≡◌, ◌<◌, ◌^◌, ◌++◌, length, slice_index_or, OnOk, IfOk, IsTrue, false};
ghost use Rattle.std.specs.Int.{w16, w32};
ghost use Rattle.txs_code_meaning.specs.declared.instr.Instr.TheVariants as instr;
ghost use Rattle.txs_code_decode.specs.CellForm.{cell_bytes, constant_bytes, kind_byte, mode_byte};
ghost use Rattle.txs_code_meaning.specs.Validating.{has_validator};
ghost use Rattle.txs_code_decode.specs.CodeForm.{AreBodies, AreCells, AreConstants, FormOf, HasForm, IsSmall, body_bytes, counted_bytes, form, magic_bytes};
ghost use Rattle.txs_code_decode.specs.ValueForm.{IsWritable};
ghost use Rattle.txs_value_data.specs.View.{plain_of};

use crate::same::same_code;
use crate::small::is_small;
use crate::written::{put_behind, put_name, put_placed, put_validator, put_value};
use std::alloc::{AllocError, Global};
use txs_code_decode::{CodeErrorKind, decode};
use txs_code_meaning::{Body, Code, Instr, has_validator};
use txs_value_cell::{CellDefinition, ErrorMode};
use txs_value_data::{CellKind, Span, Value};

/// The byte of a kind of cells.
fn kind_byte(kind: CellKind) -> u8
    ensures { result ≡ kind_byte kind }
{
    match kind {
        CellKind::Ref => 0,
        CellKind::Atom => 1,
        CellKind::Agent => 2,
    }
}

/// The byte of an error mode.
fn mode_byte(mode: ErrorMode) -> u8
    ensures { result ≡ mode_byte mode }
{
    match mode {
        ErrorMode::Fail => 0,
        ErrorMode::Continue => 1,
    }
}

/// Appends a cell, where cells of the code have validators or not.
fn put_cell(validated: bool, cell: &CellDefinition, out: &mut Vec<u8>) -> Result<(), AllocError>
    requires { IsWritable (plain_of cell.now.opening) }
    ensures { OnOk result (out.new.items ≡ out.old.items ++ cell_bytes validated cell.now) }
{
    put_behind(kind_byte(cell.kind), &[mode_byte(cell.error_mode)], out)?;
    put_name(&cell.name, out)?;
    put_value(&cell.opening, out)?;
    put_validator(validated, cell.validator, out)
}

/// Appends cells behind their count.
fn put_cells(validated: bool, cells: &[CellDefinition], out: &mut Vec<u8>) -> Result<(), AllocError>
    requires few { length cells.now < 2 ^ 16 }
    requires writable { AreCells cells.now }
    ensures { OnOk result (out.new.items ≡ out.old.items ++ counted_bytes w16 (cell_bytes validated) cells.now) }
{
    out.extend_from_slice(&(cells.len() as u16).to_be_bytes())?;
    for cell in cells {
        put_cell(validated, cell, out)?;
    }
    Ok(())
}

/// Appends constants behind their count.
fn put_constants(constants: &[Value], out: &mut Vec<u8>) -> Result<(), AllocError>
    requires few { length constants.now < 2 ^ 32 }
    requires writable { AreConstants constants.now }
    ensures { OnOk result (out.new.items ≡ out.old.items ++ counted_bytes w32 constant_bytes constants.now) }
{
    out.extend_from_slice(&(constants.len() as u32).to_be_bytes())?;
    for constant in constants {
        put_value(constant, out)?;
    }
    Ok(())
}

/// The instruction at a place, with its span.
fn placed_at(instrs: &[Instr], spans: &[Span], place: usize) -> (Instr, Span)
    requires instr { place < length instrs.now }
    requires span { place < length spans.now }
    ensures instr { result.0 ≡ slice_index_or instrs.now place instr.Halt }
    ensures span { result.1 ≡ slice_index_or spans.now place (record { from = 0; to = 0 }) }
{
    (instrs[place], spans[place])
}

/// Appends a body.
fn put_body(body: &Body, out: &mut Vec<u8>) -> Result<(), AllocError>
    requires { length body.now.instrs < 2 ^ 32 }
    ensures { OnOk result (out.new.items ≡ out.old.items ++ body_bytes body.now) }
{
    let instrs = body.instrs();
    let spans = body.spans();
    put_behind(body.parameters(), &[body.locals()], out)?;
    out.extend_from_slice(&(instrs.len() as u32).to_be_bytes())?;
    for i in 0..instrs.len() {
        let (instr, span) = placed_at(instrs, spans, i);
        put_placed(instr, span, out)?;
    }
    Ok(())
}

/// Appends bodies behind their count.
fn put_bodies(bodies: &[Body], out: &mut Vec<u8>) -> Result<(), AllocError>
    requires few { length bodies.now < 2 ^ 16 }
    requires short { AreBodies bodies.now }
    ensures { OnOk result (out.new.items ≡ out.old.items ++ counted_bytes w16 body_bytes bodies.now) }
{
    out.extend_from_slice(&(bodies.len() as u16).to_be_bytes())?;
    for body in bodies {
        put_body(body, out)?;
    }
    Ok(())
}

/// The bytes with which code begins whose cells have validators or not.
fn magic(validated: bool) -> &'static [u8]
    ensures { result.now ≡ magic_bytes validated }
{
    if validated {
        return b"TXS2";
    }
    b"TXS1"
}

/// The bytes of code, part behind part: of code that has a form, its form.
fn written(alloc: Global, code: &Code) -> Result<Vec<u8>, AllocError>
    requires { IsSmall code.now }
    ensures { IfOk result (λ bytes. bytes.items ≡ form code.now) }
{
    let mut out = Vec::new(alloc);
    let cells = code.cells();
    let validated = has_validator(cells);
    out.extend_from_slice(magic(validated))?;
    put_cells(validated, cells, &mut out)?;
    put_constants(code.constants(), &mut out)?;
    put_bodies(code.functions(), &mut out)?;
    put_bodies(code.threads(), &mut out)?;
    Ok(out)
}

/// The byte form of code.
pub fn encode(alloc: Global, code: &Code) -> Result<Vec<u8>, AllocError>
    requires { HasForm code.now }
    ensures { IfOk result (λ bytes. bytes.items ≡ form code.now) }
{
    written(alloc, code)
}

/// Whether these bytes, which are the code's if it has a form, are a form: whether they are read as this code.
fn is_form(alloc: Global, code: &Code, bytes: &[u8]) -> Result<bool, AllocError>
    requires { bytes.now ≡ form code.now }
    ensures form { IfOk result (λ b. IsTrue b → HasForm code.now) }
    ensures none { IfOk result (λ b. b ≡ false → HasForm code.now → ⊥) }
{
    match decode(alloc, bytes) {
        Ok(read) => Ok(same_code(&read, code)),
        Err(error) => {
            if error.kind == CodeErrorKind::Memory {
                return Err(AllocError);
            }
            Ok(false)
        }
    }
}

/// The byte form of code, or none of code that has none. It is read again, which is the test.
pub fn bytes_of(alloc: Global, code: &Code) -> Result<Option<Vec<u8>>, AllocError>
    ensures { IfOk result (λ bytes. FormOf code.now (option_map (λ b. b.items) bytes)) }
{
    if !is_small(code) {
        return Ok(None);
    }
    let bytes = written(alloc, code)?;
    if is_form(alloc, code, bytes.as_slice())? {
        return Ok(Some(bytes));
    }
    Ok(None)
}
