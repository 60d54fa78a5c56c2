//! The listing, written.

ghost use Rattle.std.specs.Prelude.{◌≡◌, ◌++◌, length, OnErr, OnOk};
ghost use Rattle.std.specs.Io.KnownBytes.{Appends};
ghost use Rattle.txs_disasm.specs.Listing.{body_lines, cell_line, constant_line, instr_lines, listing, numbered};
ghost use Rattle.txs_disasm.specs.Sent.{IsCut, Sent};

use crate::fault::WriteFault;
use crate::lines::{BodyKind, put_body, put_cell, put_constant, put_instr};
use crate::output::Page;
use std::alloc::Global;
use std::io::Write;
use txs_code_meaning::{Body, Code, Instr};
use txs_value_cell::CellDefinition;
use txs_value_data::{Span, Value};

/// Writes the lines of cells.
fn list_cells<W: Write>(
    cells: &[CellDefinition],
    page: &mut Page,
    writer: &mut W,
) -> Result<(), WriteFault>
    ensures sent { OnOk result (Sent (W.contents writer.old) (W.contents writer.new) (page.old.bytes.items ++ numbered cell_line 0 cells.now) page.new.bytes.items) }
    ensures cut { OnErr result (IsCut (W.contents writer.old) (W.contents writer.new) (page.old.bytes.items ++ numbered cell_line 0 cells.now)) }
{
    for (i, cell) in cells.iter().enumerate() {
        let put = put_cell(i, cell, &mut page.bytes);
        page.send_line(put, writer)?;
    }
    Ok(())
}

/// Writes the lines of constants.
fn list_constants<W: Write>(
    constants: &[Value],
    page: &mut Page,
    writer: &mut W,
) -> Result<(), WriteFault>
    ensures sent { OnOk result (Sent (W.contents writer.old) (W.contents writer.new) (page.old.bytes.items ++ numbered constant_line 0 constants.now) page.new.bytes.items) }
    ensures cut { OnErr result (IsCut (W.contents writer.old) (W.contents writer.new) (page.old.bytes.items ++ numbered constant_line 0 constants.now)) }
{
    for (i, constant) in constants.iter().enumerate() {
        let put = put_constant(i, constant, &mut page.bytes);
        page.send_line(put, writer)?;
    }
    Ok(())
}

/// Writes the lines of a body's instructions.
fn list_instrs<W: Write>(
    instrs: &[Instr],
    spans: &[Span],
    page: &mut Page,
    writer: &mut W,
) -> Result<(), WriteFault>
    requires { length spans.now ≡ length instrs.now }
    ensures sent { OnOk result (Sent (W.contents writer.old) (W.contents writer.new) (page.old.bytes.items ++ instr_lines 0 instrs.now spans.now) page.new.bytes.items) }
    ensures cut { OnErr result (IsCut (W.contents writer.old) (W.contents writer.new) (page.old.bytes.items ++ instr_lines 0 instrs.now spans.now)) }
{
    for i in 0..instrs.len() {
        let put = put_instr(i, instrs[i], spans[i], &mut page.bytes);
        page.send_line(put, writer)?;
    }
    Ok(())
}

/// Writes the lines of bodies, and behind that of each those of its instructions.
fn list_bodies<W: Write>(
    kind: BodyKind,
    bodies: &[Body],
    page: &mut Page,
    writer: &mut W,
) -> Result<(), WriteFault>
    ensures sent { OnOk result (Sent (W.contents writer.old) (W.contents writer.new) (page.old.bytes.items ++ numbered (body_lines kind) 0 bodies.now) page.new.bytes.items) }
    ensures cut { OnErr result (IsCut (W.contents writer.old) (W.contents writer.new) (page.old.bytes.items ++ numbered (body_lines kind) 0 bodies.now)) }
{
    for (i, body) in bodies.iter().enumerate() {
        put_body(kind, i, body, &mut page.bytes)?;
        list_instrs(body.instrs(), body.spans(), page, writer)?;
    }
    Ok(())
}

/// Writes the listing of code: a line for each cell, for each constant, and for each function and each thread with its instructions.
/// The writer is not flushed.
///
/// # Errors
/// `Write` where a call of the writer fails or takes no byte; one that was interrupted is made again, until the 100,000,000th of them.
/// `Memory` where there is no memory for some lines. After an error a beginning of the listing is written, and not all.
pub fn write_listing<W: Write>(alloc: Global, code: &Code, writer: &mut W) -> Result<(), WriteFault>
    ensures whole { OnOk result (Appends (W.contents writer.old) (W.contents writer.new) (listing code.now)) }
    ensures cut { OnErr result (IsCut (W.contents writer.old) (W.contents writer.new) (listing code.now)) }
{
    let mut page = Page::new(alloc);
    list_cells(code.cells(), &mut page, writer)?;
    list_constants(code.constants(), &mut page, writer)?;
    list_bodies(BodyKind::Function, code.functions(), &mut page, writer)?;
    list_bodies(BodyKind::Thread, code.threads(), &mut page, writer)?;
    page.send(writer)
}
