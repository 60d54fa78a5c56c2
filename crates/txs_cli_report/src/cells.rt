//! The lines that tell of cells.

ghost use Rattle.std.specs.Prelude.{◌≡◌, ◌≤◌, ◌++◌, length, OnErr, OnOk};
ghost use Rattle.txs_value_data.specs.Printed.{Extends};
ghost use Rattle.txs_world_shared.specs.SharedState.{newest_of};
ghost use Rattle.txs_cli_report.specs.CellLines.{cell_line, cell_lines};

use crate::write_both;
use std::alloc::AllocError;
use txs_value_cell::CellDefinition;
use txs_value_data::{CellId, Name, Value, write_text};
use txs_world_shared::SharedState;

/// Appends the line of a cell: its name, a space, and its value.
fn write_cell(output: &mut Vec<u8>, name: &Name, value: &Value) -> Result<(), AllocError>
    ensures ok { OnOk result (output.new.items ≡ output.old.items ++ cell_line name.now value.now) }
    ensures kept { Extends output.old.items output.new.items }
{
    write_both(output, name.as_bytes(), b" ")?;
    write_text(value, output)?;
    output.extend_from_slice(b"\n")
}

/// Appends the lines of cells.
fn append_cells(
    output: &mut Vec<u8>,
    cells: &[CellDefinition],
    shared: &SharedState,
) -> Result<(), AllocError>
    requires few { length cells.now ≤ 1000 }
    requires made { shared.now.cells ≡ cells.now }
    ensures ok { OnOk result (output.new.items ≡ output.old.items ++ cell_lines (newest_of shared.now) 0 cells.now) }
    ensures kept { Extends output.old.items output.new.items }
{
    for (i, cell) in cells.iter().enumerate() {
        let id = CellId {
            kind: cell.kind,
            number: i as u16,
        };
        write_cell(output, &cell.name, shared.newest(id))?;
    }
    Ok(())
}

/// Appends a line for each cell, in the order of the script: its name, and its newest value in the state, which is made of these
/// definitions; of an atom that in its own book, of an agent its state. After an error nothing is appended.
pub fn write_cells(
    output: &mut Vec<u8>,
    cells: &[CellDefinition],
    shared: &SharedState,
) -> Result<(), AllocError>
    requires few { length cells.now ≤ 1000 }
    requires made { shared.now.cells ≡ cells.now }
    ensures ok { OnOk result (output.new.items ≡ output.old.items ++ cell_lines (newest_of shared.now) 0 cells.now) }
    ensures err { OnErr result (output.new.items ≡ output.old.items) }
{
    let length = output.len();
    let done = append_cells(output, cells, shared);
    if done.is_err() {
        output.truncate(length);
    }
    done
}
