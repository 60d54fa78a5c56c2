//! Whether code is so small that its counts and texts have room in their fields.

ghost use Rattle.std.specs.Prelude.{◌↔◌, ◌<◌, ◌^◌, IsTrue, length};
ghost use Rattle.txs_value_data.specs.PlainValue.{plain_row};
ghost use Rattle.txs_value_data.specs.View.{plain_of};
ghost use Rattle.txs_code_decode.specs.CodeForm.{AreBodies, AreCells, AreConstants, IsSmall};
ghost use Rattle.txs_code_decode.specs.ValueForm.{AreWritable, IsWritable};

use txs_code_meaning::{Body, Code};
use txs_value_cell::CellDefinition;
use txs_value_data::{Items, Value};

/// Whether each text of the value is so short that its length has two bytes.
#[cycle(writable)]
fn is_writable(value: &Value) -> bool
    ensures { IsTrue result ↔ IsWritable (plain_of value.now) }
{
    match value {
        Value::Text(text) => text.as_str().as_bytes().len() < 65_536,
        Value::Vector(items) => are_writable(items),
        Value::Nil | Value::Truth(_) | Value::Int(_) | Value::Key(_) | Value::Cell(_) => true,
    }
}

/// The same of a vector's items.
#[cycle(writable)]
fn are_writable(items: &Items) -> bool
    ensures { IsTrue result ↔ AreWritable (plain_row items.now) }
{
    for i in 0..items.len() {
        if !is_writable(items.get(i)) {
            return false;
        }
    }
    true
}

/// Whether the cells' opening values can be written.
fn are_cells(cells: &[CellDefinition]) -> bool
    ensures { IsTrue result ↔ AreCells cells.now }
{
    for cell in cells {
        if !is_writable(&cell.opening) {
            return false;
        }
    }
    true
}

/// Whether these values can be written.
fn are_constants(values: &[Value]) -> bool
    ensures { IsTrue result ↔ AreConstants values.now }
{
    for value in values {
        if !is_writable(value) {
            return false;
        }
    }
    true
}

/// Whether the count of each body's instructions has four bytes.
fn are_bodies(bodies: &[Body]) -> bool
    ensures { IsTrue result ↔ AreBodies bodies.now }
{
    for body in bodies {
        if body.instrs().len() > u32::MAX as usize {
            return false;
        }
    }
    true
}

/// Whether the counts have room in their fields.
fn are_few(code: &Code) -> bool
    ensures cells { IsTrue result → length code.now.cells < 2 ^ 16 }
    ensures constants { IsTrue result → length code.now.constants < 2 ^ 32 }
    ensures functions { IsTrue result → length code.now.functions < 2 ^ 16 }
    ensures threads { IsTrue result → length code.now.threads < 2 ^ 16 }
    ensures all { IsSmall code.now → IsTrue result }
{
    code.cells().len() < 65_536
        && code.constants().len() <= u32::MAX as usize
        && code.functions().len() < 65_536
        && code.threads().len() < 65_536
}

/// Whether all of the code can be written.
pub(crate) fn is_small(code: &Code) -> bool
    ensures { IsTrue result ↔ IsSmall code.now }
{
    are_few(code)
        && are_cells(code.cells())
        && are_constants(code.constants())
        && are_bodies(code.functions())
        && are_bodies(code.threads())
}
