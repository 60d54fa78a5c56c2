//! Values of refs by ascending number, as a commit writes them.

ghost use Rattle.std.specs.Prelude.{◌≡◌, OnOk, IfOk, option_copied};
ghost use Rattle.txs_world_protocol.specs.Ask.{buffered, with_write};
ghost use Rattle.txs_tree_eval_transaction.specs.Worked.{Finds};
ghost use Rattle.txs_tree_meaning.specs.Transaction.{valued, merged};
ghost use Rattle.txs_tree_eval_transaction.specs.Views.{or_nil, plain_view, world_of};

use crate::view::RefView;
use std::alloc::{AllocError, Global};
use txs_value_data::{CellId, Value, copy_value};

/// The value of the ref with this number, nil where there is none.
pub fn value_in(writes: &[(CellId, Value)], number: u16) -> Result<Value, AllocError>
    ensures { IfOk result (λ v. v ≡ or_nil (buffered writes.now number)) }
{
    for write in writes {
        if write.0.number == number {
            return copy_value(&write.1);
        }
    }
    Ok(Value::Nil)
}

/// Where the ref with this number is, or where it would be.
fn find(writes: &[(CellId, Value)], number: u16) -> Result<usize, usize>
    ensures { Finds (λ w. w.0.number) writes.now number result }
{
    let mut place = 0;
    for write in writes {
        if write.0.number == number {
            return Ok(place);
        }
        if write.0.number > number {
            return Err(place);
        }
        place += 1;
    }
    Err(place)
}

/// A ref gets a value: in the place of its earlier one, else in order.
pub fn put_write(
    writes: &mut Vec<(CellId, Value)>,
    cell: CellId,
    value: Value,
) -> Result<(), AllocError>
    ensures { OnOk result (writes.new.items ≡ with_write writes.old.items cell value) }
{
    match find(writes.as_slice(), cell.number) {
        Ok(place) => writes[place] = (cell, value),
        Err(place) => writes.insert(place, (cell, value))?,
    }
    Ok(())
}

/// Cells with their values of a world.
pub fn valued(
    alloc: Global,
    cells: &[CellId],
    world: &RefView<'_>,
) -> Result<Vec<(CellId, Value)>, AllocError>
    ensures { IfOk result (λ ws. ws.items ≡ valued cells.now (world_of (plain_view world.now))) }
{
    let mut writes = Vec::with_capacity(alloc, cells.len())?;
    for cell in cells {
        writes.push((*cell, world.read(cell.number)?))?;
    }
    Ok(writes)
}

/// Two lists of values as one, ascending.
pub fn merge(
    writes: &mut Vec<(CellId, Value)>,
    others: &[(CellId, Value)],
) -> Result<(), AllocError>
    ensures { OnOk result (writes.new.items ≡ merged writes.old.items others.now) }
{
    for other in others {
        put_write(writes, other.0, copy_value(&other.1)?)?;
    }
    Ok(())
}
