//! The values that the store's cells have had.

ghost use Rattle.std.specs.Prelude.{◌≡◌, ◌≤◌, ◌<◌, ◌∷◌, [], length, map, true, IfOk, OnOk};
ghost use Rattle.std.proofs.Common.{get_or};
ghost use Rattle.txs_world_book.specs.Book.{state_of, writes_of};
ghost use Rattle.txs_world_book.specs.declared.cell.StoreCell.{StoreCell as PlainCell};
ghost use Rattle.txs_tree_eval_transaction.specs.Pasts.{entry_at, latest};
ghost use Rattle.txs_audit_book.specs.Gone.{index_in};
ghost use Rattle.txs_audit_book.specs.Moves.{with_value, written_all, all_below, AllWithin, HistoriesMove};

use std::alloc::{AllocError, Global};
use txs_tree_eval_transaction::History;
use txs_value_data::{CellId, Fault, Value, copy_value};
use txs_world_book::StoreCell;
use txs_world_protocol::EventKind;

/// Of a cell the value that it opened with.
fn open_history(alloc: Global, opening: &Value) -> Result<History, AllocError>
    ensures { IfOk result (λ h. h ≡ (0, opening.now) ∷ []) }
{
    let mut history = History::new(alloc);
    let value = copy_value(opening)?;
    history.add(0, value)?;
    Ok(history)
}

/// Of each cell the value that it opened with.
pub(crate) fn open_histories(alloc: Global, cells: &[StoreCell]) -> Result<Vec<History>, AllocError>
    ensures { IfOk result (λ hs. hs.items ≡ map (λ (c : PlainCell). (0, c.opening) ∷ []) cells.now) }
{
    let mut histories = Vec::with_capacity(alloc, cells.len())?;
    for cell in cells {
        let history = open_history(alloc, &cell.opening)?;
        histories.push_reserved(history);
    }
    Ok(histories)
}

/// The cell got this value at an event that is the last of so many.
fn write(
    histories: &mut Vec<History>,
    cell: CellId,
    value: &Value,
    events: u32,
) -> Result<(), AllocError>
    requires there { cell.number < length histories.old.items }
    requires within { latest 0 (get_or histories.old.items cell.number []) ≤ events }
    ensures { OnOk result (histories.new.items ≡ with_value histories.old.items cell.number events value.now) }
{
    let value = copy_value(value)?;
    let place = usize::from(cell.number);
    let history = &mut histories[place];
    history.add(events, value)
}

/// These cells got these values.
fn write_all(
    histories: &mut Vec<History>,
    writes: &[(CellId, Value)],
    events: u32,
) -> Result<(), AllocError>
    requires there { all_below (length histories.old.items) writes.now ≡ true }
    requires within { AllWithin events histories.old.items }
    ensures { OnOk result (histories.new.items ≡ written_all events histories.old.items writes.now) }
{
    for item in writes {
        write(histories, item.0, &item.1, events)?;
    }
    Ok(())
}

/// An agent's action came to this, which is its new state where it didn't fault.
fn put_state(
    histories: &mut Vec<History>,
    agent: CellId,
    new: &Result<Value, Fault>,
    events: u32,
) -> Result<(), AllocError>
    requires there { all_below (length histories.old.items) (state_of agent new.now) ≡ true }
    requires within { AllWithin events histories.old.items }
    ensures { OnOk result (histories.new.items ≡ written_all events histories.old.items (state_of agent new.now)) }
{
    match new {
        Ok(value) => write(histories, agent, value, events),
        Err(_) => Ok(()),
    }
}

/// What an event, which is the last of so many, makes of the values.
pub(crate) fn put_values(
    histories: &mut Vec<History>,
    kind: &EventKind,
    events: u32,
) -> Result<(), AllocError>
    requires there { all_below (length histories.old.items) (writes_of kind.now) ≡ true }
    requires within { AllWithin events histories.old.items }
    ensures { OnOk result (histories.new.items ≡ written_all events histories.old.items (writes_of kind.now)) }
{
    match kind {
        EventKind::Commit { writes, .. } => write_all(histories, writes.as_slice(), events),
        EventKind::Act { agent, new, .. } => put_state(histories, *agent, new, events),
        _ => Ok(()),
    }
}

/// The index from which on a cell has its value at this one.
pub(crate) fn index_in(history: &History, place: u32) -> u32
    ensures { result ≡ index_in (entry_at history.now place) }
{
    match history.at(place) {
        Some(item) => item.0,
        None => 0,
    }
}
