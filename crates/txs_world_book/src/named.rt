//! Whether a store has the cells that an ask or an event names.

ghost use Rattle.std.specs.Prelude.{◌≡◌};
ghost use Rattle.txs_world_book.specs.Book.{has_cell, has_ref, has_refs, has_agent, has_readable, cells_in, are_refs, are_sends, is_empty, may_send};

use crate::cell::StoreCell;
use txs_value_cell::Action;
use txs_value_data::{CellId, CellKind, Fault, Value};

/// Whether there is a cell of this kind and number.
pub fn has_cell(cells: &[StoreCell], cell: CellId) -> bool
    ensures { result ≡ has_cell cells.now cell }
{
    let number = usize::from(cell.number);
    number < cells.len() && cells[number].kind == cell.kind
}

/// Whether there is this cell, and it is a ref.
pub fn has_ref(cells: &[StoreCell], cell: CellId) -> bool
    ensures { result ≡ has_ref cells.now cell }
{
    cell.kind == CellKind::Ref && has_cell(cells, cell)
}

/// Whether there is this cell, and it is an agent.
pub fn has_agent(cells: &[StoreCell], cell: CellId) -> bool
    ensures { result ≡ has_agent cells.now cell }
{
    cell.kind == CellKind::Agent && has_cell(cells, cell)
}

/// Whether there is this cell, and it is no atom, which has a book of its own.
pub fn has_readable(cells: &[StoreCell], cell: CellId) -> bool
    ensures { result ≡ has_readable cells.now cell }
{
    cell.kind != CellKind::Atom && has_cell(cells, cell)
}

/// Whether each of these is a ref of the store.
pub fn has_refs(cells: &[StoreCell], refs: &[CellId]) -> bool
    ensures { result ≡ has_refs cells.now refs.now }
{
    for cell in refs {
        if !has_ref(cells, *cell) {
            return false;
        }
    }
    true
}

/// Whether what is written are refs of the store, with ascending numbers.
pub fn are_written(cells: &[StoreCell], writes: &[(CellId, Value)]) -> bool
    ensures { result ≡ are_refs cells.now 0 (cells_in writes.now) }
{
    let mut least = 0u32;
    for write in writes {
        if !has_ref(cells, write.0) || u32::from(write.0.number) < least {
            return false;
        }
        least = u32::from(write.0.number) + 1;
    }
    true
}

/// Whether these actions are for agents of the store.
pub fn are_sends(cells: &[StoreCell], sends: &[Action]) -> bool
    ensures { result ≡ are_sends cells.now sends.now }
{
    for action in sends {
        if !has_agent(cells, action.agent) {
            return false;
        }
    }
    true
}

/// Whether these are no actions.
pub fn sends_nothing(sends: &[Action]) -> bool
    ensures { result ≡ is_empty sends.now }
{
    sends.is_empty()
}

/// Whether an action that came to this may send these: one that faults sends nothing.
pub fn may_send(new: &Result<Value, Fault>, sends: &[Action]) -> bool
    ensures { result ≡ may_send new.now sends.now }
{
    match new {
        Ok(_) => true,
        Err(_) => sends_nothing(sends),
    }
}
