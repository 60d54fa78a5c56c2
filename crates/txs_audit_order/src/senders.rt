//! Which events sent the actions of each agent.

ghost use Rattle.std.specs.Prelude.{◌≡◌, ◌∷◌, [], IfOk, OnOk};
ghost use Rattle.txs_theorem_serial.specs.Order.{sent_by};
ghost use Rattle.txs_audit_order.specs.Sent.{AreSenders, with_sender, with_sent};

use crate::rows::{Row, empty_rows};
use std::alloc::{AllocError, Global};
use txs_value_cell::Action;
use txs_world_protocol::{Event, EventKind};

/// The event at this index sent an action to the agent of the cell with this number, if there is such a cell.
fn add_sender(rows: &mut Vec<Row<usize>>, number: usize, index: usize) -> Result<(), AllocError>
    ensures { OnOk result (rows.new.items ≡ with_sender rows.old.items number index) }
{
    if number >= rows.len() {
        return Ok(());
    }
    let row = &mut rows[number];
    row.add(index)
}

/// The event at this index sent these actions.
fn add_all(rows: &mut Vec<Row<usize>>, actions: &[Action], index: usize) -> Result<(), AllocError>
    ensures { OnOk result (rows.new.items ≡ with_sent rows.old.items index actions.now) }
{
    for action in actions {
        add_sender(rows, usize::from(action.agent.number), index)?;
    }
    Ok(())
}

/// The event at this index sends what its kind says.
fn add_event(rows: &mut Vec<Row<usize>>, kind: &EventKind, index: usize) -> Result<(), AllocError>
    ensures { OnOk result (rows.new.items ≡ with_sent rows.old.items index (sent_by kind.now)) }
{
    match kind {
        EventKind::Commit { sends, .. } => add_all(rows, sends.as_slice(), index),
        EventKind::Act { sends, .. } => add_all(rows, sends.as_slice(), index),
        EventKind::Send { action } => add_sender(rows, usize::from(action.agent.number), index),
        _ => Ok(()),
    }
}

/// Of each of so many cells the indexes of the events that sent it its actions, in order.
pub(crate) fn all_senders(
    alloc: Global,
    cells: usize,
    book: &[Event],
) -> Result<Vec<Row<usize>>, AllocError>
    ensures { IfOk result (λ rows. AreSenders cells book.now rows.items) }
{
    let mut rows = empty_rows(alloc, cells)?;
    for (i, event) in book.iter().enumerate() {
        add_event(&mut rows, &event.kind, i)?;
    }
    Ok(rows)
}
