//! What the books of a report leave: the values of cells, and the faults of agents.

ghost use Rattle.std.specs.Prelude.{◌≡◌, ◌≤◌, ◌<◌, ◌||◌, ℕ, length, Some};
ghost use Rattle.txs_value_data.specs.Places.{nth};
ghost use Rattle.txs_value_cell.specs.Forms.{same_kind};
ghost use Rattle.txs_value_data.specs.Limits.{most_definitions};
ghost use Rattle.txs_value_data.specs.declared.value.CellId.{CellId as ACell};
ghost use Rattle.txs_value_data.specs.declared.value.CellKind.TheVariants.{Atom};
ghost use Rattle.txs_world_book.specs.Book.{value_or};
ghost use Rattle.txs_world_protocol.specs.Ask.{same_value};
ghost use Rattle.txs_world_book.specs.Served.{cells_of};
ghost use Rattle.txs_tree_eval_transaction.specs.Views.{held};
ghost use Rattle.txs_theorem_audit.specs.Audited.{PlainReport};
ghost use Rattle.txs_theorem_audit.specs.Verdict.{has_failed, has_values, same_failure};
ghost use Rattle.txs_audit_book.specs.Replayed.{newest_there};
ghost use Rattle.txs_audit_book.specs.Leaving.{same_newest};

use crate::ends::same_fault;
use crate::replay::Replay;
use txs_tree_eval::History;
use txs_value_cell::CellDefinition;
use txs_value_data::{CellId, CellKind, Fault, Value};
use txs_world_protocol::same_value;

/// Whether two faults that there may be are the same.
fn same_failure(a: Option<Fault>, b: Option<Fault>) -> bool
    ensures { result ≡ same_failure a b }
{
    match a {
        Some(a) => match b {
            Some(b) => same_fault(a, b),
            None => false,
        },
        None => b.is_none(),
    }
}

/// Whether the newest value of the cell with this number is this one.
fn is_newest(replay: &Replay<'_>, number: u16, value: &Value) -> bool
    ensures { result ≡ same_newest (newest_there replay.now number) value.now }
{
    match replay.newest(number) {
        Some(newest) => same_value(newest, value),
        None => false,
    }
}

/// Whether the cell with this number has this value behind the store's book. An atom has its own book.
fn has_value(kind: CellKind, replay: &Replay<'_>, number: u16, value: &Value) -> bool
    ensures { result ≡ (same_kind kind Atom || same_newest (newest_there replay.now number) value.now) }
{
    if kind == CellKind::Atom {
        return true;
    }
    is_newest(replay, number, value)
}

/// Whether the values of refs and agents are those behind the store's book.
pub fn has_values(cells: &[CellDefinition], replay: &Replay<'_>, values: &[Value]) -> bool
    requires few { length cells.now ≤ most_definitions }
    requires same { replay.now.cells ≡ cells_of cells.now }
    requires many { length values.now ≡ length cells.now }
    ensures { (r : PlainReport) → r.book ≡ replay.now.book → result ≡ has_values cells.now r 0 cells.now values.now }
{
    for (i, cell) in cells.iter().enumerate() {
        if !has_value(cell.kind, replay, i as u16, &values[i]) {
            return false;
        }
    }
    true
}

/// Whether these agents have failed so.
pub fn has_failed(replay: &Replay<'_>, agents: &[CellId], failed: &[Option<Fault>]) -> bool
    requires there { (i : ℕ) (g : ACell) → nth agents.now i ≡ Some g → g.number < length replay.now.cells }
    requires many { length failed.now ≡ length agents.now }
    ensures { result ≡ has_failed replay.now.cells replay.now.book agents.now failed.now }
{
    for (i, agent) in agents.iter().enumerate() {
        if !same_failure(replay.failure(agent.number), failed[i]) {
            return false;
        }
    }
    true
}

/// The value of an atom behind so many events of its book.
fn value_behind<'b>(swaps: &'b History, events: u32, opening: &'b Value) -> &'b Value
    ensures { result.now ≡ value_or (held swaps.now events) opening.now }
{
    match swaps.at(events) {
        Some(item) => &item.1,
        None => opening,
    }
}

/// Whether an atom that opens with this value has this one behind so many events of its book.
pub fn has_swapped(swaps: &History, events: u32, opening: &Value, value: &Value) -> bool
    ensures { result ≡ same_value (value_or (held swaps.now events) opening.now) value.now }
{
    same_value(value_behind(swaps, events, opening), value)
}
