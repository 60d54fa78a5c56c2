//! Which cells an event writes.

ghost use Rattle.std.specs.Prelude.{◌≡◌};
ghost use Rattle.txs_world_book.specs.Book.{is_buffered, writes_to};

use txs_value_data::{CellId, Value};
use txs_world_protocol::EventKind;

/// Whether the cell with this number is among these writes.
fn is_written_by(writes: &[(CellId, Value)], number: u16) -> bool
    ensures { result ≡ is_buffered writes.now number }
{
    for write in writes {
        if write.0.number == number {
            return true;
        }
    }
    false
}

/// Whether an event writes the cell with this number.
pub fn writes_to(kind: &EventKind, number: u16) -> bool
    ensures { result ≡ writes_to kind.now number }
{
    match kind {
        EventKind::Commit { writes, .. } => is_written_by(writes.as_slice(), number),
        EventKind::Act {
            agent,
            new: Ok(_),
            ..
        } => agent.number == number,
        _ => false,
    }
}
