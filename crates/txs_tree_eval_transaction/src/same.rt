//! Whether a transaction did what its commit says.

ghost use Rattle.std.specs.Prelude.{◌≡◌, ◌&&◌};
ghost use Rattle.txs_world_protocol.specs.Ask.{same_actions, same_writes};

use txs_value_cell::Action;
use txs_value_data::{CellId, Value};
use txs_world_protocol::{same_actions, same_writes};

/// Whether the last writes and sends of a transaction are those of its commit.
pub fn same_commit(
    last: &[(CellId, Value)],
    held: &[Action],
    writes: &[(CellId, Value)],
    sends: &[Action],
) -> bool
    ensures { result ≡ (same_writes last.now writes.now && same_actions held.now sends.now) }
{
    same_writes(last, writes) && same_actions(held, sends)
}
