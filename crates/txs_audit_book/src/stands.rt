//! Where each actor stands in a book.

ghost use Rattle.std.specs.Prelude.{OnOk};
ghost use Rattle.txs_world_book.specs.Stands.{Marked};

use std::alloc::AllocError;
use txs_world_book::journal;

/// The actor's last event is the last of so many, where it counts.
pub(crate) fn mark(
    stands: &mut Vec<u32>,
    actor: u16,
    events: u32,
    counts: bool,
) -> Result<(), AllocError>
    ensures { OnOk result (Marked counts actor events stands.old.items stands.new.items) }
{
    journal::make_room(stands, actor)?;
    journal::mark(stands, actor, events, counts);
    Ok(())
}
