//! An atom's book gone through once.

ghost use Rattle.std.specs.Prelude.{◌≡◌, ◌≤◌, ◌<◌, ◌++◌, ◌∷◌, [], ℕ, length, slice_index, true, IfOk, OnOk};
ghost use Rattle.txs_tree_eval_transaction.specs.Pasts.{latest};
ghost use Rattle.txs_value_data.specs.Limits.{most_events};
ghost use Rattle.txs_world_book.specs.Book.{may_name};
ghost use Rattle.txs_world_book.specs.Stands.{StandsAt};
ghost use Rattle.txs_theorem_audit.specs.Verdict.{is_legal_swap};
ghost use Rattle.txs_audit_book.specs.Swapped.{GoneSwaps, WentAtom, atom_test, swaps_put};

use crate::replay::Gone;
use crate::stands::mark;
use std::alloc::{AllocError, Global};
use txs_tree_eval_transaction::History;
use txs_value_data::{CellId, copy_value};
use txs_world_book::stand_of;
use txs_world_protocol::{Event, EventKind, same_cell};

/// A book has no more events.
const MOST_EVENTS: usize = 1_000_000;

/// The values that an atom was swapped to, and where each actor stands in its book.
#[derive(Drop)]
pub(crate) struct Swaps {
    pub(crate) swaps: History,
    pub(crate) views: Vec<u32>,
}

/// Whether the actor may have done this behind these events of the atom's book.
fn is_legal_swap(views: &[u32], cell: CellId, done: &[Event], actor: u16, kind: &EventKind) -> bool
    requires { (a : ℕ) → StandsAt true done.now a (slice_index views.now a) }
    ensures { result ≡ is_legal_swap cell done.now actor kind.now }
{
    match kind {
        EventKind::Read { cell: named } => same_cell(*named, cell),
        EventKind::Swap { .. } => true,
        EventKind::Broke { at } => {
            let stand = stand_of(views, actor);
            *at as usize <= done.len() && stand <= *at
        }
        _ => false,
    }
}

/// Whether this event may stand behind these in the atom's book.
fn is_legal(views: &[u32], cell: CellId, actors: usize, done: &[Event], event: &Event) -> bool
    requires { (a : ℕ) → StandsAt true done.now a (slice_index views.now a) }
    ensures { result ≡ atom_test cell actors done.now event.now }
{
    usize::from(event.actor) < actors && is_legal_swap(views, cell, done, event.actor, &event.kind)
}

/// What an event, which is the last of so many, makes of the swaps.
fn put_swap(swaps: &mut History, kind: &EventKind, events: u32) -> Result<(), AllocError>
    requires { latest 0 swaps.old ≤ events }
    ensures { OnOk result (swaps.new ≡ swaps_put events kind.now swaps.old) }
{
    match kind {
        EventKind::Swap { new } => {
            let value = copy_value(new)?;
            swaps.add(events, value)
        }
        _ => Ok(()),
    }
}

/// Goes through an event of an atom's book.
fn put(swaps: &mut Swaps, done: &[Event], event: &Event) -> Result<(), AllocError>
    requires few { length done.now < most_events }
    requires gone { GoneSwaps swaps.old.swaps swaps.old.views.items done.now }
    ensures { OnOk result (GoneSwaps swaps.new.swaps swaps.new.views.items (done.now ++ event.now ∷ [])) }
{
    let events = done.len() as u32 + 1;
    put_swap(&mut swaps.swaps, &event.kind, events)?;
    mark(&mut swaps.views, event.actor, events, true)
}

/// Goes through the book of an atom, where there are so many actors: the values that it was swapped to.
///
/// # Errors
/// `AllocError` where there was no memory for them.
pub fn go_through_atom(
    alloc: Global,
    cell: CellId,
    actors: usize,
    book: &[Event],
) -> Result<Gone<History>, AllocError>
    ensures { IfOk result (λ g. WentAtom cell actors book.now g) }
{
    let mut swaps = Swaps {
        swaps: History::new(alloc),
        views: Vec::new(alloc),
    };
    for (i, event) in book.iter().enumerate() {
        let (done, _) = book.split_at(i);
        if i >= MOST_EVENTS {
            return Ok(Gone::UpTo(i));
        }
        if !is_legal(swaps.views.as_slice(), cell, actors, done, event) {
            return Ok(Gone::UpTo(i));
        }
        put(&mut swaps, done, event)?;
    }
    let Swaps { swaps, views } = swaps;
    drop(views);
    Ok(Gone::Through(swaps))
}
