//! Whether a store and atoms, each with its book, are the parts of a state.

ghost use Rattle.std.specs.Prelude.{◌≡◌, ◌↔◌, map, IsTrue};
ghost use Rattle.txs_world_shared.specs.Apart.{MadeByActors, AllByActors, AreLegal};
ghost use Rattle.txs_world_shared.specs.Kept.{without_book};

use txs_value_data::same;
use txs_world_book::AtomBook;
use txs_world_protocol::Event;

/// Whether each of these events is of an actor, of which there are so many.
fn are_by_actors(actors: usize, events: &[Event]) -> bool
    ensures { IsTrue result ↔ MadeByActors actors events.now }
{
    for event in events {
        if usize::from(event.actor) >= actors {
            return false;
        }
    }
    true
}

/// Whether each event of these atoms is of an actor, of which there are so many.
pub(crate) fn all_by_actors(actors: usize, atoms: &[AtomBook]) -> bool
    ensures actors { IsTrue result ↔ AllByActors actors atoms.now }
    ensures legal { IsTrue result → AreLegal atoms.now }
{
    for atom in atoms {
        if !are_by_actors(actors, atom.events()) {
            return false;
        }
    }
    true
}

/// Whether two atoms are of the same cell, and opened with the same value.
fn opens_like(atom: &AtomBook, other: &AtomBook) -> bool
    ensures { IsTrue result ↔ (without_book atom.now ≡ without_book other.now) }
{
    atom.cell() == other.cell() && same(atom.opening(), other.opening())
}

/// Whether these are atoms of the same cells in the same order, opened with the same values.
pub(crate) fn open_like(atoms: &[AtomBook], others: &[AtomBook]) -> bool
    ensures { IsTrue result ↔ (map without_book atoms.now ≡ map without_book others.now) }
{
    if atoms.len() != others.len() {
        return false;
    }
    for i in 0..atoms.len() {
        if !opens_like(&atoms[i], &others[i]) {
            return false;
        }
    }
    true
}
