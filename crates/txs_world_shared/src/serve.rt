//! What the state that actors share answers.

ghost use Rattle.std.specs.Prelude.{◌≡◌, true};
ghost use Rattle.txs_theorem_runs.specs.Shared.{has_atom};
ghost use Rattle.txs_world_shared.specs.SharedState.{is_lawful, answer_to, Answers};

use crate::atoms::{atom_named, names_place, serve_at};
use crate::state::SharedState;
use txs_value_data::{CellId, CellKind};
use txs_world::law::serve_keeps;
use txs_world_protocol::{Ask, Reply};

impl SharedState {
    /// Whether the actor may ask this: it makes such asks, there is what it names, and it may name the places.
    pub fn lawful(&self, actor: u16, ask: &Ask) -> bool
        ensures { result ≡ is_lawful self.now actor ask.now }
    {
        match atom_named(ask) {
            Some(cell) => {
                usize::from(actor) < self.store.actors()
                    && self.has_atom(cell)
                    && names_place(self.atom(cell), actor, ask)
            }
            None => self.store.lawful(actor, ask),
        }
    }

    /// Whether there is this cell, and it is an atom.
    fn has_atom(&self, cell: CellId) -> bool
        ensures { result ≡ has_atom self.now.cells cell }
    {
        let number = usize::from(cell.number);
        cell.kind == CellKind::Atom
            && number < self.cells.len()
            && self.cells[number].kind == cell.kind
    }

    /// Answers an ask of an actor from the book that it is for, as a whole; no other book changes. The reply is `Full` exactly
    /// where that book has as many events as it may have and the answer would add one, and `Memory` where there was no memory for
    /// the event, for what is handed out or for what is put into mailboxes, or where a value can have no more owners: never to
    /// begin a transaction, and never where an atom has changed. After both the state is as before.
    #[inline(always)]
    pub fn serve(&mut self, actor: u16, ask: Ask) -> Reply
        requires { is_lawful self.old actor ask ≡ true }
        ensures { Answers self.old ask (answer_to self.old actor ask) result self.new }
    {
        // Laws that the proof uses; they do nothing when they run.
        serve_keeps();
        match atom_named(&ask) {
            Some(cell) => {
                let place = self.place(cell.number);
                serve_at(&mut self.atoms, place, actor, ask)
            }
            None => self.store.serve(actor, ask),
        }
    }
}
