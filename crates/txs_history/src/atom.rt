//! An atom with the log of what it was asked.

ghost use Rattle.std.specs.Prelude.{◌≡◌, ◌<◌, ◌≤◌, ◌^◌, ◌∷◌, [], length, true, false, None, IfSome};
ghost use mathlib.Core.List.{IsPrefix};
ghost use Rattle.txs_world_protocol.specs.SeenEvent.{home};
ghost use Rattle.txs_world_book.specs.Book as book;
ghost use Rattle.txs_world_book.specs.Served.{cells_of};
ghost use Rattle.txs_history.specs.History.{events_of, locks_in, HasOthers, IsWithin};
ghost use Rattle.txs_history.specs.declared.log.Entry.TheVariants as entry;
ghost use Rattle.txs_theorem_runs.specs.Shared.{atom_of, has_atom};
ghost use Rattle.txs_history.specs.Asked.{asked_by, shared_by};
ghost use Rattle.txs_world_shared.specs.Apart.{may_ask_atom};
ghost use Rattle.txs_history.specs.Logged.{locks_of, MayNot, AtomServed, WasServed};

use crate::run::Run;
use crate::serve::{MOST_ASKS, Served, count, note};
use crate::{Asked, Log, Past, StandsFor};
use std::marker::Model;
use txs_world_book::AtomBook;
use txs_world_protocol::{Ask, Event};
use txs_world_shared::atoms::serve_alone;

/// An atom of a run, and the log of what it was asked, which are under one lock. Unless it is broken the atom is what it is after the
/// history that the log has seen. Contracts see the atom, the log, and whether it is broken.
#[derive(Drop)]
pub struct LoggedAtom<J: Run> {
    atom: AtomBook,
    /// How many actors there are.
    actors: usize,
    log: Log<Asked, J>,
    broken: bool,
}

impl<J: Run> Model for LoggedAtom<J> {
    ghost use Rattle.txs_history.specs.Logged.{PlainLoggedAtom, IsLoggedAtom};
    ghost use Rattle.std.specs.Coded.{codes};
    ghost use Rattle.txs_value_data.specs.contracts.value.Value as value;

    ghost Value = { PlainLoggedAtom };

    ghost coded = { Prim.hlevel (codes, value.the_row.coded) };

    ghost view = { λ s. record { atom = s.atom; log = s.log; broken = s.broken } };

    ghost invariant = { λ s. IsLoggedAtom J.code s.actors s.atom s.log s.broken };
}

/// Serves an ask from one atom, if the actor, which is one of so many, may ask it there. Else, and only then, it is refused, and all is as it
/// was.
fn serve_atom(atom: &mut AtomBook, actors: usize, actor: u16, ask: Ask) -> Option<Served>
    ensures served { IfSome result (λ v. AtomServed actors atom.old actor ask v atom.new) }
    ensures refused { result ≡ None → (atom.new ≡ atom.old) × (may_ask_atom actors actor ask atom.old ≡ false) }
{
    let at = count(atom.events());
    let reply = serve_alone(atom, actors, actor, ask)?;
    let added = (at as usize) < atom.events().len();
    Some(Served { reply, at, added })
}

/// A step of proofs, which does nothing when it runs: the number of a cell fits 16 bits.
fn fits(number: u16)
    ensures { number < 65536 }
{}

impl<J: Run> LoggedAtom<J> {
    /// An atom of a run as it opens, for so many actors, with the log of its lock.
    pub fn new(atom: AtomBook, actors: usize, log: Log<Asked, J>) -> LoggedAtom<J>
        requires there { has_atom J.code.cells atom.cell ≡ true }
        requires atom { atom ≡ atom_of J.code.cells atom.cell [] }
        requires actors { actors ≡ book.actors (length J.code.threads) (cells_of J.code.cells) }
        requires key { log.key ≡ home J.code.cells atom.cell }
        requires log { log.log ≡ entry.Locks (locks_of J.code.cells) ∷ [] }
        ensures atom { result.atom ≡ atom }
        ensures log { result.log ≡ log }
        ensures works { result.broken ≡ false }
    {
        LoggedAtom {
            atom,
            actors,
            log,
            broken: false,
        }
    }

    /// Serves the ask that an actor waits with, which `about` says, too, behind all that its past has seen, which then has seen it. An ask for
    /// which there was no memory isn't served, and not in the history.
    ///
    /// None where the actor may not ask this of the atom, or behind 2^62 asks; then all is as it was. None, too, where the history has
    /// asks of the atom that weren't served here, which no code adds. Then it is broken, and serves no more, and the past has seen those.
    pub fn serve<X, M: StandsFor<X, Asked>>(
        &mut self,
        past: &mut Past<Asked, J>,
        about: &X,
        actor: u16,
        ask: Ask,
    ) -> Option<Served>
        requires about { M.event about.now ≡ asked_by actor ask }
        ensures served { IfSome result (λ v. WasServed J.code.cells (length J.code.threads) (home J.code.cells self.old.atom.cell) actor ask past.old past.new v) }
        ensures cell { self.new.atom.cell ≡ self.old.atom.cell }
        ensures refused { result ≡ None → self.new.broken ≡ false → (self.new ≡ self.old) × (past.new ≡ past.old) × MayNot J.code.cells (length J.code.threads) (home J.code.cells self.old.atom.cell) actor ask self.old.log.log }
        ensures broken { self.old.broken ≡ true → (result ≡ None) × (self.new ≡ self.old) × (past.new ≡ past.old) }
        ensures breaks { self.new.broken ≡ true → self.old.broken ≡ false → (result ≡ None) × (self.new.log ≡ self.old.log) × HasOthers (home J.code.cells self.old.atom.cell) self.old.log.log past.old past.new }
    {
        if self.broken || self.log.len() >= MOST_ASKS {
            drop(ask);
            return None;
        }
        let served = serve_atom(&mut self.atom, self.actors, actor, ask)?;
        if note::<X, M, J>(&mut self.log, past, about, &served.reply) {
            return Some(served);
        }
        drop(served);
        self.broken = true;
        None
    }

    /// A past then has seen what the atom was asked.
    pub fn show(&self, past: &mut Past<Asked, J>)
        ensures own { IsPrefix past.old past.new }
        ensures log { IsPrefix self.now.log.log past.new }
        ensures locks { locks_in past.new ≡ locks_of J.code.cells }
        ensures within { IsWithin (locks_of J.code.cells) past.new }
    {
        past.learn(&self.log);
    }

    /// How many asks it has, if the past, which has seen them, has no others under its lock, and it isn't broken. Then it is the atom
    /// after all that the past has seen.
    ///
    /// None where it is broken, or where the history has others, which the past then has seen.
    pub fn whole(&self, past: &mut Past<Asked, J>) -> Option<u64>
        requires seen { IsPrefix self.now.log.log past.old }
        ensures seen { IfSome result (λ n. past.new ≡ past.old) }
        ensures all { IfSome result (λ n. events_of (home J.code.cells self.now.atom.cell) past.old ≡ events_of (home J.code.cells self.now.atom.cell) self.now.log.log) }
        ensures count { IfSome result (λ n. n ≡ length (events_of (home J.code.cells self.now.atom.cell) past.old)) }
        ensures atom { IfSome result (λ n. self.now.atom ≡ atom_of J.code.cells self.now.atom.cell ((shared_by J.code.cells past.old).books (home J.code.cells self.now.atom.cell))) }
        ensures lacks { result ≡ None → self.now.broken ≡ false → HasOthers (home J.code.cells self.now.atom.cell) self.now.log.log past.old past.new }
    {
        if self.broken || !self.log.is_whole(past) {
            return None;
        }
        Some(self.log.len())
    }

    /// The number of its lock, of at most 65,536.
    pub fn lock(&self) -> u64
        ensures number { result ≡ home J.code.cells self.now.atom.cell }
        ensures few { result ≤ 65536 }
    {
        // A step of the proof, which does nothing when it runs.
        fits(self.atom.cell().number);
        self.log.key()
    }

    /// The atom.
    pub fn atom(&self) -> &AtomBook
        ensures atom { result.now ≡ self.now.atom }
        ensures there { has_atom J.code.cells self.now.atom.cell ≡ true }
    {
        &self.atom
    }

    /// The events of its book.
    pub fn events(&self) -> &[Event]
        ensures { result.now ≡ self.now.atom.book }
    {
        self.atom.events()
    }

    /// The atom alone.
    pub fn into_atom(self) -> AtomBook
        ensures atom { result ≡ self.atom }
        ensures there { has_atom J.code.cells self.atom.cell ≡ true }
    {
        let LoggedAtom {
            atom,
            actors: _,
            log,
            broken: _,
        } = self;
        drop(log);
        atom
    }
}
