//! The store with the log of what it was asked.

ghost use Rattle.std.specs.Prelude.{◌≡◌, ◌<◌, ◌^◌, ◌∷◌, [], length, true, false, None, IfSome};
ghost use mathlib.Core.List.{IsPrefix};
ghost use Rattle.txs_history.specs.History.{events_of, locks_in, HasOthers, IsWithin};
ghost use Rattle.txs_history.specs.declared.log.Entry.TheVariants as entry;
ghost use Rattle.txs_theorem_runs.specs.Shared.{store_of, untouched};
ghost use Rattle.txs_history.specs.Asked.{asked_by, shared_by};
ghost use Rattle.txs_world.specs.Store.{is_lawful};
ghost use Rattle.txs_history.specs.Logged.{locks_of, MayNot, StoreServed, WasServed};

use crate::run::Run;
use crate::serve::{MOST_ASKS, Served, count, note};
use crate::{Asked, Log, Past, StandsFor};
use std::marker::Model;
use txs_world::Store;
use txs_world_protocol::{Ask, Event};

/// The store of a run, and the log of what it was asked, which are under one lock. Unless it is broken the store is what it is after
/// the history that the log has seen. Contracts see the store, the log, and whether it is broken.
#[derive(Drop)]
pub struct LoggedStore<J: Run> {
    store: Store,
    log: Log<Asked, J>,
    broken: bool,
}

impl<J: Run> Model for LoggedStore<J> {
    ghost use Rattle.txs_history.specs.Logged.{PlainLoggedStore, IsLoggedStore};
    ghost use Rattle.std.specs.Coded.{codes};
    ghost use Rattle.txs_value_data.specs.contracts.value.Value as value;

    ghost Value = { PlainLoggedStore };

    ghost coded = { Prim.hlevel (codes, value.the_row.coded) };

    ghost view = { λ s. record { store = s.store; log = s.log; broken = s.broken } };

    ghost invariant = { λ s. IsLoggedStore J.code s.store s.log s.broken };
}

/// Serves an ask from the store, if the actor may ask it there. An ask that names an atom isn't asked of the store. Else, and only
/// then, it is refused, and all is as it was.
#[inline(always)]
fn serve_store(store: &mut Store, actor: u16, ask: Ask) -> Option<Served>
    ensures served { IfSome result (λ v. StoreServed store.old actor ask v store.new) }
    ensures refused { result ≡ None → (store.new ≡ store.old) × (is_lawful store.old actor ask ≡ false) }
{
    if !store.lawful(actor, &ask) {
        drop(ask);
        return None;
    }
    let at = count(store.events());
    let reply = store.serve(actor, ask);
    let added = (at as usize) < store.events().len();
    Some(Served { reply, at, added })
}

impl<J: Run> LoggedStore<J> {
    /// The store of a run as it opens, with the log of lock 0.
    pub fn new(store: Store, log: Log<Asked, J>) -> LoggedStore<J>
        requires store { store ≡ store_of J.code.cells (length J.code.threads) (untouched J.code.cells) }
        requires key { log.key ≡ 0 }
        requires log { log.log ≡ entry.Locks (locks_of J.code.cells) ∷ [] }
        ensures store { result.store ≡ store }
        ensures log { result.log ≡ log }
        ensures works { result.broken ≡ false }
    {
        LoggedStore {
            store,
            log,
            broken: false,
        }
    }

    /// Serves the ask that an actor waits with, which `about` says, too, behind all that its past has seen, which then has seen it. An ask for
    /// which there was no memory isn't served, and not in the history.
    ///
    /// None where the actor may not ask this of the store, or behind 2^62 asks; then all is as it was. None, too, where the history has
    /// asks of the store that weren't served here, which no code adds. Then it is broken, and serves no more, and the past has seen those.
    #[inline(always)]
    pub fn serve<X, M: StandsFor<X, Asked>>(
        &mut self,
        past: &mut Past<Asked, J>,
        about: &X,
        actor: u16,
        ask: Ask,
    ) -> Option<Served>
        requires about { M.event about.now ≡ asked_by actor ask }
        ensures served { IfSome result (λ v. WasServed J.code.cells (length J.code.threads) 0 actor ask past.old past.new v) }
        ensures refused { result ≡ None → self.new.broken ≡ false → (self.new ≡ self.old) × (past.new ≡ past.old) × MayNot J.code.cells (length J.code.threads) 0 actor ask self.old.log.log }
        ensures broken { self.old.broken ≡ true → (result ≡ None) × (self.new ≡ self.old) × (past.new ≡ past.old) }
        ensures breaks { self.new.broken ≡ true → self.old.broken ≡ false → (result ≡ None) × (self.new.log ≡ self.old.log) × HasOthers 0 self.old.log.log past.old past.new }
    {
        if self.broken || self.log.len() >= MOST_ASKS {
            drop(ask);
            return None;
        }
        let served = serve_store(&mut self.store, actor, ask)?;
        if note::<X, M, J>(&mut self.log, past, about, &served.reply) {
            return Some(served);
        }
        drop(served);
        self.broken = true;
        None
    }

    /// A past then has seen what the store was asked.
    pub fn show(&self, past: &mut Past<Asked, J>)
        ensures own { IsPrefix past.old past.new }
        ensures log { IsPrefix self.now.log.log past.new }
        ensures locks { locks_in past.new ≡ locks_of J.code.cells }
        ensures within { IsWithin (locks_of J.code.cells) past.new }
    {
        past.learn(&self.log);
    }

    /// How many asks it has, if the past, which has seen them, has no others under its lock, and it isn't broken. Then it is the store
    /// after all that the past has seen.
    ///
    /// None where it is broken, or where the history has others, which the past then has seen.
    pub fn whole(&self, past: &mut Past<Asked, J>) -> Option<u64>
        requires seen { IsPrefix self.now.log.log past.old }
        ensures seen { IfSome result (λ n. past.new ≡ past.old) }
        ensures all { IfSome result (λ n. events_of 0 past.old ≡ events_of 0 self.now.log.log) }
        ensures count { IfSome result (λ n. n ≡ length (events_of 0 past.old)) }
        ensures store { IfSome result (λ n. self.now.store ≡ store_of J.code.cells (length J.code.threads) (shared_by J.code.cells past.old)) }
        ensures lacks { result ≡ None → self.now.broken ≡ false → HasOthers 0 self.now.log.log past.old past.new }
    {
        if self.broken || !self.log.is_whole(past) {
            return None;
        }
        Some(self.log.len())
    }

    /// The store.
    pub fn store(&self) -> &Store
        ensures { result.now ≡ self.now.store }
    {
        &self.store
    }

    /// The events of its book.
    pub fn events(&self) -> &[Event]
        ensures { result.now ≡ self.now.store.book }
    {
        self.store.events()
    }

    /// The store alone.
    pub fn into_store(self) -> Store
        ensures { result ≡ self.store }
    {
        let LoggedStore {
            store,
            log,
            broken: _,
        } = self;
        drop(log);
        store
    }
}
