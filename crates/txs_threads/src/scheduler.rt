//! What lies under the lock of the store.

ghost use Rattle.std.proofs.Common.{get_or};
ghost use Rattle.std.specs.Prelude.{◌≡◌, ◌<◌, ◌≤◌, ◌+◌, ◌-◌, ◌++◌, ◌∷◌, [], length, vec_capacity, OnOk};

use crate::runnable::{AsksStore, Journal, Runnable};
use std::alloc::{AllocError, Global};
use std::mem;
use txs_gate::Made;
use txs_history_run::AfterAsk;
use txs_value_data::CellId;
use txs_world_protocol::{Event, EventKind};

/// The actors that no worker runs.
#[derive(Drop)]
pub struct Actors<P> {
    /// Those that wait to be handed to a worker, the next one last: at first those of the threads, and then agents that were woken.
    pub ready: Vec<P>,
    /// Agents for which nothing waits, each at the number of its cell.
    pub parked: Vec<Option<P>>,
    /// Those that are turned no more. There is room for all actors.
    pub down: Vec<P>,
    /// How many of all actors are neither parked nor down.
    pub live: usize,
}

/// The agent whose actor has this number: those of agents come behind those of so many threads.
pub(crate) fn agent_at(agents: &[CellId], threads: u16, number: u16) -> CellId
    requires behind { threads ≤ number }
    requires there { number < threads + length agents.now }
    ensures { result ≡ get_or agents.now (number - threads) result }
{
    agents[usize::from(number - threads)]
}

impl<P: Runnable> Actors<P> {
    /// Makes room for so many actors, all of them live, and places for those of the agents among so many cells.
    pub fn make_room(&mut self, actors: usize, cells: usize) -> Result<(), AllocError>
        ensures live { OnOk result (self.new.live ≡ actors) }
        ensures kept { (self.new.ready.items ≡ self.old.ready.items) × (self.new.down.items ≡ self.old.down.items) }
    {
        self.ready.reserve(actors)?;
        self.down.reserve(actors)?;
        self.parked.reserve(cells)?;
        for _ in 0..cells {
            let _ = self.parked.push(None);
        }
        self.live = actors;
        Ok(())
    }

    /// Adds an actor before its first turn, with its number, where there is room for it: a thread's is ready, and the next one, and an agent's is parked.
    pub fn add(&mut self, agents: &[CellId], threads: u16, number: u16, actor: P)
        requires { number < threads + length agents.now }
        ensures thread { number < threads → length self.old.ready.items < vec_capacity self.old.ready → self.new.ready.items ≡ self.old.ready.items ++ actor ∷ [] }
        ensures agent { threads ≤ number → self.new.ready.items ≡ self.old.ready.items }
    {
        if number < threads {
            let _ = self.ready.push(actor);
            return;
        }
        self.rest(Some(agent_at(agents, threads, number)), actor);
    }

    /// An actor that no worker turns any more is parked, at the place of this agent, or else put down: whether it was the last that was live.
    fn rest(&mut self, agent: Option<CellId>, actor: P) -> bool
        ensures { self.new.ready.items ≡ self.old.ready.items }
    {
        let place = match agent {
            Some(agent) => usize::from(agent.number),
            None => usize::MAX,
        };
        if place < self.parked.len() {
            drop(mem::replace(&mut self.parked[place], Some(actor)));
        } else {
            let _ = self.down.push(actor);
        }
        self.live = self.live.saturating_sub(1);
        self.live == 0
    }

    /// Wakes every agent's actor that is parked. Those that are down stay so, and each agent keeps its place.
    pub fn wake_all(&mut self)
        ensures down { self.new.down.items ≡ self.old.down.items }
        ensures places { length self.new.parked.items ≡ length self.old.parked.items }
    {
        for cell in 0..self.parked.len() {
            self.wake(cell);
        }
    }

    /// Wakes the actor of the agent that this cell is, if it is parked: whether it was.
    fn wake(&mut self, cell: usize) -> bool
        ensures down { self.new.down.items ≡ self.old.down.items }
        ensures places { length self.new.parked.items ≡ length self.old.parked.items }
    {
        if cell >= self.parked.len() {
            return false;
        }
        let Some(actor) = self.parked[cell].take() else {
            return false;
        };
        self.live = self.live.saturating_add(1);
        let _ = self.ready.push(actor);
        true
    }
}

/// What became of an ask, and whether agents were woken by it, which are ready.
#[derive(Clone, Copy)]
pub struct Step {
    pub asked: AfterAsk,
    pub woke: bool,
}

/// What lies under the lock: the store, and the actors that no worker runs.
#[derive(Drop)]
pub struct Scheduler<S, P> {
    pub store: S,
    pub actors: Actors<P>,
}

/// Wakes the agents to which the store's event at this place sent actions, if there is one: whether one was parked.
fn wake_by<P: Runnable>(actors: &mut Actors<P>, events: &[Event], at: usize) -> bool {
    if at >= events.len() {
        return false;
    }
    match &events[at].kind {
        EventKind::Send { action } => actors.wake(usize::from(action.agent.number)),
        EventKind::Commit { sends, .. } | EventKind::Act { sends, .. } => {
            let mut woke = false;
            for action in sends.as_slice() {
                woke |= actors.wake(usize::from(action.agent.number));
            }
            woke
        }
        _ => false,
    }
}

impl<S: Journal, P: AsksStore<S>> Scheduler<S, P> {
    /// What lies under the lock before there are actors.
    pub fn new(alloc: Global, store: S) -> Scheduler<S, P>
        ensures store { result.store ≡ store }
        ensures none { (result.actors.ready.items ≡ []) × (result.actors.parked.items ≡ []) × (result.actors.down.items ≡ []) × (result.actors.live ≡ 0) }
    {
        Scheduler {
            store,
            actors: Actors {
                ready: Vec::new(alloc),
                parked: Vec::new(alloc),
                down: Vec::new(alloc),
                live: 0,
            },
        }
    }

    /// Serves an actor's ask from the store, and wakes the agents to which it sent actions, in one step.
    #[inline(always)]
    pub fn serve(&mut self, actor: &mut P) -> Step {
        let before = self.store.events().len();
        let asked = actor.ask_store(&mut self.store);
        if let AfterAsk::Took(Made { added: false, .. }, _) = asked {
            return Step { asked, woke: false };
        }
        let woke = wake_by(&mut self.actors, self.store.events(), before);
        Step { asked, woke }
    }

    /// The next actor that is ready. The store stays as it is.
    pub fn next(&mut self) -> Option<P>
        ensures { self.new.store ≡ self.old.store }
    {
        self.actors.ready.pop()
    }

    /// An actor is put down: whether it was the last that was live. The store stays as it is.
    pub fn put(&mut self, actor: P) -> bool
        ensures { self.new.store ≡ self.old.store }
    {
        self.actors.rest(None, actor)
    }

    /// The actor of this agent, which found nothing to do, is parked, and one of none is put down: whether it was the last that was live. The store stays
    /// as it is.
    ///
    /// # Errors
    /// The actor, where something waits for its agent by now.
    pub fn rest(&mut self, agent: Option<CellId>, actor: P) -> Result<bool, P>
        ensures { self.new.store ≡ self.old.store }
    {
        if let Some(agent) = agent {
            if self.store.has_mail(actor.number(), agent) {
                return Err(actor);
            }
        }
        Ok(self.actors.rest(agent, actor))
    }
}
