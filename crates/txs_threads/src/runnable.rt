//! What workers know of an actor, and of what lies under the store's lock.

use txs_gate::{AskKind, kind_of};
use txs_history::{LoggedAtom, LoggedStore, Run};
use txs_history_run::{AfterAsk, LoggedActor, Next};
use txs_value_data::CellId;
use txs_world_protocol::{Ask, Event};
use txs_world_shared::atoms::atom_named;

/// What an actor waits with.
#[derive(Clone, Copy)]
pub struct Wanted {
    pub kind: AskKind,
    /// The atom that it names, if it is for an atom's lock.
    pub atom: Option<CellId>,
    /// The agent for which an action is to be taken, if that is what is asked.
    pub agent: Option<CellId>,
}

/// What an actor's turns came to.
#[derive(Clone, Copy)]
pub enum Ran {
    /// It goes on.
    Went,
    /// It waits with an ask.
    Asks(Wanted),
    /// It has ended, or makes no more turns.
    Ended,
}

/// An actor, as workers turn it and hand it on. They know nothing else of it, so that nothing of what they do is proved again for all that an actor holds.
pub trait Runnable: Drop {
    /// Its number among all actors.
    fn number(&self) -> u16;

    /// Up to so many turns: an ask or an end is the last.
    fn run(&mut self, budget: u64) -> Ran;
}

/// An actor that asks what lies under the store's lock.
pub trait AsksStore<S>: Runnable {
    /// Its ask is served, and it takes the answer: what became of the ask.
    fn ask_store(&mut self, store: &mut S) -> AfterAsk;
}

/// An actor that asks what lies under an atom's lock.
pub trait AsksAtom<A>: Runnable {
    /// Its ask is served, and it takes the answer: what became of the ask.
    fn ask_atom(&mut self, atom: &mut A) -> AfterAsk;
}

/// What lies under the store's lock, as workers look at it.
pub trait Journal: Drop {
    /// The events of the store's book.
    fn events(&self) -> &[Event];

    /// Whether an action waits for this agent, whose actor has this number.
    fn has_mail(&self, actor: u16, agent: CellId) -> bool;
}

/// The agent for which an action is to be taken, if that is what is asked.
fn taker(ask: &Ask) -> Option<CellId> {
    match ask {
        Ask::Take { agent } => Some(*agent),
        _ => None,
    }
}

/// What an ask wants.
fn wants_of(ask: &Ask) -> Wanted {
    Wanted {
        kind: kind_of(ask),
        atom: atom_named(ask),
        agent: taker(ask),
    }
}

impl<'a, J: Run> Runnable for LoggedActor<'a, J> {
    fn number(&self) -> u16 {
        LoggedActor::number(self)
    }

    #[inline(always)]
    fn run(&mut self, budget: u64) -> Ran {
        match LoggedActor::run(self, budget) {
            Next::Went => Ran::Went,
            Next::Asks => match self.asked() {
                Some(ask) => Ran::Asks(wants_of(ask)),
                None => Ran::Ended,
            },
            Next::Ended | Next::Waits => Ran::Ended,
        }
    }
}

impl<'a, J: Run> AsksStore<LoggedStore<J>> for LoggedActor<'a, J> {
    #[inline(always)]
    fn ask_store(&mut self, store: &mut LoggedStore<J>) -> AfterAsk {
        LoggedActor::ask_store(self, store)
    }
}

impl<'a, J: Run> AsksAtom<LoggedAtom<J>> for LoggedActor<'a, J> {
    fn ask_atom(&mut self, atom: &mut LoggedAtom<J>) -> AfterAsk {
        LoggedActor::ask_atom(self, atom)
    }
}

impl<J: Run> Journal for LoggedStore<J> {
    fn events(&self) -> &[Event] {
        LoggedStore::events(self)
    }

    #[tactic(auto, using(crate::proofs::Mail::taker_is_agent))]
    fn has_mail(&self, actor: u16, agent: CellId) -> bool {
        let store = self.store();
        let take = Ask::Take { agent };
        let lawful = store.lawful(actor, &take);
        drop(take);
        if !lawful {
            return false;
        }
        store.failure(agent).is_none() && store.waiting(agent) > 0
    }
}
