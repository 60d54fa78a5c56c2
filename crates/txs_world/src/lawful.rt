//! Which asks the store takes.

ghost use Rattle.std.specs.Prelude.{◌≡◌, ◌≤◌, ◌<◌, ◌==◌, ◌&&◌, ◌||◌, ◌↔◌, nat_lt, length, true, false, IsTrue};
ghost use Rattle.txs_world_protocol.specs.declared.ask.Ask.TheVariants as ask;
ghost use Rattle.txs_world_book.specs.Book.{has_cell, has_ref, has_agent, has_readable, are_refs, has_refs, are_sends, cells_in, actor_of, actors, all_before, may_name, may_end, may_send, is_empty};
ghost use Rattle.txs_world_book.specs.Stands.{StandsAt};
ghost use Rattle.txs_world.specs.Store.{is_lawful, may_ask, has_named, is_taken};

use crate::slot::are_apart;
use crate::store::Store;
use txs_value_cell::Action;
use txs_value_data::{CellId, Fault, Listed, Value};
use txs_world_book::{
    are_sends, are_written, has_agent, has_readable, has_ref, has_refs, may_send, stand_of,
};
use txs_world_protocol::Ask;

impl Store {
    /// Whether the actor may ask this of the store: it makes such asks, and the store has what it names.
    #[inline(always)]
    pub fn lawful(&self, actor: u16, ask: &Ask) -> bool
        ensures { result ≡ is_lawful self.now actor ask.now }
    {
        self.may_ask(actor, ask) && self.has_named(actor, ask)
    }

    /// Whether the actor makes such asks: a thread all but to take and to finish actions; an agent's actor these of its agent, and
    /// all others but to send, where its commits send nothing.
    #[inline(always)]
    fn may_ask(&self, actor: u16, ask: &Ask) -> bool
        ensures { result ≡ may_ask self.now.cells self.now.threads actor ask.now }
    {
        match ask {
            Ask::Take { agent } => self.is_actor_of(actor, *agent),
            Ask::Finish { agent, .. } => self.is_actor_of(actor, *agent),
            Ask::Send { .. } => actor < self.threads,
            Ask::Commit { sends, .. } => self.may_commit(actor, sends),
            _ => self.is_actor(actor),
        }
    }

    /// Whether there is such an actor: a thread, or an agent's.
    fn is_actor(&self, actor: u16) -> bool
        ensures { result ≡ nat_lt actor (actors self.now.threads self.now.cells) }
    {
        usize::from(actor) < self.actors()
    }

    /// Whether the actor makes commits with these sends: an agent's actor makes those alone that send nothing.
    fn may_commit(&self, actor: u16, sends: &Listed<Action>) -> bool
        ensures { result ≡ (nat_lt actor self.now.threads || (is_empty sends.now && nat_lt actor (actors self.now.threads self.now.cells))) }
    {
        self.cells.may_commit(self.threads, actor, sends.as_slice())
    }

    /// Whether the store has what an actor names: the cells, each of the kind that is wanted; what is written ascends, and no ref
    /// is both set and commuted; each place is at most the number of events, with all that the actor did before it (but for
    /// commute phases made again, where it is a read point), and a read point is at most its view; an agent takes an action where
    /// it has taken none, and finishes one that it has taken, which sends to agents, and nothing where it faults. An atom's book
    /// takes what names an atom.
    #[inline(always)]
    fn has_named(&self, actor: u16, ask: &Ask) -> bool
        ensures { result ≡ has_named self.now actor ask.now }
    {
        let all = self.cells.as_slice();
        match ask {
            Ask::Begin => true,
            Ask::Look { cell, at } => has_ref(all, *cell) && self.may_try(actor, *at),
            Ask::View { cells } => has_refs(all, cells.as_slice()),
            Ask::Commit {
                at,
                sets,
                ensured,
                view,
                commuted,
                sends,
            } => self.has_commit(actor, *at, sets, ensured, *view, commuted, sends),
            Ask::Fail { at, view } => self.may_end(actor, *at, *view),
            Ask::Peek { cell } => has_readable(all, *cell),
            Ask::Send { action } => has_agent(all, action.agent),
            Ask::Take { agent } => has_agent(all, *agent) && !self.is_taken(*agent),
            Ask::Finish { agent, new, sends } => self.has_end(*agent, new, sends),
            Ask::OpenAt { .. } | Ask::CloseAt { .. } | Ask::Broke { .. } => false,
        }
    }

    /// Whether the store has what a commit names.
    fn has_commit(
        &self,
        actor: u16,
        at: u32,
        sets: &Listed<(CellId, Value)>,
        ensured: &Listed<CellId>,
        view: u32,
        commuted: &Listed<(CellId, Value)>,
        sends: &Listed<Action>,
    ) -> bool
        ensures { result ≡ has_named self.now actor (ask.Commit at sets.now ensured.now view commuted.now sends.now) }
    {
        let cells = self.cells.as_slice();
        let (sets, commuted) = (sets.as_slice(), commuted.as_slice());
        if !are_written(cells, sets) {
            return false;
        }
        if !has_refs(cells, ensured.as_slice()) {
            return false;
        }
        if !are_written(cells, commuted) {
            return false;
        }
        are_apart(commuted, sets)
            && are_sends(cells, sends.as_slice())
            && self.may_end(actor, at, view)
    }

    /// Whether the store has what the end of an action names, and the action may send this.
    fn has_end(&self, agent: CellId, new: &Result<Value, Fault>, sends: &Listed<Action>) -> bool
        ensures { result ≡ (has_agent self.now.cells agent && (is_taken self.now.taken agent && (may_send new.now sends.now && are_sends self.now.cells sends.now))) }
    {
        let cells = self.cells.as_slice();
        if !has_agent(cells, agent) {
            return false;
        }
        if !self.is_taken(agent) {
            return false;
        }
        may_send(new, sends.as_slice()) && are_sends(cells, sends.as_slice())
    }

    /// Whether this is the agent's actor.
    #[tactic(auto, using(txs_world_book::proofs::Counting::agents_few))]
    fn is_actor_of(&self, actor: u16, agent: CellId) -> bool
        ensures { result ≡ (actor == actor_of self.now.threads self.now.cells agent) }
    {
        let agents = self.cells.agents_below(agent.number);
        usize::from(actor) == usize::from(self.threads) + agents
    }

    /// Whether the agent's first action is taken.
    fn is_taken(&self, agent: CellId) -> bool
        ensures { result ≡ is_taken self.now.taken agent }
    {
        let number = usize::from(agent.number);
        number < self.inboxes.len() && self.inboxes[number].mailbox.is_taken()
    }

    /// Whether the actor may end a transaction with this read point and this view.
    fn may_end(&self, actor: u16, at: u32, view: u32) -> bool
        ensures { result ≡ may_end self.now.book actor at view }
    {
        at <= view && self.may_try(actor, at) && self.may_view(actor, view)
    }

    /// Whether the actor may name this place as a view.
    fn may_view(&self, actor: u16, place: u32) -> bool
        ensures { result ≡ may_name true self.now.book actor place }
    {
        let stand = stand_of(self.journal.views.as_slice(), actor);
        place as usize <= self.journal.book.len() && stand <= place
    }

    /// Whether the actor may name this place as a read point.
    fn may_try(&self, actor: u16, place: u32) -> bool
        ensures { result ≡ may_name false self.now.book actor place }
    {
        let stand = stand_of(self.journal.tries.as_slice(), actor);
        place as usize <= self.journal.book.len() && stand <= place
    }
}
