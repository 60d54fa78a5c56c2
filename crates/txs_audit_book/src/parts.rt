//! What is kept of the store's cells, and whether an event may stand behind those that were gone through.

ghost use Rattle.std.specs.Prelude.{◌≡◌, ◌<◌, ◌&&◌, ◌==◌, ◌++◌, ◌∷◌, [], nat_lt, not, suc, length, false, true, IfOk, OnOk};
ghost use Rattle.txs_value_data.specs.Limits.{most_events};
ghost use Rattle.txs_world_book.specs.Book.{actor_of, actors, makes, is_outdated, may_name, may_end, may_rerun, may_send, has_ref, has_agent, are_sends, first_failed, is_failed, is_there, mail_after, waits, written};
ghost use Rattle.txs_world_book.specs.Served.{cells_of};
ghost use Rattle.txs_world_protocol.specs.declared.event.EventKind.TheVariants as event;
ghost use Rattle.txs_audit_book.specs.Gone.{GoneParts, plain_inboxes};
ghost use Rattle.txs_audit_book.specs.Moves.{MayPut, mail_put};
ghost use Rattle.txs_theorem_audit.specs.Verdict.{is_legal_kind};
ghost use Rattle.txs_audit_book.specs.Tests.{store_test};

use crate::inbox::{Inbox, act_at, open_inboxes, send_all, send_one};
use crate::stands::mark;
use crate::values::{index_in, open_histories, put_values};
use std::alloc::{AllocError, Global};
use txs_tree_eval_transaction::History;
use txs_value_cell::{Action, CellDefinition};
use txs_value_data::{CellId, Fault, Listed, Value};
use txs_world_book::journal::is_no_redo;
use txs_world_book::{
    Cells, StoreCell, are_sends, are_written, has_agent, has_readable, has_ref, may_send, stand_of,
};
use txs_world_protocol::{Cause, Event, EventKind};

/// How many values of a cell a store keeps: the newest, and up to ten older ones.
const MOST_VERSIONS: u32 = 11;

/// The cells, how many threads there are, the values that each cell has had, what is known of agents, and where actors stand.
#[derive(Drop)]
pub(crate) struct Parts {
    pub(crate) cells: Cells,
    pub(crate) threads: u16,
    pub(crate) histories: Vec<History>,
    pub(crate) inboxes: Vec<Inbox>,
    pub(crate) views: Vec<u32>,
    pub(crate) tries: Vec<u32>,
}

/// Before the first event.
pub(crate) fn open_parts(
    alloc: Global,
    definitions: &[CellDefinition],
    threads: u16,
) -> Result<Parts, AllocError>
    ensures gone { IfOk result (λ p. GoneParts p []) }
    ensures cells { IfOk result (λ p. p.cells ≡ cells_of definitions.now) }
    ensures threads { IfOk result (λ p. p.threads ≡ threads) }
{
    let cells = Cells::open(alloc, definitions)?;
    let histories = open_histories(alloc, cells.as_slice())?;
    let inboxes = open_inboxes(alloc, cells.as_slice())?;
    Ok(Parts {
        cells,
        threads,
        histories,
        inboxes,
        views: Vec::new(alloc),
        tries: Vec::new(alloc),
    })
}

impl Parts {
    /// Whether this is the agent's actor.
    #[tactic(auto, using(txs_world_book::proofs::Counting::agents_few))]
    fn is_actor_of(&self, actor: u16, agent: CellId) -> bool
        ensures { result ≡ (actor == actor_of self.now.threads self.now.cells agent) }
    {
        let agents = self.cells.agents_below(agent.number);
        usize::from(actor) == usize::from(self.threads) + agents
    }

    /// Whether there is such an actor: a thread or an agent.
    fn is_actor(&self, actor: u16) -> bool
        ensures { result ≡ nat_lt actor (actors self.now.threads self.now.cells) }
    {
        usize::from(actor) < self.cells.actors(self.threads)
    }

    /// Whether the actor makes such events: a thread all but actions; an agent's actor those of its agent, and all others but sends
    /// and refused transactions, where its commits send nothing.
    fn makes(&self, actor: u16, kind: &EventKind) -> bool
        ensures { result ≡ makes self.now.cells self.now.threads actor kind.now }
    {
        match kind {
            EventKind::Act { agent, .. } => self.is_actor_of(actor, *agent),
            EventKind::Commit { sends, .. } => {
                self.cells.may_commit(self.threads, actor, sends.as_slice())
            }
            EventKind::Send { .. } | EventKind::SendRefused { .. } | EventKind::Refused { .. } => {
                actor < self.threads
            }
            _ => self.is_actor(actor),
        }
    }

    /// Whether the actor may name this index as a view.
    fn may_view(&self, done: &[Event], actor: u16, place: u32) -> bool
        requires { GoneParts self.now done.now }
        ensures { result ≡ may_name true done.now actor place }
    {
        let stand = stand_of(self.views.as_slice(), actor);
        place as usize <= done.len() && stand <= place
    }

    /// Whether the actor may name this index as a read point.
    fn may_try(&self, done: &[Event], actor: u16, place: u32) -> bool
        requires { GoneParts self.now done.now }
        ensures { result ≡ may_name false done.now actor place }
    {
        let stand = stand_of(self.tries.as_slice(), actor);
        place as usize <= done.len() && stand <= place
    }

    /// Whether the actor may end a transaction with this read point and this view.
    fn may_end(&self, done: &[Event], actor: u16, at: u32, view: u32) -> bool
        requires { GoneParts self.now done.now }
        ensures { result ≡ may_end done.now actor at view }
    {
        at <= view && self.may_try(done, actor, at) && self.may_view(done, actor, view)
    }

    /// Whether an agent has failed.
    fn is_failed(&self, done: &[Event], agent: CellId) -> bool
        requires gone { GoneParts self.now done.now }
        requires there { has_agent self.now.cells agent ≡ true }
        ensures { result ≡ is_failed self.now.cells done.now agent }
    {
        self.inboxes[usize::from(agent.number)].fault.is_some()
    }

    /// Whether none of the agents of these actions has failed.
    fn none_failed(&self, done: &[Event], sends: &[Action]) -> bool
        requires gone { GoneParts self.now done.now }
        requires there { are_sends self.now.cells sends.now ≡ true }
        ensures { result ≡ not (is_there (first_failed self.now.cells done.now sends.now)) }
    {
        for action in sends {
            if self.is_failed(done, action.agent) {
                return false;
            }
        }
        true
    }

    /// Whether the ref was written at index `since` or later.
    fn is_written(&self, done: &[Event], cell: CellId, since: u32) -> bool
        requires gone { GoneParts self.now done.now }
        requires there { has_ref self.now.cells cell ≡ true }
        ensures { result ≡ written cell.number since done.now }
    {
        since < self.histories[usize::from(cell.number)].latest()
    }

    /// Whether the store no longer keeps the value that the ref had at index `since`: the ref was written more than ten times from
    /// there on. Each round goes back by a write.
    fn is_outdated(&self, done: &[Event], cell: CellId, since: u32) -> bool
        requires gone { GoneParts self.now done.now }
        requires there { has_ref self.now.cells cell ≡ true }
        ensures { result ≡ is_outdated cell.number since done.now }
    {
        let history = &self.histories[usize::from(cell.number)];
        let mut place = done.len() as u32;
        for _ in 0..MOST_VERSIONS {
            let index = index_in(history, place);
            if index <= since {
                return false;
            }
            place = index - 1;
        }
        true
    }

    /// Whether a commit may stand here.
    fn may_commit(
        &self,
        done: &[Event],
        actor: u16,
        at: u32,
        view: u32,
        writes: &Listed<(CellId, Value)>,
        sends: &Listed<Action>,
    ) -> bool
        requires { GoneParts self.now done.now }
        ensures { result ≡ is_legal_kind self.now.cells done.now actor (event.Commit at view writes.now sends.now) }
    {
        let cells = self.cells.as_slice();
        if !are_written(cells, writes.as_slice()) {
            return false;
        }
        if !are_sends(cells, sends.as_slice()) {
            return false;
        }
        self.may_end(done, actor, at, view) && self.none_failed(done, sends.as_slice())
    }

    /// Whether the actor may have had to run again for this.
    fn may_rerun(&self, done: &[Event], actor: u16, since: u32, cell: CellId, cause: Cause) -> bool
        requires gone { GoneParts self.now done.now }
        requires there { has_ref self.now.cells cell ≡ true }
        ensures { result ≡ may_rerun done.now actor since cell cause }
    {
        match cause {
            Cause::Outdated => {
                self.may_try(done, actor, since) && self.is_outdated(done, cell, since)
            }
            Cause::Held => self.may_try(done, actor, since),
            Cause::Commuted { at } => self.may_end(done, actor, at, since),
        }
    }

    /// Whether a retry may stand here.
    fn may_retry(&self, done: &[Event], actor: u16, since: u32, cell: CellId, cause: Cause) -> bool
        requires { GoneParts self.now done.now }
        ensures { result ≡ is_legal_kind self.now.cells done.now actor (event.Retry since cell cause) }
    {
        if !has_ref(self.cells.as_slice(), cell) {
            return false;
        }
        self.may_rerun(done, actor, since, cell, cause) && self.is_written(done, cell, since)
    }

    /// Whether the agent's next action waits, and is its so many-th.
    fn is_next(&self, done: &[Event], agent: CellId, number: u32) -> bool
        requires gone { GoneParts self.now done.now }
        requires there { has_agent self.now.cells agent ≡ true }
        ensures { result ≡ (waits (mail_after self.now.cells done.now agent.number).actions && (number == suc (mail_after self.now.cells done.now agent.number).acts)) }
    {
        let inbox = &self.inboxes[usize::from(agent.number)];
        inbox.acts < inbox.sent.len() && number as usize == inbox.acts + 1
    }

    /// Whether the end of an action may send these: one that faults sends nothing, and no agent of theirs has failed.
    fn may_send(&self, done: &[Event], new: &Result<Value, Fault>, sends: &[Action]) -> bool
        requires { GoneParts self.now done.now }
        ensures { result ≡ (may_send new.now sends.now && (are_sends self.now.cells sends.now && not (is_there (first_failed self.now.cells done.now sends.now)))) }
    {
        if !may_send(new, sends) {
            return false;
        }
        if !are_sends(self.cells.as_slice(), sends) {
            return false;
        }
        self.none_failed(done, sends)
    }

    /// Whether the end of an action may stand here.
    fn may_act(
        &self,
        done: &[Event],
        agent: CellId,
        number: u32,
        new: &Result<Value, Fault>,
        sends: &Listed<Action>,
    ) -> bool
        requires { GoneParts self.now done.now }
        ensures { result ≡ (has_agent self.now.cells agent && (not (is_failed self.now.cells done.now agent) && (waits (mail_after self.now.cells done.now agent.number).actions && (number == suc (mail_after self.now.cells done.now agent.number).acts && (may_send new.now sends.now && (are_sends self.now.cells sends.now && not (is_there (first_failed self.now.cells done.now sends.now)))))))) }
    {
        if !has_agent(self.cells.as_slice(), agent) {
            return false;
        }
        if self.is_failed(done, agent) || !self.is_next(done, agent, number) {
            return false;
        }
        self.may_send(done, new, sends.as_slice())
    }

    /// Whether the actor may have done this behind these events.
    fn is_legal_kind(&self, done: &[Event], actor: u16, kind: &EventKind) -> bool
        requires { GoneParts self.now done.now }
        ensures { result ≡ is_legal_kind self.now.cells done.now actor kind.now }
    {
        let cells = self.cells.as_slice();
        match kind {
            EventKind::Read { cell } => has_readable(cells, *cell),
            EventKind::Commit {
                at,
                view,
                writes,
                sends,
            } => self.may_commit(done, actor, *at, *view, writes, sends),
            EventKind::Retry { since, cell, cause } => self.may_retry(
                done, actor, *since, *cell, *cause,
            ),
            EventKind::Fail { at, view } => self.may_end(done, actor, *at, *view),
            EventKind::Refused { at, view, agent } => {
                has_agent(cells, *agent)
                    && self.may_end(done, actor, *at, *view)
                    && self.is_failed(done, *agent)
            }
            EventKind::Send { action } => {
                has_agent(cells, action.agent) && !self.is_failed(done, action.agent)
            }
            EventKind::SendRefused { agent } => {
                has_agent(cells, *agent) && self.is_failed(done, *agent)
            }
            EventKind::Act {
                agent,
                number,
                new,
                sends,
            } => self.may_act(done, *agent, *number, new, sends),
            EventKind::Swap { .. } | EventKind::Broke { .. } => false,
        }
    }

    /// Whether this event may stand behind these.
    pub(crate) fn is_legal(&self, done: &[Event], event: &Event) -> bool
        requires { GoneParts self.now done.now }
        ensures { result ≡ store_test self.now.cells self.now.threads done.now event.now }
    {
        self.makes(event.actor, &event.kind) && self.is_legal_kind(done, event.actor, &event.kind)
    }
}

/// What an event, which is the last of so many and may stand behind these, makes of what is known of agents.
fn put_mail(
    inboxes: &mut Vec<Inbox>,
    cells: &[StoreCell],
    kind: &EventKind,
    events: u32,
) -> Result<(), AllocError>
    requires { MayPut cells.now (plain_inboxes inboxes.old.items) kind.now }
    ensures { OnOk result (plain_inboxes inboxes.new.items ≡ mail_put cells.now events kind.now (plain_inboxes inboxes.old.items)) }
{
    match kind {
        EventKind::Commit { sends, .. } => send_all(inboxes, sends.as_slice()),
        EventKind::Send { action } => send_one(inboxes, action),
        EventKind::Act {
            agent,
            new,
            sends,
            ..
        } => {
            let goes_on = cells[usize::from(agent.number)].goes_on;
            act_at(inboxes, agent.number, goes_on, new, events);
            send_all(inboxes, sends.as_slice())
        }
        _ => Ok(()),
    }
}

/// Goes through an event that may stand behind these.
pub(crate) fn put(parts: &mut Parts, done: &[Event], event: &Event) -> Result<(), AllocError>
    requires few { length done.now < most_events }
    requires gone { GoneParts parts.old done.now }
    requires legal { is_legal_kind parts.old.cells done.now event.now.actor event.now.kind ≡ true }
    ensures gone { OnOk result (GoneParts parts.new (done.now ++ event.now ∷ [])) }
    ensures cells { OnOk result (parts.new.cells ≡ parts.old.cells) }
    ensures threads { OnOk result (parts.new.threads ≡ parts.old.threads) }
{
    let events = done.len() as u32 + 1;
    put_values(&mut parts.histories, &event.kind, events)?;
    put_mail(
        &mut parts.inboxes,
        parts.cells.as_slice(),
        &event.kind,
        events,
    )?;
    mark(&mut parts.views, event.actor, events, true)?;
    mark(
        &mut parts.tries,
        event.actor,
        events,
        is_no_redo(&event.kind),
    )
}
