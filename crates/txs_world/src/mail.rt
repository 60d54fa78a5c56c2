//! Sends outside transactions, and the actions of agents.

ghost use Rattle.std.specs.Prelude.{◌≡◌, ◌==◌, nat_lt, length, suc, true, false, None, is_some, OnOk};
ghost use Rattle.txs_world_protocol.specs.declared.ask.Ask.TheVariants as ask;
ghost use Rattle.txs_world_book.specs.Book.{actor_of, are_sends, first_failed, has_agent, is_failed, mail_after, may_send, state_of, waits};
ghost use Rattle.txs_world.specs.Inboxes.{all_sent_below, fault_of, plain_inboxes, rooms, HaveRoom};
ghost use Rattle.txs_world.specs.Kept.{end_reply, Ends};
ghost use Rattle.txs_world.specs.Store.{is_taken, sends_to, next_action, span_of, serve, store_after, Answers, Replies};

use crate::inbox::{
    Inbox, fill_queue, finish_at, mail_all, make_room_for, put_at, ready_at, take_at,
};
use crate::slot::{push_copy, put_all};
use crate::store::Store;
use std::alloc::AllocError;
use std::collections::VecDeque;
use txs_value_cell::Action;
use txs_value_data::{CellId, Fault, FaultKind, Listed, Span, Value};
use txs_world_protocol::{EventKind, Reply};

/// The fault that an action came to, if it faulted.
fn fault_of(new: &Result<Value, Fault>) -> Option<Fault>
    ensures { result ≡ fault_of new.now }
{
    match new {
        Ok(_) => None,
        Err(fault) => Some(*fault),
    }
}

/// Fills a list with the state that an action gives its agent.
fn fill_state(
    copies: &mut Vec<(CellId, Value)>,
    agent: CellId,
    new: &Result<Value, Fault>,
) -> Result<(), AllocError>
    ensures { OnOk result (copies.new.items ≡ state_of agent new.now) }
{
    copies.clear();
    match new {
        Ok(value) => push_copy(copies, agent, value),
        Err(_) => Ok(()),
    }
}

/// Fills lists, which are kept for their room, with an agent's new state and with what its action sends, and makes room for
/// these sends in the inboxes.
fn prepare_end(
    copies: &mut Vec<(CellId, Value)>,
    queue: &mut VecDeque<Action>,
    inboxes: &mut Vec<Inbox>,
    agent: CellId,
    new: &Result<Value, Fault>,
    sends: &Listed<Action>,
) -> Result<(), AllocError>
    requires { all_sent_below (length inboxes.old.items) sends.now ≡ true }
    ensures same { plain_inboxes inboxes.new.items ≡ plain_inboxes inboxes.old.items }
    ensures copies { OnOk result (copies.new.items ≡ state_of agent new.now) }
    ensures queue { OnOk result (queue.new.items ≡ sends.now) }
    ensures room { OnOk result (HaveRoom (rooms inboxes.new.items) sends.now) }
{
    fill_state(copies, agent, new)?;
    fill_queue(queue, sends.as_slice())?;
    make_room_for(inboxes, sends.as_slice())
}

/// The reply to the end of an action, of whose sends this agent has failed, or none.
fn end_reply(failed: Option<CellId>) -> Reply
    ensures { result ≡ end_reply failed }
{
    match failed {
        None => Reply::Done,
        Some(agent) => Reply::AgentIsFailed(agent),
    }
}

impl Store {
    /// A send outside every transaction, whose action enters the inbox of its agent: it is refused where the agent has failed.
    pub(crate) fn send(&mut self, actor: u16, action: Action) -> Reply
        requires thread { nat_lt actor self.old.threads ≡ true }
        requires agent { has_agent self.old.cells action.agent ≡ true }
        ensures { Replies self.old (sends_to (is_failed self.old.cells self.old.book action.agent) actor action self.old.book) result self.new }
    {
        let agent = action.agent;
        let has_failed = self.is_failed(agent);
        if has_failed {
            drop(action);
            return self.tell(
                actor,
                EventKind::SendRefused { agent },
                Reply::AgentIsFailed(agent),
            );
        }
        if self.is_full() {
            drop(action);
            return Reply::Full;
        }
        let copy = match ready_at(&mut self.inboxes, &action) {
            Ok(copy) => copy,
            Err(_) => {
                drop(action);
                return Reply::Memory;
            }
        };
        match self.journal.add(actor, EventKind::Send { action }) {
            Ok(_) => {
                put_at(&mut self.inboxes, copy);
                Reply::Done
            }
            Err(_) => {
                drop(copy);
                Reply::Memory
            }
        }
    }

    /// The agent's first action, which is taken, with its number and the agent's state; nothing where the agent has failed or
    /// has no action.
    pub(crate) fn take(&mut self, actor: u16, agent: CellId) -> Reply
        requires agent { has_agent self.old.cells agent ≡ true }
        requires free { is_taken self.old.taken agent ≡ false }
        ensures { Answers self.old (serve self.old.cells actor (ask.Take agent) self.old.book) (store_after self.old (ask.Take agent) (serve self.old.cells actor (ask.Take agent) self.old.book)) result self.new }
    {
        if !self.has_next(agent) {
            return Reply::Idle;
        }
        let number = self.next_number(agent);
        let state = match self.share_newest(agent) {
            Ok(state) => state,
            Err(_) => return Reply::Memory,
        };
        match take_at(&mut self.inboxes, agent.number) {
            Ok(action) => Reply::Action {
                number,
                action,
                state,
            },
            Err(_) => {
                drop(state);
                Reply::Memory
            }
        }
    }

    /// Whether the agent has an action to run, and hasn't failed.
    fn has_next(&self, agent: CellId) -> bool
        requires { has_agent self.now.cells agent ≡ true }
        ensures { result ≡ is_some (next_action self.now.cells self.now.book agent) }
    {
        if self.is_failed(agent) {
            return false;
        }
        self.waiting(agent) > 0
    }

    /// The number of the agent's next action.
    fn next_number(&self, agent: CellId) -> u32
        requires { has_agent self.now.cells agent ≡ true }
        ensures { result ≡ suc (mail_after self.now.cells self.now.book agent.number).acts }
    {
        self.inboxes[usize::from(agent.number)].acts + 1
    }

    /// What an agent's action came to, which is over: its new state with its sends, or a fault. Where an agent of its sends has
    /// failed, the action faults at the span of its own send, and sends nothing.
    pub(crate) fn finish(
        &mut self,
        actor: u16,
        agent: CellId,
        new: Result<Value, Fault>,
        sends: Listed<Action>,
    ) -> Reply
        requires own { (actor == actor_of self.old.threads self.old.cells agent) ≡ true }
        requires agent { has_agent self.old.cells agent ≡ true }
        requires taken { is_taken self.old.taken agent ≡ true }
        requires held { may_send new sends ≡ true }
        requires to_agents { are_sends self.old.cells sends ≡ true }
        ensures { Answers self.old (serve self.old.cells actor (ask.Finish agent new sends) self.old.book) (store_after self.old (ask.Finish agent new sends) (serve self.old.cells actor (ask.Finish agent new sends) self.old.book)) result self.new }
    {
        match self.first_failed(sends.as_slice()) {
            None => self.end_action(actor, agent, new, sends, None),
            Some(failed) => {
                drop(new);
                drop(sends);
                let span = self.first_span(agent);
                let kind = FaultKind::AgentFailed;
                let nothing = Listed::from_vec(Vec::new(self.alloc));
                self.end_action(
                    actor,
                    agent,
                    Err(Fault { kind, span }),
                    nothing,
                    Some(failed),
                )
            }
        }
    }

    /// The end of an agent's action: it sets the agent's state, and behind that its sends enter the inboxes of their agents. What
    /// is replied names the agent of its sends that has failed, if one has.
    fn end_action(
        &mut self,
        actor: u16,
        agent: CellId,
        new: Result<Value, Fault>,
        sends: Listed<Action>,
        failed: Option<CellId>,
    ) -> Reply
        requires own { (actor == actor_of self.old.threads self.old.cells agent) ≡ true }
        requires agent { has_agent self.old.cells agent ≡ true }
        requires taken { is_taken self.old.taken agent ≡ true }
        requires held { may_send new sends ≡ true }
        requires to_agents { are_sends self.old.cells sends ≡ true }
        requires run { first_failed self.old.cells self.old.book sends ≡ None }
        ensures { Ends self.old actor agent new sends failed result self.new }
    {
        if self.is_full() {
            drop(new);
            drop(sends);
            return Reply::Full;
        }
        let number = self.number_taken(agent);
        let fault = fault_of(&new);
        match prepare_end(
            &mut self.spare,
            &mut self.queue,
            &mut self.inboxes,
            agent,
            &new,
            &sends,
        ) {
            Ok(()) => (),
            Err(_) => {
                drop(new);
                drop(sends);
                return Reply::Memory;
            }
        }
        let kind = EventKind::Act {
            agent,
            number,
            new,
            sends,
        };
        match self.journal.add(actor, kind) {
            Ok(events) => {
                // From here on nothing fails.
                put_all(&mut self.slots, &mut self.spare, events);
                finish_at(&mut self.inboxes, agent.number, fault);
                mail_all(&mut self.inboxes, &mut self.queue);
                end_reply(failed)
            }
            Err(_) => Reply::Memory,
        }
    }

    /// The span of the agent's first action, which is that of its send.
    fn first_span(&self, agent: CellId) -> Span
        requires { has_agent self.now.cells agent ≡ true }
        ensures { result ≡ span_of (mail_after self.now.cells self.now.book agent.number).actions }
    {
        match self.inboxes[usize::from(agent.number)].mailbox.first() {
            Some(action) => action.span,
            None => Span { from: 0, to: 0 },
        }
    }

    /// The number of the agent's action that is taken. It is there, and the agent hasn't failed.
    fn number_taken(&self, agent: CellId) -> u32
        requires agent { has_agent self.now.cells agent ≡ true }
        requires taken { is_taken self.now.taken agent ≡ true }
        ensures number { result ≡ suc (mail_after self.now.cells self.now.book agent.number).acts }
        ensures runs { is_failed self.now.cells self.now.book agent ≡ false }
        ensures waits { waits (mail_after self.now.cells self.now.book agent.number).actions ≡ true }
    {
        let inbox = &self.inboxes[usize::from(agent.number)];
        // What is asked is known; a mailbox whose action is taken promises the rest.
        let _ = inbox.mailbox.is_taken();
        inbox.acts + 1
    }
}
