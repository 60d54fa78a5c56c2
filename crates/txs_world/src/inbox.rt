//! What a store knows of its agents beside their states.

ghost use Rattle.std.specs.Prelude.{◌≡◌, ◌+◌, ◌<◌, ◌≤◌, ◌∷◌, [], ℕ, false, length, set, true, Some, is_some, IfOk, OnErr, OnOk};
ghost use Rattle.std.proofs.Common.{get_or};
ghost use Rattle.txs_world.specs.Mailbox.{next};
ghost use Rattle.txs_world_book.specs.Book.{sent_to};
ghost use Rattle.txs_world.specs.Inboxes.{plain_inbox, plain_inboxes, no_inbox, open_inboxes, mailed_all, taken_up, finished, all_sent_below, rooms, HaveRoom, promises, Promised, AreMailboxes};

use crate::Mailbox;
use std::alloc::{AllocError, Global};
use std::collections::VecDeque;
use txs_value_cell::{Action, copy_action};
use txs_value_data::Fault;
use txs_world_book::StoreCell;

/// Of an agent the actions that wait, the fault where it has failed, and how many actions it has run. A cell that is no agent
/// has one to which nothing is sent.
#[derive(Drop)]
pub(crate) struct Inbox {
    pub(crate) mailbox: Mailbox,
    pub(crate) fault: Option<Fault>,
    pub(crate) acts: u32,
    /// How many actions of the commit in hand were promised room: counted while room is made, and else of no meaning.
    pub(crate) promised: usize,
}

impl Inbox {
    /// A copy of the next action, which is taken. Where there is no memory for it, none is.
    fn take(&mut self) -> Result<Action, AllocError>
        requires free { self.old.mailbox.plain.is_taken ≡ false }
        requires some { is_some (next self.old.mailbox.plain) ≡ true }
        ensures action { IfOk result (λ a. next self.old.mailbox.plain ≡ Some a) }
        ensures taken { OnOk result (plain_inbox self.new ≡ taken_up (plain_inbox self.old)) }
        ensures same { OnErr result (plain_inbox self.new ≡ plain_inbox self.old) }
    {
        let copied = match self.mailbox.take() {
            None => unreachable!(),
            Some(action) => copy_action(action),
        };
        match copied {
            Ok(action) => Ok(action),
            Err(refused) => {
                self.mailbox.give_back();
                Err(refused)
            }
        }
    }

    /// Removes the action that was taken, which came to this fault or to none.
    fn finish(&mut self, fault: Option<Fault>)
        requires taken { self.old.mailbox.plain.is_taken ≡ true }
        requires few { self.old.acts < u32.MAX }
        ensures finished { plain_inbox self.new ≡ finished fault (plain_inbox self.old) }
        ensures kept { self.old.mailbox.room ≤ self.new.mailbox.room }
    {
        self.mailbox.finish(fault.is_some());
        if self.mailbox.has_failed() {
            self.fault = fault;
        }
        self.acts += 1;
    }
}

/// The inboxes of these cells, to which nothing was sent.
pub(crate) fn open_inboxes(alloc: Global, cells: &[StoreCell]) -> Result<Vec<Inbox>, AllocError>
    ensures { IfOk result (λ v. plain_inboxes v.items ≡ open_inboxes cells.now) }
{
    let mut inboxes = Vec::with_capacity(alloc, cells.len())?;
    for cell in cells {
        inboxes.push_reserved(Inbox {
            mailbox: Mailbox::new(alloc, cell.goes_on),
            fault: None,
            acts: 0,
            promised: 0,
        });
    }
    Ok(inboxes)
}

/// Fills a queue with the same actions. The queue keeps its room from one event to the next.
pub(crate) fn fill_queue(queue: &mut VecDeque<Action>, actions: &[Action]) -> Result<(), AllocError>
    ensures { OnOk result (queue.new.items ≡ actions.now) }
{
    queue.clear();
    queue.reserve(actions.len())?;
    for action in actions {
        let copy = copy_action(action)?;
        queue.push_back_reserved(copy);
    }
    Ok(())
}

/// Makes room for so many more actions in one inbox. What the inboxes hold and what is promised is as before, and none has less
/// room.
pub(crate) fn reserve_at(
    inboxes: &mut Vec<Inbox>,
    number: u16,
    additional: usize,
) -> Result<(), AllocError>
    requires { number < length inboxes.old.items }
    ensures same { plain_inboxes inboxes.new.items ≡ plain_inboxes inboxes.old.items }
    ensures promised { promises inboxes.new.items ≡ promises inboxes.old.items }
    ensures many { length inboxes.new.items ≡ length inboxes.old.items }
    ensures kept { (k : ℕ) → get_or (rooms inboxes.old.items) k 0 ≤ get_or (rooms inboxes.new.items) k 0 }
    ensures room { OnOk result (additional ≤ get_or (rooms inboxes.new.items) number 0) }
{
    let place = usize::from(number);
    let inbox = &mut inboxes[place];
    inbox.mailbox.reserve(additional)
}

/// Puts an action into the inbox of its agent, which has one place less then.
pub(crate) fn put_at(inboxes: &mut Vec<Inbox>, action: Action)
    requires place { action.agent.number < length inboxes.old.items }
    requires room { 0 < get_or (rooms inboxes.old.items) action.agent.number 0 }
    ensures many { length inboxes.new.items ≡ length inboxes.old.items }
    ensures put { plain_inboxes inboxes.new.items ≡ mailed_all (plain_inboxes inboxes.old.items) (action ∷ []) }
    ensures room { (k : ℕ) → get_or (rooms inboxes.old.items) k 0 ≤ length (sent_to k (action ∷ [])) + get_or (rooms inboxes.new.items) k 0 }
{
    let place = usize::from(action.agent.number);
    let inbox = &mut inboxes[place];
    inbox.mailbox.put_reserved(action);
}

/// A copy of an action, with room for it in the inbox of its agent.
pub(crate) fn ready_at(inboxes: &mut Vec<Inbox>, action: &Action) -> Result<Action, AllocError>
    requires { action.now.agent.number < length inboxes.old.items }
    ensures same { plain_inboxes inboxes.new.items ≡ plain_inboxes inboxes.old.items }
    ensures many { length inboxes.new.items ≡ length inboxes.old.items }
    ensures room { OnOk result (1 ≤ get_or (rooms inboxes.new.items) action.now.agent.number 0) }
    ensures copy { IfOk result (λ a. a ≡ action.now) }
{
    reserve_at(inboxes, action.agent.number, 1)?;
    copy_action(action)
}

/// A copy of the next action of one inbox, which is taken. Where there is no memory for it, none is.
pub(crate) fn take_at(inboxes: &mut Vec<Inbox>, number: u16) -> Result<Action, AllocError>
    requires place { number < length inboxes.old.items }
    requires free { (get_or (plain_inboxes inboxes.old.items) number no_inbox).mailbox.is_taken ≡ false }
    requires some { is_some (next (get_or (plain_inboxes inboxes.old.items) number no_inbox).mailbox) ≡ true }
    ensures action { IfOk result (λ a. next (get_or (plain_inboxes inboxes.old.items) number no_inbox).mailbox ≡ Some a) }
    ensures taken { OnOk result (plain_inboxes inboxes.new.items ≡ set (plain_inboxes inboxes.old.items) number (taken_up (get_or (plain_inboxes inboxes.old.items) number no_inbox))) }
    ensures same { OnErr result (plain_inboxes inboxes.new.items ≡ plain_inboxes inboxes.old.items) }
{
    let place = usize::from(number);
    let inbox = &mut inboxes[place];
    inbox.take()
}

/// Removes the action that was taken of one inbox, which came to this fault or to none. No inbox has less room then.
pub(crate) fn finish_at(inboxes: &mut Vec<Inbox>, number: u16, fault: Option<Fault>)
    requires place { number < length inboxes.old.items }
    requires taken { (get_or (plain_inboxes inboxes.old.items) number no_inbox).mailbox.is_taken ≡ true }
    requires few { (get_or (plain_inboxes inboxes.old.items) number no_inbox).acts < u32.MAX }
    ensures many { length inboxes.new.items ≡ length inboxes.old.items }
    ensures finished { plain_inboxes inboxes.new.items ≡ set (plain_inboxes inboxes.old.items) number (finished fault (get_or (plain_inboxes inboxes.old.items) number no_inbox)) }
    ensures kept { (k : ℕ) → get_or (rooms inboxes.old.items) k 0 ≤ get_or (rooms inboxes.new.items) k 0 }
{
    let place = usize::from(number);
    let inbox = &mut inboxes[place];
    inbox.finish(fault);
}

/// Makes room for these actions in the inboxes of their agents, in each for its own alone: they are counted first, so that an
/// inbox grows once.
pub(crate) fn make_room_for(inboxes: &mut Vec<Inbox>, actions: &[Action]) -> Result<(), AllocError>
    requires { all_sent_below (length inboxes.old.items) actions.now ≡ true }
    ensures same { plain_inboxes inboxes.new.items ≡ plain_inboxes inboxes.old.items }
    ensures room { OnOk result (HaveRoom (rooms inboxes.new.items) actions.now) }
{
    promise_none(inboxes, actions);
    promise_all(inboxes, actions);
    for action in actions {
        let place = usize::from(action.agent.number);
        let inbox = &inboxes[place];
        let promised = inbox.promised;
        reserve_at(inboxes, action.agent.number, promised)?;
    }
    Ok(())
}

/// Nothing is promised to the agents of these actions.
fn promise_none(inboxes: &mut Vec<Inbox>, actions: &[Action])
    requires { all_sent_below (length inboxes.old.items) actions.now ≡ true }
    ensures same { plain_inboxes inboxes.new.items ≡ plain_inboxes inboxes.old.items }
    ensures promised { Promised (promises inboxes.new.items) [] actions.now }
{
    for action in actions {
        let place = usize::from(action.agent.number);
        inboxes[place].promised = 0;
    }
}

/// Promises each agent room for those of these actions that are its own.
fn promise_all(inboxes: &mut Vec<Inbox>, actions: &[Action])
    requires places { all_sent_below (length inboxes.old.items) actions.now ≡ true }
    requires none { Promised (promises inboxes.old.items) [] actions.now }
    ensures same { plain_inboxes inboxes.new.items ≡ plain_inboxes inboxes.old.items }
    ensures promised { Promised (promises inboxes.new.items) actions.now actions.now }
{
    for action in actions {
        let place = usize::from(action.agent.number);
        inboxes[place].promised += 1;
    }
}

/// Puts actions into the inboxes of their agents, in order.
pub(crate) fn mail_all(inboxes: &mut Vec<Inbox>, actions: &mut VecDeque<Action>)
    requires places { all_sent_below (length inboxes.old.items) actions.old.items ≡ true }
    requires room { HaveRoom (rooms inboxes.old.items) actions.old.items }
    ensures { plain_inboxes inboxes.new.items ≡ mailed_all (plain_inboxes inboxes.old.items) actions.old.items }
{
    while let Some(action) = actions.pop_front() {
        put_at(inboxes, action);
    }
}

/// Of each of these inboxes an action that is taken is there, and its agent hasn't failed.
pub(crate) fn check_mail(inboxes: &[Inbox])
    ensures { AreMailboxes inboxes.now }
{
    for inbox in inboxes {
        let _ = inbox.mailbox.is_taken();
    }
}
