//! What is known of an agent behind some events of the store's book.

ghost use Rattle.std.specs.Prelude.{◌≡◌, ◌<◌, ◌∷◌, [], length, map, true, set, Err, IfOk, OnOk};
ghost use Rattle.std.proofs.Common.{get_or};
ghost use Rattle.txs_world_book.specs.declared.cell.StoreCell.{StoreCell as PlainCell};
ghost use Rattle.txs_audit_book.specs.Gone.{plain_inbox, plain_inboxes, no_inbox};
ghost use Rattle.txs_audit_book.specs.Moves.{entered, entered_all, acted_in, all_sent_below};

use std::alloc::{AllocError, Global};
use txs_value_cell::{Action, copy_action};
use txs_value_data::{Fault, Value};
use txs_world_book::StoreCell;

/// All that was sent to an agent, in order, how many of these actions it has run, and where it has failed the fault, with the
/// number of events up to the action that faulted. A cell that is no agent has one to which nothing is sent.
#[derive(Drop)]
pub(crate) struct Inbox {
    pub(crate) sent: Vec<Action>,
    pub(crate) acts: usize,
    pub(crate) fault: Option<Fault>,
    pub(crate) failed: u32,
}

impl Inbox {
    /// An action is sent.
    fn send(&mut self, action: &Action) -> Result<(), AllocError>
        ensures { OnOk result (plain_inbox self.new ≡ entered (action.now ∷ []) (plain_inbox self.old)) }
    {
        let copy = copy_action(action)?;
        self.sent.push(copy)?;
        Ok(())
    }

    /// An action faulted so, at an event that is the last of so many: the agent is failed, unless it goes on.
    fn fail(&mut self, goes_on: bool, fault: Fault, events: u32)
        requires { self.old.acts < length self.old.sent.items }
        ensures { plain_inbox self.new ≡ acted_in goes_on events (Err fault) (plain_inbox self.old) }
    {
        self.acts += 1;
        if !goes_on {
            self.fault = Some(fault);
            self.failed = events;
        }
    }

    /// The first action that waits came to this, at an event that is the last of so many.
    fn act(&mut self, goes_on: bool, new: &Result<Value, Fault>, events: u32)
        requires { self.old.acts < length self.old.sent.items }
        ensures { plain_inbox self.new ≡ acted_in goes_on events new.now (plain_inbox self.old) }
    {
        match new {
            Ok(_) => self.acts += 1,
            Err(fault) => self.fail(goes_on, *fault, events),
        }
    }
}

/// The inboxes of these cells, to which nothing was sent.
pub(crate) fn open_inboxes(alloc: Global, cells: &[StoreCell]) -> Result<Vec<Inbox>, AllocError>
    ensures { IfOk result (λ bs. plain_inboxes bs.items ≡ map (λ (c : PlainCell). no_inbox) cells.now) }
{
    let mut inboxes = Vec::with_capacity(alloc, cells.len())?;
    for cell in cells {
        let _ = cell.goes_on;
        inboxes.push_reserved(Inbox {
            sent: Vec::new(alloc),
            acts: 0,
            fault: None,
            failed: 0,
        });
    }
    Ok(inboxes)
}

/// An action is sent to its agent.
pub(crate) fn send_one(inboxes: &mut Vec<Inbox>, action: &Action) -> Result<(), AllocError>
    requires { action.now.agent.number < length inboxes.old.items }
    ensures { OnOk result (plain_inboxes inboxes.new.items ≡ entered_all (plain_inboxes inboxes.old.items) (action.now ∷ [])) }
{
    let place = usize::from(action.agent.number);
    let inbox = &mut inboxes[place];
    inbox.send(action)
}

/// These actions are sent to their agents, in order.
pub(crate) fn send_all(inboxes: &mut Vec<Inbox>, actions: &[Action]) -> Result<(), AllocError>
    requires { all_sent_below (length inboxes.old.items) actions.now ≡ true }
    ensures { OnOk result (plain_inboxes inboxes.new.items ≡ entered_all (plain_inboxes inboxes.old.items) actions.now) }
{
    for action in actions {
        send_one(inboxes, action)?;
    }
    Ok(())
}

/// The first action that waits for the agent with this number came to this, at an event that is the last of so many.
pub(crate) fn act_at(
    inboxes: &mut Vec<Inbox>,
    number: u16,
    goes_on: bool,
    new: &Result<Value, Fault>,
    events: u32,
)
    requires place { number < length inboxes.old.items }
    requires waits { (get_or (plain_inboxes inboxes.old.items) number no_inbox).acts < length (get_or (plain_inboxes inboxes.old.items) number no_inbox).sent }
    ensures many { length inboxes.new.items ≡ length inboxes.old.items }
    ensures acted { plain_inboxes inboxes.new.items ≡ set (plain_inboxes inboxes.old.items) number (acted_in goes_on events new.now (get_or (plain_inboxes inboxes.old.items) number no_inbox)) }
{
    let place = usize::from(number);
    let inbox = &mut inboxes[place];
    inbox.act(goes_on, new, events);
}
