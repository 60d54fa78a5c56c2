//! The mailbox of an agent.

ghost use Rattle.std.specs.Borrow.{sem};
ghost use Rattle.std.specs.Io.BufRead.{Rests};
ghost use Rattle.std.specs.Option.{option_copied};
ghost use Rattle.std.specs.Prelude.{◌≡◌, ◌+◌, ◌<◌, ◌≤◌, false, length, true, OnErr, OnOk};
ghost use Rattle.txs_world.specs.Mailbox.{IsMailbox, empty, finish, first, give_back, next, put, take, with_room};
ghost use Rattle.txs_world.specs.contracts.mailbox.Mailbox.{the_row};

use std::alloc::{AllocError, Global};
use std::collections::VecDeque;
use std::marker::Model;
use txs_value_cell::Action;

/// The actions that wait for an agent, in the order of their sends. The first may be taken to be run; it stays in front
/// until it is finished or given back.
pub struct Mailbox {
    actions: VecDeque<Action>,
    is_taken: bool,
    has_failed: bool,
    goes_on: bool,
}

// Dropped by a call that is proved here, so that no crate above proves it again.
impl Drop for Mailbox {
    fn drop(self) {
        let Mailbox {
            actions,
            is_taken: _,
            has_failed: _,
            goes_on: _,
        } = self;
        drop(actions);
    }
}

impl Model for Mailbox {
    ghost use Rattle.std.specs.Coded.{codes};
    ghost use Rattle.std.specs.Prelude.{◌-◌};
    ghost use Rattle.std.specs.VecDeque.{deque_capacity, deque_len};
    ghost use Rattle.txs_world.specs.Mailbox.{IsMailbox, RoomedMailbox, mailbox_of, with_room};
    ghost use Rattle.txs_value_data.specs.contracts.value.Value as value;

    ghost Value = { RoomedMailbox };

    ghost coded = { Prim.hlevel (codes, value.the_row.coded) };

    ghost view = { λ m. with_room (mailbox_of m.actions.items m.is_taken m.has_failed m.goes_on) (deque_capacity m.actions - deque_len m.actions) };

    ghost invariant = { λ m. IsMailbox (mailbox_of m.actions.items m.is_taken m.has_failed m.goes_on) };
}

impl Mailbox {
    /// The mailbox of a new agent, which continues after a fault or doesn't. It takes no memory; `reserve` makes room.
    pub fn new(alloc: Global, goes_on: bool) -> Mailbox
        ensures { result.plain ≡ empty goes_on }
    {
        Mailbox {
            actions: VecDeque::new(alloc),
            is_taken: false,
            has_failed: false,
            goes_on,
        }
    }

    /// Makes room for so many more actions. An error where there is no memory for it.
    pub fn reserve(&mut self, additional: usize) -> Result<(), AllocError>
        ensures same { self.new.plain ≡ self.old.plain }
        ensures room { OnOk result (additional ≤ self.new.room) }
        ensures kept { self.old.room ≤ self.new.room }
        ensures full { OnErr result (self.old.room < additional) }
    {
        self.actions.reserve(additional)
    }

    /// How many more actions there is room for.
    pub fn room(&self) -> usize
        ensures { result ≡ self.now.room }
    {
        self.actions.capacity() - self.len()
    }

    /// Puts an action behind the others. A failed mailbox takes it too, and won't hand it out: to refuse a send to an
    /// agent that has failed is up to whoever sends.
    pub fn put_reserved(&mut self, action: Action)
        requires { 0 < self.old.room }
        ensures put { self.new.plain ≡ put action self.old.plain }
        ensures room { self.new.room + 1 ≡ self.old.room }
    {
        self.actions.push_back_reserved(action);
    }

    /// Takes the first action, which stays in front. `None`, and nothing is taken, where there is none or the mailbox
    /// has failed.
    pub fn take(&mut self) -> Option<&Action>
        requires { self.old.plain.is_taken ≡ false }
        ensures* taken { sem 𝓛 (Rests the_row self.entry (λ m. m ≡ with_room (take self.old.plain) self.old.room)) }
        ensures action { option_copied result ≡ next self.old.plain }
    {
        if self.has_failed {
            return None;
        }
        self.is_taken = !self.actions.is_empty();
        self.actions.front()
    }

    /// Removes the action that was taken. Where it faulted the mailbox has failed, unless its agent continues.
    pub fn finish(&mut self, failed: bool)
        requires { self.old.plain.is_taken ≡ true }
        ensures finished { self.new.plain ≡ finish failed self.old.plain }
        ensures room { self.new.room ≡ self.old.room + 1 }
    {
        self.actions.pop_front();
        self.is_taken = false;
        self.has_failed = failed && !self.goes_on;
    }

    /// The action that was taken is taken no longer: it is the first that waits.
    pub fn give_back(&mut self)
        requires { self.old.plain.is_taken ≡ true }
        ensures { self.new ≡ with_room (give_back self.old.plain) self.old.room }
    {
        // The action never left the front.
        self.is_taken = false;
    }

    /// The first action, whether it is taken or not, and whether the agent has failed or not.
    pub fn first(&self) -> Option<&Action>
        ensures { option_copied result ≡ first self.now.plain.actions }
    {
        self.actions.get(0)
    }

    /// How many actions there are, with the one that is taken.
    pub fn len(&self) -> usize
        ensures { result ≡ length self.now.plain.actions }
    {
        self.actions.len()
    }

    /// Whether the first action is taken. Then there is one, and the mailbox hasn't failed.
    pub fn is_taken(&self) -> bool
        ensures value { result ≡ self.now.plain.is_taken }
        ensures mailbox { IsMailbox self.now.plain }
    {
        // The flag stands for more: the invariant ties it to the actions.
        self.is_taken
    }

    /// Whether an action faulted and the agent doesn't continue.
    pub fn has_failed(&self) -> bool
        ensures { result ≡ self.now.plain.has_failed }
    {
        self.has_failed
    }
}
