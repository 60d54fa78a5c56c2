//! Whose an actor is, and the action that an agent's runs.

ghost use Rattle.std.specs.Prelude.{◌≡◌, ◌++◌, ◌∷◌, [], Some, IfOk, OnOk, OnErr, option_copied};
ghost use Rattle.txs_code_meaning.specs.Machine.{fault_in};
ghost use Rattle.txs_machine_transaction.specs.Roles.{acting_of, agent_of, commit_in, holding, holds_all, in_hand, sends_in};

use crate::asks::{copy_sends, join_sends};
use crate::state::Pending;
use std::alloc::{AllocError, Global};
use std::marker::Model;
use std::mem;
use txs_machine_stack::Stack;
use txs_value_cell::Action;
use txs_value_data::{CellId, Fault, Listed};

/// An action that an agent runs, the sends that it holds, and the fault that it is over with, where that is yet to be handed in.
pub struct InHand {
    agent: CellId,
    action: Action,
    sends: Vec<Action>,
    fault: Option<Fault>,
}

// Dropped by a call that is proved here, so that nothing above proves it again.
impl Drop for InHand {
    fn drop(self) {
        let InHand {
            agent: _,
            action,
            sends,
            fault: _,
        } = self;
        drop(action);
        drop(sends);
    }
}

impl Model for InHand {
    ghost use Rattle.std.specs.Coded.{codes};
    ghost use Rattle.txs_value_data.specs.contracts.value.Value as value;
    ghost use Rattle.txs_code_meaning.specs.ActorState.{InHand as Held};

    ghost Value = { Held };

    ghost coded = { Prim.hlevel (codes, value.the_row.coded) };

    ghost view = { λ h. record { agent = h.agent; action = h.action; sends = h.sends.items; fault = h.fault } };
}

impl InHand {
    /// An action that this agent has taken. It holds no send, and takes no memory for them.
    pub fn new(alloc: Global, agent: CellId, action: Action) -> InHand
        ensures { result ≡ in_hand agent action }
    {
        InHand {
            agent,
            action,
            sends: Vec::new(alloc),
            fault: None,
        }
    }

    /// Its agent.
    pub fn agent(&self) -> CellId
        ensures { result ≡ self.now.agent }
    {
        self.agent
    }

    /// The action.
    pub fn action(&self) -> &Action
        ensures { result.now ≡ self.now.action }
    {
        &self.action
    }

    /// The sends that it holds.
    pub fn sends(&self) -> &[Action]
        ensures { result.now ≡ self.now.sends }
    {
        self.sends.as_slice()
    }

    /// The fault that it is over with, where that is yet to be handed in.
    pub fn fault(&self) -> Option<Fault>
        ensures { result ≡ self.now.fault }
    {
        self.fault
    }

    /// It is over with this fault, which is handed in next.
    pub fn fail(&mut self, fault: Fault)
        ensures { self.new ≡ record self.old { fault = Some fault } }
    {
        self.fault = Some(fault);
    }

    /// It holds these sends, and no others.
    pub fn hold_all(&mut self, sends: Listed<Action>)
        ensures { self.new ≡ record self.old { sends = sends } }
    {
        drop(mem::replace(&mut self.sends, sends.into_vec()));
    }

    /// It holds this send too.
    pub fn hold(&mut self, send: Action) -> Result<(), AllocError>
        ensures held { OnOk result (self.new ≡ record self.old { sends = self.old.sends ++ send ∷ [] }) }
        ensures same { OnErr result (self.new ≡ self.old) }
    {
        self.sends.push(send)?;
        Ok(())
    }
}

/// Whose an actor is.
#[derive(Drop)]
pub enum Role {
    /// A thread's.
    Thread,
    /// An agent's that is in its own body, with the action that it has taken, if it has.
    Attending {
        agent: CellId,
        acting: Option<InHand>,
    },
    /// An agent's, the function of whose action, or of the validator of its new value, runs in a stack of its own: that of the
    /// agent's body is put aside.
    Acting {
        acting: InHand,
        judges: bool,
        aside: Stack,
    },
}

impl Role {
    /// The agent of the action that is run, if one is.
    pub fn acting_agent(&self) -> Option<CellId>
        ensures { result ≡ agent_of (acting_of self.now) }
    {
        match self {
            Role::Thread | Role::Attending { acting: None, .. } => None,
            Role::Attending {
                acting: Some(acting),
                ..
            } => Some(acting.agent()),
            Role::Acting { acting, .. } => Some(acting.agent()),
        }
    }

    /// The action that is run, if one is.
    fn acting(&self) -> Option<&InHand>
        ensures { option_copied result ≡ acting_of self.now }
    {
        match self {
            Role::Thread | Role::Attending { acting: None, .. } => None,
            Role::Attending {
                acting: Some(acting),
                ..
            } => Some(acting),
            Role::Acting { acting, .. } => Some(acting),
        }
    }

    /// The fault that the action is over with, where that is yet to be handed in.
    pub fn fault(&self) -> Option<Fault>
        ensures { result ≡ fault_in (acting_of self.now) }
    {
        match self.acting() {
            None => None,
            Some(acting) => acting.fault(),
        }
    }

    /// The sends that the action holds, in a list of their own.
    pub fn copy_held(&self, alloc: Global) -> Result<Listed<Action>, AllocError>
        ensures { IfOk result (λ xs. xs ≡ sends_in (acting_of self.now)) }
    {
        match self.acting() {
            None => Ok(Listed::from_vec(Vec::new(alloc))),
            Some(acting) => copy_sends(alloc, acting.sends()),
        }
    }

    /// What is asked for at the end of a transaction with these sends: a thread commits them, and an action holds them.
    #[tactic(auto, using(crate::proofs::Holding::nothing_held, crate::proofs::Holding::thread_commits, crate::proofs::Holding::action_holds))]
    pub fn commit(&self, alloc: Global, sends: &[Action]) -> Result<Pending, AllocError>
        ensures { IfOk result (λ p. p ≡ commit_in sends.now (acting_of self.now)) }
    {
        if sends.is_empty() {
            return Ok(Pending::Commit);
        }
        match self.acting() {
            None => Ok(Pending::Commit),
            Some(acting) => Ok(Pending::Hold(join_sends(alloc, acting.sends(), sends)?)),
        }
    }

    /// The action that is run, if one is, holds these sends, and no others.
    pub fn hold_all(&mut self, sends: Listed<Action>)
        ensures { self.new ≡ holds_all sends self.old }
    {
        match self {
            Role::Thread | Role::Attending { acting: None, .. } => drop(sends),
            Role::Attending {
                acting: Some(acting),
                ..
            } => acting.hold_all(sends),
            Role::Acting { acting, .. } => acting.hold_all(sends),
        }
    }

    /// The action that is run, if one is, holds this send too.
    pub fn hold(&mut self, send: Action) -> Result<(), AllocError>
        ensures held { OnOk result (self.new ≡ holding send self.old) }
        ensures same { OnErr result (self.new ≡ self.old) }
    {
        match self {
            Role::Thread | Role::Attending { acting: None, .. } => {
                drop(send);
                Ok(())
            }
            Role::Attending {
                acting: Some(acting),
                ..
            } => acting.hold(send),
            Role::Acting { acting, .. } => acting.hold(send),
        }
    }
}
