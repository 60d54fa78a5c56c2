//! What the forms on cells do outside every transaction, at the events that they eat, but for applying callees.

ghost use Rattle.std.specs.Prelude.{◌≡◌, false, length, option_copied, IfOk, MatchResult};
ghost use Rattle.txs_tree_eval_node.specs.Evaluated.{Allows, AnswersAt, miss_of, IsSwap, IsNoSwap, rerun_as, touched, thread_state, is_swap_to, sending, swap_gives};
ghost use Rattle.txs_tree_eval_node.specs.Events.{seen_event};
ghost use Rattle.txs_tree_eval_transaction.specs.Views.{plain_view, world_of};
ghost use Rattle.txs_tree_eval_transaction.specs.Worked.{Gives, of_one};
ghost use Rattle.txs_tree_meaning.specs.Right.{up_to};
ghost use Rattle.txs_tree_meaning.specs.Thread.{ThreadState, reads, resets, sends, sends_or_holds, is_retry};

use crate::seen::Seen;
use crate::state::Progress;
use std::alloc::AllocError;
use txs_tree_eval_transaction::{RefView, ThreadStop, TxWork};
use txs_value_cell::{Action, Arguments};
use txs_value_data::{Callee, CellId, Fault, FaultKind, Span, Value};
use txs_world_protocol::{Cause, EventKind, same_action, same_cell, same_value};

/// How often a transaction is tried.
pub(crate) const TRIES: u16 = 10_000;

/// Whether an event says that a transaction had to run again.
pub(crate) fn is_retry(kind: &EventKind) -> bool
    ensures { result ≡ is_retry kind.now }
{
    match kind {
        EventKind::Retry { .. } => true,
        _ => false,
    }
}

/// What a body did with the ref of this number.
#[derive(Clone, Copy)]
pub(crate) enum Touch {
    /// It set or ensured it.
    Held(u16),
    /// It commuted it, and didn't set it.
    Redone(u16),
}

/// Why a body had to run again.
#[derive(Clone, Copy)]
pub(crate) enum Rerun {
    /// At its read point the value of the ref with this number was no longer kept.
    Outdated(u16),
    /// For what it did.
    Touched(Touch),
    /// The event says something else.
    Other,
}

/// Why a body had to run again, as the event says.
pub(crate) fn rerun_as(kind: &EventKind) -> Rerun
    ensures { result ≡ rerun_as kind.now }
{
    match kind {
        EventKind::Retry { cell, cause, .. } => match cause {
            Cause::Outdated => Rerun::Outdated(cell.number),
            Cause::Held => Rerun::Touched(Touch::Held(cell.number)),
            Cause::Commuted { .. } => Rerun::Touched(Touch::Redone(cell.number)),
        },
        _ => Rerun::Other,
    }
}

/// Whether a body did this.
fn is_touched(touch: Touch, work: &TxWork) -> Result<bool, AllocError>
    ensures { IfOk result (λ b. b ≡ touched touch work.now.done) }
{
    match touch {
        Touch::Held(number) => work.is_held(number),
        Touch::Redone(number) => work.is_redone(number),
    }
}

/// A body that had to run again for this did it.
pub(crate) fn has_touched(touch: Touch, work: &TxWork) -> Result<(), ThreadStop>
    ensures { Allows result (touched touch work.now.done) }
{
    let there = is_touched(touch, work)?;
    if there {
        Ok(())
    } else {
        Err(ThreadStop::Wrong)
    }
}

/// A body that gave this came to look at what its world lacks: it waits, and there is nothing else that it could wait for.
pub(crate) fn has_missed(given: Result<Value, ThreadStop>) -> Result<(), ThreadStop>
    ensures { result ≡ miss_of given }
{
    match given {
        Ok(value) => {
            drop(value);
            Err(ThreadStop::Wrong)
        }
        Err(ThreadStop::Fault(_)) => Err(ThreadStop::Wrong),
        Err(ThreadStop::Event | ThreadStop::Wrong) => Ok(()),
        Err(ThreadStop::Turns) => Err(ThreadStop::Turns),
        Err(ThreadStop::Memory) => Err(ThreadStop::Memory),
    }
}

/// Whether an event is a swap to the value.
fn is_swap_to(kind: &EventKind, value: &Value) -> bool
    ensures { result ≡ is_swap_to value.now kind.now }
{
    match kind {
        EventKind::Swap { new } => same_value(value, new),
        _ => false,
    }
}

/// What a send is to an event.
#[derive(Clone, Copy)]
pub(crate) enum Sending {
    /// The event says that it was sent.
    Sent,
    /// The event says that its agent refused it.
    Refused,
    /// The event says something else.
    Other,
}

/// What a send of the action is to an event.
fn sent_as(kind: &EventKind, action: &Action) -> Sending
    ensures { result ≡ sending action.now kind.now }
{
    match kind {
        EventKind::Send { action: sent } if same_action(action, sent) => Sending::Sent,
        EventKind::SendRefused { agent } if same_cell(action.agent, *agent) => Sending::Refused,
        _ => Sending::Other,
    }
}

/// What a swap gives at its event, where the callee gave this: the value that the event names, none at a broken swap, which
/// alone may fault.
pub(crate) fn end_swap(
    given: Result<Value, ThreadStop>,
    new: Option<&Value>,
) -> Result<Value, ThreadStop>
    ensures { result ≡ swap_gives given (option_copied new.entry) }
{
    match new {
        Some(new) => match given {
            Ok(value) => {
                if !same_value(&value, new) {
                    return Err(ThreadStop::Wrong);
                }
                Ok(value)
            }
            Err(stop) => Err(stop.without_fault()),
        },
        None => match given {
            Ok(value) => {
                drop(value);
                Err(ThreadStop::Wrong)
            }
            Err(stop) => Err(stop),
        },
    }
}

impl<'a> Progress<'a> {
    /// `send` of this callee with these arguments: a thread's is at its event, an action's is held and gives the agent.
    pub(crate) fn send(
        &mut self,
        agent: CellId,
        callee: Callee,
        args: Vec<Value>,
        span: Span,
    ) -> Result<Value, ThreadStop>
        ensures { Gives false result (thread_state self.new) (up_to (thread_state self.old)
            (sends_or_holds (thread_state self.old).held (record { agent = agent; callee = callee; args = args.items; span = span }) span (thread_state self.old))) }
    {
        match &mut self.held {
            Some(held) => {
                let args = Arguments::from_vec(args)?;
                held.push(Action {
                    agent,
                    callee,
                    args,
                    span,
                })?;
                Ok(Value::Cell(agent))
            }
            None => {
                let event = self.next(0)?;
                self.eat(send_at(event, agent, callee, args, span))
            }
        }
    }
}

/// `swap!` at its event, a swap or a broken one: the world that has its atom's value, and the value that a swap names.
pub(crate) fn swap_at<'a>(event: &Seen<'a>) -> Result<(RefView<'a>, Option<&'a Value>), ThreadStop>
    ensures { MatchResult result
        (λ s. IsSwap (seen_event event.now) (plain_view s.0) (option_copied s.1))
        (λ y. IsNoSwap (seen_event event.now) y) }
{
    match event.kind {
        EventKind::Swap { new } => Ok((event.here, Some(new))),
        EventKind::Broke { .. } => Ok((event.start, None)),
        _ => Err(ThreadStop::Wrong),
    }
}

/// A read at its event, which is one of the cell: the value at that event's place.
pub(crate) fn read_at(event: &Seen<'_>, cell: CellId) -> Result<Value, ThreadStop>
    ensures { (t : ThreadState) → AnswersAt result t (reads cell event.now.kind.now (world_of (plain_view event.now.here)) t) }
{
    match event.kind {
        EventKind::Read { cell: other } => {
            if !same_cell(cell, *other) {
                return Err(ThreadStop::Wrong);
            }
            Ok(event.here.read(cell.number)?)
        }
        _ => Err(ThreadStop::Wrong),
    }
}

/// `reset!` at its event, which is a swap to the one value among the arguments: that value.
pub(crate) fn reset_at(event: &Seen<'_>, mut args: Vec<Value>) -> Result<Value, ThreadStop>
    requires { length args.items ≡ 1 }
    ensures { (t : ThreadState) → AnswersAt result t (of_one (λ v. resets v event.now.kind.now t) args.items) }
{
    match args.pop() {
        Some(value) => {
            if !is_swap_to(event.kind, &value) {
                return Err(ThreadStop::Wrong);
            }
            Ok(value)
        }
        None => unreachable!(),
    }
}

/// `send` of this callee with these arguments at its event: a send of that action gives the agent, a refusal by the agent
/// faults.
pub(crate) fn send_at(
    event: &Seen<'_>,
    agent: CellId,
    callee: Callee,
    args: Vec<Value>,
    span: Span,
) -> Result<Value, ThreadStop>
    ensures { (t : ThreadState) → AnswersAt result t
        (sends (record { agent = agent; callee = callee; args = args.items; span = span }) span event.now.kind.now t) }
{
    let args = Arguments::from_vec(args)?;
    let sending = sent_as(
        event.kind,
        &Action {
            agent,
            callee,
            args,
            span,
        },
    );
    match sending {
        Sending::Sent => Ok(Value::Cell(agent)),
        Sending::Refused => Err(ThreadStop::Fault(Fault {
            kind: FaultKind::AgentFailed,
            span,
        })),
        Sending::Other => Err(ThreadStop::Wrong),
    }
}
