//! How an action ends, against its act: what its callee means, and what the agent's validator says of that.

ghost use Rattle.std.specs.Prelude.{◌≡◌, ◌==◌, ◌+◌, ◌^◌, ◌<◌, ◌∷◌, List, length, Some, Ok, Err, IfOk};
ghost use Rattle.txs_tree_meaning.specs.Known.{known};
ghost use Rattle.txs_tree_meaning.specs.Pure.{PureCallee};
ghost use Rattle.txs_tree_meaning.specs.View.{functions_of, program_of};
ghost use Rattle.txs_world_protocol.specs.Ask.{same_new};
ghost use Rattle.txs_value_data.specs.declared.value.Value.{Value as AnyValue};
ghost use Rattle.txs_value_data.specs.Places.{fault_at};
ghost use Rattle.txs_value_cell.specs.Cells.{validator_at, validators_of};
ghost use Rattle.txs_value_apply.specs.Truth.{choose};
ghost use Rattle.txs_tree_eval.specs.declared.pure_call.EvalStop.TheVariants.{Fault as StopFault};
ghost use Rattle.txs_value_data.specs.declared.fault.Fault.{Fault as AFault};
ghost use Rattle.txs_value_data.specs.declared.fault.FaultKind.TheVariants.{AgentFailed, InvalidState};
ghost use Rattle.txs_world_book.specs.Book.{first_failed};
ghost use Rattle.txs_world_book.specs.declared.cell.StoreCell.{StoreCell};
ghost use Rattle.txs_world_protocol.specs.declared.event.Event.{Event as PlainEvent};
ghost use Rattle.txs_theorem_audit.specs.Audited.{and_then, check};
ghost use Rattle.txs_theorem_audit.specs.Verdict.{is_booked, same_numbers};
ghost use Rattle.txs_theorem_audit.specs.Evaluated.{act_by, answer_in, end_of_state, fault_in, judged_by, rest_full_by, still_by};
ghost use Rattle.txs_audit_book.specs.Judged.{AcceptedBy, CalleeGives, EndsBy, ValueEnds, as_end, as_found, is_no_memory, new_value, new_fault};

use crate::ends::{same_bytes, same_fault};
use crate::finding::{Finding, check};
use std::alloc::{AllocError, Global};
use txs_frame::validator_of;
use txs_tree_eval::{ActionMeaning, EvalStop, Needs, eval_pure};
use txs_tree_meaning::Program;
use txs_value_apply::is_false;
use txs_value_cell::Action;
use txs_value_data::{Callee, CellId, Fault, FaultKind, Span, Value, copy_value};
use txs_world_book::sends_nothing;
use txs_world_protocol::{same_actions, same_value};

/// How an action ends: it hands this in, it lacks an event or turns, or it doesn't allow an event.
#[derive(Drop)]
pub enum ActionEnd {
    HandedIn(Result<Value, Fault>),
    LacksEvent,
    LacksTurns,
    Disallows,
}

/// The part of an actor's trace that is an action's: the actor, the index of the first of its events, how many these are, and the index
/// behind them.
#[derive(Clone, Copy)]
pub struct Stretch {
    pub actor: u16,
    pub first: usize,
    pub events: usize,
    pub index: usize,
}

/// The agent's state and the action's values.
fn with_state(alloc: Global, state: &Value, args: &[Value]) -> Result<Vec<Value>, AllocError>
    ensures { IfOk result (λ vs. vs.items ≡ state.now ∷ args.now) }
{
    let mut values = Vec::new(alloc);
    values.push(copy_value(state)?)?;
    for arg in args {
        values.push(copy_value(arg)?)?;
    }
    Ok(values)
}

/// The fault of an operation as callee is where the action was sent.
fn fault_in(callee: Callee, span: Span, fault: Fault) -> Fault
    ensures { result ≡ fault_in callee span fault }
{
    match callee {
        Callee::Core(_) => Fault {
            kind: fault.kind,
            span,
        },
        Callee::Function(_) => fault,
    }
}

/// Whether an action came to this value.
fn is_value(value: &Value, new: &Result<Value, Fault>) -> bool
    ensures { result ≡ new_value value.now new.now }
{
    match new {
        Ok(new) => same_value(value, new),
        Err(_) => false,
    }
}

/// Whether an action came to this fault.
fn is_fault(fault: Fault, new: &Result<Value, Fault>) -> bool
    ensures { result ≡ new_fault fault new.now }
{
    match new {
        Ok(_) => false,
        Err(new) => same_fault(fault, *new),
    }
}

/// What is answered of a callee, whose fault is where the action was sent if it is an operation's.
fn answer_in(callee: Callee, span: Span, given: Result<Value, EvalStop>) -> Result<Value, EvalStop>
    ensures { result ≡ answer_in callee span given }
{
    match given {
        Ok(value) => Ok(value),
        Err(EvalStop::Fault(fault)) => Err(EvalStop::Fault(fault_in(callee, span, fault))),
        Err(EvalStop::Turns) => Err(EvalStop::Turns),
        Err(EvalStop::Memory) => Err(EvalStop::Memory),
    }
}

/// The fault of a value that a validator refuses.
fn refusal(span: Span) -> Fault
    ensures { result ≡ fault_at InvalidState span }
{
    Fault {
        kind: FaultKind::InvalidState,
        span,
    }
}

/// A value, where this answer of a validator accepts it: nil and false refuse it.
fn chosen(answer: &Value, span: Span, value: Value) -> Result<Value, EvalStop>
    ensures { result ≡ choose answer.now (Ok value) (Err (StopFault (fault_at InvalidState span))) }
{
    if is_false(answer) {
        drop(value);
        return Err(EvalStop::Fault(refusal(span)));
    }
    Ok(value)
}

/// A value, where what is answered of its validator accepts it.
fn judged_by(span: Span, value: Value, given: Result<Value, EvalStop>) -> Result<Value, EvalStop>
    ensures { result ≡ judged_by span value given }
{
    match given {
        Ok(answer) => chosen(&answer, span, value),
        Err(stop) => {
            drop(value);
            Err(stop)
        }
    }
}

/// Whether there was no memory.
fn is_no_memory(given: &Result<Value, EvalStop>) -> bool
    ensures { result ≡ is_no_memory given.now }
{
    match given {
        Err(EvalStop::Memory) => true,
        _ => false,
    }
}

/// What is answered of a callee on these values.
fn answered(
    alloc: Global,
    program: &Program,
    turns: u32,
    callee: Callee,
    values: &[Value],
) -> Result<Result<Value, EvalStop>, AllocError>
    requires { PureCallee (known (functions_of program.now.functions)) callee (length values.now) }
    ensures { IfOk result (λ q. CalleeGives turns (functions_of program.now.functions) callee values.now q) }
{
    let given = eval_pure(alloc, program, callee, values, turns);
    if is_no_memory(&given) {
        return Err(AllocError);
    }
    Ok(given)
}

/// A value, where this validator accepts it.
fn accepted(
    alloc: Global,
    program: &Program,
    turns: u32,
    callee: Callee,
    span: Span,
    value: Value,
) -> Result<Result<Value, EvalStop>, AllocError>
    requires { PureCallee (known (functions_of program.now.functions)) callee 1 }
    ensures { IfOk result (λ s. AcceptedBy (program_of program.now) turns (Some callee) span value s) }
{
    let values = with_state(alloc, &value, &[])?;
    let given = answered(alloc, program, turns, callee, values.as_slice())?;
    let answer = answer_in(callee, span, given);
    Ok(judged_by(span, value, answer))
}

/// A value, where the validator of this agent accepts it, if it has one.
fn checked(
    alloc: Global,
    program: &Program,
    turns: u32,
    agent: CellId,
    span: Span,
    value: Value,
) -> Result<Result<Value, EvalStop>, AllocError>
    ensures { IfOk result (λ s. AcceptedBy (program_of program.now) turns (validator_at (validators_of program.now.cells) agent.number) span value s) }
{
    match validator_of(program.cells(), agent.number) {
        None => Ok(Ok(value)),
        Some(callee) => {
            program.is_sound();
            accepted(alloc, program, turns, callee, span, value)
        }
    }
}

/// How an action ends, by what is answered of the agent's validator on its value.
fn end_of_state(state: Result<Value, EvalStop>) -> Result<ActionEnd, AllocError>
    ensures { IfOk result (λ e. as_end e ≡ end_of_state state) }
{
    match state {
        Ok(value) => Ok(ActionEnd::HandedIn(Ok(value))),
        Err(EvalStop::Fault(fault)) => Ok(ActionEnd::HandedIn(Err(fault))),
        Err(EvalStop::Turns) => Ok(ActionEnd::LacksTurns),
        Err(EvalStop::Memory) => Err(AllocError),
    }
}

/// How an action ends that has this value, which the agent's validator has to accept.
fn value_end(
    alloc: Global,
    program: &Program,
    turns: u32,
    action: &Action,
    value: &Value,
) -> Result<ActionEnd, AllocError>
    ensures { IfOk result (λ e. ValueEnds (program_of program.now) turns action.now value.now (as_end e)) }
{
    let copy = copy_value(value)?;
    let state = checked(alloc, program, turns, action.agent, action.span, copy)?;
    end_of_state(state)
}

/// How an action ends of which this is answered: a value is one that the agent's validator has to accept.
///
/// # Errors
/// `AllocError` where there was no memory for what the validator means.
pub fn action_end(
    alloc: Global,
    program: &Program,
    turns: u32,
    action: &Action,
    meaning: &ActionMeaning,
) -> Result<ActionEnd, AllocError>
    ensures { IfOk result (λ e. EndsBy (program_of program.now) turns action.now meaning.now (as_end e)) }
{
    match meaning.needs {
        Needs::Nothing => match &meaning.result {
            Some(Ok(value)) => value_end(alloc, program, turns, action, value),
            Some(Err(fault)) => Ok(ActionEnd::HandedIn(Err(*fault))),
            None => Ok(ActionEnd::Disallows),
        },
        Needs::Event => Ok(ActionEnd::LacksEvent),
        Needs::Turns => Ok(ActionEnd::LacksTurns),
        Needs::Wrong => Ok(ActionEnd::Disallows),
    }
}

/// The fault of an action of whose sends an agent has failed.
fn failure(span: Span) -> Fault
    ensures { result ≡ fault_at AgentFailed span }
{
    Fault {
        kind: FaultKind::AgentFailed,
        span,
    }
}

/// Whether an act has this value and these sends; where an agent of theirs had failed, the fault of that and none.
fn is_booked(
    failed: Option<CellId>,
    span: Span,
    value: &Value,
    held: &[Action],
    new: &Result<Value, Fault>,
    sends: &[Action],
) -> bool
    ensures { result ≡ is_booked failed span value.now held.now new.now sends.now }
{
    match failed {
        None => is_value(value, new) && same_actions(held, sends),
        Some(_) => is_fault(failure(span), new) && sends_nothing(sends),
    }
}

/// Fine where an action ate so many events and this holds.
fn eaten_and(stretch: Stretch, eaten: usize, at: usize, holds: bool) -> Finding
    ensures { as_found result ≡ and_then (check (eaten == stretch.events) stretch.actor at) (check holds stretch.actor stretch.index) }
{
    let all = check(eaten == stretch.events, stretch.actor, at);
    all.and_then(check(holds, stretch.actor, stretch.index))
}

/// What is found of an action that is over, of which this is answered and which ends so, against its act. The failed agent is that of
/// the first of its sends whose agent had failed.
pub fn act_ends(
    stretch: Stretch,
    span: Span,
    failed: Option<CellId>,
    meaning: &ActionMeaning,
    end: &ActionEnd,
    new: &Result<Value, Fault>,
    sends: &[Action],
) -> Finding
    requires { stretch.first + meaning.now.eaten < 2 ^ 64 }
    ensures { (cells : List StoreCell) (done : List PlainEvent) → first_failed cells done meaning.now.sends ≡ failed
        → as_found result ≡ act_by cells done span stretch.actor stretch.first stretch.index stretch.events meaning.now.eaten meaning.now.sends new.now sends.now (as_end end.now) }
{
    let eaten = meaning.eaten;
    let at = stretch.first + eaten;
    match end {
        ActionEnd::HandedIn(Ok(value)) => {
            let held = meaning.sends.as_slice();
            let booked = is_booked(failed, span, value, held, new, sends);
            eaten_and(stretch, eaten, at, booked)
        }
        ActionEnd::HandedIn(Err(fault)) => {
            let booked = is_fault(*fault, new) && sends_nothing(sends);
            eaten_and(stretch, eaten, at, booked)
        }
        ActionEnd::LacksEvent => Finding::Off(stretch.actor, stretch.index),
        ActionEnd::LacksTurns => Finding::Short(stretch.actor, at),
        ActionEnd::Disallows => Finding::Off(stretch.actor, at),
    }
}

/// What is found of an action that isn't over, of which this is answered and which ends so, where it is known whether it printed a
/// part of what it prints.
pub fn still_ends(stretch: Stretch, meaning: &ActionMeaning, end: &ActionEnd, part: bool) -> Finding
    requires { stretch.first + meaning.now.eaten < 2 ^ 64 }
    ensures { as_found result ≡ still_by stretch.actor stretch.first stretch.index stretch.events meaning.now.eaten part (as_end end.now) }
{
    let eaten = meaning.eaten;
    let at = stretch.first + eaten;
    match end {
        ActionEnd::HandedIn(_) | ActionEnd::LacksEvent => eaten_and(stretch, eaten, at, part),
        ActionEnd::LacksTurns => {
            if eaten == stretch.events && part {
                return Finding::Fine;
            }
            Finding::Short(stretch.actor, at)
        }
        ActionEnd::Disallows => Finding::Off(stretch.actor, at),
    }
}

/// The same where its agent's actor was stopped for a full book and printed this. The store's book is full or not, and the event that
/// the action lacks, if it does, would be one of a full book or not.
pub fn full_ends(
    stretch: Stretch,
    meaning: &ActionMeaning,
    end: &ActionEnd,
    out: &[u8],
    store: bool,
    full: bool,
) -> Finding
    requires { stretch.first + meaning.now.eaten < 2 ^ 64 }
    ensures { as_found result ≡ rest_full_by stretch.actor stretch.first stretch.index stretch.events meaning.now.eaten store full (same_numbers out.now meaning.now.printed) (as_end end.now) }
{
    let eaten = meaning.eaten;
    let behind = stretch.first + eaten;
    let just = same_bytes(out, meaning.printed.as_slice());
    match end {
        ActionEnd::HandedIn(_) => eaten_and(stretch, eaten, behind, store && just),
        ActionEnd::LacksEvent => eaten_and(stretch, eaten, behind, full && just),
        ActionEnd::LacksTurns => Finding::Short(stretch.actor, behind),
        ActionEnd::Disallows => Finding::Off(stretch.actor, behind),
    }
}
