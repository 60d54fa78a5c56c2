//! Turns of an agent in its own body: it takes an action, runs it, and hands in its value.

ghost use Rattle.std.specs.Prelude.{◌≡◌, ◌<◌, ◌∷◌, [], true, length, Some, None};
ghost use Rattle.txs_code_meaning.specs.Machine.{fault_in};
ghost use Rattle.txs_machine_actor.specs.PlainActor.{Lives, unanswered};
ghost use Rattle.txs_machine_transaction.specs.Roles.{acting_of};
ghost use Rattle.txs_machine_actor.specs.Turns.{Turns, IsAttending, AnswersForAtOnce, BeginsJudging, CanAttend, AttendsSo, CanBegin, CanCheck, CanHandIn, CanJudge, GivesFor, HandedBy, Hands, HandsInBy, IsLook, JudgesFor, Raises, agent_in, finish_check, taken, without_last};
ghost use Rattle.txs_machine_actor.specs.declared.outcome.Turn.TheVariants as turned;
ghost use Rattle.txs_machine_loop.specs.Values.{last_of};
ghost use Rattle.txs_value_apply.specs.Core.{core, takes};
ghost use Rattle.txs_value_cell.specs.Cells.{validators_of};
ghost use Rattle.txs_value_data.specs.declared.value.CellId.{CellId as ACell};
ghost use Rattle.txs_value_data.specs.declared.value.Value.{Value as AValue};

use crate::judge::{alone, check_of, judged, judging_stack};
use txs_code_meaning::Verified;
use txs_machine_actor::actor::tell;
use txs_machine_actor::{Actor, Turn};
use txs_machine_transaction::{Pending, Role};
use txs_value_cell::{Action, CellDefinition};
use txs_value_data::{Callee, Fault, FaultKind, Op, Span, Stop, Value};
use txs_world_protocol::Outcome;

/// The validator of the agent of an action, if it has one, and where the action's send is.
fn action_check(cells: &[CellDefinition], action: &Action) -> Option<(Callee, Span)>
    ensures { (v : AValue) → IsLook result v (finish_check (validators_of cells.now) (Some action.now) v) }
{
    check_of(cells, action.agent.number, action.span)
}

/// An instruction of the agent's own body: the action that was taken is run, an operation at once, a function in turns of
/// its own.
fn attend_at(actor: &mut Actor, code: &Verified, turn: &mut Turn)
    requires can { CanAttend code.now actor.old actor.old.place }
    requires went { turn.old ≡ turned.Went }
    ensures { AttendsSo code.now actor.old actor.old.place turn.new actor.new }
{
    let at = actor.stack().place();
    if at == 0 {
        match actor.agent_in() {
            Some(agent) => actor.ask(Pending::Take(agent), turn),
            None => unreachable!(),
        }
        return;
    }
    if at == 1 {
        let Role::Attending {
            acting: Some(acting),
            ..
        } = actor.role()
        else {
            unreachable!();
        };
        let action = acting.action();
        let (callee, span) = (action.callee, action.span);
        match callee {
            Callee::Core(op) => actor.run_operation(op, span, turn),
            Callee::Function(f) => match actor.action_stack(code, f) {
                Ok(stack) => actor.begin_acting(stack),
                Err(_) => actor.end(Outcome::Memory, turn),
            },
        }
        return;
    }
    hand_action(actor, code, turn);
}

/// The action is over: the fault that it met is handed in, or else its value.
#[tactic(auto, using(txs_machine_actor::proofs::Holding::hands_value, txs_machine_actor::proofs::Holding::checks_value, txs_machine_actor::proofs::Holding::value_handed, txs_machine_actor::proofs::Holding::fault_handed))]
fn hand_action(actor: &mut Actor, code: &Verified, turn: &mut Turn)
    requires attending { (g : ACell) × (agent_in actor.old.role ≡ Some g) }
    requires can { CanHandIn code.now actor.old (fault_in (acting_of actor.old.role)) }
    requires went { turn.old ≡ turned.Went }
    ensures { HandsInBy code.now actor.old (fault_in (acting_of actor.old.role)) turn.new actor.new }
{
    match actor.role().fault() {
        Some(fault) => actor.give_fault(fault, turn),
        None => hand_value(actor, code, turn),
    }
}

/// The agent's new value is handed in, where its validator accepts it, if it has one.
fn hand_value(actor: &mut Actor, code: &Verified, turn: &mut Turn)
    requires value { 0 < length actor.old.values }
    requires attending { (g : ACell) × (agent_in actor.old.role ≡ Some g) }
    requires can { CanCheck code.now (finish_check (validators_of code.now.cells) (taken actor.old.role) (last_of actor.old.values)) }
    requires went { turn.old ≡ turned.Went }
    ensures { Hands code.now actor.old (finish_check (validators_of code.now.cells) (taken actor.old.role) (last_of actor.old.values)) turn.new actor.new }
{
    match agent_check(actor, code) {
        None => give(actor, turn),
        Some(check) => hand_checked(actor, code, check, turn),
    }
}

/// The same by what that validator answered.
fn hand_checked(actor: &mut Actor, code: &Verified, check: (Callee, Span), turn: &mut Turn)
    requires value { 0 < length actor.old.values }
    requires attending { (g : ACell) × (agent_in actor.old.role ≡ Some g) }
    requires judges { CanJudge code.now check.0 }
    requires went { turn.old ≡ turned.Went }
    ensures { HandedBy code.now actor.old (record { callee = check.0; value = last_of actor.old.values; span = check.1 }) actor.old.accepted turn.new actor.new }
{
    let Some(accepts) = actor.accepted() else {
        judge_for(actor, code, check.0, check.1, turn);
        return;
    };
    actor.set_accepted(None);
    if accepts {
        give(actor, turn);
        return;
    }
    raise_for(actor, FaultKind::InvalidState, check.1, turn);
}

/// What an action came to is a fault, and its agent keeps no value of it.
fn raise_for(actor: &mut Actor, kind: FaultKind, span: Span, turn: &mut Turn)
    requires value { 0 < length actor.old.values }
    requires went { turn.old ≡ turned.Went }
    ensures { Raises (without_last actor.old) (record { kind = kind; span = span }) turn.new actor.new }
{
    drop(actor.take_last());
    actor.raise(Fault { kind, span }, turn);
}

/// The validator that looks at the agent's new value, if there is one, and where the action's send is.
fn agent_check(actor: &Actor, code: &Verified) -> Option<(Callee, Span)>
    ensures { (v : AValue) → IsLook result v (finish_check (validators_of code.now.cells) (taken actor.now.role) v) }
{
    match actor.role() {
        Role::Attending {
            acting: Some(acting),
            ..
        } => action_check(code.code().cells(), acting.action()),
        _ => None,
    }
}

/// The value at the top is handed in, with the sends that the action holds.
fn give(actor: &mut Actor, turn: &mut Turn)
    requires value { 0 < length actor.old.values }
    requires attending { (g : ACell) × (agent_in actor.old.role ≡ Some g) }
    requires went { turn.old ≡ turned.Went }
    ensures { GivesFor actor.old (agent_in actor.old.role) turn.new actor.new }
{
    let Some(agent) = actor.agent_in() else {
        unreachable!();
    };
    let value = actor.take_last();
    match actor.role().copy_held(actor.alloc()) {
        Ok(sends) => actor.ask(Pending::Finish(agent, Ok((value, sends))), turn),
        Err(_) => {
            drop(value);
            actor.end(Outcome::Memory, turn);
        }
    }
}

/// The agent's validator looks at its new value: an operation at once, a function in turns of its own.
fn judge_for(actor: &mut Actor, code: &Verified, callee: Callee, span: Span, turn: &mut Turn)
    requires value { 0 < length actor.old.values }
    requires can { CanJudge code.now callee }
    requires went { turn.old ≡ turned.Went }
    ensures { JudgesFor code.now actor.old callee (last_of actor.old.values) span turn.new actor.new }
{
    let Ok(values) = alone(actor.alloc(), actor.stack().last()) else {
        actor.end(Outcome::Memory, turn);
        return;
    };
    match callee {
        Callee::Core(op) => judge_for_at_once(actor, op, values, span, turn),
        Callee::Function(f) => judge_for_by_function(actor, code, f, values, turn),
    }
}

/// The same of a validator that is an operation.
fn judge_for_at_once(actor: &mut Actor, op: Op, values: Vec<Value>, span: Span, turn: &mut Turn)
    requires value { 0 < length actor.old.values }
    requires takes { takes op (length values.items) ≡ true }
    requires went { turn.old ≡ turned.Went }
    ensures { AnswersForAtOnce actor.old span (core op values.items) turn.new actor.new }
{
    let stop = match judged(actor.alloc(), op, values) {
        Ok(accepts) => {
            actor.set_accepted(Some(accepts));
            return;
        }
        Err(stop) => stop,
    };
    match stop {
        Stop::Fault(kind) => raise_for(actor, kind, span, turn),
        Stop::Memory => actor.end(Outcome::Memory, turn),
    }
}

/// The same of one that is a function.
fn judge_for_by_function(
    actor: &mut Actor,
    code: &Verified,
    f: u16,
    values: Vec<Value>,
    turn: &mut Turn,
)
    requires can { CanBegin code.now f (length values.items) }
    requires went { turn.old ≡ turned.Went }
    ensures { (v : AValue) → values.items ≡ v ∷ [] → BeginsJudging code.now actor.old f v turn.new actor.new }
{
    let Ok(stack) = judging_stack(actor.alloc(), code, f, values) else {
        actor.end(Outcome::Memory, turn);
        return;
    };
    actor.begin_judging(stack);
}

/// A turn in the agent's own body.
#[inline(never)]
pub(crate) fn attend(actor: &mut Actor, code: &Verified, turn: &mut Turn)
    requires lives { Lives code.now actor.old }
    requires attending { IsAttending actor.old.role }
    requires answered { unanswered actor.old ≡ None }
    requires went { turn.old ≡ turned.Went }
    ensures turns { Turns code.now actor.old turn.new actor.new }
    ensures lives { Lives code.now actor.new }
{
    if let Some(outcome) = actor.over() {
        tell(turn, Turn::Ended(outcome));
        return;
    }
    actor.count();
    attend_at(actor, code, turn);
}
