//! Validators: they look at a value before it is written. An operation does so at once, a function in turns of its own.

ghost use Rattle.std.specs.Prelude.{◌≡◌, ◌<◌, ◌∷◌, [], true, false, length, IfOk, IfSome, IsTrue, Some, None};
ghost use Rattle.txs_code_meaning.specs.declared.instr.Instr.TheVariants.{Put as APut, Close as AClose};
ghost use Rattle.txs_frame.specs.Frame.{PlainTxFrame as AFrame, commuted};
ghost use Rattle.txs_frame.specs.Phase.{tasks_of};
ghost use Rattle.txs_machine_actor.specs.Turns.{AnswersAtOnce, ByVerdict, CanBegin, CanCheck, CanEndBy, CanJudge, CanTask, CanTransact, EndsBy, EvaluatesOn, IsEndCheck, IsEvaluation, IsLook, IsNextLook, IsTaskLook, IsValidated, IsVerdict, Judges, Raises, TasksAs, Transacts, WritesValue, applied_on, at_tasks, begun_with, check_of, done_by, end_check, heeded, reset_check, swap_check, unjudged, work_in, write_check};
ghost use Rattle.txs_machine_actor.specs.declared.outcome.Turn.TheVariants as turned;
ghost use Rattle.txs_machine_loop.specs.Values.{last_of, under};
ghost use Rattle.txs_machine_transaction.specs.declared.state.Transaction.TheVariants.{Applying, Running};
ghost use Rattle.txs_value_apply.specs.Core.{core, takes};
ghost use Rattle.txs_value_data.specs.declared.fault.FaultKind.TheVariants.{InvalidState};
ghost use Rattle.txs_value_data.specs.declared.fault.Span.{Span as ASpan};
ghost use Rattle.txs_value_cell.specs.Cells.{validator_at, validators_of};
ghost use Rattle.txs_value_cell.specs.Forms.{rule, cell_of};
ghost use Rattle.txs_value_cell.specs.declared.form.CellForm.TheVariants as form;
ghost use Rattle.txs_value_cell.specs.declared.form.PutForm.TheVariants as put;
ghost use Rattle.txs_value_data.specs.declared.value.Value.{Value as AValue};

use crate::pace::end_as;
use std::alloc::{AllocError, Global};
use txs_code_meaning::{Instr, Verified};
use txs_frame::{Phase, TxFrame, validator_of};
use txs_machine_actor::actor::accepts;
use txs_machine_actor::{Actor, Turn};
use txs_machine_stack::{Stack, function_of};
use txs_machine_transaction::{Savepoint, Transaction};
use txs_value_apply::apply_owned;
use txs_value_cell::{CellDefinition, CellForm, PutForm, UpdateForm};
use txs_value_data::{Callee, Fault, FaultKind, Op, Span, Stop, Value, copy_value};
use txs_world_protocol::Outcome;

/// A list of this value alone, which both share.
pub(crate) fn alone(alloc: Global, value: &Value) -> Result<Vec<Value>, AllocError>
    ensures { IfOk result (λ vs. vs.items ≡ value.now ∷ []) }
{
    let mut values = Vec::with_capacity(alloc, 1)?;
    values.push_reserved(copy_value(value)?);
    Ok(values)
}

/// Whether a validator that is an operation accepts these values.
pub(crate) fn judged(alloc: Global, op: Op, values: Vec<Value>) -> Result<bool, Stop>
    requires { takes op (length values.items) ≡ true }
    ensures { IsVerdict result (core op values.items) }
{
    let mut values = values;
    match apply_owned(alloc, op, values.as_mut_slice()) {
        Ok(answer) => Ok(accepts(&answer)),
        Err(stop) => Err(stop),
    }
}

/// A stack in the body of this function, which is called on these values.
pub(crate) fn judging_stack(
    alloc: Global,
    code: &Verified,
    f: u16,
    values: Vec<Value>,
) -> Result<Stack, AllocError>
    requires { CanBegin code.now f (length values.items) }
    ensures { IfOk result (λ s. IsEvaluation code.now f values.items s) }
{
    let (body, most) = function_of(code, f);
    Stack::of_function(alloc, f, body, values, most)
}

/// The validator of the cell with this number, if it has one, and where its refusal is a fault.
pub(crate) fn check_of(cells: &[CellDefinition], number: u16, span: Span) -> Option<(Callee, Span)>
    ensures { (v : AValue) → IsLook result v (check_of (validator_at (validators_of cells.now) number) v span) }
{
    match validator_of(cells, number) {
        Some(callee) => Some((callee, span)),
        None => None,
    }
}

/// The validator of the atom of a swap, if one is applied here.
fn swap_check(cells: &[CellDefinition], tx: &Transaction) -> Option<(Callee, Span)>
    ensures { (v : AValue) → IsLook result v (swap_check (validators_of cells.now) tx.now v) }
{
    match tx {
        Transaction::Swapping { cell, from, .. } => check_of(cells, cell.number, from.span),
        _ => None,
    }
}

/// The validator that is the next of these tasks, if one is, and where its refusal is a fault.
fn task_check(phase: &Phase, span: Span) -> Option<(Callee, Span)>
    ensures { (w : AFrame) → IsTaskLook result phase.now.work phase.now.values w span }
{
    if phase.validates() {
        return match phase.callee() {
            Some(callee) => Some((callee, span)),
            None => None,
        };
    }
    None
}

/// The same of a transaction's end.
fn end_check(tx: &Transaction) -> Option<(Callee, Span)>
    ensures { (w : AFrame) → IsNextLook result tx.now w }
{
    match tx {
        Transaction::Applying { from, phase, .. } => task_check(phase, from.span),
        _ => None,
    }
}

/// The tasks of a transaction's end, if there are any and no ref is to be viewed before them.
fn first_tasks(
    alloc: Global,
    cells: &[CellDefinition],
    frame: &TxFrame,
) -> Result<Option<Phase>, AllocError>
    ensures some { IfOk result (λ o. IfSome o (λ p. (commuted frame.now ≡ []) × (0 < length p.work) × (p ≡ record { work = tasks_of (validators_of cells.now) frame.now; values = [] }))) }
    ensures none { IfOk result (λ o. o ≡ None → commuted frame.now ≡ [] → tasks_of (validators_of cells.now) frame.now ≡ []) }
{
    let refs = frame.commuted()?;
    if !refs.is_empty() {
        return Ok(None);
    }
    let phase = frame.phase(alloc, cells)?;
    match phase.callee() {
        Some(_) => Ok(Some(phase)),
        None => Ok(None),
    }
}

/// A validator is applied to these values.
fn judge(
    actor: &mut Actor,
    code: &Verified,
    callee: Callee,
    values: Vec<Value>,
    span: Span,
    turn: &mut Turn,
)
    requires one { length values.items ≡ 1 }
    requires can { CanJudge code.now callee }
    requires went { turn.old ≡ turned.Went }
    ensures { Judges code.now actor.old callee values.items span turn.new actor.new }
{
    match callee {
        Callee::Core(op) => judge_at_once(actor, op, values, span, turn),
        Callee::Function(f) => judge_by_function(actor, code, f, values, turn),
    }
}

/// The same of a validator that is an operation.
fn judge_at_once(actor: &mut Actor, op: Op, values: Vec<Value>, span: Span, turn: &mut Turn)
    requires takes { takes op (length values.items) ≡ true }
    requires went { turn.old ≡ turned.Went }
    ensures { AnswersAtOnce actor.old span (core op values.items) turn.new actor.new }
{
    let stop = match judged(actor.alloc(), op, values) {
        Ok(accepts) => {
            actor.set_accepted(Some(accepts));
            return;
        }
        Err(stop) => stop,
    };
    match stop {
        Stop::Fault(kind) => actor.raise(Fault { kind, span }, turn),
        Stop::Memory => actor.end(Outcome::Memory, turn),
    }
}

/// The same of one that is a function: it begins in a stack of its own.
fn judge_by_function(
    actor: &mut Actor,
    code: &Verified,
    f: u16,
    values: Vec<Value>,
    turn: &mut Turn,
)
    requires can { CanBegin code.now f (length values.items) }
    requires went { turn.old ≡ turned.Went }
    ensures { EvaluatesOn code.now actor.old f values.items turn.new actor.new }
{
    let Ok(stack) = judging_stack(actor.alloc(), code, f, values) else {
        actor.end(Outcome::Memory, turn);
        return;
    };
    actor.put_aside(stack);
}

/// A validator has refused a value, which is a fault here.
fn refuse(actor: &mut Actor, span: Span, turn: &mut Turn)
    requires went { turn.old ≡ turned.Went }
    ensures { Raises (unjudged actor.old) (record { kind = InvalidState; span = span }) turn.new actor.new }
{
    actor.set_accepted(None);
    let kind = FaultKind::InvalidState;
    actor.raise(Fault { kind, span }, turn);
}

// ---- atoms

/// What looks at the value that a `reset!` writes, if its atom has a validator.
fn reset_look(actor: &Actor, cells: &[CellDefinition], span: Span) -> Option<(Callee, Span)>
    requires { 1 < length actor.now.values }
    ensures { (v : AValue) → IsLook result v (reset_check (validators_of cells.now) (cell_of (rule (form.Put put.Reset)) false (under 1 actor.now.values)) v span) }
{
    let form = CellForm::Put(PutForm::Reset);
    match form.cell_of(false, actor.stack().under(1)) {
        Ok(cell) => check_of(cells, cell.number, span),
        Err(_) => None,
    }
}

/// The same of a form that puts a value.
fn put_look(
    actor: &Actor,
    cells: &[CellDefinition],
    form: PutForm,
    span: Span,
) -> Option<(Callee, Span)>
    requires { CanTransact actor.now (APut form) }
    ensures { IsLook result (last_of actor.now.values) (write_check (validators_of cells.now) actor.now (APut form) span) }
{
    match form {
        PutForm::Reset => reset_look(actor, cells, span),
        PutForm::RefSet => None,
    }
}

/// What looks at the value that a swap writes, if one is applied and its atom has a validator.
fn swap_look(actor: &Actor, cells: &[CellDefinition]) -> Option<(Callee, Span)>
    ensures { (v : AValue) → IsLook result v (swap_check (validators_of cells.now) actor.now.tx v) }
{
    match actor.tx() {
        Some(tx) => swap_check(cells, tx),
        None => None,
    }
}

/// The same of a form that closes an update.
fn close_look(actor: &Actor, cells: &[CellDefinition], form: UpdateForm) -> Option<(Callee, Span)>
    ensures { (span : ASpan) → IsLook result (last_of actor.now.values) (write_check (validators_of cells.now) actor.now (AClose form) span) }
{
    match form {
        UpdateForm::Swap => swap_look(actor, cells),
        _ => None,
    }
}

/// What looks at the value that a `reset!` or a swap that closes writes, if its atom has a validator, and where its refusal is a
/// fault.
#[inline(always)]
fn write_check(
    actor: &Actor,
    cells: &[CellDefinition],
    instr: Instr,
    span: Span,
) -> Option<(Callee, Span)>
    requires { CanTransact actor.now instr }
    ensures { IsLook result (last_of actor.now.values) (write_check (validators_of cells.now) actor.now instr span) }
{
    match instr {
        Instr::Put(form) => put_look(actor, cells, form, span),
        Instr::Close(form) => close_look(actor, cells, form),
        _ => None,
    }
}

/// The value at the top is looked at by this validator.
fn judge_last(actor: &mut Actor, code: &Verified, callee: Callee, span: Span, turn: &mut Turn)
    requires value { 0 < length actor.old.values }
    requires can { CanJudge code.now callee }
    requires went { turn.old ≡ turned.Went }
    ensures { Judges code.now actor.old callee (last_of actor.old.values ∷ []) span turn.new actor.new }
{
    match alone(actor.alloc(), actor.stack().last()) {
        Ok(values) => judge(actor, code, callee, values, span, turn),
        Err(_) => actor.end(Outcome::Memory, turn),
    }
}

/// The same, by what the validator answered: the value is written once it is accepted, and else a fault.
#[cold]
#[inline(never)]
fn write_checked(
    actor: &mut Actor,
    code: &Verified,
    check: (Callee, Span),
    instr: Instr,
    span: Span,
    next: usize,
    turn: &mut Turn,
)
    requires can { CanTransact actor.old instr }
    requires value { 0 < length actor.old.values }
    requires judges { CanJudge code.now check.0 }
    requires went { turn.old ≡ turned.Went }
    ensures { ByVerdict code.now actor.old (record { callee = check.0; value = last_of actor.old.values; span = check.1 }) actor.old.accepted (λ a. Transacts (validators_of code.now.cells) a instr span next turn.new actor.new) turn.new actor.new }
{
    let Some(accepts) = actor.accepted() else {
        judge_last(actor, code, check.0, check.1, turn);
        return;
    };
    if accepts {
        let cells = code.code().cells();
        actor.set_accepted(None);
        actor.on_transaction(cells, instr, span, next, turn);
        return;
    }
    refuse(actor, check.1, turn);
}

/// An instruction on cells or the transaction: a value that it writes is written once the validator of its atom accepts it, if
/// that has one.
#[inline(always)]
pub(crate) fn write_valid(
    actor: &mut Actor,
    code: &Verified,
    instr: Instr,
    span: Span,
    next: usize,
    turn: &mut Turn,
)
    requires can { CanTransact actor.old instr }
    requires check { CanCheck code.now (write_check (validators_of code.now.cells) actor.old instr span) }
    requires went { turn.old ≡ turned.Went }
    ensures { WritesValue code.now actor.old instr span next turn.new actor.new }
{
    let cells = code.code().cells();
    match write_check(actor, cells, instr, span) {
        None => actor.on_transaction(cells, instr, span, next, turn),
        Some(check) => write_checked(actor, code, check, instr, span, next, turn),
    }
}

// ---- the tasks of a transaction's end

/// The tasks of a transaction's end begin, where no ref is to be viewed before them: whether there was memory for them.
fn begin_tasks(actor: &mut Actor, cells: &[CellDefinition]) -> bool
    ensures begun { IsTrue result → actor.new ≡ at_tasks (validators_of cells.now) actor.old actor.old.tx }
    ensures kept { result ≡ false → actor.new ≡ actor.old }
{
    match actor.take_tx() {
        Transaction::Running { left, inner, from } => {
            if inner == 0 {
                return begin_tasks_of(actor, cells, left, from);
            }
            actor.put_tx(Transaction::Running { left, inner, from });
            true
        }
        other => {
            actor.put_tx(other);
            true
        }
    }
}

/// The same of a transaction that was taken out, and is no inner one.
fn begin_tasks_of(actor: &mut Actor, cells: &[CellDefinition], left: u16, from: Savepoint) -> bool
    ensures begun { IsTrue result → actor.new ≡ begun_with (record actor.old { tx = Running left 0 from }) left from (commuted actor.old.done) (tasks_of (validators_of cells.now) actor.old.done) }
    ensures kept { result ≡ false → actor.new ≡ record actor.old { tx = Running left 0 from } }
{
    let Ok(tasks) = first_tasks(actor.alloc(), cells, actor.frame()) else {
        run_on(actor, left, from);
        return false;
    };
    match tasks {
        Some(phase) => {
            actor.put_tx(Transaction::Applying { left, from, phase });
            true
        }
        None => {
            run_on(actor, left, from);
            true
        }
    }
}

/// A transaction that was taken out, and is no inner one, runs as it did.
fn run_on(actor: &mut Actor, left: u16, from: Savepoint)
    ensures { actor.new ≡ record actor.old { tx = Running left 0 from } }
{
    actor.put_tx(Transaction::Running {
        left,
        inner: 0,
        from,
    });
}

/// Whether the validator that was applied last accepts its value.
fn has_accepted(actor: &Actor) -> bool
    ensures yes { IsTrue result → actor.now.accepted ≡ Some true }
    ensures no { result ≡ false → actor.now.accepted ≡ Some true → ⊥ }
{
    match actor.accepted() {
        Some(accepts) => accepts,
        None => false,
    }
}

/// Whether it refuses it.
fn has_refused(actor: &Actor) -> bool
    ensures yes { IsTrue result → actor.now.accepted ≡ Some false }
    ensures no { result ≡ false → actor.now.accepted ≡ Some false → ⊥ }
{
    match actor.accepted() {
        Some(accepts) => !accepts,
        None => false,
    }
}

/// The task whose value a validator has accepted is done.
fn heed(actor: &mut Actor)
    ensures { actor.new ≡ heeded actor.old actor.old.tx }
{
    match actor.take_tx() {
        Transaction::Applying { left, from, phase } => heed_task(actor, left, from, phase),
        other => actor.put_tx(other),
    }
}

/// The same of a transaction that was taken out at its end.
fn heed_task(actor: &mut Actor, left: u16, from: Savepoint, phase: Phase)
    ensures { actor.new ≡ done_by (record actor.old { tx = Applying left from phase }) left from actor.old.accepted phase.work phase.values }
{
    if has_accepted(actor) {
        heed_accepted(actor, left, from, phase);
        return;
    }
    actor.put_tx(Transaction::Applying { left, from, phase });
}

/// The same where a validator has accepted its value.
fn heed_accepted(actor: &mut Actor, left: u16, from: Savepoint, phase: Phase)
    ensures { actor.new ≡ done_by (record actor.old { tx = Applying left from phase }) left from (Some true) phase.work phase.values }
{
    let mut phase = phase;
    if phase.validates() {
        phase.accept();
        actor.set_accepted(None);
        actor.put_tx(Transaction::Applying { left, from, phase });
        return;
    }
    actor.put_tx(Transaction::Applying { left, from, phase });
}

/// The validator that is the next task of a transaction's end, if one is, and where its refusal is a fault.
fn end_look(actor: &Actor) -> Option<(Callee, Span)>
    ensures { IsNextLook result actor.now.tx actor.now.done }
{
    match actor.tx() {
        Some(tx) => end_check(tx),
        None => None,
    }
}

/// What the next task of a transaction's end is applied to.
fn task_values(actor: &Actor) -> Result<Vec<Value>, AllocError>
    requires { 0 < length (work_in actor.now.tx) }
    ensures { IfOk result (λ vs. vs.items ≡ applied_on actor.now.tx actor.now.done) }
{
    let Some(Transaction::Applying { phase, .. }) = actor.tx() else {
        unreachable!();
    };
    let values = phase.arguments(actor.frame())?;
    Ok(values)
}

/// The validator that is the next task of a transaction's end has refused its value, or looks at it.
fn validate(actor: &mut Actor, code: &Verified, check: (Callee, Span), turn: &mut Turn)
    requires next { IsEndCheck actor.old check.0 check.1 }
    requires can { CanJudge code.now check.0 }
    requires went { turn.old ≡ turned.Went }
    ensures { IsValidated code.now actor.old check.0 check.1 turn.new actor.new }
{
    if has_refused(actor) {
        refuse(actor, check.1, turn);
        return;
    }
    match task_values(actor) {
        Ok(values) => judge(actor, code, check.0, values, check.1, turn),
        Err(_) => actor.end(Outcome::Memory, turn),
    }
}

/// A transaction's end at its next task.
fn end_at_task(actor: &mut Actor, code: &Verified, span: Span, next: usize, turn: &mut Turn)
    requires can { CanTask code.now actor.old (end_check actor.old.tx actor.old.done) }
    requires went { turn.old ≡ turned.Went }
    ensures { TasksAs code.now actor.old (end_check actor.old.tx actor.old.done) span next turn.new actor.new }
{
    match end_look(actor) {
        None => end_as(actor, code, span, next, turn),
        Some(check) => validate(actor, code, check, turn),
    }
}

/// A transaction's end, where a cell has a validator.
#[cold]
#[inline(never)]
pub(crate) fn end_valid(
    actor: &mut Actor,
    code: &Verified,
    span: Span,
    next: usize,
    turn: &mut Turn,
)
    requires can { CanEndBy code.now actor.old true }
    requires went { turn.old ≡ turned.Went }
    ensures { EndsBy code.now actor.old true span next turn.new actor.new }
{
    let cells = code.code().cells();
    if begin_tasks(actor, cells) {
        heed(actor);
        end_at_task(actor, code, span, next, turn);
        return;
    }
    actor.end(Outcome::Memory, turn);
}
