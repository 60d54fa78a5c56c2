//! Instructions on cells and the transaction of an actor.

ghost use Rattle.std.specs.Prelude.{ℕ, ◌+◌, ◌++◌, ◌∷◌, [], List, ◌≡◌, ◌<◌, ◌≤◌, ◌^◌, length, true, Ok, None, Some, Option, IfOk, IfSome};
ghost use Rattle.txs_world_protocol.specs.Ask.{buffered};
ghost use Rattle.txs_frame.specs.Frame.{PlainTxFrame, commuted};
ghost use Rattle.txs_frame.specs.Phase.{next_arguments};
ghost use Rattle.txs_value_cell.specs.Cells.{Validators, validators_of};
ghost use Rattle.txs_value_apply.specs.Core.{Answers, core, takes};
ghost use Rattle.txs_frame.specs.declared.frame.Commute.{Commute as ACommute};
ghost use Rattle.txs_value_cell.specs.Forms.{rule, cell_of};
ghost use Rattle.txs_value_data.specs.declared.fault.Span.{Span as ASpan};
ghost use Rattle.txs_value_data.specs.declared.value.CellId.{CellId as ACell};
ghost use Rattle.txs_value_data.specs.declared.value.Value.{Value as AValue};
ghost use Rattle.txs_value_cell.specs.declared.form.CellForm.TheVariants as form;
ghost use Rattle.txs_value_cell.specs.declared.form.UpdateForm.TheVariants as update;
ghost use Rattle.txs_machine_transaction.specs.declared.moved.Moved.TheVariants as moved;
ghost use Rattle.txs_machine_transaction.specs.Effect.{Comes, ComesQuickly, IsRare, CanMove, effect, reads, ensures, update_of, opens, sets, resets, sends, swaps, swapped, closes, begins, settles, applying, goes_through, ends, Operates, LeftApply, IsForRefs};
ghost use Rattle.txs_machine_transaction.specs.declared.state.Savepoint.{Savepoint as ASavepoint};
ghost use Rattle.txs_machine_transaction.specs.declared.state.Transaction.{Transaction as ATransaction};
ghost use Rattle.txs_machine_transaction.specs.Transaction.{is_running, depth_in, IsUnapplied, IsSwapping};
ghost use Rattle.txs_machine_stack.specs.PlainFrame.{PlainStack};
ghost use Rattle.txs_machine_loop.specs.Values.{below, topmost};

use crate::kept::{Ending, KeptTransaction};
use crate::moved::{Moved, Quick};
use crate::state::{Pending, Savepoint, Transaction};
use std::alloc::{AllocError, Global};
use std::mem;
use txs_code_meaning::{Instr, OpenForm};
use txs_frame::{Commute, Phase, SetError, TxFrame};
use txs_machine_stack::Stack;
use txs_value_apply::apply_owned;
use txs_value_cell::{Action, Arguments, CellDefinition, CellForm, LookForm, PutForm, UpdateForm};
use txs_value_data::{
    Callee, CellId, Fault, FaultKind, Listed, Op, Span, Stop, Value, copy_value, copy_values,
};

/// Whether a transaction runs.
#[inline(always)]
fn is_running(tx: &Transaction) -> bool
    ensures { result ≡ is_running tx.now }
{
    matches!(
        tx,
        Transaction::Running { .. } | Transaction::Applying { .. } | Transaction::Evaluating { .. }
    )
}

/// Whether a transaction runs, which may be kept apart.
#[inline(always)]
pub fn runs(tx: &KeptTransaction) -> bool
    ensures { result ≡ is_running tx.now }
{
    match tx.whole() {
        None => true,
        Some(whole) => is_running(whole),
    }
}

/// The transaction's own value of the ref with this number, if it has one: the frame goes on sharing it.
#[inline(always)]
fn own_value(frame: &TxFrame, number: u16) -> Result<Option<Value>, AllocError>
    ensures { IfOk result (λ o. o ≡ buffered frame.now.values number) }
{
    match frame.value(number) {
        Some(value) => Ok(Some(copy_value(value)?)),
        None => Ok(None),
    }
}

/// No commute is open any more.
#[inline(always)]
pub fn shut(commuting: &mut Option<Commute>)
    ensures { commuting.new ≡ None }
{
    let Some(_) = commuting else {
        return;
    };
    drop(mem::replace(commuting, None));
}

/// The value of the cell at the top.
#[inline(always)]
fn deref(stack: &mut Stack, tx: &KeptTransaction, frame: &TxFrame) -> Quick
    requires room { (0 < length stack.old.values) × (length stack.old.values ≤ stack.old.room) }
    ensures comes { (from : ASavepoint) (k : Option ACommute) → ComesQuickly result from stack.new.values tx.now frame.now k frame.now k (reads (is_running tx.now) stack.old.values tx.now frame.now k) }
    ensures rest { stack.new ≡ record stack.old { values = stack.new.values } }
{
    let inside = runs(tx);
    match CellForm::Look(LookForm::Deref).cell_of(inside, stack.last()) {
        Err(kind) => Quick::Faults(kind),
        Ok(cell) if !inside => Quick::Reads(cell),
        Ok(cell) => match own_value(frame, cell.number) {
            Err(_) => Quick::Memory,
            Ok(None) => Quick::Reads(cell),
            Ok(Some(value)) => {
                stack.replace_last(value);
                Quick::On
            }
        },
    }
}

/// The value of the ref at the top, which is ensured.
#[inline(never)]
fn ensure(stack: &mut Stack, tx: &Transaction, frame: &mut TxFrame) -> Moved
    requires room { (0 < length stack.old.values) × (length stack.old.values ≤ stack.old.room) }
    ensures comes { (k : Option ACommute) → Comes result stack.new.values tx.now frame.new k frame.old k (ensures stack.old.values tx.now frame.old k) }
    ensures rest { stack.new ≡ record stack.old { values = stack.new.values } }
{
    let cell = match CellForm::Look(LookForm::Ensure).cell_of(true, stack.last()) {
        Err(kind) => return Moved::Faults(kind),
        Ok(cell) => cell,
    };
    match own_value(frame, cell.number) {
        Err(_) => Moved::Memory,
        Ok(None) => match frame.with_ensured(cell) {
            Err(_) => Moved::Memory,
            Ok(cells) => Moved::Asks(Pending::Ensure(cell, cells)),
        },
        Ok(Some(value)) => match frame.ensure(cell) {
            Err(_) => Moved::Memory,
            Ok(()) => {
                stack.replace_last(value);
                Moved::On
            }
        },
    }
}

/// The n values at the top, which the stack goes on sharing.
fn copy_topmost(alloc: Global, stack: &Stack, n: usize) -> Result<Listed<Value>, AllocError>
    requires { n ≤ length stack.now.values }
    ensures { IfOk result (λ copies. copies ≡ topmost n stack.now.values) }
{
    let mut copies = Vec::with_capacity(alloc, n)?;
    for i in 0..n {
        copies.push_reserved(copy_value(stack.under(n - i - 1))?);
    }
    Ok(Listed::from_vec(copies))
}

/// The n values at the top as arguments of an action, which the stack goes on sharing.
fn copy_arguments(alloc: Global, stack: &Stack, n: usize) -> Result<Arguments, AllocError>
    requires { n ≤ length stack.now.values }
    ensures { IfOk result (λ copies. copies ≡ topmost n stack.now.values) }
{
    if n == 1 {
        return Ok(Arguments::one(copy_value(stack.under(0))?));
    }
    Arguments::from_vec(copy_topmost(alloc, stack, n)?.into_vec())
}

/// The value of the ref below n arguments. A commute is open then, with copies of these.
#[inline(never)]
fn open(
    alloc: Global,
    callee: Callee,
    n: u16,
    stack: &mut Stack,
    tx: &Transaction,
    frame: &TxFrame,
    commuting: &mut Option<Commute>,
) -> Moved
    requires room { (n < length stack.old.values) × (length stack.old.values < stack.old.room) }
    ensures comes { Comes result stack.new.values tx.now frame.now commuting.new frame.now commuting.old (opens (update_of (Some callee)) n stack.old.values tx.now frame.now commuting.old) }
    ensures rest { stack.new ≡ record stack.old { values = stack.new.values } }
{
    let cell = match CellForm::Update(UpdateForm::Alter).cell_of(true, stack.under(n as usize)) {
        Err(kind) => return Moved::Faults(kind),
        Ok(cell) => cell,
    };
    let Ok(further) = copy_topmost(alloc, stack, n as usize) else {
        return Moved::Memory;
    };
    let kept = Some(Commute {
        cell,
        callee,
        args: further,
    });
    match own_value(frame, cell.number) {
        Err(_) => Moved::Memory,
        Ok(None) => Moved::Asks(Pending::Open(cell, n, kept)),
        Ok(Some(value)) => {
            stack.insert_under(n as usize, value);
            drop(mem::replace(commuting, kept));
            Moved::On
        }
    }
}

/// A ref's value goes between the ref and the n arguments at the top, and no commute is open.
#[inline(always)]
fn open_to_alter(
    n: u16,
    stack: &mut Stack,
    frame: &TxFrame,
    commuting: &mut Option<Commute>,
) -> Quick
    requires room { (n < length stack.old.values) × (length stack.old.values < stack.old.room) }
    ensures comes { (from : ASavepoint) (tx : ATransaction) → ComesQuickly result from stack.new.values tx frame.now commuting.new frame.now commuting.old (opens (update_of None) n stack.old.values tx frame.now commuting.old) }
    ensures rest { stack.new ≡ record stack.old { values = stack.new.values } }
{
    let cell = match CellForm::Update(UpdateForm::Alter).cell_of(true, stack.under(n as usize)) {
        Err(kind) => return Quick::Faults(kind),
        Ok(cell) => cell,
    };
    match own_value(frame, cell.number) {
        Err(_) => Quick::Memory,
        Ok(None) => Quick::Opens(cell, n),
        Ok(Some(value)) => {
            stack.insert_under(n as usize, value);
            shut(commuting);
            Quick::On
        }
    }
}

/// The last value becomes that of the ref below it, where the form takes refs.
#[inline(always)]
fn set(form: CellForm, stack: &mut Stack, frame: &mut TxFrame) -> Quick
    requires refs { IsForRefs form }
    requires room { (1 < length stack.old.values) × (length stack.old.values ≤ stack.old.room) }
    ensures comes { (from : ASavepoint) (tx : ATransaction) (k : Option ACommute) → ComesQuickly result from stack.new.values tx frame.new k frame.old k (sets form stack.old.values tx frame.old k) }
    ensures rest { stack.new ≡ record stack.old { values = stack.new.values } }
{
    let cell = match form.cell_of(true, stack.under(1)) {
        Err(kind) => return Quick::Faults(kind),
        Ok(cell) => cell,
    };
    let Ok(value) = copy_value(stack.last()) else {
        return Quick::Memory;
    };
    match frame.set(cell, value) {
        Err(SetError::SetAfterCommute) => Quick::Faults(FaultKind::SetAfterCommute),
        Err(SetError::Memory) => Quick::Memory,
        Ok(()) => {
            stack.drop_under();
            Quick::On
        }
    }
}

/// An atom gets the last value, outside transactions: the store is asked for it.
#[inline(never)]
fn reset(stack: &Stack) -> Moved
    requires room { 1 < length stack.now.values }
    ensures comes { (tx : ATransaction) (w : PlainTxFrame) (k : Option ACommute) → Comes result stack.now.values tx w k w k (resets stack.now.values tx w k) }
{
    let cell = match CellForm::Put(PutForm::Reset).cell_of(false, stack.under(1)) {
        Err(kind) => return Moved::Faults(kind),
        Ok(cell) => cell,
    };
    match copy_value(stack.last()) {
        Ok(value) => Moved::Asks(Pending::Reset(cell, value)),
        Err(_) => Moved::Memory,
    }
}

/// A value in the place of the n at the top and of the one below them.
pub fn replace_over(stack: &mut Stack, n: usize, value: Value)
    requires { (n < length stack.old.values) × (length stack.old.values ≤ stack.old.room) }
    ensures { stack.new ≡ record stack.old { values = below (n + 1) stack.old.values ++ value ∷ [] } }
{
    for taken in 0..n {
        drop(stack.take_last());
    }
    stack.replace_last(value);
}

/// An action for the agent below the n arguments is held in a transaction. Outside it is handed on: the actor sends it, or holds it.
#[inline(never)]
fn send(
    alloc: Global,
    callee: Callee,
    n: u16,
    span: Span,
    stack: &mut Stack,
    tx: &Transaction,
    frame: &mut TxFrame,
) -> Moved
    requires room { (n < length stack.old.values) × (length stack.old.values ≤ stack.old.room) }
    ensures comes { (k : Option ACommute) → Comes result stack.new.values tx.now frame.new k frame.old k (sends (is_running tx.now) callee n span stack.old.values tx.now frame.old k) }
    ensures rest { stack.new ≡ record stack.old { values = stack.new.values } }
{
    let inside = is_running(tx);
    let agent = match CellForm::Send.cell_of(inside, stack.under(n as usize)) {
        Err(kind) => return Moved::Faults(kind),
        Ok(agent) => agent,
    };
    let Ok(args) = copy_arguments(alloc, stack, n as usize) else {
        return Moved::Memory;
    };
    let action = Action {
        agent,
        callee,
        args,
        span,
    };
    if !inside {
        return Moved::Sends(action, n);
    }
    match frame.hold_send(action) {
        Err(_) => Moved::Memory,
        Ok(()) => {
            replace_over(stack, n as usize, Value::Cell(agent));
            Moved::On
        }
    }
}

/// The commute that is open is kept, with copies of its arguments, and with the last value as that of the ref below it.
#[inline(never)]
fn keep(
    alloc: Global,
    stack: &mut Stack,
    tx: &Transaction,
    frame: &mut TxFrame,
    commuting: &mut Option<Commute>,
) -> Moved
    requires open { (o : ACommute) × (commuting.old ≡ Some o) }
    requires room { (1 < length stack.old.values) × (length stack.old.values ≤ stack.old.room) }
    ensures comes { Comes result stack.new.values tx.now frame.new commuting.new frame.old commuting.old (closes stack.old.values tx.now frame.old commuting.old) }
    ensures rest { stack.new ≡ record stack.old { values = stack.new.values } }
{
    let cell = match CellForm::Update(UpdateForm::Alter).cell_of(true, stack.under(1)) {
        Err(kind) => return Moved::Faults(kind),
        Ok(cell) => cell,
    };
    let Some(open) = commuting else {
        unreachable!();
    };
    let Ok(args) = copy_values(alloc, &open.args) else {
        return Moved::Memory;
    };
    let Ok(value) = copy_value(stack.last()) else {
        return Moved::Memory;
    };
    match frame.commute(cell, open.callee, args, value) {
        Err(_) => Moved::Memory,
        Ok(()) => {
            stack.drop_under();
            shut(commuting);
            Moved::On
        }
    }
}

/// The close of an update, where no commute is open: the ref is set.
#[inline(always)]
fn close(stack: &mut Stack, frame: &mut TxFrame, commuting: &Option<Commute>) -> Option<Quick>
    requires room { (1 < length stack.old.values) × (length stack.old.values ≤ stack.old.room) }
    ensures comes { (from : ASavepoint) (tx : ATransaction) → IfSome result (λ q. ComesQuickly q from stack.new.values tx frame.new commuting.now frame.old commuting.now (closes stack.old.values tx frame.old commuting.now)) }
    ensures rest { stack.new ≡ record stack.old { values = stack.new.values } }
    ensures rare { result ≡ None → ((o : ACommute) × (commuting.now ≡ Some o)) × (stack.new ≡ stack.old) × (frame.new ≡ frame.old) }
{
    if commuting.is_some() {
        return None;
    }
    Some(set(CellForm::Update(UpdateForm::Alter), stack, frame))
}

/// The atom below n arguments is asked for its value, outside transactions: a swap goes again from here.
#[inline(never)]
fn open_swap(alloc: Global, n: u16, span: Span, stack: &Stack) -> Moved
    requires room { n < length stack.now.values }
    ensures comes { (tx : ATransaction) (w : PlainTxFrame) (k : Option ACommute) → Comes result stack.now.values tx w k w k (swaps n (record { span = span; stack = stack.now }) stack.now.values tx w k) }
{
    let cell = match CellForm::Update(UpdateForm::Swap).cell_of(false, stack.under(n as usize)) {
        Err(kind) => return Moved::Faults(kind),
        Ok(cell) => cell,
    };
    match stack.copy(alloc) {
        Ok(stack) => Moved::Asks(Pending::Swap(cell, n, Savepoint { span, stack })),
        Err(_) => Moved::Memory,
    }
}

/// The atom of the swap that is applied is asked to get the last value, unless it has changed.
#[inline(never)]
fn close_swap(stack: &Stack, tx: &Transaction) -> Moved
    requires value { 0 < length stack.now.values }
    requires swapping { IsSwapping tx.now }
    ensures comes { (w : PlainTxFrame) (k : Option ACommute) → Comes result stack.now.values tx.now w k w k (swapped stack.now.values w k tx.now) }
{
    let Transaction::Swapping { cell, at, .. } = tx else {
        unreachable!();
    };
    match copy_value(stack.last()) {
        Ok(value) => Moved::Asks(Pending::Close(*cell, *at, value)),
        Err(_) => Moved::Memory,
    }
}

/// A transaction begins, or joins the one that runs.
#[inline(always)]
fn begin(tx: &mut KeptTransaction) -> Quick
    requires counted { depth_in tx.old < 2 ^ 64 }
    requires unapplied { IsUnapplied tx.old }
    ensures { (from : ASavepoint) (w : PlainTxFrame) (k : Option ACommute) → ComesQuickly result from from.stack.values tx.new w k w k (begins from from.stack.values w k tx.old) }
{
    match tx.begin() {
        None => Quick::On,
        Some(left) => Quick::Begins(left),
    }
}

/// A transaction with no commutes ends, or leaves the one that runs.
#[inline(always)]
fn end_plainly(tx: &mut KeptTransaction, frame: &TxFrame) -> Option<Quick>
    ensures comes { (fs : Validators) (from : ASavepoint) (vs : List AValue) (k : Option ACommute) → IfSome result (λ q. ComesQuickly q from vs tx.new frame.now k frame.now k (ends fs vs frame.now k tx.old)) }
    ensures rare { result ≡ None → tx.new ≡ tx.old }
{
    match tx.end() {
        Ending::Inner => Some(Quick::On),
        Ending::Other => None,
        Ending::Commits => match frame.commuted() {
            Err(_) => Some(Quick::Memory),
            Ok(cells) => {
                if cells.is_empty() {
                    return Some(Quick::Commits);
                }
                None
            }
        },
    }
}

/// The commit of a transaction, or the view of the refs that it commuted and didn't set, where the cells are defined so.
fn settle(alloc: Global, cells: &[CellDefinition], frame: &TxFrame) -> Moved
    ensures { (vs : List AValue) (tx : ATransaction) (k : Option ACommute) → Comes result vs tx frame.now k frame.now k (settles (validators_of cells.now) (commuted frame.now) vs tx frame.now k) }
{
    let Ok(commuted) = frame.commuted() else {
        return Moved::Memory;
    };
    if commuted.is_empty() {
        return Moved::Asks(Pending::Commit);
    }
    match frame.phase(alloc, cells) {
        Ok(phase) => Moved::Asks(Pending::View(phase)),
        Err(_) => Moved::Memory,
    }
}

/// The value of an operation that the next commute of a transaction's end calls.
fn operate(alloc: Global, op: Op, phase: &Phase, frame: &TxFrame) -> Result<Value, Stop>
    requires left { 0 < length phase.now.work }
    requires takes { takes op (length (next_arguments phase.now.work phase.now.values frame.now)) ≡ true }
    ensures { Answers result (core op (next_arguments phase.now.work phase.now.values frame.now)) }
{
    let Ok(mut args) = phase.arguments(frame) else {
        return Err(Stop::Memory);
    };
    apply_owned(alloc, op, args.as_mut_slice())
}

/// One task of a transaction's end: the next commute's operation is applied, whose fault is one of the transaction's beginning, or
/// the transaction commits.
#[inline(never)]
#[tactic(auto, using(crate::proofs::Tasks::next_left, crate::proofs::Tasks::next_takes, crate::proofs::Tasks::next_operates, crate::proofs::Tasks::none_left, crate::proofs::Tasks::task_applied, crate::proofs::Tasks::task_faults))]
fn go_through(alloc: Global, span: Span, phase: &mut Phase, frame: &TxFrame) -> Moved
    requires { Operates phase.old.work }
    ensures left { result ≡ moved.Memory → 0 < length phase.old.work }
    ensures comes { (left : ℕ) (stack : PlainStack) (vs : List AValue) (k : Option ACommute) → Comes result vs (applying left (record { span = span; stack = stack }) phase.new.work phase.new.values) frame.now k frame.now k (goes_through left (record { span = span; stack = stack }) vs frame.now k phase.old.work phase.old.values) }
{
    match phase.callee() {
        None => Moved::Asks(Pending::Commit),
        Some(Callee::Core(op)) => match operate(alloc, op, phase, frame) {
            Ok(value) => {
                phase.give(value);
                Moved::Stays
            }
            Err(Stop::Fault(kind)) => Moved::Falls(Fault { kind, span }),
            Err(Stop::Memory) => Moved::Memory,
        },
        Some(Callee::Function(_)) => unreachable!(),
    }
}

/// A transaction ends, or leaves the one that runs.
#[inline(always)]
fn end(alloc: Global, cells: &[CellDefinition], tx: &mut Transaction, frame: &TxFrame) -> Moved
    requires { LeftApply tx.old }
    ensures { (vs : List AValue) (k : Option ACommute) → Comes result vs tx.new frame.now k frame.now k (ends (validators_of cells.now) vs frame.now k tx.old) }
{
    match tx {
        Transaction::Running { inner, .. } => {
            if *inner == 0 {
                return settle(alloc, cells, frame);
            }
            *inner -= 1;
            Moved::On
        }
        Transaction::Applying { from, phase, .. } => go_through(alloc, from.span, phase, frame),
        Transaction::Outside
        | Transaction::Restarting { .. }
        | Transaction::Swapping { .. }
        | Transaction::Judging { .. }
        | Transaction::Weighing { .. } => Moved::On,
        Transaction::Evaluating { .. } => unreachable!(),
    }
}

/// An instruction on cells or the transaction, if it is one of those that most are: else nothing is done.
#[inline(always)]
pub fn transact(
    instr: Instr,
    stack: &mut Stack,
    tx: &mut KeptTransaction,
    frame: &mut TxFrame,
    commuting: &mut Option<Commute>,
) -> Option<Quick>
    requires { CanMove stack.old.values stack.old.room tx.old instr }
    ensures comes { (fs : Validators) (span : ASpan) → IfSome result (λ q. ComesQuickly q (record { span = span; stack = stack.old }) stack.new.values tx.new frame.new commuting.new frame.old commuting.old (effect fs (record { span = span; stack = stack.old }) stack.old.values tx.old frame.old commuting.old instr)) }
    ensures rest { stack.new ≡ record stack.old { values = stack.new.values } }
    ensures rare { result ≡ None → IsRare commuting.old instr × (stack.new ≡ stack.old) × (tx.new ≡ tx.old) × (frame.new ≡ frame.old) × (commuting.new ≡ commuting.old) }
{
    match instr {
        Instr::Look(LookForm::Deref) => Some(deref(stack, tx, frame)),
        Instr::Put(PutForm::RefSet) => Some(set(CellForm::Put(PutForm::RefSet), stack, frame)),
        Instr::TxBegin => Some(begin(tx)),
        Instr::TxEnd => end_plainly(tx, frame),
        Instr::Open(OpenForm::Alter, n) => Some(open_to_alter(n, stack, frame, commuting)),
        Instr::Close(UpdateForm::Alter | UpdateForm::Commute) => close(stack, frame, commuting),
        _ => None,
    }
}

/// One of the others, where the cells are defined so.
#[inline(never)]
pub fn transact_rarely(
    alloc: Global,
    cells: &[CellDefinition],
    instr: Instr,
    span: Span,
    stack: &mut Stack,
    tx: &mut Transaction,
    frame: &mut TxFrame,
    commuting: &mut Option<Commute>,
) -> Moved
    requires can { CanMove stack.old.values stack.old.room tx.old instr }
    requires rare { IsRare commuting.old instr }
    ensures comes { Comes result stack.new.values tx.new frame.new commuting.new frame.old commuting.old (effect (validators_of cells.now) (record { span = span; stack = stack.old }) stack.old.values tx.old frame.old commuting.old instr) }
    ensures rest { stack.new ≡ record stack.old { values = stack.new.values } }
{
    match instr {
        Instr::Look(LookForm::Ensure) => ensure(stack, tx, frame),
        Instr::Put(PutForm::Reset) => reset(stack),
        Instr::Send(callee, n) => send(alloc, callee, n, span, stack, tx, frame),
        Instr::TxEnd => end(alloc, cells, tx, frame),
        Instr::Open(OpenForm::Commute(callee), n) => {
            open(alloc, callee, n, stack, tx, frame, commuting)
        }
        Instr::Open(OpenForm::Swap(_), n) => open_swap(alloc, n, span, stack),
        Instr::Close(UpdateForm::Alter | UpdateForm::Commute) => {
            keep(alloc, stack, tx, frame, commuting)
        }
        Instr::Close(UpdateForm::Swap) => close_swap(stack, tx),
        _ => unreachable!(),
    }
}
