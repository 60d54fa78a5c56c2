//! What a commit wrote and sent, against what its transaction did.

ghost use Rattle.std.specs.Prelude.{◌≡◌, ◌<◌, ◌+◌, ◌^◌, ◌∷◌, [], ℕ, length, true, IfOk, option_copied};
ghost use Rattle.txs_frame.specs.Frame.{sends_of_commit};
ghost use Rattle.txs_value_data.specs.Places.{nth};
ghost use Rattle.txs_tree_eval_transaction.specs.Views.{plain_view, world_of};
ghost use Rattle.txs_tree_meaning.specs.Known.{known};
ghost use Rattle.txs_tree_meaning.specs.Transaction.{redone, value_or};
ghost use Rattle.txs_tree_meaning.specs.View.{functions_of, program_of};
ghost use Rattle.txs_audit_event.specs.Asking.{asked_by};
ghost use Rattle.txs_value_data.specs.declared.value.Value.TheVariants.{Nil};
ghost use Rattle.txs_world_protocol.specs.Ask.{buffered};
ghost use Rattle.txs_audit_event.specs.Meant.{held_by};
ghost use Rattle.txs_audit_event.specs.Transactions.{applied, changed_what, ended_what, given, is_pure_callee, is_sent_at, or_else, place_what, rest_what, sent_what, with_sets, write_what, writes_meant, wrote_what};

use crate::asking::Question;
use crate::meant::Doer;
use crate::what::What;
use std::alloc::{AllocError, Global};
use txs_audit_evidence::Books;
use txs_frame::{Commute, TxFrame};
use txs_tree_eval::{EvalStop, RefView, eval_pure};
use txs_tree_eval_transaction::{merge, put_write, value_in, valued};
use txs_value_cell::{Action, copy_action};
use txs_value_data::{Callee, CellId, Listed, Span, Value, copy_value};
use txs_world_protocol::{same_action, same_cell, same_value};

// ---- what a transaction writes

/// Whether a callee is pure, and takes so many values.
fn is_pure(books: &Books<'_>, callee: Callee, count: usize) -> bool
    ensures { result ≡ is_pure_callee (known (functions_of books.now.program.functions)) callee count }
{
    books.functions().is_pure(callee, count)
}

/// What a callee gives on these values, if it is pure and gives a value within so many turns.
fn apply(
    alloc: Global,
    books: &Books<'_>,
    turns: u32,
    callee: Callee,
    values: &[Value],
) -> Result<Option<Value>, AllocError>
    ensures { IfOk result (λ o. o ≡ given (applied turns (functions_of books.now.program.functions) callee values.now tt)) }
{
    if !is_pure(books, callee, values.len()) {
        return Ok(None);
    }
    match eval_pure(alloc, books.program(), callee, values, turns) {
        Ok(value) => Ok(Some(value)),
        Err(EvalStop::Fault(_) | EvalStop::Turns) => Ok(None),
        Err(EvalStop::Memory) => Err(AllocError),
    }
}

/// A value, and these behind it.
fn with_first(alloc: Global, first: Value, others: &[Value]) -> Result<Vec<Value>, AllocError>
    ensures { IfOk result (λ vs. vs.items ≡ first ∷ others.now) }
{
    let mut values = Vec::new(alloc);
    values.push(first)?;
    for other in others {
        values.push(copy_value(other)?)?;
    }
    Ok(values)
}

/// What a commute makes of its ref's value among these.
fn remade(
    alloc: Global,
    books: &Books<'_>,
    turns: u32,
    commute: &Commute,
    writes: &[(CellId, Value)],
) -> Result<Option<Value>, AllocError>
    ensures { IfOk result (λ o. o ≡ given (applied turns (functions_of books.now.program.functions) commute.now.callee (value_or (buffered writes.now commute.now.cell.number) Nil ∷ commute.now.args) tt)) }
{
    let value = value_in(writes, commute.cell.number)?;
    let values = with_first(alloc, value, commute.args.as_slice())?;
    apply(alloc, books, turns, commute.callee, values.as_slice())
}

/// What these commutes make of these values, one after the other, if each gives a value.
fn redo(
    alloc: Global,
    books: &Books<'_>,
    turns: u32,
    work: &[Commute],
    first: Vec<(CellId, Value)>,
) -> Result<Option<Listed<(CellId, Value)>>, AllocError>
    ensures { IfOk result (λ o. o ≡ given (redone (applied turns (functions_of books.now.program.functions)) work.now first.items tt)) }
{
    let mut writes = first;
    for commute in work {
        match remade(alloc, books, turns, commute, writes.as_slice())? {
            Some(value) => put_write(&mut writes, commute.cell, value)?,
            None => return Ok(None),
        }
    }
    Ok(Some(Listed::from_vec(writes)))
}

/// The values that a transaction set, and these behind them.
fn with_sets(
    done: &TxFrame,
    redone: Option<Listed<(CellId, Value)>>,
) -> Result<Option<Listed<(CellId, Value)>>, AllocError>
    ensures { IfOk result (λ o. o ≡ with_sets done.now redone) }
{
    match redone {
        Some(writes) => {
            let mut last = done.writes()?;
            merge(&mut last, writes.as_slice())?;
            Ok(Some(Listed::from_vec(last)))
        }
        None => Ok(None),
    }
}

/// What a transaction writes that did this and commits on this world, where each of its commutes gives a value.
fn writes_meant(
    alloc: Global,
    books: &Books<'_>,
    turns: u32,
    done: &TxFrame,
    world: RefView<'_>,
) -> Result<Option<Listed<(CellId, Value)>>, AllocError>
    ensures { IfOk result (λ o. o ≡ writes_meant turns (functions_of books.now.program.functions) done.now (world_of (plain_view world.entry))) }
{
    let commuted = done.commuted()?;
    let work = done.phase_work()?;
    let first = valued(alloc, commuted.as_slice(), &world)?;
    let redone = redo(alloc, books, turns, work.as_slice(), first)?;
    with_sets(done, redone)
}

// ---- what is written otherwise

/// The ref of a write that is expected has no value.
fn lost(span: Span, write: &(CellId, Value)) -> Result<What, AllocError>
    ensures { IfOk result (λ w. w ≡ What.Wrote write.now.0 (Some write.now.1) None span) }
{
    Ok(What::Wrote {
        cell: write.0,
        expected: Some(copy_value(&write.1)?),
        found: None,
        span,
    })
}

/// The ref of a write was to get no value.
fn added(span: Span, write: &(CellId, Value)) -> Result<What, AllocError>
    ensures { IfOk result (λ w. w ≡ What.Wrote write.now.0 None (Some write.now.1) span) }
{
    Ok(What::Wrote {
        cell: write.0,
        expected: None,
        found: Some(copy_value(&write.1)?),
        span,
    })
}

/// A write that is expected, against one of the same ref.
fn changed(
    span: Span,
    meant: &(CellId, Value),
    found: &(CellId, Value),
) -> Result<Option<What>, AllocError>
    ensures { IfOk result (λ o. o ≡ changed_what span meant.now found.now) }
{
    if same_value(&meant.1, &found.1) {
        return Ok(None);
    }
    Ok(Some(What::Wrote {
        cell: meant.0,
        expected: Some(copy_value(&meant.1)?),
        found: Some(copy_value(&found.1)?),
        span,
    }))
}

/// A write that is expected, against the one in its place.
fn write_what(
    span: Span,
    meant: &(CellId, Value),
    found: &(CellId, Value),
) -> Result<Option<What>, AllocError>
    ensures { IfOk result (λ o. o ≡ write_what span meant.now found.now) }
{
    if same_cell(meant.0, found.0) {
        return changed(span, meant, found);
    }
    if found.0.number < meant.0.number {
        return Ok(Some(added(span, found)?));
    }
    Ok(Some(lost(span, meant)?))
}

/// What is written behind all that is expected.
fn rest_what(span: Span, found: Option<&(CellId, Value)>) -> Result<Option<What>, AllocError>
    ensures { IfOk result (λ o. o ≡ rest_what span (option_copied found.entry)) }
{
    match found {
        Some(write) => Ok(Some(added(span, write)?)),
        None => Ok(None),
    }
}

/// A write that is expected, against the one in its place, if there is one.
fn place_what(
    span: Span,
    meant: &(CellId, Value),
    found: Option<&(CellId, Value)>,
) -> Result<Option<What>, AllocError>
    ensures { IfOk result (λ o. o ≡ place_what span meant.now (option_copied found.entry)) }
{
    match found {
        Some(write) => write_what(span, meant, write),
        None => Ok(Some(lost(span, meant)?)),
    }
}

/// The first ref, by ascending number, that two commits give another value.
fn wrote_what(
    span: Span,
    meant: &[(CellId, Value)],
    found: &[(CellId, Value)],
) -> Result<Option<What>, AllocError>
    ensures { IfOk result (λ o. o ≡ wrote_what span meant.now found.now) }
{
    for (i, write) in meant.iter().enumerate() {
        if let Some(what) = place_what(span, write, found.get(i))? {
            return Ok(Some(what));
        }
    }
    rest_what(span, found.get(meant.len()))
}

// ---- what is sent otherwise

/// A copy of an action, if there is one.
fn copied(action: Option<&Action>) -> Result<Option<Action>, AllocError>
    ensures { IfOk result (λ o. o ≡ option_copied action.entry) }
{
    match action {
        Some(action) => Ok(Some(copy_action(action)?)),
        None => Ok(None),
    }
}

/// An action that is sent otherwise.
fn another(
    span: Span,
    number: usize,
    meant: Option<&Action>,
    found: Option<&Action>,
) -> Result<What, AllocError>
    ensures { IfOk result (λ w. w ≡ What.Sends number (option_copied meant.entry) (option_copied found.entry) span) }
{
    Ok(What::Sends {
        number,
        expected: copied(meant)?,
        found: copied(found)?,
        span,
    })
}

/// Whether this is the action in this place.
fn is_sent_at(sent: &[Action], at: usize, action: &Action) -> bool
    ensures { result ≡ is_sent_at action.now (nth sent.now at) }
{
    match sent.get(at) {
        Some(found) => same_action(action, found),
        None => false,
    }
}

/// The first action that is another one.
pub fn sent_what(span: Span, meant: &[Action], found: &[Action]) -> Result<Option<What>, AllocError>
    ensures { IfOk result (λ o. o ≡ sent_what span 0 meant.now found.now) }
{
    for (i, action) in meant.iter().enumerate() {
        if !is_sent_at(found, i, action) {
            return Ok(Some(another(span, i, Some(action), found.get(i))?));
        }
    }
    match found.get(meant.len()) {
        Some(action) => Ok(Some(another(span, meant.len(), None, Some(action))?)),
        None => Ok(None),
    }
}

// ---- both

/// What there is, else what is sent otherwise.
fn or_sent(
    span: Span,
    what: Option<What>,
    meant: &[Action],
    found: &[Action],
) -> Result<Option<What>, AllocError>
    ensures { IfOk result (λ o. o ≡ or_else what (sent_what span 0 meant.now found.now)) }
{
    match what {
        Some(what) => Ok(Some(what)),
        None => sent_what(span, meant, found),
    }
}

/// What differs of a commit that writes and sends this, where the text writes and sends that.
fn ended_what(
    span: Span,
    meant: &Option<Listed<(CellId, Value)>>,
    held: &[Action],
    writes: &[(CellId, Value)],
    sends: &[Action],
) -> Result<Option<What>, AllocError>
    ensures { IfOk result (λ o. o ≡ ended_what span meant.now held.now writes.now sends.now) }
{
    match meant {
        Some(meant) => {
            let wrote = wrote_what(span, meant.as_slice(), writes)?;
            or_sent(span, wrote, held, sends)
        }
        None => sent_what(span, held, sends),
    }
}

/// What a commit sends of these: a thread's all, and an action's nothing.
fn sends_of<'a>(doer: Doer<'_>, sends: &'a [Action]) -> &'a [Action]
    ensures { result.now ≡ sends_of_commit (held_by doer.entry) sends.now }
{
    match doer {
        Doer::Thread(_) => sends,
        Doer::Action(_, _) => &[],
    }
}

/// What differs of a commit that writes and sends this, where its transaction did that.
pub fn commit_differs(
    alloc: Global,
    question: Question<'_, '_>,
    span: Span,
    done: &TxFrame,
    writes: &[(CellId, Value)],
    sends: &[Action],
) -> Result<Option<What>, AllocError>
    ensures { IfOk result (λ o. o ≡ ended_what span (writes_meant question.entry.turns (program_of question.entry.books.now.program).functions done.now (asked_by question.entry).event.C) (sends_of_commit (asked_by question.entry).held done.now.sends) writes.now sends.now) }
{
    let Question { books, turns, .. } = question;
    let meant = writes_meant(alloc, books, turns, done, question.event.here)?;
    let held = sends_of(question.doer, done.sends());
    ended_what(span, &meant, held, writes, sends)
}
