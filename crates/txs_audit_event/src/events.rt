//! What differs at an event: it isn't allowed, it comes behind the end, or its transaction was disturbed.

ghost use Rattle.std.specs.Prelude.{◌≡◌, ◌++◌, ◌∷◌, [], not, take, IfOk};
ghost use Rattle.txs_value_data.specs.Places.{nth};
ghost use Rattle.txs_world_book.specs.Served.{cells_of};
ghost use Rattle.txs_world_protocol.specs.declared.event.EventKind.TheVariants.{SendRefused};
ghost use Rattle.txs_tree_eval_transaction.specs.Views.{plain_view, world_of};
ghost use Rattle.txs_tree_meaning.specs.Right.{is_wrong};
ghost use Rattle.txs_tree_meaning.specs.View.{program_of};
ghost use Rattle.txs_theorem_audit.specs.Audited.{books_of};
ghost use Rattle.txs_audit_event.specs.Asking.{asked_by};
ghost use Rattle.txs_audit_event.specs.Meant.{MayDo};
ghost use Rattle.txs_audit_event.specs.Lines.{outcome_of};
ghost use Rattle.txs_audit_event.specs.Transactions.{asked_on, asked_what, break, calm_at, calm_what, cause_what, commit_run, commit_what, committed_run, committed_what, dosync_what, fail_what, failure, fault_what, late_what, refusal, refused_run, refused_what, send_what, wrong_what};

use crate::asking::{
    Faulted, Question, asked_on, dosync_what, fault_what, or_other, other_what, with_event,
};
use crate::commits::commit_differs;
use crate::disturbing::disturbed_what;
use crate::meant::{allows, mean_within};
use crate::what::What;
use std::alloc::{AllocError, Global};
use txs_audit_evidence::transactions::{end_at, first_failed};
use txs_frame::TxFrame;
use txs_tree_eval::RefView;
use txs_value_cell::Action;
use txs_value_data::{CellId, CellKind, Span, Value};
use txs_world_protocol::{EventKind, Outcome, Place};

// ---- what is supposed

/// The end of a transaction that was refused.
fn refusal() -> EventKind
    ensures { result ≡ refusal }
{
    EventKind::Refused {
        at: 0,
        view: 0,
        agent: CellId {
            kind: CellKind::Agent,
            number: 0,
        },
    }
}

/// How it faults where its transaction was refused on this view.
fn refused_on<'a>(
    alloc: Global,
    question: Question<'a, '_>,
    view: RefView<'a>,
) -> Result<Option<Faulted>, AllocError>
    requires { MayDo (program_of question.books.now.program) question.doer }
    ensures { IfOk result (λ o. o ≡ asked_on (asked_by question.entry) (asked_by question.entry).event.R (world_of (plain_view view.entry)) refusal) }
{
    let kind = refusal();
    asked_on(alloc, question, question.event.start, view, &kind)
}

/// How it faults where its transaction failed on this view.
fn failed_on<'a>(
    alloc: Global,
    question: Question<'a, '_>,
    view: RefView<'a>,
) -> Result<Option<Faulted>, AllocError>
    requires { MayDo (program_of question.books.now.program) question.doer }
    ensures { IfOk result (λ o. o ≡ asked_on (asked_by question.entry) (asked_by question.entry).event.R (world_of (plain_view view.entry)) failure) }
{
    let kind = EventKind::Fail { at: 0, view: 0 };
    asked_on(alloc, question, question.event.start, view, &kind)
}

/// How it faults where the callee of its swap faulted.
fn broken_on(alloc: Global, question: Question<'_, '_>) -> Result<Option<Faulted>, AllocError>
    requires { MayDo (program_of question.books.now.program) question.doer }
    ensures { IfOk result (λ o. o ≡ asked_on (asked_by question.entry) (asked_by question.entry).event.C (asked_by question.entry).event.C break) }
{
    let kind = EventKind::Broke { at: 0 };
    let here = question.event.here;
    asked_on(alloc, question, here, here, &kind)
}

/// How it faults where its send was refused by this agent.
fn unsent_on(
    alloc: Global,
    question: Question<'_, '_>,
    agent: CellId,
) -> Result<Option<Faulted>, AllocError>
    requires { MayDo (program_of question.books.now.program) question.doer }
    ensures { IfOk result (λ o. o ≡ asked_on (asked_by question.entry) (asked_by question.entry).event.R (asked_by question.entry).event.Q (SendRefused agent)) }
{
    let kind = EventKind::SendRefused { agent };
    let event = question.event;
    asked_on(alloc, question, event.start, event.view, &kind)
}

// ---- events that aren't allowed

/// What differs of a commit, where its transaction did this.
fn commit_run(
    alloc: Global,
    question: Question<'_, '_>,
    writes: &[(CellId, Value)],
    sends: &[Action],
    span: Span,
    done: &Option<TxFrame>,
) -> Result<What, AllocError>
    requires { MayDo (program_of question.books.now.program) question.doer }
    ensures { IfOk result (λ w. w ≡ commit_run (program_of question.entry.books.now.program) question.entry.turns (asked_by question.entry) writes.now sends.now span done.now) }
{
    match done {
        Some(done) => {
            let what = commit_differs(alloc, question, span, done, writes, sends)?;
            or_other(alloc, question, what)
        }
        None => other_what(alloc, question),
    }
}

/// What differs of a commit.
fn commit_what(
    alloc: Global,
    question: Question<'_, '_>,
    writes: &[(CellId, Value)],
    sends: &[Action],
) -> Result<What, AllocError>
    requires { MayDo (program_of question.books.now.program) question.doer }
    ensures { IfOk result (λ w. w ≡ commit_what (program_of question.entry.books.now.program) question.entry.turns (asked_by question.entry) writes.now sends.now (asked_on (asked_by question.entry) (asked_by question.entry).event.R (asked_by question.entry).event.C refusal)) }
{
    let here = question.event.here;
    match refused_on(alloc, question, here)? {
        Some(Faulted { fault, done }) => {
            commit_run(alloc, question, writes, sends, fault.span, &done)
        }
        None => {
            let failed = failed_on(alloc, question, here)?;
            fault_what(alloc, question, failed)
        }
    }
}

/// What differs of a failure: its `dosync` doesn't fault.
fn fail_what(alloc: Global, question: Question<'_, '_>) -> Result<What, AllocError>
    requires { MayDo (program_of question.books.now.program) question.doer }
    ensures { IfOk result (λ w. w ≡ fail_what (asked_by question.entry) (asked_on (asked_by question.entry) (asked_by question.entry).event.R (asked_by question.entry).event.Q refusal)) }
{
    match refused_on(alloc, question, question.event.view)? {
        Some(faulted) => Ok(What::NoFault {
            span: faulted.fault.span,
        }),
        None => other_what(alloc, question),
    }
}

/// What differs of an event where the text may fault.
fn failed_what(alloc: Global, question: Question<'_, '_>) -> Result<What, AllocError>
    requires { MayDo (program_of question.books.now.program) question.doer }
    ensures { IfOk result (λ w. w ≡ fault_what (asked_by question.entry) (asked_on (asked_by question.entry) (asked_by question.entry).event.R (asked_by question.entry).event.Q failure)) }
{
    let failed = failed_on(alloc, question, question.event.view)?;
    fault_what(alloc, question, failed)
}

/// What differs of a retry for this ref: it has no cause.
fn cause_what(alloc: Global, question: Question<'_, '_>, cell: CellId) -> Result<What, AllocError>
    requires { MayDo (program_of question.books.now.program) question.doer }
    ensures { IfOk result (λ w. w ≡ cause_what (asked_by question.entry) cell (asked_on (asked_by question.entry) (asked_by question.entry).event.R (asked_by question.entry).event.Q refusal)) }
{
    match refused_on(alloc, question, question.event.view)? {
        Some(faulted) => Ok(What::Cause {
            cell,
            span: faulted.fault.span,
        }),
        None => failed_what(alloc, question),
    }
}

/// Which form is next, where that is known: a `dosync`.
fn form_what(alloc: Global, question: Question<'_, '_>) -> Result<What, AllocError>
    requires { MayDo (program_of question.books.now.program) question.doer }
    ensures { IfOk result (λ w. w ≡ dosync_what (asked_by question.entry) (asked_on (asked_by question.entry) (asked_by question.entry).event.R (asked_by question.entry).event.Q refusal)) }
{
    let refused = refused_on(alloc, question, question.event.view)?;
    dosync_what(alloc, question, refused)
}

/// What differs of a send to this agent: it sends another action.
fn send_what(alloc: Global, question: Question<'_, '_>, agent: CellId) -> Result<What, AllocError>
    requires { MayDo (program_of question.books.now.program) question.doer }
    ensures { IfOk result (λ w. w ≡ send_what (asked_by question.entry) (asked_on (asked_by question.entry) (asked_by question.entry).event.R (asked_by question.entry).event.Q (SendRefused agent))) }
{
    match unsent_on(alloc, question, agent)? {
        Some(faulted) => Ok(What::Sent {
            span: faulted.fault.span,
        }),
        None => form_what(alloc, question),
    }
}

/// What differs of a swap: its callee faults.
fn swap_what(alloc: Global, question: Question<'_, '_>) -> Result<What, AllocError>
    requires { MayDo (program_of question.books.now.program) question.doer }
    ensures { IfOk result (λ w. w ≡ fault_what (asked_by question.entry) (asked_on (asked_by question.entry) (asked_by question.entry).event.C (asked_by question.entry).event.C break)) }
{
    let broken = broken_on(alloc, question)?;
    fault_what(alloc, question, broken)
}

/// What differs at an event that isn't allowed.
fn wrong_what(alloc: Global, question: Question<'_, '_>) -> Result<What, AllocError>
    requires { MayDo (program_of question.books.now.program) question.doer }
    ensures { IfOk result (λ w. w ≡ wrong_what (program_of question.entry.books.now.program) question.entry.turns (asked_by question.entry) (asked_by question.entry).event.kind) }
{
    match question.event.kind {
        EventKind::Commit { writes, sends, .. } => {
            commit_what(alloc, question, writes.as_slice(), sends.as_slice())
        }
        EventKind::Retry { cell, .. } => cause_what(alloc, question, *cell),
        EventKind::Fail { .. } => fail_what(alloc, question),
        EventKind::Refused { .. } => failed_what(alloc, question),
        EventKind::Send { action } => send_what(alloc, question, action.agent),
        EventKind::Read { .. } | EventKind::SendRefused { .. } => form_what(alloc, question),
        EventKind::Swap { .. } => swap_what(alloc, question),
        EventKind::Act { .. } | EventKind::Broke { .. } => other_what(alloc, question),
    }
}

// ---- events that are allowed

/// What disturbed the transaction of a commit with this read point, where it did this.
fn committed_run(
    alloc: Global,
    question: Question<'_, '_>,
    at: u32,
    events: u32,
    span: Span,
    done: &Option<TxFrame>,
) -> Result<What, AllocError>
    requires { MayDo (program_of question.books.now.program) question.doer }
    ensures { IfOk result (λ w. w ≡ committed_run (take events question.entry.books.now.report.book) at (asked_by question.entry) span done.now) }
{
    match done {
        Some(done) => {
            let what = disturbed_what(question.books, done, at, events, span)?;
            or_other(alloc, question, what)
        }
        None => other_what(alloc, question),
    }
}

/// What disturbed the transaction of a commit with this read point.
fn committed_what(
    alloc: Global,
    question: Question<'_, '_>,
    at: u32,
    events: u32,
) -> Result<What, AllocError>
    requires { MayDo (program_of question.books.now.program) question.doer }
    ensures { IfOk result (λ w. w ≡ committed_what (take events question.entry.books.now.report.book) at (asked_by question.entry) (asked_on (asked_by question.entry) (asked_by question.entry).event.R (asked_by question.entry).event.C refusal)) }
{
    match refused_on(alloc, question, question.event.here)? {
        Some(Faulted { fault, done }) => {
            committed_run(alloc, question, at, events, fault.span, &done)
        }
        None => other_what(alloc, question),
    }
}

/// What disturbed the transaction of a refusal by this agent, or that another one had failed first, where it did this.
fn refused_run(
    alloc: Global,
    question: Question<'_, '_>,
    at: u32,
    agent: CellId,
    events: u32,
    span: Span,
    done: &Option<TxFrame>,
) -> Result<What, AllocError>
    requires { MayDo (program_of question.books.now.program) question.doer }
    ensures { IfOk result (λ w. w ≡ refused_run (cells_of question.entry.books.now.program.cells) (take events question.entry.books.now.report.book) at agent (asked_by question.entry) span done.now) }
{
    match done {
        Some(done) => {
            let books = question.books;
            match disturbed_what(books, done, at, events, span)? {
                Some(what) => Ok(what),
                None => Ok(What::Refusal {
                    expected: first_failed(books, done.sends(), events),
                    found: agent,
                    span,
                }),
            }
        }
        None => other_what(alloc, question),
    }
}

/// What disturbed the transaction of a refusal by this agent, or that another one had failed first.
fn refused_what(
    alloc: Global,
    question: Question<'_, '_>,
    at: u32,
    agent: CellId,
    events: u32,
) -> Result<What, AllocError>
    requires { MayDo (program_of question.books.now.program) question.doer }
    ensures { IfOk result (λ w. w ≡ refused_what (cells_of question.entry.books.now.program.cells) (take events question.entry.books.now.report.book) at agent (asked_by question.entry) (asked_on (asked_by question.entry) (asked_by question.entry).event.R (asked_by question.entry).event.Q refusal)) }
{
    match refused_on(alloc, question, question.event.view)? {
        Some(Faulted { fault, done }) => {
            refused_run(alloc, question, at, agent, events, fault.span, &done)
        }
        None => other_what(alloc, question),
    }
}

/// What disturbed the transaction that an event of this kind ended, behind so many events of the store's book.
fn ended_what(
    alloc: Global,
    question: Question<'_, '_>,
    kind: &EventKind,
    events: u32,
) -> Result<What, AllocError>
    requires { MayDo (program_of question.books.now.program) question.doer }
    ensures { IfOk result (λ w. w ≡ calm_what (cells_of question.entry.books.now.program.cells) (take events question.entry.books.now.report.book) (asked_by question.entry) kind.now) }
{
    match kind {
        EventKind::Commit { at, .. } => committed_what(alloc, question, *at, events),
        EventKind::Refused { at, agent, .. } => {
            refused_what(alloc, question, *at, *agent, events)
        }
        _ => other_what(alloc, question),
    }
}

/// What differs at an event that is allowed, and stands at this place: its transaction was disturbed.
fn calm_at(alloc: Global, question: Question<'_, '_>, place: Place) -> Result<What, AllocError>
    requires { MayDo (program_of question.books.now.program) question.doer }
    ensures { IfOk result (λ w. w ≡ calm_at (cells_of question.entry.books.now.program.cells) (take place.at (books_of question.entry.books.now.report place.book)) (asked_by question.entry) (nth (books_of question.entry.books.now.report place.book) place.at)) }
{
    match end_at(question.books, place) {
        Some(kind) => ended_what(alloc, question, kind, place.at),
        None => other_what(alloc, question),
    }
}

/// The same, or that the text was over before it, where it ends so.
fn over_or_calm(
    alloc: Global,
    question: Question<'_, '_>,
    place: Place,
    ended: Option<Outcome>,
) -> Result<What, AllocError>
    requires { MayDo (program_of question.books.now.program) question.doer }
    ensures { IfOk result (λ w. w ≡ late_what (cells_of question.entry.books.now.program.cells) (take place.at (books_of question.entry.books.now.report place.book)) (asked_by question.entry) (nth (books_of question.entry.books.now.report place.book) place.at) ended) }
{
    match ended {
        Some(ended) => Ok(What::Over { ended }),
        None => calm_at(alloc, question, place),
    }
}

/// What differs at an event that is allowed, and stands at this place: the text was over before it, or its transaction was disturbed.
fn late_what(alloc: Global, question: Question<'_, '_>, place: Place) -> Result<What, AllocError>
    requires { MayDo (program_of question.books.now.program) question.doer }
    ensures { IfOk result (λ w. w ≡ late_what (cells_of question.entry.books.now.program.cells) (take place.at (books_of question.entry.books.now.report place.book)) (asked_by question.entry) (nth (books_of question.entry.books.now.report place.book) place.at) (outcome_of ((asked_by question.entry).means (asked_by question.entry).front))) }
{
    let meant = mean_within(
        alloc,
        question.books,
        question.doer,
        question.front,
        question.turns,
    )?;
    over_or_calm(alloc, question, place, meant.ended)
}

/// Whether the event is allowed behind those before it.
fn is_allowed(alloc: Global, question: Question<'_, '_>) -> Result<bool, AllocError>
    requires { MayDo (program_of question.books.now.program) question.doer }
    ensures { IfOk result (λ b. b ≡ not (is_wrong ((asked_by question.entry).means ((asked_by question.entry).front ++ (asked_by question.entry).event ∷ [])))) }
{
    let all = with_event(alloc, question.front, question.event)?;
    let seen = all.as_slice();
    allows(alloc, question.books, question.doer, seen, question.turns)
}

/// What differs at an event that stands at this place.
pub fn event_what(
    alloc: Global,
    question: Question<'_, '_>,
    place: Place,
) -> Result<What, AllocError>
    requires { MayDo (program_of question.books.now.program) question.doer }
    ensures { IfOk result (λ w. w ≡ asked_what (program_of question.entry.books.now.program) question.entry.turns (take place.at (books_of question.entry.books.now.report place.book)) (nth (books_of question.entry.books.now.report place.book) place.at) (asked_by question.entry)) }
{
    let allowed = is_allowed(alloc, question)?;
    if allowed {
        return late_what(alloc, question, place);
    }
    wrong_what(alloc, question)
}
