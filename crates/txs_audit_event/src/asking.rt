//! What is supposed of a thread or an action: how it faults where its next event were another one.

ghost use Rattle.std.specs.Prelude.{◌≡◌, ◌<◌, ◌++◌, ◌∷◌, [], ℕ, length, IfOk};
ghost use Rattle.txs_tree_eval.specs.declared.transaction.TxMeaning.{TxMeaning as AMeaning};
ghost use Rattle.txs_tree_eval_node.specs.Events.{seen_event, seen_events};
ghost use Rattle.txs_tree_eval_transaction.specs.Views.{plain_view, world_of};
ghost use Rattle.txs_tree_meaning.specs.Meaning.{Completion};
ghost use Rattle.txs_tree_meaning.specs.Thread.{ThreadState};
ghost use Rattle.txs_tree_meaning.specs.View.{program_of};
ghost use Rattle.txs_value_data.specs.declared.value.Value.{Value as AnyValue};
ghost use Rattle.txs_audit_event.specs.Asking.{asked_by, last_meant};
ghost use Rattle.txs_audit_event.specs.Meant.{MayDo, TellsMeant};
ghost use Rattle.txs_audit_event.specs.Transactions.{asked_on, dosync_what, fault_what, faulted, or_what, other_what};

use crate::meant::{Doer, Meant, mean_within};
use crate::what::What;
use std::alloc::{AllocError, Global};
use txs_audit_evidence::Books;
use txs_frame::TxFrame;
use txs_tree_eval::{RefView, Seen, TxMeaning};
use txs_value_data::{Fault, Listed};
use txs_world_protocol::{EventKind, Outcome};

/// A fault, and what the last transaction did that was noted until then.
#[derive(Drop)]
pub struct Faulted {
    pub fault: Fault,
    pub done: Option<TxFrame>,
}

/// An event of a thread or an action, and those before it: what is asked of it.
#[derive(Clone, Copy)]
pub struct Question<'a, 'p> {
    pub books: &'a Books<'p>,
    pub turns: u32,
    pub doer: Doer<'a>,
    pub front: &'a [Seen<'a>],
    pub event: Seen<'a>,
}

/// These events, and this one behind them.
pub fn with_event<'a>(
    alloc: Global,
    front: &[Seen<'a>],
    event: Seen<'a>,
) -> Result<Vec<Seen<'a>>, AllocError>
    ensures { IfOk result (λ all. seen_events all.items ≡ seen_events front.now ++ seen_event event.entry ∷ []) }
{
    let mut all = Vec::from_slice(alloc, front)?;
    all.push(event)?;
    Ok(all)
}

/// What the last of these transactions did.
fn last_done(txs: Listed<TxMeaning>) -> Option<TxFrame>
    ensures { result ≡ last_meant txs }
{
    let mut txs = txs.into_vec();
    match txs.pop() {
        Some(meaning) => Some(meaning.done),
        None => None,
    }
}

/// How something faults of which this is answered on so many events, if it eats all of them.
fn fault_of(meant: Meant, events: usize) -> Option<Faulted>
    requires { 0 < events }
    ensures { (c : Completion ThreadState AnyValue) → TellsMeant meant events c → result ≡ faulted c }
{
    match meant.ended {
        Some(Outcome::Failed(fault)) => {
            if meant.eaten != events {
                return None;
            }
            Some(Faulted {
                fault,
                done: last_done(meant.txs),
            })
        }
        _ => None,
    }
}

/// How it faults where the event were of this kind, and its transaction had these worlds at its read point and its view.
pub fn asked_on<'a>(
    alloc: Global,
    question: Question<'a, '_>,
    start: RefView<'a>,
    view: RefView<'a>,
    kind: &'a EventKind,
) -> Result<Option<Faulted>, AllocError>
    requires { MayDo (program_of question.books.now.program) question.doer }
    ensures { IfOk result (λ o. o ≡ asked_on (asked_by question.entry) (world_of (plain_view start.entry)) (world_of (plain_view view.entry)) kind.now) }
{
    let event = Seen {
        book: question.event.book,
        kind,
        start,
        view,
        here: question.event.here,
    };
    let all = with_event(alloc, question.front, event)?;
    let seen = all.as_slice();
    let meant = mean_within(alloc, question.books, question.doer, seen, question.turns)?;
    Ok(fault_of(meant, seen.len()))
}

/// Another event is next.
pub fn other_what(alloc: Global, question: Question<'_, '_>) -> Result<What, AllocError>
    requires { MayDo (program_of question.books.now.program) question.doer }
    ensures { IfOk result (λ w. w ≡ other_what (asked_by question.entry)) }
{
    let Question {
        books,
        turns,
        doer,
        front,
        event: _,
    } = question;
    let meant = mean_within(alloc, books, doer, front, turns)?;
    Ok(What::Event { book: meant.asks })
}

/// What there is, or that another event is next.
pub fn or_other(
    alloc: Global,
    question: Question<'_, '_>,
    what: Option<What>,
) -> Result<What, AllocError>
    requires { MayDo (program_of question.books.now.program) question.doer }
    ensures { IfOk result (λ w. w ≡ or_what what (other_what (asked_by question.entry))) }
{
    match what {
        Some(what) => Ok(what),
        None => other_what(alloc, question),
    }
}

/// The text faults so, or another event is next.
pub fn fault_what(
    alloc: Global,
    question: Question<'_, '_>,
    faulted: Option<Faulted>,
) -> Result<What, AllocError>
    requires { MayDo (program_of question.books.now.program) question.doer }
    ensures { IfOk result (λ w. w ≡ fault_what (asked_by question.entry) faulted) }
{
    match faulted {
        Some(faulted) => Ok(What::Faults {
            fault: faulted.fault,
        }),
        None => other_what(alloc, question),
    }
}

/// A `dosync` is next, or another event.
pub fn dosync_what(
    alloc: Global,
    question: Question<'_, '_>,
    faulted: Option<Faulted>,
) -> Result<What, AllocError>
    requires { MayDo (program_of question.books.now.program) question.doer }
    ensures { IfOk result (λ w. w ≡ dosync_what (asked_by question.entry) faulted) }
{
    match faulted {
        Some(faulted) => Ok(What::Dosync {
            span: faulted.fault.span,
        }),
        None => other_what(alloc, question),
    }
}
