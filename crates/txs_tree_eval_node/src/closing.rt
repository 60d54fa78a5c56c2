//! What the event at the end of a transaction makes of what its body and its commutes gave.

ghost use Rattle.std.specs.Prelude.{◌≡◌};
ghost use Rattle.txs_frame.specs.Frame.{sends_of_commit};
ghost use Rattle.txs_tree_eval_node.specs.Evaluated.{Closes, closing, end_stop, end_view, ends_as, thread_state, tx_run};
ghost use Rattle.txs_tree_eval_transaction.specs.Views.{plain_view, plain_world};

use crate::seen::Seen;
use crate::state::{Progress, Transacted};
use txs_tree_eval_transaction::{RefView, ThreadStop, same_commit};
use txs_value_cell::Action;
use txs_value_data::{CellId, Span, Value};
use txs_world_protocol::EventKind;

/// The world on which the commutes of a transaction ran, if the event is one of its end: a commit has them on the world at its
/// place, a failure and a refusal on the one that was viewed.
pub(crate) fn end_view<'a>(event: &Seen<'a>) -> Option<RefView<'a>>
    ensures { plain_world result ≡ end_view event.now.kind.now (plain_view event.now.view) (plain_view event.now.here) }
{
    match event.kind {
        EventKind::Commit { .. } => Some(event.here),
        EventKind::Fail { .. } | EventKind::Refused { .. } => Some(event.view),
        _ => None,
    }
}

/// Why a dosync gives no value at the event of its transaction's end, where its body or a commute stops so: a fault may come at
/// a failure alone.
pub(crate) fn end_stop(kind: &EventKind, stop: ThreadStop) -> ThreadStop
    ensures { result ≡ end_stop kind.now stop }
{
    match kind {
        EventKind::Commit { .. } | EventKind::Refused { .. } => stop.without_fault(),
        EventKind::Fail { .. } => stop,
        _ => ThreadStop::Wrong,
    }
}

/// What a run is to the event of its transaction's end.
#[derive(Clone, Copy)]
pub(crate) enum Closing {
    /// It is refused.
    Refused,
    /// It is what the commit says.
    Committed,
    /// It isn't what the event says, or came to no final writes.
    Stopped(ThreadStop),
}

/// What a run with these final writes and sends is to the event. That an agent had failed is given by the journal, and not asked
/// here.
fn ends_as(kind: &EventKind, last: &[(CellId, Value)], held: &[Action]) -> Closing
    ensures { result ≡ ends_as kind.now last.now held.now }
{
    match kind {
        EventKind::Refused { .. } => Closing::Refused,
        EventKind::Commit { writes, sends, .. }
            if same_commit(last, held, writes.as_slice(), sends.as_slice()) => {
            Closing::Committed
        }
        _ => Closing::Stopped(ThreadStop::Wrong),
    }
}

/// The same of a run that came to these final writes.
fn closes_as(
    kind: &EventKind,
    last: Result<Vec<(CellId, Value)>, ThreadStop>,
    held: &[Action],
) -> Closing
    ensures { result ≡ closing (λ ws. ws.items) kind.now last held.now }
{
    match last {
        Ok(last) => ends_as(kind, last.as_slice(), held),
        Err(stop) => Closing::Stopped(end_stop(kind, stop)),
    }
}

/// What a dosync gives at the event of its transaction's end, where its run came to these final writes: a run is noted where it is
/// refused, or is what the commit says.
pub(crate) fn close<'a>(
    kind: &EventKind,
    run: Transacted<'a>,
    last: Result<Vec<(CellId, Value)>, ThreadStop>,
    span: Span,
    thread: &mut Progress<'a>,
) -> Result<Value, ThreadStop>
    ensures value { Closes (closing (λ ws. ws.items) kind.now last (sends_of_commit (thread_state thread.old).held run.entry.work.done.sends)) span (tx_run run.entry) result (thread_state thread.old) (thread_state thread.new) }
    ensures kept { (thread_state thread.new).todo ≡ (thread_state thread.old).todo }
{
    let sends = thread.commits(run.work.done.sends());
    match closes_as(kind, last, sends) {
        Closing::Refused => thread.refuse(run, span),
        Closing::Committed => thread.note(run),
        Closing::Stopped(stop) => {
            drop(run);
            Err(stop)
        }
    }
}
