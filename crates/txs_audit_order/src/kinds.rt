//! What an event's kind says: whether it ends a transaction, and the indexes of its read point and of its view.

ghost use Rattle.std.specs.Prelude.{◌≡◌, option_copied};
ghost use Rattle.txs_world_book.specs.History.{at_of, began_at, view_of};
ghost use Rattle.txs_theorem_audit.specs.Verdict.{is_commit, is_end};
ghost use Rattle.txs_audit_order.specs.Kinds.{end_of};

use txs_world_protocol::{Cause, Event, EventKind};

/// Whether an event ends a transaction.
pub fn is_end(kind: &EventKind) -> bool
    ensures { result ≡ is_end kind.now }
{
    match kind {
        EventKind::Commit { .. } | EventKind::Refused { .. } => true,
        _ => false,
    }
}

/// Whether an event is a commit.
pub fn is_commit(kind: &EventKind) -> bool
    ensures { result ≡ is_commit kind.now }
{
    match kind {
        EventKind::Commit { .. } => true,
        _ => false,
    }
}

/// What an event is, where it ends a transaction.
pub fn end_of(event: &Event) -> Option<&EventKind>
    ensures { option_copied result ≡ end_of event.now }
{
    if is_end(&event.kind) {
        return Some(&event.kind);
    }
    None
}

/// The index of an event's read point: its own where it has none.
pub fn at_of(kind: &EventKind, own: u32) -> u32
    ensures { result ≡ at_of kind.now own }
{
    match kind {
        EventKind::Commit { at, .. }
        | EventKind::Fail { at, .. }
        | EventKind::Refused { at, .. }
        | EventKind::Broke { at } => *at,
        EventKind::Retry { since, cause, .. } => began_at(*cause, *since),
        _ => own,
    }
}

/// The index at which a transaction began that had to run again.
fn began_at(cause: Cause, since: u32) -> u32
    ensures { result ≡ began_at cause since }
{
    match cause {
        Cause::Outdated | Cause::Held => since,
        Cause::Commuted { at } => at,
    }
}

/// The index of an event's view: its own where it has none.
pub fn view_of(kind: &EventKind, own: u32) -> u32
    ensures { result ≡ view_of kind.now own }
{
    match kind {
        EventKind::Commit { view, .. }
        | EventKind::Fail { view, .. }
        | EventKind::Refused { view, .. } => *view,
        _ => own,
    }
}
