//! How an actor ended, against what its source means.

ghost use Rattle.std.specs.Prelude.{◌≡◌};
ghost use Rattle.txs_value_data.specs.Faults.{fault_number};
ghost use Rattle.txs_world_protocol.specs.Ask.{same_fault, same_span};
ghost use Rattle.txs_theorem_audit.specs.Verdict.{begins, is_full_stop, is_stopped, same_numbers};
ghost use Rattle.txs_theorem_audit.specs.Evaluated.{same_end};

use txs_value_data::{Fault, FaultKind, Span};
use txs_world_protocol::Outcome;

/// The number of a kind of fault.
fn fault_number(kind: FaultKind) -> u8
    ensures { result ≡ fault_number kind }
{
    kind as u8
}

/// Whether these are the same bytes of a script.
fn same_span(a: Span, b: Span) -> bool
    ensures { result ≡ same_span a b }
{
    a.from == b.from && a.to == b.to
}

/// Whether these faults are the same.
pub fn same_fault(a: Fault, b: Fault) -> bool
    ensures { result ≡ same_fault a b }
{
    fault_number(a.kind) == fault_number(b.kind) && same_span(a.span, b.span)
}

/// Whether an actor was stopped, or hasn't ended.
pub fn is_stopped(outcome: Option<Outcome>) -> bool
    ensures { result ≡ is_stopped outcome }
{
    match outcome {
        Some(Outcome::Done | Outcome::Failed(_)) => false,
        Some(Outcome::StepsSpent | Outcome::JournalFull | Outcome::Memory) | None => true,
    }
}

/// Whether an actor was stopped for a full book.
pub fn is_full_stop(outcome: Option<Outcome>) -> bool
    ensures { result ≡ is_full_stop outcome }
{
    match outcome {
        Some(Outcome::JournalFull) => true,
        _ => false,
    }
}

/// Whether a thread ended as its meaning does.
pub fn same_end(meant: Option<Outcome>, told: Option<Outcome>) -> bool
    ensures { result ≡ same_end meant told }
{
    match meant {
        Some(Outcome::Done) => match told {
            Some(Outcome::Done) => true,
            _ => false,
        },
        Some(Outcome::Failed(a)) => match told {
            Some(Outcome::Failed(b)) => same_fault(a, b),
            _ => false,
        },
        _ => false,
    }
}

/// Whether these bytes begin the others.
pub fn begins(part: &[u8], whole: &[u8]) -> bool
    ensures { result ≡ begins part.now whole.now }
{
    if part.len() > whole.len() {
        return false;
    }
    for i in 0..part.len() {
        if part[i] != whole[i] {
            return false;
        }
    }
    true
}

/// Whether these are the same bytes.
pub fn same_bytes(a: &[u8], b: &[u8]) -> bool
    ensures { result ≡ same_numbers a.now b.now }
{
    if a.len() != b.len() {
        return false;
    }
    begins(a, b)
}
