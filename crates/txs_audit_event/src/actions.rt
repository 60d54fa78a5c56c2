//! What differs of what an action came to, against its act.

ghost use Rattle.std.specs.Prelude.{◌≡◌, ◌≤◌, ◌<◌, ◌-◌, ◌⊎◌, length, suc, take, true, false, IfOk, IsTrue, IsFalse};
ghost use Rattle.txs_value_data.specs.Places.{fault_at};
ghost use Rattle.txs_value_data.specs.declared.fault.FaultKind.TheVariants.{AgentFailed};
ghost use Rattle.txs_world_book.specs.Served.{cells_of};
ghost use Rattle.txs_tree_eval_node.specs.Events.{seen_events};
ghost use Rattle.txs_tree_meaning.specs.Known.{known};
ghost use Rattle.txs_tree_meaning.specs.View.{functions_of, program_of};
ghost use Rattle.txs_theorem_audit.specs.Verdict.{is_sent_call};
ghost use Rattle.txs_theorem_audit.specs.Evaluated.{means_on};
ghost use Rattle.txs_audit_book.specs.Judged.{as_end};
ghost use Rattle.txs_audit_event.specs.Given.{gave_by, is_open, is_short_end};
ghost use Rattle.txs_audit_event.specs.Transactions.{booked_what, gave_what, or_what, sent_what, valued_what};

use crate::commits::sent_what;
use crate::what::What;
use std::alloc::{AllocError, Global};
use txs_audit_book::bounds::{first_bound, next_bound};
use txs_audit_book::{ActionEnd, action_end};
use txs_audit_evidence::Books;
use txs_audit_evidence::acts::{Act, answered};
use txs_audit_evidence::transactions::first_failed;
use txs_tree_eval::Seen;
use txs_value_cell::Action;
use txs_value_data::{CellId, Fault, FaultKind, Span, Value, copy_value};
use txs_world_protocol::same_new;

/// What an action came to, in memory of its own.
fn copy_new(new: &Result<Value, Fault>) -> Result<Result<Value, Fault>, AllocError>
    ensures { IfOk result (λ c. c ≡ new.now) }
{
    match new {
        Ok(value) => Ok(Ok(copy_value(value)?)),
        Err(fault) => Ok(Err(*fault)),
    }
}

/// The sends that differ of an action that came to what it was to.
fn sends_differ(span: Span, held: &[Action], sends: &[Action]) -> Result<What, AllocError>
    ensures { IfOk result (λ w. w ≡ or_what (sent_what span 0 held.now sends.now) (What.Event None)) }
{
    match sent_what(span, held, sends)? {
        Some(what) => Ok(what),
        None => Ok(What::Event { book: None }),
    }
}

/// What differs of what an action came to, where the text gives this and sends that.
fn booked_what(
    span: Span,
    meant: Result<Value, Fault>,
    held: &[Action],
    new: &Result<Value, Fault>,
    sends: &[Action],
) -> Result<What, AllocError>
    ensures { IfOk result (λ w. w ≡ booked_what span meant held.now new.now sends.now) }
{
    if same_new(&meant, new) {
        drop(meant);
        return sends_differ(span, held, sends);
    }
    Ok(What::Gave {
        expected: meant,
        found: copy_new(new)?,
    })
}

/// The fault of an action of whose sends an agent had failed.
fn failure(span: Span) -> Fault
    ensures { result ≡ fault_at AgentFailed span }
{
    Fault {
        kind: FaultKind::AgentFailed,
        span,
    }
}

/// The same of a value, by the first agent of its sends that had failed.
fn valued_what(
    failed: Option<CellId>,
    span: Span,
    value: Value,
    held: &[Action],
    new: &Result<Value, Fault>,
    sends: &[Action],
) -> Result<What, AllocError>
    ensures { IfOk result (λ w. w ≡ valued_what failed span value held.now new.now sends.now) }
{
    match failed {
        None => booked_what(span, Ok(value), held, new, sends),
        Some(_) => {
            drop(value);
            booked_what(span, Err(failure(span)), &[], new, sends)
        }
    }
}

/// What differs of what an action came to by its act, where it ends so and holds these sends.
fn gave(
    books: &Books<'_>,
    span: Span,
    held: &[Action],
    end: ActionEnd,
    act: Act<'_>,
) -> Result<What, AllocError>
    ensures { IfOk result (λ w. w ≡ gave_by (cells_of books.now.program.cells) (take act.entry.at books.now.report.book) span act.entry.new.now act.entry.sends.now held.now (as_end end)) }
{
    match end {
        ActionEnd::HandedIn(Ok(value)) => {
            let failed = first_failed(books, held, act.at);
            valued_what(failed, span, value, held, act.new, act.sends)
        }
        ActionEnd::HandedIn(Err(fault)) => {
            booked_what(span, Err(fault), &[], act.new, act.sends)
        }
        ActionEnd::LacksEvent => Ok(What::Unfinished),
        ActionEnd::LacksTurns | ActionEnd::Disallows => Ok(What::Event { book: None }),
    }
}

/// Whether an action lacks turns.
fn is_short_end(end: &ActionEnd) -> bool
    ensures { result ≡ is_short_end (as_end end.now) }
{
    match end {
        ActionEnd::LacksTurns => true,
        _ => false,
    }
}

/// What differs of what an action came to, and whether it lacked turns.
#[derive(Drop)]
struct Came {
    what: What,
    short: bool,
}

/// What differs of what this action came to on this state and these events, by its act, where each loop makes at most so many turns.
fn came_with<'b>(
    alloc: Global,
    books: &'b Books<'_>,
    bound: u32,
    action: &Action,
    state: &Value,
    act: Act<'_>,
    seen: &'b [Seen<'b>],
) -> Result<Came, AllocError>
    requires { is_sent_call (known (functions_of books.now.program.functions)) action.now.callee (suc (length action.now.args)) ≡ true }
    ensures what { IfOk result (λ c. c.what ≡ gave_what (cells_of books.now.program.cells) (take act.entry.at books.now.report.book) action.now.span act.entry.new.now act.entry.sends.now (means_on (program_of books.now.program) bound action.now state.now (seen_events seen.now))) }
    ensures short { IfOk result (λ c. c.short ≡ is_open (means_on (program_of books.now.program) bound action.now state.now (seen_events seen.now))) }
{
    // A step of the proof, which does nothing when it runs.
    books.program().is_sound();
    let meaning = answered(alloc, books, bound, action, state, seen)?;
    let end = action_end(alloc, books.program(), bound, action, &meaning)?;
    let short = is_short_end(&end);
    let held = meaning.sends.as_slice();
    let what = gave(books, action.span, held, end, act)?;
    Ok(Came { what, short })
}

/// Whether more turns are wanted and allowed.
fn is_wanting(short: bool, bound: u32, turns: u32) -> bool
    requires { bound ≤ turns }
    ensures more { IsTrue result → bound < turns }
    ensures enough { IsFalse result → (bound ≡ turns) ⊎ (short ≡ false) }
{
    short && bound < turns
}

/// The same where each loop makes at most `turns` turns: with few turns first, and with more only where these don't suffice.
pub fn came_within<'b>(
    alloc: Global,
    books: &'b Books<'_>,
    turns: u32,
    action: &Action,
    state: &Value,
    act: Act<'_>,
    seen: &'b [Seen<'b>],
) -> Result<What, AllocError>
    requires { is_sent_call (known (functions_of books.now.program.functions)) action.now.callee (suc (length action.now.args)) ≡ true }
    ensures { IfOk result (λ w. w ≡ gave_what (cells_of books.now.program.cells) (take act.entry.at books.now.report.book) action.now.span act.entry.new.now act.entry.sends.now (means_on (program_of books.now.program) turns action.now state.now (seen_events seen.now))) }
{
    // A step of the proof, which does nothing when it runs.
    books.program().is_sound();
    let mut bound = first_bound(turns);
    loop {
        let came = came_with(alloc, books, bound, action, state, act, seen)?;
        if !is_wanting(came.short, bound, turns) {
            return Ok(came.what);
        }
        bound = next_bound(bound, turns);
    }
}
