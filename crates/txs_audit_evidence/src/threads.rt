//! What an audit finds of a thread.

ghost use Rattle.std.specs.Prelude.{◌≡◌, ◌<◌, length, IfOk, Some};
ghost use Rattle.txs_value_data.specs.Places.{nth};
ghost use Rattle.txs_tree_meaning.specs.Thread.{thread_meaning};
ghost use Rattle.txs_tree_meaning.specs.Tree.{PlainThread};
ghost use Rattle.txs_tree_meaning.specs.View.{program_of};
ghost use Rattle.txs_tree_eval.specs.Told.{Tells};
ghost use Rattle.txs_tree_eval_node.specs.Events.{seen_events};
ghost use Rattle.txs_theorem_threads.specs.FollowsAll.{source_of};
ghost use Rattle.txs_theorem_audit.specs.Audited.{Fine, books_of, ran_as};
ghost use Rattle.txs_theorem_audit.specs.Explained.{events_of};
ghost use Rattle.txs_theorem_audit.specs.Pieces.{OfThread, piece_finding, piece_serial, thread_serial};
ghost use Rattle.txs_theorem_audit.specs.Verdict.{thread_ends, thread_found};
ghost use Rattle.txs_audit_book.specs.Judged.{as_found};

use crate::books::Books;
use crate::transactions::{Found, transactions_found};
use std::alloc::{AllocError, Global};
use txs_audit_book::bounds::{first_bound, is_short, next_bound};
use txs_audit_book::ends::is_full_stop;
use txs_audit_book::{Finding, end_found, full_end};
use txs_theorem_audit::{
    calm_is_answered, covered_is_answered, full_is_answered, noted_are_answered, thread_stays,
};
use txs_tree_eval::{Seen, ThreadMeaning, eval_thread};
use txs_world_protocol::ActorReport;

/// What is found of the end of the program's thread with this entry, whose meaning on these events with their worlds is told so. Where
/// it was stopped for a full book, the book that it needs is looked at.
fn thread_ends<'b>(
    alloc: Global,
    books: &'b Books<'_>,
    thread: u16,
    turns: u32,
    ran: &ActorReport,
    seen: &'b [Seen<'b>],
    meaning: &ThreadMeaning,
) -> Result<Finding, AllocError>
    requires { thread < length books.now.program.threads }
    ensures { IfOk result (λ f. (t : PlainThread) → nth (program_of books.now.program).threads thread ≡ Some t
        → Tells meaning.now (source_of (program_of books.now.program) t) turns (seen_events seen.now)
        → as_found f ≡ thread_ends (books_of books.now.report) (source_of (program_of books.now.program) t) turns thread (seen_events seen.now) (ran_as ran.now) (thread_meaning (source_of (program_of books.now.program) t) turns (seen_events seen.now))) }
{
    // A law and a step of the proof, which do nothing when they run.
    full_is_answered();
    books.program().is_sound();
    if is_full_stop(ran.outcome) {
        let full = books.is_full(meaning.asks);
        let out = ran.printed.as_slice();
        return Ok(full_end(thread, seen.len(), out, meaning, full));
    }
    end_found(alloc, books.program(), thread, seen, turns, ran, meaning)
}

/// What is found of the program's thread with this entry, whose meaning on the entry's events with their worlds is told so: its
/// transactions, and then its end.
fn judge<'b>(
    alloc: Global,
    books: &'b Books<'_>,
    thread: u16,
    turns: u32,
    ran: &ActorReport,
    seen: &'b [Seen<'b>],
    meaning: &ThreadMeaning,
) -> Result<Found, AllocError>
    requires there { thread < length books.now.program.threads }
    requires events { seen_events seen.now ≡ events_of (program_of books.now.program) books.now.report (ran_as ran.now) }
    ensures finding { IfOk result (λ f. (t : PlainThread) → nth (program_of books.now.program).threads thread ≡ Some t
        → Tells meaning.now (source_of (program_of books.now.program) t) turns (seen_events seen.now)
        → as_found f.finding ≡ thread_found (program_of books.now.program) books.now.report turns thread t (ran_as ran.now)) }
    ensures serial { IfOk result (λ f. (t : PlainThread) → nth (program_of books.now.program).threads thread ≡ Some t
        → Tells meaning.now (source_of (program_of books.now.program) t) turns (seen_events seen.now)
        → as_found f.finding ≡ Fine
        → f.serial ≡ thread_serial (program_of books.now.program) books.now.report turns (Some t) (Some (ran_as ran.now))) }
{
    // Laws that the proof uses; they do nothing when they run.
    calm_is_answered();
    covered_is_answered();
    noted_are_answered();
    let trace = ran.trace.as_slice();
    let found = transactions_found(books, thread, 0, trace, meaning.txs.as_slice())?;
    if !found.finding.is_fine() {
        return Ok(found);
    }
    let finding = thread_ends(alloc, books, thread, turns, ran, seen, meaning)?;
    Ok(Found {
        finding,
        serial: found.serial,
    })
}

/// What is found of the thread with this number and entry, where its events with their worlds are these and each loop makes at most so many
/// turns.
fn thread_with<'b>(
    alloc: Global,
    books: &'b Books<'_>,
    thread: u16,
    bound: u32,
    ran: &ActorReport,
    seen: &'b [Seen<'b>],
) -> Result<Found, AllocError>
    requires here { nth books.now.report.threads thread ≡ Some (ran_as ran.now) }
    requires events { seen_events seen.now ≡ events_of (program_of books.now.program) books.now.report (ran_as ran.now) }
    ensures finding { IfOk result (λ f. as_found f.finding ≡ piece_finding (program_of books.now.program) books.now.report bound (OfThread thread)) }
    ensures serial { IfOk result (λ f. as_found f.finding ≡ Fine → f.serial ≡ piece_serial (program_of books.now.program) books.now.report bound (OfThread thread)) }
{
    books.are_legal();
    let number = usize::from(thread);
    let meaning = eval_thread(alloc, books.program(), number, seen, bound)?;
    judge(alloc, books, thread, bound, ran, seen, &meaning)
}

/// The same where each loop makes at most `turns` turns. The thread is evaluated with few turns first, and with more only where these don't
/// suffice.
fn thread_within<'b>(
    alloc: Global,
    books: &'b Books<'_>,
    thread: u16,
    turns: u32,
    ran: &ActorReport,
    seen: &'b [Seen<'b>],
) -> Result<Found, AllocError>
    requires here { nth books.now.report.threads thread ≡ Some (ran_as ran.now) }
    requires events { seen_events seen.now ≡ events_of (program_of books.now.program) books.now.report (ran_as ran.now) }
    ensures finding { IfOk result (λ f. as_found f.finding ≡ piece_finding (program_of books.now.program) books.now.report turns (OfThread thread)) }
    ensures serial { IfOk result (λ f. as_found f.finding ≡ Fine → f.serial ≡ piece_serial (program_of books.now.program) books.now.report turns (OfThread thread)) }
{
    // A law and a step of the proof, which do nothing when they run.
    thread_stays();
    books.program().is_sound();
    let mut bound = first_bound(turns);
    loop {
        let found = thread_with(alloc, books, thread, bound, ran, seen)?;
        if !is_short(found.finding, bound, turns) {
            return Ok(found);
        }
        bound = next_bound(bound, turns);
    }
}

/// What an audit finds of the thread with this number, where each loop makes at most `turns` turns; and where that is nothing,
/// whether each of its commits is covered. Nothing is found of a number that no thread has.
///
/// # Errors
/// `AllocError` where there was no memory for what the thread means.
pub fn thread_found(
    alloc: Global,
    books: &Books<'_>,
    thread: u16,
    turns: u32,
) -> Result<Found, AllocError>
    ensures finding { IfOk result (λ f. as_found f.finding ≡ piece_finding (program_of books.now.program) books.now.report turns (OfThread thread)) }
    ensures serial { IfOk result (λ f. as_found f.finding ≡ Fine → f.serial ≡ piece_serial (program_of books.now.program) books.now.report turns (OfThread thread)) }
{
    let Some(ran) = books.report().threads.get(usize::from(thread)) else {
        return Ok(Found {
            finding: Finding::Fine,
            serial: true,
        });
    };
    let seen = books.see_all(alloc, ran.trace.as_slice())?;
    thread_within(alloc, books, thread, turns, ran, seen.as_slice())
}
