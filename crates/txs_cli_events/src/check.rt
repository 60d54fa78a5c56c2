//! Whether a list has the events of a report, as its traces and its books have them.

ghost use Rattle.std.specs.Prelude.{◌≡◌, ◌≤◌, ◌<◌, ◌+◌, List, [], ◌∷◌, length, IfOk, IsTrue, Some};
ghost use Rattle.txs_value_data.specs.Places.{nth};
ghost use Rattle.txs_cli_events.specs.declared.seen.Noted.{Noted as ANote};
ghost use Rattle.txs_cli_events.specs.Noted.{entries_of, trace_at, bytes_at, events_in, AreTraced, AreInOrder, ArePrinted, RestOfTraces, RestOfBooks, RestOfPrints};

use crate::Noted;
use std::alloc::{AllocError, Global};
use txs_world_protocol::{ActorReport, Place, Report};

/// What the actor with this number did.
pub(crate) fn entry_at(report: &Report, k: usize) -> &ActorReport
    requires { k < length report.now.threads.items + length report.now.agents.items }
    ensures { nth (entries_of report.now) k ≡ Some result.now }
{
    let threads = report.threads.len();
    if k < threads {
        &report.threads[k]
    } else {
        &report.agents[k - threads]
    }
}

/// The places of its events.
fn trace_at(report: &Report, k: usize) -> &[Place]
    requires { k < length report.now.threads.items + length report.now.agents.items }
    ensures { result.now ≡ trace_at report.now k }
{
    entry_at(report, k).trace.as_slice()
}

/// How many events the book with this number has.
fn events_in(report: &Report, book: usize) -> usize
    requires { book ≤ length report.now.atom_books.items }
    ensures { result ≡ events_in report.now book }
{
    if book == 0 {
        return report.book.len();
    }
    report.atom_books[book - 1].as_slice().len()
}

/// Whether two places are the same.
fn is_same(a: Place, b: Place) -> bool
    ensures { IsTrue result → a ≡ b }
{
    a.book == b.book && a.at == b.at
}

/// Whether a note is the next of its actor's trace, which is then counted.
fn is_next_of_trace(report: &Report, counts: &mut Vec<usize>, note: &Noted) -> bool
    requires one_each { length counts.old.items ≡ length report.now.threads.items + length report.now.agents.items }
    ensures one_each { length counts.new.items ≡ length counts.old.items }
    ensures next { IsTrue result → (rest : List ANote) → RestOfTraces report.now counts.new.items rest → RestOfTraces report.now counts.old.items (note.now ∷ rest) }
{
    let k = usize::from(note.actor);
    if k >= counts.len() {
        return false;
    }
    let trace = trace_at(report, k);
    let noted = counts[k];
    if noted >= trace.len() {
        return false;
    }
    if !is_same(trace[noted], note.event) {
        return false;
    }
    counts[k] = noted + 1;
    true
}

/// Whether of each trace so many events are noted as it has.
fn are_whole_traces(report: &Report, counts: &[usize]) -> bool
    requires one_each { length counts.now ≡ length report.now.threads.items + length report.now.agents.items }
    ensures { IsTrue result → RestOfTraces report.now counts.now [] }
{
    for k in 0..counts.len() {
        if counts[k] != trace_at(report, k).len() {
            return false;
        }
    }
    true
}

/// Whether the notes of each actor are the events of its trace, in the same order.
fn are_traced(alloc: Global, report: &Report, notes: &[Noted]) -> Result<bool, AllocError>
    ensures { IfOk result (λ yes. IsTrue yes → AreTraced report.now notes.now) }
{
    let actors = report.threads.len() + report.agents.len();
    let mut counts = vec![in alloc; 0; actors]?;
    for note in notes {
        if !is_next_of_trace(report, &mut counts, note) {
            return Ok(false);
        }
    }
    Ok(are_whole_traces(report, counts.as_slice()))
}

/// Whether a note is the next of its book, which is then counted.
fn is_next_of_book(report: &Report, counts: &mut Vec<usize>, note: &Noted) -> bool
    requires one_each { length counts.old.items ≡ 1 + length report.now.atom_books.items }
    ensures one_each { length counts.new.items ≡ length counts.old.items }
    ensures next { IsTrue result → (rest : List ANote) → RestOfBooks report.now counts.new.items rest → RestOfBooks report.now counts.old.items (note.now ∷ rest) }
{
    let book = note.event.book as usize;
    if book >= counts.len() {
        return false;
    }
    let noted = counts[book];
    if noted >= events_in(report, book) {
        return false;
    }
    if noted != note.event.at as usize {
        return false;
    }
    counts[book] = noted + 1;
    true
}

/// Whether of each book so many events are noted as it has.
fn are_whole_books(report: &Report, counts: &[usize]) -> bool
    requires one_each { length counts.now ≡ 1 + length report.now.atom_books.items }
    ensures { IsTrue result → RestOfBooks report.now counts.now [] }
{
    for book in 0..counts.len() {
        if counts[book] != events_in(report, book) {
            return false;
        }
    }
    true
}

/// Whether the notes of each book are all its events, from the first to the last.
fn are_in_order(alloc: Global, report: &Report, notes: &[Noted]) -> Result<bool, AllocError>
    ensures { IfOk result (λ yes. IsTrue yes → AreInOrder report.now notes.now) }
{
    let books = report.atom_books.len() + 1;
    let mut counts = vec![in alloc; 0; books]?;
    for note in notes {
        if !is_next_of_book(report, &mut counts, note) {
            return Ok(false);
        }
    }
    Ok(are_whole_books(report, counts.as_slice()))
}

/// Whether an actor had printed no less before this note than before its last, and no more than in all. That is then noted.
fn is_next_print(report: &Report, counts: &mut Vec<usize>, note: &Noted) -> bool
    requires one_each { length counts.old.items ≡ length report.now.threads.items + length report.now.agents.items }
    ensures one_each { length counts.new.items ≡ length counts.old.items }
    ensures next { IsTrue result → (rest : List ANote) → RestOfPrints report.now counts.new.items rest → RestOfPrints report.now counts.old.items (note.now ∷ rest) }
{
    let k = usize::from(note.actor);
    if k >= counts.len() {
        return false;
    }
    if note.printed < counts[k] {
        return false;
    }
    if note.printed > entry_at(report, k).printed.len() {
        return false;
    }
    counts[k] = note.printed;
    true
}

/// Whether how much each actor had printed before its notes never descends, and is at most what it printed in all.
fn are_printed(alloc: Global, report: &Report, notes: &[Noted]) -> Result<bool, AllocError>
    ensures { IfOk result (λ yes. IsTrue yes → ArePrinted report.now notes.now) }
{
    let actors = report.threads.len() + report.agents.len();
    let mut counts = vec![in alloc; 0; actors]?;
    for note in notes {
        if !is_next_print(report, &mut counts, note) {
            return Ok(false);
        }
    }
    Ok(true)
}

/// Whether these are the events of a report: those of each trace, and of each book, in their order.
///
/// # Errors
/// `AllocError` where there was no memory to count them.
pub(crate) fn are_events_of(
    alloc: Global,
    report: &Report,
    notes: &[Noted],
) -> Result<bool, AllocError>
    ensures traced { IfOk result (λ yes. IsTrue yes → AreTraced report.now notes.now) }
    ensures in_order { IfOk result (λ yes. IsTrue yes → AreInOrder report.now notes.now) }
    ensures printed { IfOk result (λ yes. IsTrue yes → ArePrinted report.now notes.now) }
{
    if !are_traced(alloc, report, notes)? {
        return Ok(false);
    }
    if !are_in_order(alloc, report, notes)? {
        return Ok(false);
    }
    are_printed(alloc, report, notes)
}
