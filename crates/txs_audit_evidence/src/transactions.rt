//! The transactions of a thread, at the events that ended them.

ghost use Rattle.std.specs.Prelude.{◌≡◌, ◌+◌, ◌^◌, ◌<◌, ◌&&◌, length, true, take, IfOk, IfSome, option_copied};
ghost use Rattle.txs_value_data.specs.Places.{nth};
ghost use Rattle.txs_world_book.specs.Book.{first_failed};
ghost use Rattle.txs_world_book.specs.Served.{cells_of};
ghost use Rattle.txs_theorem_audit.specs.Audited.{Fine, books_of};
ghost use Rattle.txs_theorem_audit.specs.Verdict.{is_first_failed, is_untouched};
ghost use Rattle.txs_theorem_audit.specs.Evaluated.{calm_by, calm_found_by, covered_all_by, state_of};
ghost use Rattle.txs_theorem_serial.specs.Serial.{is_covered};
ghost use Rattle.txs_audit_book.specs.Judged.{as_found};
ghost use Rattle.txs_audit_order.specs.Named.{plain_trace};
ghost use Rattle.txs_audit_evidence.specs.Transacted.{covered_by, end_in};

use crate::books::Books;
use std::alloc::AllocError;
use txs_audit_book::Finding;
use txs_audit_order::held::are_held;
use txs_audit_order::kinds::{end_of, is_commit};
use txs_frame::TxFrame;
use txs_tree_eval::TxMeaning;
use txs_value_cell::Action;
use txs_value_data::CellId;
use txs_world_protocol::{EventKind, Place, same_cell};

/// What is found of a piece, and, where that is nothing, whether each of its commits is covered.
#[derive(Clone, Copy)]
pub struct Found {
    pub finding: Finding,
    pub serial: bool,
}

/// What the event at a place is, where it ends a transaction. Then it is one of the store's book.
pub fn end_at<'a>(books: &Books<'a>, place: Place) -> Option<&'a EventKind>
    ensures end { option_copied result ≡ end_in (nth (books_of books.now.report place.book) place.at) }
    ensures home { IfSome result (λ k. place.book ≡ 0) }
{
    books.are_legal();
    match books.event_at(place) {
        Some(event) => end_of(event),
        None => None,
    }
}

// ---- whether a transaction was undisturbed

/// Whether none of these refs was written at index `at` or later, among the first so many events of the store's book.
fn is_untouched(books: &Books<'_>, refs: &[CellId], at: u32, events: u32) -> bool
    ensures { result ≡ is_untouched (take events books.now.report.book) at refs.now }
{
    for cell in refs {
        if books.is_written(cell.number, at, events) {
            return false;
        }
    }
    true
}

/// Whether no ref that a transaction set or ensured was.
fn is_undisturbed(books: &Books<'_>, done: &TxFrame, sets: &[CellId], at: u32, events: u32) -> bool
    requires { sets.now ≡ done.now.sets }
    ensures { result ≡ (is_untouched (take events books.now.report.book) at done.now.sets && is_untouched (take events books.now.report.book) at done.now.ensures) }
{
    if !is_untouched(books, sets, at, events) {
        return false;
    }
    is_untouched(books, done.ensured(), at, events)
}

/// The agent of the first of these actions whose agent has failed among the first so many events of the store's book.
pub fn first_failed(books: &Books<'_>, sends: &[Action], events: u32) -> Option<CellId>
    ensures { result ≡ first_failed (cells_of books.now.program.cells) (take events books.now.report.book) sends.now }
{
    for action in sends {
        if books.has_failed(action.agent.number, events) {
            return Some(action.agent);
        }
    }
    None
}

/// Whether this is the agent of the first of these actions whose agent has failed.
fn is_refused(books: &Books<'_>, sends: &[Action], agent: CellId, events: u32) -> bool
    ensures { result ≡ is_first_failed (first_failed (cells_of books.now.program.cells) (take events books.now.report.book) sends.now) agent }
{
    match first_failed(books, sends, events) {
        Some(failed) => same_cell(failed, agent),
        None => false,
    }
}

/// Whether the transaction that an event ended behind so many events of the store's book was undisturbed. It set these refs.
fn is_calm(
    books: &Books<'_>,
    kind: &EventKind,
    meaning: &TxMeaning,
    sets: &[CellId],
    events: u32,
) -> bool
    requires { sets.now ≡ meaning.now.done.sets }
    ensures { result ≡ calm_by (cells_of books.now.program.cells) (take events books.now.report.book) kind.now meaning.now }
{
    match kind {
        EventKind::Commit { at, .. } => is_undisturbed(books, &meaning.done, sets, *at, events),
        EventKind::Refused { at, agent, .. } => {
            if !is_undisturbed(books, &meaning.done, sets, *at, events) {
                return false;
            }
            is_refused(books, meaning.done.sends(), *agent, events)
        }
        _ => true,
    }
}

// ---- whether a transaction is covered

/// Whether a transaction set or ensured every ref that it read, and used the result of no commute. It set these refs.
fn is_covered(meaning: &TxMeaning, sets: &[CellId]) -> bool
    requires { sets.now ≡ meaning.now.done.sets }
    ensures { result ≡ is_covered (state_of meaning.now) }
{
    if meaning.used {
        return false;
    }
    are_held(&meaning.done, sets, meaning.reads.as_slice())
}

/// Whether the transaction that an event ended is covered, if it was committed.
fn is_covered_by(kind: &EventKind, meaning: &TxMeaning, sets: &[CellId]) -> bool
    requires { sets.now ≡ meaning.now.done.sets }
    ensures { result ≡ covered_by kind.now meaning.now }
{
    if !is_commit(kind) {
        return true;
    }
    is_covered(meaning, sets)
}

// ---- all transactions

/// Whether a transaction was undisturbed, and whether it is covered if it was committed.
#[derive(Clone, Copy)]
struct Judged {
    calm: bool,
    covered: bool,
}

/// The transaction that an event ended behind so many events of the store's book.
fn judge(
    books: &Books<'_>,
    kind: &EventKind,
    meaning: &TxMeaning,
    events: u32,
) -> Result<Judged, AllocError>
    ensures calm { IfOk result (λ j. j.calm ≡ calm_by (cells_of books.now.program.cells) (take events books.now.report.book) kind.now meaning.now) }
    ensures covered { IfOk result (λ j. j.covered ≡ covered_by kind.now meaning.now) }
{
    let sets = meaning.done.sets()?;
    let calm = is_calm(books, kind, meaning, sets.as_slice(), events);
    let covered = is_covered_by(kind, meaning, sets.as_slice());
    Ok(Judged { calm, covered })
}

/// Whether both hold.
fn both(a: bool, b: bool) -> bool
    ensures { result ≡ (a && b) }
{
    a && b
}

/// What is found of an actor's transactions, each at the event of its trace that ended it: that of the first that was
/// disturbed. The first of these entries is at index `first` of the trace.
///
/// # Errors
/// `AllocError` where there was no memory for what a transaction set.
pub fn transactions_found(
    books: &Books<'_>,
    actor: u16,
    first: usize,
    trace: &[Place],
    txs: &[TxMeaning],
) -> Result<Found, AllocError>
    requires { first + length trace.now < 2 ^ 64 }
    ensures found { IfOk result (λ f. as_found f.finding ≡ calm_found_by (cells_of books.now.program.cells) (books_of books.now.report) actor first (plain_trace trace.now) txs.now) }
    ensures serial { IfOk result (λ f. as_found f.finding ≡ Fine → f.serial ≡ covered_all_by (books_of books.now.report) (plain_trace trace.now) txs.now) }
{
    let mut next = 0;
    let mut serial = true;
    for (i, place) in trace.iter().enumerate() {
        if next >= txs.len() {
            return Ok(Found {
                finding: Finding::Fine,
                serial,
            });
        }
        if let Some(kind) = end_at(books, *place) {
            let judged = judge(books, kind, &txs[next], place.at)?;
            if !judged.calm {
                return Ok(Found {
                    finding: Finding::Off(actor, first + i),
                    serial: false,
                });
            }
            serial = both(serial, judged.covered);
            next += 1;
        }
    }
    Ok(Found {
        finding: Finding::Fine,
        serial,
    })
}
