//! What disturbed a transaction: who wrote what it set or ensured.

ghost use Rattle.std.specs.Prelude.{◌≡◌, ◌≤◌, ◌<◌, ◌+◌, length, take, drop, true, IfOk};
ghost use Rattle.txs_world_book.specs.Book.{writes_to};
ghost use Rattle.txs_audit_event.specs.Transactions.{by_what, disturbed_what, first_written, or_else, writer_of};

use crate::what::What;
use std::alloc::AllocError;
use txs_audit_evidence::Books;
use txs_frame::TxFrame;
use txs_value_data::{CellId, Span};
use txs_world_book::writes_to;
use txs_world_protocol::Event;

/// The index of the first of these events that writes the cell with this number, at this index or later; how many there are where none does.
fn writer_of(book: &[Event], number: u16, from: usize) -> usize
    ensures { result ≡ writer_of number from book.now }
{
    for at in from..book.len() {
        if writes_to(&book[at].kind, number) {
            return at;
        }
    }
    book.len()
}

/// So many events of a book, or all of them.
fn front_of(book: &[Event], events: usize) -> &[Event]
    ensures { result.now ≡ take events book.now }
{
    if events >= book.len() {
        return book;
    }
    let (front, _) = book.split_at(events);
    front
}

/// The first of these refs that was written at index `at` or later, among the first so many events of the store's book.
fn first_written(books: &Books<'_>, refs: &[CellId], at: u32, events: u32) -> Option<CellId>
    ensures { result ≡ first_written (take events books.now.report.book) at refs.now }
{
    for cell in refs {
        if books.is_written(cell.number, at, events) {
            return Some(*cell);
        }
    }
    None
}

/// Refs that a transaction set, or else ensured, and its read point; what disturbed it is sought among the first so many events of the store's book.
#[derive(Clone, Copy)]
struct Held<'a> {
    refs: &'a [CellId],
    set: bool,
    at: u32,
    events: u32,
}

/// What disturbed the transaction of the `dosync` at this place.
fn by_what(books: &Books<'_>, held: Held<'_>, span: Span) -> Option<What>
    ensures { result ≡ by_what (take held.entry.events books.now.report.book) held.entry.at span held.entry.set (first_written (take held.entry.events books.now.report.book) held.entry.at held.entry.refs.now) }
{
    match first_written(books, held.refs, held.at, held.events) {
        Some(cell) => {
            let done = front_of(books.report().book.as_slice(), held.events as usize);
            Some(What::Disturbed {
                cell,
                set: held.set,
                by: writer_of(done, cell.number, held.at as usize),
                span,
            })
        }
        None => None,
    }
}

/// What disturbed a transaction with this read point that did this, before so many events of the store's book.
pub fn disturbed_what(
    books: &Books<'_>,
    done: &TxFrame,
    at: u32,
    events: u32,
    span: Span,
) -> Result<Option<What>, AllocError>
    ensures { IfOk result (λ o. o ≡ disturbed_what (take events books.now.report.book) at span done.now) }
{
    let sets = done.sets()?;
    let held = Held {
        refs: sets.as_slice(),
        set: true,
        at,
        events,
    };
    match by_what(books, held, span) {
        Some(what) => Ok(Some(what)),
        None => {
            let ensured = Held {
                refs: done.ensured(),
                set: false,
                at,
                events,
            };
            Ok(by_what(books, ensured, span))
        }
    }
}
