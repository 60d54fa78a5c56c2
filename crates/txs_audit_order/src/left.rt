//! What is left when no more events may be taken.

ghost use Rattle.std.specs.Prelude.{◌≡◌, ◌<◌, length, None, Some, IfOk};
ghost use Rattle.std.proofs.Common.{get_or};
ghost use Rattle.txs_audit_order.specs.Going.{AreReady, IsLast, stands_in};
ghost use Rattle.txs_audit_order.specs.Waiting.{AreWaits, IsLed, IsLeft, IsWait, IsNearer, left_from};

use crate::links::Before;
use crate::rows::Row;
use crate::taking::{number_at, stands_in};
use std::alloc::{AllocError, Global};
use txs_world_protocol::Place;

/// The index of a book's next event, and the first book of which an event is left that came before it.
#[derive(Clone, Copy, Drop)]
struct Wait {
    at: u32,
    first: u32,
}

/// What waits for the lesser book, if the link stands in the way of the event at this index.
fn nearer(wait: Option<Wait>, link: Before, cut: &[usize], at: usize) -> Option<Wait>
    ensures { IsNearer cut.now at wait link result }
{
    if !stands_in(link, cut, at) {
        return wait;
    }
    let here = Wait {
        at: link.at,
        first: link.book,
    };
    match wait {
        Some(found) => {
            if found.first <= here.first {
                return wait;
            }
            Some(here)
        }
        None => Some(here),
    }
}

/// What the event at this index waits for, if for anything.
fn wait_of(row: &[Before], cut: &[usize], at: usize) -> Option<Wait>
    ensures { IsWait row.now cut.now at result }
{
    let mut wait = None;
    for link in row {
        wait = nearer(wait, *link, cut, at);
    }
    wait
}

/// What the next event of each book waits for.
fn all_waits(
    alloc: Global,
    rows: &[Row<Before>],
    cut: &[usize],
) -> Result<Vec<Option<Wait>>, AllocError>
    ensures { IfOk result (λ waits. AreWaits rows.now cut.now waits.items) }
{
    let mut waits = Vec::with_capacity(alloc, rows.len())?;
    for (book, row) in rows.iter().enumerate() {
        waits.push_reserved(wait_of(row.as_slice(), cut, number_at(cut, book)));
    }
    Ok(waits)
}

/// The first book of which an event is left.
fn first_left(lengths: &[usize], cut: &[usize]) -> Option<usize>
    ensures { result ≡ left_from lengths.now cut.now 0 (length lengths.now) }
{
    for (book, many) in lengths.iter().enumerate() {
        if number_at(cut, book) < *many {
            return Some(book);
        }
    }
    None
}

/// What the next event of a book waits for, if there is such a book.
fn wait_at(waits: &[Option<Wait>], book: usize) -> Option<Wait>
    ensures { result ≡ get_or waits.now book None }
{
    match waits.get(book) {
        Some(wait) => *wait,
        None => None,
    }
}

/// The next event of the book to which this one leads, behind as many steps as there are books.
fn led_from(waits: &[Option<Wait>], book: usize) -> Option<Place>
    ensures { IsLed waits.now book result }
{
    let mut wait = wait_at(waits, book)?;
    let mut book = wait.first;
    for _i in 1..waits.len() {
        wait = wait_at(waits, book as usize)?;
        book = wait.first;
    }
    let last = wait_at(waits, book as usize)?;
    Some(Place { book, at: last.at })
}

/// An event that comes before itself, if any is left.
pub(crate) fn left_event(
    alloc: Global,
    lengths: &[usize],
    rows: &[Row<Before>],
    cut: &[usize],
) -> Result<Option<Place>, AllocError>
    ensures { IfOk result (IsLeft rows.now cut.now (left_from lengths.now cut.now 0 (length lengths.now))) }
{
    match first_left(lengths, cut) {
        Some(book) => {
            let waits = all_waits(alloc, rows, cut)?;
            Ok(led_from(waits.as_slice(), book))
        }
        None => Ok(None),
    }
}
