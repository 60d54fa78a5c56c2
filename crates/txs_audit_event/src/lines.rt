//! The first line that differs of what was printed, and how an actor ended.

ghost use Rattle.std.specs.Prelude.{◌≡◌, ◌≤◌, ◌<◌, ◌+◌, ◌-◌, ◌^◌, ◌∷◌, ◌++◌, ℕ, List, IfOk, OnOk};
ghost use Rattle.txs_audit_event.specs.Lines.{HasPassed, end_what, events_in, full_end, full_what, is_byte_at, line_from, line_of, part_what, printed_what, stop_what};
ghost use Rattle.txs_theorem_audit.specs.Audited.{books_of, ran_as};

use crate::what::What;
use std::alloc::{AllocError, Global};
use txs_audit_book::ends::{begins, is_full_stop, is_stopped, same_end};
use txs_audit_evidence::Books;
use txs_value_data::Listed;
use txs_world_protocol::{ActorReport, Outcome};

/// Appends the bytes before the first end of a line.
fn push_line(line: &mut Vec<u8>, bytes: &[u8]) -> Result<(), AllocError>
    ensures { OnOk result (line.new.items ≡ line.old.items ++ line_of bytes.now) }
{
    for byte in bytes {
        if *byte == b'\n' {
            return Ok(());
        }
        line.push(*byte)?;
    }
    Ok(())
}

/// A line that begins so and goes on with the first of these bytes; none where there is nothing of it.
fn line_from(alloc: Global, front: &[u8], rest: &[u8]) -> Result<Option<Listed<u8>>, AllocError>
    ensures { IfOk result (λ l. l ≡ line_from front.now rest.now) }
{
    if front.is_empty() && rest.is_empty() {
        return Ok(None);
    }
    let mut line = Vec::from_slice(alloc, front)?;
    push_line(&mut line, rest)?;
    Ok(Some(Listed::from_vec(line)))
}

/// The line that differs: both texts have so many lines and this beginning of another one before these bytes, of which the first ones differ.
fn differing(
    alloc: Global,
    number: usize,
    front: &[u8],
    expected: &[u8],
    found: &[u8],
) -> Result<What, AllocError>
    ensures { IfOk result (λ w. w ≡ What.Line number (line_from front.now expected.now) (line_from front.now found.now)) }
{
    Ok(What::Line {
        number,
        expected: line_from(alloc, front, expected)?,
        found: line_from(alloc, front, found)?,
    })
}

/// Both texts have this byte next: how many lines they have behind it. The beginning of the line gets the byte, and is empty behind an end.
fn pass(front: &mut Vec<u8>, number: usize, byte: u8) -> Result<usize, AllocError>
    requires { number < 2 ^ 64 - 1 }
    ensures passed { IfOk result (λ n. HasPassed number front.old.items byte n front.new.items) }
    ensures few { IfOk result (λ n. n ≤ number + 1) }
{
    if byte == b'\n' {
        front.clear();
        return Ok(number + 1);
    }
    front.push(byte)?;
    Ok(number)
}

/// Whether a text has this byte at this index.
fn is_byte_at(text: &[u8], at: usize, byte: u8) -> bool
    ensures { result ≡ is_byte_at text.now at byte }
{
    match text.get(at) {
        Some(found) => byte == *found,
        None => false,
    }
}

/// The first line in which two texts differ.
pub fn printed_what(alloc: Global, expected: &[u8], found: &[u8]) -> Result<What, AllocError>
    ensures { IfOk result (λ w. w ≡ printed_what expected.now found.now) }
{
    let mut front = Vec::new(alloc);
    let mut number = 0;
    for (i, byte) in expected.iter().enumerate() {
        if !is_byte_at(found, i, *byte) {
            let (_, rest) = expected.split_at(i);
            let (_, other) = found.split_at(i);
            return differing(alloc, number, front.as_slice(), rest, other);
        }
        number = pass(&mut front, number, *byte)?;
    }
    let (_, other) = found.split_at(expected.len());
    differing(alloc, number, front.as_slice(), &[], other)
}

/// What differs of what was printed, where the text prints this whole and at least that part.
pub fn part_what(alloc: Global, whole: &[u8], least: &[u8], out: &[u8]) -> Result<What, AllocError>
    ensures { IfOk result (λ w. w ≡ part_what whole.now least.now out.now) }
{
    if begins(out, whole) {
        return printed_what(alloc, least, out);
    }
    printed_what(alloc, whole, out)
}

/// How many events a book has, if there is one.
fn events_in(books: &Books<'_>, book: Option<usize>) -> usize
    ensures { result ≡ events_in (books_of books.now.report) book }
{
    match book {
        Some(book) => books.events_in(book),
        None => 0,
    }
}

/// What differs of a stop for a full book, where the text needs an event of this book, if of any, and prints that up to there: the book isn't
/// full, or something else was printed.
pub fn full_what(
    alloc: Global,
    books: &Books<'_>,
    needed: Option<usize>,
    whole: &[u8],
    out: &[u8],
) -> Result<What, AllocError>
    ensures { IfOk result (λ w. w ≡ full_what (books_of books.now.report) needed whole.now out.now) }
{
    if books.is_full(needed) {
        return printed_what(alloc, whole, out);
    }
    Ok(What::NotFull {
        book: needed,
        events: events_in(books, needed),
    })
}

/// The same of a thread, which has an end where the text ends so.
fn full_end(
    alloc: Global,
    books: &Books<'_>,
    ends: Option<Outcome>,
    needed: Option<usize>,
    whole: &[u8],
    ran: &ActorReport,
) -> Result<What, AllocError>
    ensures { IfOk result (λ w. w ≡ full_end (books_of books.now.report) ends needed whole.now (ran_as ran.now)) }
{
    if ends.is_none() {
        return full_what(alloc, books, needed, whole, ran.printed.as_slice());
    }
    Ok(What::Ended {
        expected: ends,
        found: ran.outcome,
    })
}

/// What differs of a thread's end, where the text ends so, prints this whole and at least that part.
fn end_what(
    alloc: Global,
    ends: Option<Outcome>,
    whole: &[u8],
    least: &[u8],
    ran: &ActorReport,
) -> Result<What, AllocError>
    ensures { IfOk result (λ w. w ≡ end_what ends whole.now least.now (ran_as ran.now)) }
{
    let out = ran.printed.as_slice();
    if same_end(ends, ran.outcome) {
        return printed_what(alloc, whole, out);
    }
    if is_stopped(ran.outcome) {
        return part_what(alloc, whole, least, out);
    }
    Ok(What::Ended {
        expected: ends,
        found: ran.outcome,
    })
}

/// The same of any thread, where the text needs an event of this book behind those of its trace, if of any.
pub fn stop_what(
    alloc: Global,
    books: &Books<'_>,
    ends: Option<Outcome>,
    needed: Option<usize>,
    whole: &[u8],
    least: &[u8],
    ran: &ActorReport,
) -> Result<What, AllocError>
    ensures { IfOk result (λ w. w ≡ stop_what (books_of books.now.report) ends needed whole.now least.now (ran_as ran.now)) }
{
    if is_full_stop(ran.outcome) {
        return full_end(alloc, books, ends, needed, whole, ran);
    }
    end_what(alloc, ends, whole, least, ran)
}
