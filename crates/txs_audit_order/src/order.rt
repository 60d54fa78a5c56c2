//! Whether the events of all books of a report have one order.

ghost use Rattle.std.specs.Prelude.{◌≡◌, ◌+◌, length, suc, IfOk};
ghost use Rattle.txs_tree_meaning.specs.View.{program_of};
ghost use Rattle.txs_audit_order.specs.Going.{AreReady};
ghost use Rattle.txs_audit_order.specs.Linked.{AreLengths, AreLinks};
ghost use Rattle.txs_audit_order.specs.Ordered.{books_as, links_as, named_in, place_in};
ghost use Rattle.txs_audit_order.specs.Waiting.{IsNamed};

use crate::left::left_event;
use crate::links::{Before, sort_rows};
use crate::rows::Row;
use crate::taking::last_cut;
use crate::traces::{all_links, length_of};
use std::alloc::{AllocError, Global};
use txs_theorem_serial::{links_are_within, one_last_cut};
use txs_tree_meaning::Program;
use txs_world_protocol::{Place, Report};

/// How many events each book has.
fn all_lengths(alloc: Global, report: &Report) -> Result<Vec<usize>, AllocError>
    ensures { IfOk result (λ lengths. AreLengths (books_as report.now) (suc (length report.now.atom_books.items)) lengths.items) }
{
    let books = report.atom_books.len() + 1;
    let mut lengths = Vec::with_capacity(alloc, books)?;
    for book in 0..books {
        lengths.push_reserved(length_of(report, book));
    }
    Ok(lengths)
}

/// What all traces say, in order.
fn sorted_links(
    alloc: Global,
    program: &Program,
    report: &Report,
    books: usize,
) -> Result<Vec<Row<Before>>, AllocError>
    ensures { IfOk result (λ rows. AreLinks (links_as (program_of program.now).cells report.now) books rows.items) }
{
    let mut rows = all_links(alloc, program.cells(), report, books)?;
    sort_rows(&mut rows);
    Ok(rows)
}

/// An event that comes before itself by these links, where the books have so many events, if there is no order.
fn named_by(
    alloc: Global,
    lengths: &[usize],
    rows: &[Row<Before>],
) -> Result<Option<Place>, AllocError>
    requires { AreReady lengths.now rows.now }
    ensures { IfOk result (IsNamed lengths.now rows.now) }
{
    let cut = last_cut(alloc, lengths, rows)?;
    left_event(alloc, lengths, rows, cut.as_slice())
}

/// An event that comes before itself by the books, the traces, the read points and the sends, if there is no order of all events.
///
/// # Errors
/// `AllocError` where there was no memory.
pub fn out_of_order(
    alloc: Global,
    program: &Program,
    report: &Report,
) -> Result<Option<Place>, AllocError>
    ensures { IfOk result (λ o. place_in o ≡ named_in (program_of program.now).cells report.now) }
{
    // Laws that the proof uses; they do nothing when they run.
    one_last_cut();
    links_are_within();
    let lengths = all_lengths(alloc, report)?;
    let rows = sorted_links(alloc, program, report, lengths.len())?;
    named_by(alloc, lengths.as_slice(), rows.as_slice())
}
