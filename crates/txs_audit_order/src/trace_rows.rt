//! Where each actor's events are in the books.

ghost use Rattle.std.specs.Prelude.{◌≡◌, ◌<◌, ◌++◌, ◌∷◌, [], suc, length, IfOk, OnOk};
ghost use Rattle.txs_theorem_audit.specs.Audited.{books_of, report_as};
ghost use Rattle.txs_audit_order.specs.Rows.{AreRows, AllRows, with_index};

use std::alloc::{AllocError, Global};
use std::marker::Model;
use txs_value_data::Listed;
use txs_world_protocol::{Event, Report};

/// The indexes of an actor's events in a book.
#[derive(Drop)]
pub(crate) struct Row {
    items: Vec<usize>,
}

impl Model for Row {
    ghost use Rattle.std.specs.Prelude.{ℕ, List};

    ghost Value = { List ℕ };

    ghost view = { λ r. r.items.items };
}

impl Row {
    /// Without an index.
    fn new(alloc: Global) -> Row
        ensures { result ≡ [] }
    {
        Row {
            items: Vec::new(alloc),
        }
    }

    /// Adds an index.
    fn add(&mut self, index: usize) -> Result<(), AllocError>
        ensures { OnOk result (self.new ≡ self.old ++ index ∷ []) }
    {
        self.items.push(index)?;
        Ok(())
    }

    /// The indexes.
    pub(crate) fn as_slice(&self) -> &[usize]
        ensures { result.now ≡ self.now }
    {
        self.items.as_slice()
    }
}

/// So many rows without indexes.
fn empty_rows(alloc: Global, actors: usize) -> Result<Vec<Row>, AllocError>
    ensures { IfOk result (λ rows. AreRows actors [] rows.items) }
{
    let mut rows = Vec::new(alloc);
    for _i in 0..actors {
        rows.push(Row::new(alloc))?;
    }
    Ok(rows)
}

/// The index joins its actor's row, if there is one.
fn add_index(rows: &mut Vec<Row>, actor: usize, index: usize) -> Result<(), AllocError>
    ensures { OnOk result (rows.new.items ≡ with_index rows.old.items actor index) }
{
    if actor >= rows.len() {
        return Ok(());
    }
    let row = &mut rows[actor];
    row.add(index)
}

/// The rows of so many actors in a book.
fn rows_of(alloc: Global, actors: usize, book: &[Event]) -> Result<Vec<Row>, AllocError>
    ensures { IfOk result (λ rows. AreRows actors book.now rows.items) }
{
    let mut rows = empty_rows(alloc, actors)?;
    for (i, event) in book.iter().enumerate() {
        add_index(&mut rows, usize::from(event.actor), i)?;
    }
    Ok(rows)
}

/// The rows of so many actors in each book of a report, the store's first.
pub(crate) fn all_rows(
    alloc: Global,
    actors: usize,
    report: &Report,
) -> Result<Vec<Listed<Row>>, AllocError>
    ensures { IfOk result (λ all. AllRows actors (suc (length report.now.atom_books.items)) (books_of (report_as report.now)) all.items) }
{
    let mut all = Vec::new(alloc);
    let first = rows_of(alloc, actors, report.book.as_slice())?;
    all.push(Listed::from_vec(first))?;
    let books = report.atom_books.as_slice();
    for book in books {
        let rows = rows_of(alloc, actors, book.as_slice())?;
        all.push(Listed::from_vec(rows))?;
    }
    Ok(all)
}
