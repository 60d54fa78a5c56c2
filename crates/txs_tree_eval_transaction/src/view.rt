//! The values of cells at a place of a book.

ghost use Rattle.std.specs.Prelude.{◌≡◌, None, IfOk, option_copied};
ghost use Rattle.txs_tree_meaning.specs.Transaction.{lacks};
ghost use Rattle.txs_value_data.specs.Places.{nth};
ghost use Rattle.txs_tree_eval_transaction.specs.Views.{held, held_in, plain_tx_view, plain_view, value_of, whole_view, world_of};

use crate::past::History;
use std::alloc::AllocError;
use txs_value_data::{Value, copy_value};

/// A value for each cell number, at a place of a book. For each cell it borrows the values that the cell has had there. A cell that
/// has no value there is nil. In a view of an atom's book the atom's swaps are lent too, and give the value of every cell; before
/// the first swap each cell has the value that it opened with.
#[derive(Clone, Copy)]
pub struct RefView<'a> {
    pub cells: &'a [History],
    pub swaps: Option<&'a History>,
    pub place: u32,
}

/// The value that a cell has at this index.
fn held(history: &History, place: u32) -> Option<&Value>
    ensures { option_copied result ≡ held history.now place }
{
    match history.at(place) {
        Some(item) => Some(&item.1),
        None => None,
    }
}

/// The value that the cell with this number has at this index, if it is among these.
fn held_in(cells: &[History], number: u16, place: u32) -> Option<&Value>
    ensures { option_copied result ≡ held_in (nth cells.now number) place }
{
    match cells.get(usize::from(number)) {
        Some(history) => held(history, place),
        None => None,
    }
}

impl<'a> RefView<'a> {
    /// The value of the cell with this number, none where it has none.
    pub fn value(&self, number: u16) -> Option<&'a Value>
        ensures { option_copied result ≡ value_of (plain_view self.now) number }
    {
        let cells = self.cells;
        let Some(swaps) = self.swaps else {
            return held_in(cells, number, self.place);
        };
        match held(swaps, self.place) {
            Some(value) => Some(value),
            None => held_in(cells, number, 0),
        }
    }

    /// The value of the cell with this number, which is shared; nil where it has none.
    pub fn read(&self, number: u16) -> Result<Value, AllocError>
        ensures { IfOk result (λ v. v ≡ world_of (plain_view self.now) number) }
    {
        match self.value(number) {
            Some(value) => copy_value(value),
            None => Ok(Value::Nil),
        }
    }
}

/// What a transaction sees: the cells at its read point. The value of the ref with the number that is gone is no longer kept there.
#[derive(Clone, Copy)]
pub struct TxView<'a> {
    pub refs: RefView<'a>,
    pub gone: Option<u16>,
}

impl<'a> TxView<'a> {
    /// All values are kept.
    pub fn whole(refs: RefView<'a>) -> TxView<'a>
        ensures { plain_tx_view result ≡ whole_view (plain_view refs.entry) }
    {
        TxView { refs, gone: None }
    }

    /// Whether the value of the ref with this number is gone.
    pub(crate) fn lacks(&self, number: u16) -> bool
        ensures { result ≡ lacks self.now.gone None number }
    {
        match self.gone {
            Some(gone) => number == gone,
            None => false,
        }
    }
}
