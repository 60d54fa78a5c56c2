//! The values that a cell has had.

ghost use Rattle.std.specs.Prelude.{◌≡◌, ◌≤◌, ◌++◌, ◌∷◌, [], length, OnErr, OnOk, option_copied};
ghost use Rattle.txs_tree_eval_transaction.specs.Pasts.{Ascend, begins_by, entry_at, latest};

use std::alloc::{AllocError, Global};
use std::marker::Model;
use txs_value_data::Value;

/// The values that a cell has had, each with the index in a book from which on the cell has it. The indexes ascend, so that
/// the value at one is found by halving the list.
pub struct History {
    items: Vec<(u32, Value)>,
}

// Dropped by a call that is proved here, so that no crate above proves it again.
impl Drop for History {
    fn drop(self) {
        let History { items: dropped } = self;
        drop(dropped);
    }
}

impl Model for History {
    ghost use Rattle.std.specs.Prelude.{ℕ, List};
    ghost use Rattle.std.specs.Coded.{codes};
    ghost use Rattle.txs_value_data.specs.contracts.value.Value as value;
    ghost use Rattle.txs_value_data.specs.declared.value.Value.{Value as AnyValue};

    ghost Value = { List (ℕ × AnyValue) };

    ghost coded = { Prim.hlevel (codes, value.the_row.coded) };

    ghost view = { λ h. h.items.items };

    ghost use Rattle.txs_tree_eval_transaction.specs.Pasts.{Ascend};

    ghost invariant = { λ h. Ascend 0 h.items.items };
}

impl History {
    /// Of a cell that has had no value.
    pub fn new(alloc: Global) -> History
        ensures { result ≡ [] }
    {
        History {
            items: Vec::new(alloc),
        }
    }

    /// The index of the newest value, 0 where there is none.
    pub fn latest(&self) -> u32
        ensures { result ≡ latest 0 self.now }
    {
        match self.items.last() {
            Some(item) => item.0,
            None => 0,
        }
    }

    /// Adds the value that the cell has from this index on. It is no less than that of the newest value.
    ///
    /// # Errors
    /// `AllocError` where there was no memory for it; the history is as before.
    pub fn add(&mut self, place: u32, value: Value) -> Result<(), AllocError>
        requires { latest 0 self.old ≤ place }
        ensures added { OnOk result (self.new ≡ self.old ++ (place, value) ∷ []) }
        ensures same { OnErr result (self.new ≡ self.old) }
    {
        self.items.push((place, value))?;
        Ok(())
    }

    /// The value that the cell has at this index, with the index from which on it has it.
    pub fn at(&self, place: u32) -> Option<&(u32, Value)>
        ensures { option_copied result ≡ entry_at self.now place }
    {
        entry_at(self.items.as_slice(), place)
    }
}

/// The first of these, if its index isn't above this one.
fn first_at(items: &[(u32, Value)], place: u32) -> Option<&(u32, Value)>
    requires { length items.now ≤ 1 }
    ensures { option_copied result ≡ entry_at items.now place }
{
    match items.first() {
        Some(item) if item.0 <= place => Some(item),
        _ => None,
    }
}

/// Whether there is one, and the index of the first isn't above this one.
fn begins_by(items: &[(u32, Value)], place: u32) -> bool
    ensures { result ≡ begins_by items.now place }
{
    match items.first() {
        Some(item) => item.0 <= place,
        None => false,
    }
}

/// The last of these whose index isn't above this one, found by halving the list.
fn entry_at(items: &[(u32, Value)], place: u32) -> Option<&(u32, Value)>
    requires { Ascend 0 items.now }
    ensures { option_copied result ≡ entry_at items.now place }
{
    if items.len() <= 1 {
        return first_at(items, place);
    }
    let (left, right) = items.split_at(items.len() / 2);
    if begins_by(right, place) {
        return entry_at(right, place);
    }
    entry_at(left, place)
}
