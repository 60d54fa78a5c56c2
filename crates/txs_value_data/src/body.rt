//! What a vector's owners share: rows, where it has any, and a short list behind them.
ghost use Rattle.std.specs.Prelude.{◌≡◌, ◌<◌, ◌≤◌, ◌+◌, ◌-◌, ◌*◌, ◌++◌, ◌∷◌, [], length, take, drop, IfOk, OnOk, Some, IsTrue};
ghost use Rattle.std.specs.List.{slice_get};
ghost use Rattle.txs_value_data.specs.Limits.{most_items};
ghost use Rattle.txs_value_data.specs.Numbers.{AreNumbers};
ghost use Rattle.txs_value_data.specs.Rows.{stored};
ghost use Rattle.txs_value_data.specs.View.{plain_of, plains_of};

use crate::copy::copy_value;
use crate::row::ROW;
use crate::value::{Body, Leaf, Root, Row, Rows, Value};
use std::alloc::{AllocError, Global};
use std::mem;
use std::sync::Arc;

/// How many values the rows have.
fn stored_len(root: &Option<Root>) -> usize
    ensures value { result ≡ length (stored root.now) }
    ensures small { result ≤ 66560 }
{
    match root {
        None => 0,
        Some(root) => root.shared.len(),
    }
}

/// The row, copied only where others share it.
fn taken_row(shared: Arc<Row>) -> Result<Row, AllocError>
    ensures { IfOk result (λ r. r ≡ shared.value) }
{
    match Arc::try_unwrap(shared) {
        Ok(row) => Ok(row),
        Err(shared) => shared.copied(),
    }
}

/// One more leaf behind the rows.
fn push_leaf(alloc: Global, root: &mut Option<Root>, leaf: Leaf) -> Result<(), AllocError>
    requires full { length leaf ≡ 32 }
    requires room { length (stored root.old) < most_items + 1 }
    ensures { OnOk result (stored root.new ≡ stored root.old ++ leaf) }
{
    if let Some(kept) = root {
        let rows = Arc::make_mut(&mut kept.shared)?;
        return rows.push(alloc, leaf);
    }
    let Ok(mut leaves) = Vec::with_capacity(alloc, 4) else {
        drop(leaf);
        return Err(AllocError);
    };
    leaves.push_reserved(leaf);
    let branches = Vec::new(alloc);
    let shared = Arc::new(alloc, Rows { branches, leaves })?;
    *root = Some(Root { shared });
    Ok(())
}

impl Clone for Body {
    ghost is_clone = { λ a b. b ≡ a };

    /// The same body, with the same leaves and a copy of the row behind them.
    fn clone(&self) -> Result<Body, AllocError> {
        let tail = self.tail.copied()?;
        let Some(root) = &self.root else {
            return Ok(Body { root: None, tail });
        };
        let shared = Arc::try_clone(&root.shared)?;
        let root = Some(Root { shared });
        Ok(Body { root, tail })
    }
}

impl Body {
    /// The body of a vector of these values, of which it may be known that all are numbers.
    pub(crate) fn from_vec(
        alloc: Global,
        items: Vec<Value>,
        are_numbers: bool,
    ) -> Result<Body, AllocError>
        requires few { length items.items ≤ most_items }
        requires numbers { IsTrue are_numbers → AreNumbers (plains_of items.items) }
        ensures { IfOk result (λ b. b ≡ plains_of items.items) }
    {
        if items.len() <= 32 {
            let tail = Row { items, are_numbers };
            return Ok(Body { root: None, tail });
        }
        let tail = Row {
            items: Vec::new(alloc),
            are_numbers: true,
        };
        let mut body = Body { root: None, tail };
        body.push_all(alloc, items.as_slice())?;
        Ok(body)
    }

    /// The same values at the end. After an error some of them may be there, and others gone.
    fn push_all(&mut self, alloc: Global, values: &[Value]) -> Result<(), AllocError>
        requires { length self.old + length values.now ≤ most_items }
        ensures { OnOk result (self.new ≡ self.old ++ plains_of values.now) }
    {
        for value in values {
            self.push(alloc, copy_value(value)?)?;
        }
        Ok(())
    }

    /// How many values there are.
    pub(crate) fn len(&self) -> usize
        ensures value { result ≡ length self.now }
        ensures small { result ≤ 66592 }
    {
        stored_len(&self.root) + self.tail.len()
    }

    /// The value at a place.
    pub(crate) fn get(&self, place: usize) -> &Value
        requires { place < length self.now }
        ensures { slice_get self.now place ≡ Some (plain_of result.now) }
    {
        let Some(root) = &self.root else {
            return self.tail.get(place);
        };
        let before = root.shared.len();
        if place < before {
            return root.shared.get(place);
        }
        self.tail.get(place - before)
    }

    /// The values of a row of 32 places: fewer in the last row.
    pub(crate) fn row(&self, number: usize) -> &[Value]
        requires { number * 32 < length self.now }
        ensures { plains_of result.now ≡ take 32 (drop (number * 32) self.now) }
    {
        let Some(root) = &self.root else {
            return self.tail.as_slice();
        };
        if number < root.shared.full() {
            return root.shared.row(number);
        }
        self.tail.as_slice()
    }

    /// Puts a value in the place of another.
    #[inline(always)]
    pub(crate) fn set(&mut self, alloc: Global, place: usize, item: Value) -> Result<(), AllocError>
        requires { place < length self.old }
        ensures { OnOk result (self.new ≡ take place self.old ++ plain_of item ∷ drop (place + 1) self.old) }
    {
        let before = stored_len(&self.root);
        if place >= before {
            self.tail.put(place - before, item);
            return Ok(());
        }
        let Some(root) = &mut self.root else {
            unreachable!()
        };
        let Ok(rows) = Arc::make_mut(&mut root.shared) else {
            drop(item);
            return Err(AllocError);
        };
        rows.set(alloc, place, item)
    }

    /// One more value at the end. After an error values may be gone.
    pub(crate) fn push(&mut self, alloc: Global, item: Value) -> Result<(), AllocError>
        requires { length self.old < most_items + 1 }
        ensures { OnOk result (self.new ≡ self.old ++ plain_of item ∷ []) }
    {
        if self.tail.len() < ROW {
            self.tail.push(item)?;
            return Ok(());
        }
        let next = Row::of_one(alloc, item)?;
        let full = mem::replace(&mut self.tail, next);
        let shared = Arc::new(alloc, full)?;
        push_leaf(alloc, &mut self.root, Leaf { shared })
    }

    /// One value less at the end. After an error values may be gone.
    pub(crate) fn pop(&mut self, alloc: Global) -> Result<(), AllocError>
        requires { 0 < length self.old }
        ensures { OnOk result (self.new ≡ take (length self.old - 1) self.old) }
    {
        let behind = self.tail.len();
        if behind > 0 {
            self.tail.truncate(behind - 1);
            return Ok(());
        }
        let Some(root) = &mut self.root else {
            unreachable!()
        };
        let rows = Arc::make_mut(&mut root.shared)?;
        let leaf = rows.pop(alloc)?;
        let Leaf { shared } = leaf;
        let mut tail = taken_row(shared)?;
        tail.truncate(31);
        self.tail = tail;
        Ok(())
    }
}
