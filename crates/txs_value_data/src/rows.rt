//! What a long vector's owners share: full branches, and full leaves behind them.
ghost use Rattle.std.specs.Prelude.{◌≡◌, ◌<◌, ◌≤◌, ◌+◌, ◌*◌, ◌++◌, ◌∷◌, length, take, drop, IfOk, OnOk, Some};
ghost use Rattle.std.specs.List.{slice_get};
ghost use Rattle.txs_value_data.specs.Limits.{most_items};
ghost use Rattle.txs_value_data.specs.View.{plain_of, plains_of};

use crate::branch::{put_in, row_in, value_in};
use crate::copy::{copy_row, taken};
use crate::value::{Branch, Leaf, Rows, Value};
use std::alloc::{AllocError, Global};
use std::mem;
use std::sync::Arc;

impl Clone for Rows {
    ghost is_clone = { λ a b. b ≡ a };

    /// The same rows, in lists of their own.
    fn clone(&self) -> Result<Rows, AllocError> {
        let alloc = *self.leaves.allocator();
        let branches = copy_row(alloc, self.branches.as_slice())?;
        let leaves = copy_row(alloc, self.leaves.as_slice())?;
        Ok(Rows { branches, leaves })
    }
}

impl Rows {
    /// How many values there are.
    pub(crate) fn len(&self) -> usize
        ensures value { result ≡ length self.now }
        ensures small { result ≤ 66560 }
    {
        self.branches.len() * 1024 + self.leaves.len() * 32
    }

    /// The value at a place.
    pub(crate) fn get(&self, place: usize) -> &Value
        requires { place < length self.now }
        ensures { slice_get self.now place ≡ Some (plain_of result.now) }
    {
        let before = self.branches.len() * 1024;
        if place < before {
            let branch = &self.branches[place / 1024];
            return branch.get(place % 1024);
        }
        value_in(self.leaves.as_slice(), place - before)
    }

    /// How many leaves there are.
    pub(crate) fn full(&self) -> usize
        ensures { result * 32 ≡ length self.now }
    {
        self.branches.len() * 32 + self.leaves.len()
    }

    /// The values of a leaf.
    pub(crate) fn row(&self, number: usize) -> &[Value]
        requires { number * 32 < length self.now }
        ensures { plains_of result.now ≡ take 32 (drop (number * 32) self.now) }
    {
        let before = self.branches.len() * 32;
        if number < before {
            let branch = &self.branches[number / 32];
            return row_in(branch.shared.as_slice(), number % 32);
        }
        row_in(self.leaves.as_slice(), number - before)
    }

    /// Puts a value in the place of another.
    #[inline(always)]
    pub(crate) fn set(&mut self, alloc: Global, place: usize, item: Value) -> Result<(), AllocError>
        requires { place < length self.old }
        ensures ok { OnOk result (self.new ≡ take place self.old ++ plain_of item ∷ drop (place + 1) self.old) }
    {
        let before = self.branches.len() * 1024;
        if place < before {
            let branch = &mut self.branches[place / 1024];
            branch.set(alloc, place % 1024, item)?;
            return Ok(());
        }
        put_in(alloc, &mut self.leaves, place - before, item)?;
        Ok(())
    }

    /// One more leaf at the end. After an error leaves may be gone.
    pub(crate) fn push(&mut self, alloc: Global, leaf: Leaf) -> Result<(), AllocError>
        requires full { length leaf ≡ 32 }
        requires room { length self.old < most_items + 1 }
        ensures { OnOk result (self.new ≡ self.old ++ leaf) }
    {
        if self.leaves.len() < 32 {
            self.leaves.push(leaf)?;
            return Ok(());
        }
        let Ok(mut next) = Vec::with_capacity(alloc, 32) else {
            drop(leaf);
            return Err(AllocError);
        };
        next.push_reserved(leaf);
        let full = mem::replace(&mut self.leaves, next);
        let shared = Arc::new(alloc, full)?;
        self.branches.push(Branch { shared })?;
        Ok(())
    }

    /// Takes the last leaf. After an error leaves may be gone.
    pub(crate) fn pop(&mut self, alloc: Global) -> Result<Leaf, AllocError>
        requires { 0 < length self.old }
        ensures rest { IfOk result (λ l. self.old ≡ self.new ++ l) }
        ensures full { IfOk result (λ l. length l ≡ 32) }
    {
        if let Some(last) = self.leaves.pop() {
            return Ok(last);
        }
        let Some(branch) = self.branches.pop() else {
            unreachable!()
        };
        let Branch { shared } = branch;
        let mut leaves = taken(alloc, shared)?;
        let Some(last) = leaves.pop() else {
            unreachable!()
        };
        self.leaves = leaves;
        Ok(last)
    }
}
