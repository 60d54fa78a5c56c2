//! Leaves in a row, by themselves and as a branch that several vectors may share.
ghost use Rattle.std.specs.Prelude.{◌≡◌, ◌<◌, ◌+◌, ◌*◌, ◌++◌, ◌∷◌, length, take, drop, OnOk, OnErr, Some};
ghost use Rattle.std.specs.List.{slice_get};
ghost use Rattle.txs_value_data.specs.Rows.{joined, AreRows};
ghost use Rattle.txs_value_data.specs.View.{plain_of, plains_of};

use crate::copy::{Share, copy_row};
use crate::value::{Branch, Leaf, Value};
use std::alloc::{AllocError, Global};
use std::sync::Arc;

/// The value at a place of full leaves.
pub(crate) fn value_in(leaves: &[Leaf], place: usize) -> &Value
    requires rows { AreRows 32 32 leaves.now }
    requires there { place < length (joined leaves.now) }
    ensures { slice_get (joined leaves.now) place ≡ Some (plain_of result.now) }
{
    let leaf = &leaves[place / 32];
    leaf.get(place % 32)
}

/// The values of one of full leaves.
pub(crate) fn row_in(leaves: &[Leaf], number: usize) -> &[Value]
    requires rows { AreRows 32 32 leaves.now }
    requires there { number * 32 < length (joined leaves.now) }
    ensures { plains_of result.now ≡ take 32 (drop (number * 32) (joined leaves.now)) }
{
    let leaf = &leaves[number];
    leaf.shared.as_slice()
}

/// Puts a value in the place of another in full leaves.
#[inline(always)]
pub(crate) fn put_in(
    alloc: Global,
    leaves: &mut Vec<Leaf>,
    place: usize,
    item: Value,
) -> Result<(), AllocError>
    requires rows { AreRows 32 32 leaves.old.items }
    requires there { place < length (joined leaves.old.items) }
    ensures ok { OnOk result (joined leaves.new.items
        ≡ take place (joined leaves.old.items) ++ plain_of item ∷ drop (place + 1) (joined leaves.old.items)) }
    ensures err { OnErr result (joined leaves.new.items ≡ joined leaves.old.items) }
    ensures rows { AreRows 32 32 leaves.new.items }
{
    let leaf = &mut leaves[place / 32];
    leaf.set(alloc, place % 32, item)?;
    Ok(())
}

impl Share for Branch {
    fn share(&self) -> Result<Branch, AllocError> {
        Ok(Branch {
            shared: Arc::try_clone(&self.shared)?,
        })
    }
}

impl Branch {
    /// The value at a place.
    pub(crate) fn get(&self, place: usize) -> &Value
        requires { place < length self.now }
        ensures { slice_get self.now place ≡ Some (plain_of result.now) }
    {
        value_in(self.shared.as_slice(), place)
    }

    /// Puts a value in the place of another: in place where no other shares the branch, else in a copy.
    #[inline(always)]
    pub(crate) fn set(&mut self, alloc: Global, place: usize, item: Value) -> Result<(), AllocError>
        requires { place < length self.old }
        ensures ok { OnOk result (self.new ≡ take place self.old ++ plain_of item ∷ drop (place + 1) self.old) }
        ensures err { OnErr result (self.new ≡ self.old) }
    {
        if let Some(leaves) = Arc::get_mut(&mut self.shared) {
            return put_in(alloc, leaves, place, item);
        }
        let Ok(mut leaves) = copy_row(alloc, self.shared.as_slice()) else {
            drop(item);
            return Err(AllocError);
        };
        put_in(alloc, &mut leaves, place, item)?;
        self.shared = Arc::new(alloc, leaves)?;
        Ok(())
    }
}
