//! A row of values that several vectors may share.
ghost use Rattle.std.specs.Prelude.{◌≡◌, ◌<◌, ◌+◌, ◌++◌, ◌∷◌, length, take, drop, OnOk, OnErr, Some};
ghost use Rattle.std.specs.List.{slice_get};
ghost use Rattle.txs_value_data.specs.View.{plain_of};

use crate::copy::Share;
use crate::value::{Leaf, Value};
use std::alloc::{AllocError, Global};
use std::sync::Arc;

impl Share for Leaf {
    fn share(&self) -> Result<Leaf, AllocError> {
        Ok(Leaf {
            shared: Arc::try_clone(&self.shared)?,
        })
    }
}

impl Leaf {
    /// The value at a place.
    pub(crate) fn get(&self, place: usize) -> &Value
        requires { place < length self.now }
        ensures { slice_get self.now place ≡ Some (plain_of result.now) }
    {
        self.shared.get(place)
    }

    /// Puts a value in the place of another: in place where no other shares the row, else in a copy.
    #[inline(always)]
    pub(crate) fn set(&mut self, alloc: Global, place: usize, item: Value) -> Result<(), AllocError>
        requires { place < length self.old }
        ensures ok { OnOk result (self.new ≡ take place self.old ++ plain_of item ∷ drop (place + 1) self.old) }
        ensures err { OnErr result (self.new ≡ self.old) }
    {
        if let Some(row) = Arc::get_mut(&mut self.shared) {
            row.put(place, item);
            return Ok(());
        }
        let Ok(mut row) = self.shared.copied() else {
            drop(item);
            return Err(AllocError);
        };
        row.put(place, item);
        self.shared = Arc::new(alloc, row)?;
        Ok(())
    }
}
