//! Arrays of JSON, item by item.

ghost use Rattle.std.specs.Prelude.{◌≡◌, ◌≤◌, ◌++◌, ◌∷◌, [], ◌+◌, false, OnOk};
ghost use Rattle.serde_json.specs.Data.{array, depth, items_depth};
ghost use Rattle.serde_json.specs.View.{view, items_view};
ghost use Rattle.serde_json.specs.Written.{has_float, items_have_float};

use serde_json::Value;
use std::alloc::{AllocError, Global};

/// An array whose items nest no deeper than so many levels, and have no numbers with fractions.
#[derive(Drop)]
pub(crate) struct Array<const N: usize> {
    items: Vec<Value>,
    ghost shallow: { items_depth (items_view items.items) ≤ N },
    ghost whole: { items_have_float (items_view items.items) ≡ false },
}

impl<const N: usize> Array<N> {
    /// An array without items.
    pub(crate) fn new(alloc: Global) -> Array<N>
        ensures { result.items.items ≡ [] }
    {
        Array {
            items: Vec::new(alloc),
        }
    }

    /// Puts an item behind the others.
    pub(crate) fn push(&mut self, item: Value) -> Result<(), AllocError>
        requires shallow { depth (view item) ≤ N }
        requires whole { has_float (view item) ≡ false }
        ensures { OnOk result (self.new.items.items ≡ self.old.items.items ++ item ∷ []) }
    {
        Ok(self.items.push(item)?)
    }

    /// The array as a value.
    pub(crate) fn into_value(self) -> Value
        ensures view { view result ≡ array (items_view self.entry.items.items) }
        ensures shallow { depth (view result) ≤ N + 1 }
        ensures whole { has_float (view result) ≡ false }
    {
        let Array { items } = self;
        Value::Array(items)
    }
}
