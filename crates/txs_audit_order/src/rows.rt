//! Rows of items, one for each book or cell.

ghost use Rattle.std.specs.Prelude.{◌≡◌, ◌++◌, ◌∷◌, [], replicate, IfOk, OnOk};

use std::alloc::{AllocError, Global};
use std::marker::Model;

/// Items, of which contracts see the list.
#[derive(Drop)]
pub(crate) struct Row<T> {
    pub(crate) items: Vec<T>,
}

impl<T> Model for Row<T> {
    ghost use Rattle.std.specs.Prelude.{List};

    ghost Value = { List T };

    ghost view = { λ r. r.items.items };
}

impl<T> Row<T> {
    /// Without an item.
    fn new(alloc: Global) -> Row<T>
        ensures { result ≡ [] }
    {
        Row {
            items: Vec::new(alloc),
        }
    }

    /// The items.
    pub(crate) fn as_slice(&self) -> &[T]
        ensures { result.now ≡ self.now }
    {
        self.items.as_slice()
    }
}

impl<T: Drop> Row<T> {
    /// Adds an item behind the others.
    pub(crate) fn add(&mut self, item: T) -> Result<(), AllocError>
        ensures { OnOk result (self.new ≡ self.old ++ item ∷ []) }
    {
        self.items.push(item)?;
        Ok(())
    }
}

/// So many rows without items.
pub(crate) fn empty_rows<T: Drop>(alloc: Global, many: usize) -> Result<Vec<Row<T>>, AllocError>
    ensures { IfOk result (λ rows. rows.items ≡ replicate many []) }
{
    let mut rows = Vec::with_capacity(alloc, many)?;
    for _i in 0..many {
        rows.push_reserved(Row::new(alloc));
    }
    Ok(rows)
}
