//! The further arguments of an action: one is kept in place, and more are in one list that all copies share.

ghost use Rattle.std.specs.Prelude.{◌≡◌, ◌∷◌, [], IfOk};

use std::alloc::AllocError;
use std::marker::Model;
use std::slice;
use std::sync::Arc;
use txs_value_data::{Value, copy_value};

/// How the arguments are kept.
#[derive(Drop)]
pub(crate) enum Kept {
    Nothing,
    One(Value),
    Several(Arc<Vec<Value>>),
}

/// Further arguments of an action, which contracts see as a list.
pub struct Arguments {
    kept: Kept,
}

// Dropped by a call that is proved here, so that no crate above proves it again.
impl Drop for Arguments {
    fn drop(self) {
        let Arguments { kept } = self;
        drop(kept);
    }
}

impl Model for Arguments {
    ghost use Rattle.std.specs.Prelude.{List};
    ghost use Rattle.std.specs.Coded.{codes};
    ghost use Rattle.txs_value_data.specs.contracts.value.Value as value;
    ghost use Rattle.txs_value_data.specs.declared.value.Value.{Value as Item};
    ghost use Rattle.txs_value_cell.specs.Arguments.{listed};

    ghost Value = { List Item };

    ghost coded = { Prim.hlevel (codes, value.the_row.coded) };

    ghost view = { λ a. listed a.kept };
}

impl Arguments {
    /// No argument.
    pub fn none() -> Arguments
        ensures { result ≡ [] }
    {
        Arguments {
            kept: Kept::Nothing,
        }
    }

    /// One argument.
    pub fn one(value: Value) -> Arguments
        ensures { result ≡ value ∷ [] }
    {
        Arguments {
            kept: Kept::One(value),
        }
    }

    /// The arguments of a list. An error where there is no memory to share several.
    pub fn from_vec(mut values: Vec<Value>) -> Result<Arguments, AllocError>
        ensures { IfOk result (λ a. a ≡ values.items) }
    {
        if values.len() > 1 {
            let shared = Arc::new(*values.allocator(), values)?;
            return Ok(Arguments {
                kept: Kept::Several(shared),
            });
        }
        match values.pop() {
            Some(value) => Ok(Arguments::one(value)),
            None => Ok(Arguments::none()),
        }
    }

    /// The same arguments: one more owner of what is shared is counted, and nothing is allocated. An error where a count is full.
    pub fn share(&self) -> Result<Arguments, AllocError>
        ensures { IfOk result (λ a. a ≡ self.now) }
    {
        let kept = match &self.kept {
            Kept::Nothing => Kept::Nothing,
            Kept::One(value) => Kept::One(copy_value(value)?),
            Kept::Several(values) => Kept::Several(Arc::try_clone(values)?),
        };
        Ok(Arguments { kept })
    }

    /// The arguments, lent.
    pub fn as_slice(&self) -> &[Value]
        ensures { result.now ≡ self.now }
    {
        match &self.kept {
            Kept::Nothing => &[],
            Kept::One(value) => slice::from_ref(value),
            Kept::Several(values) => values.as_slice(),
        }
    }
}
