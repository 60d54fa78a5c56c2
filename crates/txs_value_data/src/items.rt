//! Vectors: what they are made of, and what they hold.
ghost use Rattle.std.specs.Prelude.{◌≡◌, ◌<◌, ◌≤◌, ◌*◌, length, take, drop, IfOk, IsTrue, Some};
ghost use Rattle.std.specs.List.{slice_get};
ghost use Rattle.txs_value_data.specs.Limits.{IsVector};
ghost use Rattle.txs_value_data.specs.Numbers.{IsNumber, AreNumbers};
ghost use Rattle.txs_value_data.specs.PlainValue.{depth, row_depth, plain_row};
ghost use Rattle.txs_value_data.specs.View.{plain_of, plains_of};

use crate::value::{Body, Items, Value};
use std::alloc::{AllocError, Global};
use std::sync::Arc;

/// A number that the value is no deeper than, found at once. It is 0 of numbers alone.
pub(crate) fn no_deeper(value: &Value) -> u8
    ensures bound { depth (plain_of value.now) ≤ result }
    ensures number { result ≡ 0 → IsNumber (plain_of value.now) }
{
    match value {
        Value::Vector(items) => items.deep() + 1,
        Value::Int(_) => 0,
        _ => 1,
    }
}

/// A number that none of the values is deeper than. It is 0 where all are numbers alone.
fn deepest(values: &[Value]) -> u8
    ensures bound { row_depth (plain_row (plains_of values.now)) ≤ result }
    ensures numbers { result ≡ 0 → AreNumbers (plains_of values.now) }
{
    let mut deep = 0;
    for value in values {
        deep = no_deeper(value).max(deep);
    }
    deep
}

impl Items {
    /// A number that none of the items is deeper than, found at once.
    pub fn deep(&self) -> u8
        ensures bound { row_depth (plain_row self.now) ≤ result }
        ensures small { result ≤ 31 }
    {
        self.shared.1.min(31)
    }

    /// Whether it is known, found at once, that all items are numbers.
    pub(crate) fn are_numbers(&self) -> bool
        ensures { IsTrue result → AreNumbers self.now }
    {
        self.shared.1 == 0
    }

    /// The vector of these items.
    pub fn from_vec(alloc: Global, items: Vec<Value>) -> Result<Items, AllocError>
        requires { IsVector (plains_of items.items) }
        ensures { IfOk result (λ v. v ≡ plains_of items.items) }
    {
        let deep = deepest(items.as_slice());
        let body = Body::from_vec(alloc, items, deep == 0)?;
        let shared = Arc::new(alloc, (body, deep))?;
        Ok(Items { shared })
    }

    /// The same vector, in the same memory.
    pub fn share(&self) -> Result<Items, AllocError>
        ensures { IfOk result (λ v. v ≡ self.now) }
    {
        Ok(Items {
            shared: Arc::try_clone(&self.shared)?,
        })
    }

    /// How many items there are.
    pub fn len(&self) -> usize
        ensures value { result ≡ length self.now }
        ensures limits { IsVector self.now }
    {
        self.shared.0.len()
    }

    /// The items of a row of 32 places, lent: fewer in the last row.
    pub(crate) fn row(&self, number: usize) -> &[Value]
        requires { number * 32 < length self.now }
        ensures { plains_of result.now ≡ take 32 (drop (number * 32) self.now) }
    {
        self.shared.0.row(number)
    }

    /// The item at a place, lent.
    pub fn get(&self, place: usize) -> &Value
        requires { place < length self.now }
        ensures { slice_get self.now place ≡ Some (plain_of result.now) }
    {
        self.shared.0.get(place)
    }
}
