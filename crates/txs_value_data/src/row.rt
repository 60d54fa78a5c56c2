//! Values in a row, of which it may be known that all are numbers: those are copied and freed with no test of each.
ghost use Rattle.std.specs.Prelude.{◌≡◌, ◌<◌, ◌≤◌, ◌+◌, ◌++◌, ◌∷◌, [], length, take, drop, slice_set, IfOk, OnOk, OnErr, Some, IsTrue};
ghost use Rattle.std.specs.List.{slice_get};
ghost use Rattle.txs_value_data.specs.Numbers.{IsNumber, AreNumbers};
ghost use Rattle.txs_value_data.specs.View.{plain_of, plains_of};
ghost use Rattle.txs_value_data.specs.declared.value.Value.TheVariants.{Int};

use crate::copy::copy_with;
use crate::value::{Row, Value};
use std::alloc::{AllocError, Global};
use std::mem;

/// How many values a row has at most.
pub(crate) const ROW: usize = 32;

/// Whether a value is a number.
#[inline(always)]
fn is_number(value: &Value) -> bool
    ensures { IsTrue result → IsNumber (plain_of value.now) }
{
    matches!(value, Value::Int(_))
}

/// Whether a row of which this is known has numbers alone with this value, too.
#[inline(always)]
fn stay_numbers(are_numbers: bool, item: &Value) -> bool
    ensures row { IsTrue result → IsTrue are_numbers }
    ensures item { IsTrue result → IsNumber (plain_of item.now) }
{
    are_numbers && is_number(item)
}

/// Puts a value in the place of another in a list.
#[inline(always)]
fn put(values: &mut Vec<Value>, place: usize, item: Value)
    requires { place < length values.old.items }
    ensures { values.new.items ≡ slice_set values.old.items place item }
{
    drop(mem::replace(&mut values[place], item));
}

/// The number that a value is.
#[inline(always)]
pub(crate) fn number(value: &Value) -> i64
    requires { IsNumber (plain_of value.now) }
    ensures { value.now ≡ Int result }
{
    match value {
        Value::Int(n) => *n,
        _ => unreachable!(),
    }
}

/// The same numbers in a list of its own, with so much room.
fn copy_numbers(alloc: Global, items: &[Value], room: usize) -> Result<Vec<Value>, AllocError>
    requires room { length items.now ≤ room }
    requires numbers { AreNumbers (plains_of items.now) }
    ensures { IfOk result (λ c. c.items ≡ items.now) }
{
    let mut copies = Vec::with_capacity(alloc, room)?;
    for item in items {
        copies.push_reserved(Value::Int(number(item)));
    }
    Ok(copies)
}

/// Frees a list of numbers. Nothing is left of the loop in machine code.
pub(crate) fn drop_numbers(mut items: Vec<Value>)
    requires { AreNumbers (plains_of items.items) }
{
    while let Some(item) = items.pop() {
        let _ = item.into_number();
    }
    items.destroy_empty();
}

impl Row {
    /// The same row, in a list of its own with room for one more.
    pub(crate) fn copied(&self) -> Result<Row, AllocError>
        ensures { IfOk result (λ r. r ≡ self.now) }
    {
        let alloc = *self.items.allocator();
        let room = self.items.len().saturating_add(1);
        if self.are_numbers {
            let items = copy_numbers(alloc, self.items.as_slice(), room)?;
            return Ok(Row {
                items,
                are_numbers: true,
            });
        }
        let items = copy_with(alloc, self.items.as_slice(), room)?;
        Ok(Row {
            items,
            are_numbers: false,
        })
    }

    /// A row of one value, with room for the others.
    pub(crate) fn of_one(alloc: Global, item: Value) -> Result<Row, AllocError>
        ensures { IfOk result (λ r. r ≡ plain_of item ∷ []) }
    {
        let Ok(mut items) = Vec::with_capacity(alloc, ROW) else {
            drop(item);
            return Err(AllocError);
        };
        let are_numbers = is_number(&item);
        items.push_reserved(item);
        Ok(Row { items, are_numbers })
    }

    /// How many values there are.
    pub(crate) fn len(&self) -> usize
        ensures { result ≡ length self.now }
    {
        self.items.len()
    }

    /// The values, lent.
    pub(crate) fn as_slice(&self) -> &[Value]
        ensures { plains_of result.now ≡ self.now }
    {
        self.items.as_slice()
    }

    /// The value at a place.
    pub(crate) fn get(&self, place: usize) -> &Value
        requires { place < length self.now }
        ensures { slice_get self.now place ≡ Some (plain_of result.now) }
    {
        &self.items[place]
    }

    /// Puts a value in the place of another.
    #[inline(always)]
    pub(crate) fn put(&mut self, place: usize, item: Value)
        requires { place < length self.old }
        ensures { self.new ≡ take place self.old ++ plain_of item ∷ drop (place + 1) self.old }
    {
        let are_numbers = stay_numbers(self.are_numbers, &item);
        put(&mut self.items, place, item);
        self.are_numbers = are_numbers;
    }

    /// One more value at the end.
    pub(crate) fn push(&mut self, item: Value) -> Result<(), AllocError>
        ensures ok { OnOk result (self.new ≡ self.old ++ plain_of item ∷ []) }
        ensures err { OnErr result (self.new ≡ self.old) }
    {
        let are_numbers = stay_numbers(self.are_numbers, &item);
        self.items.push(item)?;
        self.are_numbers = are_numbers;
        Ok(())
    }

    /// The first values alone.
    pub(crate) fn truncate(&mut self, count: usize)
        ensures values { self.new ≡ take count self.old }
        ensures short { length self.new ≤ count }
    {
        self.items.truncate(count);
    }
}
