//! The core operations on vectors. Each takes its vector and changes in place what no other shares; an
//! operation on a vector that is to stay begins with a copy of the value, which is a count.

ghost use Rattle.std.specs.Prelude.{◌≡◌, ◌↔◌, ◌<◌, ◌≤◌, ◌+◌, ◌++◌, ◌∷◌, length, take, drop, IsTrue, IfOk, MatchResult, Ok, Err};
ghost use Rattle.txs_value_apply.specs.Core.{Answers, items_of, nth_of, count_of, conj_of, assoc_of, peek_of, pop_of, place_in, vector_of};
ghost use Rattle.txs_value_data.specs.Limits.{most_items};
ghost use Rattle.txs_value_data.specs.PlainValue.{depth, row_depth, plain_row};
ghost use Rattle.txs_value_data.specs.View.{plain_of, plains_of};

use crate::numbers::number;
use std::alloc::{AllocError, Global};
use txs_value_data::limits::{MOST_DEPTH, MOST_ITEMS};
use txs_value_data::{FaultKind, Items, Stop, Value, copy_value};

/// The items of the vector that a value is.
fn items(value: &Value) -> Result<&Items, FaultKind>
    ensures { MatchResult result (λ r. items_of value.now ≡ Ok r.now) (λ k. items_of value.now ≡ Err k) }
{
    match value {
        Value::Vector(items) => Ok(items),
        _ => Err(FaultKind::NotAVector),
    }
}

/// The items of the vector that a value was.
#[inline(always)]
fn taken_items(value: Value) -> Result<Items, FaultKind>
    ensures { MatchResult result (λ r. items_of value ≡ Ok r) (λ k. items_of value ≡ Err k) }
{
    match value.into_items() {
        Some(items) => Ok(items),
        None => Err(FaultKind::NotAVector),
    }
}

/// Whether vectors nest in the value at most this deep.
#[cycle(depth)]
pub(crate) fn is_within(value: &Value, limit: u8) -> bool
    ensures { IsTrue result ↔ (depth (plain_of value.now) ≤ limit) }
{
    match value {
        Value::Vector(items) => limit > 0 && items_within(items, limit - 1),
        _ => true,
    }
}

/// Whether vectors nest in each of the items at most this deep.
#[cycle(depth)]
fn items_within(items: &Items, limit: u8) -> bool
    ensures { IsTrue result ↔ (row_depth (plain_row items.now) ≤ limit) }
{
    if items.deep() <= limit {
        return true;
    }
    for i in 0..items.len() {
        if !is_within(items.get(i), limit) {
            return false;
        }
    }
    true
}

/// Whether vectors nest in each of the values at most this deep.
fn are_within(values: &[Value], limit: u8) -> bool
    ensures { IsTrue result ↔ (row_depth (plain_row (plains_of values.now)) ≤ limit) }
{
    for value in values {
        if !is_within(value, limit) {
            return false;
        }
    }
    true
}

/// `count`
pub(crate) fn count(value: &Value) -> Result<Value, FaultKind>
    ensures { result ≡ count_of value.now }
{
    match value {
        Value::Nil => Ok(Value::Int(0)),
        Value::Vector(items) => Ok(Value::Int(items.len() as i64)),
        _ => Err(FaultKind::NotAVector),
    }
}

/// `nth`
pub(crate) fn nth(vector: &Value, index: &Value) -> Result<Value, Stop>
    ensures { Answers result (nth_of vector.now index.now) }
{
    let items = items(vector)?;
    let index = number(index)?;
    let Ok(place) = usize::try_from(index) else {
        return Err(Stop::Fault(FaultKind::IndexOut));
    };
    if place >= items.len() {
        return Err(Stop::Fault(FaultKind::IndexOut));
    }
    Ok(copy_value(items.get(place))?)
}

/// `peek`
pub(crate) fn peek(value: &Value) -> Result<Value, Stop>
    ensures { Answers result (peek_of value.now) }
{
    let items = items(value)?;
    let count = items.len();
    if count == 0 {
        return Ok(Value::Nil);
    }
    Ok(copy_value(items.get(count - 1))?)
}

/// `conj`
#[inline(always)]
pub(crate) fn conj_owned(alloc: Global, vector: Value, item: Value) -> Result<Value, Stop>
    ensures { Answers result (conj_of vector item) }
{
    let items = taken_items(vector)?;
    if items.len() >= MOST_ITEMS {
        return Err(Stop::Fault(FaultKind::TooLong));
    }
    if !is_within(&item, MOST_DEPTH - 1) {
        return Err(Stop::Fault(FaultKind::TooDeep));
    }
    Ok(Value::Vector(items.conj(alloc, item)?))
}

/// `pop`
pub(crate) fn pop_owned(alloc: Global, vector: Value) -> Result<Value, Stop>
    ensures { Answers result (pop_of vector) }
{
    let items = taken_items(vector)?;
    if items.len() == 0 {
        return Err(Stop::Fault(FaultKind::PopEmpty));
    }
    Ok(Value::Vector(items.pop(alloc)?))
}

/// The place of an index up to the end of so many items.
#[inline(always)]
fn place_in(items: &Items, index: i64) -> Result<usize, FaultKind>
    ensures { result ≡ place_in items.now index }
{
    match usize::try_from(index) {
        Ok(place) if place <= items.len() => Ok(place),
        _ => Err(FaultKind::IndexOut),
    }
}

/// Puts an item in the place of another, or behind the last.
#[inline(always)]
fn put_at(alloc: Global, items: Items, place: usize, item: Value) -> Result<Items, AllocError>
    requires there { place ≤ length items }
    requires room { place < most_items }
    requires shallow { depth (plain_of item) ≤ 31 }
    ensures { IfOk result (λ v. v ≡ take place items ++ plain_of item ∷ drop (place + 1) items) }
{
    if place < items.len() {
        return items.assoc(alloc, place, item);
    }
    items.conj(alloc, item)
}

/// `assoc`
#[inline(always)]
pub(crate) fn assoc_owned(
    alloc: Global,
    vector: Value,
    index: &Value,
    item: Value,
) -> Result<Value, Stop>
    ensures { Answers result (assoc_of vector index.now item) }
{
    let items = taken_items(vector)?;
    let index = number(index)?;
    let place = place_in(&items, index)?;
    if place >= MOST_ITEMS {
        return Err(Stop::Fault(FaultKind::TooLong));
    }
    if !is_within(&item, MOST_DEPTH - 1) {
        return Err(Stop::Fault(FaultKind::TooDeep));
    }
    Ok(Value::Vector(put_at(alloc, items, place, item)?))
}

/// `conj` of a vector that stays.
pub(crate) fn conj(alloc: Global, vector: &Value, item: &Value) -> Result<Value, Stop>
    ensures { Answers result (conj_of vector.now item.now) }
{
    let vector = copy_value(vector)?;
    let item = copy_value(item)?;
    conj_owned(alloc, vector, item)
}

/// `pop` of a vector that stays.
pub(crate) fn pop(alloc: Global, vector: &Value) -> Result<Value, Stop>
    ensures { Answers result (pop_of vector.now) }
{
    let vector = copy_value(vector)?;
    pop_owned(alloc, vector)
}

/// `assoc` of a vector that stays.
pub(crate) fn assoc(
    alloc: Global,
    vector: &Value,
    index: &Value,
    item: &Value,
) -> Result<Value, Stop>
    ensures { Answers result (assoc_of vector.now index.now item.now) }
{
    let vector = copy_value(vector)?;
    let item = copy_value(item)?;
    assoc_owned(alloc, vector, index, item)
}

/// The vector of these values. TooLong past 65,535 items, TooDeep where an item nests vectors 32 deep.
pub fn make_vector(alloc: Global, items: Vec<Value>) -> Result<Value, Stop>
    ensures { Answers result (vector_of items.items) }
{
    if items.len() > MOST_ITEMS {
        return Err(Stop::Fault(FaultKind::TooLong));
    }
    if !are_within(items.as_slice(), MOST_DEPTH - 1) {
        return Err(Stop::Fault(FaultKind::TooDeep));
    }
    Ok(Value::Vector(Items::from_vec(alloc, items)?))
}
