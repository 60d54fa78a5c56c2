//! Values as JSON.

ghost use Rattle.std.specs.Prelude.{◌≡◌, ◌≤◌, false, IfOk, OnOk};
ghost use Rattle.std.specs.Str.Lossy.{utf8_lossy};
ghost use Rattle.serde_json.specs.Data.{depth, put as with_member};
ghost use Rattle.serde_json.specs.View.{view, items_view, members_view};
ghost use Rattle.serde_json.specs.Written.{has_float};
ghost use Rattle.txs_cli_json.specs.ValueForm.{items_json, kind_word, name_among, named, value_json};
ghost use Rattle.txs_value_data.specs.PlainValue.{depth as plain_depth, plain_row};
ghost use Rattle.txs_value_data.specs.View.{plain_of};

use crate::object::Object;
use serde_json::Value as Json;
use std::alloc::{AllocError, Global};
use txs_value_cell::CellDefinition;
use txs_value_data::{CellId, CellKind, Items, Value};

/// The word for a kind of cells.
pub(crate) fn kind_word(kind: CellKind) -> &'static str
    ensures { result.now ≡ kind_word kind }
{
    match kind {
        CellKind::Ref => "ref",
        CellKind::Atom => "atom",
        CellKind::Agent => "agent",
    }
}

/// The name of a cell; nothing where there is none of its number.
pub(crate) fn name_in(cells: &[CellDefinition], cell: CellId) -> &[u8]
    ensures { result.now ≡ name_among cells.now cell }
{
    match cells.get(usize::from(cell.number)) {
        Some(defined) => defined.name.as_bytes(),
        None => b"",
    }
}

/// The object of one member: a name.
fn name_json(alloc: Global, word: &str, name: &[u8]) -> Result<Json, AllocError>
    ensures { IfOk result (λ v. view v ≡ named word.now name.now) }
{
    let mut object = Object::<0>::new(alloc);
    object.put_bytes(word, name)?;
    Ok(object.into_value())
}

/// The items of a vector as JSON.
#[cycle(json)]
fn items_json(
    alloc: Global,
    cells: &[CellDefinition],
    items: &Items,
) -> Result<Vec<Json>, AllocError>
    ensures { IfOk result (λ v. items_view v.items ≡ items_json cells.now (plain_row items.now)) }
{
    let mut list = Vec::with_capacity(alloc, items.len())?;
    for i in 0..items.len() {
        list.push(value_json(alloc, cells, items.get(i))?)?;
    }
    Ok(list)
}

/// A value as JSON.
#[cycle(json)]
pub(crate) fn value_json(
    alloc: Global,
    cells: &[CellDefinition],
    value: &Value,
) -> Result<Json, AllocError>
    ensures { IfOk result (λ v. view v ≡ value_json cells.now (plain_of value.now)) }
{
    match value {
        Value::Nil => Ok(Json::Null),
        Value::Truth(b) => Ok(Json::Bool(*b)),
        Value::Int(n) => Ok(Json::from(*n)),
        Value::Key(name) => name_json(alloc, "keyword", name.as_bytes()),
        Value::Text(text) => Json::try_from_str(alloc, text.as_str()),
        Value::Vector(items) => Ok(Json::Array(items_json(alloc, cells, items)?)),
        Value::Cell(cell) => name_json(alloc, kind_word(cell.kind), name_in(cells, *cell)),
    }
}

/// Knows how deep a value is at most.
fn know_depth(value: &Value)
    ensures { plain_depth (plain_of value.now) ≤ 32 }
{
    if let Value::Vector(items) = value {
        let _count = items.len();
    }
}

/// The same, of which it is known how deep it is at most.
pub(crate) fn fitting_json(
    alloc: Global,
    cells: &[CellDefinition],
    value: &Value,
) -> Result<Json, AllocError>
    ensures value { IfOk result (λ v. view v ≡ value_json cells.now (plain_of value.now)) }
    ensures shallow { IfOk result (λ v. depth (view v) ≤ 33) }
    ensures whole { IfOk result (λ v. has_float (view v) ≡ false) }
{
    know_depth(value);
    value_json(alloc, cells, value)
}

impl<const N: usize> Object<N> {
    /// Puts a value in.
    pub(crate) fn put_value(
        &mut self,
        name: &str,
        cells: &[CellDefinition],
        value: &Value,
    ) -> Result<(), AllocError>
        requires { 33 ≤ N }
        ensures { OnOk result (members_view self.new.members.entries ≡ with_member name.now (value_json cells.now (plain_of value.now)) (members_view self.old.members.entries)) }
    {
        let value = fitting_json(self.alloc, cells, value)?;
        self.put(name, value)
    }
}
