//! Equality of actions, of writes and of results: each test answers true exactly where the two are equal, and is the test of
//! that kind in the definitions. Of an action and of a write all parts are compared, and not only those before the first that
//! differs: most are equal, and else all ends there.

ghost use Rattle.std.specs.Prelude.{◌≡◌, ◌↔◌, IsTrue};
ghost use Rattle.txs_world_protocol.specs.Ask.{same_action, same_actions, same_cell, same_fault, same_new, same_value, same_values, same_writes};

use txs_value_cell::Action;
use txs_value_data::{CellId, Fault, Value, same};

/// Whether two values are equal.
pub fn same_value(a: &Value, b: &Value) -> bool
    ensures equal { IsTrue result ↔ (a.now ≡ b.now) }
    ensures test { result ≡ same_value a.now b.now }
{
    same(a, b)
}

/// Whether two cells are the same.
pub fn same_cell(a: CellId, b: CellId) -> bool
    ensures equal { IsTrue result ↔ (a ≡ b) }
    ensures test { result ≡ same_cell a b }
{
    a == b
}

/// Whether two faults are equal.
pub fn same_fault(a: Fault, b: Fault) -> bool
    ensures equal { IsTrue result ↔ (a ≡ b) }
    ensures test { result ≡ same_fault a b }
{
    a == b
}

/// Whether two lists of values are equal.
pub fn same_values(a: &[Value], b: &[Value]) -> bool
    ensures equal { IsTrue result ↔ (a.now ≡ b.now) }
    ensures test { result ≡ same_values a.now b.now }
{
    if a.len() != b.len() {
        return false;
    }
    for i in 0..a.len() {
        if !same(&a[i], &b[i]) {
            return false;
        }
    }
    true
}

/// Whether two actions are equal.
pub fn same_action(a: &Action, b: &Action) -> bool
    ensures equal { IsTrue result ↔ (a.now ≡ b.now) }
    ensures test { result ≡ same_action a.now b.now }
{
    (a.agent == b.agent)
        & (a.callee == b.callee)
        & same_values(a.args.as_slice(), b.args.as_slice())
        & (a.span == b.span)
}

/// Whether two lists of actions are equal.
pub fn same_actions(a: &[Action], b: &[Action]) -> bool
    ensures equal { IsTrue result ↔ (a.now ≡ b.now) }
    ensures test { result ≡ same_actions a.now b.now }
{
    if a.len() != b.len() {
        return false;
    }
    for i in 0..a.len() {
        if !same_action(&a[i], &b[i]) {
            return false;
        }
    }
    true
}

/// Whether two writes are equal.
pub fn same_write(a: &(CellId, Value), b: &(CellId, Value)) -> bool
    ensures { IsTrue result ↔ (a.now ≡ b.now) }
{
    (a.0 == b.0) & same(&a.1, &b.1)
}

/// Whether two lists of writes are equal.
pub fn same_writes(a: &[(CellId, Value)], b: &[(CellId, Value)]) -> bool
    ensures equal { IsTrue result ↔ (a.now ≡ b.now) }
    ensures test { result ≡ same_writes a.now b.now }
{
    if a.len() != b.len() {
        return false;
    }
    for i in 0..a.len() {
        if !same_write(&a[i], &b[i]) {
            return false;
        }
    }
    true
}

/// Whether two results of an action are equal.
pub fn same_new(a: &Result<Value, Fault>, b: &Result<Value, Fault>) -> bool
    ensures equal { IsTrue result ↔ (a.now ≡ b.now) }
    ensures test { result ≡ same_new a.now b.now }
{
    match (a, b) {
        (Ok(v), Ok(w)) => same(v, w),
        (Err(f), Err(g)) => *f == *g,
        _ => false,
    }
}
