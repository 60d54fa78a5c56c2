//! The core operations that compare and test values.

ghost use Rattle.std.specs.Prelude.{◌≡◌, int_lt, int_le, pos};
ghost use Rattle.std.specs.Ordering.{int_eq};
ghost use Rattle.txs_value_apply.specs.Core.{compared, tested, equals, is_false, is_nil};

use crate::numbers::number;
use txs_value_data::{FaultKind, Value, same};

/// `=`
pub(crate) fn equal(a: &Value, b: &Value) -> bool
    ensures { result ≡ equals a.now b.now }
{
    same(a, b)
}

/// `<`
pub(crate) fn less(a: &Value, b: &Value) -> Result<Value, FaultKind>
    ensures { result ≡ compared int_lt a.now b.now }
{
    let x = number(a)?;
    let y = number(b)?;
    Ok(Value::Truth(x < y))
}

/// `>`
pub(crate) fn greater(a: &Value, b: &Value) -> Result<Value, FaultKind>
    ensures { result ≡ compared (λ x y. int_lt y x) a.now b.now }
{
    let x = number(a)?;
    let y = number(b)?;
    Ok(Value::Truth(x > y))
}

/// `<=`
pub(crate) fn less_or_equal(a: &Value, b: &Value) -> Result<Value, FaultKind>
    ensures { result ≡ compared int_le a.now b.now }
{
    let x = number(a)?;
    let y = number(b)?;
    Ok(Value::Truth(x <= y))
}

/// `>=`
pub(crate) fn greater_or_equal(a: &Value, b: &Value) -> Result<Value, FaultKind>
    ensures { result ≡ compared (λ x y. int_le y x) a.now b.now }
{
    let x = number(a)?;
    let y = number(b)?;
    Ok(Value::Truth(x >= y))
}

/// `not`: whether a value is logically false, which `nil` and `false` alone are.
pub fn is_false(value: &Value) -> bool
    ensures { result ≡ is_false value.now }
{
    match value {
        Value::Nil => true,
        Value::Truth(b) => !*b,
        _ => false,
    }
}

/// `nil?`
pub(crate) fn is_nil(value: &Value) -> bool
    ensures { result ≡ is_nil value.now }
{
    matches!(value, Value::Nil)
}

/// `zero?`
pub(crate) fn is_zero(value: &Value) -> Result<Value, FaultKind>
    ensures { result ≡ tested (λ x. int_eq x (pos 0)) value.now }
{
    let x = number(value)?;
    Ok(Value::Truth(x == 0))
}

/// `pos?`
pub(crate) fn is_positive(value: &Value) -> Result<Value, FaultKind>
    ensures { result ≡ tested (λ x. int_lt (pos 0) x) value.now }
{
    let x = number(value)?;
    Ok(Value::Truth(0 < x))
}

/// `neg?`
pub(crate) fn is_negative(value: &Value) -> Result<Value, FaultKind>
    ensures { result ≡ tested (λ x. int_lt x (pos 0)) value.now }
{
    let x = number(value)?;
    Ok(Value::Truth(x < 0))
}
