//! The core operations on numbers.

ghost use Rattle.std.specs.Prelude.{◌≡◌, ◌≤◌, length, drop, pos};
ghost use Rattle.txs_value_apply.specs.Core.{number_of, of_number, of_numbers, from_left, difference_of, plus, minus, times, negated, quotient, remainder, modulo, greatest, least, arg};

use txs_value_data::{FaultKind, Value};

/// The number that a value is.
pub(crate) fn number(value: &Value) -> Result<i64, FaultKind>
    ensures { result ≡ number_of value.now }
{
    match value {
        Value::Int(n) => Ok(*n),
        _ => Err(FaultKind::NotANumber),
    }
}

fn plus(x: i64, y: i64) -> Result<i64, FaultKind>
    ensures { result ≡ plus x y }
{
    x.checked_add(y).ok_or(FaultKind::Overflow)
}

fn minus(x: i64, y: i64) -> Result<i64, FaultKind>
    ensures { result ≡ minus x y }
{
    x.checked_sub(y).ok_or(FaultKind::Overflow)
}

fn times(x: i64, y: i64) -> Result<i64, FaultKind>
    ensures { result ≡ times x y }
{
    x.checked_mul(y).ok_or(FaultKind::Overflow)
}

fn negated(x: i64) -> Result<i64, FaultKind>
    ensures { result ≡ negated x }
{
    x.checked_neg().ok_or(FaultKind::Overflow)
}

fn quotient(x: i64, y: i64) -> Result<i64, FaultKind>
    ensures { result ≡ quotient x y }
{
    if y == 0 {
        return Err(FaultKind::DivideByZero);
    }
    x.checked_div(y).ok_or(FaultKind::Overflow)
}

fn remainder(x: i64, y: i64) -> Result<i64, FaultKind>
    ensures { result ≡ remainder x y }
{
    if y == 0 {
        return Err(FaultKind::DivideByZero);
    }
    if y == -1 {
        return Ok(0);
    }
    Ok(x % y)
}

fn modulo(x: i64, y: i64) -> Result<i64, FaultKind>
    ensures { result ≡ modulo x y }
{
    if y == 0 {
        return Err(FaultKind::DivideByZero);
    }
    if y == -1 {
        return Ok(0);
    }
    let rest = x.rem_euclid(y);
    if y < 0 && rest != 0 {
        Ok(rest + y)
    } else {
        Ok(rest)
    }
}

/// `+`
pub(crate) fn sum(args: &[Value]) -> Result<Value, FaultKind>
    requires { 2 ≤ length args.now }
    ensures { result ≡ from_left plus (arg 0 args.now) (drop 1 args.now) }
{
    let mut total = number(&args[0])?;
    for value in &args[1..] {
        total = plus(total, number(value)?)?;
    }
    Ok(Value::Int(total))
}

/// `-` of several
fn rest(args: &[Value]) -> Result<Value, FaultKind>
    requires { 2 ≤ length args.now }
    ensures { result ≡ from_left minus (arg 0 args.now) (drop 1 args.now) }
{
    let mut total = number(&args[0])?;
    for value in &args[1..] {
        total = minus(total, number(value)?)?;
    }
    Ok(Value::Int(total))
}

/// `*`
pub(crate) fn product(args: &[Value]) -> Result<Value, FaultKind>
    requires { 2 ≤ length args.now }
    ensures { result ≡ from_left times (arg 0 args.now) (drop 1 args.now) }
{
    let mut total = number(&args[0])?;
    for value in &args[1..] {
        total = times(total, number(value)?)?;
    }
    Ok(Value::Int(total))
}

fn opposite(value: &Value) -> Result<Value, FaultKind>
    ensures { result ≡ of_number negated value.now }
{
    let x = number(value)?;
    Ok(Value::Int(negated(x)?))
}

/// `-`
pub(crate) fn difference(args: &[Value]) -> Result<Value, FaultKind>
    requires { 1 ≤ length args.now }
    ensures { result ≡ difference_of (arg 0 args.now) (drop 1 args.now) }
{
    match args {
        [value] => opposite(value),
        _ => rest(args),
    }
}

/// `inc`
pub(crate) fn inc(value: &Value) -> Result<Value, FaultKind>
    ensures { result ≡ of_number (λ x. plus x (pos 1)) value.now }
{
    let x = number(value)?;
    Ok(Value::Int(plus(x, 1)?))
}

/// `dec`
pub(crate) fn dec(value: &Value) -> Result<Value, FaultKind>
    ensures { result ≡ of_number (λ x. minus x (pos 1)) value.now }
{
    let x = number(value)?;
    Ok(Value::Int(minus(x, 1)?))
}

/// `quot`
pub(crate) fn quot(a: &Value, b: &Value) -> Result<Value, FaultKind>
    ensures { result ≡ of_numbers quotient a.now b.now }
{
    let x = number(a)?;
    let y = number(b)?;
    Ok(Value::Int(quotient(x, y)?))
}

/// `rem`
pub(crate) fn rem(a: &Value, b: &Value) -> Result<Value, FaultKind>
    ensures { result ≡ of_numbers remainder a.now b.now }
{
    let x = number(a)?;
    let y = number(b)?;
    Ok(Value::Int(remainder(x, y)?))
}

/// `mod`
pub(crate) fn remainder_down(a: &Value, b: &Value) -> Result<Value, FaultKind>
    ensures { result ≡ of_numbers modulo a.now b.now }
{
    let x = number(a)?;
    let y = number(b)?;
    Ok(Value::Int(modulo(x, y)?))
}

/// `max`
pub(crate) fn max(a: &Value, b: &Value) -> Result<Value, FaultKind>
    ensures { result ≡ of_numbers greatest a.now b.now }
{
    let x = number(a)?;
    let y = number(b)?;
    Ok(Value::Int(if y < x { x } else { y }))
}

/// `min`
pub(crate) fn min(a: &Value, b: &Value) -> Result<Value, FaultKind>
    ensures { result ≡ of_numbers least a.now b.now }
{
    let x = number(a)?;
    let y = number(b)?;
    Ok(Value::Int(if y < x { y } else { x }))
}
