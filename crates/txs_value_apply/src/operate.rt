//! The core operations by their table.

ghost use Rattle.std.specs.Prelude.{◌≡◌, true, false, length, IsTrue, Err};
ghost use Rattle.txs_value_apply.specs.Core.{core, takes, may_copy, Answers};
ghost use Rattle.txs_value_data.specs.declared.fault.Stop.TheVariants.{Memory};

use crate::comparisons::{
    equal, greater, greater_or_equal, is_false, is_negative, is_nil, is_positive, is_zero, less,
    less_or_equal,
};
use crate::numbers::{dec, difference, inc, max, min, product, quot, rem, remainder_down, sum};
use crate::vectors::{assoc, assoc_owned, conj, conj_owned, count, nth, peek, pop, pop_owned};
use std::alloc::Global;
use std::mem;
use txs_value_data::{FaultKind, Op, Stop, Value};

/// Whether the operation takes so many arguments.
#[tactic(auto, unfolding(crate::specs::Core::takes))]
pub fn takes(op: Op, count: usize) -> bool
    ensures { result ≡ takes op count }
{
    match op {
        Op::Add => count >= 2,
        Op::Subtract => count >= 1,
        Op::Multiply => count >= 2,
        Op::Inc => count == 1,
        Op::Dec => count == 1,
        Op::Quot => count == 2,
        Op::Rem => count == 2,
        Op::Mod => count == 2,
        Op::Equal => count == 2,
        Op::NotEqual => count == 2,
        Op::Less => count == 2,
        Op::Greater => count == 2,
        Op::LessOrEqual => count == 2,
        Op::GreaterOrEqual => count == 2,
        Op::Max => count == 2,
        Op::Min => count == 2,
        Op::Not => count == 1,
        Op::IsNil => count == 1,
        Op::IsZero => count == 1,
        Op::IsPositive => count == 1,
        Op::IsNegative => count == 1,
        Op::Count => count == 1,
        Op::Nth => count == 2,
        Op::Conj => count == 2,
        Op::Assoc => count == 3,
        Op::Peek => count == 1,
        Op::Pop => count == 1,
    }
}

/// The operation on numbers, truth values and values as wholes: all but those that may copy a value.
#[tactic(auto, unfolding(crate::specs::Core::core, crate::specs::Core::takes))]
fn apply_plain(op: Op, args: &[Value]) -> Result<Value, FaultKind>
    requires takes { IsTrue (takes op (length args.now)) }
    requires plain { may_copy op ≡ false }
    ensures { result ≡ core op args.now }
{
    let first = &args[0];
    match op {
        Op::Add => sum(args),
        Op::Subtract => difference(args),
        Op::Multiply => product(args),
        Op::Inc => inc(first),
        Op::Dec => dec(first),
        Op::Quot => quot(first, &args[1]),
        Op::Rem => rem(first, &args[1]),
        Op::Mod => remainder_down(first, &args[1]),
        Op::Equal => Ok(Value::Truth(equal(first, &args[1]))),
        Op::NotEqual => Ok(Value::Truth(!equal(first, &args[1]))),
        Op::Less => less(first, &args[1]),
        Op::Greater => greater(first, &args[1]),
        Op::LessOrEqual => less_or_equal(first, &args[1]),
        Op::GreaterOrEqual => greater_or_equal(first, &args[1]),
        Op::Max => max(first, &args[1]),
        Op::Min => min(first, &args[1]),
        Op::Not => Ok(Value::Truth(is_false(first))),
        Op::IsNil => Ok(Value::Truth(is_nil(first))),
        Op::IsZero => is_zero(first),
        Op::IsPositive => is_positive(first),
        Op::IsNegative => is_negative(first),
        Op::Count => count(first),
        Op::Nth | Op::Conj | Op::Assoc | Op::Peek | Op::Pop => unreachable!(),
    }
}

/// The operation on its arguments, of which there are as many as it takes: its value, the first fault
/// of those that the table tests, or Memory where there is none for a vector's items. Only `nth`, `conj`,
/// `assoc`, `peek` and `pop` want memory.
#[tactic(auto, unfolding(crate::specs::Core::core, crate::specs::Core::takes))]
pub fn apply(alloc: Global, op: Op, args: &[Value]) -> Result<Value, Stop>
    requires { IsTrue (takes op (length args.now)) }
    ensures value { Answers result (core op args.now) }
    ensures memory { result ≡ Err Memory → may_copy op ≡ true }
{
    match op {
        Op::Nth => nth(&args[0], &args[1]),
        Op::Conj => conj(alloc, &args[0], &args[1]),
        Op::Assoc => assoc(alloc, &args[0], &args[1], &args[2]),
        Op::Peek => peek(&args[0]),
        Op::Pop => pop(alloc, &args[0]),
        _ => Ok(apply_plain(op, args)?),
    }
}

/// Takes a value from its place.
#[inline(always)]
fn take(place: &mut Value) -> Value
    ensures { result ≡ place.old }
{
    mem::replace(place, Value::Nil)
}

/// The operation as `apply` does it, on arguments that it may take: `conj`, `assoc` and `pop` change
/// their vector in place and copy nothing. What is left in the arguments' places isn't said.
#[tactic(auto, unfolding(crate::specs::Core::core, crate::specs::Core::takes))]
pub fn apply_owned(alloc: Global, op: Op, args: &mut [Value]) -> Result<Value, Stop>
    requires { IsTrue (takes op (length args.old)) }
    ensures value { Answers result (core op args.old) }
    ensures memory { result ≡ Err Memory → may_copy op ≡ true }
{
    match op {
        Op::Conj => {
            let item = take(&mut args[1]);
            conj_owned(alloc, take(&mut args[0]), item)
        }
        Op::Assoc => {
            let vector = take(&mut args[0]);
            let item = take(&mut args[2]);
            assoc_owned(alloc, vector, &args[1], item)
        }
        Op::Pop => pop_owned(alloc, take(&mut args[0])),
        _ => apply(alloc, op, args),
    }
}
