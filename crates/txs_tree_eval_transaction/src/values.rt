//! What operations make of values, and where they fault.

ghost use Rattle.std.specs.Prelude.{◌≡◌, ◌++◌, length, IsTrue, MatchResult};
ghost use Rattle.txs_value_apply.specs.Core.{core, takes, vector_of};
ghost use Rattle.txs_tree_eval_transaction.specs.Worked.{Told};
ghost use Rattle.txs_tree_eval_transaction.specs.declared.stop.ThreadStop.TheVariants.{Memory};
ghost use Rattle.txs_tree_meaning.specs.Meaning.{result_of};
ghost use Rattle.txs_value_data.specs.Printed.{printed_line};
ghost use Rattle.txs_value_data.specs.declared.value.Value.TheVariants.{Nil};

use crate::stop::ThreadStop;
use std::alloc::Global;
use txs_value_apply::{apply, make_vector};
use txs_value_data::{Fault, Op, Span, Stop, Value, write_line};

/// The operation on its arguments; a fault has the span.
pub fn operate(alloc: Global, op: Op, args: Vec<Value>, span: Span) -> Result<Value, ThreadStop>
    requires { IsTrue (takes op (length args.items)) }
    ensures { Told result (result_of (core op args.items) span tt) }
{
    match apply(alloc, op, args.as_slice()) {
        Ok(value) => Ok(value),
        Err(Stop::Fault(kind)) => Err(ThreadStop::Fault(Fault { kind, span })),
        Err(Stop::Memory) => Err(ThreadStop::Memory),
    }
}

/// The vector of the items; a fault has the span.
pub fn collect(alloc: Global, items: Vec<Value>, span: Span) -> Result<Value, ThreadStop>
    ensures { Told result (result_of (vector_of items.items) span tt) }
{
    match make_vector(alloc, items) {
        Ok(value) => Ok(value),
        Err(Stop::Fault(kind)) => Err(ThreadStop::Fault(Fault { kind, span })),
        Err(Stop::Memory) => Err(ThreadStop::Memory),
    }
}

/// Appends the line of these values, and gives nil.
pub fn print_line(values: Vec<Value>, printed: &mut Vec<u8>) -> Result<Value, ThreadStop>
    ensures { MatchResult result (λ v. (v ≡ Nil) × (printed.new.items ≡ printed.old.items ++ printed_line values.items)) (λ y. y ≡ Memory) }
{
    write_line(values.as_slice(), printed)?;
    Ok(Value::Nil)
}
