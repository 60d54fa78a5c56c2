//! What a pure callee means.

ghost use Rattle.std.specs.Prelude.{◌≡◌, ◌≤◌, ℕ, List, IfOk, length, true};
ghost use Rattle.txs_tree_eval.specs.Told.{PureGives, Waitless};
ghost use Rattle.txs_tree_eval_transaction.specs.Worked.{Told};
ghost use Rattle.txs_tree_meaning.specs.Known.{known};
ghost use Rattle.txs_tree_meaning.specs.Meaning.{Completion, result_of};
ghost use Rattle.txs_tree_meaning.specs.Pure.{PureCallee, Lasts, pure_meaning, nowhere};
ghost use Rattle.txs_tree_meaning.specs.Sound.{PureCall};
ghost use Rattle.txs_tree_meaning.specs.Tree.{PlainFunction};
ghost use Rattle.txs_tree_meaning.specs.View.{functions_of};
ghost use Rattle.txs_value_data.specs.declared.op.Callee.{Callee as AnyCallee};
ghost use Rattle.txs_value_data.specs.declared.value.Value.{Value as AnyValue};
ghost use Rattle.txs_value_apply.specs.Core.{core, takes};
ghost use Rattle.txs_value_data.specs.declared.op.Callee.TheVariants.{Function};
ghost use Rattle.txs_tree_eval.specs.declared.pure_call.EvalStop.TheVariants.{Memory};

use std::alloc::{AllocError, AllocFailed, Global};
use txs_tree_eval_node::Context;
use txs_tree_eval_node::evaluate::{apply_callee, copy_locals};
use txs_tree_eval_transaction::ThreadStop;
use txs_tree_meaning::Program;
use txs_value_apply::apply;
use txs_value_data::{Callee, Fault, Op, Span, Stop, Value};

/// Why an evaluation gives no value.
#[derive(Drop)]
pub enum EvalStop {
    /// A form faults.
    Fault(Fault),
    /// A loop's turns don't suffice.
    Turns,
    /// There was no memory.
    Memory,
}

impl From<AllocError> for EvalStop {
    ghost from_gives = { λ _ s. s ≡ Memory };

    fn from(_e: AllocError) -> EvalStop {
        EvalStop::Memory
    }
}

impl<T: Drop> From<AllocFailed<T>> for EvalStop {
    ghost from_gives = { λ _ s. s ≡ Memory };

    fn from(_e: AllocFailed<T>) -> EvalStop {
        EvalStop::Memory
    }
}

/// A fault of an operation as callee is at no place of the script.
const NOWHERE: Span = Span { from: 0, to: 0 };

/// What a pure callee gives on these values, where each loop, and each recur to a function, makes at most
/// `turns` turns. The fault of an operation as callee has the span 0..0.
pub fn eval_pure(
    alloc: Global,
    program: &Program,
    callee: Callee,
    values: &[Value],
    turns: u32,
) -> Result<Value, EvalStop>
    requires { PureCallee (known (functions_of program.now.functions)) callee (length values.now) }
    ensures { PureGives result (pure_meaning turns (functions_of program.now.functions) callee values.now) }
{
    match callee {
        Callee::Core(op) => call_operation(alloc, op, values),
        Callee::Function(number) => call_function(alloc, program, number, values, turns),
    }
}

/// The law that the answer of a pure callee, unless turns don't suffice, is the same for every greater number
/// of turns.
pub fn more_turns_change_no_answer()
    ensures { (n m : ℕ) (functions : List PlainFunction) (callee : AnyCallee) (values : List AnyValue) → n ≤ m
        → Lasts (pure_meaning n functions callee values) (pure_meaning m functions callee values) }
{}

/// The operation on these values.
fn call_operation(alloc: Global, op: Op, values: &[Value]) -> Result<Value, EvalStop>
    requires { takes op (length values.now) ≡ true }
    ensures { PureGives result (result_of (core op values.now) nowhere tt) }
{
    match apply(alloc, op, values) {
        Ok(value) => Ok(value),
        Err(Stop::Fault(kind)) => Err(EvalStop::Fault(Fault {
            kind,
            span: NOWHERE,
        })),
        Err(Stop::Memory) => Err(EvalStop::Memory),
    }
}

/// The pure function of this number on these values.
fn call_function(
    alloc: Global,
    program: &Program,
    number: u16,
    values: &[Value],
    turns: u32,
) -> Result<Value, EvalStop>
    requires { PureCall (known (functions_of program.now.functions)) number (length values.now) }
    ensures { PureGives result (pure_meaning turns (functions_of program.now.functions) (Function number) values.now) }
{
    program.is_sound();
    let context = Context::new(program.cells(), program.functions(), turns, None);
    let copies = copy_locals(alloc, values)?;
    let given = apply_callee(alloc, &context, Callee::Function(number), copies, NOWHERE);
    answer(given)
}

/// What is known of a call that met no event.
fn answer(given: Result<Value, ThreadStop>) -> Result<Value, EvalStop>
    requires { Waitless given }
    ensures { (c : Completion (Unit {0}) AnyValue) → Told given c → PureGives result c }
{
    match given {
        Ok(value) => Ok(value),
        Err(ThreadStop::Fault(fault)) => Err(EvalStop::Fault(fault)),
        Err(ThreadStop::Event | ThreadStop::Wrong) => unreachable!(),
        Err(ThreadStop::Turns) => Err(EvalStop::Turns),
        Err(ThreadStop::Memory) => Err(EvalStop::Memory),
    }
}
