// What no clause says: that evaluating succeeds with ample memory, and what it answers.
use crate::events::{is_text, means_on};
use std::alloc::Global;
use txs_check::is_pure_callee;
use txs_tree_eval::{EvalStop, eval_pure};
use txs_tree_meaning::Program;
use txs_value_data::{Callee, Op, Span, Value};

const NOWHERE: Span = Span { from: 0, to: 0 };

// Whether a callee is pure on so many values, and gives this on them within so many turns: the text of a value, the name of a fault at no
// place, or `endless`.
fn gives(
    alloc: Global,
    program: &Program,
    callee: Callee,
    values: &[Value],
    turns: u32,
    wanted: &str,
) -> bool {
    if !matches!(
        is_pure_callee(alloc, program, callee, values.len()),
        Ok(true)
    ) {
        return false;
    }
    let given = eval_pure(alloc, program, callee, values, turns);
    let is = match &given {
        Ok(value) => is_text(alloc, value, wanted.as_bytes()),
        Err(EvalStop::Fault(fault)) => fault.kind.name() == wanted && fault.span == NOWHERE,
        Err(EvalStop::Turns) => wanted == "endless",
        Err(_) => false,
    };
    drop(given);
    is
}

/// Whether the thread of the script that `gives` prints what it should, also without turns, since a call is none; `swapped` and two
/// operations give what they should, and `spin` has no end.
pub fn all_give(alloc: Global, program: &Program) -> bool {
    let mut values = Vec::new(alloc);
    let made = values.push(Value::Int(1)).is_ok() && values.push(Value::Int(0)).is_ok();
    let (subtract, quot) = (Callee::Core(Op::Subtract), Callee::Core(Op::Quot));
    let both = values.as_slice();
    made && means_on(alloc, program, &[], 1, "0 done\n[2 1]\n")
        && means_on(alloc, program, &[], 0, "0 done\n[2 1]\n")
        && gives(alloc, program, Callee::Function(0), both, 1, "[0 1]")
        && gives(alloc, program, subtract, both, 0, "1")
        && gives(alloc, program, quot, both, 0, "DivideByZero")
        && gives(alloc, program, Callee::Function(1), &[], 0, "endless")
        && gives(alloc, program, Callee::Function(1), &[], 1_000, "endless")
}
