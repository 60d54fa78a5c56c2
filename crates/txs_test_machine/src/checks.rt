// What no clause says: that a check succeeds with ample memory. What is refused, and where, stands in the rows of
// the program, with the names and numbers of refusals.
use std::alloc::Global;
use txs_check::law::{one_answer, sound_where_nothing_refuses};
use txs_check::{check, is_pure_callee};
use txs_tree_meaning::{Program, Raw};
use txs_value_data::{Callee, Op};

#[test]
fn an_empty_program_is_sound(rt: HostRuntime) {
    sound_where_nothing_refuses();
    one_answer();
    let alloc = rt.alloc();
    let raw = Raw::new(
        Vec::new(alloc),
        Vec::new(alloc),
        Vec::new(alloc),
        Vec::new(alloc),
    );
    let is = match check(alloc, raw) {
        Ok(program) => {
            program.is_marked();
            program.threads().is_empty()
        }
        Err(_) => false,
    };
    assert!(rt; is);
}

// Of the functions `f`, `g` and `h` of the script that is `pure`, one that isn't there, and a sum: whether it is pure on so many values.
const CALLEES: &[(Callee, usize, bool)] = &[
    (Callee::Function(0), 2, true),
    (Callee::Function(0), 1, false),
    (Callee::Function(1), 0, false),
    (Callee::Function(2), 1, false),
    (Callee::Function(3), 0, false),
    (Callee::Core(Op::Add), 2, true),
    (Callee::Core(Op::Add), 1, false),
];

/// Whether all of these are told so.
pub fn are_told(alloc: Global, program: &Program) -> bool {
    for row in CALLEES {
        if is_pure_callee(alloc, program, row.0, row.1).ok() != Some(row.2) {
            return false;
        }
    }
    true
}
