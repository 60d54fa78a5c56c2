// Programs copied, folded, and with calls inlined.
use crate::fronts::scripts::program_of;
use txs_opt::{fold, inline};
use txs_tree_meaning::{Node, NodeKind, Program, copy_program};
use txs_value_data::Value;

// Scripts of one form, with the number that their thread prints when they are folded, and where it is in the script.
const FOLDED: [(&str, i64, u32, u32); 3] = [
    ("(future (println (+ 1 2)))", 3, 17, 24),
    ("(future (println (if false (quot 1 0) 5)))", 5, 38, 39),
    ("(future (println (do 1 (* 3 4))))", 12, 23, 30),
];

// The first part of what the first thread prints, where its body prints.
fn printed(program: &Program) -> Option<&Node> {
    let thread = program.threads().first()?;
    let NodeKind::Println(parts) = &thread.body.kind else {
        return None;
    };
    parts.as_slice().first()
}

// Whether a node is this number, at these bytes of the script.
fn is_number(node: &Node, number: i64, from: u32, to: u32) -> bool {
    let NodeKind::Const(Value::Int(found)) = &node.kind else {
        return false;
    };
    *found == number && node.span.from == from && node.span.to == to
}

// Whether the first thread prints this number alone, at these bytes of the script.
fn prints_number(program: &Program, number: i64, from: u32, to: u32) -> bool {
    match printed(program) {
        Some(node) => is_number(node, number, from, to),
        None => false,
    }
}

#[test]
fn folds_numbers(rt: HostRuntime) {
    for (script, number, from, to) in &FOLDED {
        let Some(program) = program_of(rt.alloc(), script, 1) else {
            panic!(rt)
        };
        let Ok(folded) = fold(rt.alloc(), program) else {
            panic!(rt)
        };
        assert!(rt; prints_number(&folded, *number, *from, *to));
    }
}

#[test]
fn copies_a_fault_and_keeps_it(rt: HostRuntime) {
    let script = "(future (println (inc 9223372036854775807)))";
    let Some(program) = program_of(rt.alloc(), script, 1) else {
        panic!(rt)
    };
    let Ok(copy) = copy_program(rt.alloc(), &program) else {
        panic!(rt)
    };
    let Ok(folded) = fold(rt.alloc(), copy) else {
        panic!(rt)
    };
    let Some(node) = printed(&folded) else {
        panic!(rt)
    };
    assert!(rt;
        matches!(node.kind, NodeKind::Core(_, _)) && node.span.from == 17 && node.span.to == 42
    );
}

// Whether a node is a let at these bytes, of one value.
fn is_let(node: &Node, from: u32, to: u32) -> bool {
    let NodeKind::Let(values, body) = &node.kind else {
        return false;
    };
    values.len() == 1
        && matches!(body.kind, NodeKind::Local(0))
        && body.span.from == 12
        && node.span.from == from
        && node.span.to == to
}

#[test]
fn inlines_a_call(rt: HostRuntime) {
    let Some(program) = program_of(rt.alloc(), "(defn f [x] x) (future (println (f 7)))", 2) else {
        panic!(rt)
    };
    let Ok(inlined) = inline(rt.alloc(), program, 100) else {
        panic!(rt)
    };
    let Some(node) = printed(&inlined) else {
        panic!(rt)
    };
    assert!(rt; is_let(node, 32, 37));
}
