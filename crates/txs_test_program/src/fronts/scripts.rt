// Scripts read, resolved and checked, and what their trees mean.
use crate::fronts::values::is_text;
use std::alloc::Global;
use txs_check::{check, is_pure_callee, is_sent_callee};
use txs_frame::TxFrame;
use txs_reader::read_script;
use txs_resolve::resolve;
use txs_tree_eval::{
    ActionMeaning, History, Needs, RefView, ThreadMeaning, TxMeaning, eval_action, eval_pure,
    eval_thread, eval_tx,
};
use txs_tree_meaning::{NodeKind, Program};
use txs_value_data::{Callee, Span, Value};
use txs_world_protocol::Outcome;

/// The program of a script that has so many forms; none where one of its layers refuses it.
pub fn program_of(alloc: Global, script: &str, forms: usize) -> Option<Program> {
    let Ok(read) = read_script(alloc, script.as_bytes()) else {
        return None;
    };
    if read.len() != forms {
        return None;
    }
    let Ok(raw) = resolve(alloc, read.as_slice()) else {
        return None;
    };
    check(alloc, raw).ok()
}

// Whether a thread has ended without an event, and printed this.
fn has_printed(meaning: &ThreadMeaning, text: &[u8]) -> bool {
    meaning.needs == Needs::Nothing
        && meaning.outcome == Some(Outcome::Done)
        && meaning.printed.as_slice() == text
        && meaning.eaten == 0
        && meaning.txs.as_slice().is_empty()
}

// Whether the first thread of a program prints this.
fn prints(alloc: Global, program: &Program, text: &[u8]) -> bool {
    if program.threads().is_empty() {
        return false;
    }
    match eval_thread(alloc, program, 0, &[], 10) {
        Ok(meaning) => has_printed(&meaning, text),
        Err(_) => false,
    }
}

// Whether a callee is pure on these values, and gives this on them.
fn gives(alloc: Global, program: &Program, callee: Callee, values: &[Value], text: &[u8]) -> bool {
    if !matches!(
        is_pure_callee(alloc, program, callee, values.len()),
        Ok(true)
    ) {
        return false;
    }
    match eval_pure(alloc, program, callee, values, 10) {
        Ok(value) => is_text(alloc, &value, text),
        Err(_) => false,
    }
}

// A function that a thread calls.
const CALLS: &str = "(defn swapped [a b] [b a]) (future (println (swapped 1 2)))";

#[test]
fn a_thread_and_a_callee_mean_this(rt: HostRuntime) {
    let alloc = rt.alloc();
    let is = match program_of(alloc, CALLS, 2) {
        Some(program) => {
            prints(alloc, &program, b"[2 1]\n")
                && gives(
                    alloc,
                    &program,
                    Callee::Function(0),
                    &[Value::Int(3), Value::Int(4)],
                    b"[4 3]",
                )
        }
        None => false,
    };
    assert!(rt; is);
}

// Whether an action without events gives 6, prints 5 and holds one send.
fn has_acted(meaning: &ActionMeaning) -> bool {
    meaning.needs == Needs::Nothing
        && matches!(meaning.result, Some(Ok(Value::Int(6))))
        && meaning.printed.as_slice() == b"5\n".as_slice()
        && meaning.sends.as_slice().len() == 1
        && meaning.eaten == 0
        && meaning.txs.as_slice().is_empty()
}

// Whether a callee may be sent to these values, and does that as an action.
fn acts(alloc: Global, program: &Program, callee: Callee, values: &[Value]) -> bool {
    if !matches!(
        is_sent_callee(alloc, program, callee, values.len()),
        Ok(true)
    ) {
        return false;
    }
    let span = Span { from: 0, to: 0 };
    match eval_action(alloc, program, callee, span, values, &[], 10) {
        Ok(meaning) => has_acted(&meaning),
        Err(_) => false,
    }
}

#[test]
fn an_action_means_this(rt: HostRuntime) {
    let alloc = rt.alloc();
    let script = "(def g (agent 0)) (defn work [s] (println s) (send g inc) (inc s))";
    let is = match program_of(alloc, script, 2) {
        Some(program) => acts(alloc, &program, Callee::Function(0), &[Value::Int(5)]),
        None => false,
    };
    assert!(rt; is);
}

// Whether a transaction sets the first ref alone, to 6, and did nothing else.
fn writes_six(done: &TxFrame) -> bool {
    let Ok(writes) = done.writes() else {
        return false;
    };
    matches!(writes.as_slice(), [(cell, Value::Int(new))] if cell.number == 0 && *new == 6)
        && done.ensured().is_empty()
        && done.commutes().is_empty()
        && done.sends().is_empty()
}

// Whether a transaction gives 6, after it read one ref.
fn gives_six(meaning: &TxMeaning) -> bool {
    matches!(meaning.result, Ok(Value::Int(6)))
        && writes_six(&meaning.done)
        && meaning.reads.as_slice().len() == 1
        && !meaning.used
}

// Whether the transaction that is a program's first thread gives 6 where its ref holds 5.
fn transacts(alloc: Global, program: &Program) -> bool {
    let Some((thread, _)) = program.threads().split_first() else {
        return false;
    };
    let NodeKind::Dosync(body) = &thread.body.kind else {
        return false;
    };
    let mut five = History::new(alloc);
    if five.latest() > 0 || five.add(0, Value::Int(5)).is_err() {
        return false;
    }
    let cells = [five];
    let world = RefView {
        cells: &cells,
        swaps: None,
        place: 0,
    };
    match eval_tx(alloc, program, body, &[], world, 10) {
        Ok(meaning) => gives_six(&meaning),
        Err(_) => false,
    }
}

#[test]
fn a_transaction_means_this(rt: HostRuntime) {
    let alloc = rt.alloc();
    let script = "(def r (ref 0)) (future (dosync (alter r inc)))";
    let is = match program_of(alloc, script, 2) {
        Some(program) => transacts(alloc, &program),
        None => false,
    };
    assert!(rt; is);
}
