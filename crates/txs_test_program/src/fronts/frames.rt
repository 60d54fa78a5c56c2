// What a transaction has done.
use crate::fronts::copies::quotient;
use std::alloc::Global;
use txs_frame::TxFrame;
use txs_value_data::{Callee, CellId, CellKind, Listed, Op, Span, Value};

// A ref by its number.
fn cell(number: u16) -> CellId {
    CellId {
        kind: CellKind::Ref,
        number,
    }
}

// Whether a ref of this number can be commuted by `(+ 1)`, which gives 10.
fn is_commuted(frame: &mut TxFrame, alloc: Global, number: u16) -> bool {
    let Ok(args) = vec![in alloc; Value::Int(1)] else {
        return false;
    };
    let cell = CellId {
        kind: CellKind::Ref,
        number,
    };
    frame
        .commute(
            cell,
            Callee::Core(Op::Add),
            Listed::from_vec(args),
            Value::Int(10),
        )
        .is_ok()
}

// Whether the first ref can be set to 7, the second commuted, the third ensured, and an action held.
fn is_filled(frame: &mut TxFrame, alloc: Global) -> bool {
    let first = CellId {
        kind: CellKind::Ref,
        number: 0,
    };
    let agent = CellId {
        kind: CellKind::Agent,
        number: 3,
    };
    frame.set(first, Value::Int(7)).is_ok()
        && is_commuted(frame, alloc, 1)
        && frame.ensure(cell(2)).is_ok()
        && frame
            .hold_send(quotient(agent, Span { from: 0, to: 1 }))
            .is_ok()
}

// Whether a ref has this value in a transaction.
fn has_value(frame: &TxFrame, number: u16, value: i64) -> bool {
    matches!(frame.value(number), Some(Value::Int(n)) if *n == value)
}

// Whether that is what was done.
fn has_done(frame: &TxFrame) -> bool {
    let Ok(commuted) = frame.commuted() else {
        return false;
    };
    let Ok(writes) = frame.writes() else {
        return false;
    };
    matches!(writes.as_slice(), [(set, Value::Int(n))] if *set == cell(0) && *n == 7)
        && matches!(commuted.as_slice(), [other] if *other == cell(1))
        && matches!(frame.ensured(), [other] if *other == cell(2))
        && frame.commutes().len() == 1
        && frame.sends().len() == 1
}

#[test]
fn keeps_what_was_done(rt: HostRuntime) {
    let mut frame = TxFrame::new(rt.alloc());
    let filled = is_filled(&mut frame, rt.alloc());
    let values = has_value(&frame, 0, 7) && has_value(&frame, 1, 10);
    let done = has_done(&frame);
    frame.reset();
    let none = frame.value(0).is_none() && frame.sends().is_empty();
    drop(frame);
    assert!(rt; filled && values && done && none);
}
