// What no clause says: that the calls succeed with ample memory, and what a frame holds after some calls, by the
// rules of Clojure's transactions.
use std::alloc::Global;
use std::str::Split;
use txs_frame::{SetError, TxFrame};
use txs_value_cell::{Action, Arguments};
use txs_value_data::{Callee, CellId, CellKind, Listed, Op, Span, Value, write_text};

// A word of one digit, or two, as a number.
pub fn number_of(word: &str) -> u8 {
    let mut number = 0u8;
    for byte in word.as_bytes() {
        number = (number % 10) * 10 + byte % 16;
    }
    number
}

// The next word as a number.
pub fn next_number(words: &mut Split<'_, char>) -> u8 {
    number_of(words.next().unwrap_or(""))
}

// Holds the action that calls `inc` on the state of an agent.
fn send(frame: &mut TxFrame, number: u16) -> bool {
    let action = Action {
        agent: CellId {
            kind: CellKind::Agent,
            number,
        },
        callee: Callee::Core(Op::Inc),
        args: Arguments::none(),
        span: Span { from: 0, to: 1 },
    };
    frame.hold_send(action).is_ok()
}

// One call: `set REF V`, `refused REF V`, `commute REF N V` (by `+`, with the value that the transaction has of the ref from then on), `ensure REF`, `send AGENT`, `reset`. Whether it answered so.
fn call(frame: &mut TxFrame, alloc: Global, text: &str) -> bool {
    let mut words = text.split(' ');
    let name = words.next().unwrap_or("");
    let number = u16::from(next_number(&mut words));
    let first = i64::from(next_number(&mut words));
    let last = i64::from(next_number(&mut words));
    let cell = CellId {
        kind: CellKind::Ref,
        number,
    };
    match name {
        "set" => frame.set(cell, Value::Int(first)).is_ok(),
        "refused" => matches!(
            frame.set(cell, Value::Int(first)),
            Err(SetError::SetAfterCommute)
        ),
        "commute" => match vec![in alloc; Value::Int(first)] {
            Ok(args) => frame
                .commute(
                    cell,
                    Callee::Core(Op::Add),
                    Listed::from_vec(args),
                    Value::Int(last),
                )
                .is_ok(),
            Err(_) => false,
        },
        "ensure" => frame.ensure(cell).is_ok(),
        "send" => send(frame, number),
        _ => {
            frame.reset();
            true
        }
    }
}

// Adds the number of a cell, which is a digit, and a value of it, as ` 2=5`: whether there was room, as all that adds says.
fn add(out: &mut Vec<u8>, number: u16, value: Option<&Value>) -> bool {
    let digit = b'0' + (number % 10) as u8;
    let added = number < 10 && out.extend_from_slice(&[b' ', digit]).is_ok();
    match value {
        Some(value) => added
            && out.extend_from_slice(b"=").is_ok()
            && write_text(value, out).is_ok(),
        None => added,
    }
}

// Adds the own values of the first refs, and what was set.
fn add_values(out: &mut Vec<u8>, frame: &TxFrame) -> bool {
    let Ok(writes) = frame.writes() else {
        return false;
    };
    let mut added = out.extend_from_slice(b"own:").is_ok();
    for number in 0..6u16 {
        if let Some(value) = frame.value(number) {
            added = add(out, number, Some(value)) && added;
        }
    }
    added = out.extend_from_slice(b"; set:").is_ok() && added;
    for (cell, value) in writes.as_slice() {
        added = add(out, cell.number, Some(value)) && added;
    }
    added
}

// Adds the refs that were commuted and not set, and those that were ensured.
fn add_refs(out: &mut Vec<u8>, frame: &TxFrame) -> bool {
    let Ok(commuted) = frame.commuted() else {
        return false;
    };
    let mut added = out.extend_from_slice(b"; commuted:").is_ok();
    for cell in commuted.as_slice() {
        added = add(out, cell.number, None) && added;
    }
    added = out.extend_from_slice(b"; ensured:").is_ok() && added;
    for cell in frame.ensured() {
        added = add(out, cell.number, None) && added;
    }
    added
}

// Adds the commutes, each by its ref and its first argument, and the agents of the sends.
fn add_calls(out: &mut Vec<u8>, frame: &TxFrame) -> bool {
    let mut added = out.extend_from_slice(b"; commutes:").is_ok();
    for commute in frame.commutes() {
        added = add(out, commute.cell.number, commute.args.as_slice().first()) && added;
    }
    added = out.extend_from_slice(b"; sends:").is_ok() && added;
    for action in frame.sends() {
        added = add(out, action.agent.number, None) && added;
    }
    added
}

// Whether a frame answers the calls of a row so, and holds after them what the row tells, one kind behind the other.
fn holds(alloc: Global, row: &str) -> bool {
    let (calls, held) = row.split_once(" => ").unwrap_or((row, ""));
    let mut frame = TxFrame::new(alloc);
    let mut so = true;
    for one in calls.split(';') {
        so = call(&mut frame, alloc, one) && so;
    }
    let mut out = Vec::new(alloc);
    so && add_values(&mut out, &frame)
        && add_refs(&mut out, &frame)
        && add_calls(&mut out, &frame)
        && out.as_slice() == held.as_bytes()
}

// Calls between semicolons, and all that a frame holds after them.
const ROWS: &str = "\
reset => own:; set:; commuted:; ensured:; commutes:; sends:
set 3 7;set 1 5;set 3 8 => own: 1=5 3=8; set: 1=5 3=8; commuted:; ensured:; commutes:; sends:
commute 2 1 10;refused 2 4;set 0 1 => own: 0=1 2=10; set: 0=1; commuted: 2; ensured:; commutes: 2=1; sends:
set 2 4;commute 2 1 5;commute 0 2 2;commute 2 3 8;refused 2 0 => own: 0=2 2=8; set: 2=8; commuted: 0; ensured:; commutes: 2=1 0=2 2=3; sends:
commute 5 1 1;commute 3 2 2;commute 4 3 3;commute 3 4 6;set 1 0 => own: 1=0 3=6 4=3 5=1; set: 1=0; commuted: 3 4 5; ensured:; commutes: 5=1 3=2 4=3 3=4; sends:
ensure 4;ensure 1;ensure 4;ensure 2;send 3;send 2;send 3 => own:; set:; commuted:; ensured: 1 2 4; commutes:; sends: 3 2 3
set 3 7;commute 1 1 1;ensure 0;send 0;reset;set 1 2;ensure 2 => own: 1=2; set: 1=2; commuted:; ensured: 2; commutes:; sends:";

#[test]
fn holds_what_was_done(rt: HostRuntime) {
    for row in ROWS.lines() {
        assert!(rt; holds(rt.alloc(), row), "{row}");
    }
}
