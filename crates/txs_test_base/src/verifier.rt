// The verifier, by `load`: of each refusal code that is damaged so, and code that nearly is.
use crate::bytes::write_changed;
use crate::frame::{next_number, number_of};
use std::alloc::Global;
use txs_verify::load::{load, load_verified};
use txs_verify::load_error::LoadError;
use txs_verify::{BodyName, VerifyError};

// Instructions by their names, and their bytes without their spans: a number, a ref, an operation, ..
const INSTRS: &str = "\
number 0 0 0 0 0
ref 0 0 0 0 1
atom 0 0 0 0 2
local-0 1 0
local-1 1 1
pop 3
jump-2 4 0 0 0 2
jump-3 4 0 0 0 3
jump-false-3 5 0 0 0 3
inc 6 3 0 1
inc-of-two 6 3 0 2
call 7 0 0
return 8
print 10 0 1
deref 11
begin 12
end 13
alter 15 0 0
altered 16
swap-inc 20 0 0 3 0 0
swapped 21
send-inc 23 0 0 3 0 0
halt 24";

// Code without bodies, of `(def g (agent nil))`.
const AGENT: &[u8] = b"TXS1\x00\x01\x02\x00\x01g\x00\x00\x00\x00\x00\x00\x00\x00\x00";

// A ref and an atom; a number, the ref and the atom as constants.
const FRONT: &[u8] = b"TXS1\
    \x00\x02\x00\x00\x01r\x00\x01\x00\x01a\x00\
    \x00\x00\x00\x03\x03\x00\x00\x00\x00\x00\x00\x00\x07\x07\x00\x00\x07\x00\x01";

// The same where the ref has the first function as its validator.
const CHECKED: &[u8] = b"TXS2\
    \x00\x02\x00\x00\x01r\x00\x01\x01\x00\x00\x01\x00\x01a\x00\x00\
    \x00\x00\x00\x03\x03\x00\x00\x00\x00\x00\x00\x00\x07\x07\x00\x00\x07\x00\x01";

// A ref, and an atom with `+` as its validator; nil as a constant.
const ADDED: &[u8] = b"TXS2\
    \x00\x02\x00\x00\x01r\x00\x00\x01\x00\x01a\x00\x01\x00\x00\x00\
    \x00\x00\x00\x01\x00";

// No cells, and nil as a constant.
const NIL: &[u8] = b"TXS1\x00\x00\x00\x00\x00\x01\x00";

// Appends the bytes that words tell: whether there was room, as all that appends says.
fn write_bytes(form: &mut Vec<u8>, words: &str) -> bool {
    let mut written = true;
    for word in words.split(' ') {
        written = form.extend_from_slice(&[number_of(word)]).is_ok() && written;
    }
    written
}

// Appends the instruction of this name, with a span of nothing. One that isn't known has no bytes.
fn write_instr(form: &mut Vec<u8>, name: &str) -> bool {
    let mut written = true;
    for line in INSTRS.lines() {
        let (first, bytes) = line.split_once(' ').unwrap_or((line, ""));
        if first == name {
            written = write_bytes(form, bytes) && written;
        }
    }
    form.extend_from_slice(&[0; 8]).is_ok() && written
}

// Appends a body: its parameters and its locals, and behind `: ` the names of its instructions.
fn write_body(form: &mut Vec<u8>, body: &str) -> bool {
    let (front, instrs) = body.split_once(": ").unwrap_or((body, ""));
    let count = u8::try_from(instrs.split(' ').count()).unwrap_or(u8::MAX);
    let mut written = write_bytes(form, front) && form.extend_from_slice(&[0, 0, 0, count]).is_ok();
    for name in instrs.split(' ') {
        written = write_instr(form, name) && written;
    }
    written
}

// Appends a front, and the bodies of a thread, or of a function and a thread with `;` between them.
fn write_form(form: &mut Vec<u8>, front: &[u8], bodies: &str) -> bool {
    let (function, thread) = bodies.split_once(';').unwrap_or(("", bodies));
    let functions = if function.is_empty() { 0 } else { 1 };
    form.extend_from_slice(front).is_ok()
        && form.extend_from_slice(&[0, functions]).is_ok()
        && (functions == 0 || write_body(form, function))
        && form.extend_from_slice(&[0, 1]).is_ok()
        && write_body(form, thread)
}

// Whether a refusal is told so: its reason, the body, and the place.
fn is_refusal(error: VerifyError, told: &str) -> bool {
    let mut words = told.split(' ');
    let (body, number) = match error.body {
        BodyName::Function(number) => ("function", number),
        BodyName::Thread(number) => ("thread", number),
        BodyName::Cell(number) => ("cell", number),
    };
    words.next() == Some(error.kind.name())
        && words.next() == Some(body)
        && usize::from(next_number(&mut words)) == number
        && usize::from(next_number(&mut words)) == error.at
}

// Whether the bytes are those of well-typed code, and are given as verified, or are refused as it is told.
fn is_judged(alloc: Global, form: &[u8], told: &str) -> bool {
    if load_verified(alloc, form).is_ok() != (told == "ok") {
        return false;
    }
    match load(alloc, form) {
        Ok(_) => told == "ok",
        Err(LoadError::Code(error)) => is_refusal(error, told),
        Err(_) => false,
    }
}

// The same of a row: bodies behind this front, and what is told of them.
fn holds(alloc: Global, front: &[u8], row: &str) -> bool {
    let (bodies, told) = row.split_once(" => ").unwrap_or((row, ""));
    let mut form = Vec::new(alloc);
    write_form(&mut form, front, bodies) && is_judged(alloc, form.as_slice(), told)
}

// Threads, and then a function and a thread each; and what is told of them.
const ROWS: &str = "\
0 0: number jump-2 halt => ok
0 0: number jump-3 halt => JumpOut thread 0 1
0 0: number print halt => ok
0 0: print halt => StackLow thread 0 0
0 0: number number pop halt => ok
0 0: number number halt => StackDiffers thread 0 2
0 0: number number jump-false-3 halt => ok
0 0: number jump-false-3 number halt => StackDiffers thread 0 3
0 1: local-0 halt => ok
0 1: local-1 halt => LocalOut thread 0 0
0 0: number inc halt => ok
0 0: number number inc-of-two halt => ArityWrong thread 0 2
0 0: begin ref alter inc altered end halt => ok
0 0: begin ref alter inc pop end halt => CallOrder thread 0 2
0 0: ref alter inc altered halt => TxNesting thread 0 1
0 0: number end halt => TxNesting thread 0 1
0 0: begin number print end halt => TxNesting thread 0 2
0 0: atom swap-inc inc swapped halt => ok
0 0: number => FallsOff thread 0 0
0 0: number return => FallsOff thread 0 1
0 0: number return;0 0: call halt => ok
0 0: call return;0 0: number halt => CallOrder function 0 0
1 1: local-0 return;0 0: number call halt => ok
1 0: number return;0 0: number call halt => LocalOut function 0 0
0 0: number halt;0 0: number halt => FallsOff function 0 1
0 0: ref alter inc altered return;0 0: begin call end halt => ok
0 0: ref alter inc altered return;0 0: call halt => TxNesting thread 0 0
1 1: local-0 inc return;0 0: begin ref alter call altered end halt => ok
1 1: ref deref return;0 0: begin ref alter call altered end halt => TxNesting thread 0 2";

#[test]
fn judges_threads_and_functions(rt: HostRuntime) {
    for row in ROWS.lines() {
        assert!(rt; holds(rt.alloc(), FRONT, row), "{row}");
    }
}

// Other bytes of the worked form from a place on, and what is told of it.
const CHANGED: [(usize, &[u8], &str); 4] = [
    (0, &[], "ok"),
    (29, &[4, 0, 0, 0, 9], "JumpOut thread 0 0"),
    (29, &[5], "StackLow thread 0 0"),
    (44, &[0], "StackDiffers thread 0 2"),
];

const SENDS_NIL: &str = "0 0: number send-inc halt => ok";

#[test]
fn judges_worked_forms(rt: HostRuntime) {
    for (at, bytes, told) in &CHANGED {
        let mut form = Vec::new(rt.alloc());
        let made = write_changed(&mut form, *at, bytes);
        assert!(rt;
            made && is_judged(rt.alloc(), form.as_slice(), told),
            "{told}"
        );
    }
    assert!(rt; is_judged(rt.alloc(), AGENT, "ok") && holds(rt.alloc(), NIL, SENDS_NIL));
}

// Where the first function is a validator: a function and a thread each, or a thread; and what is told of them.
const CHECKED_ROWS: &str = "\
1 1: local-0 return;0 0: number halt => ok
0 0: number return;0 0: number halt => ArityWrong cell 0 0
0 0: number halt => ArityWrong cell 0 0
0 0: number return;0 0: number jump-3 halt => ArityWrong cell 0 0
1 1: local-1 return;0 0: number halt => LocalOut function 0 0
1 1: ref deref return;0 0: number jump-3 halt => JumpOut thread 0 1
1 1: ref deref return;0 0: print halt => TxNesting cell 0 0
1 1: pop return;0 0: number halt => StackLow function 0 0";

const ADDS: &str = "0 0: number halt => ArityWrong cell 1 0";

#[test]
fn judges_validators(rt: HostRuntime) {
    for row in CHECKED_ROWS.lines() {
        assert!(rt; holds(rt.alloc(), CHECKED, row), "{row}");
    }
    assert!(rt; holds(rt.alloc(), ADDED, ADDS));
}
