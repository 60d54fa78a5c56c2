// The byte form of `(future (println 7))`, as it is documented, and what is refused of it where.
use std::alloc::Global;
use txs_code_encode::{CodeErrorKind, Opcode, bytes_of, decode};
use txs_code_meaning::Instr;
use txs_verify::settled::is_settled;

pub const FORM: &[u8] = b"TXS1\
    \x00\x00\x00\x00\x00\x01\x03\x00\x00\x00\x00\x00\x00\x00\x07\x00\x00\x00\x01\
    \x00\x00\x00\x00\x00\x03\
    \x00\x00\x00\x00\x00\x00\x00\x00\x11\x00\x00\x00\x12\
    \x0a\x00\x01\x00\x00\x00\x08\x00\x00\x00\x13\
    \x18\x00\x00\x00\x00\x00\x00\x00\x14";

// Whether the bytes are refused for the reason of this name at this place.
fn is_refused(alloc: Global, bytes: &[u8], name: &str, at: usize) -> bool {
    match decode(alloc, bytes) {
        Ok(_) => false,
        Err(error) => error.kind.name() == name && error.at == at,
    }
}

// Appends code in its byte form with other bytes from a place on: whether there was room.
fn write_other(form: &mut Vec<u8>, of: &[u8], at: usize, bytes: &[u8]) -> bool {
    let behind = at.saturating_add(bytes.len()).min(of.len());
    form.extend_from_slice(&of[..at.min(of.len())]).is_ok()
        && form.extend_from_slice(bytes).is_ok()
        && form.extend_from_slice(&of[behind..]).is_ok()
}

// The same of the form above.
pub fn write_changed(form: &mut Vec<u8>, at: usize, bytes: &[u8]) -> bool {
    write_other(form, FORM, at, bytes)
}

// Other bytes from a place of the form on, and the reason for which they are refused there; the last ones are a byte behind it.
const OTHERS: [(&[u8], &str, usize); 6] = [
    (&[0], "BadMagic", 0),
    (&[0, 0, 0, 1], "BadOperand", 30),
    (&[0x19], "BadOpcode", 29),
    (&[8], "BadOpcode", 10),
    (&[0, 65], "TooLarge", 21),
    (&[0], "Trailing", 62),
];

#[test]
fn refuses_what_is_cut_or_other(rt: HostRuntime) {
    for k in 0..62 {
        let cut = FORM.get(..k).unwrap_or(FORM);
        assert!(rt; is_refused(rt.alloc(), cut, "Truncated", k));
    }
    for (bytes, name, at) in &OTHERS {
        let mut form = Vec::new(rt.alloc());
        let made = write_changed(&mut form, *at, bytes);
        assert!(rt;
            made && is_refused(rt.alloc(), form.as_slice(), name, *at),
            "{name}"
        );
    }
}

// Code without bodies, of a ref with an operation as its validator, an atom without one, and an agent that goes on after a fault, with a
// function as its validator, which the decoder doesn't look for.
pub const VALIDATED: &[u8] = b"TXS2\
    \x00\x03\
    \x00\x00\x01r\x03\x00\x00\x00\x00\x00\x00\x00\x01\x01\x00\x00\x13\
    \x01\x00\x01a\x00\x00\
    \x02\x01\x01g\x00\x01\x01\x00\x00\
    \x00\x00\x00\x00\x00\x00\x00\x00";

// A ref without a validator where the magic says that there is one.
const UNVALIDATED: &[u8] = b"TXS2\0\x01\0\0\x01r\0\0\0\0\0\0\0\0\0\0";

// Other bytes from a place of that code on, and the reason for which it is refused, with its place.
const OTHERS_VALIDATED: [(usize, &[u8], &str, usize); 6] = [
    (19, &[2], "BadOperand", 19),
    (20, &[2], "BadOperand", 20),
    (21, &[0, 27], "BadOperand", 21),
    (36, &[3, 0xe8], "BadOperand", 36),
    (3, b"1", "BadOperand", 21),
    (3, b"3", "BadMagic", 0),
];

// Whether code in its byte form is written as it was read.
fn is_written_again(alloc: Global, form: &[u8]) -> bool {
    let Ok(code) = decode(alloc, form) else {
        return false;
    };
    match bytes_of(alloc, &code) {
        Ok(Some(bytes)) => bytes.as_slice() == form,
        _ => false,
    }
}

#[test]
fn refuses_validators_cut_or_other(rt: HostRuntime) {
    for k in 0..46 {
        let cut = VALIDATED.get(..k).unwrap_or(VALIDATED);
        assert!(rt; is_refused(rt.alloc(), cut, "Truncated", k));
    }
    for (at, bytes, name, told) in &OTHERS_VALIDATED {
        let mut form = Vec::new(rt.alloc());
        let made = write_other(&mut form, VALIDATED, *at, bytes);
        assert!(rt;
            made && is_refused(rt.alloc(), form.as_slice(), name, *told),
            "{at}"
        );
    }
}

#[test]
fn writes_validators_where_there_are_any(rt: HostRuntime) {
    let alloc = rt.alloc();
    assert!(rt; is_written_again(alloc, VALIDATED) && is_written_again(alloc, FORM));
    assert!(rt; is_refused(alloc, UNVALIDATED, "BadOperand", 3));
    assert!(rt; is_refused(alloc, b"TXS2\0\0", "BadOperand", 3));
}

// Whether no form begins with the bytes.
fn settles(alloc: Global, bytes: &[u8]) -> bool {
    match is_settled(alloc, bytes) {
        Ok(settled) => settled,
        Err(_) => false,
    }
}

#[test]
fn tells_where_no_form_begins(rt: HostRuntime) {
    let alloc = rt.alloc();
    assert!(rt; settles(alloc, b"TXS3") && settles(alloc, b"TXS1\x03\xe9"));
    assert!(rt; settles(alloc, b"TXS2\0\0") && !settles(alloc, b"TXS2"));
    assert!(rt; !settles(alloc, b"TXS1") && !settles(alloc, FORM));
}

// Code with one constant, which is vectors in 32 levels around nil.
const DEEP: &[u8] = b"TXS1\0\0\0\0\0\x01\
    \x06\0\x01\x06\0\x01\x06\0\x01\x06\0\x01\x06\0\x01\x06\0\x01\x06\0\x01\x06\0\x01\x06\0\x01\x06\0\x01\x06\0\x01\
    \x06\0\x01\x06\0\x01\x06\0\x01\x06\0\x01\x06\0\x01\x06\0\x01\x06\0\x01\x06\0\x01\x06\0\x01\x06\0\x01\x06\0\x01\
    \x06\0\x01\x06\0\x01\x06\0\x01\x06\0\x01\x06\0\x01\x06\0\x01\x06\0\x01\x06\0\x01\x06\0\x01\x06\0\x01\
    \0\0\0\0\0";

// The same with 33 levels, the last of which is refused.
const TOO_DEEP: &[u8] = b"TXS1\0\0\0\0\0\x01\
    \x06\0\x01\x06\0\x01\x06\0\x01\x06\0\x01\x06\0\x01\x06\0\x01\x06\0\x01\x06\0\x01\x06\0\x01\x06\0\x01\x06\0\x01\
    \x06\0\x01\x06\0\x01\x06\0\x01\x06\0\x01\x06\0\x01\x06\0\x01\x06\0\x01\x06\0\x01\x06\0\x01\x06\0\x01\x06\0\x01\
    \x06\0\x01\x06\0\x01\x06\0\x01\x06\0\x01\x06\0\x01\x06\0\x01\x06\0\x01\x06\0\x01\x06\0\x01\x06\0\x01\x06\0\x01\
    \0\0\0\0\0";

#[test]
fn tells_level_33_and_numbers(rt: HostRuntime) {
    assert!(rt;
        is_refused(rt.alloc(), TOO_DEEP, "BadOperand", 106)
            && !is_refused(rt.alloc(), DEEP, "BadOperand", 106)
            && Opcode::of(Instr::Halt).byte() == 24
            && Opcode::from_byte(24).is_some()
            && Opcode::from_byte(25).is_none()
            && CodeErrorKind::Trailing.number() == 35
            && CodeErrorKind::Trailing.name() == "Trailing"
    );
}
