// Values: an operation, a copy, equality and printed text.
use std::alloc::Global;
use txs_value_apply::{apply, make_vector, takes};
use txs_value_data::{Op, Value, copy_value, same, write_text};

/// Whether this is the text of a value.
pub fn is_text(alloc: Global, value: &Value, text: &[u8]) -> bool {
    let mut out = Vec::new(alloc);
    write_text(value, &mut out).is_ok() && out.as_slice() == text
}

// Whether a value is copied, and has this text.
fn is_copied(alloc: Global, value: &Value, text: &[u8]) -> bool {
    match copy_value(value) {
        Ok(copy) => same(&copy, value) && !same(&copy, &Value::Nil) && is_text(alloc, &copy, text),
        Err(_) => false,
    }
}

// Whether `conj` on these arguments gives a value of this text.
fn conj_gives(alloc: Global, args: &[Value], text: &[u8]) -> bool {
    if !takes(Op::Conj, args.len()) {
        return false;
    }
    match apply(alloc, Op::Conj, args) {
        Ok(value) => is_copied(alloc, &value, text),
        Err(_) => false,
    }
}

// `(conj [1] 2)`
#[test]
fn applies_copies_and_prints(rt: HostRuntime) {
    let alloc = rt.alloc();
    let Ok(items) = vec![in alloc; Value::Int(1)] else {
        panic!(rt)
    };
    let Ok(vector) = make_vector(alloc, items) else {
        panic!(rt)
    };
    let args = [vector, Value::Int(2)];
    assert!(rt; conj_gives(alloc, &args, b"[1 2]"));
}
