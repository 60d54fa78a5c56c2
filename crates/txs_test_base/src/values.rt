// What no clause says: that the calls succeed with ample memory, and printed text. What operations mean at rows that come
// from Clojure stands in `tests/rows`.
use std::alloc::Global;
use txs_code_encode::decode;
use txs_value_apply::{apply, apply_owned, make_vector, takes};
use txs_value_data::{
    CellId, CellKind, Listed, Op, Value, copy_value, copy_values, same, write_line,
};

// Code without threads, with an agent and the constants `nil true -7 :key "text" [1 [2]]`, the agent and false.
const CODE: &[u8] =
    b"TXS1\0\x01\x02\0\x01g\0\0\0\0\x08\0\x02\x03\xff\xff\xff\xff\xff\xff\xff\xf9\x04\x03key\x05\0\x04text\x06\0\x02\x03\0\0\0\0\0\0\0\x01\x06\0\x01\x03\0\0\0\0\0\0\0\x02\x07\0\0\x01\0\0\0\0";

// Whether values are printed so.
fn print_as(alloc: Global, values: &[Value], line: &[u8]) -> bool {
    let mut out = Vec::new(alloc);
    write_line(values, &mut out).is_ok() && out.as_slice() == line
}

#[test]
fn prints_and_copies_values(rt: HostRuntime) {
    let line = b"nil true -7 :key text [1 [2]] #agent[0] false\n";
    let Ok(code) = decode(rt.alloc(), CODE) else {
        panic!(rt)
    };
    assert!(rt; print_as(rt.alloc(), code.constants(), line.as_slice()));
    for value in code.constants() {
        let Ok(copy) = copy_value(value) else {
            panic!(rt)
        };
        assert!(rt; same(&copy, value) && !same(&copy, &Value::Int(8)));
    }
}

// The list `8 nil`.
#[test]
fn copies_lists(rt: HostRuntime) {
    let Ok(pair) = vec![in rt.alloc(); Value::Int(8), Value::Nil] else {
        panic!(rt)
    };
    let pair = Listed::from_vec(pair);
    let Ok(copies) = copy_values(rt.alloc(), &pair) else {
        panic!(rt)
    };
    assert!(rt;
        matches!(
            (pair.as_slice(), copies.as_slice()),
            ([first, last], [one, other]) if same(first, one) && same(last, other)
        )
    );
}

// The cell of a kind with this number, as a value.
fn cell(kind: CellKind, number: u16) -> Value {
    Value::Cell(CellId { kind, number })
}

#[test]
fn tells_cells_apart(rt: HostRuntime) {
    let cells = [
        cell(CellKind::Ref, 0),
        cell(CellKind::Agent, 2),
        cell(CellKind::Atom, 65_535),
    ];
    let line = b"#ref[0] #agent[2] #atom[65535]\n";
    assert!(rt;
        same(&cells[0], &cell(CellKind::Ref, 0))
            && !same(&cells[0], &cell(CellKind::Ref, 1))
            && !same(&cells[0], &cell(CellKind::Atom, 0))
            && print_as(rt.alloc(), &cells, line.as_slice())
    );
}

// Whether an operation answers this of arguments that stay, and of the same where it may take them.
fn answers(alloc: Global, op: Op, args: &mut [Value], value: &Value) -> bool {
    if !takes(op, args.len()) {
        return false;
    }
    let Ok(lent) = apply(alloc, op, args) else {
        return false;
    };
    let Ok(owned) = apply_owned(alloc, op, args) else {
        return false;
    };
    same(&lent, value) && same(&owned, value)
}

// `(mod -7 2)`, and `(conj [] 7)`.
#[test]
fn operates(rt: HostRuntime) {
    let alloc = rt.alloc();
    let mut numbers = [Value::Int(-7), Value::Int(2)];
    let Ok(items) = vec![in alloc; Value::Int(7)] else {
        panic!(rt)
    };
    let Ok(vector) = make_vector(alloc, items) else {
        panic!(rt)
    };
    let Ok(empty) = make_vector(alloc, Vec::new(alloc)) else {
        panic!(rt)
    };
    assert!(rt;
        answers(alloc, Op::Mod, &mut numbers, &Value::Int(1))
            && answers(alloc, Op::Conj, &mut [empty, Value::Int(7)], &vector)
    );
}

// By their numbers and by their names, and no others.
#[test]
fn knows_operations(rt: HostRuntime) {
    for number in 0..28 {
        let found = match Op::from_number(number) {
            Some(op) => op.number() == number && Op::from_name(op.name()) == Some(op),
            None => false,
        };
        assert!(rt; found == (number < 27), "{number}");
    }
    assert!(rt; Op::from_name(b"foo").is_none());
}
