//! The text of values.
ghost use Rattle.std.specs.Prelude.{◌≡◌, ◌++◌, ◌∷◌, [], None, OnOk, OnErr};
ghost use Rattle.txs_value_data.specs.PlainValue.{plain_row};
ghost use Rattle.txs_value_data.specs.Printed.{printed, items_printed, printed_line, kind_printed, gap, Extends};
ghost use Rattle.txs_value_data.specs.View.{plain_of, plains_of, vector_items};

use crate::value::{CellKind, Value};
use itoa::Buffer;
use std::alloc::AllocError;

/// Appends the value as `println` writes it. After an error nothing is appended.
pub fn write_text(value: &Value, out: &mut Vec<u8>) -> Result<(), AllocError>
    ensures ok { OnOk result (out.new.items ≡ out.old.items ++ printed (plain_of value.now)) }
    ensures err { OnErr result (out.new.items ≡ out.old.items) }
{
    let start = out.len();
    let done = print(value, out);
    if done.is_err() {
        out.truncate(start);
    }
    done
}

/// Appends the line that `println` writes of these values: one space between each two, then a
/// newline. After an error nothing is appended.
pub fn write_line(values: &[Value], out: &mut Vec<u8>) -> Result<(), AllocError>
    ensures ok { OnOk result (out.new.items ≡ out.old.items ++ printed_line values.now) }
    ensures err { OnErr result (out.new.items ≡ out.old.items) }
{
    let start = out.len();
    let done = print_line(values, out);
    if done.is_err() {
        out.truncate(start);
    }
    done
}

/// The values with a space between each two, then a newline.
fn print_line(values: &[Value], out: &mut Vec<u8>) -> Result<(), AllocError>
    ensures ok { OnOk result (out.new.items ≡ out.old.items ++ printed_line values.now) }
    ensures kept { Extends out.old.items out.new.items }
{
    for (i, value) in values.iter().enumerate() {
        let Ok(()) = separate(i, out) else {
            return Err(AllocError);
        };
        let Ok(()) = print(value, out) else {
            return Err(AllocError);
        };
    }
    out.extend_from_slice(b"\n")
}

fn kind_text(kind: CellKind) -> &'static [u8]
    ensures { result.now ≡ kind_printed kind }
{
    match kind {
        CellKind::Ref => b"#ref[",
        CellKind::Atom => b"#atom[",
        CellKind::Agent => b"#agent[",
    }
}

// A space before each item but the first.
fn separate(i: usize, out: &mut Vec<u8>) -> Result<(), AllocError>
    ensures ok { OnOk result (out.new.items ≡ out.old.items ++ gap i) }
    ensures kept { Extends out.old.items out.new.items }
{
    if i > 0 {
        return out.extend_from_slice(b" ");
    }
    Ok(())
}

/// The value as `println` writes it.
fn print(value: &Value, out: &mut Vec<u8>) -> Result<(), AllocError>
    ensures ok { OnOk result (out.new.items ≡ out.old.items ++ printed (plain_of value.now)) }
    ensures kept { Extends out.old.items out.new.items }
{
    let Value::Vector(items) = value else {
        return print_leaf(value, out);
    };
    out.push(b'[')?;
    for i in 0..items.len() {
        let Ok(()) = separate(i, out) else {
            return Err(AllocError);
        };
        let Ok(()) = print(items.get(i), out) else {
            return Err(AllocError);
        };
    }
    out.extend_from_slice(b"]")
}

/// A value that is no vector.
#[inline(always)]
fn print_leaf(value: &Value, out: &mut Vec<u8>) -> Result<(), AllocError>
    requires { vector_items value.now ≡ None }
    ensures ok { OnOk result (out.new.items ≡ out.old.items ++ printed (plain_of value.now)) }
    ensures kept { Extends out.old.items out.new.items }
{
    match value {
        Value::Nil => out.extend_from_slice(b"nil"),
        Value::Truth(true) => out.extend_from_slice(b"true"),
        Value::Truth(false) => out.extend_from_slice(b"false"),
        Value::Int(n) => out.extend_from_slice(Buffer::new().format(*n).as_bytes()),
        Value::Key(name) => append_both(b":", name.as_bytes(), out),
        Value::Text(text) => out.extend_from_slice(text.as_str().as_bytes()),
        Value::Vector(_) => unreachable!(),
        Value::Cell(id) => {
            let mut digits = Buffer::new();
            let number = digits.format(id.number).as_bytes();
            match append_both(kind_text(id.kind), number, out) {
                Ok(()) => out.extend_from_slice(b"]"),
                refused => refused,
            }
        }
    }
}

/// Appends two texts, one behind the other.
#[inline(always)]
fn append_both(a: &[u8], b: &[u8], out: &mut Vec<u8>) -> Result<(), AllocError>
    ensures ok { OnOk result (out.new.items ≡ out.old.items ++ (a.now ++ b.now)) }
    ensures kept { Extends out.old.items out.new.items }
{
    match out.extend_from_slice(a) {
        Ok(()) => out.extend_from_slice(b),
        refused => refused,
    }
}
