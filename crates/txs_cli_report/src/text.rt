//! Parts of lines: texts and numbers, one behind the other.

ghost use Rattle.std.specs.Prelude.{◌≡◌, ◌++◌, decimal, OnOk};
ghost use Rattle.txs_value_data.specs.Printed.{Extends};

use itoa::Buffer;
use std::alloc::AllocError;

/// Appends two texts, one behind the other.
pub fn write_both(out: &mut Vec<u8>, first: &[u8], second: &[u8]) -> Result<(), AllocError>
    ensures ok { OnOk result (out.new.items ≡ out.old.items ++ (first.now ++ second.now)) }
    ensures kept { Extends out.old.items out.new.items }
{
    out.extend_from_slice(first)?;
    out.extend_from_slice(second)
}

/// Appends a number behind these bytes.
pub fn write_number(out: &mut Vec<u8>, before: &[u8], number: usize) -> Result<(), AllocError>
    ensures ok { OnOk result (out.new.items ≡ out.old.items ++ (before.now ++ decimal number)) }
    ensures kept { Extends out.old.items out.new.items }
{
    let mut buffer = Buffer::new();
    write_both(out, before, buffer.format(number).as_bytes())
}
