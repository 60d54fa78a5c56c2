//! Texts: what is between two quotes.

ghost use Rattle.std.specs.Prelude.{◌≡◌, ◌++◌, ◌+◌, ◌^◌, ◌<◌, ◌≤◌, ◌-◌, [], length, drop, take, slice_index, string_bytes, IfOk, IfErr};
ghost use Rattle.txs_reader.specs.Escapes.{TextUpTo, IsTextRefusal};

use crate::bytes::{byte_at, plain_len, rest_at, span_of};
use crate::error::{ReadError, ReadErrorKind};
use crate::escape::read_escape;
use std::alloc::AllocError;

/// Adds the bytes of a script between two of its ASCII bytes.
fn push_between(out: &mut String, script: &str, from: usize, to: usize) -> Result<(), AllocError>
    requires order { from < to }
    requires within { to < length script.now }
    requires front { slice_index script.now from < 128 }
    requires back { slice_index script.now to < 128 }
    ensures { IfOk result (λ _. string_bytes out.new ≡ string_bytes out.old ++ take (to - (from + 1)) (drop (from + 1) script.now)) }
{
    out.push_str(&script[from + 1..to])
}

/// Reads the text whose first quote is at an offset into an empty string, its escapes replaced, and says where its
/// second quote is.
pub fn read_quoted(text: &mut String, script: &str, at: usize) -> Result<usize, ReadError>
    requires empty { string_bytes text.old ≡ [] }
    requires inside { at < length script.now }
    requires small { length script.now < 2 ^ 32 }
    requires quote { slice_index script.now at ≡ 34 }
    ensures ok { IfOk result (λ end. TextUpTo script.now at end (string_bytes text.new) × (slice_index script.now end ≡ 34) × (end < length script.now)) }
    ensures err { IfErr result (λ e. IsTextRefusal script.now at e) }
{
    // The last byte of what has been read, an ASCII one.
    let mut last = at;
    loop {
        let len = match plain_len(rest_at(script, last + 1)) {
            Some(len) => len,
            None => {
                return Err(ReadError {
                    kind: ReadErrorKind::Unclosed,
                    at: span_of(at, at + 1),
                });
            }
        };
        let end = last + 1 + len;
        push_between(text, script, last, end)?;
        if byte_at(script, end) == b'"' {
            return Ok(end);
        }
        match read_escape(rest_at(script, end)) {
            Some(escape) => {
                text.push(escape.value)?;
                last = end + escape.len - 1;
            }
            None => {
                return Err(ReadError {
                    kind: ReadErrorKind::BadEscape,
                    at: span_of(end, end + 1),
                });
            }
        }
    }
}
