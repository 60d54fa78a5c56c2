//! Which bytes are what, and how far runs of them go.

ghost use Rattle.std.specs.Prelude.{◌≡◌, ◌+◌, ◌^◌, ◌<◌, ◌≤◌, ◌||◌, true, not, drop, length, slice_index, IfSome, IfNone};
ghost use Rattle.std.specs.List.{list_all};
ghost use Rattle.txs_reader.specs.Bytes.{is_white, is_left_out_byte, is_word_byte, is_line_end, is_mark, is_plain, IsRun};
ghost use Rattle.txs_reader.specs.Script.{between};

use memchr::memchr2;
use txs_value_data::Span;

#[tactic(auto, unfolding(crate::specs::Bytes::is_white))]
pub fn is_white(b: u8) -> bool
    ensures { result ≡ is_white b }
{
    matches!(b, 9..=13 | 28..=32 | b',')
}

#[tactic(auto, unfolding(crate::specs::Bytes::is_left_out_byte))]
pub fn is_left_out_byte(b: u8) -> bool
    ensures { result ≡ is_left_out_byte b }
{
    matches!(b, b'{' | b'}' | b'^' | b'~' | b'\\' | b'`')
}

#[tactic(auto, unfolding(crate::specs::Bytes::is_mark))]
fn is_mark(b: u8) -> bool
    ensures { result ≡ is_mark b }
{
    matches!(b, b';' | b'(' | b')' | b'[' | b']' | b'@' | b'"')
}

#[tactic(auto, unfolding(crate::specs::Bytes::is_word_byte))]
pub fn is_word_byte(b: u8) -> bool
    ensures { result ≡ is_word_byte b }
{
    !(is_white(b) || is_left_out_byte(b) || is_mark(b))
}

/// How many bytes of a word are at the front.
pub fn word_len(bytes: &[u8]) -> usize
    ensures { IsRun is_word_byte bytes.now result }
{
    for (i, b) in bytes.iter().enumerate() {
        if !is_word_byte(*b) {
            return i;
        }
    }
    bytes.len()
}

/// How many bytes are before the end of the line.
pub fn line_len(bytes: &[u8]) -> usize
    ensures { IsRun (λ b. not (is_line_end b)) bytes.now result }
{
    match memchr2(10, 13, bytes) {
        Some(n) => n,
        None => bytes.len(),
    }
}

/// How many bytes are before the first quote or backslash, if there is one.
pub fn plain_len(bytes: &[u8]) -> Option<usize>
    ensures some { IfSome result (λ n. IsRun is_plain bytes.now n × (n < length bytes.now)) }
    ensures none { IfNone result (list_all is_plain bytes.now ≡ true) }
{
    match memchr2(b'"', b'\\', bytes) {
        Some(n) => Some(n),
        None => None,
    }
}

/// The place from an offset up to another.
pub fn span_of(from: usize, to: usize) -> Span
    requires ordered { from ≤ to }
    requires small { to < 2 ^ 32 }
    ensures { result ≡ between from to }
{
    Span {
        from: from as u32,
        to: to as u32,
    }
}

/// The bytes of a script from an offset on.
pub fn rest_at(script: &str, at: usize) -> &[u8]
    requires { at ≤ length script.now }
    ensures { result.now ≡ drop at script.now }
{
    let bytes = script.as_bytes();
    &bytes[at..]
}

/// The byte of a script at an offset.
pub fn byte_at(script: &str, at: usize) -> u8
    requires { at < length script.now }
    ensures { result ≡ slice_index script.now at }
{
    script.as_bytes()[at]
}
