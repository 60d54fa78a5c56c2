//! How a text differs from another, line by line.

ghost use Rattle.std.specs.Prelude.{◌≡◌, ◌≤◌, ◌<◌, ◌-◌, ◌++◌, ◌∷◌, ℕ, List, IfOk, OnOk, drop, length, take, true};
ghost use Rattle.txs_cli_explore.specs.Changes.{IsChange, lines_in, lines_of, signed};

use std::alloc::{AllocError, Global};

/// The first line of a text that has one, and what is behind it and its newline.
fn split_line(text: &[u8]) -> (&[u8], &[u8])
    requires { 0 < length text.now }
    ensures lines { lines_in text.now ≡ result.0.now ∷ lines_in result.1.now }
    ensures shorter { length result.1.now < length text.now }
{
    for (i, byte) in text.iter().enumerate() {
        if *byte == b'\n' {
            return (&text[..i], &text[i + 1..]);
        }
    }
    (text, b"")
}

/// The lines of a text, without what ends them.
fn lines_in(alloc: Global, text: &[u8]) -> Result<Vec<&[u8]>, AllocError>
    ensures { IfOk result (λ lines. lines_of lines.items ≡ lines_in text.now) }
{
    let mut lines = Vec::new(alloc);
    let mut rest = text;
    while !rest.is_empty() {
        let (line, later) = split_line(rest);
        lines.push(line)?;
        rest = later;
    }
    Ok(lines)
}

/// Appends these lines, each behind a sign.
fn add_lines(output: &mut Vec<u8>, sign: &[u8], lines: &[&[u8]]) -> Result<(), AllocError>
    ensures { OnOk result (output.new.items ≡ output.old.items ++ signed sign.now (lines_of lines.now)) }
{
    for line in lines {
        output.extend_from_slice(sign)?;
        output.extend_from_slice(line)?;
        output.extend_from_slice(b"\n")?;
    }
    Ok(())
}

/// Whether two lines are the same.
fn same_line(a: &[u8], b: &[u8]) -> bool
    ensures { result ≡ true → a.now ≡ b.now }
{
    a == b
}

/// How many lines of both are the same, from the first on.
fn same_first(a: &[&[u8]], b: &[&[u8]]) -> usize
    ensures within { result ≤ length a.now }
    ensures within_other { result ≤ length b.now }
    ensures same { take result (lines_of a.now) ≡ take result (lines_of b.now) }
{
    for i in 0..a.len().min(b.len()) {
        if !same_line(a[i], b[i]) {
            return i;
        }
    }
    a.len().min(b.len())
}

/// How many lines of both are the same, from the last on.
fn same_last(a: &[&[u8]], b: &[&[u8]]) -> usize
    ensures within { result ≤ length a.now }
    ensures within_other { result ≤ length b.now }
    ensures same { drop (length a.now - result) (lines_of a.now) ≡ drop (length b.now - result) (lines_of b.now) }
{
    for i in 0..a.len().min(b.len()) {
        if !same_line(a[a.len() - i - 1], b[b.len() - i - 1]) {
            return i;
        }
    }
    a.len().min(b.len())
}

/// Appends what changes between lines: those of the first that the others lack, and those that they have instead.
fn add_differing(output: &mut Vec<u8>, a: &[&[u8]], b: &[&[u8]]) -> Result<(), AllocError>
    ensures { OnOk result ((change : List ℕ) × IsChange (lines_of a.now) (lines_of b.now) change × (output.new.items ≡ output.old.items ++ change)) }
{
    let front = same_first(a, b);
    let (a, b) = (&a[front..], &b[front..]);
    let behind = same_last(a, b);
    add_lines(output, b"- ", &a[..a.len() - behind])?;
    add_lines(output, b"+ ", &b[..b.len() - behind])
}

/// Appends the lines in which a text differs from the first one: those that it lacks, and those that it has instead.
pub(crate) fn add_change(
    alloc: Global,
    output: &mut Vec<u8>,
    first: &[u8],
    text: &[u8],
) -> Result<(), AllocError>
    ensures { OnOk result ((change : List ℕ) × IsChange (lines_in first.now) (lines_in text.now) change × (output.new.items ≡ output.old.items ++ change)) }
{
    let a = lines_in(alloc, first)?;
    let b = lines_in(alloc, text)?;
    add_differing(output, a.as_slice(), b.as_slice())
}
