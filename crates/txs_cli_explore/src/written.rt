//! The text of all outcomes.

ghost use Rattle.std.specs.Prelude.{◌≡◌, ◌++◌, ℕ, List, OnOk, length, take};
ghost use Rattle.txs_cli_explore.specs.Outcomes.{AreWritten, IsBlock, as_word, head};

use crate::changes::add_change;
use crate::outcomes::Outcome;
use std::alloc::{AllocError, Global};
use txs_cli_report::write_number;

/// A list of plays as a word behind an option.
fn as_word(list: &[u8]) -> &[u8]
    ensures { result.now ≡ as_word list.now }
{
    if list.is_empty() { b"\"\"" } else { list }
}

/// Appends the head of an outcome: its number, from 1 on, and its list of plays.
fn add_head(output: &mut Vec<u8>, number: usize, list: &[u8]) -> Result<(), AllocError>
    ensures { OnOk result (output.new.items ≡ output.old.items ++ head number list.now) }
{
    write_number(output, b"outcome ", number)?;
    output.extend_from_slice(b", by --turns ")?;
    output.extend_from_slice(as_word(list))?;
    output.extend_from_slice(b"\n")
}

/// Appends an outcome behind the first one: its head, and the lines that differ.
fn add_block(
    alloc: Global,
    output: &mut Vec<u8>,
    first: &Outcome,
    number: usize,
    outcome: &Outcome,
) -> Result<(), AllocError>
    ensures { OnOk result ((block : List ℕ) × IsBlock first.now number outcome.now block × (output.new.items ≡ output.old.items ++ block)) }
{
    add_head(output, number, outcome.list.as_slice())?;
    add_change(
        alloc,
        output,
        first.lines.as_slice(),
        outcome.lines.as_slice(),
    )
}

/// Appends all outcomes: the first one whole, and of the others the lines that differ from it.
pub(crate) fn add_outcomes(
    alloc: Global,
    output: &mut Vec<u8>,
    outcomes: &[Outcome],
) -> Result<(), AllocError>
    ensures { OnOk result ((text : List ℕ) × AreWritten outcomes.now text × (output.new.items ≡ output.old.items ++ text)) }
{
    if outcomes.is_empty() {
        return Ok(());
    }
    let first = &outcomes[0];
    add_head(output, 1, first.list.as_slice())?;
    output.extend_from_slice(first.lines.as_slice())?;
    for i in 1..outcomes.len() {
        add_block(alloc, output, first, i + 1, &outcomes[i])?;
    }
    Ok(())
}
