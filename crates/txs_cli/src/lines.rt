//! The lines that tell why bytes aren't taken as code.

ghost use Rattle.std.specs.Option.{option_map};
ghost use Rattle.std.specs.Prelude.{◌≡◌, ◌≢◌, ◌++◌, [], codes, decimal, unwrap_or, IfOk, OnOk};
ghost use Rattle.txs_verify.specs.declared.load_error.LoadError.TheVariants.{Memory};
ghost use Rattle.txs_cli_report.specs.Lent.{told_of};
ghost use Rattle.txs_cli_report.specs.Told.{IsTold};
ghost use Rattle.txs_cli.specs.CodeLines.{at_number, in_body, load_line, refused_front};

use std::alloc::{AllocError, Global};
use txs_cli_report::told::{REFUSED, Told};
use txs_cli_report::{write_both, write_number};
use txs_verify::BodyName;
use txs_verify::load_error::LoadError;

/// Appends a place, and ends the line.
fn end_line(line: &mut Vec<u8>, at: usize) -> Result<(), AllocError>
    ensures { OnOk result (line.new.items ≡ line.old.items ++ at_number (codes " at ") at) }
{
    write_number(line, b" at ", at)?;
    line.extend_from_slice(b"\n")
}

/// Appends a word, the number of a body, and the place of an instruction there, and ends the line.
fn end_at(line: &mut Vec<u8>, word: &[u8], number: usize, at: usize) -> Result<(), AllocError>
    ensures { OnOk result (line.new.items ≡ line.old.items ++ (word.now ++ decimal number ++ at_number (codes " at ") at)) }
{
    write_number(line, word, number)?;
    end_line(line, at)
}

/// Appends the line of a refusal: its number and its name, and its place in a body or a cell, or among the bytes where no body is named.
fn write_line(
    line: &mut Vec<u8>,
    number: u8,
    name: &str,
    body: Option<BodyName>,
    at: usize,
) -> Result<(), AllocError>
    ensures { OnOk result (line.new.items ≡ line.old.items ++ (refused_front number name.now ++ unwrap_or (option_map (λ b. in_body b at) body) (at_number (codes " at ") at))) }
{
    write_number(line, b"refused ", usize::from(number))?;
    write_both(line, b" ", name.as_bytes())?;
    match body {
        Some(BodyName::Function(number)) => end_at(line, b" in fn ", number, at),
        Some(BodyName::Thread(number)) => end_at(line, b" in thread ", number, at),
        Some(BodyName::Cell(number)) => end_at(line, b" in cell ", number, at),
        None => end_line(line, at),
    }
}

/// Appends the line of what isn't taken; of want of memory there is none.
fn write_refusal(line: &mut Vec<u8>, error: LoadError) -> Result<(), AllocError>
    ensures told { OnOk result (error ≢ Memory) }
    ensures line { OnOk result (line.new.items ≡ line.old.items ++ load_line error) }
{
    match error {
        LoadError::Bytes(e) => write_line(line, e.kind.number(), e.kind.name(), None, e.at),
        LoadError::Code(e) => write_line(line, e.kind.number(), e.kind.name(), Some(e.body), e.at),
        LoadError::Memory => Err(AllocError),
    }
}

/// What is told of bytes that aren't taken as code. Of want of memory the program tells otherwise.
pub(crate) fn refused(alloc: Global, error: LoadError) -> Result<Told, AllocError>
    ensures told { IfOk result (λ t. error ≢ Memory) }
    ensures is { IfOk result (λ t. IsTold [] (load_line error) 1 (told_of t)) }
{
    let mut errors = Vec::new(alloc);
    write_refusal(&mut errors, error)?;
    Ok(Told {
        threads: Vec::new(alloc),
        agents: Vec::new(alloc),
        output: Vec::new(alloc),
        errors,
        status: REFUSED,
    })
}
