//! What stands behind a line on the standard error where it is explained: a line with the place in the script and what to do, and the
//! line of the script with carets below it.

ghost use Rattle.std.specs.Prelude.{◌≡◌, ◌++◌, OnErr, OnOk};
ghost use Rattle.txs_value_data.specs.Printed.{Extends};
ghost use Rattle.txs_cli_report.specs.Explained.{place_where, shown_where, explained};

use crate::{write_both, write_number};
use std::alloc::AllocError;
use txs_reader::{position, write_pointed};
use txs_value_data::Span;

/// A script of which lines on the standard error tell.
#[derive(Clone, Copy)]
pub struct Script<'a> {
    pub text: &'a [u8],
    /// The name of its file where the lines are to be explained.
    pub file: Option<&'a str>,
}

/// Appends the line and the column where a place begins, both from 1 and behind a colon, if there is one.
fn write_place(out: &mut Vec<u8>, text: &[u8], at: Option<Span>) -> Result<(), AllocError>
    ensures ok { OnOk result (out.new.items ≡ out.old.items ++ place_where text.now at) }
    ensures kept { Extends out.old.items out.new.items }
{
    let Some(at) = at else {
        return Ok(());
    };
    let place = position(text, at.from as usize);
    write_number(out, b":", place.line)?;
    write_number(out, b":", place.column)
}

/// Appends the lines that point to a place, if there is one.
fn write_shown(out: &mut Vec<u8>, text: &[u8], at: Option<Span>) -> Result<(), AllocError>
    ensures ok { OnOk result (out.new.items ≡ out.old.items ++ shown_where text.now at) }
    ensures kept { Extends out.old.items out.new.items }
{
    match at {
        Some(at) => write_pointed(text, at.from as usize, at.to as usize, out),
        None => Ok(()),
    }
}

/// Appends what explains a line.
fn append_explained(
    out: &mut Vec<u8>,
    file: &str,
    text: &[u8],
    at: Option<Span>,
    advice: &str,
) -> Result<(), AllocError>
    ensures ok { OnOk result (out.new.items ≡ out.old.items ++ explained file.now text.now at advice.now) }
    ensures kept { Extends out.old.items out.new.items }
{
    out.extend_from_slice(file.as_bytes())?;
    write_place(out, text, at)?;
    write_both(out, b": ", advice.as_bytes())?;
    out.extend_from_slice(b"\n")?;
    write_shown(out, text, at)
}

/// Appends what explains a line: the file's name, behind it the line and column where the line's place begins, if it has one, and what to do;
/// and below that the line of the script with carets under what is at the place. After an error nothing is appended.
pub fn write_explained(
    out: &mut Vec<u8>,
    file: &str,
    text: &[u8],
    at: Option<Span>,
    advice: &str,
) -> Result<(), AllocError>
    ensures ok { OnOk result (out.new.items ≡ out.old.items ++ explained file.now text.now at advice.now) }
    ensures err { OnErr result (out.new.items ≡ out.old.items) }
{
    let length = out.len();
    let done = append_explained(out, file, text, at, advice);
    if done.is_err() {
        out.truncate(length);
    }
    done
}
