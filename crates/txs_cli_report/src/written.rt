//! Lists of plays, written as text.

ghost use Rattle.txs_value_data.specs.Printed.{Extends};

use crate::text::write_number;
use std::alloc::AllocError;
use txs_machine::{Play, Repeated};

/// Appends a play, behind these bytes: the number of its actor, with a `t` before it where it is for one turn.
fn write_play(out: &mut Vec<u8>, before: &[u8], play: Play) -> Result<(), AllocError>
    ensures { Extends out.old.items out.new.items }
{
    out.extend_from_slice(before)?;
    match play {
        Play::Turn(actor) => write_number(out, b"t", usize::from(actor)),
        Play::Ask(actor) => write_number(out, b"", usize::from(actor)),
    }
}

/// Appends a play that is made so many times, behind these bytes.
fn write_item(out: &mut Vec<u8>, before: &[u8], item: Repeated) -> Result<(), AllocError>
    ensures { Extends out.old.items out.new.items }
{
    write_play(out, before, item.play)?;
    if item.times == 1 {
        return Ok(());
    }
    write_number(out, b"x", item.times as usize)
}

/// Appends a list of plays, as `read_plays` reads it.
pub fn write_plays(out: &mut Vec<u8>, plays: &[Repeated]) -> Result<(), AllocError>
    ensures { Extends out.old.items out.new.items }
{
    let mut before: &[u8] = b"";
    for item in plays {
        write_item(out, before, *item)?;
        before = b",";
    }
    Ok(())
}
