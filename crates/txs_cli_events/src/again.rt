//! The events of a run that is made again.

ghost use Rattle.std.specs.Prelude.{◌≤◌, ◌+◌, length, IfOk, IfSome};
ghost use Rattle.txs_cli_events.specs.Noted.{AreTraced, AreInOrder, ArePrinted};
ghost use Rattle.txs_cli_events.specs.Staged.{AreMade};

use crate::Noted;
use crate::check::are_events_of;
use crate::listing::list_plays;
use crate::making::{Made, have_printed, make_plays, make_rounds};
use crate::stage::Stage;
use std::alloc::{AllocError, Global};
use txs_code_meaning::Verified;
use txs_machine::Repeated;
use txs_world_protocol::Report;

/// The plays of the run that make a step, with how many each makes. None where a play names no actor, or the run isn't the report's.
fn plays_of(
    alloc: Global,
    code: &Verified,
    plays: &[Repeated],
    max_steps: u64,
    report: &Report,
) -> Result<Option<Vec<Made>>, AllocError>
    requires few { length code.now.threads + length code.now.cells ≤ 65535 }
    ensures { IfOk result (λ o. IfSome o (λ made. AreMade code.now made.items)) }
{
    let mut stage = Stage::open(alloc, code, max_steps)?;
    let mut made = Vec::new(alloc);
    if !make_plays(&mut stage, code, plays, max_steps, &mut made)? {
        return Ok(None);
    }
    if !make_rounds(&mut stage, code, report, max_steps, &mut made)? {
        return Ok(None);
    }
    if !have_printed(&stage, report) {
        return Ok(None);
    }
    Ok(Some(made))
}

/// The events of the run whose plays make so many steps each.
fn events_of(
    alloc: Global,
    code: &Verified,
    made: &[Made],
    max_steps: u64,
) -> Result<Vec<Noted>, AllocError>
    requires few { length code.now.threads + length code.now.cells ≤ 65535 }
    requires made { AreMade code.now made.now }
{
    let mut stage = Stage::open(alloc, code, max_steps)?;
    let mut notes = Vec::new(alloc);
    list_plays(&mut stage, code, made, max_steps, &mut notes)?;
    Ok(notes)
}

/// The events of all books in the order of the run, which is made again by these plays and then in rounds. Each actor makes `max_steps` steps at most.
/// Beside an event is where in the script its actor was when it asked for it, and how many bytes the actor had printed before. An agent whose
/// action is over is at no place. The answer is none where a play names no actor, or the run isn't the one that the report is of.
///
/// # Errors
/// `AllocError` where there was no memory for the run or for the list.
pub fn replay(
    alloc: Global,
    code: &Verified,
    plays: &[Repeated],
    max_steps: u64,
    report: &Report,
) -> Result<Option<Vec<Noted>>, AllocError>
    requires few { length code.now.threads + length code.now.cells ≤ 65535 }
    ensures traced { IfOk result (λ o. IfSome o (λ notes. AreTraced report.now notes.items)) }
    ensures in_order { IfOk result (λ o. IfSome o (λ notes. AreInOrder report.now notes.items)) }
    ensures printed { IfOk result (λ o. IfSome o (λ notes. ArePrinted report.now notes.items)) }
{
    let Some(made) = plays_of(alloc, code, plays, max_steps, report)? else {
        return Ok(None);
    };
    let notes = events_of(alloc, code, made.as_slice(), max_steps)?;
    if !are_events_of(alloc, report, notes.as_slice())? {
        return Ok(None);
    }
    Ok(Some(notes))
}
