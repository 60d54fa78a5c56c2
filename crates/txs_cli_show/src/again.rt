//! A run by a list of plays, with its events in their order.

ghost use Rattle.std.specs.Prelude.{◌≡◌, ◌≤◌, ◌+◌, length, IfOk, IfSome};
ghost use Rattle.txs_code_decode.specs.CodeForm.{HasForm};
ghost use Rattle.txs_machine.specs.Schedule.{spread};
ghost use Rattle.txs_cli_show.specs.Shown.{IsListed, IsReported, IsShown};

use std::alloc::{AllocError, Global};
use txs_cli::run::run_plays;
use txs_cli_events::{Noted, Replayed, replay};
use txs_cli_report::{ListError, read_plays};
use txs_code_meaning::Verified;
use txs_machine::{Repeated, ScheduleError};
use txs_world_protocol::Report;

/// The report of a run that is over, and its events in their order.
#[derive(Drop)]
pub(crate) struct Shown {
    pub(crate) report: Report,
    pub(crate) notes: Vec<Noted>,
}

impl Shown {
    /// The run, of this code.
    pub(crate) fn of<'a>(&'a self, code: &'a Verified) -> Replayed<'a>
        ensures cells { result.cells.now ≡ code.now.cells }
        ensures report { result.report.now ≡ self.now.report }
        ensures notes { result.notes.now ≡ self.now.notes.items }
    {
        Replayed {
            cells: code.code().cells(),
            report: &self.report,
            notes: self.notes.as_slice(),
        }
    }
}

/// The report of the run by these plays and then in rounds. None where a play names no actor.
fn report_by(
    alloc: Global,
    code: &Verified,
    plays: &[Repeated],
    steps: u64,
) -> Result<Option<Report>, AllocError>
    requires form { HasForm code.now }
    ensures { IfOk result (λ o. IfSome o (λ r. IsReported code.now (spread plays.now) steps r)) }
{
    match run_plays(alloc, code, plays, steps) {
        Ok((shared, entries)) => {
            let report = entries.into_report(alloc, shared)?;
            Ok(Some(report))
        }
        Err(ScheduleError::NoActor) => Ok(None),
        Err(ScheduleError::Memory) => Err(AllocError),
    }
}

/// The run by these plays and then in rounds, with its events in their order. None where a play names no actor, or where the events have no order.
fn run_in_order(
    alloc: Global,
    code: &Verified,
    plays: &[Repeated],
    steps: u64,
) -> Result<Option<Shown>, AllocError>
    requires form { HasForm code.now }
    ensures { IfOk result (λ o. IfSome o (λ s. IsShown code.now (spread plays.now) steps s.report s.notes.items)) }
{
    let Some(report) = report_by(alloc, code, plays, steps)? else {
        return Ok(None);
    };
    match replay(alloc, code, plays, steps, &report)? {
        Some(notes) => Ok(Some(Shown { report, notes })),
        None => Ok(None),
    }
}

/// The run by this list of plays and then in rounds, with its events in their order. None where the list isn't one, where a play names no actor, or where
/// the events have no order.
pub(crate) fn run_listed(
    alloc: Global,
    code: &Verified,
    list: &str,
    steps: u64,
) -> Result<Option<Shown>, AllocError>
    requires form { HasForm code.now }
    ensures { IfOk result (λ o. IfSome o (λ s. IsListed code.now list.now steps s.report s.notes.items)) }
{
    match read_plays(alloc, list) {
        Ok(plays) => run_in_order(alloc, code, plays.as_slice(), steps),
        Err(ListError::Wrong(_)) => Ok(None),
        Err(ListError::Memory) => Err(AllocError),
    }
}
