//! The outcomes of an exploration, each once, and their status.

ghost use Rattle.std.specs.Prelude.{◌≡◌, ◌↔◌, ◌&&◌, false, nat_lt, IsTrue, OnOk};
ghost use Rattle.txs_cli_explore.specs.Outcomes.{Adds, AreSame, IsListed, IsNew, highest, search_status, status_of};

use std::alloc::AllocError;
use txs_cli_report::told::{DONE, FAILED, SPENT};

/// An outcome of a script.
#[derive(Drop)]
pub struct Outcome {
    /// The list of plays that comes to it, as it is written behind `--turns`.
    pub list: Vec<u8>,
    /// The lines of the standard output, and behind them those of the standard error.
    pub lines: Vec<u8>,
    pub status: u8,
}

/// Whether two outcomes have the same lines and the same status.
fn are_same(a: &Outcome, b: &Outcome) -> bool
    ensures { IsTrue result ↔ AreSame a.now b.now }
{
    a.status == b.status && a.lines.as_slice() == b.lines.as_slice()
}

/// Whether one of these outcomes is the same.
fn is_listed(outcomes: &[Outcome], outcome: &Outcome) -> bool
    ensures listed { IsTrue result → IsListed outcome.now outcomes.now }
    ensures new { result ≡ false → IsNew outcome.now outcomes.now }
{
    for o in outcomes {
        if are_same(o, outcome) {
            return true;
        }
    }
    false
}

/// Lists an outcome, unless the same is listed.
pub(crate) fn add_outcome(outcomes: &mut Vec<Outcome>, outcome: Outcome) -> Result<(), AllocError>
    ensures { OnOk result (Adds outcome outcomes.old.items outcomes.new.items) }
{
    if is_listed(outcomes.as_slice(), &outcome) {
        drop(outcome);
        return Ok(());
    }
    outcomes.push(outcome)?;
    Ok(())
}

/// The status of a search that went everywhere or didn't, where outcomes that were to be the same differ or don't.
fn search_status(whole: bool, differ: bool) -> u8
    ensures { result ≡ search_status whole differ }
{
    if !whole {
        return SPENT;
    }
    if differ { FAILED } else { DONE }
}

/// Whether so many outcomes differ that were to be the same, or weren't.
fn differ(same: bool, outcomes: usize) -> bool
    ensures { result ≡ (same && nat_lt 1 outcomes) }
{
    same && outcomes > 1
}

/// The highest of this status and those of these outcomes.
fn highest(least: u8, outcomes: &[Outcome]) -> u8
    ensures { result ≡ highest least outcomes.now }
{
    let mut status = least;
    for outcome in outcomes {
        status = status.max(outcome.status);
    }
    status
}

/// The highest status of the search and of its outcomes.
pub(crate) fn status_of(outcomes: &[Outcome], whole: bool, same: bool) -> u8
    ensures { result ≡ status_of whole same outcomes.now }
{
    highest(search_status(whole, differ(same, outcomes.len())), outcomes)
}
