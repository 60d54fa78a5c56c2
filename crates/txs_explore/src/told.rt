//! What is told of a report: whether it has the ending of a way, and the run of a way with its report.

ghost use Rattle.std.specs.Prelude.{◌≡◌, ◌≤◌, ◌<◌, ◌+◌, ◌++◌, ◌∷◌, [], length, map, take, true, IfOk, IfSome, IsTrue, OnOk, Some};
ghost use Rattle.txs_value_data.specs.Places.{nth};
ghost use Rattle.txs_world_book.specs.Book.{has_cell};
ghost use Rattle.txs_world_book.specs.Served.{cells_of};
ghost use Rattle.txs_world_shared.specs.Parts.{values_of, fault_of, with_fault, faults_of};
ghost use Rattle.txs_machine.specs.Schedule.{spread};
ghost use Rattle.txs_machine.specs.Scheduled.{IsScheduledRun};
ghost use Rattle.txs_machine.specs.declared.schedule.Play.TheVariants as play;
ghost use Rattle.txs_explore.specs.Ways.{as_end, as_ending};
ghost use Rattle.txs_explore.specs.Reported.{entries_of, entry_end, plays_of, reported};

use crate::ending::{End, Ending};
use crate::ways::Way;
use std::alloc::{AllocError, Global};
use txs_code_meaning::Verified;
use txs_machine::{ActorReport, Entries, Play, Repeated, ScheduleError, SharedState, run_repeated};
use txs_value_cell::CellDefinition;
use txs_value_data::{CellId, CellKind, Fault, Value};
use txs_world_protocol::same_value;

/// Whether an entry says of its actor what is told here.
fn has_end(ran: &ActorReport, end: &End) -> bool
    ensures { IsTrue result → as_end end.now ≡ entry_end ran.now }
{
    ran.outcome == end.outcome && ran.printed.as_slice() == end.printed.as_slice()
}

/// The entry of the actor with this number.
fn entry_at(report: &Entries, k: usize) -> &ActorReport
    requires { k < length report.now.threads.items + length report.now.agents.items }
    ensures { nth (entries_of report.now) k ≡ Some result.now }
{
    let threads = report.threads.len();
    if k < threads {
        &report.threads[k]
    } else {
        &report.agents[k - threads]
    }
}

/// Whether the entries say of all actors what is told here.
fn have_ends(report: &Entries, ends: &[End]) -> bool
    ensures { IsTrue result → map as_end ends.now ≡ map entry_end (entries_of report.now) }
{
    if ends.len() != report.threads.len() + report.agents.len() {
        return false;
    }
    for i in 0..ends.len() {
        if !has_end(entry_at(report, i), &ends[i]) {
            return false;
        }
    }
    true
}

/// Whether these are the newest values of the cells.
fn has_values(shared: &SharedState, values: &[Value]) -> bool
    requires few { length shared.now.cells ≤ 65535 }
    ensures { IsTrue result → values.now ≡ values_of shared.now }
{
    let cells = shared.cells();
    if cells.len() != values.len() {
        return false;
    }
    for i in 0..cells.len() {
        let id = CellId {
            kind: cells[i].kind,
            number: i as u16,
        };
        if !same_value(shared.newest(id), &values[i]) {
            return false;
        }
    }
    true
}

/// Where the faults from this index on begin with what the cell with this number adds: the index behind that.
fn with_faults_of(
    shared: &SharedState,
    cell: &CellDefinition,
    number: u16,
    failed: &[Option<Fault>],
    at: usize,
) -> Option<usize>
    requires there { has_cell (cells_of shared.now.cells) (record { kind = cell.now.kind; number = number }) ≡ true }
    requires within { at ≤ length failed.now }
    ensures within { IfSome result (λ next. next ≤ length failed.now) }
    ensures taken { IfSome result (λ next. take next failed.now ≡ take at failed.now ++ with_fault (fault_of shared.now) cell.now.kind number []) }
{
    let CellKind::Agent = cell.kind else {
        return Some(at);
    };
    if at >= failed.len() {
        return None;
    }
    let agent = CellId {
        kind: CellKind::Agent,
        number,
    };
    if failed[at] != shared.failure(agent) {
        return None;
    }
    Some(at + 1)
}

/// Whether these are the faults of the agents.
fn has_faults(shared: &SharedState, failed: &[Option<Fault>]) -> bool
    requires few { length shared.now.cells ≤ 65535 }
    ensures { IsTrue result → failed.now ≡ faults_of shared.now }
{
    let cells = shared.cells();
    let mut at = 0;
    for i in 0..cells.len() {
        match with_faults_of(shared, &cells[i], i as u16, failed, at) {
            Some(next) => at = next,
            None => return false,
        }
    }
    at == failed.len()
}

/// Whether this is the end of the run that left this state and these entries.
pub fn has_ending(shared: &SharedState, report: &Entries, ending: &Ending) -> bool
    requires few { length shared.now.cells ≤ 65535 }
    ensures { IsTrue result → as_ending ending.now ≡ reported shared.now report.now }
{
    if !have_ends(report, ending.actors.as_slice()) {
        return false;
    }
    if !has_values(shared, ending.cells.as_slice()) {
        return false;
    }
    has_faults(shared, ending.failed.as_slice())
}

/// How often one play is told in a row.
const MOST_TIMES: u32 = 100_000;

/// Whether one more ask of this actor is one more of this play.
fn is_more_of(last: &Repeated, k: u16) -> bool
    ensures same { result ≡ true → last.now.play ≡ play.Ask k }
    ensures few { result ≡ true → last.now.times < 100000 }
{
    match last.play {
        Play::Ask(j) => j == k && last.times < MOST_TIMES,
        Play::Turn(_) => false,
    }
}

/// Adds an ask of this actor.
fn add_ask(runs: &mut Vec<Repeated>, k: u16) -> Result<(), AllocError>
    ensures { OnOk result (spread runs.new.items ≡ spread runs.old.items ++ play.Ask k ∷ []) }
{
    let once = Repeated {
        play: Play::Ask(k),
        times: 1,
    };
    let Some(last) = runs.pop() else {
        runs.push(once)?;
        return Ok(());
    };
    if is_more_of(&last, k) {
        runs.push(Repeated {
            play: last.play,
            times: last.times + 1,
        })?;
        return Ok(());
    }
    runs.push(last)?;
    runs.push(once)?;
    Ok(())
}

/// Asks of these actors, one after another. Those of the same actor in a row are one entry.
///
/// # Errors
/// `AllocError` where there was no memory for them.
pub fn repeated(alloc: Global, asks: &[u16]) -> Result<Vec<Repeated>, AllocError>
    ensures { IfOk result (λ runs. spread runs.items ≡ plays_of asks.now) }
{
    let mut runs = Vec::new(alloc);
    for k in asks {
        add_ask(&mut runs, *k)?;
    }
    Ok(runs)
}

/// The run by the asks of a way, and by rounds behind them, which change nothing where the run is over. There is none where it hasn't the way's ending.
///
/// # Errors
/// `NoActor` where an ask is of no actor; `Memory`.
pub fn run_way(
    alloc: Global,
    code: &Verified,
    way: &Way,
    max_steps: u64,
) -> Result<Option<(SharedState, Entries)>, ScheduleError>
    requires few { length code.now.threads + length code.now.cells ≤ 65535 }
    ensures { IfOk result (λ o. IfSome o (λ ran. IsScheduledRun code.now max_steps (plays_of way.now.asks.items) true ran.0 ran.1.threads.items ran.1.agents.items × (as_ending way.now.ending ≡ reported ran.0 ran.1))) }
{
    let plain = code.code();
    let threads = plain.threads().len() as u16;
    let mut shared = SharedState::open(alloc, plain.cells(), threads)?;
    let plays = repeated(alloc, way.asks.as_slice())?;
    let report = run_repeated(alloc, code, plays.as_slice(), max_steps, true, &mut shared)?;
    if !has_ending(&shared, &report, &way.ending) {
        return Ok(None);
    }
    Ok(Some((shared, report)))
}
