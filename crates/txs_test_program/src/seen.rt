// What the tests look at: a script's run by workers, and a text of what it leaves.
ghost use Rattle.std.specs.Prelude.{◌≤◌, ◌+◌, length, IfOk};

use std::alloc::{AllocError, Global};
use std::sync::Wait;
use std::thread::Threads;
use txs_code_meaning::Verified;
use txs_compile::compile;
use txs_machine::ActorReport;
use txs_threads::{Gate, Gathered, RunError, run_threads};
use txs_value_data::{CellId, write_text};
use txs_world_protocol::Outcome;
use txs_world_shared::SharedState;

/// The code of a script. No test has one that isn't compiled: that counts as want of memory.
pub fn code_of(alloc: Global, script: &str) -> Result<Verified, RunError>
    ensures few { IfOk result (λ code. length code.threads + length code.cells ≤ 65535) }
{
    let Ok((program, code)) = compile(alloc, script.as_bytes()) else {
        return Err(RunError::Memory);
    };
    drop(program);
    Ok(code)
}

/// A script's run by so many workers.
pub fn ran<R: Threads + Wait + Sync, G: Gate>(
    rt: &R,
    alloc: Global,
    script: &str,
    workers: usize,
    max_steps: u64,
    gate: &G,
) -> Result<Gathered, RunError> {
    let code = code_of(alloc, script)?;
    let run = run_threads(rt, alloc, &code, workers, max_steps, gate);
    drop(code);
    run
}

/// Adds what each of them printed, and behind it a word for how it ended: `spent` where it made as many steps as it may, and `idle` where it goes on.
fn add_ends(out: &mut Vec<u8>, reports: &[ActorReport], max_steps: u64) -> Result<(), AllocError> {
    for report in reports {
        out.extend_from_slice(report.printed.as_slice())?;
        let word = match report.outcome {
            None => "idle ",
            Some(Outcome::Done) => "done ",
            Some(Outcome::Failed(_)) => "failed ",
            Some(Outcome::StepsSpent) if report.steps == max_steps => "spent ",
            Some(_) => "stopped ",
        };
        out.extend_from_slice(word.as_bytes())?;
    }
    Ok(())
}

/// Adds what all cells hold, in the order of the script, with a space behind each.
fn add_cells(out: &mut Vec<u8>, shared: &SharedState) -> Result<(), AllocError> {
    let cells = shared.cells();
    for (i, cell) in cells.iter().enumerate() {
        if let Ok(number) = u16::try_from(i) {
            let id = CellId {
                kind: cell.kind,
                number,
            };
            write_text(shared.newest(id), out)?;
            out.push(b' ')?;
        }
    }
    Ok(())
}

/// Whether a run, in which an actor makes so many steps at most, left this text: what each thread printed with a word for how it ended, the
/// same of each agent, and what each cell holds.
pub fn has_left(alloc: Global, run: &Gathered, max_steps: u64, text: &str) -> bool {
    let mut out = Vec::new(alloc);
    add_ends(&mut out, run.report.threads.as_slice(), max_steps).is_ok()
        && add_ends(&mut out, run.report.agents.as_slice(), max_steps).is_ok()
        && add_cells(&mut out, &run.shared).is_ok()
        && out.as_slice() == text.as_bytes()
}

/// What is left where no run can be made by so many workers.
pub const NO_RUN: &str = "no run";

/// Whether a script's run by so many workers leaves this text, as `has_left` says, or is refused, for `NO_RUN`.
pub fn leaves<R: Threads + Wait + Sync, G: Gate>(
    rt: &R,
    alloc: Global,
    script: &str,
    workers: usize,
    max_steps: u64,
    gate: &G,
    text: &str,
) -> bool {
    match ran(rt, alloc, script, workers, max_steps, gate) {
        Ok(run) => {
            let left = has_left(alloc, &run, max_steps, text);
            drop(run);
            left
        }
        Err(e) => e == RunError::NoThread && text == NO_RUN,
    }
}
