// A script with the report of its run, and what an audit answers of it.
ghost use Rattle.std.specs.Prelude.{◌≡◌, ◌≤◌, ◌+◌, length, IfOk};
ghost use Rattle.txs_machine.specs.RunOver.{IsStateOf};
ghost use Rattle.txs_theorem_runs.specs.Shared.{untouched};
ghost use Rattle.txs_world_shared.specs.SharedState.{shared_of};

use std::alloc::{AllocError, Global};
use std::mem;
use std::sync::Wait;
use std::thread::Threads;
use txs_audit::audit;
use txs_audit_book::{AuditError, Terms, Verdict};
use txs_code_meaning::Verified;
use txs_compile::compile;
use txs_machine::{Play, run_schedule};
use txs_tree_meaning::Program;
use txs_world_protocol::Report;
use txs_world_shared::SharedState;

/// A program, a report of its run, and how many steps each actor might make.
#[derive(Drop)]
pub struct Case {
    pub program: Program,
    pub report: Report,
    pub steps: u64,
}

impl Case {
    /// What the run was to do.
    pub fn terms(&self) -> Terms {
        Terms {
            finishes: true,
            steps: self.steps,
        }
    }
}

/// The state of the code's cells, with empty books.
fn open_state(alloc: Global, code: &Verified) -> Result<SharedState, AllocError>
    requires few { length code.now.threads + length code.now.cells ≤ 65535 }
    ensures of { IfOk result (λ s. IsStateOf code.now s) }
    ensures unused { IfOk result (λ s. shared_of s ≡ untouched code.now.cells) }
{
    let code = code.code();
    SharedState::open(alloc, code.cells(), code.threads().len() as u16)
}

/// The report of a run by these plays, and then in rounds, where each actor makes at most so many steps.
fn reported(alloc: Global, code: &Verified, plays: &[Play], steps: u64) -> Option<Report>
    requires few { length code.now.threads + length code.now.cells ≤ 65535 }
{
    let Ok(mut shared) = open_state(alloc, code) else {
        return None;
    };
    let Ok(entries) = run_schedule(alloc, code, plays, steps, true, &mut shared) else {
        return None;
    };
    entries.into_report(alloc, shared).ok()
}

/// The case of a script and these plays, where each actor makes at most so many steps.
pub fn case_within(alloc: Global, script: &str, plays: &[Play], steps: u64) -> Option<Case> {
    let Ok((program, code)) = compile(alloc, script.as_bytes()) else {
        return None;
    };
    let report = reported(alloc, &code, plays, steps);
    drop(code);
    match report {
        Some(report) => Some(Case {
            program,
            report,
            steps,
        }),
        None => None,
    }
}

/// The case of a script and these plays, with steps enough.
pub fn case_of(alloc: Global, script: &str, plays: &[Play]) -> Option<Case> {
    case_within(alloc, script, plays, 100_000)
}

/// The report of the first script's run, with the program of the second.
pub fn case_by(alloc: Global, ran: &str, text: &str) -> Option<Case> {
    let mut case = case_of(alloc, ran, &[])?;
    let Ok((program, code)) = compile(alloc, text.as_bytes()) else {
        return None;
    };
    drop(code);
    drop(mem::replace(&mut case.program, program));
    Some(case)
}

/// Whether an audit by so many workers answers this, where each loop makes at most `turns` turns.
pub fn answers<R: Threads + Wait + Sync>(
    rt: &R,
    alloc: Global,
    case: &Case,
    workers: u16,
    turns: u32,
    wanted: Result<Verdict, AuditError>,
) -> bool {
    let terms = case.terms();
    audit(
        rt,
        alloc,
        &case.program,
        &case.report,
        terms,
        workers,
        turns,
    ) == wanted
}

/// Whether it answers this by one worker, by two and by five.
pub fn always_answers<R: Threads + Wait + Sync>(
    rt: &R,
    alloc: Global,
    case: &Case,
    turns: u32,
    wanted: Verdict,
) -> bool {
    answers(rt, alloc, case, 1, turns, Ok(wanted))
        && answers(rt, alloc, case, 2, turns, Ok(wanted))
        && answers(rt, alloc, case, 5, turns, Ok(wanted))
}

/// Whether it does of the report of a script's run by these plays.
pub fn run_is<R: Threads + Wait + Sync>(
    rt: &R,
    alloc: Global,
    script: &str,
    plays: &[Play],
    turns: u32,
    wanted: Verdict,
) -> bool {
    let Some(case) = case_of(alloc, script, plays) else {
        return false;
    };
    let is = always_answers(rt, alloc, &case, turns, wanted);
    drop(case);
    is
}
