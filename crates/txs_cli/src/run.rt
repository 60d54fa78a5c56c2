//! Runs of code: by a list of plays and then in rounds, or by workers.

ghost use Rattle.std.specs.Prelude.{◌≡◌, ◌≤◌, length, [], true, false, IsNone, IsTrue, IfOk, IfErr, IfSome, OnErr};
ghost use Rattle.txs_code_decode.specs.CodeForm.{HasForm};
ghost use Rattle.txs_machine.specs.Agents.{actors_of, agents_of};
ghost use Rattle.txs_machine.specs.RunOver.{IsStateOf};
ghost use Rattle.txs_machine.specs.Schedule.{all_named, spread};
ghost use Rattle.txs_machine.specs.declared.run_error.RunError.TheVariants.{Memory};
ghost use Rattle.txs_machine.specs.declared.schedule.ScheduleError.TheVariants.{NoActor};
ghost use Rattle.txs_theorem_runs.specs.Shared.{untouched};
ghost use Rattle.txs_world_shared.specs.SharedState.{shared_of};
ghost use Rattle.txs_cli.specs.Runner.{FailsAs, HasFailed, IsRunnable, IsWorked, RunsLawfully};
ghost use Rattle.txs_cli.specs.Runs.{HasNoRun, IsPlayed, IsRunIn, auditors, way_of};

use std::alloc::{AllocError, Global};
use txs_cli_args::RunOptions;
use txs_code_meaning::Verified;
use txs_machine::{Entries, Repeated, RunError, ScheduleError, run_repeated};
use txs_value_cell::count_agents;
use txs_world_shared::SharedState;

/// How many workers audit a run by turns.
const AUDIT_WORKERS: usize = 4;

/// A run by so many workers, or its audit.
#[derive(Clone, Copy)]
pub struct Working {
    /// How many workers run it, or audit it.
    pub workers: usize,
    pub options: RunOptions,
}

/// A list of plays, and how it is written.
#[derive(Clone, Copy)]
pub struct Listed<'a> {
    pub plays: &'a [Repeated],
    pub text: &'a str,
}

/// How code runs.
#[derive(Clone, Copy)]
pub enum Way<'a> {
    /// By these plays and then in rounds.
    Turns(Listed<'a>),
    /// By so many workers.
    Workers(usize),
}

/// Why there is no run.
#[derive(Clone, Copy)]
pub enum NoRun<'a> {
    /// A play of this list names no actor.
    NoActor(Listed<'a>),
    Failed(RunError),
}

impl Way<'_> {
    /// How many workers audit the run's report.
    pub(crate) fn auditors(self) -> usize
        ensures { result ≡ auditors (way_of self.entry) }
    {
        match self {
            Way::Turns(_) => AUDIT_WORKERS,
            Way::Workers(count) => count,
        }
    }
}

/// The state of the code's cells for its threads, with empty books.
fn open_state(alloc: Global, code: &Verified) -> Result<SharedState, AllocError>
    requires few { length code.now.threads ≤ 64 }
    ensures of { IfOk result (λ s. IsStateOf code.now s) }
    ensures unused { IfOk result (λ s. shared_of s ≡ untouched code.now.cells) }
{
    let code = code.code();
    SharedState::open(alloc, code.cells(), code.threads().len() as u16)
}

/// Runs all threads and agents of the code over this state, by these plays and then in rounds. None where a play names no actor, and nothing ran.
pub fn run_over(
    alloc: Global,
    code: &Verified,
    plays: &[Repeated],
    steps: u64,
    shared: &mut SharedState,
) -> Result<Option<Entries>, AllocError>
    requires runnable { IsRunnable code.now }
    requires of { IsStateOf code.now shared.old }
    requires unused { shared_of shared.old ≡ untouched code.now.cells }
    ensures lawful { IfOk result (λ o. IfSome o (λ report. IsWorked code.now steps shared.new report)) }
    ensures played { IfOk result (λ o. IfSome o (λ report. IsPlayed (spread plays.now) code.now steps shared.new report)) }
    ensures unnamed { IfOk result (λ o. IsNone o → all_named (actors_of code.now) (spread plays.now) ≡ false) }
    // For want of memory only where each play names an actor.
    ensures named { OnErr result (all_named (actors_of code.now) (spread plays.now) ≡ true) }
{
    match run_repeated(alloc, code, plays, steps, true, shared) {
        Ok(report) => Ok(Some(report)),
        Err(ScheduleError::NoActor) => Ok(None),
        Err(ScheduleError::Memory) => Err(AllocError),
    }
}

/// Runs all threads and agents of the code by these plays and then in rounds.
///
/// # Errors
/// `NoActor` where a play names no actor, and nothing ran; `Memory`.
pub fn run_plays(
    alloc: Global,
    code: &Verified,
    plays: &[Repeated],
    steps: u64,
) -> Result<(SharedState, Entries), ScheduleError>
    requires runnable { IsRunnable code.now }
    requires few { length code.now.threads ≤ 64 }
    ensures lawful { IfOk result (λ ran. IsWorked code.now steps ran.0 ran.1) }
    ensures played { IfOk result (λ ran. IsPlayed (spread plays.now) code.now steps ran.0 ran.1) }
    ensures unnamed { IfErr result (λ e. e ≡ NoActor → all_named (actors_of code.now) (spread plays.now) ≡ false) }
{
    let mut shared = open_state(alloc, code)?;
    match run_over(alloc, code, plays, steps, &mut shared)? {
        Some(report) => Ok((shared, report)),
        None => Err(ScheduleError::NoActor),
    }
}

/// Whether the code has one actor at most, a thread: no agent.
fn is_alone(code: &Verified) -> bool
    ensures threads { IsTrue result → length code.now.threads ≤ 1 }
    ensures agents { IsTrue result → agents_of code.now ≡ [] }
{
    let code = code.code();
    code.threads().len() <= 1 && count_agents(code.cells()) == 0
}

/// Runs all threads and agents of the code in rounds.
fn run_in_turn(
    alloc: Global,
    code: &Verified,
    steps: u64,
) -> Result<(SharedState, Entries), RunError>
    requires runnable { IsRunnable code.now }
    requires few { length code.now.threads ≤ 64 }
    ensures lawful { RunsLawfully code.now steps result }
    ensures refused { IfErr result (λ e. e ≡ Memory) }
{
    match run_plays(alloc, code, &[], steps) {
        Ok(ran) => Ok(ran),
        Err(_) => Err(RunError::Memory),
    }
}

/// Runs all threads and agents of the code by the runner; but one thread alone goes on in turn, which is the same run without a worker.
pub(crate) fn run_all<
    X: Fn(Global, &Verified, usize, u64) -> Result<(SharedState, Entries), RunError>,
>(
    alloc: Global,
    runner: &X,
    code: &Verified,
    workers: usize,
    steps: u64,
) -> Result<(SharedState, Entries), RunError>
    requires call { (a : _) (code : _) (n : _) (steps : _) → IsRunnable code.now → X.pre runner.now a code n steps }
    requires ran { (a : _) (code : _) (n : _) (steps : _) (r : _) → X.post runner.now a code n steps r → RunsLawfully code.now steps r }
    requires runnable { IsRunnable code.now }
    ensures lawful { RunsLawfully code.now steps result }
    // Where it failed, but for want of memory, the runner has, with these workers.
    ensures failed { IfErr result (FailsAs (HasFailed (X.post runner.now) code.now workers steps)) }
{
    if is_alone(code) {
        return run_in_turn(alloc, code, steps);
    }
    runner(alloc, code, workers, steps)
}

/// Runs all threads and agents of the code in this way, of which each makes so many steps at most.
pub(crate) fn run<
    'a,
    X: Fn(Global, &Verified, usize, u64) -> Result<(SharedState, Entries), RunError>,
>(
    alloc: Global,
    runner: &X,
    code: &Verified,
    way: Way<'a>,
    steps: u64,
) -> Result<(SharedState, Entries), NoRun<'a>>
    requires call { (a : _) (code : _) (n : _) (steps : _) → IsRunnable code.now → X.pre runner.now a code n steps }
    requires ran { (a : _) (code : _) (n : _) (steps : _) (r : _) → X.post runner.now a code n steps r → RunsLawfully code.now steps r }
    requires form { HasForm code.now }
    ensures lawful { IfOk result (λ ran. IsWorked code.now steps ran.0 ran.1) }
    ensures so { IfOk result (λ ran. IsRunIn (way_of way.entry) code.now steps ran.0 ran.1) }
    ensures none { IfErr result (λ e. HasNoRun (HasFailed (X.post runner.now)) (way_of way.entry) code.now steps e) }
{
    match way {
        Way::Turns(list) => match run_plays(alloc, code, list.plays, steps) {
            Ok(ran) => Ok(ran),
            Err(ScheduleError::NoActor) => Err(NoRun::NoActor(list)),
            Err(ScheduleError::Memory) => Err(NoRun::Failed(RunError::Memory)),
        },
        Way::Workers(count) => match run_all(alloc, runner, code, count, steps) {
            Ok(ran) => Ok(ran),
            Err(error) => Err(NoRun::Failed(error)),
        },
    }
}
