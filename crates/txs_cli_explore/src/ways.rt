//! The outcomes of ways: each way is run again by its list of plays, and what the run tells is an outcome.

ghost use Rattle.std.specs.Prelude.{◌≡◌, ◌++◌, Ok, Some, IfOk, IfSome, OnOk, true};
ghost use Rattle.txs_audit_book.specs.Answered.{finishing};
ghost use Rattle.txs_cli.specs.Runner.{IsWorked};
ghost use Rattle.txs_cli.specs.Runs.{against, parts_in};
ghost use Rattle.txs_cli_audit.specs.Audit.{HasNoAnswer, IsRight};
ghost use Rattle.txs_cli_explore.specs.Explored.{ComesBy, OutcomeTells, WayHas, WayTells, outcome_options};
ghost use Rattle.txs_cli_explore.specs.Outcomes.{AreOutcomes};
ghost use Rattle.txs_cli_report.specs.Plays.{plays_in};
ghost use Rattle.txs_cli_report.specs.Lent.{script_of, told_of};
ghost use Rattle.txs_cli_report.specs.Lines.{all_printed};
ghost use Rattle.txs_code_decode.specs.CodeForm.{HasForm};
ghost use Rattle.txs_explore.specs.Reported.{plays_of, reported};
ghost use Rattle.txs_explore.specs.Ways.{as_ending};
ghost use Rattle.txs_machine.specs.Schedule.{spread};
ghost use Rattle.txs_machine.specs.Scheduled.{IsScheduledRun};
ghost use Rattle.txs_machine.specs.declared.schedule.Play.TheVariants as play;

use crate::outcomes::{Outcome, add_outcome};
use std::alloc::{AllocError, Global};
use txs_audit_book::{AuditError, Terms, Verdict};
use txs_cli::run::{Working, run_plays};
use txs_cli::tell;
use txs_cli_args::{Exploring, RunOptions};
use txs_cli_report::explain::Script;
use txs_cli_report::told::Told;
use txs_cli_report::{ListError, read_plays, write_plays};
use txs_code_meaning::Verified;
use txs_explore::{Way, has_ending, repeated};
use txs_machine::{Entries, Play, Repeated};
use txs_tree_meaning::Program;
use txs_world_protocol::{ActorReport, Report};
use txs_world_shared::SharedState;

/// How many workers audit.
const AUDIT_WORKERS: usize = 4;

/// Whether a play is for one turn of this actor.
fn is_turn(made: Play, actor: u16) -> bool
    ensures { result ≡ true → made ≡ play.Turn actor }
{
    match made {
        Play::Turn(k) => k == actor,
        Play::Ask(_) => false,
    }
}

/// Whether a play is for an ask of this actor.
fn is_ask(made: Play, actor: u16) -> bool
    ensures { result ≡ true → made ≡ play.Ask actor }
{
    match made {
        Play::Turn(_) => false,
        Play::Ask(k) => k == actor,
    }
}

/// Whether two plays are the same.
fn same_play(a: Play, b: Play) -> bool
    ensures { result ≡ true → a ≡ b }
{
    match b {
        Play::Turn(k) => is_turn(a, k),
        Play::Ask(k) => is_ask(a, k),
    }
}

/// Whether two plays are the same, and as often.
fn same_times(a: Repeated, b: Repeated) -> bool
    ensures { result ≡ true → a ≡ b }
{
    if a.times != b.times {
        return false;
    }
    same_play(a.play, b.play)
}

/// Whether two lists of plays are the same.
fn same_plays(a: &[Repeated], b: &[Repeated]) -> bool
    ensures { result ≡ true → a.now ≡ b.now }
{
    if a.len() != b.len() {
        return false;
    }
    for i in 0..a.len() {
        if !same_times(a[i], b[i]) {
            return false;
        }
    }
    true
}

/// Whether a text is read as these plays.
fn is_list_of(alloc: Global, list: &[u8], plays: &[Repeated]) -> Result<bool, AllocError>
    ensures { IfOk result (λ b. b ≡ true → plays_in list.now ≡ Ok (spread plays.now)) }
{
    let Ok(text) = str::from_utf8(list) else {
        return Ok(false);
    };
    match read_plays(alloc, text) {
        Ok(again) => Ok(same_plays(again.as_slice(), plays)),
        Err(ListError::Wrong(_)) => Ok(false),
        Err(ListError::Memory) => Err(AllocError),
    }
}

/// The list of these plays, as it is written. None where it isn't read as these plays.
fn list_of(alloc: Global, plays: &[Repeated]) -> Result<Option<Vec<u8>>, AllocError>
    ensures { IfOk result (λ l. IfSome l (λ list. plays_in list.items ≡ Ok (spread plays.now))) }
{
    let mut list = Vec::new(alloc);
    write_plays(&mut list, plays)?;
    if is_list_of(alloc, list.as_slice(), plays)? {
        return Ok(Some(list));
    }
    drop(list);
    Ok(None)
}

/// Appends what these actors printed.
fn add_printed(lines: &mut Vec<u8>, actors: &[ActorReport]) -> Result<(), AllocError>
    ensures { OnOk result (lines.new.items ≡ lines.old.items ++ all_printed actors.now) }
{
    for actor in actors {
        lines.extend_from_slice(actor.printed.as_slice())?;
    }
    Ok(())
}

/// All lines: those of the standard output, and behind them those of the standard error.
fn all_lines(alloc: Global, told: &Told) -> Result<Vec<u8>, AllocError>
    ensures { IfOk result (λ lines. lines.items ≡ (told_of told.now).output ++ (told_of told.now).errors) }
{
    let mut lines = Vec::new(alloc);
    add_printed(&mut lines, told.threads.as_slice())?;
    add_printed(&mut lines, told.agents.as_slice())?;
    lines.extend_from_slice(told.output.as_slice())?;
    lines.extend_from_slice(told.errors.as_slice())?;
    Ok(lines)
}

/// The run by these plays of a way. None where it doesn't end as the way says.
fn run_of(
    alloc: Global,
    code: &Verified,
    way: &Way,
    plays: &[Repeated],
    steps: u64,
) -> Result<Option<(SharedState, Entries)>, AllocError>
    requires form { HasForm code.now }
    ensures worked { IfOk result (λ o. IfSome o (λ ran. IsWorked code.now steps ran.0 ran.1)) }
    ensures scheduled { IfOk result (λ o. IfSome o (λ ran. IsScheduledRun code.now steps (spread plays.now) true ran.0 ran.1.threads.items ran.1.agents.items)) }
    ensures ending { IfOk result (λ o. IfSome o (λ ran. as_ending way.now.ending ≡ reported ran.0 ran.1)) }
{
    let Ok(ran) = run_plays(alloc, code, plays, steps) else {
        return Err(AllocError);
    };
    if !has_ending(&ran.0, &ran.1, &way.ending) {
        return Ok(None);
    }
    Ok(Some(ran))
}

/// What a run is told of which is an outcome: its cells, and its audit where one is made.
fn outcome_options(steps: u64, audit: bool) -> RunOptions
    ensures { result ≡ outcome_options steps audit }
{
    RunOptions {
        steps,
        cells: true,
        events: false,
        audit,
    }
}

/// The program against which a run is audited, where an audit is wanted.
fn against(program: &Program, audit: bool) -> Option<&Program>
    ensures { parts_in result ≡ against audit (Some program.now) }
{
    if audit {
        return Some(program);
    }
    None
}

/// What a run that is over tells with its cells, and with its audit where one is wanted.
fn tell_run<A: Fn(Global, &Program, &Report, Terms, usize) -> Result<Verdict, AuditError>>(
    alloc: Global,
    auditor: &A,
    script: Script<'_>,
    compiled: &(Program, Verified),
    ran: (SharedState, Entries),
    exploring: Exploring,
) -> Result<Told, AllocError>
    requires audit { (a : _) (p : _) (r : _) (w : _) (n : _) → A.pre auditor.now a p r w n }
    requires right { (a : _) (p : _) (r : _) (w : _) (n : _) (v : _) → A.post auditor.now a p r w n v → IsRight p.now r.now w v }
    requires form { HasForm compiled.now.1 }
    requires worked { IsWorked compiled.now.1 exploring.steps ran.0 ran.1 }
    ensures { IfOk result (λ t. OutcomeTells exploring.audit (λ p r e. HasNoAnswer (A.post auditor.now) p r (finishing exploring.steps) 4 e) (script_of script.entry) exploring.steps compiled.now.0 compiled.now.1 ran.0 ran.1 (told_of t)) }
{
    let working = Working {
        workers: AUDIT_WORKERS,
        options: outcome_options(exploring.steps, exploring.audit),
    };
    let against = against(&compiled.0, exploring.audit);
    tell::tell_run(alloc, auditor, script, against, &compiled.1, ran, working)
}

/// What the run by these plays of a way tells. None where it doesn't end as the way says.
fn tell_way<A: Fn(Global, &Program, &Report, Terms, usize) -> Result<Verdict, AuditError>>(
    alloc: Global,
    auditor: &A,
    script: Script<'_>,
    compiled: &(Program, Verified),
    way: &Way,
    plays: &[Repeated],
    exploring: Exploring,
) -> Result<Option<Told>, AllocError>
    requires audit { (a : _) (p : _) (r : _) (w : _) (n : _) → A.pre auditor.now a p r w n }
    requires right { (a : _) (p : _) (r : _) (w : _) (n : _) (v : _) → A.post auditor.now a p r w n v → IsRight p.now r.now w v }
    requires form { HasForm compiled.now.1 }
    requires plays { spread plays.now ≡ plays_of way.now.asks.items }
    ensures { IfOk result (λ o. IfSome o (λ t. WayTells compiled.now.1 exploring.steps
        (OutcomeTells exploring.audit (λ p r e. HasNoAnswer (A.post auditor.now) p r (finishing exploring.steps) 4 e) (script_of script.entry) exploring.steps compiled.now.0 compiled.now.1) way.now (told_of t))) }
{
    let Some(ran) = run_of(alloc, &compiled.1, way, plays, exploring.steps)? else {
        return Ok(None);
    };
    let told = tell_run(alloc, auditor, script, compiled, ran, exploring)?;
    Ok(Some(told))
}

/// The outcome of a way. None where its run doesn't end as the way says, or its list isn't read as its plays.
fn outcome_of<A: Fn(Global, &Program, &Report, Terms, usize) -> Result<Verdict, AuditError>>(
    alloc: Global,
    auditor: &A,
    script: Script<'_>,
    compiled: &(Program, Verified),
    way: &Way,
    exploring: Exploring,
) -> Result<Option<Outcome>, AllocError>
    requires audit { (a : _) (p : _) (r : _) (w : _) (n : _) → A.pre auditor.now a p r w n }
    requires right { (a : _) (p : _) (r : _) (w : _) (n : _) (v : _) → A.post auditor.now a p r w n v → IsRight p.now r.now w v }
    requires form { HasForm compiled.now.1 }
    ensures { IfOk result (λ o. IfSome o (λ outcome. ComesBy outcome way.now × WayHas compiled.now.1 exploring.steps
        (OutcomeTells exploring.audit (λ p r e. HasNoAnswer (A.post auditor.now) p r (finishing exploring.steps) 4 e) (script_of script.entry) exploring.steps compiled.now.0 compiled.now.1) way.now outcome.lines.items outcome.status)) }
{
    let plays = repeated(alloc, way.asks.as_slice())?;
    let Some(list) = list_of(alloc, plays.as_slice())? else {
        return Ok(None);
    };
    let told = tell_way(
        alloc,
        auditor,
        script,
        compiled,
        way,
        plays.as_slice(),
        exploring,
    )?;
    drop(plays);
    let Some(told) = told else {
        return Ok(None);
    };
    let lines = all_lines(alloc, &told)?;
    Ok(Some(Outcome {
        list,
        lines,
        status: told.status,
    }))
}

/// The outcomes of all ways, each once. None where a run doesn't end as its way says.
pub(crate) fn outcomes_of<
    A: Fn(Global, &Program, &Report, Terms, usize) -> Result<Verdict, AuditError>,
>(
    alloc: Global,
    auditor: &A,
    script: Script<'_>,
    compiled: &(Program, Verified),
    ways: &[Way],
    exploring: Exploring,
) -> Result<Option<Vec<Outcome>>, AllocError>
    requires audit { (a : _) (p : _) (r : _) (w : _) (n : _) → A.pre auditor.now a p r w n }
    requires right { (a : _) (p : _) (r : _) (w : _) (n : _) (v : _) → A.post auditor.now a p r w n v → IsRight p.now r.now w v }
    requires form { HasForm compiled.now.1 }
    ensures { IfOk result (λ o. IfSome o (λ outcomes. AreOutcomes ComesBy (WayHas compiled.now.1 exploring.steps
        (OutcomeTells exploring.audit (λ p r e. HasNoAnswer (A.post auditor.now) p r (finishing exploring.steps) 4 e) (script_of script.entry) exploring.steps compiled.now.0 compiled.now.1)) ways.now outcomes.items)) }
{
    let mut outcomes = Vec::new(alloc);
    for way in ways {
        let Some(outcome) = outcome_of(alloc, auditor, script, compiled, way, exploring)? else {
            return Ok(None);
        };
        add_outcome(&mut outcomes, outcome)?;
    }
    Ok(Some(outcomes))
}
