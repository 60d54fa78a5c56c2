//! What is told of what is loaded: that it is, its listing, its byte form, or its run, and behind that the audit where one is asked for.

ghost use Rattle.std.specs.Prelude.{◌≡◌, IfOk};
ghost use Rattle.txs_audit_book.specs.Answered.{finishing};
ghost use Rattle.txs_cli.specs.Runner.{IsRunnable, IsWorked, RunsLawfully};
ghost use Rattle.txs_cli.specs.Runs.{AuditedRunTells, FailureTells, NoneTells, RanTells, RunTells, against, failing, parts_in, way_of};
ghost use Rattle.txs_cli.specs.Source.{IsLoaded, script_at, source_of};
ghost use Rattle.txs_cli.specs.Telling.{UseTells, use_of};
ghost use Rattle.txs_cli_audit.specs.Audit.{HasNoAnswer, IsRight};
ghost use Rattle.txs_cli_report.specs.Lent.{script_of, text_in, told_of};
ghost use Rattle.txs_code_decode.specs.CodeForm.{HasForm};

use crate::run::{NoRun, Way, Working, run};
use crate::source::{Loaded, Source};
use std::alloc::{AllocError, Global};
use std::mem;
use txs_audit_book::{AuditError, Terms, Verdict};
use txs_cli_args::RunOptions;
use txs_cli_audit::{Audited, add_audit};
use txs_cli_report::explain::Script;
use txs_cli_report::report::{accepted, form_of, listing_of, report_lines, report_run};
use txs_cli_report::told::{SPENT, Told, complaint};
use txs_cli_report::unnamed::no_actor;
use txs_code_meaning::Verified;
use txs_machine::{Entries, RunError};
use txs_tree_meaning::Program;
use txs_world_protocol::Report;
use txs_world_shared::SharedState;

/// What is wanted of what is loaded.
#[derive(Clone, Copy)]
pub enum Use<'a> {
    /// That it is.
    Check,
    /// The listing of its code.
    Listing,
    /// The byte form of its code.
    Build,
    /// The run of its code in this way.
    Run { way: Way<'a>, options: RunOptions },
}

/// What is told of a run of code that is over, and of the audit of its report against this program by so many workers.
fn audit_run<A: Fn(Global, &Program, &Report, Terms, usize) -> Result<Verdict, AuditError>>(
    alloc: Global,
    auditor: &A,
    script: Script<'_>,
    program: &Program,
    code: &Verified,
    ran: (SharedState, Entries),
    working: Working,
) -> Result<Told, AllocError>
    requires call { (a : _) (p : _) (r : _) (w : _) (n : _) → A.pre auditor.now a p r w n }
    requires right { (a : _) (p : _) (r : _) (w : _) (n : _) (v : _) → A.post auditor.now a p r w n v → IsRight p.now r.now w v }
    requires form { HasForm code.now }
    requires worked { IsWorked code.now working.options.steps ran.0 ran.1 }
    ensures { IfOk result (λ t. AuditedRunTells (λ r e. HasNoAnswer (A.post auditor.now) program.now r (finishing working.options.steps) working.workers e) program.now code.now (script_of script.entry) working.options ran.0 ran.1 (told_of t)) }
{
    let (shared, entries) = ran;
    let code = code.code();
    let mut told = report_lines(alloc, script, code, &entries, &shared, working.options)?;
    let mut report = entries.into_report(alloc, shared)?;
    let audited = Audited {
        program,
        report: &report,
    };
    let terms = Terms {
        finishes: true,
        steps: working.options.steps,
    };
    let workers = working.workers;
    add_audit(alloc, auditor, script, audited, terms, workers, &mut told)?;
    mem::swap(&mut told.threads, &mut report.threads);
    mem::swap(&mut told.agents, &mut report.agents);
    Ok(told)
}

/// What is told of a run of code that is over, and where there is a program of the audit of its report against that, by so many workers.
pub fn tell_run<A: Fn(Global, &Program, &Report, Terms, usize) -> Result<Verdict, AuditError>>(
    alloc: Global,
    auditor: &A,
    script: Script<'_>,
    against: Option<&Program>,
    code: &Verified,
    ran: (SharedState, Entries),
    working: Working,
) -> Result<Told, AllocError>
    requires call { (a : _) (p : _) (r : _) (w : _) (n : _) → A.pre auditor.now a p r w n }
    requires right { (a : _) (p : _) (r : _) (w : _) (n : _) (v : _) → A.post auditor.now a p r w n v → IsRight p.now r.now w v }
    requires form { HasForm code.now }
    requires worked { IsWorked code.now working.options.steps ran.0 ran.1 }
    ensures { IfOk result (λ t. RanTells (parts_in against.entry) (λ p r e. HasNoAnswer (A.post auditor.now) p r (finishing working.options.steps) working.workers e) code.now (script_of script.entry) working.options ran.0 ran.1 (told_of t)) }
{
    match against {
        Some(program) => audit_run(alloc, auditor, script, program, code, ran, working),
        None => {
            let (shared, entries) = ran;
            report_run(
                alloc,
                script,
                code.code(),
                entries,
                &shared,
                working.options,
            )
        }
    }
}

/// What is told of a run that has no report. Of want of memory the program tells otherwise.
pub(crate) fn of_failure(alloc: Global, failure: RunError) -> Result<Told, AllocError>
    ensures { IfOk result (λ t. FailureTells failure (told_of t)) }
{
    match failure {
        RunError::JournalMismatch => complaint(alloc, SPENT, "run failed: JournalMismatch"),
        RunError::NoThread => complaint(alloc, SPENT, "run failed: NoThread"),
        RunError::Memory => Err(AllocError),
    }
}

/// What is told of code of which there is no run.
fn tell_no_run(
    alloc: Global,
    file: Option<&str>,
    code: &Verified,
    none: NoRun<'_>,
) -> Result<Told, AllocError>
    ensures { IfOk result (λ t. NoneTells none.entry (text_in file.entry) (told_of t)) }
{
    match none {
        NoRun::NoActor(list) => no_actor(alloc, file, list.text, list.plays, code.code()),
        NoRun::Failed(failure) => of_failure(alloc, failure),
    }
}

/// The program against which a run of what is loaded is audited, where an audit is asked for.
fn against(loaded: &Loaded, audit: bool) -> Option<&Program>
    ensures { parts_in result ≡ against audit loaded.now.program }
{
    if !audit {
        return None;
    }
    match &loaded.program {
        Some(program) => Some(program),
        None => None,
    }
}

/// Runs what is loaded in this way, and tells of its run, and of its audit where one is asked for.
fn run_loaded<
    X: Fn(Global, &Verified, usize, u64) -> Result<(SharedState, Entries), RunError>,
    A: Fn(Global, &Program, &Report, Terms, usize) -> Result<Verdict, AuditError>,
>(
    alloc: Global,
    runner: &X,
    auditor: &A,
    source: Source<'_>,
    text: &[u8],
    loaded: &Loaded,
    way: Way<'_>,
    options: RunOptions,
) -> Result<Told, AllocError>
    requires call { (a : _) (code : _) (n : _) (steps : _) → IsRunnable code.now → X.pre runner.now a code n steps }
    requires ran { (a : _) (code : _) (n : _) (steps : _) (r : _) → X.post runner.now a code n steps r → RunsLawfully code.now steps r }
    requires audit { (a : _) (p : _) (r : _) (w : _) (n : _) → A.pre auditor.now a p r w n }
    requires right { (a : _) (p : _) (r : _) (w : _) (n : _) (v : _) → A.post auditor.now a p r w n v → IsRight p.now r.now w v }
    requires loaded { IsLoaded (source_of source) text.now loaded.now.program loaded.now.code }
    ensures { IfOk result (λ t. RunTells (failing (X.post runner.now) (A.post auditor.now)) (script_at (source_of source.entry) text.now) loaded.now.program loaded.now.code (way_of way.entry) options (told_of t)) }
{
    let script = source.script(text);
    let code = &loaded.code;
    match run(alloc, runner, code, way, options.steps) {
        Ok(ran) => {
            let against = against(loaded, options.audit);
            let working = Working {
                workers: way.auditors(),
                options,
            };
            tell_run(alloc, auditor, script, against, code, ran, working)
        }
        Err(none) => tell_no_run(alloc, script.file, code, none),
    }
}

/// Does with what is loaded what is wanted, and tells of it.
pub(crate) fn tell<
    X: Fn(Global, &Verified, usize, u64) -> Result<(SharedState, Entries), RunError>,
    A: Fn(Global, &Program, &Report, Terms, usize) -> Result<Verdict, AuditError>,
>(
    alloc: Global,
    runner: &X,
    auditor: &A,
    source: Source<'_>,
    text: &[u8],
    loaded: &Loaded,
    wanted: Use<'_>,
) -> Result<Told, AllocError>
    requires call { (a : _) (code : _) (n : _) (steps : _) → IsRunnable code.now → X.pre runner.now a code n steps }
    requires ran { (a : _) (code : _) (n : _) (steps : _) (r : _) → X.post runner.now a code n steps r → RunsLawfully code.now steps r }
    requires audit { (a : _) (p : _) (r : _) (w : _) (n : _) → A.pre auditor.now a p r w n }
    requires right { (a : _) (p : _) (r : _) (w : _) (n : _) (v : _) → A.post auditor.now a p r w n v → IsRight p.now r.now w v }
    requires loaded { IsLoaded (source_of source) text.now loaded.now.program loaded.now.code }
    ensures { IfOk result (λ t. UseTells (failing (X.post runner.now) (A.post auditor.now)) (script_at (source_of source.entry) text.now) loaded.now.program loaded.now.code (use_of wanted.entry) (told_of t)) }
{
    match wanted {
        Use::Check => accepted(alloc),
        Use::Listing => listing_of(alloc, loaded.code.code()),
        Use::Build => form_of(alloc, &loaded.code),
        Use::Run { way, options } => {
            run_loaded(alloc, runner, auditor, source, text, loaded, way, options)
        }
    }
}
