//! A run, a check or a problem as lines of JSON.

ghost use Rattle.std.specs.Prelude.{◌≡◌, ◌≤◌, ◌++◌, [], codes, length, IfOk, OnOk};
ghost use Rattle.txs_cli_json.specs.Json.{AddsLine, AddsLines, AreJsonLines, end_line, ok_line, problem_line, refusal_kinds, run_kinds};
ghost use Rattle.txs_cli_report.specs.Lent.{told_of};
ghost use Rattle.txs_cli_report.specs.Told.{IsCompiled};
ghost use Rattle.txs_code_decode.specs.CodeForm.{HasForm};
ghost use Rattle.txs_tree_meaning.specs.View.{program_of};
ghost use Rattle.txs_cli_show.specs.Json.{CheckShows, EndsInStatus, JsonTells, audit_kinds};

use crate::again::run_listed;
use crate::lines::terms_of;
use std::alloc::{AllocError, Global};
use txs_audit_book::{AuditError, Terms, Verdict};
use txs_cli::run::Working;
use txs_cli_audit::{Audited, reason_of, status_of};
use txs_cli_events::Replayed;
use txs_cli_json::{add_audit, add_end, add_ok, add_problem, add_refusal, add_run};
use txs_cli_report::explain::Script;
use txs_cli_report::told::{REFUSED, SPENT, Told, answer};
use txs_code_meaning::Verified;
use txs_compile::{CompileError, compile};
use txs_tree_meaning::Program;
use txs_value_data::Span;
use txs_world_protocol::Report;

/// These lines, behind them that of this status, and nothing else.
fn ended(alloc: Global, lines: Vec<u8>, status: u8) -> Result<Told, AllocError>
    ensures output { IfOk result (λ t. (told_of t).output ≡ lines.items ++ end_line status) }
    ensures errors { IfOk result (λ t. t.errors.items ≡ []) }
    ensures status { IfOk result (λ t. t.status ≡ status) }
{
    let mut lines = lines;
    add_end(alloc, &mut lines, status)?;
    let mut told = answer(lines, alloc);
    told.status = status;
    Ok(told)
}

/// The line of a script that is refused. For want of memory there is none.
fn refusal_of(
    alloc: Global,
    script: Script<'_>,
    error: &CompileError,
) -> Result<Vec<u8>, AllocError>
    ensures { IfOk result (λ lines. AreJsonLines (refusal_kinds error.now) lines.items) }
{
    if let CompileError::Memory = error {
        return Err(AllocError);
    }
    let mut lines = Vec::new(alloc);
    add_refusal(alloc, &mut lines, script, error)?;
    Ok(lines)
}

/// What explains an answer, where there is one that doesn't agree.
fn reason(
    alloc: Global,
    audited: Audited<'_>,
    terms: Terms,
    answer: Result<Verdict, AuditError>,
) -> Result<Option<(String, Option<Span>)>, AllocError> {
    match answer {
        Ok(verdict) => reason_of(alloc, audited, terms, verdict),
        Err(_) => Ok(None),
    }
}

/// How an audit counts in the status: one without an answer, and one that differs, as a stop.
fn audit_status(answer: Result<Verdict, AuditError>) -> u8 {
    match answer {
        Ok(verdict) => status_of(verdict),
        Err(_) => SPENT,
    }
}

/// What explains an answer, lent.
fn lent(reason: &Option<(String, Option<Span>)>) -> Option<(&str, Option<Span>)> {
    match reason {
        Some((sentence, at)) => Some((sentence.as_str(), *at)),
        None => None,
    }
}

/// Appends the line of the audit of a report. Answers the audit's status.
fn audit<A: Fn(Global, &Program, &Report, Terms, usize) -> Result<Verdict, AuditError>>(
    alloc: Global,
    auditor: &A,
    lines: &mut Vec<u8>,
    script: Script<'_>,
    audited: Audited<'_>,
    working: Working,
) -> Result<u8, AllocError>
    requires audit { (a : _) (p : _) (r : _) (w : _) (n : _) → A.pre auditor.now a p r w n }
    ensures { OnOk result (AddsLine (codes "audit") lines.old.items lines.new.items) }
{
    let terms = terms_of(working);
    let workers = working.workers;
    let answer = auditor(alloc, audited.program, audited.report, terms, workers);
    let reason = reason(alloc, audited, terms, answer)?;
    add_audit(alloc, lines, script, answer, lent(&reason))?;
    Ok(audit_status(answer))
}

/// Appends the line of the audit of a report, where it is wanted. Answers the higher of this status and the audit's.
fn may_audit<A: Fn(Global, &Program, &Report, Terms, usize) -> Result<Verdict, AuditError>>(
    alloc: Global,
    auditor: &A,
    lines: &mut Vec<u8>,
    script: Script<'_>,
    audited: Audited<'_>,
    working: Working,
    least: u8,
) -> Result<u8, AllocError>
    requires audit { (a : _) (p : _) (r : _) (w : _) (n : _) → A.pre auditor.now a p r w n }
    ensures line { OnOk result (AddsLines (audit_kinds working.options.audit) lines.old.items lines.new.items) }
    ensures status { IfOk result (λ status. least ≤ status) }
{
    if working.options.audit {
        let status = audit(alloc, auditor, lines, script, audited, working)?;
        return Ok(least.max(status));
    }
    Ok(least)
}

/// The lines of a run that is over, and of its audit, where it is wanted; with the highest status.
fn run_json<A: Fn(Global, &Program, &Report, Terms, usize) -> Result<Verdict, AuditError>>(
    alloc: Global,
    auditor: &A,
    script: Script<'_>,
    audited: Audited<'_>,
    run: Replayed<'_>,
    working: Working,
    least: u8,
) -> Result<Told, AllocError>
    requires audit { (a : _) (p : _) (r : _) (w : _) (n : _) → A.pre auditor.now a p r w n }
    ensures { IfOk result (λ t. EndsInStatus (run_kinds run.entry.report.now (length run.entry.notes.now) ++ audit_kinds working.options.audit) least (told_of t)) }
{
    let mut lines = Vec::new(alloc);
    add_run(alloc, &mut lines, script, run)?;
    let status = may_audit(alloc, auditor, &mut lines, script, audited, working, least)?;
    ended(alloc, lines, status)
}

/// The lines of the run of a compiled script by this list of plays; or that the list isn't that of a run.
fn compiled_json<A: Fn(Global, &Program, &Report, Terms, usize) -> Result<Verdict, AuditError>>(
    alloc: Global,
    auditor: &A,
    script: Script<'_>,
    compiled: &(Program, Verified),
    list: &str,
    working: Working,
    least: u8,
) -> Result<Told, AllocError>
    requires audit { (a : _) (p : _) (r : _) (w : _) (n : _) → A.pre auditor.now a p r w n }
    requires compiled { IsCompiled script.text.now (program_of compiled.now.0) compiled.now.1 }
    requires form { HasForm compiled.now.1 }
    ensures { IfOk result (λ t. JsonTells script.entry.text.now list.now working.options least (told_of t)) }
{
    let code = &compiled.1;
    let Some(run) = run_listed(alloc, code, list, working.options.steps)? else {
        return problem_json(alloc, "show failed", least.max(SPENT));
    };
    let audited = Audited {
        program: &compiled.0,
        report: &run.report,
    };
    run_json(
        alloc,
        auditor,
        script,
        audited,
        run.of(code),
        working,
        least,
    )
}

/// The lines of a script that is refused: why, and the status.
fn refused_json(
    alloc: Global,
    script: Script<'_>,
    error: &CompileError,
    least: u8,
) -> Result<Told, AllocError>
    ensures { IfOk result (λ t. EndsInStatus (refusal_kinds error.now) least (told_of t)) }
{
    let lines = refusal_of(alloc, script, error)?;
    ended(alloc, lines, least.max(REFUSED))
}

/// The lines of the run of a script by this list of plays and then in rounds: its threads, agents, cells and events, its audit, where it is wanted, and the
/// status, which is this one at least. Where the script is refused that is told, with status 1; where the list isn't that of a run that is, with status 4.
pub fn show_json<A: Fn(Global, &Program, &Report, Terms, usize) -> Result<Verdict, AuditError>>(
    alloc: Global,
    auditor: &A,
    script: Script<'_>,
    list: &str,
    working: Working,
    least: u8,
) -> Result<Told, AllocError>
    requires audit { (a : _) (p : _) (r : _) (w : _) (n : _) → A.pre auditor.now a p r w n }
    ensures { IfOk result (λ t. JsonTells script.entry.text.now list.now working.options least (told_of t)) }
{
    match compile(alloc, script.text) {
        Ok(compiled) => compiled_json(alloc, auditor, script, &compiled, list, working, least),
        Err(error) => refused_json(alloc, script, &error, least),
    }
}

/// The lines of a run that isn't shown: why, as `run failed: NoActor`, and the status.
pub fn problem_json(alloc: Global, line: &str, status: u8) -> Result<Told, AllocError>
    ensures output { IfOk result (λ t. (told_of t).output ≡ problem_line line.now ++ end_line status) }
    ensures errors { IfOk result (λ t. t.errors.items ≡ []) }
    ensures status { IfOk result (λ t. t.status ≡ status) }
{
    let mut lines = Vec::new(alloc);
    add_problem(alloc, &mut lines, line)?;
    ended(alloc, lines, status)
}

/// The line of a script that compiles, with status 0.
fn ok_json(alloc: Global) -> Result<Told, AllocError>
    ensures output { IfOk result (λ t. (told_of t).output ≡ ok_line) }
    ensures errors { IfOk result (λ t. t.errors.items ≡ []) }
    ensures status { IfOk result (λ t. t.status ≡ 0) }
{
    let mut lines = Vec::new(alloc);
    add_ok(alloc, &mut lines)?;
    Ok(answer(lines, alloc))
}

/// The line of a script that is refused, with status 1.
fn refusal_json(alloc: Global, script: Script<'_>, error: &CompileError) -> Result<Told, AllocError>
    ensures output { IfOk result (λ t. AreJsonLines (refusal_kinds error.now) (told_of t).output) }
    ensures errors { IfOk result (λ t. t.errors.items ≡ []) }
    ensures status { IfOk result (λ t. t.status ≡ 1) }
{
    let lines = refusal_of(alloc, script, error)?;
    let mut told = answer(lines, alloc);
    told.status = REFUSED;
    Ok(told)
}

/// The line of a script that is checked: that it compiles, or why it is refused, with status 1.
pub fn check_json(alloc: Global, script: Script<'_>) -> Result<Told, AllocError>
    ensures { IfOk result (λ t. CheckShows script.entry.text.now (told_of t)) }
{
    match compile(alloc, script.text) {
        Ok(compiled) => {
            drop(compiled);
            ok_json(alloc)
        }
        Err(error) => refusal_json(alloc, script, &error),
    }
}
