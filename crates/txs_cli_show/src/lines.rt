//! The events of a run in their long form, and behind them its audit.

ghost use Rattle.std.specs.Prelude.{◌≡◌, IfOk, OnOk};
ghost use Rattle.txs_audit_book.specs.Answered.{finishing};
ghost use Rattle.txs_cli_audit.specs.Audit.{HasNoAnswer, IsRight};
ghost use Rattle.txs_cli_report.specs.Lent.{lines_of, script_of, told_of};
ghost use Rattle.txs_cli_report.specs.Told.{IsCompiled};
ghost use Rattle.txs_code_decode.specs.CodeForm.{HasForm};
ghost use Rattle.txs_tree_meaning.specs.View.{program_of};
ghost use Rattle.txs_cli_show.specs.Shown.{MayAudit, ShowTells, lines_shown, plainly, verdict_on};

use crate::again::run_listed;
use std::alloc::{AllocError, Global};
use txs_audit_book::{AuditError, Terms, Verdict};
use txs_cli::run::Working;
use txs_cli_audit::{Audited, add_audit};
use txs_cli_events::{Replayed, write_replayed};
use txs_cli_report::explain::Script;
use txs_cli_report::told::{SPENT, Told, answer, complaint, refused};
use txs_code_meaning::Verified;
use txs_compile::compile;
use txs_tree_meaning::Program;
use txs_world_protocol::Report;

/// What the run of a report was to do: to go on up to its end, with so many steps of each actor.
pub(crate) fn terms_of(working: Working) -> Terms
    ensures { result ≡ finishing working.options.steps }
{
    Terms {
        finishes: true,
        steps: working.options.steps,
    }
}

/// The lines of a run's events, where they are wanted.
fn event_lines(alloc: Global, run: Replayed<'_>, full: bool) -> Result<Vec<u8>, AllocError>
    ensures { IfOk result (λ lines. lines.items ≡ lines_shown full run.entry.cells.now run.entry.report.now run.entry.notes.now) }
{
    let mut lines = Vec::new(alloc);
    if !full {
        return Ok(lines);
    }
    write_replayed(alloc, &mut lines, run)?;
    Ok(lines)
}

/// Adds the audit of a report by so many workers to what is told, where it is wanted.
fn may_audit<A: Fn(Global, &Program, &Report, Terms, usize) -> Result<Verdict, AuditError>>(
    alloc: Global,
    auditor: &A,
    script: Script<'_>,
    audited: Audited<'_>,
    working: Working,
    told: &mut Told,
) -> Result<(), AllocError>
    requires audit { (a : _) (p : _) (r : _) (w : _) (n : _) → A.pre auditor.now a p r w n }
    requires right { (a : _) (p : _) (r : _) (w : _) (n : _) (v : _) → A.post auditor.now a p r w n v → IsRight p.now r.now w v }
    ensures { OnOk result (MayAudit working.options.audit (HasNoAnswer (A.post auditor.now) audited.entry.program.now audited.entry.report.now (finishing working.options.steps) working.workers) (script_of script.entry) (verdict_on audited.entry.program.now working.options.steps audited.entry.report.now) (lines_of told.old) (lines_of told.new)) }
{
    if working.options.audit {
        let terms = terms_of(working);
        let workers = working.workers;
        return add_audit(alloc, auditor, script, audited, terms, workers, told);
    }
    Ok(())
}

/// What is told of a run that is over by its events, where they are wanted, and behind them by its audit, where it is.
fn run_lines<A: Fn(Global, &Program, &Report, Terms, usize) -> Result<Verdict, AuditError>>(
    alloc: Global,
    auditor: &A,
    script: Script<'_>,
    audited: Audited<'_>,
    run: Replayed<'_>,
    working: Working,
    full: bool,
) -> Result<Told, AllocError>
    requires audit { (a : _) (p : _) (r : _) (w : _) (n : _) → A.pre auditor.now a p r w n }
    requires right { (a : _) (p : _) (r : _) (w : _) (n : _) (v : _) → A.post auditor.now a p r w n v → IsRight p.now r.now w v }
    ensures { IfOk result (λ t. MayAudit working.options.audit (HasNoAnswer (A.post auditor.now) audited.entry.program.now audited.entry.report.now (finishing working.options.steps) working.workers) (script_of script.entry) (verdict_on audited.entry.program.now working.options.steps audited.entry.report.now) (plainly (lines_shown full run.entry.cells.now run.entry.report.now run.entry.notes.now)) (told_of t)) }
{
    let mut told = answer(event_lines(alloc, run, full)?, alloc);
    may_audit(alloc, auditor, script, audited, working, &mut told)?;
    told.threads = Vec::new(alloc);
    told.agents = Vec::new(alloc);
    Ok(told)
}

/// What is shown of the run of a compiled script by this list of plays.
fn show_compiled<A: Fn(Global, &Program, &Report, Terms, usize) -> Result<Verdict, AuditError>>(
    alloc: Global,
    auditor: &A,
    script: Script<'_>,
    compiled: &(Program, Verified),
    list: &str,
    working: Working,
    full: bool,
) -> Result<Told, AllocError>
    requires audit { (a : _) (p : _) (r : _) (w : _) (n : _) → A.pre auditor.now a p r w n }
    requires right { (a : _) (p : _) (r : _) (w : _) (n : _) (v : _) → A.post auditor.now a p r w n v → IsRight p.now r.now w v }
    requires compiled { IsCompiled script.text.now (program_of compiled.now.0) compiled.now.1 }
    requires form { HasForm compiled.now.1 }
    ensures { IfOk result (λ t. ShowTells list.now full (λ p r e. HasNoAnswer (A.post auditor.now) p r (finishing working.options.steps) working.workers e) (script_of script.entry) working.options (told_of t)) }
{
    let code = &compiled.1;
    let Some(run) = run_listed(alloc, code, list, working.options.steps)? else {
        return complaint(alloc, SPENT, "show failed");
    };
    let audited = Audited {
        program: &compiled.0,
        report: &run.report,
    };
    run_lines(alloc, auditor, script, audited, run.of(code), working, full)
}

/// What is shown of the run of a script by this list of plays and then in rounds: a line for each of its events, in their order, where they are wanted; and
/// behind them its audit by so many workers, where it is wanted. Where the list isn't that of a run, that is told, with status 4.
pub fn show_lines<A: Fn(Global, &Program, &Report, Terms, usize) -> Result<Verdict, AuditError>>(
    alloc: Global,
    auditor: &A,
    script: Script<'_>,
    list: &str,
    working: Working,
    full: bool,
) -> Result<Told, AllocError>
    requires audit { (a : _) (p : _) (r : _) (w : _) (n : _) → A.pre auditor.now a p r w n }
    requires right { (a : _) (p : _) (r : _) (w : _) (n : _) (v : _) → A.post auditor.now a p r w n v → IsRight p.now r.now w v }
    ensures { IfOk result (λ t. ShowTells list.now full (λ p r e. HasNoAnswer (A.post auditor.now) p r (finishing working.options.steps) working.workers e) (script_of script.entry) working.options (told_of t)) }
{
    match compile(alloc, script.text) {
        Ok(compiled) => show_compiled(alloc, auditor, script, &compiled, list, working, full),
        Err(error) => refused(alloc, script, &error),
    }
}
