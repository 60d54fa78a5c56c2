//! Adds what is told of an audit to what is told of its run.

ghost use Rattle.std.specs.Prelude.{◌≡◌, ◌++◌, codes, decimal, OnOk};
ghost use Rattle.txs_audit_book.specs.Answered.{as_verdict, audit_turns, terms_as};
ghost use Rattle.txs_cli_audit.specs.Audit.{AnswerTells, AuditTells, HasNoAnswer, IsRight, NoAnswerTells, at_event, audit_line, audit_status, no_answer_line};
ghost use Rattle.txs_cli_report.specs.Lent.{lines_of, script_of};
ghost use Rattle.txs_theorem_audit.specs.Audited.{report_as};
ghost use Rattle.txs_theorem_audit.specs.Verdict.{verdict};
ghost use Rattle.txs_tree_meaning.specs.View.{program_of};

use crate::explain::{Audited, explain};
use std::alloc::{AllocError, Global};
use txs_audit_book::{AuditError, Terms, Verdict};
use txs_cli_report::explain::Script;
use txs_cli_report::told::{DONE, SPENT, Told};
use txs_cli_report::write_number;
use txs_tree_meaning::Program;
use txs_world_protocol::Report;

/// Appends a word with the event that an answer names: its actor, and its index in the actor's trace.
fn write_at(output: &mut Vec<u8>, word: &[u8], actor: u16, event: usize) -> Result<(), AllocError>
    ensures { OnOk result (output.new.items ≡ output.old.items ++ at_event word.now actor event) }
{
    write_number(output, word, usize::from(actor))?;
    write_number(output, b" ", event)?;
    output.extend_from_slice(b"\n")
}

/// Appends the line of an answer.
fn write_line(output: &mut Vec<u8>, answer: Verdict) -> Result<(), AllocError>
    ensures { OnOk result (output.new.items ≡ output.old.items ++ audit_line (as_verdict answer)) }
{
    match answer {
        Verdict::Agrees { serial: true } => output.extend_from_slice(b"audit agrees serial\n"),
        Verdict::Agrees { serial: false } => output.extend_from_slice(b"audit agrees\n"),
        Verdict::Differs { actor, event } => write_at(output, b"audit differs ", actor, event),
        Verdict::Undecided { actor, event } => {
            write_at(output, b"audit undecided ", actor, event)
        }
    }
}

/// How an answer counts in the status.
pub fn status_of(answer: Verdict) -> u8
    ensures { result ≡ audit_status (as_verdict answer) }
{
    match answer {
        Verdict::Differs { .. } => SPENT,
        Verdict::Agrees { .. } | Verdict::Undecided { .. } => DONE,
    }
}

/// Adds what is told of an answer on a run that was to do this: its line behind the standard output, what explains it behind the standard
/// error, and the status, where it is higher.
pub fn add_answer(
    alloc: Global,
    script: Script<'_>,
    audited: Audited<'_>,
    terms: Terms,
    answer: Verdict,
    told: &mut Told,
) -> Result<(), AllocError>
    ensures threads { told.new.threads ≡ told.old.threads }
    ensures told { OnOk result (AnswerTells (script_of script.entry) (as_verdict answer) (lines_of told.old) (lines_of told.new)) }
{
    told.status = told.status.max(status_of(answer));
    write_line(&mut told.output, answer)?;
    explain(alloc, &mut told.errors, script, audited, terms, answer)
}

/// The line that says why there is no answer.
fn line_of(failure: AuditError) -> &'static [u8]
    ensures { result.now ≡ no_answer_line failure }
{
    match failure {
        AuditError::NoThread => b"run failed: NoThread\n",
        AuditError::Memory => b"out of memory\n",
    }
}

/// Adds that there is no answer: its line behind the standard error, and the status.
fn add_no_answer(failure: AuditError, told: &mut Told) -> Result<(), AllocError>
    ensures threads { told.new.threads ≡ told.old.threads }
    ensures told { OnOk result (NoAnswerTells failure (lines_of told.old) (lines_of told.new)) }
{
    told.status = told.status.max(SPENT);
    told.errors.extend_from_slice(line_of(failure))
}

/// Has the report audited against the program, by so many workers and by what the run was to do, and adds what is told of that to what is
/// told of the run: the verdict, or why there is none. Where there was no memory nothing is said of what is told.
pub fn add_audit<A: Fn(Global, &Program, &Report, Terms, usize) -> Result<Verdict, AuditError>>(
    alloc: Global,
    auditor: &A,
    script: Script<'_>,
    audited: Audited<'_>,
    terms: Terms,
    workers: usize,
    told: &mut Told,
) -> Result<(), AllocError>
    requires call { (a : _) (p : _) (r : _) (w : _) (n : _) → A.pre auditor.now a p r w n }
    requires right { (a : _) (p : _) (r : _) (w : _) (n : _) (v : _) → A.post auditor.now a p r w n v → IsRight p.now r.now w v }
    ensures threads { told.new.threads ≡ told.old.threads }
    ensures told { OnOk result (AuditTells (HasNoAnswer (A.post auditor.now) audited.entry.program.now audited.entry.report.now terms workers) (script_of script.entry) (verdict (program_of audited.entry.program.now) (terms_as terms) (report_as audited.entry.report.now) (audit_turns terms.steps)) (lines_of told.old) (lines_of told.new)) }
{
    match auditor(alloc, audited.program, audited.report, terms, workers) {
        Ok(answer) => add_answer(alloc, script, audited, terms, answer, told),
        Err(failure) => add_no_answer(failure, told),
    }
}
