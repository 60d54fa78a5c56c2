//! The audit of a report.

ghost use Rattle.std.specs.Prelude.{◌≡◌, ◌≤◌, ◌<◌, ◌++◌, ◌⊎◌, suc, true, length, IfOk, IfErr};
ghost use Rattle.txs_tree_meaning.specs.View.{program_of};
ghost use Rattle.txs_theorem_audit.specs.Audited.{Fine, and_then, answer, books_of, report_as};
ghost use Rattle.txs_theorem_audit.specs.Pieces.{pieces_finding, pieces_of, pieces_serial};
ghost use Rattle.txs_theorem_audit.specs.Verdict.{fits_sizes, traces_found, verdict};
ghost use Rattle.txs_audit.specs.Started.{NeedsWorkers, actors_found};
ghost use Rattle.txs_audit_order.specs.Named.{off_in};
ghost use Rattle.txs_audit_book.specs.Answered.{as_verdict, terms_as};
ghost use Rattle.txs_audit_book.specs.declared.verdict.AuditError.TheVariants.{NoThread};

use crate::order::order_off;
use crate::pieces::pieces_of;
use crate::verdict::verdict_of;
use crate::workers::found_by;
use std::alloc::{AllocError, Global};
use std::sync::Wait;
use std::thread::Threads;
use txs_audit_book::{AuditError, Terms, Verdict};
use txs_audit_evidence::transactions::Found;
use txs_audit_evidence::{Books, ends_off, open_books};
use txs_audit_order::{has_sizes, traces_off};
use txs_gate::{Gate, OpenGate};
use txs_theorem_audit::pieces_are_all;
use txs_tree_meaning::Program;
use txs_world_protocol::Report;

/// The number of an actor in fewer bytes.
fn as_actor(actor: usize) -> u16
    requires { actor < 65536 }
    ensures { result ≡ actor }
{
    actor as u16
}

/// The first actor whose trace doesn't name its events, and the index at which it is off.
fn first_off(
    alloc: Global,
    program: &Program,
    report: &Report,
) -> Result<Option<(u16, usize)>, AllocError>
    requires { fits_sizes (program_of program.now) (report_as report.now) ≡ true }
    ensures { IfOk result (λ o. off_in o ≡ traces_found (books_of (report_as report.now)) (suc (length (report_as report.now).atom_books)) 0 ((report_as report.now).threads ++ (report_as report.now).agents)) }
{
    // A step of the proof, which does nothing when it runs.
    program.is_sound();
    match traces_off(alloc, report)? {
        Some((actor, event)) => Ok(Some((as_actor(actor), event))),
        None => Ok(None),
    }
}

/// The answer of an audit that has found nothing in the books: what is found of the pieces, by so many workers.
fn audit_pieces<R: Threads + Wait + Sync, G: Gate>(
    rt: &R,
    alloc: Global,
    books: &Books<'_>,
    workers: u16,
    turns: u32,
    gate: &G,
) -> Result<Verdict, AuditError>
    requires { workers ≤ 64 }
    ensures { IfOk result (λ v. as_verdict v ≡ answer (pieces_finding (program_of books.now.program) books.now.report turns (pieces_of books.now.report)) (pieces_serial (program_of books.now.program) books.now.report turns (pieces_of books.now.report))) }
{
    let pieces = pieces_of(alloc, books)?;
    let found = found_by(rt, alloc, books, pieces.as_slice(), workers, turns, gate)?;
    Ok(verdict_of(found))
}

/// The first actor whose end is wrong; or where all are right, the actor of an event that comes before itself, if there is one. With the index
/// in the actor's trace.
fn actors_off(
    alloc: Global,
    books: &Books<'_>,
    terms: Terms,
) -> Result<Option<(u16, usize)>, AllocError>
    ensures { IfOk result (λ o. off_in o ≡ actors_found (program_of books.now.program) (terms_as terms) books.now.report) }
{
    match ends_off(alloc, books, terms)? {
        Some(off) => Ok(Some(off)),
        None => order_off(alloc, books),
    }
}

/// The answer of an audit that has found nothing in the books: what is found of how actors ended and of the order of all events, and then
/// of the pieces, by so many workers.
fn audit_opened<R: Threads + Wait + Sync, G: Gate>(
    rt: &R,
    alloc: Global,
    books: &Books<'_>,
    terms: Terms,
    workers: u16,
    turns: u32,
    gate: &G,
) -> Result<Verdict, AuditError>
    requires { workers ≤ 64 }
    ensures verdict { IfOk result (λ v. as_verdict v ≡ answer (and_then (actors_found (program_of books.now.program) (terms_as terms) books.now.report) (pieces_finding (program_of books.now.program) books.now.report turns (pieces_of books.now.report))) (pieces_serial (program_of books.now.program) books.now.report turns (pieces_of books.now.report))) }
    ensures started { IfErr result (λ e. e ≡ NoThread → actors_found (program_of books.now.program) (terms_as terms) books.now.report ≡ Fine) }
{
    match actors_off(alloc, books, terms) {
        Ok(Some((actor, at))) => Ok(Verdict::Differs { actor, event: at }),
        Ok(None) => audit_pieces(rt, alloc, books, workers, turns, gate),
        Err(_) => Err(AuditError::Memory),
    }
}

/// The answer of an audit of a report that has the right sizes, in whose traces nothing is found: what is found in the books, of how actors
/// ended, of the order of all events, and then of the pieces, by so many workers.
fn audit_books<R: Threads + Wait + Sync, G: Gate>(
    rt: &R,
    alloc: Global,
    program: &Program,
    report: &Report,
    terms: Terms,
    workers: u16,
    turns: u32,
    gate: &G,
) -> Result<Verdict, AuditError>
    requires sizes { fits_sizes (program_of program.now) (report_as report.now) ≡ true }
    requires traces { Fine ≡ traces_found (books_of (report_as report.now)) (suc (length (report_as report.now).atom_books)) 0 ((report_as report.now).threads ++ (report_as report.now).agents) }
    requires workers { workers ≤ 64 }
    ensures verdict { IfOk result (λ v. as_verdict v ≡ verdict (program_of program.now) (terms_as terms) (report_as report.now) turns) }
    ensures started { IfErr result (λ e. e ≡ NoThread → NeedsWorkers (program_of program.now) (terms_as terms) (report_as report.now)) }
{
    // A law that the proof uses; it does nothing when it runs.
    pieces_are_all();
    match open_books(alloc, program, report) {
        Ok(Ok(books)) => audit_opened(rt, alloc, &books, terms, workers, turns, gate),
        Ok(Err(finding)) => Ok(verdict_of(Found {
            finding,
            serial: false,
        })),
        Err(_) => Err(AuditError::Memory),
    }
}

/// As `audit`; and each worker passes the gate once, before its first piece, or at once if it has none.
///
/// # Errors
/// As those of `audit`.
pub fn audit_gated<R: Threads + Wait + Sync, G: Gate>(
    rt: &R,
    alloc: Global,
    program: &Program,
    report: &Report,
    terms: Terms,
    workers: u16,
    turns: u32,
    gate: &G,
) -> Result<Verdict, AuditError>
    ensures workers { IfOk result (λ v. (0 < workers) × (workers ≤ 64)) }
    ensures none { IfErr result (λ e. ((workers ≡ 0) ⊎ (64 < workers)) → e ≡ NoThread) }
    ensures started { IfErr result (λ e. e ≡ NoThread → 0 < workers → workers ≤ 64 → NeedsWorkers (program_of program.now) (terms_as terms) (report_as report.now)) }
    ensures verdict { IfOk result (λ v. as_verdict v ≡ verdict (program_of program.now) (terms_as terms) (report_as report.now) turns) }
{
    if workers == 0 || workers > 64 {
        return Err(AuditError::NoThread);
    }
    if !has_sizes(program, report) {
        return Ok(Verdict::Differs { actor: 0, event: 0 });
    }
    match first_off(alloc, program, report) {
        Ok(Some((actor, event))) => Ok(Verdict::Differs { actor, event }),
        Ok(None) => audit_books(rt, alloc, program, report, terms, workers, turns, gate),
        Err(_) => Err(AuditError::Memory),
    }
}

/// Whether the program's source explains the report of a run that was to do this (`terms`), if each loop makes at most `turns` turns. That is
/// found by so many workers, each on a thread of its own; the answer is the same for any number. The tests and their order are those of
/// `verdict` in txs_theorem_audit, and the first that finds something is answered.
///
/// # Errors
/// `NoThread` if `workers` is 0 or over 64, with nothing done, or if a worker couldn't be started, which are started only once sizes, traces,
/// books, the ends of actors and the order of all events are found to be right; `Memory` if there was no memory.
pub fn audit<R: Threads + Wait + Sync>(
    rt: &R,
    alloc: Global,
    program: &Program,
    report: &Report,
    terms: Terms,
    workers: u16,
    turns: u32,
) -> Result<Verdict, AuditError>
    ensures workers { IfOk result (λ v. (0 < workers) × (workers ≤ 64)) }
    ensures none { IfErr result (λ e. ((workers ≡ 0) ⊎ (64 < workers)) → e ≡ NoThread) }
    ensures started { IfErr result (λ e. e ≡ NoThread → 0 < workers → workers ≤ 64 → NeedsWorkers (program_of program.now) (terms_as terms) (report_as report.now)) }
    ensures verdict { IfOk result (λ v. as_verdict v ≡ verdict (program_of program.now) (terms_as terms) (report_as report.now) turns) }
{
    audit_gated(rt, alloc, program, report, terms, workers, turns, &OpenGate)
}
