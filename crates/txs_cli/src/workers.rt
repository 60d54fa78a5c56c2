//! Requests over any streams, with workers that are started by a handle.

ghost use Rattle.std.specs.Io.KnownBytes.{Keeps};
ghost use Rattle.std.specs.Prelude.{IfSome};
ghost use Rattle.std.specs.Thread.{IsSync};
ghost use Rattle.txs_cli.specs.Recorded.{Records};
ghost use Rattle.txs_cli.specs.Runner.{IsRunnable, Runs, RunsLawfully};
ghost use Rattle.txs_cli.specs.Telling.{ReadsNothing, RequestTells, Run, SourceTells, task_of, without_audit};
ghost use Rattle.txs_cli.specs.Runs.{Workers as ByWorkers, failing, failing_run};
ghost use Rattle.txs_cli.specs.Source.{OfScript};
ghost use Rattle.txs_cli_audit.specs.Audit.{IsRight};
ghost use Rattle.txs_cli_report.specs.Lent.{text_in};
ghost use Rattle.txs_cli_report.specs.Told.{Answers, Told, Written, front};

use crate::{Record, play_with, record_run};
use std::alloc::{AllocError, Global};
use std::io::{Read, Write};
use std::sync::Wait;
use std::thread::Threads;
use txs_audit_book::{AuditError, Terms, Verdict};
use txs_cli_args::{Request, RunOptions};
use txs_code_meaning::Verified;
use txs_machine::{Entries, Repeated, RunError};
use txs_threads::{Gathered, OpenGate, Recorder, run_threads};
use txs_tree_meaning::Program;
use txs_world_protocol::Report;
use txs_world_shared::SharedState;

/// Does what the request asks for, as `play_with` does; where that is a run by workers, `run_threads` makes it, with this handle and an open gate.
pub fn play_by_workers<
    T: Threads + Wait + Sync,
    A: Fn(Global, &Program, &Report, Terms, usize) -> Result<Verdict, AuditError>,
    R: Read,
    W: Write,
    F: Write,
>(
    threads: &T,
    alloc: Global,
    auditor: &A,
    request: &Request,
    reader: &mut R,
    writer: &mut W,
    faults: &mut F,
) -> u8
    requires audit { (a : _) (p : _) (r : _) (w : _) (n : _) → A.pre auditor.now a p r w n }
    requires right { (a : _) (p : _) (r : _) (w : _) (n : _) (v : _) → A.post auditor.now a p r w n v → IsRight p.now r.now w v }
    ensures unread { ReadsNothing (task_of request.now) → Keeps (R.remaining reader.old) (R.remaining reader.new) }
    ensures told { IfSome (R.remaining reader.old) (λ input. (t : Told) × RequestTells (failing Runs (A.post auditor.now)) input request.now t
        × Written (W.contents writer.old) (W.contents writer.new) (F.contents faults.old) (F.contents faults.new) t result) }
{
    play_with(
        alloc,
        &|alloc: Global, code: &Verified, workers: usize, steps: u64| -> Result<
            (SharedState, Entries),
            RunError,
        >
            requires sync { IsSync T.row }
            requires few { IsRunnable code.now }
            ensures { RunsLawfully code.now steps result }
        {
            let Gathered { shared, report } = run_threads(
                threads, alloc, code, workers, steps, &OpenGate,
            )?;
            Ok((shared, report))
        },
        auditor,
        request,
        reader,
        writer,
        faults,
    )
}

/// Has the reader's script run by so many workers, with this handle, and records the run: as `record_run` does with what a `Recorder` has noted.
pub fn record_by_workers<T: Threads + Wait + Sync, R: Read, W: Write, F: Write>(
    threads: &T,
    alloc: Global,
    workers: usize,
    options: RunOptions,
    file: Option<&str>,
    reader: &mut R,
    writer: &mut W,
    faults: &mut F,
) -> (u8, Record)
    ensures { IfSome (R.remaining reader.old) (λ input. (t : Told) × Answers (SourceTells (failing_run Runs) (OfScript (text_in file.entry)) (front input) (Run (ByWorkers workers) (without_audit options))) t
        × Written (W.contents writer.old) (W.contents writer.new) (F.contents faults.old) (F.contents faults.new) t result.0 × Records (record { text = front input; file = text_in file.entry }) options t result.1) }
{
    let recorder = Recorder::new(threads, alloc);
    let gate = &recorder;
    let ended = record_run(
        alloc,
        &|alloc: Global, code: &Verified, workers: usize, steps: u64| -> Result<
            (SharedState, Entries),
            RunError,
        >
            requires sync { IsSync T.row }
            requires few { IsRunnable code.now }
            ensures { RunsLawfully code.now steps result }
        {
            let Gathered { shared, report } = run_threads(
                threads, alloc, code, workers, steps, gate,
            )?;
            Ok((shared, report))
        },
        &|| -> Result<Option<Vec<Repeated>>, AllocError> { gate.plays() },
        workers,
        options,
        file,
        reader,
        writer,
        faults,
    );
    drop(recorder);
    ended
}
