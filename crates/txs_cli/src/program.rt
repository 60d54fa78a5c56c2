//! The program, over any streams. A request goes one way: its source is read and loaded, used or run, told of and written.

ghost use Rattle.std.specs.Io.KnownBytes.{Keeps};
ghost use Rattle.std.specs.Prelude.{◌≡◌, Err, IfErr, IfOk, IfSome, IsErr};
ghost use Rattle.txs_cli.specs.Runner.{IsRunnable, RunsLawfully};
ghost use Rattle.txs_cli.specs.Runs.{failing, nobody};
ghost use Rattle.txs_cli.specs.Source.{OfScript, file_of, source_of, source_text};
ghost use Rattle.txs_cli.specs.Telling.{AloneTells, ArgsTell, ReadsNothing, RequestTells, Schedule as PlainSchedule, ScheduleTells, SourceTells, TaskTells, alone, task_in, task_of, use_of, without_audit};
ghost use Rattle.txs_cli_audit.specs.Audit.{IsRight};
ghost use Rattle.txs_cli_report.specs.Lent.{text_in, told_of};
ghost use Rattle.txs_cli_report.specs.Plays.{IsListError, plays_in};
ghost use Rattle.txs_cli_report.specs.declared.plays.WrongPlay.{WrongPlay};
ghost use Rattle.txs_cli_report.specs.Told.{Told as PlainTold, WrongListTells, Written};

use crate::run::{Listed, Way};
use crate::source::{Source, load, read, tell_refusal, unread};
use crate::task::{Task, alone, task_of};
use crate::tell::{Use, tell};
use std::alloc::{AllocError, Global};
use std::io::{Read, Write};
use txs_audit_book::{AuditError, Terms, Verdict};
use txs_cli_args::{Request, RunOptions, parse_words};
use txs_cli_report::told::{SPENT, Told, wrong_list};
use txs_cli_report::{ListError, read_plays, write_answer, write_told};
use txs_code_meaning::Verified;
use txs_machine::{Entries, RunError};
use txs_tree_meaning::Program;
use txs_world_protocol::Report;
use txs_world_shared::SharedState;

/// Reads and loads a source, and tells of what is wanted of it.
fn use_source<
    X: Fn(Global, &Verified, usize, u64) -> Result<(SharedState, Entries), RunError>,
    A: Fn(Global, &Program, &Report, Terms, usize) -> Result<Verdict, AuditError>,
    R: Read,
>(
    alloc: Global,
    runner: &X,
    auditor: &A,
    source: Source<'_>,
    wanted: Use<'_>,
    reader: &mut R,
) -> Result<Told, AllocError>
    requires call { (a : _) (code : _) (n : _) (steps : _) → IsRunnable code.now → X.pre runner.now a code n steps }
    requires ran { (a : _) (code : _) (n : _) (steps : _) (r : _) → X.post runner.now a code n steps r → RunsLawfully code.now steps r }
    requires audit { (a : _) (p : _) (r : _) (w : _) (n : _) → A.pre auditor.now a p r w n }
    requires right { (a : _) (p : _) (r : _) (w : _) (n : _) (v : _) → A.post auditor.now a p r w n v → IsRight p.now r.now w v }
    ensures { IfOk result (λ t. IfSome (R.remaining reader.old) (λ input. SourceTells (failing (X.post runner.now) (A.post auditor.now)) (source_of source.entry) (source_text (source_of source.entry) input) (use_of wanted.entry) (told_of t))) }
{
    match read(alloc, source, reader) {
        Ok(bytes) => {
            let text = bytes.as_slice();
            match load(alloc, source, text) {
                Ok(loaded) => tell(alloc, runner, auditor, source, text, &loaded, wanted),
                Err(refusal) => tell_refusal(alloc, source, text, refusal),
            }
        }
        Err(fault) => unread(alloc, fault),
    }
}

/// Tells of a list of plays that isn't one; where there was no memory for it the program tells otherwise.
fn tell_list(
    alloc: Global,
    source: Source<'_>,
    turns: &str,
    error: ListError,
) -> Result<Told, AllocError>
    requires { IsListError turns.now error }
    ensures { IfOk result (λ t. (wrong : WrongPlay) × (plays_in turns.now ≡ Err wrong) × WrongListTells turns.now (file_of (source_of source.entry)) wrong (told_of t)) }
{
    match error {
        ListError::Wrong(wrong) => wrong_list(alloc, turns, source.file(), wrong),
        ListError::Memory => Err(AllocError),
    }
}

/// Runs a source by a list of plays, and tells of the run; or of the list, where it isn't one, and nothing is read.
fn schedule<
    X: Fn(Global, &Verified, usize, u64) -> Result<(SharedState, Entries), RunError>,
    A: Fn(Global, &Program, &Report, Terms, usize) -> Result<Verdict, AuditError>,
    R: Read,
>(
    alloc: Global,
    runner: &X,
    auditor: &A,
    source: Source<'_>,
    turns: &str,
    options: RunOptions,
    reader: &mut R,
) -> Result<Told, AllocError>
    requires call { (a : _) (code : _) (n : _) (steps : _) → IsRunnable code.now → X.pre runner.now a code n steps }
    requires ran { (a : _) (code : _) (n : _) (steps : _) (r : _) → X.post runner.now a code n steps r → RunsLawfully code.now steps r }
    requires audit { (a : _) (p : _) (r : _) (w : _) (n : _) → A.pre auditor.now a p r w n }
    requires right { (a : _) (p : _) (r : _) (w : _) (n : _) (v : _) → A.post auditor.now a p r w n v → IsRight p.now r.now w v }
    ensures unread { IsErr (plays_in turns.now) → Keeps (R.remaining reader.old) (R.remaining reader.new) }
    ensures told { IfOk result (λ t. IfSome (R.remaining reader.old) (λ input. ScheduleTells (failing (X.post runner.now) (A.post auditor.now)) (source_of source.entry) (source_text (source_of source.entry) input) turns.now options (told_of t))) }
{
    match read_plays(alloc, turns) {
        Ok(plays) => {
            let list = Listed {
                plays: plays.as_slice(),
                text: turns,
            };
            let wanted = Use::Run {
                way: Way::Turns(list),
                options,
            };
            use_source(alloc, runner, auditor, source, wanted, reader)
        }
        Err(error) => tell_list(alloc, source, turns, error),
    }
}

/// Does a task with the reader's input, and writes what is told of it. Answers the status.
fn perform<
    X: Fn(Global, &Verified, usize, u64) -> Result<(SharedState, Entries), RunError>,
    A: Fn(Global, &Program, &Report, Terms, usize) -> Result<Verdict, AuditError>,
    R: Read,
    W: Write,
    F: Write,
>(
    alloc: Global,
    runner: &X,
    auditor: &A,
    task: Task<'_>,
    reader: &mut R,
    writer: &mut W,
    faults: &mut F,
) -> u8
    requires call { (a : _) (code : _) (n : _) (steps : _) → IsRunnable code.now → X.pre runner.now a code n steps }
    requires ran { (a : _) (code : _) (n : _) (steps : _) (r : _) → X.post runner.now a code n steps r → RunsLawfully code.now steps r }
    requires audit { (a : _) (p : _) (r : _) (w : _) (n : _) → A.pre auditor.now a p r w n }
    requires right { (a : _) (p : _) (r : _) (w : _) (n : _) (v : _) → A.post auditor.now a p r w n v → IsRight p.now r.now w v }
    ensures unread { ReadsNothing (task_in task.entry) → Keeps (R.remaining reader.old) (R.remaining reader.new) }
    ensures told { IfSome (R.remaining reader.old) (λ input. (t : PlainTold) × TaskTells (failing (X.post runner.now) (A.post auditor.now)) input (task_in task.entry) t
        × Written (W.contents writer.old) (W.contents writer.new) (F.contents faults.old) (F.contents faults.new) t result) }
{
    match task {
        Task::Say {
            output,
            errors,
            status,
        } => {
            let output = output.as_bytes();
            write_told(output, errors.as_bytes(), status, writer, faults)
        }
        Task::Do { source, wanted } => {
            let told = use_source(alloc, runner, auditor, source, wanted, reader);
            write_answer(told, writer, faults)
        }
        Task::Schedule {
            source,
            turns,
            options,
        } => {
            let told = schedule(alloc, runner, auditor, source, turns, options, reader);
            write_answer(told, writer, faults)
        }
    }
}

/// Does what the request asks for, with the input that the reader has; no file is opened or written, and where lines are explained the request's file is
/// but named. A run by workers is made by this runner, and an audit by this auditor: with as many workers as the run has, else four. Answers the status: 0
/// where all ended and for help, 1 for a source that is refused, 2 for arguments that can't be used, a list of plays that isn't one or names no actor, or a
/// stream that couldn't be read or written, 3 for a thread or an agent that failed, 4 for want of steps or memory, or a run without a report; the highest
/// that applies.
pub fn play_with<
    X: Fn(Global, &Verified, usize, u64) -> Result<(SharedState, Entries), RunError>,
    A: Fn(Global, &Program, &Report, Terms, usize) -> Result<Verdict, AuditError>,
    R: Read,
    W: Write,
    F: Write,
>(
    alloc: Global,
    runner: &X,
    auditor: &A,
    request: &Request,
    reader: &mut R,
    writer: &mut W,
    faults: &mut F,
) -> u8
    requires call { (a : _) (code : _) (n : _) (steps : _) → IsRunnable code.now → X.pre runner.now a code n steps }
    requires ran { (a : _) (code : _) (n : _) (steps : _) (r : _) → X.post runner.now a code n steps r → RunsLawfully code.now steps r }
    requires audit { (a : _) (p : _) (r : _) (w : _) (n : _) → A.pre auditor.now a p r w n }
    requires right { (a : _) (p : _) (r : _) (w : _) (n : _) (v : _) → A.post auditor.now a p r w n v → IsRight p.now r.now w v }
    ensures unread { ReadsNothing (task_of request.now) → Keeps (R.remaining reader.old) (R.remaining reader.new) }
    ensures told { IfSome (R.remaining reader.old) (λ input. (t : PlainTold) × RequestTells (failing (X.post runner.now) (A.post auditor.now)) input request.now t
        × Written (W.contents writer.old) (W.contents writer.new) (F.contents faults.old) (F.contents faults.new) t result) }
{
    perform(
        alloc,
        runner,
        auditor,
        task_of(request),
        reader,
        writer,
        faults,
    )
}

/// Does a task without workers and without an audit, and writes what is told of it. Answers the status.
fn perform_alone<R: Read, W: Write, F: Write>(
    alloc: Global,
    task: Task<'_>,
    reader: &mut R,
    writer: &mut W,
    faults: &mut F,
) -> u8
    ensures unread { ReadsNothing (alone (task_in task.entry)) → Keeps (R.remaining reader.old) (R.remaining reader.new) }
    ensures told { IfSome (R.remaining reader.old) (λ input. (t : PlainTold) × TaskTells nobody input (alone (task_in task.entry)) t
        × Written (W.contents writer.old) (W.contents writer.new) (F.contents faults.old) (F.contents faults.new) t result) }
{
    perform(
        alloc,
        &|_alloc: Global, code: &Verified, _workers: usize, steps: u64| -> Result<
            (SharedState, Entries),
            RunError,
        >
            ensures { RunsLawfully code.now steps result }
        { Err(RunError::NoThread) },
        &|_alloc: Global, program: &Program, report: &Report, terms: Terms, _workers: usize| -> Result<
            Verdict,
            AuditError,
        >
            ensures { IsRight program.now report.now terms result }
        { Err(AuditError::NoThread) },
        alone(task),
        reader,
        writer,
        faults,
    )
}

/// Does what the request asks for, as `play_with` does, but without workers and without an audit: a run by workers goes on in rounds, and an audit is a use
/// of arguments that can't be used.
pub fn play_words<R: Read, W: Write, F: Write>(
    alloc: Global,
    request: &Request,
    reader: &mut R,
    writer: &mut W,
    faults: &mut F,
) -> u8
    ensures unread { ReadsNothing (alone (task_of request.now)) → Keeps (R.remaining reader.old) (R.remaining reader.new) }
    ensures told { IfSome (R.remaining reader.old) (λ input. (t : PlainTold) × AloneTells input request.now t
        × Written (W.contents writer.old) (W.contents writer.new) (F.contents faults.old) (F.contents faults.new) t result) }
{
    perform_alone(alloc, task_of(request), reader, writer, faults)
}

/// Runs the reader's script by a list of plays and then in rounds, and writes what is told of it, as `play_words` does. No audit is made. A list that isn't one is
/// told of before anything is read, with status 2.
pub fn play_schedule<R: Read, W: Write, F: Write>(
    alloc: Global,
    turns: &str,
    options: RunOptions,
    file: Option<&str>,
    reader: &mut R,
    writer: &mut W,
    faults: &mut F,
) -> u8
    ensures unread { IsErr (plays_in turns.now) → Keeps (R.remaining reader.old) (R.remaining reader.new) }
    ensures told { IfSome (R.remaining reader.old) (λ input. (t : PlainTold) × TaskTells nobody input (PlainSchedule (OfScript (text_in file.entry)) turns.now (without_audit options)) t
        × Written (W.contents writer.old) (W.contents writer.new) (F.contents faults.old) (F.contents faults.new) t result) }
{
    let task = Task::Schedule {
        source: Source::Script(file),
        turns,
        options: RunOptions {
            audit: false,
            ..options
        },
    };
    perform_alone(alloc, task, reader, writer, faults)
}

/// The program: the words after its name, and its three streams. Does what they ask for, as `play_words` does, and answers
/// its status, or 4 for want of memory for the words.
pub fn play<R: Read, W: Write, F: Write>(
    alloc: Global,
    args: &[String],
    reader: &mut R,
    writer: &mut W,
    faults: &mut F,
) -> u8
    ensures { IfSome (R.remaining reader.old) (λ input. (t : PlainTold) × ArgsTell input t
        × Written (W.contents writer.old) (W.contents writer.new) (F.contents faults.old) (F.contents faults.new) t result) }
{
    match parse_words(alloc, args, false) {
        Ok(request) => {
            let status = play_words(alloc, &request, reader, writer, faults);
            drop(request);
            status
        }
        Err(_) => write_told(&[], b"out of memory\n", SPENT, writer, faults),
    }
}
