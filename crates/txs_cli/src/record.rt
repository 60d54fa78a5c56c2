//! A run by workers that is recorded: with a list of plays by which a schedule tells the same, to the byte.

ghost use Rattle.std.specs.Prelude.{◌≡◌, ◌++◌, string_bytes, true, Some, IfOk, IfSome, IsTrue};
ghost use Rattle.txs_cli.specs.Recorded.{Records, ReportRecords, whole};
ghost use Rattle.txs_cli.specs.Runner.{HasFailed, IsRunnable, IsWorked, RunsLawfully};
ghost use Rattle.txs_cli.specs.Runs.{Turns, Workers, failing_run, nobody};
ghost use Rattle.txs_cli.specs.Source.{IsLoaded, OfScript};
ghost use Rattle.txs_cli.specs.Telling.{Run, ScheduleTells, SourceTells, UseTells, without_audit};
ghost use Rattle.txs_machine.specs.Schedule.{spread};
ghost use Rattle.txs_cli_report.specs.Lent.{lines_of, script_of, text_in, told_of};
ghost use Rattle.txs_cli_report.specs.Lines.{all_printed};
ghost use Rattle.txs_cli_report.specs.Told.{Answers, ReportTells, Told as PlainTold, Written, behind_bytes, front};

use crate::run::{Working, run_all, run_plays};
use crate::source::{Loaded, Source, load, tell_refusal, unread};
use crate::tell::of_failure;
use std::alloc::{AllocError, Global};
use std::io::{Read, Write};
use txs_cli_args::RunOptions;
use txs_cli_report::explain::Script;
use txs_cli_report::report::{report_lines, report_run};
use txs_cli_report::streams::read_bytes;
use txs_cli_report::told::Told;
use txs_cli_report::{read_plays, write_answer, write_plays};
use txs_code_meaning::Verified;
use txs_machine::{ActorReport, Entries, Repeated, RunError, ScheduleError};
use txs_world_shared::SharedState;

/// What came of a run that was to be recorded.
#[derive(Drop)]
pub enum Record {
    /// Nothing ran: the script was refused or couldn't be read, or its run has no report.
    NoRun,
    /// No list of plays was found by which a schedule tells the same.
    NoList,
    /// The list.
    List(String),
}

/// The same run, of which all is told.
fn whole(options: RunOptions) -> RunOptions
    ensures { result ≡ whole options }
{
    RunOptions {
        steps: options.steps,
        cells: true,
        events: true,
        audit: false,
    }
}

/// Whether two texts are the same.
fn same_bytes(a: &[u8], b: &[u8]) -> bool
    ensures { IsTrue result → a.now ≡ b.now }
{
    a == b
}

/// Whether these actors printed the same, each as its counterpart.
fn same_printed(a: &[ActorReport], b: &[ActorReport]) -> bool
    ensures { IsTrue result → all_printed a.now ≡ all_printed b.now }
{
    if a.len() != b.len() {
        return false;
    }
    for i in 0..a.len() {
        let same = same_bytes(a[i].printed.as_slice(), b[i].printed.as_slice());
        if !same {
            return false;
        }
    }
    true
}

/// Whether the same lines and the same status are told.
fn same_lines(a: &Told, b: &Told) -> bool
    ensures { IsTrue result → lines_of a.now ≡ lines_of b.now }
{
    if a.status != b.status {
        return false;
    }
    let output = same_bytes(a.output.as_slice(), b.output.as_slice());
    if !output {
        return false;
    }
    same_bytes(a.errors.as_slice(), b.errors.as_slice())
}

/// Whether a schedule told what is told of a run: the bytes of both streams, and the status.
fn is_told(report: &Entries, lines: &Told, again: &Told) -> bool
    ensures { IsTrue result → told_of again.now ≡ behind_bytes (all_printed (report.now.threads.items ++ report.now.agents.items)) (lines_of lines.now) }
{
    let lines = same_lines(again, lines);
    if !lines {
        return false;
    }
    let threads = same_printed(again.threads.as_slice(), report.threads.as_slice());
    if !threads {
        return false;
    }
    same_printed(again.agents.as_slice(), report.agents.as_slice())
}

/// The text of a list of plays. None where it isn't read as one.
fn text_of(alloc: Global, plays: &[Repeated]) -> Result<Option<String>, AllocError> {
    let mut bytes = Vec::new(alloc);
    write_plays(&mut bytes, plays)?;
    match String::from_utf8(bytes) {
        Ok(text) => Ok(Some(text)),
        Err(_) => Ok(None),
    }
}

/// What the run of a script's code by these plays and then in rounds tells with its cells and events. None where a play names no actor.
fn tell_again(
    alloc: Global,
    script: Script<'_>,
    loaded: &Loaded,
    plays: &[Repeated],
    options: RunOptions,
) -> Result<Option<Told>, AllocError>
    requires loaded { IsLoaded (OfScript (text_in script.file)) script.text.now loaded.now.program loaded.now.code }
    ensures { IfOk result (λ o. IfSome o (λ t. UseTells nobody (script_of script.entry) loaded.now.program loaded.now.code (Run (Turns (spread plays.now)) (whole options)) (told_of t))) }
{
    let all = whole(options);
    match run_plays(alloc, &loaded.code, plays, all.steps) {
        Ok((shared, report)) => {
            let code = loaded.code.code();
            let told = report_run(alloc, script, code, report, &shared, all)?;
            Ok(Some(told))
        }
        Err(ScheduleError::NoActor) => Ok(None),
        Err(ScheduleError::Memory) => Err(AllocError),
    }
}

/// Whether a schedule by this list tells all that is told of a run.
fn repeats(
    alloc: Global,
    script: Script<'_>,
    loaded: &Loaded,
    list: &str,
    options: RunOptions,
    report: &Entries,
    lines: &Told,
) -> Result<bool, AllocError>
    requires loaded { IsLoaded (OfScript (text_in script.file)) script.text.now loaded.now.program loaded.now.code }
    ensures { IfOk result (λ b. b ≡ true → ScheduleTells nobody (OfScript (text_in script.entry.file)) script.entry.text.now list.now (whole options) (behind_bytes (all_printed (report.now.threads.items ++ report.now.agents.items)) (lines_of lines.now))) }
{
    let Ok(plays) = read_plays(alloc, list) else {
        return Ok(false);
    };
    let Some(again) = tell_again(alloc, script, loaded, plays.as_slice(), options)? else {
        return Ok(false);
    };
    Ok(is_told(report, lines, &again))
}

/// The list of these plays, if a schedule by it tells all that is told of a run.
fn list_of(
    alloc: Global,
    script: Script<'_>,
    loaded: &Loaded,
    plays: Option<Vec<Repeated>>,
    options: RunOptions,
    report: &Entries,
    lines: &Told,
) -> Result<Option<String>, AllocError>
    requires loaded { IsLoaded (OfScript (text_in script.file)) script.text.now loaded.now.program loaded.now.code }
    ensures { IfOk result (λ l. IfSome l (λ list. ScheduleTells nobody (OfScript (text_in script.entry.file)) script.entry.text.now (string_bytes list) (whole options) (behind_bytes (all_printed (report.now.threads.items ++ report.now.agents.items)) (lines_of lines.now)))) }
{
    let Some(plays) = plays else {
        return Ok(None);
    };
    let Some(list) = text_of(alloc, plays.as_slice())? else {
        return Ok(None);
    };
    if repeats(alloc, script, loaded, list.as_str(), options, report, lines)? {
        return Ok(Some(list));
    }
    drop(list);
    Ok(None)
}

/// What is told of a run that is over, and the list of the plays that were noted, if a schedule by it tells the same.
fn record_report<P: Fn() -> Result<Option<Vec<Repeated>>, AllocError>>(
    alloc: Global,
    noted: &P,
    script: Script<'_>,
    loaded: &Loaded,
    shared: &SharedState,
    report: Entries,
    options: RunOptions,
) -> Result<(Told, Record), AllocError>
    requires noted { P.pre noted.now }
    requires loaded { IsLoaded (OfScript (text_in script.file)) script.text.now loaded.now.program loaded.now.code }
    requires worked { IsWorked loaded.now.code options.steps shared.now report }
    ensures told { IfOk result (λ r. ReportTells loaded.now.code (script_of script.entry) shared.now report options.cells options.events (told_of r.0)) }
    ensures recorded { IfOk result (λ r. ReportRecords loaded.now.code (script_of script.entry) options shared.now report (told_of r.0) r.1) }
{
    let code = loaded.code.code();
    let lines = report_lines(alloc, script, code, &report, shared, whole(options))?;
    let plays = noted()?;
    let list = list_of(alloc, script, loaded, plays, options, &report, &lines)?;
    drop(lines);
    let told = report_run(alloc, script, code, report, shared, options)?;
    match list {
        Some(list) => Ok((told, Record::List(list))),
        None => Ok((told, Record::NoList)),
    }
}

/// Runs the code of a script by workers, and tells of the run, with its list.
fn record_loaded<
    X: Fn(Global, &Verified, usize, u64) -> Result<(SharedState, Entries), RunError>,
    P: Fn() -> Result<Option<Vec<Repeated>>, AllocError>,
>(
    alloc: Global,
    runner: &X,
    noted: &P,
    script: Script<'_>,
    loaded: &Loaded,
    working: Working,
) -> Result<(Told, Record), AllocError>
    requires call { (a : _) (code : _) (n : _) (steps : _) → IsRunnable code.now → X.pre runner.now a code n steps }
    requires ran { (a : _) (code : _) (n : _) (steps : _) (r : _) → X.post runner.now a code n steps r → RunsLawfully code.now steps r }
    requires noted { P.pre noted.now }
    requires loaded { IsLoaded (OfScript (text_in script.file)) script.text.now loaded.now.program loaded.now.code }
    ensures told { IfOk result (λ r. SourceTells (failing_run (X.post runner.now)) (OfScript (text_in script.entry.file)) script.entry.text.now (Run (Workers working.workers) (without_audit working.options)) (told_of r.0)) }
    ensures recorded { IfOk result (λ r. Records (script_of script.entry) working.options (told_of r.0) r.1) }
{
    let options = working.options;
    match run_all(alloc, runner, &loaded.code, working.workers, options.steps) {
        Ok((shared, report)) => record_report(
            alloc, noted, script, loaded, &shared, report, options,
        ),
        Err(failure) => {
            let told = of_failure(alloc, failure)?;
            Ok((told, Record::NoRun))
        }
    }
}

/// Runs a script by workers, and tells of the run, with its list; or that the script is refused.
fn record_script<
    X: Fn(Global, &Verified, usize, u64) -> Result<(SharedState, Entries), RunError>,
    P: Fn() -> Result<Option<Vec<Repeated>>, AllocError>,
>(
    alloc: Global,
    runner: &X,
    noted: &P,
    script: Script<'_>,
    working: Working,
) -> Result<(Told, Record), AllocError>
    requires call { (a : _) (code : _) (n : _) (steps : _) → IsRunnable code.now → X.pre runner.now a code n steps }
    requires ran { (a : _) (code : _) (n : _) (steps : _) (r : _) → X.post runner.now a code n steps r → RunsLawfully code.now steps r }
    requires noted { P.pre noted.now }
    ensures told { IfOk result (λ r. SourceTells (failing_run (X.post runner.now)) (OfScript (text_in script.entry.file)) script.entry.text.now (Run (Workers working.workers) (without_audit working.options)) (told_of r.0)) }
    ensures recorded { IfOk result (λ r. Records (script_of script.entry) working.options (told_of r.0) r.1) }
{
    let source = Source::Script(script.file);
    match load(alloc, source, script.text) {
        Ok(loaded) => record_loaded(alloc, runner, noted, script, &loaded, working),
        Err(refusal) => {
            let told = tell_refusal(alloc, source, script.text, refusal)?;
            Ok((told, Record::NoRun))
        }
    }
}

/// Has the reader's script run by workers, and writes what is told of it, as for a request to run it. Answers the status, and the list of plays by which a
/// schedule tells all that the run tells with its cells and events.
pub fn record_run<
    X: Fn(Global, &Verified, usize, u64) -> Result<(SharedState, Entries), RunError>,
    P: Fn() -> Result<Option<Vec<Repeated>>, AllocError>,
    R: Read,
    W: Write,
    F: Write,
>(
    alloc: Global,
    runner: &X,
    noted: &P,
    workers: usize,
    options: RunOptions,
    file: Option<&str>,
    reader: &mut R,
    writer: &mut W,
    faults: &mut F,
) -> (u8, Record)
    requires call { (a : _) (code : _) (n : _) (steps : _) → IsRunnable code.now → X.pre runner.now a code n steps }
    requires ran { (a : _) (code : _) (n : _) (steps : _) (r : _) → X.post runner.now a code n steps r → RunsLawfully code.now steps r }
    requires noted { P.pre noted.now }
    ensures { IfSome (R.remaining reader.old) (λ input. (t : PlainTold) × Answers (SourceTells (failing_run (X.post runner.now)) (OfScript (text_in file.entry)) (front input) (Run (Workers workers) (without_audit options))) t
        × Written (W.contents writer.old) (W.contents writer.new) (F.contents faults.old) (F.contents faults.new) t result.0 × Records (record { text = front input; file = text_in file.entry }) options t result.1) }
{
    let working = Working { workers, options };
    match read_bytes(alloc, reader) {
        Ok(bytes) => {
            let text = bytes.as_slice();
            let script = Script { text, file };
            match record_script(alloc, runner, noted, script, working) {
                Ok((told, record)) => (write_answer(Ok(told), writer, faults), record),
                Err(error) => (write_answer(Err(error), writer, faults), Record::NoRun),
            }
        }
        Err(fault) => (
            write_answer(unread(alloc, fault), writer, faults),
            Record::NoRun,
        ),
    }
}
