//! Runs of which more is shown, or in another form: the long form of their events, their picture, and lines of JSON.

ghost use Rattle.txs_cli_audit.specs.Audit.{IsRight};

use crate::files::{
    complain, covers_source, explained_as, file_of, no_memory, read_input, write_to,
};
use std::alloc::{AllocError, Global};
use std::io;
use std::io::Write;
use std::sync::Wait;
use std::thread::Threads;
use txs_audit_book::{AuditError, Terms, Verdict};
use txs_cli::run::Working;
use txs_cli::{Record, play_schedule, record_by_workers};
use txs_cli_args::{Request, RunOptions, Scheduling, Showing};
use txs_cli_report::explain::Script;
use txs_cli_report::told::{DONE, REFUSED, SPENT, Told, UNUSABLE};
use txs_cli_report::write_answer;
use txs_cli_show::{check_json, draw, problem_json, show_json, show_lines};
use txs_tree_meaning::Program;
use txs_world_protocol::Report;

/// How many workers audit a run by a schedule.
const AUDIT_WORKERS: usize = 4;

/// What is asked for: how a script runs, and what is shown of its run.
#[derive(Clone, Copy)]
pub(crate) struct Asked<'a> {
    pub(crate) request: &'a Request,
    pub(crate) scheduling: &'a Scheduling,
    pub(crate) options: RunOptions,
    pub(crate) showing: &'a Showing,
}

impl Asked<'_> {
    /// How many workers run it, or audit it.
    fn workers(self) -> usize {
        match self.scheduling {
            Scheduling::Workers(workers) => *workers as usize,
            Scheduling::Turns(_) | Scheduling::TurnsFrom(_) => AUDIT_WORKERS,
        }
    }

    /// The same for what is shown.
    fn working(self) -> Working {
        Working {
            workers: self.workers(),
            options: self.options,
        }
    }

    /// What its run is told, whose audit comes behind it: of a run of which lines of JSON are printed there is no plain output.
    fn run_options(self) -> RunOptions {
        let plain = !self.showing.json;
        RunOptions {
            steps: self.options.steps,
            cells: plain && self.options.cells,
            events: plain && self.options.events,
            audit: false,
        }
    }
}

/// The list of plays by which a run is shown.
#[derive(Drop)]
enum Listed<'a> {
    /// Nothing is shown: the script was refused or didn't run.
    Unshown,
    /// No list was found by which a schedule tells the same.
    NoList,
    /// The list of a run by workers.
    Noted(String),
    /// The list that was given.
    Given(&'a str),
}

/// How errors begin where memory ran out before anything could be told.
const NO_MEMORY: &[u8] = b"out of memory";

/// Standard error, and whether it was told there that memory ran out.
#[derive(Drop)]
struct Errors<F> {
    inner: F,
    lacks_memory: bool,
}

impl<F: Write> Write for Errors<F> {
    fn write(&mut self, bytes: &[u8]) -> io::Result<usize> {
        if bytes.starts_with(NO_MEMORY) {
            self.lacks_memory = true;
        }
        self.inner.write(bytes)
    }

    fn flush(&mut self) -> io::Result<()> {
        self.inner.flush()
    }
}

/// Runs the script by so many workers, and writes what is told of it. Answers the status, and the list of the run.
fn work<'a, T: Threads + Wait + Sync, W: Write, F: Write>(
    threads: &T,
    alloc: Global,
    script: Script<'_>,
    working: Working,
    writer: &mut W,
    faults: &mut F,
) -> (u8, Listed<'a>) {
    let (status, record) = record_by_workers(
        threads,
        alloc,
        working.workers,
        working.options,
        script.file,
        &mut { script.text },
        writer,
        faults,
    );
    match record {
        Record::NoRun => (status, Listed::Unshown),
        Record::NoList => (status, Listed::NoList),
        Record::List(list) => (status, Listed::Noted(list)),
    }
}

/// Runs the script as it is asked for, and writes what is told of it. Answers the status, and the list of plays by which the run is shown.
fn run<'a, T: Threads + Wait + Sync, W: Write, F: Write>(
    threads: &T,
    alloc: Global,
    script: Script<'_>,
    asked: Asked<'a>,
    writer: &mut W,
    faults: &mut F,
) -> (u8, Listed<'a>) {
    let options = asked.run_options();
    match asked.scheduling {
        Scheduling::Workers(workers) => {
            let working = Working {
                workers: *workers as usize,
                options,
            };
            work(threads, alloc, script, working, writer, faults)
        }
        Scheduling::Turns(turns) | Scheduling::TurnsFrom(turns) => {
            let turns = turns.as_str();
            let mut text = script.text;
            let status = play_schedule(
                alloc,
                turns,
                options,
                script.file,
                &mut text,
                writer,
                faults,
            );
            if status == REFUSED || status == UNUSABLE {
                return (status, Listed::Unshown);
            }
            (status, Listed::Given(turns))
        }
    }
}

/// Writes the picture of the run of a script by this list of plays to the file of this name. Answers the status.
pub(crate) fn draw_to(
    rt: &HostRuntime,
    request: &Request,
    text: &[u8],
    list: &str,
    steps: u64,
    out: &str,
) -> u8 {
    if covers_source(rt, request, out) {
        return complain(
            rt,
            b"error: the file of --timeline is the script itself\n",
            UNUSABLE,
        );
    }
    match draw(rt.alloc(), text, list, steps) {
        Ok(Some(picture)) => write_to(rt, request, out, picture.as_slice(), "the picture"),
        Ok(None) => complain(rt, b"show failed\n", SPENT),
        Err(_) => no_memory(rt),
    }
}

/// Writes the picture of a run, where it is asked for. Answers the status.
fn draw_run(rt: &HostRuntime, text: &[u8], list: &str, asked: Asked<'_>) -> u8 {
    match &asked.showing.timeline {
        Some(out) => {
            let steps = asked.options.steps;
            draw_to(rt, asked.request, text, list, steps, out.as_str())
        }
        None => DONE,
    }
}

/// Shows the run by this list of plays behind its plain output, which ended with this status. Answers the highest status.
fn show_behind<A: Fn(Global, &Program, &Report, Terms, usize) -> Result<Verdict, AuditError>>(
    rt: &HostRuntime,
    auditor: &A,
    script: Script<'_>,
    list: &str,
    asked: Asked<'_>,
    status: u8,
) -> u8
    requires audit { (a : _) (p : _) (r : _) (w : _) (n : _) → A.pre auditor.now a p r w n }
    requires right { (a : _) (p : _) (r : _) (w : _) (n : _) (v : _) → A.post auditor.now a p r w n v → IsRight p.now r.now w v }
{
    let status = status.max(draw_run(rt, script.text, list, asked));
    let full = asked.showing.full;
    if !full && !asked.options.audit {
        return status;
    }
    let told = show_lines(rt.alloc(), auditor, script, list, asked.working(), full);
    status.max(write_answer(told, &mut io::writer(rt), &mut rt.stderr()))
}

/// Runs a script, writes what is told of it, and shows its run behind that. Answers the status.
fn show_plainly<
    T: Threads + Wait + Sync,
    A: Fn(Global, &Program, &Report, Terms, usize) -> Result<Verdict, AuditError>,
>(rt: &HostRuntime, threads: &T, auditor: &A, text: &[u8], asked: Asked<'_>) -> u8
    requires audit { (a : _) (p : _) (r : _) (w : _) (n : _) → A.pre auditor.now a p r w n }
    requires right { (a : _) (p : _) (r : _) (w : _) (n : _) (v : _) → A.post auditor.now a p r w n v → IsRight p.now r.now w v }
{
    let file = explained_as(asked.request);
    let script = Script { text, file };
    let alloc = rt.alloc();
    let mut out = io::writer(rt);
    let mut faults = Errors {
        inner: rt.stderr(),
        lacks_memory: false,
    };
    let (status, listed) = run(threads, alloc, script, asked, &mut out, &mut faults);
    if faults.lacks_memory {
        return status;
    }
    match &listed {
        Listed::Unshown => status,
        Listed::NoList => status.max(complain(rt, b"record failed\n", SPENT)),
        Listed::Noted(list) => show_behind(rt, auditor, script, list.as_str(), asked, status),
        Listed::Given(list) => show_behind(rt, auditor, script, list, asked, status),
    }
}

/// The first line of what a run that isn't shown wrote on its standard error.
fn first_line(errors: &[u8]) -> &str {
    match str::from_utf8(errors) {
        Ok(text) => match text.split_once('\n') {
            Some((line, _)) => line,
            None => text,
        },
        Err(_) => "",
    }
}

/// The lines of a script that is refused, or that didn't run, which wrote this on its standard error and ended with this status.
fn unshown<A: Fn(Global, &Program, &Report, Terms, usize) -> Result<Verdict, AuditError>>(
    alloc: Global,
    auditor: &A,
    script: Script<'_>,
    asked: Asked<'_>,
    errors: &[u8],
    status: u8,
) -> Result<Told, AllocError>
    requires audit { (a : _) (p : _) (r : _) (w : _) (n : _) → A.pre auditor.now a p r w n }
    requires right { (a : _) (p : _) (r : _) (w : _) (n : _) (v : _) → A.post auditor.now a p r w n v → IsRight p.now r.now w v }
{
    if status == REFUSED {
        return show_json(alloc, auditor, script, "", asked.working(), status);
    }
    problem_json(alloc, first_line(errors), status)
}

/// The lines of a run by this list of plays, which ended with this status, and whose picture is written, where it is asked for.
fn drawn_json<A: Fn(Global, &Program, &Report, Terms, usize) -> Result<Verdict, AuditError>>(
    rt: &HostRuntime,
    auditor: &A,
    script: Script<'_>,
    list: &str,
    asked: Asked<'_>,
    status: u8,
) -> Result<Told, AllocError>
    requires audit { (a : _) (p : _) (r : _) (w : _) (n : _) → A.pre auditor.now a p r w n }
    requires right { (a : _) (p : _) (r : _) (w : _) (n : _) (v : _) → A.post auditor.now a p r w n v → IsRight p.now r.now w v }
{
    let status = status.max(draw_run(rt, script.text, list, asked));
    show_json(rt.alloc(), auditor, script, list, asked.working(), status)
}

/// The name of what the request works on.
fn name_of(request: &Request) -> &str {
    file_of(request).unwrap_or("-")
}

/// Runs a script, and writes its run as lines of JSON. Answers the status.
fn show_as_json<
    'a,
    T: Threads + Wait + Sync,
    A: Fn(Global, &Program, &Report, Terms, usize) -> Result<Verdict, AuditError>,
>(rt: &HostRuntime, threads: &T, auditor: &A, text: &'a [u8], asked: Asked<'a>) -> u8
    requires audit { (a : _) (p : _) (r : _) (w : _) (n : _) → A.pre auditor.now a p r w n }
    requires right { (a : _) (p : _) (r : _) (w : _) (n : _) (v : _) → A.post auditor.now a p r w n v → IsRight p.now r.now w v }
{
    let alloc = rt.alloc();
    let mut errors = Vec::new(alloc);
    let plain = Script { text, file: None };
    let (status, listed) = run(threads, alloc, plain, asked, &mut io::sink(), &mut errors);
    if errors.as_slice().starts_with(NO_MEMORY) {
        return no_memory(rt);
    }
    let script = Script {
        text,
        file: Some(name_of(asked.request)),
    };
    let told = match &listed {
        Listed::Unshown => unshown(alloc, auditor, script, asked, errors.as_slice(), status),
        Listed::NoList => problem_json(alloc, "record failed", status.max(SPENT)),
        Listed::Noted(list) => drawn_json(rt, auditor, script, list.as_str(), asked, status),
        Listed::Given(list) => drawn_json(rt, auditor, script, list, asked, status),
    };
    write_answer(told, &mut io::writer(rt), &mut rt.stderr())
}

/// Whether the picture would go over the script itself.
fn covers(rt: &HostRuntime, asked: Asked<'_>) -> bool {
    match &asked.showing.timeline {
        Some(out) => covers_source(rt, asked.request, out.as_str()),
        None => false,
    }
}

/// Runs the request's file or standard input, and shows its run. Answers the status.
pub(crate) fn show_on<
    T: Threads + Wait + Sync,
    A: Fn(Global, &Program, &Report, Terms, usize) -> Result<Verdict, AuditError>,
>(rt: &HostRuntime, threads: &T, auditor: &A, asked: Asked<'_>) -> u8
    requires audit { (a : _) (p : _) (r : _) (w : _) (n : _) → A.pre auditor.now a p r w n }
    requires right { (a : _) (p : _) (r : _) (w : _) (n : _) (v : _) → A.post auditor.now a p r w n v → IsRight p.now r.now w v }
{
    if covers(rt, asked) {
        return complain(
            rt,
            b"error: the file of --timeline is the script itself\n",
            UNUSABLE,
        );
    }
    let bytes = match read_input(rt, asked.request) {
        Ok(bytes) => bytes,
        Err(status) => return status,
    };
    if asked.showing.json {
        return show_as_json(rt, threads, auditor, bytes.as_slice(), asked);
    }
    show_plainly(rt, threads, auditor, bytes.as_slice(), asked)
}

/// Checks the request's file or standard input, and writes what comes of it as a line of JSON. Answers the status.
pub(crate) fn check_on(rt: &HostRuntime, request: &Request) -> u8 {
    let bytes = match read_input(rt, request) {
        Ok(bytes) => bytes,
        Err(status) => return status,
    };
    let script = Script {
        text: bytes.as_slice(),
        file: Some(name_of(request)),
    };
    let told = check_json(rt.alloc(), script);
    write_answer(told, &mut io::writer(rt), &mut rt.stderr())
}
