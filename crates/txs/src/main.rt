//! The program that runs scripts: `txs run [FILE]`, which is `txs FILE`, `txs schedule [FILE]`, `txs check [FILE]`, `txs dis [FILE]` and
//! `txs build [FILE] --out F`.
#![tactic(auto)]

ghost use Rattle.std.specs.Thread.{IsSync};
ghost use Rattle.txs_cli_audit.specs.Audit.{IsRight};

mod explore;
mod files;
mod record;
mod show;

use crate::explore::explore_on;
use crate::files::{Source, complain, covers_source, explain_file, file_of, no_memory, write_to};
use crate::record::record_to;
use crate::show::{Asked, check_on, show_on};
use std::alloc::Global;
use std::io::{ErrorKind, IsTerminal, Write};
use std::process::ExitCode;
use std::sync::Wait;
use std::thread::Threads;
use std::{env, fs, io};
use txs_audit::audit;
use txs_audit_book::{AuditError, Terms, Verdict};
use txs_cli::play_by_workers;
use txs_cli_args::{Input, Request, Scheduling, parse_words};
use txs_cli_report::told::{DONE, UNUSABLE};
use txs_tree_meaning::Program;
use txs_world_protocol::Report;

/// The words after the program's name.
fn args_of(rt: &HostRuntime) -> io::Result<Vec<String>> {
    let mut args = Vec::new(rt.alloc());
    for arg in env::args(rt)?.skip(1) {
        args.push(arg)?;
    }
    Ok(args)
}

/// Does what the request asks for on its file or on standard input, over this writer.
fn play_on<
    T: Threads + Wait + Sync,
    A: Fn(Global, &Program, &Report, Terms, usize) -> Result<Verdict, AuditError>,
    W: Write,
>(rt: &HostRuntime, threads: &T, auditor: &A, request: &Request, writer: &mut W) -> u8
    requires audit { (a : _) (p : _) (r : _) (w : _) (n : _) → A.pre auditor.now a p r w n }
    requires right { (a : _) (p : _) (r : _) (w : _) (n : _) (v : _) → A.post auditor.now a p r w n v → IsRight p.now r.now w v }
{
    let alloc = rt.alloc();
    let mut faults = rt.stderr();
    let Some(name) = file_of(request) else {
        return play_by_workers(
            threads,
            alloc,
            auditor,
            request,
            &mut rt.stdin(),
            writer,
            &mut faults,
        );
    };
    let mut source = Source::open(rt, name);
    let status = play_by_workers(
        threads,
        alloc,
        auditor,
        request,
        &mut source,
        writer,
        &mut faults,
    );
    if let Some(error) = &source.fault {
        explain_file(rt, request, name, error);
    }
    status
}

/// Does what a request asks for whose code goes to a file. That is written where all went well, and else left as it is.
fn build_to<
    T: Threads + Wait + Sync,
    A: Fn(Global, &Program, &Report, Terms, usize) -> Result<Verdict, AuditError>,
>(rt: &HostRuntime, threads: &T, auditor: &A, request: &Request, out: &str) -> u8
    requires audit { (a : _) (p : _) (r : _) (w : _) (n : _) → A.pre auditor.now a p r w n }
    requires right { (a : _) (p : _) (r : _) (w : _) (n : _) (v : _) → A.post auditor.now a p r w n v → IsRight p.now r.now w v }
{
    if covers_source(rt, request, out) {
        return complain(
            rt,
            b"error: the file of --out is the script itself\n",
            UNUSABLE,
        );
    }
    let mut code = Vec::new(rt.alloc());
    let status = play_on(rt, threads, auditor, request, &mut code);
    if status != DONE {
        return status;
    }
    write_to(rt, request, out, code.as_slice(), "the code")
}

/// Does what the request asks for.
fn play_all<
    T: Threads + Wait + Sync,
    A: Fn(Global, &Program, &Report, Terms, usize) -> Result<Verdict, AuditError>,
>(rt: &HostRuntime, threads: &T, auditor: &A, request: &Request) -> u8
    requires audit { (a : _) (p : _) (r : _) (w : _) (n : _) → A.pre auditor.now a p r w n }
    requires right { (a : _) (p : _) (r : _) (w : _) (n : _) (v : _) → A.post auditor.now a p r w n v → IsRight p.now r.now w v }
{
    match request {
        Request::Build { out, .. } => build_to(rt, threads, auditor, request, out.as_str()),
        Request::Record {
            workers,
            options,
            out,
            ..
        } => record_to(rt, threads, request, *workers, *options, out.as_str()),
        Request::Show {
            scheduling,
            options,
            showing,
            ..
        } => {
            let asked = Asked {
                request,
                scheduling,
                options: *options,
                showing,
            };
            show_on(rt, threads, auditor, asked)
        }
        Request::CheckJson { .. } => check_on(rt, request),
        Request::Explore {
            exploring,
            timeline,
            ..
        } => {
            let folder = match timeline {
                Some(folder) => Some(folder.as_str()),
                None => None,
            };
            explore_on(rt, auditor, request, *exploring, folder)
        }
        _ => play_on(rt, threads, auditor, request, &mut io::writer(rt)),
    }
}

/// Has a report audited by so many workers, which are started with this handle, by what its run was to do.
fn audit_by<T: Threads + Wait + Sync>(
    threads: &T,
    alloc: Global,
    program: &Program,
    report: &Report,
    terms: Terms,
    workers: usize,
) -> Result<Verdict, AuditError>
    requires sync { IsSync T.row }
    ensures { IsRight program.now report.now terms result }
{
    let Ok(workers) = u16::try_from(workers) else {
        return Err(AuditError::NoThread);
    };
    audit(
        threads,
        alloc,
        program,
        report,
        terms,
        workers,
        terms.turns(),
    )
}

/// Does what the request asks for; where that is an audit, its workers are started with this handle.
fn play_audited<T: Threads + Wait + Sync>(rt: &HostRuntime, threads: &T, request: &Request) -> u8 {
    play_all(
        rt,
        threads,
        &|alloc: Global, program: &Program, report: &Report, terms: Terms, workers: usize| -> Result<
            Verdict,
            AuditError,
        >
            requires sync { IsSync T.row }
            ensures { IsRight program.now report.now terms result }
        { audit_by(threads, alloc, program, report, terms, workers) },
        request,
    )
}

/// Says why the arguments couldn't be read: there is no memory for them, or one isn't UTF-8.
fn unread(rt: &HostRuntime, error: &io::Error) -> u8 {
    match error.kind() {
        ErrorKind::OutOfMemory => no_memory(rt),
        _ => complain(
            rt,
            b"error: invalid UTF-8 was detected in one or more arguments\n",
            UNUSABLE,
        ),
    }
}

/// What the command line asks for.
fn request_of(rt: &HostRuntime) -> io::Result<Request> {
    let args = args_of(rt)?;
    let is_terminal = rt.stderr().is_terminal();
    Ok(parse_words(rt.alloc(), args.as_slice(), is_terminal)?)
}

/// The text of the file of this name, or of standard input where it is `-`.
fn read_list(rt: &HostRuntime, from: &str) -> io::Result<String> {
    let text = if from == "-" {
        io::read_to_string(rt.alloc(), rt.stdin())?
    } else {
        fs::read_to_string(rt, from)?
    };
    Ok(String::from_str(rt.alloc(), text.as_str().trim_end())?)
}

/// The list of the file of this name, or of standard input where it is `-`, for a request that works on this.
///
/// # Errors
/// The status where it can't be read, which is said.
fn list_from(rt: &HostRuntime, input: &Input, from: &str) -> Result<String, u8> {
    if from == "-" && input.file.is_none() {
        return Err(complain(
            rt,
            b"error: the list and the script can't both be standard input\n",
            UNUSABLE,
        ));
    }
    match read_list(rt, from) {
        Ok(plays) => Ok(plays),
        Err(error) => {
            let status = complain(rt, b"read failed\n", UNUSABLE);
            if input.explain {
                let _ = eprintln!(rt; "{from}: {error}");
            }
            Err(status)
        }
    }
}

/// The same way to schedule a run, with the list that it has from a file in the place of the file.
fn scheduling_with_list(
    rt: &HostRuntime,
    input: &Input,
    scheduling: Scheduling,
) -> Result<Scheduling, u8> {
    match scheduling {
        Scheduling::TurnsFrom(from) => {
            Ok(Scheduling::Turns(list_from(rt, input, from.as_str())?))
        }
        Scheduling::Workers(_) | Scheduling::Turns(_) => Ok(scheduling),
    }
}

/// The same request, with the list that it has from a file in the place of the file.
fn with_list(rt: &HostRuntime, request: Request) -> Result<Request, u8> {
    match request {
        Request::Replay {
            input,
            from,
            options,
        } => {
            let plays = list_from(rt, &input, from.as_str())?;
            Ok(Request::Schedule {
                input,
                plays,
                options,
            })
        }
        Request::Show {
            input,
            scheduling,
            options,
            showing,
        } => {
            let scheduling = scheduling_with_list(rt, &input, scheduling)?;
            Ok(Request::Show {
                input,
                scheduling,
                options,
                showing,
            })
        }
        _ => Ok(request),
    }
}

/// Does what the request asks for, with its list read from a file where it says so.
fn play_listed<T: Threads + Wait + Sync>(rt: &HostRuntime, threads: &T, request: Request) -> u8 {
    match with_list(rt, request) {
        Ok(request) => play_audited(rt, threads, &request),
        Err(status) => status,
    }
}

fn main(rt: HostRuntime) -> ExitCode {
    let status = match request_of(&rt) {
        Ok(request) => play_listed(&rt, &rt, request),
        Err(error) => unread(&rt, &error),
    };
    ExitCode::from(status)
}
