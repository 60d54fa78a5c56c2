// The program over streams of bytes, with workers and without.
ghost use Rattle.txs_cli_audit.specs.Audit.{IsRight};

use std::alloc::{AllocError, Global};
use std::sync::Wait;
use std::thread::Threads;
use txs_cli::{AuditError, Request, Terms, Verdict, parse_words, play, play_by_workers};
use txs_machine::Report;
use txs_tree_meaning::Program;

// The arguments between spaces.
fn args_of(alloc: Global, line: &str) -> Result<Vec<String>, AllocError> {
    let mut args = Vec::new(alloc);
    for word in line.split_whitespace() {
        args.push(String::from_str(alloc, word)?)?;
    }
    Ok(args)
}

// A read and an agent.
const SCRIPT: &[u8] = b"(def g (agent 1)) (future (send g + 2) (println :sent))";

// What it prints, with its cells.
const PRINTED: &[u8] = b":sent\ng 3\n";

// Whether the program ends with status 0 for these arguments, and writes that.
fn plays(alloc: Global, line: &str) -> bool {
    let Ok(args) = args_of(alloc, line) else {
        return false;
    };
    let mut reader = SCRIPT;
    let mut output = Vec::new(alloc);
    let mut errors = Vec::new(alloc);
    let status = play(
        alloc,
        args.as_slice(),
        &mut reader,
        &mut output,
        &mut errors,
    );
    status == 0 && output.as_slice() == PRINTED && errors.is_empty()
}

#[test]
fn plays_by_turns(rt: HostRuntime) {
    assert!(rt; plays(rt.alloc(), "schedule --cells --turns 0,t0"));
}

// Writes what the program does for these arguments, by workers, and to the standard error: its status.
fn written<T: Threads + Wait + Sync>(
    threads: &T,
    alloc: Global,
    request: &Request,
    output: &mut Vec<u8>,
    errors: &mut Vec<u8>,
) -> u8 {
    let mut reader = SCRIPT;
    play_by_workers(
        threads,
        alloc,
        &|_alloc: Global, program: &Program, report: &Report, terms: Terms, _workers: usize| -> Result<
            Verdict,
            AuditError,
        >
            ensures { IsRight program.now report.now terms result }
        { Err(AuditError::NoThread) },
        request,
        &mut reader,
        output,
        errors,
    )
}

// Whether workers leave the same.
fn plays_by<T: Threads + Wait + Sync>(threads: &T, alloc: Global, line: &str) -> bool {
    let Ok(args) = args_of(alloc, line) else {
        return false;
    };
    let Ok(request) = parse_words(alloc, args.as_slice(), false) else {
        return false;
    };
    let mut output = Vec::new(alloc);
    let mut errors = Vec::new(alloc);
    let status = written(threads, alloc, &request, &mut output, &mut errors);
    drop(request);
    status == 0 && output.as_slice() == PRINTED && errors.is_empty()
}

#[test]
fn plays_by_workers(rt: HostRuntime) {
    assert!(rt; plays_by(&rt, rt.alloc(), "run --cells --workers 2"));
}
