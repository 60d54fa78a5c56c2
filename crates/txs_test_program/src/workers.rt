// The program, where workers run what it is told to run, as `main` does it. Nobody audits.
ghost use Rattle.txs_cli_audit.specs.Audit.{IsRight};

use std::alloc::Global;
use std::sync::Wait;
use std::thread::Threads;
use txs_audit_book::{AuditError, Terms, Verdict};
use txs_cli::play_by_workers;
use txs_cli_args::{Input, Request, RunOptions};
use txs_tree_meaning::Program;
use txs_world_protocol::Report;

/// Writes what the program does for these words and this input, and to the standard error: its status.
fn written<T: Threads + Wait + Sync>(
    threads: &T,
    alloc: Global,
    request: &Request,
    input: &[u8],
    output: &mut Vec<u8>,
    errors: &mut Vec<u8>,
) -> u8 {
    let mut reader = input;
    play_by_workers(
        threads,
        alloc,
        &|_alloc: Global, program: &Program, report: &Report, terms: Terms, _workers: usize| -> Result<
            Verdict,
            AuditError,
        >
            ensures { IsRight program.now report.now terms result }
        { Err(AuditError::NoThread) },
        request,
        &mut reader,
        output,
        errors,
    )
}

/// Two threads, of which one waits for the other, and an agent to which a transaction sends.
const SCRIPT: &[u8] = b"(def r (ref 0)) (def g (agent 0))
(defn wait [] (if (= (dosync @r) 5) (println :done) (recur)))
(future (dosync (alter r + 1) (send g + 2)))
(future (dosync (alter r + 4)) (wait))";

/// Whether the program ends so for these words and this input, where it writes this, and this to the standard error.
fn writes<T: Threads + Wait + Sync>(
    threads: &T,
    alloc: Global,
    request: Request,
    input: &[u8],
    status: u8,
    text: &[u8],
    fault: &[u8],
) -> bool {
    let mut output = Vec::new(alloc);
    let mut errors = Vec::new(alloc);
    let ended = written(threads, alloc, &request, input, &mut output, &mut errors);
    drop(request);
    ended == status && output.as_slice() == text && errors.as_slice() == fault
}

/// The standard input: a script, or code in its byte form.
fn input_of(code: bool) -> Input {
    Input {
        file: None,
        code,
        explain: false,
    }
}

/// The request for a run by so many workers, of a script or of code, with the cells behind it.
fn work(workers: u64, code: bool) -> Request {
    Request::Run {
        input: input_of(code),
        workers,
        options: RunOptions {
            steps: 100_000_000,
            cells: true,
            events: false,
            audit: false,
        },
    }
}

/// The same request for a run of a script, with an audit. Here nobody audits.
fn audit(workers: u64) -> Request {
    Request::Run {
        input: input_of(false),
        workers,
        options: RunOptions {
            steps: 100_000_000,
            cells: true,
            events: false,
            audit: true,
        },
    }
}

/// What the script leaves.
const LEFT: &[u8] = b":done\nr 5\ng 2\n";

/// Whether two workers leave the same where they run the script's code in its byte form.
fn code_leaves<T: Threads + Wait + Sync>(threads: &T, alloc: Global) -> bool {
    let build = Request::Build {
        input: input_of(false),
        out: String::new(alloc),
    };
    let mut code = Vec::new(alloc);
    let mut errors = Vec::new(alloc);
    let status = written(threads, alloc, &build, SCRIPT, &mut code, &mut errors);
    drop(build);
    status == 0 && writes(threads, alloc, work(2, true), code.as_slice(), 0, LEFT, b"")
}

#[test]
fn workers_run_a_script_and_its_code(rt: HostRuntime) {
    let alloc = rt.alloc();
    let none = b"run failed: NoThread\n".as_slice();
    assert!(rt; writes(&rt, alloc, work(2, false), SCRIPT, 0, LEFT, b""));
    assert!(rt; writes(&rt, alloc, work(0, false), SCRIPT, 4, b"", none));
    assert!(rt; code_leaves(&rt, alloc));
}

#[test]
fn what_has_no_answer_leaves_the_run(rt: HostRuntime) {
    let none = b"run failed: NoThread\n".as_slice();
    assert!(rt; writes(&rt, rt.alloc(), audit(2), SCRIPT, 4, LEFT, none));
}
