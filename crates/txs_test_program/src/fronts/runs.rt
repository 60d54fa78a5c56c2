// Runs by a schedule and by workers.
ghost use Rattle.std.specs.Prelude.{◌≡◌, ◌≤◌, ◌+◌, length, IfOk};
ghost use Rattle.txs_machine.specs.RunOver.{IsStateOf};
ghost use Rattle.txs_machine.specs.Shared.{untouched};
ghost use Rattle.txs_machine.specs.SharedState.{shared_of};

use std::alloc::{AllocError, Global};
use std::sync::Wait;
use std::thread::Threads;
use txs_code_meaning::Verified;
use txs_compile::compile;
use txs_machine::{Entries, Outcome, Play, Repeated, SharedState, run_repeated, run_schedule};
use txs_threads::{OpenGate, run_threads};

// A transaction that adds one and sends, a read, and the agent that is sent to.
const SCRIPT: &str = "(def c (ref 0)) (def g (agent 10))
(future (dosync (commute c inc) (send g inc)) (println @c))";

/// The code of a script. One that isn't compiled counts as want of memory.
pub fn code_of(alloc: Global, script: &str) -> Result<Verified, AllocError>
    ensures few { IfOk result (λ code. length code.threads + length code.cells ≤ 65535) }
{
    let Ok((program, code)) = compile(alloc, script.as_bytes()) else {
        return Err(AllocError);
    };
    drop(program);
    Ok(code)
}

// The state of the code's cells, with empty journals.
fn open_state(alloc: Global, code: &Verified) -> Result<SharedState, AllocError>
    requires few { length code.now.threads + length code.now.cells ≤ 65535 }
    ensures of { IfOk result (λ s. IsStateOf code.now s) }
    ensures unused { IfOk result (λ s. shared_of s ≡ untouched code.now.cells) }
{
    let code = code.code();
    SharedState::open(alloc, code.cells(), code.threads().len() as u16)
}

// Whether the thread has printed 1 and ended, with a commit and a read, and the agent has run one action; of so many events.
fn is_reported(report: &Entries, events: usize) -> bool {
    match (report.threads.as_slice(), report.agents.as_slice()) {
        ([thread], [agent]) => {
            thread.printed.as_slice() == b"1\n".as_slice()
                && thread.outcome == Some(Outcome::Done)
                && thread.trace.len() == 2
                && agent.trace.len() == 1
                && agent.outcome.is_none()
                && events == 3
        }
        _ => false,
    }
}

// Whether the script's run by one request and one turn of the thread, and then in rounds, is reported so.
fn is_scheduled(alloc: Global, code: &Verified) -> bool
    requires few { length code.now.threads + length code.now.cells ≤ 65535 }
{
    let Ok(mut shared) = open_state(alloc, code) else {
        return false;
    };
    let plays = [Play::Ask(0), Play::Turn(0)];
    match run_schedule(alloc, code, &plays, 1_000, true, &mut shared) {
        Ok(report) => is_reported(&report, shared.events().len()),
        Err(_) => false,
    }
}

// The same, where each play has the number of times that it is made.
fn is_repeated(alloc: Global, code: &Verified) -> bool
    requires few { length code.now.threads + length code.now.cells ≤ 65535 }
{
    let Ok(mut shared) = open_state(alloc, code) else {
        return false;
    };
    let plays = [Repeated {
        play: Play::Turn(0),
        times: 2,
    }];
    match run_repeated(alloc, code, &plays, 1_000, true, &mut shared) {
        Ok(report) => is_reported(&report, shared.events().len()),
        Err(_) => false,
    }
}

#[test]
fn runs_by_turns(rt: HostRuntime) {
    let is = match code_of(rt.alloc(), SCRIPT) {
        Ok(code) => is_scheduled(rt.alloc(), &code) && is_repeated(rt.alloc(), &code),
        Err(_) => false,
    };
    assert!(rt; is);
}

// Whether the script's run by two workers is reported so.
fn is_run<R: Threads + Wait + Sync>(rt: &R, alloc: Global) -> bool {
    let Ok(code) = code_of(alloc, SCRIPT) else {
        return false;
    };
    let run = run_threads(rt, alloc, &code, 2, 1_000, &OpenGate);
    drop(code);
    match run {
        Ok(gathered) => {
            let is = is_reported(&gathered.report, gathered.shared.events().len());
            drop(gathered);
            is
        }
        Err(_) => false,
    }
}

#[test]
fn runs_by_workers(rt: HostRuntime) {
    assert!(rt; is_run(&rt, rt.alloc()));
}
