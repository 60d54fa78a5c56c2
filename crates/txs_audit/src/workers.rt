//! The workers of an audit.

ghost use Rattle.std.specs.Prelude.{◌≡◌, ◌≤◌, ◌+◌, IfOk, OnOk};
ghost use Rattle.std.specs.Thread.{IsSync};
ghost use Rattle.txs_audit.specs.Parted.{sought_by, sought_in};
ghost use Rattle.txs_audit.specs.Pieced.{IsFound, both};

use crate::joining::joined;
use crate::judging::Judge;
use crate::parts::Part;
use crate::pieces::Piece;
use core::thread::Stack;
use std::alloc::Global;
use std::sync::Wait;
use std::thread;
use std::thread::{PromisedHandle, Scope, Threads};
use txs_audit_book::AuditError;
use txs_audit_evidence::transactions::Found;
use txs_gate::{Gate, Moment};

/// The bytes of a worker's stack. An evaluator calls itself for each level of a program, of which there are at most 1,000.
const STACK: usize = 64 * 1024 * 1024;

/// One worker: passes the gate, and then goes through its pieces.
fn work<J: Judge, G: Gate>(
    alloc: Global,
    judge: &J,
    pieces: &[Piece],
    turns: u32,
    worker: u16,
    gate: &G,
) -> Result<Found, AuditError>
    ensures { IfOk result (IsFound (J.sought judge.now turns pieces.now)) }
{
    gate.pass(worker, Moment::Local);
    Ok(judge.judge(alloc, turns, pieces)?)
}

/// Starts the worker with this number, which has these pieces.
fn start<'s, E, J: Judge + 's, G: Gate + 's>(
    scope: &Scope<'s, E>,
    alloc: Global,
    part: Part<'s, J>,
    worker: u16,
    gate: &'s G,
) -> Result<PromisedHandle<Result<Found, AuditError>, Part<'s, J>>, AuditError>
    ensures { IfOk result (λ h. h.promise ≡ part.entry) }
{
    let Part {
        judge,
        pieces,
        turns,
    } = part;
    let started = Stack::new().stack_size(STACK).spawn_scoped_with(
        scope,
        part,
        move || work(alloc, judge, pieces, turns, worker, gate),
    );
    match started {
        Ok(handle) => Ok(handle),
        Err(_) => Err(AuditError::NoThread),
    }
}

/// Starts so many workers, from this number on, and splits the pieces among them: by halves, as the workers are.
fn start_all<'s, E, J: Judge + 's, G: Gate + 's>(
    scope: &Scope<'s, E>,
    alloc: Global,
    part: Part<'s, J>,
    first: u16,
    workers: u16,
    gate: &'s G,
    handles: &mut Vec<PromisedHandle<Result<Found, AuditError>, Part<'s, J>>>,
) -> Result<(), AuditError>
    requires { first + workers ≤ 64 }
    ensures { OnOk result (sought_by J.Judge handles.new.items ≡ both (sought_by J.Judge handles.old.items) (sought_in J.Judge part.entry)) }
{
    if workers <= 1 {
        let handle = start(scope, alloc, part, first, gate)?;
        handles.push(handle)?;
        return Ok(());
    }
    let right = workers / 2;
    let left = workers - right;
    let (one, two) = part.halves();
    start_all(scope, alloc, one, first, left, gate, handles)?;
    start_all(scope, alloc, two, first + left, right, gate, handles)
}

/// What is found of these pieces by so many workers, each on a thread of its own, where each loop makes at most `turns` turns.
///
/// # Errors
/// `NoThread` where a worker couldn't be started, `Memory` where there was no memory.
pub(crate) fn found_by<R: Threads + Wait + Sync, J: Judge, G: Gate>(
    rt: &R,
    alloc: Global,
    judge: &J,
    pieces: &[Piece],
    workers: u16,
    turns: u32,
    gate: &G,
) -> Result<Found, AuditError>
    requires { workers ≤ 64 }
    ensures { IfOk result (IsFound (J.sought judge.now turns pieces.now)) }
{
    thread::scope(
        thread::scope_env(),
        rt,
        |scope| -> Result<Found, AuditError>
            requires runtime { IsSync R.row }
            requires judge { IsSync J.row }
            requires gate { IsSync G.row }
            requires workers { workers ≤ 64 }
            ensures { IfOk result (IsFound (J.sought judge.entry.now turns pieces.entry.now)) }
        {
            let part = Part {
                judge,
                pieces,
                turns,
            };
            let mut handles = Vec::new(alloc);
            start_all(scope, alloc, part, 0, workers, gate, &mut handles)?;
            joined(rt, handles)
        },
    )
}
