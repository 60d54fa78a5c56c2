// That workers of an audit run at once, and that each passes the gate once: a gate holds worker 0 until worker 1 has passed, and gives up
// after many looks.
use crate::audits::case::case_of;
use std::alloc::Global;
use std::sync::Wait;
use std::sync::atomic::{AtomicU64, Ordering};
use std::thread::Threads;
use txs_audit::{Verdict, audit_gated};
use txs_threads::{Gate, Moment};

/// How often the gate looks before it gives up.
const LOOKS: u32 = 1_000_000_000;

/// Holds worker 0 until worker 1 has passed.
#[derive(Drop)]
struct Holding {
    looks: u32,
    come: AtomicU64,
    gave_up: AtomicU64,
    passed: AtomicU64,
}

impl Gate for Holding {
    fn pass(&self, actor: u16, moment: Moment) {
        if moment == Moment::Local {
            self.passed.fetch_add(1, Ordering::SeqCst);
        }
        if actor == 1 {
            self.come.store(1, Ordering::SeqCst);
        }
        if actor != 0 {
            return;
        }
        for _ in 0..self.looks {
            if self.come.load(Ordering::SeqCst) == 1 {
                return;
            }
        }
        self.gave_up.store(1, Ordering::SeqCst);
    }
}

/// Two threads that count one ref.
const SCRIPT: &str =
    "(def r (ref 0)) (future (dosync (alter r inc))) (future (dosync (alter r inc)))";

// Whether an audit by so many workers agrees, where the gate gives up after so many looks, or doesn't.
fn meets<R: Threads + Wait + Sync>(
    rt: &R,
    alloc: Global,
    workers: u16,
    looks: u32,
    gives_up: u64,
) -> bool {
    let Some(case) = case_of(alloc, SCRIPT, &[]) else {
        return false;
    };
    let gate = Holding {
        looks,
        come: AtomicU64::new(0),
        gave_up: AtomicU64::new(0),
        passed: AtomicU64::new(0),
    };
    let terms = case.terms();
    let answer = audit_gated(
        rt,
        alloc,
        &case.program,
        &case.report,
        terms,
        workers,
        100,
        &gate,
    );
    drop(case);
    matches!(answer, Ok(Verdict::Agrees { serial: true }))
        && gate.gave_up.load(Ordering::SeqCst) == gives_up
        && gate.passed.load(Ordering::SeqCst) == u64::from(workers)
}

/// The gate is passed as often as there are workers, also by those that have no piece. One worker alone leaves the mark.
#[test]
fn workers_audit_at_once(rt: HostRuntime) {
    let alloc = rt.alloc();
    assert!(rt; meets(&rt, alloc, 2, LOOKS, 0));
    assert!(rt; meets(&rt, alloc, 7, LOOKS, 0));
    assert!(rt; meets(&rt, alloc, 1, 1_000, 1));
}
