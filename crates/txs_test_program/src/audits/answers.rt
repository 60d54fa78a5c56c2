// Reports of runs: of write skew, of a loop with too few turns, of a commute whose result is used, and of nothing; and how many
// workers there may be.
use crate::audits::case::{Case, always_answers, answers, case_of, run_is};
use std::alloc::Global;
use std::sync::Wait;
use std::thread::Threads;
use txs_audit::{AuditError, Verdict};
use txs_machine::Play;
use txs_world_protocol::Report;

/// Each thread reads both refs and sets one of them.
const SKEW: &str = "(def a (ref 1)) (def b (ref 1))
(future (dosync (when (= 2 (+ @a @b)) (alter a dec))))
(future (dosync (when (= 2 (+ @a @b)) (alter b dec))))";

/// The same with both refs ensured.
const ENSURED: &str = "(def a (ref 1)) (def b (ref 1))
(future (dosync (when (= 2 (+ (ensure a) (ensure b))) (alter a dec))))
(future (dosync (when (= 2 (+ (ensure a) (ensure b))) (alter b dec))))";

/// A loop of four turns.
const COUNTS: &str = "(future (loop [i 0] (when (< i 3) (recur (inc i)))))";

/// A transaction that uses the result of its commute, and one that doesn't.
const USES: &str = "(def r (ref 1)) (future (println (dosync (commute r inc))))";

const USES_NOT: &str = "(def r (ref 1)) (future (dosync (commute r inc)))";

/// An atom that two threads swap, and an agent whose second action faults.
const OTHERS: &str = "(def t (atom 1)) (def g (agent 10))
(future (println (swap! t + 2)) (send g inc) (send g quot 0))
(future (swap! t * 5))";

/// A thread that prints.
const PRINTS: &str = "(future (println (+ 1 2)))";

#[test]
fn skew_agrees_and_is_serial_where_ensured(rt: HostRuntime) {
    let alloc = rt.alloc();
    let both = [Play::Ask(0), Play::Ask(1)];
    let covered = Verdict::Agrees { serial: true };
    let not = Verdict::Agrees { serial: false };
    assert!(rt; run_is(&rt, alloc, SKEW, &both, 100, not));
    assert!(rt; run_is(&rt, alloc, ENSURED, &both, 100, covered));
    assert!(rt; run_is(&rt, alloc, USES, &[], 100, not));
    assert!(rt; run_is(&rt, alloc, USES_NOT, &[], 100, covered));
}

#[test]
fn atoms_and_agents_agree(rt: HostRuntime) {
    let both = [Play::Ask(0), Play::Ask(1)];
    let agrees = Verdict::Agrees { serial: true };
    assert!(rt; run_is(&rt, rt.alloc(), OTHERS, &both, 100, agrees));
}

#[test]
fn turns_may_be_too_few(rt: HostRuntime) {
    let alloc = rt.alloc();
    let few = Verdict::Undecided { actor: 0, event: 0 };
    assert!(rt; run_is(&rt, alloc, COUNTS, &[], 2, few));
    assert!(rt;
        run_is(
            &rt,
            alloc,
            COUNTS,
            &[],
            100,
            Verdict::Agrees { serial: true }
        )
    );
}

/// A report without entries.
fn nothing(alloc: Global) -> Report {
    Report {
        threads: Vec::new(alloc),
        agents: Vec::new(alloc),
        book: Vec::new(alloc),
        atom_books: Vec::new(alloc),
        cells: Vec::new(alloc),
        failed: Vec::new(alloc),
    }
}

/// Whether the report of nothing differs, for a program that has a thread.
fn nothing_differs<R: Threads + Wait + Sync>(rt: &R, alloc: Global) -> bool {
    let Some(mut case) = case_of(alloc, PRINTS, &[]) else {
        return false;
    };
    case.report = nothing(alloc);
    let differs = Verdict::Differs { actor: 0, event: 0 };
    let is = always_answers(rt, alloc, &case, 100, differs);
    drop(case);
    is
}

/// Whether so many workers give this for the report of a thread that prints.
fn workers_give<R: Threads + Wait + Sync>(
    rt: &R,
    alloc: Global,
    workers: u16,
    wanted: Result<Verdict, AuditError>,
) -> bool {
    let Some(case) = case_of(alloc, PRINTS, &[]) else {
        return false;
    };
    let is = answers(rt, alloc, &case, workers, 100, wanted);
    drop(case);
    is
}

#[test]
fn a_report_of_nothing_differs(rt: HostRuntime) {
    assert!(rt; nothing_differs(&rt, rt.alloc()));
}

#[test]
fn there_may_be_one_to_64_workers(rt: HostRuntime) {
    let alloc = rt.alloc();
    let agrees = Ok(Verdict::Agrees { serial: true });
    assert!(rt; workers_give(&rt, alloc, 0, Err(AuditError::NoThread)));
    assert!(rt; workers_give(&rt, alloc, 1, agrees));
    assert!(rt; workers_give(&rt, alloc, 64, agrees));
    assert!(rt; workers_give(&rt, alloc, 65, Err(AuditError::NoThread)));
}
