// Reports in which a transaction ran again for a cause that it didn't have: another ref, or another cause. An audit differs at each.
use crate::audits::case::{Case, always_answers, case_of};
use std::alloc::Global;
use std::sync::Wait;
use std::thread::Threads;
use txs_audit_book::Verdict;
use txs_machine::Play;
use txs_value_data::{CellId, CellKind};
use txs_world_protocol::{Cause, Event, EventKind};

/// The second thread sets a ref that the first has set since it began.
const HELD: &str = "(def r (ref 0)) (def q (ref 0))
(future (dosync (ref-set r 1) (ref-set q 1))) (future (dosync (alter r inc)))";

/// The second thread commutes a ref that the first has set since it viewed it.
const COMMUTED: &str = "(def r (ref 0)) (def q (ref 0))
(future (dosync (ref-set r 1) (ref-set q 1))) (future (dosync (commute r inc)))";

/// The first thread reads a ref that the second has written eleven times since it began.
const OUTDATED: &str = "(def r (ref 0)) (def q (ref 0)) (future (println (dosync @r)))
(future (loop [i 0] (when (< i 11) (dosync (alter r inc)) (recur (inc i)))))";

/// What is forged of the first retry in a report: its ref, or its cause.
#[derive(Clone, Copy)]
enum Forged {
    Nothing,
    Ref,
    Cause(Cause),
}

/// The second ref.
const OTHER: CellId = CellId {
    kind: CellKind::Ref,
    number: 1,
};

/// Forges a retry: whether the event is one.
fn forge_event(event: &mut Event, forged: Forged) -> bool {
    let EventKind::Retry { cell, cause, .. } = &mut event.kind else {
        return false;
    };
    match forged {
        Forged::Nothing => {}
        Forged::Ref => *cell = OTHER,
        Forged::Cause(other) => *cause = other,
    }
    true
}

/// Forges the first retry: whether there is one.
fn forge(book: &mut [Event], forged: Forged) -> bool {
    for event in book.iter_mut() {
        if forge_event(event, forged) {
            return true;
        }
    }
    false
}

/// Whether the case's report, with this forged of its first retry, gets this answer.
fn is_found<R: Threads + Wait + Sync>(
    rt: &R,
    alloc: Global,
    case: Option<Case>,
    forged: Forged,
    wanted: Verdict,
) -> bool {
    let Some(mut case) = case else {
        return false;
    };
    let there = forge(case.report.book.as_mut_slice(), forged);
    let is = always_answers(rt, alloc, &case, 100, wanted);
    drop(case);
    there && is
}

/// Whether the report of a script's run by these plays agrees, and is serial or not; and differs with an actor's retry forged: at that with
/// another ref, and with each of these causes at this event of the actor.
fn are_found<R: Threads + Wait + Sync>(
    rt: &R,
    alloc: Global,
    actor: u16,
    serial: bool,
    script: &str,
    plays: &[Play],
    wrong: &[(Cause, usize)],
) -> bool {
    let right = Verdict::Agrees { serial };
    let case = case_of(alloc, script, plays);
    let mut all = is_found(rt, alloc, case, Forged::Nothing, right);
    let case = case_of(alloc, script, plays);
    let differs = Verdict::Differs { actor, event: 0 };
    all = is_found(rt, alloc, case, Forged::Ref, differs) && all;
    for (cause, event) in wrong {
        let differs = Verdict::Differs {
            actor,
            event: *event,
        };
        let case = case_of(alloc, script, plays);
        all = is_found(rt, alloc, case, Forged::Cause(*cause), differs) && all;
    }
    all
}

#[test]
fn a_held_ref_is_the_cause(rt: HostRuntime) {
    let alloc = rt.alloc();
    let plays = [Play::Ask(1), Play::Ask(1), Play::Ask(0), Play::Ask(0)];
    let wrong = [(Cause::Outdated, 0), (Cause::Commuted { at: 0 }, 0)];
    assert!(rt; are_found(&rt, alloc, 1, true, HELD, &plays, &wrong));
}

#[test]
fn a_commuted_ref_is_the_cause(rt: HostRuntime) {
    let alloc = rt.alloc();
    let plays = [
        Play::Ask(1),
        Play::Ask(1),
        Play::Ask(1),
        Play::Ask(0),
        Play::Ask(0),
    ];
    // (Behind a retry that is no redo the commit's read point is too early.)
    let wrong = [(Cause::Outdated, 0), (Cause::Held, 1)];
    assert!(rt; are_found(&rt, alloc, 1, true, COMMUTED, &plays, &wrong));
}

#[test]
fn a_value_that_is_kept_no_longer_is_the_cause(rt: HostRuntime) {
    let alloc = rt.alloc();
    let mut plays = [Play::Ask(1); 40];
    plays[0] = Play::Ask(0);
    let wrong = [(Cause::Held, 0), (Cause::Commuted { at: 0 }, 0)];
    assert!(rt; are_found(&rt, alloc, 0, false, OUTDATED, &plays, &wrong));
}
