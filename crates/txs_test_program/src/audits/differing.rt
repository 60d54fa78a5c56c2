// A report with one thing changed differs where the definition of an audit says.
use crate::audits::case::{always_answers, case_by, case_of};
use crate::audits::changes::{Change, make};
use std::alloc::Global;
use std::sync::Wait;
use std::thread::Threads;
use txs_audit::Verdict;

/// A thread that prints, commits a write and a send, and swaps. Its trace has the commit, and then the swap; that of the agent
/// the action.
const SCRIPT: &str = "(def r (ref 0)) (def a (atom 0)) (def g (agent 0))
(future (println 1) (dosync (send g inc) (alter r inc)) (swap! a inc))";

/// A ref that is set and then commuted.
const ALTERED: &str = "(def r (ref 1)) (future (dosync (alter r + 10) (commute r * 2)))";

/// A ref, an atom and an agent that come to 0; the same where a validator refuses that, with the same spans; and whose event it is.
const REFUSED: [(&str, &str, u16); 3] = [
    (
        "(def r (ref 1                )) (future (dosync (alter r dec)))",
        "(def r (ref 1 :validator pos?)) (future (dosync (alter r dec)))",
        0,
    ),
    (
        "(def a (atom 1                )) (future (swap! a dec))",
        "(def a (atom 1 :validator pos?)) (future (swap! a dec))",
        0,
    ),
    (
        "(def g (agent 1                )) (future (send g dec))",
        "(def g (agent 1 :validator pos?)) (future (send g dec))",
        1,
    ),
];

/// Whether an audit answers this of a script's report with this change.
fn answers_changed<R: Threads + Wait + Sync>(
    rt: &R,
    alloc: Global,
    script: &str,
    change: Change,
    wanted: Verdict,
) -> bool {
    let Some(mut case) = case_of(alloc, script, &[]) else {
        return false;
    };
    let is = make(alloc, &mut case.report, change).is_ok()
        && always_answers(rt, alloc, &case, 100, wanted);
    drop(case);
    is
}

/// Whether it answers that the event of this actor differs.
fn differs_at<R: Threads + Wait + Sync>(
    rt: &R,
    alloc: Global,
    change: Change,
    actor: u16,
    event: usize,
) -> bool {
    answers_changed(rt, alloc, SCRIPT, change, Verdict::Differs { actor, event })
}

#[test]
fn the_report_agrees(rt: HostRuntime) {
    let alloc = rt.alloc();
    let agrees = Verdict::Agrees { serial: true };
    assert!(rt; answers_changed(&rt, alloc, SCRIPT, Change::Nothing, agrees));
    assert!(rt; answers_changed(&rt, alloc, ALTERED, Change::Nothing, agrees));
}

#[test]
fn a_changed_write_differs(rt: HostRuntime) {
    let alloc = rt.alloc();
    let differs = Verdict::Differs { actor: 0, event: 0 };
    assert!(rt; answers_changed(&rt, alloc, ALTERED, Change::Written(21), differs));
    assert!(rt; answers_changed(&rt, alloc, ALTERED, Change::Written(44), differs));
}

/// Whether it answers this of the report of a script, by the text of another.
fn answers_by<R: Threads + Wait + Sync>(
    rt: &R,
    alloc: Global,
    ran: &str,
    text: &str,
    wanted: Verdict,
) -> bool {
    let Some(case) = case_by(alloc, ran, text) else {
        return false;
    };
    let is = always_answers(rt, alloc, &case, 100, wanted);
    drop(case);
    is
}

#[test]
fn a_value_that_a_validator_refuses_differs(rt: HostRuntime) {
    let alloc = rt.alloc();
    let agrees = Verdict::Agrees { serial: true };
    for (ran, text, actor) in &REFUSED {
        let differs = Verdict::Differs {
            actor: *actor,
            event: 0,
        };
        assert!(rt;
            answers_by(&rt, alloc, ran, ran, agrees) && answers_by(&rt, alloc, text, text, agrees)
        );
        assert!(rt; answers_by(&rt, alloc, ran, text, differs));
    }
}

#[test]
fn a_changed_event_differs_at_its_index(rt: HostRuntime) {
    let alloc = rt.alloc();
    for change in [
        Change::Actor,
        Change::ReadPoint,
        Change::Ref,
        Change::Written(2),
        Change::Sent,
    ] {
        assert!(rt; differs_at(&rt, alloc, change, 0, 0));
    }
    assert!(rt; differs_at(&rt, alloc, Change::Swapped, 0, 1));
    assert!(rt; differs_at(&rt, alloc, Change::Number, 1, 0));
    assert!(rt; differs_at(&rt, alloc, Change::Came, 1, 0));
}

#[test]
fn a_changed_entry_differs_in_its_trace(rt: HostRuntime) {
    let alloc = rt.alloc();
    assert!(rt; differs_at(&rt, alloc, Change::TraceMore, 0, 2));
    assert!(rt; differs_at(&rt, alloc, Change::TraceLess, 0, 1));
    assert!(rt; differs_at(&rt, alloc, Change::TraceOrder, 0, 0));
    for change in [Change::Printed, Change::PrintedLess, Change::Ended] {
        assert!(rt; differs_at(&rt, alloc, change, 0, 2));
    }
    for change in [Change::AgentPrinted, Change::AgentEnded] {
        assert!(rt; differs_at(&rt, alloc, change, 1, 1));
    }
}

#[test]
fn what_is_left_differs_behind_the_first_trace(rt: HostRuntime) {
    let alloc = rt.alloc();
    for change in [
        Change::Cell(0),
        Change::Cell(1),
        Change::Cell(2),
        Change::Failed,
    ] {
        assert!(rt; differs_at(&rt, alloc, change, 0, 2));
    }
}
