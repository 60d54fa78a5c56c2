// Reports of actions that transact, print and send; with one thing changed, an audit differs where its definition says.
use crate::audits::case::{Case, always_answers, case_of, case_within};
use std::alloc::{AllocError, Global};
use std::sync::Wait;
use std::thread::Threads;
use txs_audit::Verdict;
use txs_machine::Play;
use txs_value_cell::{Action, Arguments};
use txs_value_data::{CellId, CellKind, Listed, Span, Value};
use txs_world_protocol::{Event, EventKind, Report};

/// An agent whose two actions print and commit. Its trace has the indexes 2 to 5: a commit, an act, a commit, an act.
const WORKS: &str = "(def r (ref 0)) (def g (agent 0))
(defn work [s] (println s) (dosync (alter r inc)) (inc s))
(future (send g work) (send g work))";

/// A chain of agents: `a` sends to `b`, and `b` to `c`. The first act is that of `a`, which is actor 3.
const CHAIN: &str = "(def c (agent 0)) (def b (agent 0)) (def a (agent 0))
(defn end [s x] (+ s x)) (defn middle [s x] (send c end (inc x)) (+ s x)) (defn start [s x] (send b middle (inc x)) (+ s x))
(future (send a start 1))";

/// An action that prints, commits, and never ends; and one that loops four times before it commits.
const SPINS: &str = "(def r (ref 0)) (def g (agent 0))
(defn spin [s] (println s) (dosync (alter r inc)) (loop [] (recur)))
(future (send g spin))";

const LOOPS: &str = "(def r (ref 0)) (def g (agent 0))
(defn slow [s] (loop [i 0] (when (< i 3) (recur (inc i)))) (dosync (alter r inc)) (inc s))
(future (send g slow))";

/// An action that faults behind a commit, with sends that are dropped.
const FAULTS: &str = "(def r (ref 0)) (def h (agent 0)) (def g (agent 0))
(defn work [s] (println s) (send h inc) (dosync (alter r inc) (send h inc)) (quot 1 s))
(future (send g work))";

/// An action whose transaction runs again, and what has it run again.
const RETRIES: &str = "(def r (ref 0)) (def h (agent 0)) (def g (agent 0))
(defn work [s] (dosync (send h inc) (alter r inc)) (inc s))
(future (send g work)) (future (dosync (alter r + 10)))";

/// What is changed of a report.
#[derive(Clone, Copy)]
enum Change {
    Nothing,
    /// What the act at index 3 came to.
    Came,
    /// What the commit at index 2 wrote.
    Written,
    /// The span of an action that the act at index 1 sends.
    Sent,
    /// The first act sends nothing.
    Unsent,
    /// The first byte that the first agent printed; or a byte more.
    Printed,
    PrintedMore,
    /// The last two entries of its trace, in the other order.
    TraceOrder,
    /// Its trace without the last entry.
    TraceLess,
}

/// The commit writes this to the first ref.
fn write_other(alloc: Global, event: &mut Event) -> Result<(), AllocError> {
    if let EventKind::Commit { writes, .. } = &mut event.kind {
        let cell = CellId {
            kind: CellKind::Ref,
            number: 0,
        };
        let mut other = Vec::new(alloc);
        other.push((cell, Value::Int(7)))?;
        *writes = Listed::from_vec(other);
    }
    Ok(())
}

/// The same action as it would be sent by another form.
fn moved(action: &Action) -> Action {
    Action {
        agent: action.agent,
        callee: action.callee,
        args: Arguments::one(Value::Int(2)),
        span: Span { from: 0, to: 1 },
    }
}

/// The act sends that of its action, or nothing.
fn send_other(alloc: Global, event: &mut Event, some: bool) -> Result<(), AllocError> {
    if let EventKind::Act { sends, .. } = &mut event.kind {
        let mut other = Vec::new(alloc);
        if let (true, Some(action)) = (some, sends.as_slice().first()) {
            other.push(moved(action))?;
        }
        *sends = Listed::from_vec(other);
    }
    Ok(())
}

/// Changes an event.
fn change_event(alloc: Global, book: &mut [Event], change: Change) -> Result<(), AllocError> {
    let index = match change {
        Change::Came => 3,
        Change::Written => 2,
        Change::Sent | Change::Unsent => 1,
        _ => return Ok(()),
    };
    let Some(event) = book.get_mut(index) else {
        return Ok(());
    };
    match change {
        Change::Written => write_other(alloc, event),
        Change::Sent => send_other(alloc, event, true),
        Change::Unsent => send_other(alloc, event, false),
        _ => {
            if let EventKind::Act { new, .. } = &mut event.kind {
                *new = Ok(Value::Int(5));
            }
            Ok(())
        }
    }
}

/// Changes this of the report.
fn make(alloc: Global, report: &mut Report, change: Change) -> Result<(), AllocError> {
    change_event(alloc, report.book.as_mut_slice(), change)?;
    let Some(agent) = report.agents.first_mut() else {
        return Ok(());
    };
    match change {
        Change::Printed => {
            if let Some(byte) = agent.printed.first_mut() {
                *byte = b'7';
            }
        }
        Change::PrintedMore => agent.printed.push(b'7')?,
        Change::TraceOrder => {
            let size = agent.trace.len();
            if size > 1 {
                agent.trace.swap(size - 2, size - 1);
            }
        }
        Change::TraceLess => drop(agent.trace.pop()),
        _ => {}
    }
    Ok(())
}

/// Whether an audit answers this of a case with this change.
fn answers_changed<R: Threads + Wait + Sync>(
    rt: &R,
    alloc: Global,
    case: Option<Case>,
    change: Change,
    wanted: Verdict,
) -> bool {
    let Some(mut case) = case else {
        return false;
    };
    let is = make(alloc, &mut case.report, change).is_ok()
        && always_answers(rt, alloc, &case, 100, wanted);
    drop(case);
    is
}

#[test]
fn actions_agree(rt: HostRuntime) {
    let alloc = rt.alloc();
    let agrees = Verdict::Agrees { serial: true };
    let retries = [
        Play::Ask(0),
        Play::Ask(3),
        Play::Ask(3),
        Play::Ask(3),
        Play::Ask(1),
        Play::Ask(1),
        Play::Ask(1),
    ];
    for script in [WORKS, CHAIN, LOOPS, FAULTS] {
        assert!(rt;
            answers_changed(
                &rt,
                alloc,
                case_of(alloc, script, &[]),
                Change::Nothing,
                agrees
            )
        );
    }
    let case = case_of(alloc, RETRIES, &retries);
    assert!(rt; answers_changed(&rt, alloc, case, Change::Nothing, agrees));
}

#[test]
fn a_changed_action_differs_at_its_index(rt: HostRuntime) {
    let alloc = rt.alloc();
    for (change, event) in [
        (Change::Came, 1),
        (Change::Written, 0),
        (Change::Printed, 4),
        (Change::PrintedMore, 4),
        (Change::TraceOrder, 2),
        (Change::TraceLess, 3),
    ] {
        let differs = Verdict::Differs { actor: 1, event };
        assert!(rt; answers_changed(&rt, alloc, case_of(alloc, WORKS, &[]), change, differs));
    }
}

#[test]
fn changed_sends_of_an_action_differ(rt: HostRuntime) {
    let alloc = rt.alloc();
    let first = Verdict::Differs { actor: 3, event: 0 };
    assert!(rt; answers_changed(&rt, alloc, case_of(alloc, CHAIN, &[]), Change::Sent, first));
    // then the act of `b` is none of its mailbox
    let other = Verdict::Differs { actor: 2, event: 0 };
    assert!(rt;
        answers_changed(
            &rt,
            alloc,
            case_of(alloc, CHAIN, &[]),
            Change::Unsent,
            other
        )
    );
    // an action that faults sends nothing, so the audit finds no fault in what isn't there
    let agrees = Verdict::Agrees { serial: true };
    assert!(rt;
        answers_changed(
            &rt,
            alloc,
            case_of(alloc, FAULTS, &[]),
            Change::Unsent,
            agrees
        )
    );
}

#[test]
fn an_action_that_was_stopped_agrees(rt: HostRuntime) {
    let alloc = rt.alloc();
    let agrees = Verdict::Agrees { serial: true };
    for steps in [8, 50, 90] {
        let case = case_within(alloc, SPINS, &[], steps);
        assert!(rt;
            answers_changed(&rt, alloc, case, Change::Nothing, agrees),
            "{steps}"
        );
    }
    // it was stopped in its transaction, and would print nothing more before the commit
    let differs = Verdict::Differs { actor: 1, event: 0 };
    let case = case_within(alloc, SPINS, &[], 8);
    assert!(rt; answers_changed(&rt, alloc, case, Change::PrintedMore, differs));
    // it was stopped in its loop, of which more turns might print
    let undecided = Verdict::Undecided { actor: 1, event: 1 };
    let case = case_within(alloc, SPINS, &[], 50);
    assert!(rt; answers_changed(&rt, alloc, case, Change::PrintedMore, undecided));
}

#[test]
fn turns_may_be_too_few_for_an_action(rt: HostRuntime) {
    let alloc = rt.alloc();
    let Some(case) = case_of(alloc, LOOPS, &[]) else {
        assert!(rt; false);
        return;
    };
    let few = Verdict::Undecided { actor: 1, event: 0 };
    let is = always_answers(&rt, alloc, &case, 2, few);
    drop(case);
    assert!(rt; is);
}
