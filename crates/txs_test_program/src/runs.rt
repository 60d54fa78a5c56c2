// Runs by several workers: what scripts print and leave, whatever the workers did; and that what is sent to agents is run, each once, whoever sent
// it and whenever they were parked.
use crate::seen::{NO_RUN, leaves, ran};
use std::alloc::Global;
use std::env;
use std::sync::Wait;
use std::thread::Threads;
use txs_threads::{Gathered, OpenGate};

/// Four threads that each add one to a ref a hundred times.
const HAMMERS: &str = "(def r (ref 0))
(future (loop [i 0] (when (< i 100) (dosync (alter r inc)) (recur (inc i)))))
(future (loop [i 0] (when (< i 100) (dosync (alter r inc)) (recur (inc i)))))
(future (loop [i 0] (when (< i 100) (dosync (alter r inc)) (recur (inc i)))))
(future (loop [i 0] (when (< i 100) (dosync (alter r inc)) (recur (inc i)))))";

/// Three threads that send, outside and in transactions, to two agents.
const SENDERS: &str = "(def a (agent 0)) (def b (agent 0)) (def r (ref 0))
(future (loop [i 0] (when (< i 50) (send a inc) (recur (inc i)))))
(future (loop [i 0] (when (< i 50) (dosync (alter r inc) (send a inc) (send b + 2)) (recur (inc i)))))
(future (loop [i 0] (when (< i 50) (dosync (alter r inc) (send b inc)) (recur (inc i)))))";

/// One thread that reads and writes, prints, and fails.
const ALONE: &str = "(def r (ref 1)) (def a (atom 2))
(future (dosync (alter r + 3)) (println @r (swap! a inc)) (dosync (ensure r)) (quot @r 0))";

/// A thread that never ends.
const SPINS: &str = "(future (loop [] (recur)))";

/// An agent that fails beside one that doesn't.
const QUOT: &str = "(def g (agent 1)) (def h (agent 2)) (future (send g quot 0) (send h inc))";

/// An agent that spends its steps.
const SPENDS: &str = "(def g (agent 0)) (defn f [s] (loop [] (recur))) (future (send g f))";

#[test]
fn adds_all_and_runs_all_actions(rt: HostRuntime) {
    let alloc = rt.alloc();
    let added = "done done done done 400 ";
    let sent = "done done done idle idle 100 150 100 ";
    for workers in 1..5 {
        assert!(rt; leaves(&rt, alloc, HAMMERS, workers, 1_000_000, &OpenGate, added));
        assert!(rt; leaves(&rt, alloc, SENDERS, workers, 1_000_000, &OpenGate, sent));
    }
}

#[test]
fn prints_fails_and_stops(rt: HostRuntime) {
    let alloc = rt.alloc();
    let three = "(future (println (+ 1 2)))";
    assert!(rt; leaves(&rt, alloc, three, 4, 1_000, &OpenGate, "3\ndone "));
    assert!(rt; leaves(&rt, alloc, "", 4, 1_000, &OpenGate, ""));
    let one = "(future (println 1))";
    assert!(rt; leaves(&rt, alloc, one, 0, 1_000, &OpenGate, NO_RUN));
    assert!(rt; leaves(&rt, alloc, one, 65, 1_000, &OpenGate, NO_RUN));
    assert!(rt; leaves(&rt, alloc, SPINS, 2, 1_000, &OpenGate, "spent "));
    assert!(rt; leaves(&rt, alloc, QUOT, 2, 1_000, &OpenGate, "done idle idle 1 3 "));
    assert!(rt; leaves(&rt, alloc, SPENDS, 2, 1_000, &OpenGate, "done spent 0 "));
    assert!(rt; leaves(&rt, alloc, ALONE, 1, 1_000, &OpenGate, "4 3\nfailed 4 3 "));
    assert!(rt; all_run_alike(&rt, alloc));
}

/// Whether each of 250 short runs by so many workers leaves this text.
fn always_leaves<R: Threads + Wait + Sync>(
    rt: &R,
    alloc: Global,
    script: &str,
    workers: usize,
    text: &str,
) -> bool {
    for _ in 0..250u32 {
        if !leaves(rt, alloc, script, workers, 1_000_000, &OpenGate, text) {
            return false;
        }
    }
    true
}

/// Two threads that contend for two refs.
const MOVERS: &str = "(def a (ref 20)) (def b (ref 0))
(future (dosync (alter a - 1) (alter b + 1)))
(future (dosync (alter b + 2) (alter a - 2)))";

#[test]
fn keeps_sums_by_two(rt: HostRuntime) {
    assert!(rt; always_leaves(&rt, rt.alloc(), MOVERS, 2, "done done 17 3 "));
}

#[test]
fn keeps_sums_by_two_again(rt: HostRuntime) {
    assert!(rt; always_leaves(&rt, rt.alloc(), MOVERS, 2, "done done 17 3 "));
}

#[test]
fn keeps_sums_by_three(rt: HostRuntime) {
    assert!(rt; always_leaves(&rt, rt.alloc(), MOVERS, 3, "done done 17 3 "));
}

#[test]
fn keeps_sums_by_four(rt: HostRuntime) {
    assert!(rt; always_leaves(&rt, rt.alloc(), MOVERS, 4, "done done 17 3 "));
}

/// Three threads that move what two refs hold, tell an agent of it, and count by an atom.
const MIXED: &str = "(def from (ref 100)) (def to (ref 0)) (def n (atom 0)) (def sum (agent 0))
(defn move [k] (dosync (alter from - k) (alter to + k) (send sum + k)))
(future (move 1) (swap! n inc)) (future (swap! n + 10) (move 2)) (future (move 4) (swap! n + 100))";

/// How often its 250 runs are made: once, or as often as the variable ROUNDS of the environment says. `tests/loaded.py` sets it, and looks at the memory.
fn rounds(rt: &HostRuntime) -> u32 {
    match env::var(rt, "ROUNDS") {
        Ok(text) => text.as_str().parse().unwrap_or(1),
        Err(_) => 1,
    }
}

#[test]
fn keeps_refs_atoms_and_agents_together(rt: HostRuntime) {
    let left = "done done done idle 93 7 111 7 ";
    for _ in 0..rounds(&rt) {
        assert!(rt; always_leaves(&rt, rt.alloc(), MIXED, 3, left));
    }
}

/// A thread that sends two actions, and the agent whose second one is sent while it runs the first, or after it was parked.
const WAKER: &str = "(def a (agent 0)) (future (send a + 1) (send a + 2)) (future (send a + 4))";

#[test]
fn wakes_by_two(rt: HostRuntime) {
    assert!(rt; always_leaves(&rt, rt.alloc(), WAKER, 2, "done done idle 7 "));
}

#[test]
fn wakes_by_four(rt: HostRuntime) {
    assert!(rt; always_leaves(&rt, rt.alloc(), WAKER, 4, "done done idle 7 "));
}

/// A chain of agents: the action of one sends to the next, and the last one commits. No thread sends behind it.
const CHAIN: &str = "(def r (ref 0)) (def c (agent 0)) (def b (agent 0)) (def a (agent 0))
(defn end [s x] (dosync (alter r + x)) (+ s x)) (defn middle [s x] (send c end (inc x)) (+ s x)) (defn start [s x] (send b middle (inc x)) (+ s x))
(future (send a start 1)) (future (send a start 10))";

#[test]
fn actions_wake_by_two(rt: HostRuntime) {
    let left = "done done idle idle idle 15 15 13 11 ";
    assert!(rt; always_leaves(&rt, rt.alloc(), CHAIN, 2, left));
}

#[test]
fn actions_wake_by_four(rt: HostRuntime) {
    let left = "done done idle idle idle 15 15 13 11 ";
    assert!(rt; always_leaves(&rt, rt.alloc(), CHAIN, 4, left));
}

/// Whether two runs of one thread are alike.
fn run_alike(one: &Gathered, other: &Gathered) -> bool {
    match (
        one.report.threads.as_slice(),
        other.report.threads.as_slice(),
    ) {
        ([a], [b]) => {
            a.printed.as_slice() == b.printed.as_slice()
                && a.outcome == b.outcome
                && a.steps == b.steps
                && a.trace.len() == b.trace.len()
                && one.shared.events().len() == other.shared.events().len()
        }
        _ => false,
    }
}

/// Whether the run of one thread by so many workers is like this one.
fn runs_like<R: Threads + Wait + Sync>(
    rt: &R,
    alloc: Global,
    one: &Gathered,
    workers: usize,
) -> bool {
    match ran(rt, alloc, ALONE, workers, 1_000, &OpenGate) {
        Ok(run) => {
            let alike = run_alike(one, &run);
            drop(run);
            alike
        }
        Err(_) => false,
    }
}

/// Whether the run of one thread by one worker is like those by more.
fn all_run_alike<R: Threads + Wait + Sync>(rt: &R, alloc: Global) -> bool {
    let Ok(one) = ran(rt, alloc, ALONE, 1, 1_000, &OpenGate) else {
        return false;
    };
    let alike = runs_like(rt, alloc, &one, 2)
        && runs_like(rt, alloc, &one, 4)
        && runs_like(rt, alloc, &one, 64);
    drop(one);
    alike
}
