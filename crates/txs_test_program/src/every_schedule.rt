// Scripts under every short list of plays, each with rounds behind it: each run ends as some order of the threads allows, one behind the
// other, and each of these ends is that of some list. So no increment is lost, no transfer is seen by half, and both commit who shouldn't only
// where neither ensures what the other sets.
use crate::program::write;
use std::alloc::{AllocError, Global};

/// The words of a run by the list of such plays with this number, with rounds behind it, where the empty list has 0, and each other one a number
/// of its own, the shorter the smaller. It has at most eight plays.
fn words_of(alloc: Global, such: &[&str], number: usize) -> Result<String, AllocError> {
    let mut words = String::from_str(alloc, "schedule --steps 10000 --cells")?;
    let mut before = " --turns ";
    let mut rest = number;
    for _ in 0..8 {
        if rest == 0 || such.is_empty() {
            break;
        }
        rest -= 1;
        words.push_str(before)?;
        words.push_str(such[rest % such.len()])?;
        rest /= such.len();
        before = ",";
    }
    Ok(words)
}

/// How a run by these words ends, as one of these texts, each of which is what was printed, a line for each cell, and behind that a line for each
/// fault: the first has the bit 1, and each other one the next bit. No bit where it ends as none of them.
fn bit_of(alloc: Global, script: &str, words: &str, ends: &[&str]) -> u64 {
    let mut end = Vec::new(alloc);
    let mut errors = Vec::new(alloc);
    write(alloc, words, script.as_bytes(), &mut end, &mut errors);
    if end.extend_from_slice(errors.as_slice()).is_err() {
        return 0;
    }
    let mut bit = 1u64;
    for text in ends {
        if text.as_bytes() == end.as_slice() {
            return bit;
        }
        bit = bit.wrapping_mul(2);
    }
    0
}

/// Whether each of the first so many lists of such plays ends as one of these texts says, and each text is the end of one of them.
fn end_so(alloc: Global, script: &str, such: &[&str], lists: usize, ends: &[&str]) -> bool {
    let mut seen = 0u64;
    for number in 0..lists {
        let Ok(words) = words_of(alloc, such, number) else {
            return false;
        };
        let bit = bit_of(alloc, script, words.as_str(), ends);
        drop(words);
        if bit == 0 {
            return false;
        }
        seen |= bit;
    }
    seen.count_ones() as usize == ends.len()
}

/// The first of these scripts of which some list of such plays ends otherwise, or no list as one of the texts says, or nothing.
fn first_other(
    alloc: Global,
    rows: &[(&'static str, &[&str])],
    such: &[&str],
    lists: usize,
) -> &'static str {
    for (script, ends) in rows {
        if !end_so(alloc, script, such, lists, ends) {
            return script;
        }
    }
    ""
}

/// Asks of two threads: 511 lists have at most eight of them.
const TWO: &[&str] = &["0", "1"];

/// Asks of three threads: 121 lists have at most four of them, which suffice for each order.
const THREE: &[&str] = &["0", "1", "2"];

/// Asks and single turns of two threads: 341 lists have at most four of them.
const TURNS: &[&str] = &["0", "1", "t0", "t1"];

/// A transaction that reads beside one that sets, and both ends.
const ONE_READ: (&str, &[&str]) = (
    "(def r (ref 0)) (future (println (dosync @r))) (future (dosync (ref-set r 7)))",
    &["0\nr 7\n", "7\nr 7\n"],
);

/// Scripts of two threads, and all ends that their runs may have.
const OF_TWO: [(&str, &[&str]); 12] = [
    (
        "(def r (ref 0)) (future (dosync (alter r inc))) (future (dosync (alter r inc)))",
        &["r 2\n"],
    ),
    (
        "(def r (ref 0)) (future (dosync (alter r inc))) (future (loop [i 0] (when (< i 3) (dosync (alter r inc)) (recur (inc i)))))",
        &["r 4\n"],
    ),
    ONE_READ,
    // reads of one transaction are of one moment, those outside of transactions each of its own
    (
        "(def r (ref 0)) (future (println (dosync [@r @r]))) (future (dosync (ref-set r 7)))",
        &["[0 0]\nr 7\n", "[7 7]\nr 7\n"],
    ),
    (
        "(def r (ref 0)) (future (println @r @r)) (future (dosync (ref-set r 7)))",
        &["0 0\nr 7\n", "0 7\nr 7\n", "7 7\nr 7\n"],
    ),
    (
        "(def a (ref 0)) (def b (ref 0)) (future (println (dosync [@a @b]))) (future (dosync (ref-set a 7) (ref-set b 7)))",
        &["[0 0]\na 7\nb 7\n", "[7 7]\na 7\nb 7\n"],
    ),
    (
        "(def a (ref 0)) (def b (ref 0)) (future (println @a @b)) (future (dosync (ref-set a 7) (ref-set b 7)))",
        &["0 0\na 7\nb 7\n", "0 7\na 7\nb 7\n", "7 7\na 7\nb 7\n"],
    ),
    // who ensures runs again, who only reads doesn't
    (
        "(def a (ref 1)) (def b (ref 1)) (future (dosync (when (= 2 (+ @a @b)) (alter a dec)))) (future (dosync (when (= 2 (+ @a @b)) (alter b dec))))",
        &["a 0\nb 0\n", "a 0\nb 1\n", "a 1\nb 0\n"],
    ),
    (
        "(def a (ref 1)) (def b (ref 1)) (future (dosync (when (= 2 (+ (ensure a) (ensure b))) (alter a dec)))) (future (dosync (when (= 2 (+ (ensure a) (ensure b))) (alter b dec))))",
        &["a 0\nb 1\n", "a 1\nb 0\n"],
    ),
    (
        "(def a (ref 1)) (def b (ref 1)) (future (dosync (when (= 2 (+ @a (ensure b))) (alter a dec)))) (future (dosync (when (= 2 (+ @a @b)) (alter b dec))))",
        &["a 0\nb 0\n", "a 0\nb 1\n", "a 1\nb 0\n"],
    ),
    // one fails where the other comes first, and leaves nothing
    (
        "(def r (ref 1)) (def s (ref 0)) (future (dosync (alter r dec))) (future (dosync (ref-set s 5) (alter r + (quot 6 @r))))",
        &[
            "r 6\ns 5\n",
            "r 0\ns 0\nthread 1 failed: DivideByZero at 105..116\n",
        ],
    ),
    // what commutes is never lost, whether it is made again or not
    (
        "(def c (ref 0)) (future (dosync (commute c inc))) (future (dosync (commute c inc)))",
        &["c 2\n"],
    ),
];

/// Scripts of a thread and an agent, and all ends that their runs may have.
const WITH_AGENT: [(&str, &[&str]); 3] = [
    (
        "(def r (ref 1)) (def g (agent 0)) (defn work [s] (dosync (alter r * 10)) (inc s)) (future (send g work) (dosync (alter r inc)))",
        &["r 20\ng 1\n", "r 11\ng 1\n"],
    ),
    (
        "(def r (ref 0)) (def g (agent 0)) (defn work [s] (println @r) (+ s @r)) (future (send g work) (dosync (ref-set r 7)))",
        &["0\nr 7\ng 0\n", "0\nr 7\ng 7\n", "7\nr 7\ng 7\n"],
    ),
    (
        "(def n (atom 1)) (def g (agent 0)) (defn work [s] (swap! n * 10)) (future (send g work) (swap! n inc))",
        &["n 20\ng 20\n", "n 11\ng 10\n"],
    ),
];

/// An action that sends to an agent which another action makes fail, before or behind it.
const OF_AGENTS: (&str, &[&str]) = (
    "(def h (agent 1)) (def g (agent 0)) (defn tell [s] (send h inc) (inc s)) (future (send g tell) (send h quot 0))",
    &[
        "h 1\ng 0\nagent h failed: DivideByZero at 95..110\nagent g failed: AgentFailed at 81..94\n",
        "h 1\ng 1\nagent h failed: DivideByZero at 95..110\n",
        "h 2\ng 1\nagent h failed: DivideByZero at 95..110\n",
    ],
);

/// Scripts of three threads, and all ends that their runs may have: those of their six orders.
const OF_THREE: [(&str, &[&str]); 2] = [
    (
        "(def r (ref [])) (future (dosync (alter r conj 0))) (future (dosync (alter r conj 1))) (future (dosync (alter r conj 2)))",
        &[
            "r [0 1 2]\n",
            "r [0 2 1]\n",
            "r [1 0 2]\n",
            "r [1 2 0]\n",
            "r [2 0 1]\n",
            "r [2 1 0]\n",
        ],
    ),
    (
        "(def a (ref 10)) (def b (ref 0)) (future (dosync (alter a - 3) (alter b + 3))) (future (dosync (alter b - 1) (alter a + 1))) (future (println (dosync (+ @a @b))))",
        &["10\na 8\nb 2\n"],
    ),
];

#[test]
fn two_threads(rt: HostRuntime) {
    let other = first_other(rt.alloc(), &OF_TWO, TWO, 511);
    assert!(rt; other.is_empty(), "{other}");
}

#[test]
fn a_thread_and_actions(rt: HostRuntime) {
    let other = first_other(rt.alloc(), &WITH_AGENT, TWO, 511);
    assert!(rt; other.is_empty(), "{other}");
    let other = first_other(rt.alloc(), &[OF_AGENTS], THREE, 121);
    assert!(rt; other.is_empty(), "{other}");
}

#[test]
fn single_turns_and_three_threads(rt: HostRuntime) {
    let other = first_other(rt.alloc(), &[ONE_READ], TURNS, 341);
    assert!(rt; other.is_empty(), "{other}");
    let other = first_other(rt.alloc(), &OF_THREE, THREE, 121);
    assert!(rt; other.is_empty(), "{other}");
}
