// That workers run at once: a gate holds one actor until another has passed, and gives up after many looks.
use crate::seen::leaves;
use std::alloc::Global;
use std::sync::Wait;
use std::sync::atomic::{AtomicU64, Ordering};
use std::thread::Threads;
use txs_threads::{AskKind, Gate, Moment};

/// How often a gate looks before it gives up: a second of a processor, in which each of four threads is run also under load on two processors.
const LOOKS: u32 = 1_000_000_000;

/// A reader that reads twice, and a writer.
const READER: &str =
    "(def r (ref 0)) (future (dosync @r) (println (dosync @r))) (future (dosync (ref-set r 7)))";

/// Four threads that add one to a ref each.
const FOUR: &str = "(def c (ref 0))
(future (dosync (commute c inc))) (future (dosync (commute c inc)))
(future (dosync (commute c inc))) (future (dosync (commute c inc)))";

/// Two threads that add one to an atom.
const SWAPS: &str = "(def a (atom 0)) (future (swap! a inc)) (future (swap! a inc))";

/// The same, where the atom's validator takes long.
const VALIDATED_SWAPS: &str =
    "(defn slow [x] (loop [i 0] (if (< i 20) (recur (inc i)) true))) (def a (atom 0 :validator slow))
(future (swap! a inc)) (future (swap! a inc))";

/// Two threads that add one to a ref, whose validator takes long.
const VALIDATED_COMMITS: &str =
    "(defn slow [x] (loop [i 0] (if (< i 20) (recur (inc i)) true))) (def r (ref 0 :validator slow))
(future (dosync (alter r inc))) (future (dosync (alter r inc)))";

/// Holds actors: all of them at their first begins, until four have come, or actor 0 alone so many turns behind such a request, until actor 1 has passed another.
/// One type for both, since each gate is a run of its own to prove.
#[derive(Drop)]
struct Meeting {
    of_four: bool,
    held: AskKind,
    passed: AskKind,
    turns: u64,
    made: AtomicU64,
    come: AtomicU64,
    gave_up: AtomicU64,
    answered: AtomicU64,
    local: AtomicU64,
}

impl Meeting {
    /// Looks until so many have come, or gives up.
    fn wait_for(&self, many: u64) {
        for _ in 0..LOOKS {
            if self.come.load(Ordering::SeqCst) >= many {
                return;
            }
        }
        self.gave_up.store(1, Ordering::SeqCst);
    }

    /// Whether actor 0 is held here: behind the request, or so many turns later.
    fn is_held(&self, moment: Moment) -> bool {
        if moment == Moment::Answered(self.held) {
            self.made.store(1, Ordering::SeqCst);
            return self.turns == 0;
        }
        if moment != Moment::Local || self.made.load(Ordering::SeqCst) == 0 {
            return false;
        }
        self.made.fetch_add(1, Ordering::SeqCst) == self.turns
    }
}

impl Gate for Meeting {
    fn pass(&self, actor: u16, moment: Moment) {
        match moment {
            Moment::Local => self.local.fetch_add(1, Ordering::SeqCst),
            Moment::Answered(_) => self.answered.fetch_add(1, Ordering::SeqCst),
        };
        if self.of_four && moment == Moment::Answered(AskKind::Begin) {
            self.come.fetch_add(1, Ordering::SeqCst);
            self.wait_for(4);
        }
        if !self.of_four && actor == 1 && moment == Moment::Answered(self.passed) {
            self.come.fetch_add(1, Ordering::SeqCst);
        }
        if !self.of_four && actor == 0 && self.is_held(moment) {
            self.wait_for(1);
        }
    }
}

/// Whether the gate was passed behind each request, of which there are at least so many, and before the turns that lead to each and to each end.
fn is_told(answered: u64, local: u64, asks: u64) -> bool {
    answered >= asks && local > answered
}

/// Whether a script's run by so many workers leaves this text, where a gate gives up, or doesn't, and is passed behind so many requests at least.
fn meets<R: Threads + Wait + Sync>(
    rt: &R,
    alloc: Global,
    script: &str,
    workers: usize,
    text: &str,
    moments: (AskKind, AskKind, u64),
    gives_up: bool,
    asks: u64,
) -> bool {
    let gate = Meeting {
        of_four: workers == 4,
        held: moments.0,
        passed: moments.1,
        turns: moments.2,
        made: AtomicU64::new(0),
        come: AtomicU64::new(0),
        gave_up: AtomicU64::new(0),
        answered: AtomicU64::new(0),
        local: AtomicU64::new(0),
    };
    let left = leaves(rt, alloc, script, workers, 1_000, &gate, text);
    left && gives_up == (gate.gave_up.load(Ordering::SeqCst) == 1)
        && is_told(
            gate.answered.load(Ordering::SeqCst),
            gate.local.load(Ordering::SeqCst),
            asks,
        )
}

/// A gate that two workers pass leaves its mark where one worker runs all: that keeps the reader to its end. An actor that is held between the opening of a swap and
/// its end holds no lock: the other ends its own swap meanwhile, and the first is made again.
#[test]
fn two_and_four_at_once(rt: HostRuntime) {
    let alloc = rt.alloc();
    let commit = (AskKind::Begin, AskKind::Commit, 0);
    let swap = (AskKind::OpenAt, AskKind::CloseAt, 0);
    assert!(rt; meets(&rt, alloc, READER, 2, "7\ndone done 7 ", commit, false, 8));
    assert!(rt;
        meets(
            &rt,
            alloc,
            FOUR,
            4,
            "done done done done 4 ",
            commit,
            false,
            12
        )
    );
    assert!(rt; meets(&rt, alloc, READER, 1, "0\ndone done 7 ", commit, true, 8));
    assert!(rt; meets(&rt, alloc, SWAPS, 2, "done done 2 ", swap, false, 4));
}

/// Validators run outside every lock: an actor that is held within one lets the other end its change meanwhile, and makes its own again.
#[test]
fn validators_hold_no_lock(rt: HostRuntime) {
    let alloc = rt.alloc();
    let commit = (AskKind::Begin, AskKind::Commit, 50);
    let swap = (AskKind::OpenAt, AskKind::CloseAt, 50);
    let text = "done done 2 ";
    assert!(rt; meets(&rt, alloc, VALIDATED_SWAPS, 2, text, swap, false, 4));
    assert!(rt; meets(&rt, alloc, VALIDATED_COMMITS, 2, text, commit, false, 8));
}
