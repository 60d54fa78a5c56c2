// What a thread means on events, what a transaction means on a world, and what else rows say of a script.
use crate::acting::acts;
use crate::checks::are_told;
use crate::trees::all_give;
use std::alloc::Global;
use std::str::SplitWhitespace;
use txs_compile::compile;
use txs_tree_eval::{
    History, Needs, RefView, Seen, ThreadMeaning, TxMeaning, eval_thread, eval_tx,
};
use txs_tree_meaning::{NodeKind, Program};
use txs_value_data::{CellId, CellKind, Listed, Value, write_text};
use txs_world_protocol::{Cause, EventKind, Outcome};

/// A word of digits as a number.
pub fn number_of(word: &str) -> i64 {
    let mut number = 0i64;
    for byte in word.as_bytes() {
        let digit = i64::from(byte.wrapping_sub(b'0'));
        number = number.wrapping_mul(10).wrapping_add(digit);
    }
    number
}

/// Whether this is the text of a value.
pub fn is_text(alloc: Global, value: &Value, text: &[u8]) -> bool {
    let mut out = Vec::new(alloc);
    write_text(value, &mut out).is_ok() && out.as_slice() == text
}

/// The next word as a place.
fn next_place(words: &mut SplitWhitespace<'_>) -> u32 {
    u32::try_from(number_of(words.next().unwrap_or(""))).unwrap_or(u32::MAX)
}

/// The values of a cell, one for each place.
fn history(alloc: Global, values: &str) -> History {
    let mut history = History::new(alloc);
    let mut place = 0u32;
    for word in values.split_whitespace() {
        let value = Value::Int(number_of(word));
        if place < history.latest() || history.add(place, value).is_err() {
            break;
        }
        place = place.wrapping_add(1);
    }
    history
}

/// The values of cells, one for each place, with `;` between one cell and the next.
pub fn histories(alloc: Global, values: &str) -> Vec<History> {
    let mut cells = Vec::new(alloc);
    for one in values.split(';') {
        if cells.push(history(alloc, one)).is_err() {
            break;
        }
    }
    cells
}

/// These values, written to the refs that are defined first.
fn writes_of(alloc: Global, values: &str) -> Listed<(CellId, Value)> {
    let mut writes = Vec::new(alloc);
    let mut number = 0u16;
    for word in values.split_whitespace() {
        let cell = CellId {
            kind: CellKind::Ref,
            number,
        };
        if writes.push((cell, Value::Int(number_of(word)))).is_err() {
            break;
        }
        number = number.wrapping_add(1);
    }
    Listed::from_vec(writes)
}

/// A retry of this cell for this cause, since it was written at this place or later.
fn retry(since: u32, cell: CellId, cause: Cause) -> EventKind {
    EventKind::Retry { since, cell, cause }
}

/// The kind of an event by its name, the places where it began and viewed last, and what stands behind `=`: the values of a commit or a
/// swap, or the number of the agent that refused. It is of this cell, which is defined first, unless it says of which. A retry has the name
/// of its cause: `outdated`, `held`, or `commuted` where the commutes alone have to run again.
fn kind_of(alloc: Global, cell: CellId, event: &str) -> EventKind {
    let (told, new) = event.split_once(" = ").unwrap_or((event, ""));
    let mut words = told.split_whitespace();
    let name = words.next().unwrap_or("");
    let at = next_place(&mut words);
    let view = next_place(&mut words);
    match name {
        "read" => EventKind::Read { cell },
        "outdated" => retry(at, cell, Cause::Outdated),
        "held" => retry(at, cell, Cause::Held),
        "commuted" => retry(view, cell, Cause::Commuted { at }),
        "commit" => EventKind::Commit {
            at,
            view,
            writes: writes_of(alloc, new),
            sends: Listed::from_vec(Vec::new(alloc)),
        },
        "fail" => EventKind::Fail { at, view },
        "refused" => EventKind::Refused {
            at,
            view,
            agent: CellId {
                kind: CellKind::Agent,
                number: u16::try_from(number_of(new)).unwrap_or(u16::MAX),
            },
        },
        "swap" => EventKind::Swap {
            new: Value::Int(number_of(new)),
        },
        "broke" => EventKind::Broke { at },
        _ => EventKind::SendRefused { agent: cell },
    }
}

/// The kinds of events, with `;` between one event and the next.
pub fn kinds_of(alloc: Global, cell: CellId, events: &str) -> Vec<EventKind> {
    let mut kinds = Vec::new(alloc);
    for event in events.split(';') {
        if kinds.push(kind_of(alloc, cell, event)).is_err() {
            break;
        }
    }
    kinds
}

/// The values of these cells at a place.
fn view_of(cells: &[History], place: u32) -> RefView<'_> {
    RefView {
        cells,
        swaps: None,
        place,
    }
}

/// The events of such a cell, with the cells' values. An atom's swaps and reads stand in its own book, the first behind the store's.
pub fn all_seen<'a>(
    alloc: Global,
    cell: CellKind,
    kinds: &'a [EventKind],
    cells: &'a [History],
    events: &str,
) -> Vec<Seen<'a>> {
    let mut all = Vec::new(alloc);
    let mut told = events.split(';');
    for kind in kinds {
        let mut words = told.next().unwrap_or("").split_whitespace();
        words.next();
        let at = next_place(&mut words);
        let view = next_place(&mut words);
        let place = next_place(&mut words);
        let own = match kind {
            EventKind::Read { .. } | EventKind::Swap { .. } | EventKind::Broke { .. } => {
                cell == CellKind::Atom
            }
            _ => false,
        };
        let seen = Seen {
            book: usize::from(own),
            kind,
            start: view_of(cells, at),
            view: view_of(cells, view),
            here: view_of(cells, place),
        };
        if all.push(seen).is_err() {
            break;
        }
    }
    all
}

/// A thread's end: `done`, the name of a fault and its place, `event` where it needs one more, `turns` where it needs these, or `wrong` where
/// the events aren't its own.
fn end_of(meaning: &ThreadMeaning) -> (&'static str, u32, u32) {
    match (meaning.needs, meaning.outcome) {
        (Needs::Nothing, Some(Outcome::Done)) => ("done", 0, 0),
        (Needs::Nothing, Some(Outcome::Failed(fault))) => {
            (fault.kind.name(), fault.span.from, fault.span.to)
        }
        (Needs::Event, None) => ("event", 0, 0),
        (Needs::Turns, None) => ("turns", 0, 0),
        (Needs::Wrong, None) => ("wrong", 0, 0),
        _ => ("neither", 0, 0),
    }
}

/// Whether the next words tell a thread's end.
fn ends_so(meaning: &ThreadMeaning, words: &mut SplitWhitespace<'_>) -> bool {
    let (name, from, to) = end_of(meaning);
    let is = words.next() == Some(name);
    let mut place = words.next().unwrap_or("").split('.');
    let begun = number_of(place.next().unwrap_or(""));
    place.next();
    let ended = number_of(place.next().unwrap_or(""));
    is && begun == i64::from(from) && ended == i64::from(to)
}

/// Whether a thread ate so many events, and printed this.
fn has_done(meaning: &ThreadMeaning, eaten: &str, printed: &str) -> bool {
    usize::try_from(number_of(eaten)) == Ok(meaning.eaten)
        && meaning.printed.as_slice() == printed.as_bytes()
}

/// Whether a thread means this: how many of the events it eats, its end, and in the lines below what it prints.
fn is_meant(meaning: &ThreadMeaning, wanted: &str) -> bool {
    let (first, printed) = wanted.split_once('\n').unwrap_or((wanted, ""));
    let mut words = first.split_whitespace();
    let eaten = words.next().unwrap_or("");
    ends_so(meaning, &mut words) && has_done(meaning, eaten, printed)
}

/// Whether the program's first thread means this on these events, where a loop makes at most so many turns.
pub fn means_on<'a>(
    alloc: Global,
    program: &'a Program,
    events: &'a [Seen<'a>],
    turns: u32,
    wanted: &str,
) -> bool {
    if program.threads().is_empty() {
        return false;
    }
    match eval_thread(alloc, program, 0, events, turns) {
        Ok(meaning) => is_meant(&meaning, wanted),
        Err(_) => false,
    }
}

/// Whether a thread means what the lines below its cells' values say: the events, each with its places, and what it means on them.
fn means(alloc: Global, program: &Program, values: &str, rest: &str) -> bool {
    let Some(first) = program.cells().first() else {
        return false;
    };
    let cell = CellId {
        kind: first.kind,
        number: 0,
    };
    let (events, wanted) = rest.split_once('\n').unwrap_or((rest, ""));
    let cells = histories(alloc, values);
    let kinds = kinds_of(alloc, cell, events);
    let seen = all_seen(alloc, cell.kind, kinds.as_slice(), cells.as_slice(), events);
    means_on(alloc, program, seen.as_slice(), 100, wanted)
}

/// Whether the room of at most one body is told by this word: its number, or `-` where there is none.
fn is_room(rooms: &[u32], word: &str) -> bool {
    match rooms {
        [] => word == "-",
        [room] => number_of(word) == i64::from(*room),
        _ => false,
    }
}

/// Whether what stands below a row's script holds of its program, and of the rooms of its functions and its threads.
fn holds_of(alloc: Global, program: &Program, rooms: (&[u32], &[u32]), rest: &str) -> bool {
    let (first, more) = rest.split_once('\n').unwrap_or((rest, ""));
    match first {
        "rooms" => {
            let mut words = more.split_whitespace();
            is_room(rooms.0, words.next().unwrap_or(""))
                && is_room(rooms.1, words.next().unwrap_or(""))
        }
        "transaction" => transacts(alloc, program, more),
        "action" => acts(alloc, program, more),
        "pure" => are_told(alloc, program),
        "gives" => all_give(alloc, program),
        values => means(alloc, program, values, more),
    }
}

/// Whether a row holds.
fn holds(alloc: Global, row: &str) -> bool {
    let (script, rest) = row.split_once('\n').unwrap_or((row, ""));
    match compile(alloc, script.as_bytes()) {
        Ok((program, verified)) => holds_of(alloc, &program, verified.rooms(), rest),
        Err(_) => false,
    }
}

/// Rows with `#` between one and the next: a script, and below it
/// - the values of its cells, one for each place; the events of its first thread, each with its places; and what that means;
/// - `rooms`, and the room that the stacks of its function and of its thread need;
/// - `transaction`, and the values of the cells on which the transaction that is its first thread does what `is_done_so` says;
/// - `action`, and what its first function means as an action, as `acting.rt` says;
/// - `pure`, where its callees are told as the table of `checks.rt` says; or `gives`, where they give what `trees.rt` says.
///
/// First transactions, which run again for what they set or ensured, and for a value that is no longer kept. Then such that commute, and give
/// what they computed where they began: a commute is made again on the newest value;
/// another commits between view and commit, and the commute alone runs again; each is made on the newest value of its ref, but what is set
/// keeps its own; the first fault is that of the ref that is defined first, and on the values that were viewed.
///
/// Then swaps and sends: a transaction that holds a send to an agent that has failed is refused, also where its commutes ran again. Then
/// turns that don't suffice: the event of a transaction or a swap stays to come, and so does a retry for what the body held, which it doesn't
/// come to. Then validators: of a commit, of what is set in the end
/// alone, of a reset behind a swap, of a swap, one behind the function that resets, and of what a commute writes; a refused value isn't
/// committed. Then events that aren't those of the script's first thread: a commuted ref gets what was computed where the transaction began; a ref that was
/// set is commuted again; a ref that was commuted isn't written; a transaction is refused whose commute faults on what was viewed; a swap
/// stands where a read has to. And retries without their cause: for a ref that was only read, or commuted and neither set nor ensured; a redo
/// for a ref that was set; a right one, and then such a redo; one for a ref that was set before the body faulted.
///
/// Then actions: one holds what it sends, also in its transaction, whose commit sends nothing; what a try held that ran again is dropped; one
/// that isn't over, or faults, has no sends; a redo has no cause where nothing was commuted; and no send is an event of an action.
const ROWS: &str = "\
(def r (ref 0)) (future (println (dosync (alter r inc))))
0
commit 0 0 0 = 1
1 done
1
#(def r (ref 0)) (future (println (dosync (alter r inc))))
0 5
held 0 0 1;commit 1 1 1 = 6
2 done
6
#(def r (ref 0)) (future (println (dosync (alter r inc))))
0 5
held 0 0 1
1 event
#(def r (ref 0)) (future (println (dosync (ensure r))))
0 5
held 0 0 1;commit 1 1 1
2 done
5
#(def r (ref 0)) (future (println (dosync @r)))
0 5
outdated 0 0 1;commit 1 1 1
2 done
5
#(def r (ref 1)) (future (dosync (alter r + 10) (commute r * 2)))
1
commit 0 0 0 = 22
1 done
#(def r (ref 1)) (future (dosync (commute r inc) (alter r inc)))
1
fail 0 0 0
1 SetAfterCommute 48..61
#(def a (atom 0)) (defn f [x] @x) (future (dosync (f a)))
0
fail 0 0 0
1 OutsideOnly 29..31
#(def c (ref 0)) (future (println (dosync (commute c inc))))
0 1
commit 0 1 1 = 2
1 done
1
#(def c (ref 0)) (future (println (dosync (commute c inc))))
0 1 1
commuted 0 0 1;commit 0 2 2 = 2
2 done
1
#(def c (ref 0)) (future (println (dosync (commute c inc))))
0 1
commuted 0 0 1
1 event
#(def a (ref 1)) (def b (ref 10)) (def c (ref 100)) (future (println (dosync (commute c + 1) (alter b inc) (commute a + 2) (commute b * 3) (commute c * 2))))
1 5;10 10;100 200
commit 0 1 1 = 7 33 402
1 done
202
#(def a (ref 0)) (def b (ref 1)) (defn share [v] (quot 6 v)) (future (dosync (commute b share) (commute a inc)))
0 9223372036854775807;1 0
fail 0 1 1
1 Overflow 68..110
#(def a (ref 0)) (def b (ref 1)) (defn share [v] (quot 6 v)) (future (dosync (commute b share) (commute a inc)))
0 3 3;1 0 1
fail 0 1 2
1 DivideByZero 48..58
#(def a (atom 1)) (future (println (swap! a + 1 2)) (println @a))
1 4
swap 0 0 0 = 4;read 1 1 1
2 done
4
4
#(def a (atom 1)) (future (println (swap! a + 1 2)) (println @a))
1 4
swap 0 0 0 = 4
1 event
4
#(def a (atom 1)) (future (println 7 (swap! a quot 0)))
1
broke 0 0 0
1 DivideByZero 36..52
#(def g (agent 10)) (future (println 7) (send g quot 0))
10
send-refused 0 0 0
1 AgentFailed 39..54
7
#(def g (agent 10)) (future (println 7) (dosync (send g quot 0)) (println 8))
10
refused 0 0 0 = 0
1 AgentFailed 39..63
7
#(def c (ref 0)) (def g (agent 10)) (future (println 7) (dosync (commute c inc) (send g quot 0)))
0 5 5 5;10
commuted 0 0 1;refused 0 2 3 = 1
2 AgentFailed 55..95
7
#(def r (ref 0)) (future (println 7) (dosync @r (ref-set r (loop [i 0] (recur i)))))
0
outdated 0 0 0;commit 0 0 0 = 5
1 turns
7
#(def r (ref 0)) (future (println 7) (dosync (loop [i 0] (recur i)) @r))
0
outdated 0 0 0;commit 0 0 0
0 turns
7
#(def r (ref 0)) (future (println 7) (dosync (ref-set r 1) @r))
0 5
outdated 0 0 1;commit 1 1 1 = 1
0 wrong
7
#(def r (ref 0)) (future (println 7) (dosync (commute r quot 0)))
0 5
outdated 0 0 1;fail 1 1 1
2 DivideByZero 44..62
7
#(def r (ref 0)) (future (println 7) (dosync (quot 1 0) @r))
0 5
outdated 0 0 1;fail 1 1 1
0 wrong
7
#(def r (ref 0)) (future (println 7) (dosync (ref-set r (loop [i 0] (recur i)))))
0
held 0 0 0;commit 0 0 0 = 5
0 turns
7
#(def a (atom 0)) (defn spin [x] (recur x)) (future (println 7) (swap! a spin))
0
swap 0 0 0 = 5
0 turns
7
#(defn ok [x] (>= x 0)) (def r (ref 1 :validator ok)) (future (dosync (alter r - 2)))
1
fail 0 0 0
1 InvalidState 61..83
#(defn ok [x] (>= x 0)) (def r (ref 1 :validator ok)) (future (dosync (ref-set r -5) (ref-set r 3)))
1
commit 0 0 0 = 3
1 done
#(def a (atom 1 :validator pos?)) (future (println (swap! a inc)) (reset! a 0))
1 2
swap 0 0 0 = 2
1 InvalidState 65..77
2
#(def a (atom 1 :validator pos?)) (future (println 7) (swap! a - 1))
1
broke 0 0 0
1 InvalidState 53..66
7
#(defn put [c v] (reset! c v)) (defn ok [x] (pos? x)) (def a (atom 1 :validator ok)) (future (println 7) (put a 0))
1

0 InvalidState 16..28
7
#(def r (ref 1 :validator pos?)) (future (println (dosync (commute r - 1))))
1 5
commit 0 1 1 = 4
1 done
0
#(def r (ref 1 :validator pos?)) (future (dosync (ref-set r 0)))
1
commit 0 0 0 = 0
0 wrong
#(def c (ref 0)) (future (println (dosync (commute c inc))))
0 1 1
commuted 0 0 1;commit 0 2 2 = 1
1 wrong
#(def a (ref 1)) (def b (ref 10)) (def c (ref 100)) (future (println (dosync (commute c + 1) (alter b inc) (commute a + 2) (commute b * 3) (commute c * 2))))
1 5;10 10;100 200
commit 0 1 1 = 7 99 402
0 wrong
#(def a (ref 1)) (def b (ref 10)) (def c (ref 100)) (future (println (dosync (commute c + 1) (alter b inc) (commute a + 2) (commute b * 3) (commute c * 2))))
1 5;10 10;100 200
commit 0 1 1 = 7 33
0 wrong
#(def r (ref 1)) (def g (agent 10)) (defn share [v] (quot 6 v)) (future (dosync (commute r share) (send g quot 0)))
1 0;10
refused 0 1 1 = 1
0 wrong
#(def a (atom 1)) (future (println 7) (println (swap! a + 1 2)) (println @a))
1 4
swap 0 0 0 = 4;swap 1 1 1 = 9
1 wrong
7
4
#(def r (ref 0)) (future (println (dosync @r)))
0 5
held 0 0 1;commit 1 1 1
0 wrong
#(def c (ref 0)) (future (println (dosync (commute c inc))))
0 1
held 0 0 1;commit 1 1 1 = 2
0 wrong
#(def r (ref 0)) (future (println (dosync (alter r inc) (commute r inc))))
0 5
commuted 0 0 1;commit 0 1 1 = 7
0 wrong
#(def r (ref 0)) (future (println (dosync (alter r inc))))
0 5 7
held 0 0 1;commuted 1 1 2;commit 1 2 2 = 8
1 wrong
#(def r (ref 0)) (future (println 7) (dosync (ref-set r 1) (quot 1 0)))
0 5
held 0 0 1;fail 1 1 1
0 wrong
7
#(def r (ref 0)) (def h (agent 0)) (defn work [s] (println s) (dosync (alter r inc) (send h + 7)) (send h inc) (inc s))
action
5
0
commit 0 0 0 = 1
1 6 2
5
#(def r (ref 0)) (def h (agent 0)) (defn work [s] (dosync (send h + @r) (alter r inc)) (inc s))
action
5
0 5
held 0 0 1;commit 1 1 1 = 6
2 6 1
#(def r (ref 0)) (def h (agent 0)) (defn work [s] (dosync (send h + @r) (alter r inc)) (inc s))
action
5
0 5
outdated 0 0 1
1 event 0
#(def r (ref 0)) (def h (agent 0)) (defn work [s] (dosync (send h + @r) (alter r inc)) (inc s))
action
5
0 5
commuted 0 0 1;commit 0 1 1 = 6
0 wrong 0
#(def r (ref 0)) (def h (agent 0)) (defn work [s] (println 7) (send h inc) (dosync (alter r inc)) (quot 1 s))
action
0
0
commit 0 0 0 = 1
1 DivideByZero 0
7
#(def h (agent 0)) (defn work [s] (println 7) (send h inc) @h)
action
0
0
send-refused 0 0 0
0 wrong 0
7
#(future (println (+ 1 2)))
rooms
- 1
#(future (let [x 1] (println (+ x 2))))
rooms
- 2
#(future (let [x 5] (do x (println x))))
rooms
- 1
#(future (if 0 [1] 2))
rooms
- 1
#(future (loop [i 0 s 0] (if (= i 3) s (recur (inc i) (+ s i)))))
rooms
- 3
#(def r (ref 7)) (future (dosync (alter r + 1)) @r)
rooms
- 3
#(defn twice [x] (* 2 x)) (future (println (twice 4)))
rooms
2 2
#(defn down [n] (if (= n 0) n (recur (dec n)))) (future (println (down 3)))
rooms
2 1
#(def r (ref 7)) (defn add [v n] (+ v n)) (future (dosync (alter r add 1)))
rooms
2 3
#(def r (ref 7)) (future (dosync (ref-set r 1)))
rooms
- 2
#(def a (ref 0)) (def b (ref 0)) (def c (ref 0)) (def d (ref 0)) (def g (agent 0)) (future (dosync (ref-set a 7) (alter a + @c) (commute b + 1) (ensure d) (send g + 2) [@a @b]))
transaction
1;10;5;3
#(defn f [a b] [b a]) (defn g [] (println 1)) (defn h [x] (f x (g)))
pure
#(defn swapped [a b] [b a]) (defn spin [] (recur)) (future (println (swapped 1 2)))
gives
";

#[test]
fn rows_hold(rt: HostRuntime) {
    for row in ROWS.split('#') {
        assert!(rt; holds(rt.alloc(), row), "{row}");
    }
}

/// Rows that have these events so many times between their front and their back: after so many retries there is no further one, and after so
/// many that ran again, in turn as a whole and in their commutes alone.
const LAST: &[(&str, &str, u32, &str)] = &[
    (
        "(def r (ref 0)) (future (dosync (alter r inc)))\n0\n",
        "held 0 0 0;",
        9_999,
        "held 0 0 0\n10000 RetryLimit 24..46\n",
    ),
    (
        "(def r (ref 0)) (future (dosync (commute r -)))\n0\n",
        "outdated 0 0 0;commuted 0 0 0;",
        4_999,
        "outdated 0 0 0;commuted 0 0 0\n10000 RetryLimit 24..46\n",
    ),
];

#[test]
fn the_last_try_on_events(rt: HostRuntime) {
    for (front, events, count, back) in LAST {
        let mut row = String::new(rt.alloc());
        let mut made = row.push_str(front).is_ok();
        for _ in 0..*count {
            made = row.push_str(events).is_ok() && made;
        }
        made = row.push_str(back).is_ok() && made;
        assert!(rt; made && holds(rt.alloc(), row.as_str()), "{front}");
    }
}

/// The refs with the numbers 1, 2 and 3.
const B: CellId = CellId {
    kind: CellKind::Ref,
    number: 1,
};

const C: CellId = CellId {
    kind: CellKind::Ref,
    number: 2,
};

const D: CellId = CellId {
    kind: CellKind::Ref,
    number: 3,
};

/// Whether a transaction writes 12 alone, to the ref with number 0.
fn writes_alone(meaning: &TxMeaning) -> bool {
    match meaning.done.writes() {
        Ok(writes) => {
            matches!(writes.as_slice(), [(a, Value::Int(new))] if a.number == 0 && *new == 12)
        }
        Err(_) => false,
    }
}

/// Whether a transaction gives `[12 11]`, writes so, commuted B, read C and D, ensured D, holds one send, and used the commute.
fn is_done_so(alloc: Global, meaning: &TxMeaning) -> bool {
    let commutes = match meaning.done.commuted() {
        Ok(commuted) => commuted.as_slice() == [B].as_slice(),
        Err(_) => false,
    };
    let gives = match &meaning.result {
        Ok(value) => is_text(alloc, value, b"[12 11]"),
        Err(_) => false,
    };
    commutes
        && gives
        && writes_alone(meaning)
        && meaning.reads.as_slice() == [C, D].as_slice()
        && meaning.done.ensured() == [D].as_slice()
        && meaning.done.sends().len() == 1
        && meaning.used
}

/// Whether the transaction that is a program's first thread is done so where its cells hold these values.
fn transacts(alloc: Global, program: &Program, values: &str) -> bool {
    let Some((thread, _)) = program.threads().split_first() else {
        return false;
    };
    let NodeKind::Dosync(body) = &thread.body.kind else {
        return false;
    };
    let cells = histories(alloc, values);
    let world = view_of(cells.as_slice(), 0);
    match eval_tx(alloc, program, body, &[], world, 100) {
        Ok(meaning) => is_done_so(alloc, &meaning),
        Err(_) => false,
    }
}
