// What no clause says: that the calls of the store, and of the state that it and the atoms are, succeed with ample memory.
use crate::asks::{AGENT, OTHER_AGENT, ask_of, next_word, number_of, short_of};
use crate::replies::{are_events, is_reply};
use std::alloc::Global;
use std::str::SplitWhitespace;
use txs_code_encode::decode;
use txs_value_data::{CellId, CellKind};
use txs_world_protocol::{Ask, Reply};
use txs_world_shared::SharedState;

// The code of `(def a (ref 1)) (def b (ref 2)) (def g (agent 10)) (def h (agent 20))`.
const STORE: &[u8] =
    b"TXS1\0\x04\0\0\x01a\x03\0\0\0\0\0\0\0\x01\0\0\x01b\x03\0\0\0\0\0\0\0\x02\x02\0\x01g\x03\0\0\0\0\0\0\0\x0a\x02\0\x01h\x03\0\0\0\0\0\0\0\x14\0\0\0\0\0\0\0\0";
// The code of `(def r (ref 1)) (def a (atom 5)) (def g (agent 3)) (def b (atom 7))`.
const ATOMS: &[u8] =
    b"TXS1\0\x04\0\0\x01r\x03\0\0\0\0\0\0\0\x01\x01\0\x01a\x03\0\0\0\0\0\0\0\x05\x02\0\x01g\x03\0\0\0\0\0\0\0\x03\x01\0\x01b\x03\0\0\0\0\0\0\0\x07\0\0\0\0\0\0\0\0";

// The ref that is defined first.
const REF: CellId = CellId {
    kind: CellKind::Ref,
    number: 0,
};

// The atom `b`.
const ATOM: CellId = CellId {
    kind: CellKind::Atom,
    number: 3,
};

// What a new store answers four threads, the agent `g`, which is actor 4, and the agent `h`, which is actor 5, `#` between one store and the next. Behind `commit` stand its read point
// and its view, and the lists of what it sets, ensures, commutes and sends, behind `finish` the new state and the list of what it sends; `book 0` has the store's events. The last is read until its
// book is full.
const OF_STORE: &str = "\
0 begin => at 0
0 look 1 0 => is 2
book 0 => 
#1 peek 0 => is 1
0 commit 1 1 0=5 - - - => done
1 peek 0 => is 5
1 peek 1 => is 2
1 peek g => is 10
book 0 => 1 read 0 commit 1 read 1 read 1 read
#0 commit 0 0 1=7 - - - => done
1 look 1 0 => is 2
2 commit 0 0 1=8 - - - => retry 1
3 look 1 1 => is 7
2 begin => at 2
2 commit 2 2 1=8 - - - => done
3 look 1 0 => is 2
3 look 1 2 => is 7
3 look 1 3 => is 8
book 0 => 0 commit 2 retry 2 commit
#0 commit 0 0 1=10 - - - => done
0 commit 1 1 1=11 - - - => done
0 commit 2 2 1=12 - - - => done
0 commit 3 3 1=13 - - - => done
0 commit 4 4 1=14 - - - => done
0 commit 5 5 1=15 - - - => done
0 commit 6 6 1=16 - - - => done
0 commit 7 7 1=17 - - - => done
0 commit 8 8 1=18 - - - => done
0 commit 9 9 1=19 - - - => done
1 look 1 0 => is 2
1 look 1 1 => is 10
0 commit 10 10 0=9 - - - => done
1 look 1 0 => is 2
0 commit 11 11 1=20 - - - => done
1 look 1 0 => retry 1
1 look 1 0 => unlawful
2 look 1 1 => is 10
2 look 1 11 => is 19
2 look 0 0 => is 1
2 look 1 12 => is 20
#0 fail 0 => done
1 look 0 0 => is 1
book 0 => 0 fail
#0 look 1 0 => is 2
1 look 0 0 => is 1
0 commit 0 0 0=0 1 - - => done
1 commit 0 0 1=0 0 - - => retry 0
book 0 => 0 commit 1 retry
#0 view 0 => views 0 1
1 view 0 => views 0 1
0 commit 0 0 - - 0=2 - => done
1 commit 0 0 - - 0=2 - => changed 0
1 view 0,1 => views 2 2 2
1 commit 0 2 1=9 - 0=3 - => done
book 0 => 0 commit 1 retry 1 commit
#4 take => idle
0 send 5 => done
1 commit 1 1 - - - 6 => done
4 take => action 1 10
4 take => unlawful
0 finish 15 - => unlawful
4 finish 15 - => done
4 take => action 2 15
0 peek g => is 15
book 0 => 0 send 1 commit 4 act 0 read
#0 send 5 => done
4 take => action 1 10
4 finish fault - => done
1 send 6 => failed 2
1 commit 3 3 0=9 - - 6 => failed 2
4 take => idle
book 0 => 0 send 4 act 1 send-refused 1 refused
#0 send 5 => done
4 take => action 1 10
4 begin => at 1
4 commit 1 1 0=9 - - - => done
4 peek 0 => is 9
4 send 6 => unlawful
4 commit 3 3 0=8 - - 6 => unlawful
4 finish fault 6 => unlawful
5 finish 15 - => unlawful
4 finish 15 7,h8 => done
5 take => action 1 20
4 take => action 2 15
book 0 => 0 send 4 commit 4 read 4 act
#0 send h5 => done
5 take => action 1 20
0 send 6 => done
4 take => action 1 10
4 finish fault - => done
5 finish 25 h7,8 => failed 2
5 take => idle
0 send h9 => failed 3
0 peek h => is 20
book 0 => 0 send 0 send 4 act 5 act 0 send-refused 0 read
#0 peek 2 => unlawful
0 peek other => unlawful
0 fail 1 => unlawful
0 commit 0 0 1=0,1=0 - - - => unlawful
0 commit 0 0 1=0,0=0 - - - => unlawful
0 commit 0 0 1=0 - 1=0 - => unlawful
0 look g 0 => unlawful
5 begin => at 0
6 begin => unlawful
0 commit 0 0 0=0,1=0 - - - => done
#reads 1000000
0 peek 0 => full
1 commit 0 0 0=9 - - - => full
1 fail 0 => full
1 send 5 => full
4 take => idle
0 begin => at 1000000
1 look 0 0 => is 1
1 view 1 => views 1000000 2";

// What the state with two atoms answers two threads and an agent, which is actor 2: `book 1` has the events of `a`, `book 2` those of `b`.
const OF_ATOMS: &str = "\
0 peek 0 => is 1
0 peek a => is 5
0 peek b => is 7
1 open a => opened 1 5
1 close a 6 1 => done
0 close a 9 1 => changed 1
0 peek a => is 6
0 broke b 1 => done
0 broke b 1 => unlawful
2 peek a => is 6
2 open a => opened 4 6
2 close a 8 4 => done
3 peek a => unlawful
0 open 0 => unlawful
0 peek g => is 3
book 0 => 0 read 0 read
book 1 => 0 read 1 swap 0 read 2 read 2 swap
book 2 => 0 read 0 broke
book 3 => 
itself";

// Whether the state tells where the atom `b` has its events, of its threads and of its cells.
fn is_itself(state: &SharedState) -> bool {
    let peek = Ask::Peek { cell: ATOM };
    let book = state.book_for(&peek);
    drop(peek);
    book == 2
        && state.home(ATOM) == 2
        && state.threads() == 2
        && state.made_for(state.cells())
        && !state.made_for(&[])
}

// Whether the state answers an actor's ask so, or finds that it isn't lawful: the next words are an arrow and the answer.
fn is_answered(
    state: &mut SharedState,
    actor: u16,
    ask: Ask,
    words: &mut SplitWhitespace<'_>,
) -> bool {
    words.next();
    if !state.lawful(actor, &ask) {
        drop(ask);
        return words.next() == Some("unlawful");
    }
    let reply = state.serve(actor, ask);
    let is = is_reply(&reply, words);
    drop(reply);
    is
}

// Whether a read of the first ref is served so many times.
fn is_read(state: &mut SharedState, times: u32) -> bool {
    for _ in 0..times {
        let peek = Ask::Peek { cell: REF };
        if !state.lawful(0, &peek) || !matches!(state.serve(0, peek), Reply::Is(_)) {
            return false;
        }
    }
    true
}

// Whether a row holds: what an actor asks and is answered, or the events of a book, or one of the above.
fn holds(state: &mut SharedState, alloc: Global, row: &str) -> bool {
    let mut words = row.split_whitespace();
    match next_word(&mut words) {
        "book" => {
            let number = usize::from(short_of(next_word(&mut words)));
            words.next();
            are_events(state.numbered_events(number), &mut words)
        }
        "reads" => is_read(state, number_of(next_word(&mut words))),
        "itself" => is_itself(state),
        actor => {
            let agent = if actor == "5" { OTHER_AGENT } else { AGENT };
            let ask = ask_of(alloc, agent, &mut words);
            is_answered(state, short_of(actor), ask, &mut words)
        }
    }
}

// Whether all of these rows hold.
fn all_hold(state: &mut SharedState, alloc: Global, rows: &str) -> bool {
    for row in rows.lines() {
        if !holds(state, alloc, row) {
            return false;
        }
    }
    true
}

// Whether these rows hold of the state of this code's cells, with so many threads.
fn hold(alloc: Global, code: &[u8], threads: u16, rows: &str) -> bool {
    let state = match decode(alloc, code) {
        Ok(code) => SharedState::open(alloc, code.cells(), threads).ok(),
        Err(_) => None,
    };
    match state {
        Some(mut state) => all_hold(&mut state, alloc, rows),
        None => false,
    }
}

#[test]
fn answers_asks(rt: HostRuntime) {
    for rows in OF_STORE.split('#') {
        assert!(rt; hold(rt.alloc(), STORE, 4, rows), "{rows}");
    }
    assert!(rt; hold(rt.alloc(), ATOMS, 2, OF_ATOMS));
}
