// The store, and an atom with its journal.
use crate::fronts::copies::commit;
use crate::fronts::replies::is_reply;
use std::alloc::Global;
use txs_code_decode::decode;
use txs_value_data::{CellId, CellKind, Value, same};
use txs_world::{Ask, AtomBook, Event, Store};
use txs_world_protocol::EventKind;

// The code of `(def a (ref 1)) (def b (ref 2)) (def g (agent 10))`.
const STORE: &[u8] =
    b"TXS1\0\x03\0\0\x01a\x03\0\0\0\0\0\0\0\x01\0\0\x01b\x03\0\0\0\0\0\0\0\x02\x02\0\x01g\x03\0\0\0\0\0\0\0\x0a\0\0\0\0\0\0\0\0";

// The same with `(ref 3)`.
const OTHER: &[u8] =
    b"TXS1\0\x03\0\0\x01a\x03\0\0\0\0\0\0\0\x01\0\0\x01b\x03\0\0\0\0\0\0\0\x03\x02\0\x01g\x03\0\0\0\0\0\0\0\x0a\0\0\0\0\0\0\0\0";

const REF: CellId = CellId {
    kind: CellKind::Ref,
    number: 0,
};

// The store of the first of these, for four threads.
fn opened(alloc: Global) -> Option<Store> {
    match decode(alloc, STORE) {
        Ok(code) => Store::open(alloc, code.cells(), 4).ok(),
        Err(_) => None,
    }
}

// Whether a store is made for the cells of this code, and not for none.
fn is_made_for(alloc: Global, store: &Store, bytes: &[u8]) -> bool {
    match decode(alloc, bytes) {
        Ok(code) => store.made_for(code.cells()) && !store.made_for(&[]),
        Err(_) => false,
    }
}

#[test]
fn knows_its_definitions(rt: HostRuntime) {
    let alloc = rt.alloc();
    let is = match opened(alloc) {
        Some(store) => is_made_for(alloc, &store, STORE) && !is_made_for(alloc, &store, OTHER),
        None => false,
    };
    assert!(rt; is);
}

// Whether each cell of a store holds what it opened with.
fn is_unwritten(store: &Store) -> bool {
    for (i, cell) in store.cells().iter().enumerate() {
        if let Ok(number) = u16::try_from(i) {
            let id = CellId {
                kind: cell.kind,
                number,
            };
            if !same(store.newest(id), &cell.opening) {
                return false;
            }
        }
    }
    true
}

// How many agents of a store haven't failed, and have nothing to run.
fn idle_agents(store: &Store) -> u32 {
    let mut idle = 0u32;
    for (i, cell) in store.cells().iter().enumerate() {
        if let (CellKind::Agent, Ok(number)) = (cell.kind, u16::try_from(i)) {
            let agent = CellId {
                kind: CellKind::Agent,
                number,
            };
            if store.failure(agent).is_none() && store.waiting(agent) == 0 {
                idle = idle.saturating_add(1);
            }
        }
    }
    idle
}

#[test]
fn a_new_store_is_unwritten(rt: HostRuntime) {
    let is = match opened(rt.alloc()) {
        Some(store) => is_unwritten(&store) && idle_agents(&store) == 1,
        None => false,
    };
    assert!(rt; is);
}

// Whether an actor's ask is lawful, and answered so.
fn answers(
    store: &mut Store,
    actor: u16,
    ask: Ask,
    name: &str,
    number: u32,
    value: Option<i64>,
) -> bool {
    if !store.lawful(actor, &ask) {
        drop(ask);
        return false;
    }
    is_reply(store.serve(actor, ask), name, number, value)
}

// Whether an event is this actor's, and its kind has this name.
fn is_event(event: Option<&Event>, actor: u16, name: &str) -> bool {
    let Some(event) = event else {
        return false;
    };
    let is = match &event.kind {
        EventKind::Swap { .. } => name == "swap",
        EventKind::Read { .. } => name == "read",
        EventKind::Broke { .. } => name == "broke",
        EventKind::Commit { .. } => name == "commit",
        _ => false,
    };
    is && event.actor == actor
}

// Whether these are the events of a commit of actor 0 and of a read of actor 1.
fn are_events(events: &[Event]) -> bool {
    events.len() == 2 && is_event(events.first(), 0, "commit") && is_event(events.get(1), 1, "read")
}

// Whether a transaction that sets a ref is served, and a read behind it.
fn is_served(store: &mut Store, alloc: Global) -> bool {
    answers(store, 0, Ask::Begin, "at", 0, None)
        && answers(store, 0, commit(alloc, 0, 0, REF, 5), "done", 0, None)
        && answers(store, 1, Ask::Peek { cell: REF }, "is", 0, Some(5))
        && !store.lawful(5, &Ask::Begin)
}

#[test]
fn serves(rt: HostRuntime) {
    let is = match opened(rt.alloc()) {
        Some(mut store) => is_served(&mut store, rt.alloc()) && are_events(store.events()),
        None => false,
    };
    assert!(rt; is);
}

// Whether swaps and a read are answered so, of which the second comes too late; and then a reset and a fault, and a second fault at that
// index isn't lawful.
fn is_swapped(atom: &mut AtomBook) -> bool {
    is_reply(atom.open_at(), "opened", 0, Some(5))
        && is_reply(atom.close_at(0, Some(0), Value::Int(6)), "done", 0, None)
        && is_reply(atom.close_at(1, Some(0), Value::Int(7)), "changed", 0, None)
        && is_reply(atom.open_at(), "opened", 1, Some(6))
        && is_reply(atom.close_at(1, Some(1), Value::Int(7)), "done", 0, None)
        && is_reply(atom.peek(2), "is", 0, Some(7))
        && is_reply(atom.close_at(0, None, Value::Int(8)), "done", 0, None)
        && atom.lawful(0, 4)
        && is_reply(atom.fail_at(0, 4), "done", 0, None)
        && !atom.lawful(0, 4)
        && is_reply(atom.peek(1), "is", 0, Some(8))
}

// The actors and kinds of the events that those calls leave.
const EVENTS: [(u16, &str); 6] = [
    (0, "swap"),
    (1, "swap"),
    (2, "read"),
    (0, "swap"),
    (0, "broke"),
    (1, "read"),
];

// What those calls came to.
fn is_left_so(atom: &AtomBook) -> bool {
    for (i, (actor, name)) in EVENTS.iter().enumerate() {
        if !is_event(atom.events().get(i), *actor, name) {
            return false;
        }
    }
    atom.events().len() == 6
        && matches!(atom.newest(), Value::Int(n) if *n == 8)
        && matches!(atom.opening(), Value::Int(n) if *n == 5)
}

// `(def a (atom 5))`
#[test]
fn an_atom_answers(rt: HostRuntime) {
    let cell = CellId {
        kind: CellKind::Atom,
        number: 0,
    };
    let is = {
        let mut atom = AtomBook::new(rt.alloc(), cell, Value::Int(5));
        is_swapped(&mut atom) && is_left_so(&atom)
    };
    assert!(rt; is);
}
