// Actors, turn by turn.
ghost use Rattle.std.specs.Prelude.{◌≡◌, Some};
ghost use Rattle.txs_machine.specs.PlainActor.{Lives, unanswered};

use crate::fronts::runs::code_of;
use std::alloc::Global;
use txs_code_meaning::Verified;
use txs_machine::{Actor, Turn, may_answer};
use txs_machine_turn::turn;
use txs_value_cell::CellDefinition;
use txs_value_data::{CellId, CellKind};
use txs_world_protocol::{Ask, Reply};

// Answers an actor's ask with the index 0: whether that is a reply to it.
fn begin(actor: &mut Actor, code: &Verified, ask: Ask) -> bool
    requires lives { Lives code.now actor.old }
    requires asks { unanswered actor.old ≡ Some ask }
{
    let reply = Reply::At(0);
    if !may_answer(&ask, &reply) {
        drop(ask);
        drop(reply);
        return false;
    }
    drop(ask);
    actor.answer(code, reply);
    true
}

// Whether the first turn of the code's first thread begins a transaction, and is its only step so far.
fn has_begun(alloc: Global, code: &Verified) -> bool {
    if code.code().threads().is_empty() {
        return false;
    }
    let Ok(mut actor) = Actor::thread(alloc, code, 0, 9) else {
        return false;
    };
    let begun = match turn(&mut actor, code) {
        Turn::Asks(ask) => begin(&mut actor, code, ask),
        Turn::Went | Turn::Ended(_) => false,
    };
    let is = actor.number() == 0
        && actor.steps() == 1
        && actor.printed().is_empty()
        && actor.outcome().is_none();
    drop(actor);
    begun && is
}

#[test]
fn a_thread_begins(rt: HostRuntime) {
    let alloc = rt.alloc();
    let is = match code_of(alloc, "(def r (ref 0)) (future (dosync (ref-set r 1)))") {
        Ok(code) => has_begun(alloc, &code),
        Err(_) => false,
    };
    assert!(rt; is);
}

// Whether the first turn of the agent that is the code's first cell, and its first actor, asks for an action.
fn takes(alloc: Global, code: &Verified) -> bool {
    let (
        [],
        [
            CellDefinition {
                kind: CellKind::Agent,
                ..
            },
            ..
        ],
    ) = (code.code().threads(), code.code().cells())
    else {
        return false;
    };
    let agent = CellId {
        kind: CellKind::Agent,
        number: 0,
    };
    let Ok(mut actor) = Actor::agent(alloc, code, agent, 0, 9) else {
        return false;
    };
    let is = match turn(&mut actor, code) {
        Turn::Asks(Ask::Take { agent: asked }) => asked == agent,
        _ => false,
    };
    drop(actor);
    is
}

#[test]
fn an_agent_takes(rt: HostRuntime) {
    let is = match code_of(rt.alloc(), "(def g (agent 10))") {
        Ok(code) => takes(rt.alloc(), &code),
        Err(_) => false,
    };
    assert!(rt; is);
}
