//! Turns of an actor over what actors share, with its asks served.

ghost use Rattle.std.specs.Prelude.{◌≡◌, ◌≤◌, ◌<◌, length, nat_lt, true, vec_capacity, vec_len, IfSome, Some, None};
ghost use Rattle.txs_machine_actor.specs.PlainActor.{Lives, unanswered};
ghost use Rattle.txs_theorem_runs.specs.Shared.{book_for};
ghost use Rattle.txs_world_shared.specs.SharedState.{numbered_book, is_lawful};
ghost use Rattle.txs_value_data.specs.Limits.{most_events};
ghost use Rattle.txs_machine.specs.Serving.{with_place, IsNext, IsServed};
ghost use Rattle.txs_machine_actor.specs.declared.outcome.Turn.TheVariants.{Asks};
ghost use Rattle.txs_machine.specs.Briefs.{ask_of};
ghost use Rattle.txs_world_protocol.specs.declared.ask.Ask.TheVariants as ask;
ghost use Rattle.txs_machine.specs.Turning.{MayAsk, MayGoOn, HasGoneOn};
ghost use Rattle.txs_machine.specs.Running.{IsAnswered};

use crate::player::Player;
use std::mem;
use txs_code_meaning::Verified;
use txs_machine_actor::Turn;
use txs_machine_turn::run;
use txs_value_data::{CellId, Value};
use txs_world_protocol::{Ask, Outcome, Place, Reply};
use txs_world_shared::SharedState;

/// What a transaction asks before its end, in few words: an ask is large to move.
#[derive(Clone, Copy)]
pub(crate) enum Brief {
    /// Its read point.
    Begin,
    /// The value of a ref at the read point.
    Look(CellId, u32),
}

/// The ask in few words that a turn came to, if it is such a one.
#[inline(always)]
fn brief_ask(turn: &Turn) -> Option<Brief>
    ensures { IfSome result (λ s. turn.now ≡ Asks (ask_of s)) }
{
    match turn {
        Turn::Asks(Ask::Begin) => Some(Brief::Begin),
        Turn::Asks(Ask::Look { cell, at }) => Some(Brief::Look(*cell, *at)),
        _ => None,
    }
}

/// The index at which the book for an ask continues.
fn next_place(shared: &SharedState, ask: &Ask) -> Place
    requires few { length (numbered_book shared.now (book_for shared.now.cells ask.now)) ≤ most_events }
    ensures { IsNext shared.now ask.now result }
{
    let book = shared.book_for(ask);
    Place {
        book: book as u32,
        at: shared.numbered_events(book).len() as u32,
    }
}

/// Notes a place behind the others, if its book continues there.
fn note(trace: &mut Vec<Place>, shared: &SharedState, place: Place)
    requires { vec_len trace.old < vec_capacity trace.old }
    ensures { trace.new.items ≡ with_place (nat_lt place.at (length (numbered_book shared.now place.book))) trace.old.items place }
{
    if (place.at as usize) < shared.numbered_events(place.book as usize).len() {
        trace.push_reserved(place);
    }
}

/// Answers an actor's lawful ask, and notes the place of the event that it adds. There is room for the place before anything is served;
/// without memory for it nothing is, and the reply says so.
#[inline(always)]
fn serve_noted(trace: &mut Vec<Place>, shared: &mut SharedState, actor: u16, ask: Ask) -> Reply
    requires { is_lawful shared.old actor ask ≡ true }
    ensures { IsServed shared.old actor ask result shared.new trace.old.items trace.new.items }
{
    if !ask.may_add_event() {
        return shared.serve(actor, ask);
    }
    // A step of the proof, which does nothing when it runs.
    let _stands = shared.events();
    let next = next_place(shared, &ask);
    if trace.reserve(1).is_err() {
        drop(ask);
        return Reply::Memory;
    }
    let reply = shared.serve(actor, ask);
    note(trace, shared, next);
    reply
}

/// An actor's ask is served, and the actor continues with the answer.
#[inline(always)]
fn take_ask(player: &mut Player, code: &Verified, shared: &mut SharedState, ask: Ask)
    requires lives { Lives code.now player.old.actor }
    requires asks { unanswered player.old.actor ≡ Some ask }
    requires may { MayAsk code.now shared.old player.old.actor ask }
    ensures answered { IsAnswered player.old.actor.number shared.old player.old.actor player.old.trace.items ask shared.new player.new.actor player.new.trace.items }
    ensures lives { Lives code.now player.new.actor }
{
    let number = player.actor.number();
    let reply = serve_noted(&mut player.trace, shared, number, ask);
    player.actor.answer(code, reply);
}

/// The same, whatever is asked.
#[cold]
#[inline(never)]
fn take_any_ask(player: &mut Player, code: &Verified, shared: &mut SharedState, ask: Ask)
    requires lives { Lives code.now player.old.actor }
    requires asks { unanswered player.old.actor ≡ Some ask }
    requires may { MayAsk code.now shared.old player.old.actor ask }
    ensures answered { IsAnswered player.old.actor.number shared.old player.old.actor player.old.trace.items ask shared.new player.new.actor player.new.trace.items }
    ensures lives { Lives code.now player.new.actor }
{
    take_ask(player, code, shared, ask);
}

/// The same of the open of a swap.
#[inline(never)]
fn take_open(player: &mut Player, code: &Verified, shared: &mut SharedState, cell: CellId)
    requires lives { Lives code.now player.old.actor }
    requires asks { unanswered player.old.actor ≡ Some (ask.OpenAt cell) }
    requires may { MayAsk code.now shared.old player.old.actor (ask.OpenAt cell) }
    ensures answered { IsAnswered player.old.actor.number shared.old player.old.actor player.old.trace.items (ask.OpenAt cell) shared.new player.new.actor player.new.trace.items }
    ensures lives { Lives code.now player.new.actor }
{
    take_ask(player, code, shared, Ask::OpenAt { cell });
}

/// The same of a swap's end, and of a reset.
#[inline(never)]
fn take_close(
    player: &mut Player,
    code: &Verified,
    shared: &mut SharedState,
    cell: CellId,
    at: Option<u32>,
    new: Value,
)
    requires lives { Lives code.now player.old.actor }
    requires asks { unanswered player.old.actor ≡ Some (ask.CloseAt cell at new) }
    requires may { MayAsk code.now shared.old player.old.actor (ask.CloseAt cell at new) }
    ensures answered { IsAnswered player.old.actor.number shared.old player.old.actor player.old.trace.items (ask.CloseAt cell at new) shared.new player.new.actor player.new.trace.items }
    ensures lives { Lives code.now player.new.actor }
{
    take_ask(player, code, shared, Ask::CloseAt { cell, at, new });
}

/// The same of an ask in few words, each in an arm of its own, so that only what serves it is left where the call is inlined.
#[inline(always)]
fn take_brief(player: &mut Player, code: &Verified, shared: &mut SharedState, brief: Brief)
    requires lives { Lives code.now player.old.actor }
    requires asks { unanswered player.old.actor ≡ Some (ask_of brief) }
    requires may { MayAsk code.now shared.old player.old.actor (ask_of brief) }
    ensures answered { IsAnswered player.old.actor.number shared.old player.old.actor player.old.trace.items (ask_of brief) shared.new player.new.actor player.new.trace.items }
    ensures lives { Lives code.now player.new.actor }
{
    match brief {
        Brief::Begin => take_ask(player, code, shared, Ask::Begin),
        Brief::Look(cell, at) => take_ask(player, code, shared, Ask::Look { cell, at }),
    }
}

/// The same of a whole ask, where a commit and those of swaps have arms of their own.
#[inline(always)]
fn meet(player: &mut Player, code: &Verified, shared: &mut SharedState, ask: Ask)
    requires lives { Lives code.now player.old.actor }
    requires asks { unanswered player.old.actor ≡ Some ask }
    requires may { MayAsk code.now shared.old player.old.actor ask }
    ensures answered { IsAnswered player.old.actor.number shared.old player.old.actor player.old.trace.items ask shared.new player.new.actor player.new.trace.items }
    ensures lives { Lives code.now player.new.actor }
{
    match ask {
        Ask::Commit {
            at,
            sets,
            ensured,
            view,
            commuted,
            sends,
        } => {
            let commit = Ask::Commit {
                at,
                sets,
                ensured,
                view,
                commuted,
                sends,
            };
            take_ask(player, code, shared, commit);
        }
        Ask::OpenAt { cell } => take_open(player, code, shared, cell),
        Ask::CloseAt { cell, at, new } => take_close(player, code, shared, cell, at, new),
        other => take_any_ask(player, code, shared, other),
    }
}

/// So many turns of an actor, or those up to its end, which is the answer, or up to an ask, which is
/// served. All that it may come to ask it may ask.
#[inline(always)]
pub(crate) fn go_on(
    player: &mut Player,
    code: &Verified,
    shared: &mut SharedState,
    budget: u64,
) -> Option<Outcome>
    requires lives { Lives code.now player.old.actor }
    requires answered { unanswered player.old.actor ≡ None }
    requires may { MayGoOn code.now shared.old budget player.old.actor }
    ensures { HasGoneOn code.now budget shared.old player.old.actor player.old.trace.items result shared.new player.new.actor player.new.trace.items }
{
    let mut turn = Turn::Went;
    run(&mut player.actor, code, budget, &mut turn);
    if let Some(brief) = brief_ask(&turn) {
        // It keeps nothing that would have to be dropped.
        mem::forget(turn);
        take_brief(player, code, shared, brief);
        return None;
    }
    match turn {
        Turn::Ended(outcome) => Some(outcome),
        Turn::Went => None,
        Turn::Asks(ask) => {
            meet(player, code, shared, ask);
            None
        }
    }
}
