//! An actor with what it has seen of the history.

ghost use Rattle.std.specs.Prelude.{◌≡◌, ◌<◌, ◌≤◌, length, true, false, None, Some, IfSome, IsTrue, IsFalse, vec_capacity, vec_len};
ghost use mathlib.Core.List.{IsPrefix};
ghost use Rattle.txs_world_protocol.specs.Ask.{may_add_event};
ghost use Rattle.txs_gate.specs.declared.gate.Made.{Made as PlainMade};
ghost use Rattle.txs_machine_actor.specs.PlainActor.{Lives, MayAnswerIf, unanswered};
ghost use Rattle.txs_machine_actor.specs.declared.outcome.Turn.TheVariants as turned;
ghost use Rattle.txs_machine_actor.specs.Turns.{IsNew};
ghost use Rattle.txs_history_run.specs.Actor.{AskServed, HasAsked, HasGone, HasTaken, IsFollowing, IsReady, made_with, noted};
ghost use Rattle.txs_history_run.specs.Callees.{AreCallees, HandsOutSent};
ghost use Rattle.txs_history_run.specs.declared.actor.AfterAsk.TheVariants as came;
ghost use Rattle.txs_history_run.specs.declared.actor.AfterReply.{AfterReply as PlainNext};
ghost use Rattle.txs_history_run.specs.declared.actor.AfterReply.TheVariants as after;
ghost use Rattle.txs_history_run.specs.declared.actor.Next.TheVariants as next;
ghost use Rattle.txs_history_run.specs.declared.step.Step.TheVariants as step;
ghost use Rattle.txs_history.specs.History.{HasOthers};
ghost use Rattle.txs_history.specs.Logged.{is_memory, MayNot};
ghost use Rattle.txs_world_protocol.specs.SeenEvent.{home};
ghost use Rattle.txs_world_protocol.specs.declared.ask.Ask.{Ask};
ghost use Rattle.txs_world_protocol.specs.declared.event.Outcome.{Outcome};

use crate::callees::hands_out;
use std::alloc::Global;
use std::marker::Model;
use std::mem;
use txs_code_meaning::Verified;
use txs_gate::Made;
use txs_history::{Asked, LoggedAtom, LoggedStore, Past, Run, Served, StandsFor};
use txs_machine::Player;
use txs_machine_actor::actor::went;
use txs_machine_actor::{Actor, Turn, actors_run};
use txs_machine_turn::run;
use txs_theorem_runs::law::typed_stands;
use txs_value_data::{CellId, CellKind};
use txs_world_protocol::{Ask, Outcome, Place, Reply};

/// What an actor's turns came to.
#[derive(Clone, Copy)]
pub enum Next {
    /// It goes on.
    Went,
    /// It waits with an ask.
    Asks,
    /// It has ended.
    Ended,
    /// It made no turn, since it waits with an ask, or met what no run gives.
    Waits,
}

/// What an actor is to do next, by the answer that it took.
#[derive(Clone, Copy)]
pub enum AfterReply {
    /// It goes on.
    GoesOn,
    /// It goes on within its transaction, whose commutes are made again.
    Redoes,
    /// Its transaction runs again.
    Again,
    /// Nothing waits for its agent.
    Idle,
    /// It was handed an action that no code sends: it does no more.
    Broken,
}

/// What became of an actor's ask.
#[derive(Clone, Copy)]
pub enum AfterAsk {
    /// It wasn't served: the actor does no more.
    Unserved,
    /// It was served and made this. The actor took the answer, and is to do this next.
    Took(Made, AfterReply),
}

/// For what an actor stands: for the ask that it waits with.
pub struct Waiting;

impl StandsFor<Actor, Asked> for Waiting {
    ghost use Rattle.txs_history_run.specs.Actor.{asked_of};

    ghost event = { λ a. asked_of a };
}

/// An actor, of a thread or of an agent, with a reference to its code, the places of its events, how many asks it made, and what it has seen of the history.
/// An ask stays where the turn that came to it has put it, since it is large to move.
pub struct LoggedActor<'a, J: Run> {
    code: &'a Verified,
    /// Of each function, whether it is the callee of a send to which a path of the code comes.
    callees: &'a [bool],
    player: Player,
    asks: u64,
    past: Past<Asked, J>,
    turn: Turn,
    /// Whether it met what no run gives. Then it does no more.
    broken: bool,
}

// Dropped by a call that is proved here, so that no crate above proves it again.
impl<'a, J: Run> Drop for LoggedActor<'a, J> {
    fn drop(self) {
        let LoggedActor {
            code: _,
            callees: _,
            player,
            asks: _,
            past,
            turn,
            broken: _,
        } = self;
        drop(player);
        drop(past);
        drop(turn);
    }
}

impl<'a, J: Run> Model for LoggedActor<'a, J> {
    ghost use Rattle.std.specs.Prelude.{◌≡◌};
    ghost use Rattle.txs_history_run.specs.Actor.{PlainLogged, IsLogged, IsTaken, step_of};
    ghost use Rattle.txs_history_run.specs.Callees.{AreCallees};
    ghost use Rattle.std.specs.Coded.{codes};
    ghost use Rattle.txs_value_data.specs.contracts.value.Value as value;

    ghost Value = { PlainLogged };

    ghost coded = { Prim.hlevel (codes, value.the_row.coded) };

    ghost view = { λ p. record { player = p.player; asks = p.asks; past = p.past; step = step_of p.broken p.turn } };

    ghost invariant = { λ p. (p.code.now ≡ J.code) × AreCallees p.code.now p.callees.now × IsLogged J.code J.limit (record { player = p.player; asks = p.asks; past = p.past; step = step_of p.broken p.turn }) × IsTaken p.broken p.turn };
}

/// What an actor is to do next, by the reply that it takes.
#[inline(always)]
fn after_reply(reply: &Reply) -> AfterReply
    ensures { result ≡ after.Broken → ⊥ }
{
    match reply {
        Reply::Retry(_) => AfterReply::Again,
        Reply::Changed(cell) => redone(*cell),
        Reply::Idle => AfterReply::Idle,
        _ => AfterReply::GoesOn,
    }
}

/// What an actor does whose commit or swap found this cell changed.
#[inline(always)]
fn redone(cell: CellId) -> AfterReply
    ensures { result ≡ after.Broken → ⊥ }
{
    match cell.kind {
        CellKind::Ref => AfterReply::Redoes,
        _ => AfterReply::GoesOn,
    }
}

impl<'a, J: Run> LoggedActor<'a, J> {
    /// An actor before its first turn, which has seen a beginning of the history. The callees are the functions that the code sends, as `sent_functions` lists them.
    pub fn new(
        alloc: Global,
        code: &'a Verified,
        callees: &'a [bool],
        actor: Actor,
        past: Past<Asked, J>,
    ) -> LoggedActor<'a, J>
        requires code { code.now ≡ J.code }
        requires callees { AreCallees code.now callees.now }
        requires lives { Lives code.now actor }
        requires new { IsNew code.now actor.number J.limit actor }
        ensures actor { result.player.actor ≡ actor }
        ensures asks { result.asks ≡ 0 }
        ensures step { result.step ≡ step.Runs }
    {
        // Laws that the proof uses; they do nothing when they run.
        actors_run();
        typed_stands();
        let (_functions, _threads) = code.rooms();
        LoggedActor {
            code,
            callees,
            player: Player {
                actor,
                trace: Vec::new(alloc),
            },
            asks: 0,
            past,
            turn: Turn::Went,
            broken: false,
        }
    }
}

/// Makes room for the place of an event that an ask may add: whether there is.
fn has_room(trace: &mut Vec<Place>, ask: &Ask) -> bool
    ensures same { trace.new.items ≡ trace.old.items }
    ensures adds { result ≡ false → may_add_event ask.now ≡ true }
    ensures room { IsTrue result → may_add_event ask.now ≡ true → vec_len trace.new < vec_capacity trace.new }
{
    if !ask.may_add_event() {
        return true;
    }
    trace.reserve(1).is_ok()
}

impl<'a, J: Run> LoggedActor<'a, J> {
    /// Up to so many turns: an ask or an end is the last. Where it asks, and there is no memory for the place of the event that the ask may add, it has ended so.
    pub fn run(&mut self, budget: u64) -> Next
        ensures number { self.new.player.actor.number ≡ self.old.player.actor.number }
        ensures past { self.new.past ≡ self.old.past }
        ensures asks { self.new.asks ≡ self.old.asks }
        ensures went { result ≡ next.Went → self.new.step ≡ step.Runs }
        ensures waits { result ≡ next.Waits → self.old.step ≡ step.Runs → ⊥ }
        ensures asked { result ≡ next.Asks → (q : Ask) × (self.new.step ≡ step.Asks q) }
        ensures ended { result ≡ next.Ended → (self.new.step ≡ step.Runs) × ((o : Outcome) × (self.new.player.actor.outcome ≡ Some o)) }
    {
        // A law that the proof uses; it does nothing when it runs.
        actors_run();
        if self.broken || !went(&self.turn) {
            return Next::Waits;
        }
        run(&mut self.player.actor, self.code, budget, &mut self.turn);
        match &self.turn {
            Turn::Went => Next::Went,
            Turn::Ended(_) => {
                self.turn = Turn::Went;
                Next::Ended
            }
            Turn::Asks(ask) => {
                if has_room(&mut self.player.trace, ask) {
                    return Next::Asks;
                }
                self.turn = Turn::Went;
                self.player.actor.answer(self.code, Reply::Memory);
                Next::Ended
            }
        }
    }
}

/// How many asks were made, with one that was answered so: where there was no memory for it nothing was served.
#[inline(always)]
fn made_with(asks: u64, reply: &Reply) -> u64
    requires { asks < 18446744073709551615 }
    ensures { result ≡ made_with (is_memory reply.now) asks }
{
    match reply {
        Reply::Memory => asks,
        _ => asks + 1,
    }
}

/// An actor's ask is served by the store, behind all that its past has seen, if the actor may still make one.
#[inline(always)]
fn serve_by<J: Run>(
    store: &mut LoggedStore<J>,
    past: &mut Past<Asked, J>,
    asks: u64,
    actor: &Actor,
    ask: Ask,
) -> Option<Served>
    requires asks { unanswered actor.now ≡ Some ask }
    ensures served { IfSome result (λ v. AskServed J.code actor.now.number asks ask past.old past.new v) }
    ensures unserved { result ≡ None → store.new.broken ≡ false → asks < 18446744073709551615 → MayNot J.code.cells (length J.code.threads) 0 actor.now.number ask store.old.log.log }
    ensures breaks { store.new.broken ≡ true → store.old.broken ≡ false → HasOthers 0 store.old.log.log past.old past.new }
{
    if asks == u64::MAX {
        drop(ask);
        return None;
    }
    store.serve::<Actor, Waiting>(past, actor, actor.number(), ask)
}

/// Notes the place of an event, if one was added.
#[inline(always)]
fn note(trace: &mut Vec<Place>, lock: u64, at: u32, added: bool)
    requires room { added ≡ true → vec_len trace.old < vec_capacity trace.old }
    requires few { lock ≤ 65536 }
    ensures { trace.new.items ≡ noted added lock at trace.old.items }
{
    if added {
        trace.push_reserved(Place {
            book: lock as u32,
            at,
        });
    }
}

/// An actor takes the answer to its ask, which was served so under this lock, and notes the place of the event that was added. It takes no action that no
/// code sends.
#[inline(always)]
fn take(
    code: &Verified,
    callees: &[bool],
    player: &mut Player,
    asks: &mut u64,
    lock: u64,
    served: Served,
) -> AfterReply
    requires callees { AreCallees code.now callees.now }
    requires lives { Lives code.now player.old.actor }
    requires answers { MayAnswerIf (unanswered player.old.actor) served.reply }
    requires fewer { asks.old < 18446744073709551615 }
    requires room { served.added ≡ true → vec_len player.old.trace < vec_capacity player.old.trace }
    requires few { lock ≤ 65536 }
    ensures took { (result ≡ after.Broken → ⊥) → HasTaken code.now lock served player.old player.new asks.old asks.new }
    ensures broken { result ≡ after.Broken → (HandsOutSent code.now served.reply → ⊥) × (player.new ≡ player.old) }
{
    let Served { reply, at, added } = served;
    if !hands_out(code, callees, &reply) {
        drop(reply);
        return AfterReply::Broken;
    }
    *asks = made_with(*asks, &reply);
    note(&mut player.trace, lock, at, added);
    let next = after_reply(&reply);
    player.actor.answer(code, reply);
    next
}

/// The store serves an actor's ask, behind all that its past has seen, and the actor takes the answer.
#[inline(always)]
fn ask_for<J: Run>(
    store: &mut LoggedStore<J>,
    code: &Verified,
    callees: &[bool],
    past: &mut Past<Asked, J>,
    player: &mut Player,
    asks: &mut u64,
    ask: Ask,
) -> AfterAsk
    requires code { code.now ≡ J.code }
    requires callees { AreCallees J.code callees.now }
    requires ready { IsReady J.code player.old ask asks.old past.old }
    ensures number { player.new.actor.number ≡ player.old.actor.number }
    ensures limit { player.new.actor.limit ≡ player.old.actor.limit }
    ensures asked { (m : PlainMade) (n : PlainNext) → result ≡ came.Took m n → HasAsked J.code 0 ask player.old player.new asks.old asks.new past.old past.new m n }
    ensures unserved { result ≡ came.Unserved → store.new.broken ≡ false → asks.old < 18446744073709551615 → MayNot J.code.cells (length J.code.threads) 0 player.old.actor.number ask store.old.log.log }
    ensures breaks { store.new.broken ≡ true → store.old.broken ≡ false → HasOthers 0 store.old.log.log past.old past.new }
{
    let Some(served) = serve_by(store, past, *asks, &player.actor, ask) else {
        return AfterAsk::Unserved;
    };
    let made = Made {
        lock: 0,
        at: served.at,
        added: served.added,
    };
    AfterAsk::Took(made, take(code, callees, player, asks, 0, served))
}

/// The same of the ask that the actor's last turn came to.
#[inline(never)]
fn ask_whole<J: Run>(
    store: &mut LoggedStore<J>,
    code: &Verified,
    callees: &[bool],
    past: &mut Past<Asked, J>,
    player: &mut Player,
    asks: &mut u64,
    turn: &mut Turn,
) -> AfterAsk
    requires code { code.now ≡ J.code }
    requires callees { AreCallees J.code callees.now }
    requires ready { (q : Ask) → turn.old ≡ turned.Asks q → IsReady J.code player.old q asks.old past.old }
    ensures taken { turn.new ≡ turned.Went }
    ensures number { player.new.actor.number ≡ player.old.actor.number }
    ensures limit { player.new.actor.limit ≡ player.old.actor.limit }
    ensures asked { (m : PlainMade) (n : PlainNext) → result ≡ came.Took m n → (q : Ask) × (turn.old ≡ turned.Asks q) × HasAsked J.code 0 q player.old player.new asks.old asks.new past.old past.new m n }
    ensures unserved { result ≡ came.Unserved → store.new.broken ≡ false → (q : Ask) → turn.old ≡ turned.Asks q → asks.old < 18446744073709551615 → MayNot J.code.cells (length J.code.threads) 0 player.old.actor.number q store.old.log.log }
    ensures breaks { store.new.broken ≡ true → store.old.broken ≡ false → HasOthers 0 store.old.log.log past.old past.new }
{
    match mem::replace(turn, Turn::Went) {
        Turn::Asks(ask) => ask_for(store, code, callees, past, player, asks, ask),
        Turn::Went | Turn::Ended(_) => AfterAsk::Unserved,
    }
}

/// The same. A look and the begin of a transaction have arms of their own, so that only what serves it is left where the call is inlined. These
/// asks keep nothing that would have to be dropped.
#[inline(always)]
fn ask_turn<J: Run>(
    store: &mut LoggedStore<J>,
    code: &Verified,
    callees: &[bool],
    past: &mut Past<Asked, J>,
    player: &mut Player,
    asks: &mut u64,
    turn: &mut Turn,
) -> AfterAsk
    requires code { code.now ≡ J.code }
    requires callees { AreCallees J.code callees.now }
    requires ready { (q : Ask) → turn.old ≡ turned.Asks q → IsReady J.code player.old q asks.old past.old }
    ensures taken { turn.new ≡ turned.Went }
    ensures number { player.new.actor.number ≡ player.old.actor.number }
    ensures limit { player.new.actor.limit ≡ player.old.actor.limit }
    ensures asked { (m : PlainMade) (n : PlainNext) → result ≡ came.Took m n → (q : Ask) × (turn.old ≡ turned.Asks q) × HasAsked J.code 0 q player.old player.new asks.old asks.new past.old past.new m n }
    ensures unserved { result ≡ came.Unserved → store.new.broken ≡ false → (q : Ask) → turn.old ≡ turned.Asks q → asks.old < 18446744073709551615 → MayNot J.code.cells (length J.code.threads) 0 player.old.actor.number q store.old.log.log }
    ensures breaks { store.new.broken ≡ true → store.old.broken ≡ false → HasOthers 0 store.old.log.log past.old past.new }
{
    match &*turn {
        Turn::Asks(Ask::Begin) => {
            mem::forget(mem::replace(turn, Turn::Went));
            ask_for(store, code, callees, past, player, asks, Ask::Begin)
        }
        Turn::Asks(Ask::Look { cell, at }) => {
            let (cell, at) = (*cell, *at);
            mem::forget(mem::replace(turn, Turn::Went));
            let ask = Ask::Look { cell, at };
            ask_for(store, code, callees, past, player, asks, ask)
        }
        _ => ask_whole(store, code, callees, past, player, asks, turn),
    }
}

/// Whether an actor of whose ask this became does no more.
#[inline(always)]
fn is_broken(asked: &AfterAsk) -> bool
    ensures goes { result ≡ false → (m : PlainMade) × (n : PlainNext) × (asked.now ≡ came.Took m n) × (n ≡ after.Broken → ⊥) }
    ensures stops { result ≡ true → (m : PlainMade) (n : PlainNext) → asked.now ≡ came.Took m n → n ≡ after.Broken }
{
    matches!(
        asked,
        AfterAsk::Unserved | AfterAsk::Took(_, AfterReply::Broken)
    )
}

impl<'a, J: Run> LoggedActor<'a, J> {
    /// Its ask is served by the store, behind all that it has seen, and it takes the answer. One whose ask isn't served does no more: it has made
    /// 2^64 - 1 asks, may not ask this, or the store is broken.
    #[inline(always)]
    pub fn ask_store(&mut self, store: &mut LoggedStore<J>) -> AfterAsk
        ensures number { self.new.player.actor.number ≡ self.old.player.actor.number }
        ensures asked { (m : PlainMade) (n : PlainNext) → result ≡ came.Took m n → HasGone J.code 0 self.old self.new m n }
        ensures unserved { result ≡ came.Unserved → store.new.broken ≡ false → (q : Ask) → self.old.step ≡ step.Asks q → self.old.asks < 18446744073709551615 → MayNot J.code.cells (length J.code.threads) 0 self.old.player.actor.number q store.old.log.log }
        ensures breaks { store.new.broken ≡ true → store.old.broken ≡ false → HasOthers 0 store.old.log.log self.old.past self.new.past }
    {
        // A law that the proof uses; it does nothing when it runs.
        actors_run();
        let asked = ask_turn(
            store,
            self.code,
            self.callees,
            &mut self.past,
            &mut self.player,
            &mut self.asks,
            &mut self.turn,
        );
        self.broken = is_broken(&asked);
        asked
    }
}

/// An atom serves an actor's ask, behind all that its past has seen, if the actor may still make one; and the actor takes the answer.
fn ask_atom<J: Run>(
    atom: &mut LoggedAtom<J>,
    code: &Verified,
    callees: &[bool],
    past: &mut Past<Asked, J>,
    player: &mut Player,
    asks: &mut u64,
    ask: Ask,
) -> AfterAsk
    requires code { code.now ≡ J.code }
    requires callees { AreCallees J.code callees.now }
    requires ready { IsReady J.code player.old ask asks.old past.old }
    ensures number { player.new.actor.number ≡ player.old.actor.number }
    ensures limit { player.new.actor.limit ≡ player.old.actor.limit }
    ensures asked { (m : PlainMade) (n : PlainNext) → result ≡ came.Took m n → HasAsked J.code (home J.code.cells atom.old.atom.cell) ask player.old player.new asks.old asks.new past.old past.new m n }
    ensures unserved { result ≡ came.Unserved → atom.new.broken ≡ false → asks.old < 18446744073709551615 → MayNot J.code.cells (length J.code.threads) (home J.code.cells atom.old.atom.cell) player.old.actor.number ask atom.old.log.log }
    ensures breaks { atom.new.broken ≡ true → atom.old.broken ≡ false → HasOthers (home J.code.cells atom.old.atom.cell) atom.old.log.log past.old past.new }
{
    if *asks == u64::MAX {
        drop(ask);
        return AfterAsk::Unserved;
    }
    let number = player.actor.number();
    let lock = atom.lock();
    let Some(served) = atom.serve::<Actor, Waiting>(past, &player.actor, number, ask) else {
        return AfterAsk::Unserved;
    };
    let made = Made {
        lock,
        at: served.at,
        added: served.added,
    };
    AfterAsk::Took(made, take(code, callees, player, asks, lock, served))
}

impl<'a, J: Run> LoggedActor<'a, J> {
    /// Its ask is served by an atom, behind all that it has seen, and it takes the answer. One whose ask isn't served does no more: it has made
    /// 2^64 - 1 asks, may not ask this, or the atom is broken.
    pub fn ask_atom(&mut self, atom: &mut LoggedAtom<J>) -> AfterAsk
        ensures number { self.new.player.actor.number ≡ self.old.player.actor.number }
        ensures asked { (m : PlainMade) (n : PlainNext) → result ≡ came.Took m n → HasGone J.code (home J.code.cells atom.old.atom.cell) self.old self.new m n }
        ensures unserved { result ≡ came.Unserved → atom.new.broken ≡ false → (q : Ask) → self.old.step ≡ step.Asks q → self.old.asks < 18446744073709551615 → MayNot J.code.cells (length J.code.threads) (home J.code.cells atom.old.atom.cell) self.old.player.actor.number q atom.old.log.log }
        ensures breaks { atom.new.broken ≡ true → atom.old.broken ≡ false → HasOthers (home J.code.cells atom.old.atom.cell) atom.old.log.log self.old.past self.new.past }
    {
        // A law that the proof uses; it does nothing when it runs.
        actors_run();
        let Turn::Asks(ask) = mem::replace(&mut self.turn, Turn::Went) else {
            self.broken = true;
            return AfterAsk::Unserved;
        };
        let asked = ask_atom(
            atom,
            self.code,
            self.callees,
            &mut self.past,
            &mut self.player,
            &mut self.asks,
            ask,
        );
        self.broken = is_broken(&asked);
        asked
    }
}

impl<'a, J: Run> LoggedActor<'a, J> {
    /// The ask that it waits with, if it waits with one.
    pub fn asked(&self) -> Option<&Ask>
        ensures is { IfSome result (λ q. self.now.step ≡ step.Asks q.now) }
        ensures none { result ≡ None → (q : Ask) → self.now.step ≡ step.Asks q → ⊥ }
    {
        match &self.turn {
            Turn::Asks(ask) => Some(ask),
            _ => None,
        }
    }

    /// The number of its actor.
    pub fn number(&self) -> u16
        ensures { result ≡ self.now.player.actor.number }
    {
        self.player.actor.number()
    }

    /// How many asks it made that were served.
    pub fn asks(&self) -> u64
        ensures { result ≡ self.now.asks }
    {
        self.asks
    }

    /// How it ended, if it has.
    pub fn outcome(&self) -> Option<Outcome>
        ensures { result ≡ self.now.player.actor.outcome }
    {
        self.player.actor.outcome()
    }

    /// Whether it is to run, so that no ask of it waits. Then it follows what it has seen.
    pub fn runs(&self) -> bool
        ensures runs { IsTrue result → self.now.step ≡ step.Runs }
        ensures waits { IsFalse result → self.now.step ≡ step.Runs → ⊥ }
        ensures follows { IsTrue result → IsFollowing J.code self.now.player.actor self.now.player.trace.items self.now.asks self.now.past }
        ensures limit { self.now.player.actor.limit ≡ J.limit }
    {
        !self.broken && went(&self.turn)
    }

    /// A past then has seen what the actor has.
    pub fn show(&self, past: &mut Past<Asked, J>)
        ensures own { IsPrefix past.old past.new }
        ensures actor { IsPrefix self.now.past past.new }
    {
        past.learn_past(&self.past);
    }

    /// The actor, with the places of its events.
    pub fn into_player(self) -> Player
        ensures { result ≡ self.entry.player }
    {
        let LoggedActor {
            code: _,
            callees: _,
            player,
            asks: _,
            past,
            turn,
            broken: _,
        } = self;
        drop(past);
        drop(turn);
        player
    }
}
