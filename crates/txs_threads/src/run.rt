//! The workers.

ghost use Rattle.std.specs.Prelude.{◌≡◌, ◌<◌, ◌≤◌, ◌+◌, ◌⊎◌, length, IfOk, IfErr};
ghost use Rattle.std.specs.Thread.{IsSend, IsSync};
ghost use Rattle.txs_machine.specs.Agents.{agents_of, AgentsAreDone, AreDrained, AreExplainedBy};
ghost use Rattle.txs_machine.specs.RunOver.{IsStateOf, books_of};
ghost use Rattle.txs_machine.specs.Schedule.{AreDone, HaveEnded, IsExplainedBy};
ghost use Rattle.txs_machine.specs.declared.run_error.RunError.TheVariants.{NoThread, JournalMismatch, Memory};
ghost use Rattle.txs_history_run.specs.Callees.{AreCallees};
ghost use Rattle.txs_history.specs.Logged.{locks_of};
ghost use Rattle.txs_machine.specs.Scheduled.{IsInterleaving};
ghost use Rattle.txs_world_shared.specs.SharedState.{shared_of};
ghost use Rattle.txs_threads.specs.Run.{AreOpened, IsLeft};

use crate::actors::{agents_in, open_all};
use crate::atoms::{Atoms, open_logged};
use crate::left::settle_left;
use crate::runnable::{AsksAtom, AsksStore, Journal, Ran, Wanted};
use crate::scheduler::{Scheduler, Step};
use crossbeam_channel::{Receiver, Sender};
use std::alloc::Global;
use std::hint::spin_loop;
use std::marker::Brand;
use std::sync::{Mutex, MutexGuard, Wait};
use std::thread;
use std::thread::Threads;
use txs_code_meaning::Verified;
use txs_gate::{AskKind, Gate, Moment};
use txs_history::{Asked, Opened, Run};
use txs_history_run::{AfterAsk, AfterReply, Gathered, sent_functions};
use txs_machine::RunError;
use txs_value_data::CellId;
use txs_world::Store;
use txs_world_book::AtomBook;
use txs_world_shared::SharedState;

/// How many workers there may be.
const MOST_WORKERS: usize = 64;

/// After so many asks an actor is handed on, so that others have their turns: then, or at the end of its transaction, swap or action.
const ASKS: u32 = 64;

/// Whether an actor that continues after such an ask is within a transaction, a swap or an action.
fn is_within(kind: AskKind) -> bool {
    matches!(
        kind,
        AskKind::Begin | AskKind::Look | AskKind::View | AskKind::OpenAt | AskKind::Take
    )
}

/// How often a worker that finds the store's lock held looks again before it sleeps.
const LOOKS: u32 = 200;

/// What becomes of an actor that was run for a while.
#[derive(Clone, Copy)]
enum Handover {
    /// It continues, and is handed on.
    GoesOn,
    /// It is this agent's, and nothing waits for it; or nobody's, and it is turned no more: it has ended, or met what agrees with no run.
    Rests(Option<CellId>),
}

/// What lies under the store's lock, to serve an ask. Most asks are short, so a worker that finds the lock held looks again for a while before it sleeps.
fn lock_for<'a, R: Wait, S, P>(
    rt: &R,
    scheduler: &'a Mutex<Scheduler<S, P>>,
) -> MutexGuard<'a, Scheduler<S, P>> {
    for _ in 0..LOOKS {
        if let Some(guard) = scheduler.try_lock() {
            return guard;
        }
        spin_loop();
    }
    scheduler.lock(rt)
}

/// Sends the word that no actor is live.
fn send_stop<R: Wait, P: Drop>(rt: &R, to: &Sender<Option<P>>) {
    let _ = to.send(rt, None);
}

/// Hands an actor on, or puts it down where that can't be: whether it was the last that was live.
fn hand_on<R: Wait, S: Journal, P: AsksStore<S>>(
    rt: &R,
    scheduler: &Mutex<Scheduler<S, P>>,
    to: &Sender<Option<P>>,
    actor: P,
) -> bool {
    let Err(back) = to.send(rt, Some(actor)) else {
        return false;
    };
    match back.into_inner() {
        Some(actor) => scheduler.lock(rt).put(actor),
        None => false,
    }
}

/// Hands on the actors that are ready: whether the last that was live had to be put down.
fn hand_on_ready<R: Wait, S: Journal, P: AsksStore<S>>(
    rt: &R,
    scheduler: &Mutex<Scheduler<S, P>>,
    to: &Sender<Option<P>>,
) -> bool {
    let mut last = false;
    for _ in rt.forever() {
        let ready = scheduler.lock(rt).next();
        match ready {
            Some(actor) => last = hand_on(rt, scheduler, to, actor),
            None => return last,
        }
    }
    last
}

/// What becomes of an actor after an answer, by what it is to do next; its ask may have been for an action for this agent. Nothing where it continues, and has
/// asks left or is within a transaction, a swap or an action.
fn after_answer(
    next: AfterReply,
    taker: Option<CellId>,
    within: bool,
    left: &mut u32,
) -> Option<Handover> {
    *left = left.saturating_sub(1);
    match next {
        AfterReply::Redoes => None,
        AfterReply::GoesOn if within || *left > 0 => None,
        AfterReply::GoesOn | AfterReply::Again => Some(Handover::GoesOn),
        AfterReply::Idle => Some(Handover::Rests(taker)),
        AfterReply::Broken => Some(Handover::Rests(None)),
    }
}

/// Serves an actor's ask under the lock of the book that it is for: an atom's, or the store's. Hands on the agents that it woke. What became of it.
#[inline(always)]
fn serve_under<R: Wait, S: Journal, A: Drop, P: AsksStore<S> + AsksAtom<A>>(
    rt: &R,
    scheduler: &Mutex<Scheduler<S, P>>,
    atoms: &Atoms<A>,
    to: &Sender<Option<P>>,
    actor: &mut P,
    atom: Option<CellId>,
) -> AfterAsk {
    if let Some(cell) = atom {
        return atoms.serve(rt, cell, actor);
    }
    let Step { asked, woke } = lock_for(rt, scheduler).serve(actor);
    if woke {
        hand_on_ready(rt, scheduler, to);
    }
    asked
}

/// Serves an actor's ask, hands on the agents that it woke, and has the gate note what the ask made: what becomes of the actor then.
fn serve_ask<R: Wait, S: Journal, A: Drop, P: AsksStore<S> + AsksAtom<A>, G: Gate>(
    rt: &R,
    scheduler: &Mutex<Scheduler<S, P>>,
    atoms: &Atoms<A>,
    to: &Sender<Option<P>>,
    gate: &G,
    actor: &mut P,
    wanted: Wanted,
    left: &mut u32,
) -> Option<Handover> {
    let asked = serve_under(rt, scheduler, atoms, to, actor, wanted.atom);
    let AfterAsk::Took(made, next) = asked else {
        return Some(Handover::Rests(None));
    };
    gate.note(actor.number(), made);
    if !matches!(next, AfterReply::Broken) {
        gate.pass(actor.number(), Moment::Answered(wanted.kind));
    }
    after_answer(next, wanted.agent, is_within(wanted.kind), left)
}

/// Runs an actor up to so many asks, each of which is served, to a retry, until nothing waits for it, or to its end. It is turned so often at once as the gate
/// allows, and no further than to its next ask.
fn play<R: Wait, S: Journal, A: Drop, P: AsksStore<S> + AsksAtom<A>, G: Gate>(
    rt: &R,
    scheduler: &Mutex<Scheduler<S, P>>,
    atoms: &Atoms<A>,
    to: &Sender<Option<P>>,
    gate: &G,
    actor: &mut P,
) -> Handover {
    let budget = gate.most_turns().max(1);
    let mut left = ASKS;
    for _ in rt.forever() {
        gate.pass(actor.number(), Moment::Local);
        let standing = match actor.run(budget) {
            Ran::Went => None,
            Ran::Asks(wanted) => serve_ask(
                rt, scheduler, atoms, to, gate, actor, wanted, &mut left,
            ),
            Ran::Ended => Some(Handover::Rests(None)),
        };
        if let Some(standing) = standing {
            return standing;
        }
    }
    Handover::Rests(None)
}

/// One worker: receives actors and runs each for a while, until none is live. Those that continue are handed on, and those that rest are parked or put down; or
/// handed on, where something waits for their agent by now.
fn work<R: Wait, S: Journal, A: Drop, P: AsksStore<S> + AsksAtom<A>, G: Gate>(
    rt: &R,
    scheduler: &Mutex<Scheduler<S, P>>,
    atoms: &Atoms<A>,
    to: &Sender<Option<P>>,
    from: &Receiver<Option<P>>,
    gate: &G,
) {
    for _ in rt.forever() {
        let Ok(Some(mut actor)) = from.recv(rt) else {
            break;
        };
        let last = match play(rt, scheduler, atoms, to, gate, &mut actor) {
            Handover::GoesOn => hand_on(rt, scheduler, to, actor),
            Handover::Rests(agent) => {
                let rests = scheduler.lock(rt).rest(agent, actor);
                match rests {
                    Ok(last) => last,
                    Err(actor) => hand_on(rt, scheduler, to, actor),
                }
            }
        };
        if last {
            break;
        }
    }
    send_stop(rt, to);
}

/// Hands the workers what is ready, or the word to stop where nothing is live or not all of them were started.
fn feed<R: Wait, S: Journal, P: AsksStore<S>>(
    rt: &R,
    scheduler: &Mutex<Scheduler<S, P>>,
    to: &Sender<Option<P>>,
    started: bool,
) {
    let none = !started || scheduler.lock(rt).actors.live == 0;
    if none || hand_on_ready(rt, scheduler, to) {
        send_stop(rt, to);
    }
}

/// Has all actors of the scheduler run by so many workers, who hand them on over a channel with room for so many messages: each is an actor, or nothing, the word
/// that none is live. They are handed what is ready when all have been started, and it returns when all have returned.
///
/// # Errors
/// `NoThread` where a worker couldn't be started, and nothing was run; `Memory` where there was none for the channel.
fn run_scheduler<
    R: Threads + Wait + Sync,
    S: Journal + Send,
    A: Drop + Send,
    P: AsksStore<S> + AsksAtom<A> + Send,
    G: Gate,
>(
    rt: &R,
    alloc: Global,
    scheduler: &Mutex<Scheduler<S, P>>,
    atoms: &Atoms<A>,
    room: usize,
    gate: &G,
    workers: usize,
) -> Result<(), RunError>
    ensures { IfErr result (λ e. (e ≡ NoThread) ⊎ (e ≡ Memory)) }
{
    let (sender, receiver) = crossbeam_channel::bounded(alloc, room)?;
    let to = &sender;
    let from = &receiver;
    let all = thread::scope(
        thread::scope_env(),
        rt,
        |scope| -> bool
            requires runtime { IsSync R.row }
            requires gate { IsSync G.row }
            requires actors { IsSend P.row }
            requires store { IsSend S.row }
            requires atoms { IsSend A.row }
        {
            let mut started = true;
            for _ in 0..workers {
                let worker = scope.spawn(move || work(rt, scheduler, atoms, to, from, gate));
                started = worker.is_ok();
                drop(worker);
                if !started {
                    break;
                }
            }
            feed(rt, scheduler, to, started);
            started
        },
    );
    drop(sender);
    drop(receiver);
    if all {
        return Ok(());
    }
    Err(RunError::NoThread)
}

/// Runs the actors of a code, whose actions call these functions and whose agents are these, by so many workers, in one history of all that they ask; an
/// actor makes no more than `max_steps` steps.
fn run_in<J: Run + Send + Sync, R: Threads + Wait + Sync, G: Gate>(
    rt: &R,
    alloc: Global,
    opened: Opened<Asked>,
    parts: (Store, Vec<AtomBook>),
    code: &Verified,
    callees: &[bool],
    agents: &[CellId],
    workers: usize,
    max_steps: u64,
    gate: &G,
) -> Result<Gathered, RunError>
    requires book { opened.seen.book ≡ J.book }
    requires first { opened.next ≡ 0 }
    requires locks { opened.count ≡ locks_of J.code.cells }
    requires code { code.now ≡ J.code }
    requires limit { max_steps ≡ J.limit }
    requires parts { AreOpened code.now parts.0 parts.1.items }
    requires callees { AreCallees code.now callees.now }
    requires agents { agents.now ≡ agents_of code.now }
    requires few { length code.now.threads + length code.now.cells ≤ 65535 }
    requires workers { workers ≤ 64 }
    ensures left { IfOk result (λ g. IsLeft code.now max_steps g.shared g.report) }
    ensures refusals { IfErr result (λ e. (e ≡ NoThread) ⊎ (e ≡ JournalMismatch) ⊎ (e ≡ Memory)) }
{
    let threads = code.code().threads().len();
    let room = threads + agents.len() + workers + 1;
    let threads = threads as u16;
    let past = opened.past::<J>();
    let (store, atoms) = open_logged::<J>(alloc, code, opened, parts)?;
    let mut scheduler = Scheduler::new(alloc, store);
    let actors = &mut scheduler.actors;
    let opened = open_all(
        actors, alloc, code, callees, agents, threads, max_steps, &past,
    );
    let scheduler = Mutex::new(scheduler);
    let ran = match opened {
        Ok(()) => run_scheduler(rt, alloc, &scheduler, &atoms, room, gate, workers),
        Err(_) => Err(RunError::Memory),
    };
    let scheduler = scheduler.into_inner();
    match ran {
        Ok(()) => settle_left(alloc, code, agents, scheduler, atoms, past),
        Err(refused) => {
            drop(scheduler);
            drop(atoms);
            drop(past);
            Err(refused)
        }
    }
}

/// Runs the actors of a code, one of each thread and one of each agent, by so many workers; an actor makes no more than `max_steps` steps.
fn run_all<R: Threads + Wait + Sync, G: Gate>(
    rt: &R,
    alloc: Global,
    code: &Verified,
    workers: usize,
    max_steps: u64,
    gate: &G,
) -> Result<Gathered, RunError>
    requires few { length code.now.threads + length code.now.cells ≤ 65535 }
    requires workers { workers ≤ 64 }
    ensures left { IfOk result (λ g. IsLeft code.now max_steps g.shared g.report) }
    ensures refusals { IfErr result (λ e. (e ≡ NoThread) ⊎ (e ≡ JournalMismatch) ⊎ (e ≡ Memory)) }
{
    let agents = agents_in(alloc, code)?;
    let callees = sent_functions(alloc, code)?;
    let shared = SharedState::open(
        alloc,
        code.code().cells(),
        code.code().threads().len() as u16,
    )?;
    let parts = shared.into_parts();
    let opened = Opened::new(parts.1.len() as u64 + 1);
    run_in::<Brand, R, G>(
        rt,
        alloc,
        opened,
        parts,
        code,
        callees.as_slice(),
        agents.as_slice(),
        workers,
        max_steps,
        gate,
    )
}

/// Runs all threads and agents of the code by so many workers, each on a thread of its own, until each thread has ended and nothing waits for an
/// agent that continues. An actor makes no more than `max_steps` steps. It stays with its worker for 64 asks and to the end of its transaction, swap or action,
/// and is handed on where its transaction runs again.
///
/// # Errors
/// `NoThread` where `workers` is 0 or over 64, or a worker couldn't be started, and nothing was run; `Memory` where there was no memory for actors, books or
/// the report; `JournalMismatch` where a lock lets another in, which none does.
pub fn run_threads<R: Threads + Wait + Sync, G: Gate>(
    rt: &R,
    alloc: Global,
    code: &Verified,
    workers: usize,
    max_steps: u64,
    gate: &G,
) -> Result<Gathered, RunError>
    requires few { length code.now.threads + length code.now.cells ≤ 65535 }
    ensures workers { IfOk result (λ g. (0 < workers) × (workers ≤ 64)) }
    ensures none { IfErr result (λ e. ((workers ≡ 0) ⊎ (64 < workers)) → e ≡ NoThread) }
    ensures of { IfOk result (λ g. IsStateOf code.now g.shared) }
    ensures ended { IfOk result (λ g. HaveEnded g.report.threads.items) }
    ensures drained { IfOk result (λ g. AreDrained code.now (shared_of g.shared) g.report.agents.items) }
    ensures done { IfOk result (λ g. AreDone code.now max_steps (books_of g.shared) g.report.threads.items) }
    ensures agents_done { IfOk result (λ g. AgentsAreDone code.now max_steps (books_of g.shared) g.report.agents.items) }
    ensures explained { IfOk result (λ g. IsExplainedBy code.now (shared_of g.shared) g.report.threads.items) }
    ensures all_explained { IfOk result (λ g. AreExplainedBy code.now (shared_of g.shared) g.report.threads.items g.report.agents.items) }
    ensures interleaved { IfOk result (λ g. IsInterleaving code.now g.shared g.report.threads.items g.report.agents.items) }
    ensures refusals { IfErr result (λ e. (e ≡ NoThread) ⊎ (e ≡ JournalMismatch) ⊎ (e ≡ Memory)) }
{
    if workers == 0 || workers > MOST_WORKERS {
        return Err(RunError::NoThread);
    }
    run_all(rt, alloc, code, workers, max_steps, gate)
}
