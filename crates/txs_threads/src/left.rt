//! What the workers leave: everything after the joins, without a handle.

ghost use Rattle.std.specs.Prelude.{◌≡◌, ◌≤◌, ◌↔◌, ◌⊎◌, length, true, IsTrue, IfOk, IfErr};
ghost use Rattle.txs_machine.specs.Agents.{agents_of};
ghost use Rattle.txs_machine.specs.declared.run_error.RunError.TheVariants.{JournalMismatch, Memory};
ghost use Rattle.txs_threads.specs.Run.{AllEnded, AreAgents, IsDrained, AllDrained, IsLeft};
ghost use Rattle.txs_world_book.specs.Book.{has_agent};
ghost use Rattle.txs_world_book.specs.Served.{cells_of};

use crate::atoms::{Atoms, FreeAtoms};
use crate::runnable::{AsksAtom, AsksStore, Ran, Runnable, Wanted};
use crate::scheduler::{Actors, Scheduler};
use std::alloc::Global;
use txs_code_meaning::Verified;
use txs_history::{Asked, LoggedAtom, LoggedStore, Past, Run};
use txs_history_run::{AfterAsk, AfterReply, Gathered, LoggedActor, settle};
use txs_machine::{ActorReport, RunError};
use txs_value_data::CellId;
use txs_world_shared::SharedState;

/// Serves an actor's ask, whose answer it takes: whether it goes on.
fn serve_left<S, A: Drop, P: AsksStore<S> + AsksAtom<A>>(
    store: &mut S,
    atoms: &mut FreeAtoms<A>,
    actor: &mut P,
    wanted: Wanted,
) -> bool {
    let asked = match wanted.atom {
        Some(cell) => atoms.serve(cell, actor),
        None => actor.ask_store(store),
    };
    matches!(
        asked,
        AfterAsk::Took(
            _,
            AfterReply::GoesOn | AfterReply::Redoes | AfterReply::Again
        )
    )
}

/// Rounds of one ask of each actor that hasn't ended, until none goes on: each is turned up to its next ask, which is served and answered, or to its end.
fn run_rounds<S, A: Drop, P: AsksStore<S> + AsksAtom<A>>(
    store: &mut S,
    atoms: &mut FreeAtoms<A>,
    actors: &mut [P],
) {
    for _ in 0..u64::MAX {
        let mut more = false;
        for one in actors.iter_mut() {
            match one.run(u64::MAX) {
                Ran::Went => more = true,
                Ran::Asks(wanted) => more |= serve_left(store, atoms, one, wanted),
                Ran::Ended => {}
            }
        }
        if !more {
            return;
        }
    }
}

/// All actors, in the order of their numbers.
fn all_actors<P: Runnable>(mut actors: Actors<P>) -> Vec<P> {
    actors.wake_all();
    let Actors {
        mut ready,
        parked,
        mut down,
        ..
    } = actors;
    drop(parked);
    let _ = ready.append(&mut down);
    drop(down);
    ready.sort_unstable_by_key(P::number);
    ready
}

/// Whether each of these entries is of an actor that has ended.
fn have_ended(threads: &[ActorReport]) -> bool
    ensures { IsTrue result ↔ AllEnded threads.now }
{
    for thread in threads {
        if thread.outcome.is_none() {
            return false;
        }
    }
    true
}

/// Whether an agent's actor has ended, or the agent has failed, or nothing waits for it.
fn is_drained(shared: &SharedState, agent: CellId, ran: &ActorReport) -> bool
    requires { has_agent (cells_of shared.now.cells) agent ≡ true }
    ensures { IsTrue result ↔ IsDrained shared.now agent ran.now }
{
    if ran.outcome.is_some() {
        return true;
    }
    if shared.failure(agent).is_some() {
        return true;
    }
    shared.waiting(agent) == 0
}

/// Whether this is so of each of these agents.
fn are_drained(shared: &SharedState, agents: &[CellId], rans: &[ActorReport]) -> bool
    requires agents { AreAgents shared.now agents.now }
    requires one_each { length rans.now ≡ length agents.now }
    ensures { IsTrue result ↔ AllDrained shared.now agents.now rans.now }
{
    for i in 0..agents.len() {
        if !is_drained(shared, agents[i], &rans[i]) {
            return false;
        }
    }
    true
}

/// Whether each thread of a report has ended, and nothing waits for an agent of it that continues.
fn is_whole(gathered: &Gathered, agents: &[CellId]) -> bool
    requires agents { AreAgents gathered.now.shared agents.now }
    requires one_each { length gathered.now.report.agents.items ≡ length agents.now }
    ensures ended { IsTrue result → AllEnded gathered.now.report.threads.items }
    ensures drained { IsTrue result → AllDrained gathered.now.shared agents.now gathered.now.report.agents.items }
    ensures whole { AllEnded gathered.now.report.threads.items → AllDrained gathered.now.shared agents.now gathered.now.report.agents.items → IsTrue result }
{
    if !have_ended(gathered.report.threads.as_slice()) {
        return false;
    }
    are_drained(&gathered.shared, agents, gathered.report.agents.as_slice())
}

/// Runs in rounds what the workers left unended, and reports the actors, where all asks are theirs.
pub(crate) fn settle_left<J: Run>(
    alloc: Global,
    code: &Verified,
    agents: &[CellId],
    scheduler: Scheduler<LoggedStore<J>, LoggedActor<'_, J>>,
    atoms: Atoms<LoggedAtom<J>>,
    past: Past<Asked, J>,
) -> Result<Gathered, RunError>
    requires code { code.now ≡ J.code }
    requires agents { agents.now ≡ agents_of code.now }
    requires few { length code.now.cells ≤ 65535 }
    ensures left { IfOk result (λ g. IsLeft code.now J.limit g.shared g.report) }
    ensures refusals { IfErr result (λ e. (e ≡ JournalMismatch) ⊎ (e ≡ Memory)) }
{
    let Scheduler { mut store, actors } = scheduler;
    let mut all = all_actors(actors);
    let mut atoms = match atoms.into_free(alloc) {
        Ok(atoms) => atoms,
        Err(_) => {
            drop(store);
            drop(all);
            drop(past);
            return Err(RunError::Memory);
        }
    };
    run_rounds(&mut store, &mut atoms, all.as_mut_slice());
    let mut past = past;
    let gathered = settle(
        alloc,
        code,
        agents,
        store,
        atoms.into_atoms(),
        all,
        &mut past,
    )?;
    if is_whole(&gathered, agents) {
        return Ok(gathered);
    }
    drop(gathered);
    Err(RunError::JournalMismatch)
}
