//! What is looked at where all actors and all logs are back, and the report of the run.

ghost use Rattle.std.specs.Prelude.{◌≡◌, ◌≤◌, ◌+◌, ◌⊎◌, ◌++◌, ◌^◌, ◌<◌, ◌↔◌, length, map, None, IfOk, IfErr, IfSome, IsTrue, IsFalse};
ghost use mathlib.Core.List.{IsPrefix};
ghost use Rattle.txs_history.specs.History.{events_of};
ghost use Rattle.txs_history.specs.Asked.{History, shared_by, sum_to};
ghost use Rattle.txs_theorem_runs.specs.Shared.{store_of};
ghost use Rattle.txs_machine.specs.Agents.{actors_of, agents_of};
ghost use Rattle.txs_machine.specs.RunOver.{IsStateOf};
ghost use Rattle.txs_machine.specs.Running.{attendants};
ghost use Rattle.txs_machine.specs.declared.run_error.RunError.TheVariants.{JournalMismatch, Memory};
ghost use Rattle.txs_world_shared.specs.Apart.{ArePartsOf};
ghost use Rattle.txs_world_shared.specs.Kept.{state_of};
ghost use Rattle.txs_history_run.specs.Back.{ActorsFollow, ActorsSeen, Agree, AreBack, ArePlaced, AreWhole, AtomsLeft, AtomsSeen, IsAllBack, IsPlaced, IsReportOf, IsWhole, asked_at, book_of, player_of};
ghost use Rattle.txs_history_run.specs.Settled.{IsRunReport, IsSettled, asks_by};

use crate::LoggedActor;
use crate::law::settled_is_run;
use std::alloc::{AllocError, Global};
use txs_code_meaning::Verified;
use txs_history::{Asked, LoggedAtom, LoggedStore, Past, Run};
use txs_machine::{AgentPlayer, Entries, Player, Players, RunError, report_all};
use txs_theorem_runs::law::typed_threads_are_staged;
use txs_value_data::CellId;
use txs_world_book::AtomBook;
use txs_world_shared::SharedState;

/// What actors shared, and what each of them did.
#[derive(Drop)]
pub struct Gathered {
    pub shared: SharedState,
    pub report: Entries,
}

/// A past then has seen what these atoms were asked.
fn show_atoms<J: Run>(atoms: &[LoggedAtom<J>], past: &mut Past<Asked, J>)
    ensures own { IsPrefix past.old past.new }
    ensures atoms { AtomsSeen (length atoms.now) atoms.now past.new }
{
    for i in 0..atoms.len() {
        atoms[i].show(past);
    }
}

/// A past then has seen what these actors have.
fn show_actors<J: Run>(actors: &[LoggedActor<'_, J>], past: &mut Past<Asked, J>)
    ensures own { IsPrefix past.old past.new }
    ensures actors { ActorsSeen (length actors.now) actors.now past.new }
{
    for i in 0..actors.len() {
        actors[i].show(past);
    }
}

/// How many asks these atoms were asked, if each was asked all that a past has seen of it. None only where an atom is broken, or the history has
/// asks of it that it lacks, which the past then has seen, or there are 2^64 asks.
fn count_atoms<J: Run>(atoms: &[LoggedAtom<J>], past: &mut Past<Asked, J>) -> Option<u64>
    requires { AtomsSeen (length atoms.now) atoms.now past.old }
    ensures seen { IfSome result (λ n. past.new ≡ past.old) }
    ensures left { IfSome result (λ n. AtomsLeft J.code.cells past.old (length atoms.now) atoms.now n) }
    ensures lacks { result ≡ None → AreWhole J.code.cells past.new atoms.now → ⊥ }
{
    let mut sum: u64 = 0;
    for i in 0..atoms.len() {
        let count = atoms[i].whole(past)?;
        sum = sum.checked_add(count)?;
    }
    Some(sum)
}

/// How many asks the store and these atoms were asked, if each was asked all that a past has seen of it. None only where they don't agree with what
/// the past then has seen.
fn count_asked<J: Run>(
    store: &LoggedStore<J>,
    atoms: &[LoggedAtom<J>],
    past: &mut Past<Asked, J>,
) -> Option<u64>
    requires store { IsPrefix store.now.log.log past.old }
    requires atoms { AtomsSeen (length atoms.now) atoms.now past.old }
    ensures seen { IfSome result (λ n. past.new ≡ past.old) }
    ensures store { IfSome result (λ n. store.now.store ≡ store_of J.code.cells (length J.code.threads) (shared_by J.code.cells past.old)) }
    ensures atoms { IfSome result (λ n. AtomsLeft J.code.cells past.old (length atoms.now) atoms.now (sum_to (length atoms.now) (asked_at J.code.cells past.old atoms.now))) }
    ensures count { IfSome result (λ n. n ≡ length (events_of 0 past.old) + sum_to (length atoms.now) (asked_at J.code.cells past.old atoms.now)) }
    ensures lacks { result ≡ None → IsWhole 0 past.new store.now.log.log store.now.broken → AreWhole J.code.cells past.new atoms.now → length (events_of 0 past.new) + sum_to (length atoms.now) (asked_at J.code.cells past.new atoms.now) < 2 ^ 64 → ⊥ }
{
    let of_store = store.whole(past)?;
    let of_atoms = count_atoms(atoms, past)?;
    of_store.checked_add(of_atoms)
}

/// Whether an actor has this number, and asks nothing.
fn is_placed<J: Run>(actor: &LoggedActor<'_, J>, number: usize) -> bool
    ensures settled { IsTrue result → IsSettled J.code J.limit number actor.now.past actor.now }
    ensures differs { IsFalse result → IsPlaced number actor.now → ⊥ }
{
    if usize::from(actor.number()) != number {
        return false;
    }
    actor.runs()
}

/// How many asks these actors made, if each is at the place of its number, and asks nothing.
fn count_actors<J: Run>(actors: &[LoggedActor<'_, J>]) -> Option<u64>
    ensures follow { IfSome result (λ n. ActorsFollow J.code J.limit (length actors.now) actors.now n) }
    ensures differs { result ≡ None → ArePlaced actors.now → ⊥ }
{
    let mut sum: u64 = 0;
    for i in 0..actors.len() {
        let actor = &actors[i];
        if !is_placed(actor, i) {
            return None;
        }
        sum = sum.checked_add(actor.asks())?;
    }
    Some(sum)
}

/// Whether the actors made as many asks as the store and the atoms were asked, and no log lacks one. The past then has seen what all of them have.
fn are_back<J: Run>(
    store: &LoggedStore<J>,
    atoms: &[LoggedAtom<J>],
    actors: &[LoggedActor<'_, J>],
    past: &mut Past<Asked, J>,
) -> bool
    ensures back { IsTrue result → AreBack J.code J.limit past.new store.now atoms.now actors.now }
    ensures differs { IsFalse result → Agree J.code.cells past.new store.now atoms.now actors.now → ⊥ }
{
    show_actors(actors, past);
    show_atoms(atoms, past);
    store.show(past);
    let Some(asked) = count_asked(store, atoms, past) else {
        return false;
    };
    let Some(made) = count_actors(actors) else {
        return false;
    };
    asked == made
}

/// The atoms without their logs.
fn into_books<J: Run>(alloc: Global, atoms: Vec<LoggedAtom<J>>) -> Result<Vec<AtomBook>, AllocError>
    ensures { IfOk result (λ books. books.items ≡ map book_of atoms.items) }
{
    let mut books = Vec::with_capacity(alloc, atoms.len())?;
    for atom in atoms {
        books.push_reserved(atom.into_atom());
    }
    Ok(books)
}

/// The state of which the store and the atoms are the parts.
fn join_parts<J: Run>(
    alloc: Global,
    code: &Verified,
    store: LoggedStore<J>,
    atoms: Vec<LoggedAtom<J>>,
) -> Result<SharedState, RunError>
    ensures state { IfOk result (λ s. s ≡ state_of code.now.cells store.store (map book_of atoms.items)) }
    ensures parts { IfOk result (λ s. ArePartsOf code.now.cells store.store (map book_of atoms.items)) }
    ensures refusals { IfErr result (λ e. (e ≡ JournalMismatch) ⊎ (e ≡ Memory)) }
    ensures apart { IfErr result (λ e. e ≡ JournalMismatch → ArePartsOf code.now.cells store.store (map book_of atoms.items) → ⊥) }
{
    let books = match into_books(alloc, atoms) {
        Ok(books) => books,
        Err(_) => {
            drop(store);
            return Err(RunError::Memory);
        }
    };
    match SharedState::join(alloc, code.code().cells(), store.into_store(), books) {
        Ok(Some(shared)) => Ok(shared),
        Ok(None) => Err(RunError::JournalMismatch),
        Err(_) => Err(RunError::Memory),
    }
}

/// The actors without what they have seen.
fn into_players<J: Run>(
    alloc: Global,
    actors: Vec<LoggedActor<'_, J>>,
) -> Result<Vec<Player>, AllocError>
    ensures { IfOk result (λ players. players.items ≡ map player_of actors.entry.items) }
{
    let mut players = Vec::with_capacity(alloc, actors.len())?;
    for actor in actors {
        players.push_reserved(actor.into_player());
    }
    Ok(players)
}

/// The actors of these agents, each with its agent.
fn with_agents(
    alloc: Global,
    agents: &[CellId],
    players: Vec<Player>,
) -> Result<Vec<AgentPlayer>, AllocError>
    requires one_each { length players.items ≡ length agents.now }
    ensures agents { IfOk result (λ all. map (λ x. x.agent) all.items ≡ agents.now) }
    ensures players { IfOk result (λ all. attendants all.items ≡ players.items) }
{
    let mut all = Vec::with_capacity(alloc, players.len())?;
    for player in players {
        let agent = agents[all.len()];
        all.push_reserved(AgentPlayer { agent, player });
    }
    Ok(all)
}

/// The actors of so many threads, and behind them those of these agents.
fn all_players(
    alloc: Global,
    threads: usize,
    agents: &[CellId],
    players: Vec<Player>,
) -> Result<Players, AllocError>
    requires one_each { length players.items ≡ threads + length agents.now }
    ensures threads { IfOk result (λ all. length all.threads.items ≡ threads) }
    ensures agents { IfOk result (λ all. map (λ x. x.agent) all.agents.items ≡ agents.now) }
    ensures players { IfOk result (λ all. players.items ≡ all.threads.items ++ attendants all.agents.items) }
{
    let mut first = players;
    let rest = first.split_off(threads)?;
    match with_agents(alloc, agents, rest) {
        Ok(agents) => Ok(Players {
            threads: first,
            agents,
        }),
        Err(refused) => {
            drop(first);
            Err(refused)
        }
    }
}

/// The report of actors that are back, over what they left.
fn report_back<J: Run>(
    alloc: Global,
    code: &Verified,
    agents: &[CellId],
    actors: Vec<LoggedActor<'_, J>>,
) -> Result<Entries, AllocError>
    requires agents { agents.now ≡ agents_of code.now }
    requires one_each { length actors.items ≡ actors_of code.now }
    ensures { IfOk result (λ report. IsReportOf code.now actors.entry.items report) }
{
    let players = into_players(alloc, actors)?;
    let all = all_players(alloc, code.code().threads().len(), agents, players)?;
    report_all(alloc, code, all)
}

/// Whether there is an actor for each thread and each of these agents.
fn is_one_each(code: &Verified, agents: &[CellId], actors: usize) -> bool
    requires { agents.now ≡ agents_of code.now }
    ensures { IsTrue result ↔ (actors ≡ actors_of code.now) }
{
    let threads = code.code().threads().len();
    actors >= threads && actors - threads == agents.len()
}

/// The state that store and atoms are, and the report of the actors, where all of them are back.
fn report_run<J: Run>(
    alloc: Global,
    code: &Verified,
    agents: &[CellId],
    store: LoggedStore<J>,
    atoms: Vec<LoggedAtom<J>>,
    actors: Vec<LoggedActor<'_, J>>,
) -> Result<Gathered, RunError>
    requires code { code.now ≡ J.code }
    requires agents { agents.now ≡ agents_of code.now }
    requires few { length code.now.cells ≤ 65535 }
    requires one_each { length actors.items ≡ actors_of code.now }
    requires back { (h : History) × AreBack J.code J.limit h store atoms.items actors.items }
    ensures of { IfOk result (λ g. IsStateOf code.now g.shared) }
    ensures report { IfOk result (λ g. IsRunReport code.now J.limit g.shared g.report) }
    ensures refusals { IfErr result (λ e. (e ≡ JournalMismatch) ⊎ (e ≡ Memory)) }
    ensures apart { IfErr result (λ e. e ≡ JournalMismatch → ArePartsOf code.now.cells store.store (map book_of atoms.items) → ⊥) }
{
    // Laws and steps that the proof uses; they do nothing when they run.
    settled_is_run();
    typed_threads_are_staged();
    let (_functions, _threads) = code.rooms();
    let shared = match join_parts(alloc, code, store, atoms) {
        Ok(shared) => shared,
        Err(refused) => {
            drop(actors);
            return Err(refused);
        }
    };
    let _stands = shared.events();
    match report_back(alloc, code, agents, actors) {
        Ok(report) => Ok(Gathered { shared, report }),
        Err(_) => {
            drop(shared);
            Err(RunError::Memory)
        }
    }
}

/// The end of a run. The store comes back, the atoms in the order of their cells, and the actors in that of their numbers, with a past of their history.
/// It compares how many asks the logs have with how many the actors made, and reads no event. Where they agree, what is shared is what the
/// history leaves, and the report is that of a run by turns: each actor is where its code comes to, and each program that the code follows explains it.
///
/// # Errors
/// `JournalMismatch` only where one of them is missing or isn't at its place, a log or an actor is broken, the history has asks that a log lacks, or the
/// numbers differ; the past then has seen all that was compared. `Memory` where there was no memory for the state or the report.
pub fn settle<J: Run>(
    alloc: Global,
    code: &Verified,
    agents: &[CellId],
    store: LoggedStore<J>,
    atoms: Vec<LoggedAtom<J>>,
    actors: Vec<LoggedActor<'_, J>>,
    past: &mut Past<Asked, J>,
) -> Result<Gathered, RunError>
    requires code { code.now ≡ J.code }
    requires agents { agents.now ≡ agents_of code.now }
    requires few { length code.now.cells ≤ 65535 }
    ensures of { IfOk result (λ g. IsStateOf code.now g.shared) }
    ensures report { IfOk result (λ g. IsRunReport code.now J.limit g.shared g.report) }
    ensures refusals { IfErr result (λ e. (e ≡ JournalMismatch) ⊎ (e ≡ Memory)) }
    ensures differs { IfErr result (λ e. e ≡ JournalMismatch → IsAllBack code.now past.new store atoms.items actors.entry.items → ⊥) }
{
    if is_one_each(code, agents, actors.len())
        && are_back(&store, atoms.as_slice(), actors.as_slice(), past)
    {
        return report_run(alloc, code, agents, store, atoms, actors);
    }
    drop(store);
    drop(atoms);
    drop(actors);
    Err(RunError::JournalMismatch)
}
