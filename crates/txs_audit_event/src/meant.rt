//! What a thread or an action means on some events, as an audit evaluates it.

ghost use Rattle.std.specs.Prelude.{◌≡◌, ◌≤◌, ◌<◌, ◌∷◌, not, length, suc, true, IfOk};
ghost use Rattle.txs_tree_eval_node.specs.Events.{seen_events};
ghost use Rattle.txs_tree_meaning.specs.Known.{known};
ghost use Rattle.txs_tree_meaning.specs.Right.{is_wrong};
ghost use Rattle.txs_tree_meaning.specs.View.{functions_of, program_of};
ghost use Rattle.txs_theorem_audit.specs.Verdict.{is_sent_call, least_of};
ghost use Rattle.txs_theorem_audit.specs.Evaluated.{prints_by};
ghost use Rattle.txs_audit_event.specs.Meant.{Known, is_right, MayDo, TellsMeant, doer_means, ended_by, of_action, of_thread};

use std::alloc::{AllocError, Global};
use txs_audit_book::bounds::{first_bound, next_bound, wants_turns};
use txs_audit_evidence::Books;
use txs_audit_evidence::acts::answered;
use txs_tree_eval::{ActionMeaning, Needs, Seen, ThreadMeaning, TxMeaning, eval_thread};
use txs_value_cell::Action;
use txs_value_data::{Fault, Listed, Value};
use txs_world_protocol::Outcome;

/// A thread of the program, or an action on its agent's state, before the agent's validator looks at its value.
#[derive(Clone, Copy)]
pub enum Doer<'a> {
    Thread(u16),
    Action(&'a Action, &'a Value),
}

/// What is answered of it on some events: as of a thread, where an action ends as it does by its value or fault.
#[derive(Drop)]
pub struct Meant {
    pub printed: Listed<u8>,
    pub needs: Needs,
    pub asks: Option<usize>,
    pub ended: Option<Outcome>,
    pub eaten: usize,
    pub txs: Listed<TxMeaning>,
}

/// What is answered of a thread.
fn of_thread(meaning: ThreadMeaning) -> Meant
    ensures { result ≡ of_thread meaning }
{
    Meant {
        printed: meaning.printed,
        needs: meaning.needs,
        asks: meaning.asks,
        ended: meaning.outcome,
        eaten: meaning.eaten,
        txs: meaning.txs,
    }
}

/// How an action ends that came to this.
fn ended_by(given: Option<Result<Value, Fault>>) -> Option<Outcome>
    ensures { result ≡ ended_by given }
{
    match given {
        Some(Ok(value)) => {
            drop(value);
            Some(Outcome::Done)
        }
        Some(Err(fault)) => Some(Outcome::Failed(fault)),
        None => None,
    }
}

/// What is answered of an action.
fn of_action(meaning: ActionMeaning) -> Meant
    ensures { result ≡ of_action meaning }
{
    let ActionMeaning {
        printed,
        needs,
        asks,
        result: given,
        sends,
        eaten,
        txs,
    } = meaning;
    drop(sends);
    Meant {
        printed,
        needs,
        asks,
        ended: ended_by(given),
        eaten,
        txs,
    }
}

/// What the thread with this number means on these events, where each loop makes at most so many turns.
fn thread_means<'b>(
    alloc: Global,
    books: &'b Books<'_>,
    thread: u16,
    seen: &'b [Seen<'b>],
    bound: u32,
) -> Result<Meant, AllocError>
    requires { thread < length books.now.program.threads }
    ensures { IfOk result (λ m. TellsMeant m (length seen.now) (doer_means (program_of books.now.program) bound (Doer.Thread thread) (seen_events seen.now))) }
{
    let number = usize::from(thread);
    let meaning = eval_thread(alloc, books.program(), number, seen, bound)?;
    Ok(of_thread(meaning))
}

/// What this action means on this state and these events, where each loop makes at most so many turns.
fn action_means<'b>(
    alloc: Global,
    books: &'b Books<'_>,
    action: &'b Action,
    state: &'b Value,
    seen: &'b [Seen<'b>],
    bound: u32,
) -> Result<Meant, AllocError>
    requires { is_sent_call (known (functions_of books.now.program.functions)) action.now.callee (suc (length action.now.args)) ≡ true }
    ensures { IfOk result (λ m. TellsMeant m (length seen.now) (doer_means (program_of books.now.program) bound (Doer.Action action.entry state.entry) (seen_events seen.now))) }
{
    let meaning = answered(alloc, books, bound, action, state, seen)?;
    Ok(of_action(meaning))
}

/// What a thread or an action means on these events, where each loop makes at most so many turns.
fn mean<'b>(
    alloc: Global,
    books: &'b Books<'_>,
    doer: Doer<'b>,
    seen: &'b [Seen<'b>],
    bound: u32,
) -> Result<Meant, AllocError>
    requires { MayDo (program_of books.now.program) doer }
    ensures { IfOk result (λ m. TellsMeant m (length seen.now) (doer_means (program_of books.now.program) bound doer.entry (seen_events seen.now))) }
{
    match doer {
        Doer::Thread(thread) => thread_means(alloc, books, thread, seen, bound),
        Doer::Action(action, state) => action_means(alloc, books, action, state, seen, bound),
    }
}

/// The same where each loop makes at most `turns` turns: with few turns first, and with more only where these don't suffice.
pub fn mean_within<'b>(
    alloc: Global,
    books: &'b Books<'_>,
    doer: Doer<'b>,
    seen: &'b [Seen<'b>],
    turns: u32,
) -> Result<Meant, AllocError>
    requires { MayDo (program_of books.now.program) doer }
    ensures { IfOk result (λ m. TellsMeant m (length seen.now) (doer_means (program_of books.now.program) turns doer.entry (seen_events seen.now))) }
{
    // A step of the proof, which does nothing when it runs.
    books.program().is_sound();
    let mut bound = first_bound(turns);
    loop {
        let meant = mean(alloc, books, doer, seen, bound)?;
        if !wants_turns(&meant.needs, bound, turns) {
            return Ok(meant);
        }
        bound = next_bound(bound, turns);
    }
}

/// Whether no event was one that isn't allowed.
fn is_right(needs: &Needs) -> bool
    ensures { result ≡ is_right needs.now }
{
    match needs {
        Needs::Wrong => false,
        _ => true,
    }
}

/// Whether it is known that all of so many events are allowed, or that one isn't: all were eaten, or no turns are wanted.
fn is_known(meant: &Meant, events: usize, bound: u32, turns: u32) -> bool
    requires { bound ≤ turns }
    ensures { Known meant.now events bound turns result }
{
    if meant.eaten == events {
        return true;
    }
    !wants_turns(&meant.needs, bound, turns)
}

/// Whether a thread or an action allows all of these events, of which there are some, where each loop makes at most `turns` turns.
pub fn allows<'b>(
    alloc: Global,
    books: &'b Books<'_>,
    doer: Doer<'b>,
    seen: &'b [Seen<'b>],
    turns: u32,
) -> Result<bool, AllocError>
    requires may { MayDo (program_of books.now.program) doer }
    requires some { 0 < length seen.now }
    ensures { IfOk result (λ b. b ≡ not (is_wrong (doer_means (program_of books.now.program) turns doer.entry (seen_events seen.now)))) }
{
    // A step of the proof, which does nothing when it runs.
    books.program().is_sound();
    let mut bound = first_bound(turns);
    loop {
        let meant = mean(alloc, books, doer, seen, bound)?;
        if is_known(&meant, seen.len(), bound, turns) {
            return Ok(is_right(&meant.needs));
        }
        bound = next_bound(bound, turns);
    }
}

/// What is printed by something of which this is answered: nothing where it doesn't allow an event.
pub fn printed_of(alloc: Global, meant: Meant) -> Listed<u8>
    ensures { result ≡ prints_by meant.needs meant.printed }
{
    match meant.needs {
        Needs::Wrong => Listed::from_vec(Vec::new(alloc)),
        _ => meant.printed,
    }
}

/// What a thread or an action prints on all of these events but the last; nothing where there is none.
pub fn least_of<'b>(
    alloc: Global,
    books: &'b Books<'_>,
    doer: Doer<'b>,
    seen: &'b [Seen<'b>],
    turns: u32,
) -> Result<Listed<u8>, AllocError>
    requires { MayDo (program_of books.now.program) doer }
    ensures { IfOk result (λ l. l ≡ least_of (doer_means (program_of books.now.program) turns doer.entry) (seen_events seen.now)) }
{
    if seen.is_empty() {
        return Ok(Listed::from_vec(Vec::new(alloc)));
    }
    let (before, _) = seen.split_at(seen.len() - 1);
    let meant = mean_within(alloc, books, doer, before, turns)?;
    Ok(printed_of(alloc, meant))
}
