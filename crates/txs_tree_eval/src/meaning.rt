//! What a thread means.

ghost use Rattle.std.specs.Prelude.{◌≡◌, ◌<◌, ◌-◌, length, map, IfOk, IfSome};
ghost use Rattle.txs_tree_eval.specs.Told.{Account, Accounts, Concluded, Tells, asked, lacking, thread_source, told_run};
ghost use Rattle.txs_tree_eval_node.specs.Evaluated.{thread_state};
ghost use Rattle.txs_tree_meaning.specs.View.{program_of};
ghost use Rattle.txs_tree_eval_node.specs.Events.{seen_events};

use crate::transaction::{TxMeaning, meaning_of};
use std::alloc::{AllocError, Global};
use txs_tree_eval_node::evaluate::evaluate;
use txs_tree_eval_node::{Context, Progress, Seen, State, Transacted};
use txs_tree_eval_transaction::ThreadStop;
use txs_tree_meaning::Program;
use txs_value_data::{Listed, Value};
use txs_world_protocol::Outcome;

/// What a thread lacks that hasn't ended.
#[derive(Clone, Copy, PartialEq, Eq)]
pub enum Needs {
    /// It has ended.
    Nothing,
    /// One more event.
    Event,
    /// More turns of a loop.
    Turns,
    /// The next event isn't one that the thread allows.
    Wrong,
}

/// What a thread means on some events: the bytes that it prints, what it needs, its outcome, how many events it ate, and what
/// is said of each transaction whose commit or refusal it ate, in order. The outcome is there where it needs nothing: Done
/// where its body has a value, Failed where it faults. Before an event that the thread doesn't allow it stays as it is.
#[derive(Drop)]
pub struct ThreadMeaning {
    pub printed: Listed<u8>,
    pub needs: Needs,
    /// The book of the event that it needs, 0 for the store's.
    pub asks: Option<usize>,
    pub outcome: Option<Outcome>,
    pub eaten: usize,
    pub txs: Listed<TxMeaning>,
}

/// What is known of a transaction.
fn told_one(run: Transacted<'_>) -> TxMeaning
    ensures { result ≡ told_run run.entry }
{
    meaning_of(Ok(run.result), run.work)
}

/// What is known of these transactions.
pub(crate) fn told(
    alloc: Global,
    runs: Vec<Transacted<'_>>,
) -> Result<Listed<TxMeaning>, AllocError>
    ensures { IfOk result (λ txs. txs ≡ map told_run runs.entry.items) }
{
    let mut txs = Vec::with_capacity(alloc, runs.len())?;
    for run in runs {
        txs.push(told_one(run))?;
    }
    Ok(Listed::from_vec(txs))
}

/// The book of the event that is waited for, where one is needed.
pub(crate) fn asked(needs: Needs, book: Option<usize>) -> Option<usize>
    ensures { result ≡ asked needs book }
{
    match needs {
        Needs::Event => book,
        Needs::Nothing | Needs::Turns | Needs::Wrong => None,
    }
}

/// The meaning of a thread that ate so many events, and needs this or ended so.
fn account(
    alloc: Global,
    eaten: usize,
    thread: Progress<'_>,
    needs: Needs,
    outcome: Option<Outcome>,
) -> Result<ThreadMeaning, AllocError>
    ensures { IfOk result (λ m. Account m eaten (thread_state thread.entry) needs outcome) }
{
    let txs = told(alloc, thread.txs)?;
    Ok(ThreadMeaning {
        printed: Listed::from_vec(thread.printed),
        needs,
        asks: asked(needs, thread.asks),
        outcome,
        eaten,
        txs,
    })
}

/// What a thread lacks that waits where so many events are left.
pub(crate) fn lacking(left: usize) -> Needs
    ensures { result ≡ lacking left }
{
    if left == 0 {
        return Needs::Event;
    }
    Needs::Wrong
}

/// What a thread needs whose body ends so where so many events are left, and its outcome.
fn conclude(
    end: Result<Value, ThreadStop>,
    left: usize,
) -> Result<(Needs, Option<Outcome>), AllocError>
    ensures { IfOk result (λ r. Concluded end left r.0 r.1) }
{
    match end {
        Ok(_) => Ok((Needs::Nothing, Some(Outcome::Done))),
        Err(ThreadStop::Fault(fault)) => Ok((Needs::Nothing, Some(Outcome::Failed(fault)))),
        Err(ThreadStop::Event | ThreadStop::Wrong) => Ok((lacking(left), None)),
        Err(ThreadStop::Turns) => Ok((Needs::Turns, None)),
        Err(ThreadStop::Memory) => Err(AllocError),
    }
}

/// The meaning of a thread on so many events whose body ends so.
fn tell_thread(
    alloc: Global,
    events: usize,
    thread: Progress<'_>,
    end: Result<Value, ThreadStop>,
) -> Result<ThreadMeaning, AllocError>
    ensures { IfOk result (λ m. Accounts m events (thread_state thread.entry) end) }
{
    let left = thread.events.len().saturating_sub(thread.eaten);
    let eaten = events.saturating_sub(left);
    let (needs, outcome) = conclude(end, left)?;
    account(alloc, eaten, thread, needs, outcome)
}

/// The meaning of the program's thread at this place, counted from 0, on these events with their worlds, where each loop makes
/// at most `turns` turns. If the thread doesn't allow some event, the answer is about the events before the first such one.
/// An error where there is no memory for it.
pub fn eval_thread<'a>(
    alloc: Global,
    program: &'a Program,
    thread: usize,
    events: &'a [Seen<'a>],
    turns: u32,
) -> Result<ThreadMeaning, AllocError>
    requires { thread < length program.now.threads }
    ensures { IfOk result (λ m. IfSome (thread_source (program_of program.now) thread)
        (λ p. Tells m p turns (seen_events events.now))) }
{
    program.is_sound();
    let context = Context::new(program.cells(), program.functions(), turns, None);
    let mut locals = Vec::new(alloc);
    let mut state = State::new(alloc, events);
    let body = &program.threads()[thread].body;
    let end = evaluate(alloc, &context, body, &mut locals, &mut state);
    tell_thread(alloc, events.len(), state.into_thread(), end)
}
