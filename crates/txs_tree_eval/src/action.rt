//! What an action means.

ghost use Rattle.std.specs.Prelude.{◌≡◌, length, map, IfOk};
ghost use Rattle.txs_tree_eval.specs.ActionTold.{ActionAccounts, ActionConcluded, TellsAction, sends_held};
ghost use Rattle.txs_tree_eval_node.specs.Events.{seen_events};
ghost use Rattle.txs_tree_eval_node.specs.Evaluated.{held_of, thread_state};
ghost use Rattle.txs_tree_meaning.specs.Known.{known};
ghost use Rattle.txs_tree_meaning.specs.Sound.{SentCallee};
ghost use Rattle.txs_tree_meaning.specs.View.{functions_of, program_of};

use crate::meaning::{Needs, asked, lacking, told};
use crate::transaction::TxMeaning;
use std::alloc::{AllocError, Global};
use txs_tree_eval_node::evaluate::{apply_outside, copy_locals};
use txs_tree_eval_node::{Context, Progress, Seen, State};
use txs_tree_eval_transaction::ThreadStop;
use txs_tree_meaning::Program;
use txs_value_cell::Action;
use txs_value_data::{Callee, Fault, Listed, Span, Value};

/// What an action means on some events: the bytes that it prints, what it needs, its value or fault, the sends that it holds at its
/// end, how many events it ate, and what is said of each transaction whose commit it ate, in order. The result is there where it
/// needs nothing, before the agent's validator has looked at it; an action that faults holds nothing, nor is said what one holds that
/// isn't over. Before an event that the action doesn't allow it stays as it is.
#[derive(Drop)]
pub struct ActionMeaning {
    pub printed: Listed<u8>,
    pub needs: Needs,
    /// The book of the event that it needs, 0 for the store's.
    pub asks: Option<usize>,
    pub result: Option<Result<Value, Fault>>,
    pub sends: Listed<Action>,
    pub eaten: usize,
    pub txs: Listed<TxMeaning>,
}

/// What an action needs, its result, and its sends.
struct Conclusion {
    needs: Needs,
    result: Option<Result<Value, Fault>>,
    sends: Listed<Action>,
}

/// The sends that are held.
fn sends_held(alloc: Global, held: Option<Vec<Action>>) -> Listed<Action>
    ensures { result ≡ sends_held (held_of held) }
{
    match held {
        Some(sends) => Listed::from_vec(sends),
        None => Listed::from_vec(Vec::new(alloc)),
    }
}

/// What an action needs that ends so where so many events are left and these sends are held.
fn conclude(
    alloc: Global,
    end: Result<Value, ThreadStop>,
    left: usize,
    held: Option<Vec<Action>>,
) -> Result<Conclusion, AllocError>
    ensures { IfOk result (λ c. ActionConcluded end left (held_of held) c.needs c.result c.sends) }
{
    let none = Listed::from_vec(Vec::new(alloc));
    match end {
        Ok(value) => Ok(Conclusion {
            needs: Needs::Nothing,
            result: Some(Ok(value)),
            sends: sends_held(alloc, held),
        }),
        Err(ThreadStop::Fault(fault)) => Ok(Conclusion {
            needs: Needs::Nothing,
            result: Some(Err(fault)),
            sends: none,
        }),
        Err(ThreadStop::Event | ThreadStop::Wrong) => Ok(Conclusion {
            needs: lacking(left),
            result: None,
            sends: none,
        }),
        Err(ThreadStop::Turns) => Ok(Conclusion {
            needs: Needs::Turns,
            result: None,
            sends: none,
        }),
        Err(ThreadStop::Memory) => Err(AllocError),
    }
}

/// The meaning of an action on so many events that ends so.
fn tell_action(
    alloc: Global,
    events: usize,
    thread: Progress<'_>,
    end: Result<Value, ThreadStop>,
) -> Result<ActionMeaning, AllocError>
    ensures { IfOk result (λ m. ActionAccounts m events (thread_state thread.entry) end) }
{
    let left = thread.events.len().saturating_sub(thread.eaten);
    let eaten = events.saturating_sub(left);
    let Conclusion {
        needs,
        result,
        sends,
    } = conclude(alloc, end, left, thread.held)?;
    let txs = told(alloc, thread.txs)?;
    Ok(ActionMeaning {
        printed: Listed::from_vec(thread.printed),
        needs,
        asks: asked(needs, thread.asks),
        result,
        sends,
        eaten,
        txs,
    })
}

/// The meaning of an action of the program that applies this callee to these values, the agent's state the first, on these events with
/// their worlds, where each loop makes at most `turns` turns and an operation faults at this span. If the action doesn't allow some
/// event, the answer is about the events before the first such one. An error where there is no memory for it.
pub fn eval_action<'a>(
    alloc: Global,
    program: &'a Program,
    callee: Callee,
    span: Span,
    values: &[Value],
    events: &'a [Seen<'a>],
    turns: u32,
) -> Result<ActionMeaning, AllocError>
    requires { SentCallee (known (functions_of program.now.functions)) callee (length values.now) }
    ensures { IfOk result (λ m. TellsAction m (program_of program.now) callee span values.now turns (seen_events events.now)) }
{
    program.is_sound();
    let context = Context::new(program.cells(), program.functions(), turns, None);
    let copies = copy_locals(alloc, values)?;
    let mut state = State::of_action(alloc, events);
    let end = apply_outside(alloc, &context, callee, copies, span, &mut state);
    tell_action(alloc, events.len(), state.into_thread(), end)
}
