//! What an evaluation has done so far.

ghost use Rattle.std.specs.Prelude.{◌≡◌, ◌<◌, ◌∷◌, ◌++◌, [], Some, List, length, IfOk, MatchResult, OnOk};
ghost use Rattle.txs_frame.specs.Frame.{sends_of_commit};
ghost use Rattle.txs_tree_eval_node.specs.Evaluated.{AnswersAt, Comes, ComesNone, Eats, with_todo, held_of, thread_state, tx_run, idle};
ghost use Rattle.txs_tree_eval_transaction.specs.Worked.{tx_state};
ghost use Rattle.txs_tree_eval_transaction.specs.declared.stop.ThreadStop.TheVariants.{Memory};
ghost use Rattle.txs_tree_meaning.specs.Meaning.{Faults};
ghost use Rattle.txs_tree_meaning.specs.Thread.{from_events, holding, with_tx};
ghost use Rattle.txs_value_data.specs.Places.{fault_at};
ghost use Rattle.txs_value_data.specs.declared.fault.FaultKind.TheVariants.{AgentFailed};
ghost use Rattle.txs_tree_meaning.specs.Transaction.{tx_start};
ghost use Rattle.txs_tree_eval_node.specs.Events.{seen_events};
ghost use Rattle.txs_world_protocol.specs.SeenEvent.{SeenEvent};

use crate::seen::Seen;
use std::alloc::{AllocError, Global};
use txs_frame::TxFrame;
use txs_tree_eval_transaction::{ThreadStop, TxWork};
use txs_tree_meaning::Node;
use txs_value_cell::{Action, copy_action};
use txs_value_data::{Fault, FaultKind, Listed, Span, Value, copy_value};

/// A transaction that came to its end: its body with its locals, whether its result is wanted, its result, and what it did.
#[derive(Drop)]
pub struct Transacted<'a> {
    pub body: &'a Node,
    pub locals: Listed<Value>,
    pub wanted: bool,
    pub result: Value,
    pub work: TxWork,
}

/// How far a thread is: its events and how many of them it ate, the bytes that it printed, the sends that an action holds, and its
/// transactions that were committed or refused. Where it waits, also which book's event it waits for. A thread holds no sends, and
/// an action is run as a thread is.
#[derive(Drop)]
pub struct Progress<'a> {
    pub events: &'a [Seen<'a>],
    pub eaten: usize,
    pub printed: Vec<u8>,
    pub held: Option<Vec<Action>>,
    pub txs: Vec<Transacted<'a>>,
    pub asks: Option<usize>,
}

/// What an evaluation has done: outside transactions the thread's part counts, in one the transaction's.
#[derive(Drop)]
pub struct State<'a> {
    pub thread: Progress<'a>,
    pub tx: TxWork,
}

impl<'a> State<'a> {
    /// Before a thread with these events.
    pub fn new(alloc: Global, events: &'a [Seen<'a>]) -> State<'a>
        ensures thread { thread_state result.thread ≡ idle (seen_events events.now) }
        ensures tx { tx_state result.tx ≡ tx_start }
    {
        State::begin(alloc, events, None)
    }

    /// Before an action with these events, which holds no sends yet.
    pub fn of_action(alloc: Global, events: &'a [Seen<'a>]) -> State<'a>
        ensures thread { thread_state result.thread ≡ from_events (Some []) (seen_events events.now) }
        ensures tx { tx_state result.tx ≡ tx_start }
    {
        State::begin(alloc, events, Some(Vec::new(alloc)))
    }

    /// Before a thread or an action with these events, where these sends are held.
    fn begin(alloc: Global, events: &'a [Seen<'a>], held: Option<Vec<Action>>) -> State<'a>
        ensures thread { thread_state result.thread ≡ from_events (held_of held) (seen_events events.now) }
        ensures tx { tx_state result.tx ≡ tx_start }
    {
        State {
            thread: Progress {
                events,
                eaten: 0,
                printed: Vec::new(alloc),
                held,
                txs: Vec::new(alloc),
                asks: None,
            },
            tx: TxWork {
                done: TxFrame::new(alloc),
                reads: Vec::new(alloc),
                used: false,
            },
        }
    }

    /// What its transaction did.
    pub fn into_tx(self) -> TxWork
        ensures { result ≡ self.entry.tx }
    {
        self.tx
    }

    /// How far its thread is.
    pub fn into_thread(self) -> Progress<'a>
        ensures { result ≡ self.entry.thread }
    {
        self.thread
    }
}

/// Appends the same actions.
fn push_actions(held: &mut Vec<Action>, sends: &[Action]) -> Result<(), AllocError>
    ensures { OnOk result (held.new.items ≡ held.old.items ++ sends.now) }
{
    for action in sends {
        held.push(copy_action(action)?)?;
    }
    Ok(())
}

impl<'a> Progress<'a> {
    /// The next event, which has to be of this book; where there is none, it waits for one.
    pub(crate) fn next(&mut self, book: usize) -> Result<&'a Seen<'a>, ThreadStop>
        ensures comes { MatchResult result (λ e. Comes book e.now (thread_state self.old)) (λ y. ComesNone book y (thread_state self.old) (thread_state self.new)) }
        ensures same { IfOk result (λ _. thread_state self.new ≡ thread_state self.old) }
    {
        let events = self.events;
        let Some(event) = events.get(self.eaten) else {
            self.asks = Some(book);
            return Err(ThreadStop::Event);
        };
        if event.book != book {
            return Err(ThreadStop::Wrong);
        }
        Ok(event)
    }

    /// The next event is eaten.
    pub(crate) fn skip(&mut self)
        requires { self.old.eaten < length self.old.events.now }
        ensures { (e : SeenEvent) (es : List SeenEvent) → (thread_state self.old).todo ≡ e ∷ es → thread_state self.new ≡ with_todo es (thread_state self.old) }
    {
        self.eaten += 1;
    }

    /// What is given at the next event, which is eaten, but stays to come where turns don't suffice for it or it isn't allowed.
    pub(crate) fn eat(&mut self, given: Result<Value, ThreadStop>) -> Result<Value, ThreadStop>
        requires { self.old.eaten < length self.old.events.now }
        ensures same { result ≡ given }
        ensures eaten { Eats given (thread_state self.old) (thread_state self.new) }
    {
        match given {
            Ok(value) => {
                self.skip();
                Ok(value)
            }
            Err(ThreadStop::Turns) => Err(ThreadStop::Turns),
            Err(ThreadStop::Wrong) => Err(ThreadStop::Wrong),
            Err(stop) => {
                self.skip();
                Err(stop)
            }
        }
    }

    /// What a commit sends of these: an action's sends nothing, for they are held.
    pub(crate) fn commits<'b>(&self, sends: &'b [Action]) -> &'b [Action]
        ensures { result.now ≡ sends_of_commit (thread_state self.now).held sends.now }
    {
        match &self.held {
            Some(_) => &[],
            None => sends,
        }
    }

    /// These sends are held too, in an action.
    fn hold(&mut self, sends: &[Action]) -> Result<(), AllocError>
        ensures held { OnOk result (thread_state self.new ≡ holding sends.now (thread_state self.old)) }
        ensures kept { (thread_state self.new).todo ≡ (thread_state self.old).todo }
    {
        match &mut self.held {
            Some(held) => push_actions(held, sends),
            None => Ok(()),
        }
    }

    /// A transaction came to its end, and gives its result; an action holds its sends.
    pub(crate) fn note(&mut self, run: Transacted<'a>) -> Result<Value, ThreadStop>
        ensures value { MatchResult result (λ v. (v ≡ run.entry.result) × (thread_state self.new ≡ holding run.entry.work.done.sends (with_tx (tx_run run.entry) (thread_state self.old)))) (λ y. y ≡ Memory) }
        ensures kept { (thread_state self.new).todo ≡ (thread_state self.old).todo }
    {
        let Ok(value) = copy_value(&run.result) else {
            drop(run);
            return Err(ThreadStop::Memory);
        };
        let Ok(()) = self.hold(run.work.done.sends()) else {
            drop(value);
            drop(run);
            return Err(ThreadStop::Memory);
        };
        self.txs.push(run)?;
        Ok(value)
    }

    /// The same where it was refused.
    pub(crate) fn refuse(&mut self, run: Transacted<'a>, span: Span) -> Result<Value, ThreadStop>
        ensures value { AnswersAt result (thread_state self.new) (Faults (fault_at AgentFailed span) (with_tx (tx_run run.entry) (thread_state self.old))) }
        ensures kept { (thread_state self.new).todo ≡ (thread_state self.old).todo }
    {
        self.txs.push(run)?;
        Err(ThreadStop::Fault(Fault {
            kind: FaultKind::AgentFailed,
            span,
        }))
    }
}
