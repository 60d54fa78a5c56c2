//! What an actor asks the shared state, and what it is answered.

ghost use Rattle.std.specs.Prelude.{◌≡◌, ◌↔◌, IsTrue};
ghost use Rattle.txs_world_protocol.specs.Ask.{may_add_event, same_ask};
ghost use Rattle.txs_world_protocol.specs.declared.ask.Ask.{Ask as AnAsk};

use txs_value_cell::Action;
use txs_value_data::{CellId, Fault, Listed, Value};

/// One request of an actor to the shared state. Each place is a number of events of a book: `at` is the read point of the
/// transaction that asks, `view` the place of its last view, which is the read point where it has none. Refs are in ascending
/// number wherever there are several.
#[derive(Drop)]
pub enum Ask {
    /// A transaction begins.
    Begin,
    /// A transaction reads a ref of which it has no value of its own.
    Look {
        cell: CellId,
        at: u32,
    },
    /// A transaction's commute phase begins: the newest values of the refs that it commuted and didn't set.
    View {
        cells: Listed<CellId>,
    },
    /// A transaction ends: the refs that it set, with their values; those that it ensured; those that it commuted and didn't
    /// set, with what their commutes made of the values of the view; and the sends that it holds, in order.
    Commit {
        at: u32,
        sets: Listed<(CellId, Value)>,
        ensured: Listed<CellId>,
        view: u32,
        commuted: Listed<(CellId, Value)>,
        sends: Listed<Action>,
    },
    /// A transaction ends with a fault.
    Fail {
        at: u32,
        view: u32,
    },
    /// A read outside every transaction.
    Peek {
        cell: CellId,
    },
    /// A send outside every transaction.
    Send {
        action: Action,
    },
    /// An agent takes the first action of its mailbox.
    Take {
        agent: CellId,
    },
    /// An agent's action is over: its new state, or the fault, and the actions that it sends, in order.
    Finish {
        agent: CellId,
        new: Result<Value, Fault>,
        sends: Listed<Action>,
    },
    /// `swap!` begins with an atom's value.
    OpenAt {
        cell: CellId,
    },
    /// An atom gets a value, where it is as it was at a place of its book; without a place, in any case.
    CloseAt {
        cell: CellId,
        at: Option<u32>,
        new: Value,
    },
    /// The callee of a `swap!` faulted on the value that was opened at this place.
    Broke {
        cell: CellId,
        at: u32,
    },
}

impl Ask {
    /// Whether it may add an event to its book.
    pub fn may_add_event(&self) -> bool
        ensures { result ≡ may_add_event self.now }
    {
        match self {
            Ask::Begin | Ask::View { .. } | Ask::Take { .. } | Ask::OpenAt { .. } => false,
            _ => true,
        }
    }
}

/// The answer to a request.
#[derive(Drop)]
pub enum Reply {
    /// The read point: how many events the store's book has.
    At(u32),
    /// A value.
    Is(Value),
    /// The place of a view, and a value for each ref that was asked, in the same order.
    Views(u32, Listed<Value>),
    /// What was asked is done.
    Done,
    /// The transaction has to run again, since this ref was written after its read point.
    Retry(CellId),
    /// The commutes, or the swap, have to be made again, since this cell was written after it was viewed.
    Changed(CellId),
    /// The agent of a send has failed.
    AgentIsFailed(CellId),
    /// An action, which number of the agent's it is, counted from 1, and the agent's state.
    Action {
        number: u32,
        action: Action,
        state: Value,
    },
    /// The agent has no action to run.
    Idle,
    /// The place of an atom's book, and the atom's value there.
    Opened(u32, Value),
    /// The book has as many events as it may have.
    Full,
    /// There was no memory.
    Memory,
}

/// The law that the definitions' test of two asks answers true exactly where they are equal.
pub fn same_ask_is_equality()
    ensures { (a b : AnAsk) → IsTrue (same_ask a b) ↔ (a ≡ b) }
{}
