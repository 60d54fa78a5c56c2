//! The events that books keep, and how an actor ends.

use txs_value_cell::Action;
use txs_value_data::{CellId, Fault, Listed, Value};

/// Why a transaction has to run again.
#[derive(Clone, Copy)]
pub enum Cause {
    /// The value that the ref had at the read point is no longer kept.
    Outdated,
    /// The ref was set or ensured, and written since the read point.
    Held,
    /// The ref was commuted, and written since the view: the commutes alone are made again. The transaction's read point.
    Commuted { at: u32 },
}

/// What an actor did to the shared state. Places are numbers of events of the same book. Swaps and broken swaps are in the book
/// of their atom, and so are its reads; all else is in the store's.
#[derive(Drop)]
pub enum EventKind {
    /// It read a cell outside every transaction.
    Read {
        cell: CellId,
    },
    /// A transaction with this read point and last view gave these refs these values, by ascending number, and sent these
    /// actions, in order.
    Commit {
        at: u32,
        view: u32,
        writes: Listed<(CellId, Value)>,
        sends: Listed<Action>,
    },
    /// A transaction has to run again, or its commutes alone: the ref was written at `since` or later. That is the read point; where the commutes
    /// alone are made again it is the view.
    Retry {
        since: u32,
        cell: CellId,
        cause: Cause,
    },
    /// A transaction with this read point and last view ended with a fault.
    Fail {
        at: u32,
        view: u32,
    },
    /// A transaction with this read point and last view wrote nothing, since it held a send to an agent that has failed.
    Refused {
        at: u32,
        view: u32,
        agent: CellId,
    },
    /// It sent an action outside every transaction.
    Send {
        action: Action,
    },
    /// It would have sent an action to an agent that has failed.
    SendRefused {
        agent: CellId,
    },
    /// An agent ran an action, the so many-th of its own, counted from 1: its new state, or the fault, and the actions that it
    /// sent, in order.
    Act {
        agent: CellId,
        number: u32,
        new: Result<Value, Fault>,
        sends: Listed<Action>,
    },
    /// The atom got a value.
    Swap {
        new: Value,
    },
    /// The callee of a `swap!` faulted on the atom's value at this place.
    Broke {
        at: u32,
    },
}

/// An event: which actor did what. Threads are numbered from 0 in script order, agents after them.
pub struct Event {
    pub actor: u16,
    pub kind: EventKind,
}

// Dropped by a call that is proved here, so that no crate above proves it again.
impl Drop for Event {
    fn drop(self) {
        let Event { actor: _, kind } = self;
        drop(kind);
    }
}

/// Where an event is: the number of its book, 0 for the store's and n for that of the n-th atom in the order of the
/// cells, and its index there.
#[derive(Clone, Copy)]
pub struct Place {
    pub book: u32,
    pub at: u32,
}

/// How an actor ends.
#[derive(Clone, Copy, PartialEq, Eq)]
pub enum Outcome {
    /// It has done all that its script says.
    Done,
    /// A form faulted.
    Failed(Fault),
    /// It has taken as many steps as it may.
    StepsSpent,
    /// A book has as many events as it may have.
    JournalFull,
    /// There was no memory.
    Memory,
}
