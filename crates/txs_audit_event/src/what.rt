//! What differs.

use txs_value_cell::Action;
use txs_value_data::{CellId, Fault, Listed, Span, Value};
use txs_world_protocol::Outcome;

/// What differs. What is expected is what the text gives, or what the books do; what is found is what the report says.
#[derive(Drop)]
pub enum What {
    /// The report hasn't one entry for each thread, agent, atom and cell.
    Sizes,
    /// The trace doesn't name the actor's events of the books there, each book's in order.
    Trace,
    /// The event at this index of this book may not stand there, behind those before it. Book 0 is the store's, n the n-th atom's.
    Illegal {
        book: usize,
        at: usize,
    },
    /// The cell doesn't have the value that its book leaves it. Actor and event name nothing.
    Cell {
        cell: CellId,
        expected: Value,
        found: Value,
    },
    /// The agent hasn't failed so as the store's book says, or not at all. Actor and event name nothing.
    Failure {
        agent: CellId,
        expected: Option<Fault>,
        found: Option<Fault>,
    },
    /// The run was to go on up to its end, and the actor hasn't ended, though it has something to do.
    Left,
    /// The actor was stopped for its steps, and has made so many; as many as are expected it might have made.
    Steps {
        expected: u64,
        found: u64,
    },
    /// The actor was stopped for a full book, and the text needs an event of this book there, which has so many events and isn't full;
    /// or it needs none.
    NotFull {
        book: Option<usize>,
        events: usize,
    },
    /// The event comes before itself.
    Order,
    /// The actor printed another line. The first one that differs has this number, counted from 0; none where there is no such line.
    Line {
        number: usize,
        expected: Option<Listed<u8>>,
        found: Option<Listed<u8>>,
    },
    /// The actor ended otherwise; none where it hasn't ended by itself.
    Ended {
        expected: Option<Outcome>,
        found: Option<Outcome>,
    },
    /// What the text says was over before this event, and ended so.
    Over {
        ended: Outcome,
    },
    /// The transaction of the `dosync` at this place wrote another value to the ref, or wrote it where it doesn't, or not.
    Wrote {
        cell: CellId,
        expected: Option<Value>,
        found: Option<Value>,
        span: Span,
    },
    /// Another action was sent by the `dosync` or the action at this place. The first one that differs has this number, counted from 0.
    Sends {
        number: usize,
        expected: Option<Action>,
        found: Option<Action>,
        span: Span,
    },
    /// The transaction of the `dosync` at this place set the ref, or else ensured it, and the event at this index of the store's book wrote it
    /// since its read point.
    Disturbed {
        cell: CellId,
        set: bool,
        by: usize,
        span: Span,
    },
    /// The transaction of the `dosync` at this place was refused for another agent than the first of its sends that had failed.
    Refusal {
        expected: Option<CellId>,
        found: CellId,
        span: Span,
    },
    /// The `dosync` at this place had to run again for a ref, but its body didn't set, ensure, commute or read it so.
    Cause {
        cell: CellId,
        span: Span,
    },
    /// The text faults so where the event says otherwise.
    Faults {
        fault: Fault,
    },
    /// The `dosync` at this place doesn't fault where the event says that it does.
    NoFault {
        span: Span,
    },
    /// The text's next event is the end of a transaction, that of the `dosync` at this place.
    Dosync {
        span: Span,
    },
    /// The `send` at this place sends another action to the agent.
    Sent {
        span: Span,
    },
    /// The text's next event is another one, of this book if it needs one.
    Event {
        book: Option<usize>,
    },
    /// An action came to another value or fault.
    Gave {
        expected: Result<Value, Fault>,
        found: Result<Value, Fault>,
    },
    /// An action isn't over where its act says that it is: it needs an event more.
    Unfinished,
    /// No action waits, but the agent's actor has done or printed something, or was stopped for a full book.
    Idle,
}
