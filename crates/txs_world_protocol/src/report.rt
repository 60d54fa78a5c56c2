//! What is reported of a run.

use crate::event::{Event, Outcome, Place};
use txs_value_data::{Fault, Listed, Span, Value};

/// What an actor did.
#[derive(Drop)]
pub struct ActorReport {
    /// How it ended, if it has.
    pub outcome: Option<Outcome>,
    /// The bytes that it printed.
    pub printed: Vec<u8>,
    /// Where its events are, in the order in which it added them.
    pub trace: Vec<Place>,
    /// How many steps it made.
    pub steps: u64,
    /// Where in its script it was stopped, if it was: the span of the instruction that is next. There is none where it ended by itself, and none
    /// of an agent's actor between two actions.
    pub place: Option<Span>,
}

/// A report of a run, which needs nothing else: what each actor did, all events, and what the cells hold behind the run.
pub struct Report {
    /// What each thread did, by its number.
    pub threads: Vec<ActorReport>,
    /// What the actor of each agent did, in the order of the cells.
    pub agents: Vec<ActorReport>,
    /// The events of refs and agents.
    pub book: Vec<Event>,
    /// The events of each atom, in the order of the cells.
    pub atom_books: Vec<Listed<Event>>,
    /// The value of each cell, by its number; of an agent its state.
    pub cells: Vec<Value>,
    /// Of each agent, in the order of the cells, its fault if it has failed.
    pub failed: Vec<Option<Fault>>,
}

// Dropped by a call that is proved here, so that no crate above proves it again.
impl Drop for Report {
    fn drop(self) {
        let Report {
            threads,
            agents,
            book,
            atom_books,
            cells,
            failed,
        } = self;
        drop(threads);
        drop(agents);
        drop(book);
        drop(atom_books);
        drop(cells);
        drop(failed);
    }
}
