//! What actors ask of the shared state, what they are answered, and what a book keeps of it: asks, replies,
//! events, how a run ends, and what is reported of it. Each is plain data to every contract, and a copy is equal to what it was
//! made of.
#![tactic(auto)]

pub mod ask;
pub mod copy;
pub mod event;
pub mod report;
pub mod same;

pub use ask::{Ask, Reply};
pub use copy::{copy_ask, copy_event, copy_reply, copy_writes};
pub use event::{Cause, Event, EventKind, Outcome, Place};
pub use report::{ActorReport, Report};
pub use same::{
    same_action, same_actions, same_cell, same_fault, same_new, same_value, same_values,
    same_write, same_writes,
};
