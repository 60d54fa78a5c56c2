//! The books of a report gone through once, event by event: whether each event may stand after those before it, and what they
//! make of the cells. What is found of the cells is kept with its indexes, so that it can be looked up at any index of a book.
//!
//! The pieces of an audit, as they are found: how an action and a thread ended. And an audit's terms and its answer, for those who ask for
//! one and for those who write of it.
#![tactic(auto)]

pub mod acts;
pub mod atom;
pub mod bounds;
pub mod endings;
pub mod ends;
pub mod finding;
mod inbox;
pub mod left;
pub mod numbers;
mod parts;
pub mod replay;
mod stands;
mod values;
pub mod verdict;

pub use acts::{ActionEnd, Stretch, act_ends, action_end, full_ends, still_ends};
pub use atom::go_through_atom;
pub use endings::{end_found, full_end};
pub use finding::Finding;
pub use replay::{Gone, Replay, go_through};
pub use verdict::{AuditError, Terms, Verdict};
