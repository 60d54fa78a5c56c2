//! Books of events: which are legal, and what they make of the cells, by definitions; the journal that holds one, and knows
//! where each actor is; the cells of a script as they open; and atoms, each with a book of its own. Promises that an atom
//! answers each ask as the replay of its book says, and that its book stays legal.
#![tactic(auto)]

pub mod atom;
pub mod cell;
pub mod journal;
pub mod law;
pub mod named;
pub mod written;

pub use atom::AtomBook;
pub use cell::{Cells, StoreCell, continues};
pub use journal::{Journal, stand_of};
pub use named::{
    are_sends, are_written, has_agent, has_cell, has_readable, has_ref, has_refs, may_send,
    sends_nothing,
};
pub use written::writes_to;
