//! The store: the refs and agents that threads share, and the book of what actors did to them. Promises that each ask is
//! answered as the replay of its book says, and that the book stays legal.
//!
//! The mailboxes of its agents are lists of actions whose first may be taken: actions come out in the order in which they were
//! put in, each once. A failed mailbox gives none, and keeps what it has.
#![tactic(auto)]

mod commit;
mod inbox;
pub mod law;
mod lawful;
mod mail;
pub mod mail_law;
pub mod mailbox;
mod serve;
mod slot;
pub mod store;

pub use commit::least;
pub use mailbox::Mailbox;
pub use slot::{are_apart, place_for};
pub use store::Store;
pub use txs_value_cell::Action;
pub use txs_world_book::AtomBook;
pub use txs_world_protocol::{Ask, Event, EventKind, Reply};
