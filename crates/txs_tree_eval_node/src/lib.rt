//! The evaluation of trees, for tests: what a node gives in a setting (the cells and functions that there are, how many turns
//! loops may make, and the world of a transaction, if one runs) from a state (the thread's events that are left, what it printed
//! and its transactions; in a transaction what that has done). The public calls are on it, in txs_tree_eval.
#![tactic(auto)]

mod closing;
pub mod context;
pub mod evaluate;
pub mod seen;
mod shape;
pub mod state;
mod thread;

pub use context::Context;
pub use seen::Seen;
pub use state::{Progress, State, Transacted};
