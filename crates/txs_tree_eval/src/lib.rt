//! Evaluators of programs as trees, for tests: what runs is the machine. `eval_thread` answers exactly the thread meaning on a
//! list of events, each with its worlds: its printed bytes, what it needs, how it ends, how many events it ate, and what is
//! told of its transactions; `eval_action` answers the same of an action, and the sends that it holds. `eval_tx` answers
//! exactly the meaning of a transaction's body on one world of refs, and `eval_pure` the pure meaning of a callee.
#![tactic(auto)]

pub mod action;
pub mod meaning;
pub mod pure_call;
pub mod transaction;

pub use action::{ActionMeaning, eval_action};
pub use meaning::{Needs, ThreadMeaning, eval_thread};
pub use pure_call::{EvalStop, eval_pure, more_turns_change_no_answer};
pub use transaction::{TxMeaning, eval_tx};
pub use txs_tree_eval_node::Seen;
pub use txs_tree_eval_transaction::{History, RefView};
