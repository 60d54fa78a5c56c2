//! Actors that several worker threads run over one shared state: the store under a lock, and each atom under a lock of its own. Promises that what
//! the workers did is an interleaving, and that each program that the code follows explains the report.
#![tactic(auto)]

mod actors;
mod atoms;
mod left;
mod merge;
pub mod record;
mod run;
mod runnable;
mod scheduler;

pub use record::Recorder;
pub use run::run_threads;
pub use txs_gate::{AskKind, Gate, Made, Moment, OpenGate};
pub use txs_history_run::Gathered;
pub use txs_machine::RunError;
