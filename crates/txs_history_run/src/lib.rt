//! Actors in one history, and the end of a run by workers. A [`LoggedActor`] follows the history by its code: it is where a run's actor
//! is that made the same asks there, and heard the same answers.
//!
//! Promises that the run is one by turns, where all actors and all logs are back, and the logs have as many asks as the actors
//! made. So what workers did is an interleaving.
#![tactic(auto)]

pub mod actor;
pub mod callees;
mod ending;
pub mod law;
mod step;

pub use actor::{AfterAsk, AfterReply, LoggedActor, Next};
pub use callees::sent_functions;
pub use ending::{Gathered, settle};
pub use law::settled_is_run;
pub use step::Step;
pub use txs_gate::Made;
