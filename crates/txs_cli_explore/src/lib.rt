//! All outcomes of a script: each with the lines and the status of its run, and a list of plays that comes to it. It is said whether there are others.
#![tactic(auto)]

mod changes;
pub mod explore;
pub mod law;
pub mod outcomes;
mod ways;
mod written;

pub use explore::explore_run;
pub use law::written_outcomes_are_all;
pub use outcomes::Outcome;
