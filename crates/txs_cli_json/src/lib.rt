//! Reports, refusals and audits as lines of JSON, each the text of an object and a newline.
#![tactic(auto)]

mod array;
pub mod audited;
mod event;
pub mod lines;
mod object;
mod places;
pub mod refused;
mod run;
mod spans;
mod value;

pub use audited::add_audit;
pub use lines::{add_end, add_ok, add_problem, add_run};
pub use refused::add_refusal;
