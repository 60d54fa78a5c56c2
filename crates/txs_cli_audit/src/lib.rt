//! What is told of an audit behind what is told of its run: the line of its answer, what explains it, and the status. Who audits is lent as a
//! closure; what is told is the verdict of the definitions, or why there is none.
#![tactic(auto)]

mod differs;
mod event;
mod explain;
pub mod told;

pub use explain::{Audited, reason_of};
pub use told::{add_answer, add_audit, status_of};
