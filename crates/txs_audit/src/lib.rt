//! Whether a program's source explains a report of a run: a check that trusts neither the machine nor the compiler. `audit` answers
//! the verdict of txs_theorem_audit, whatever the number of workers.
//!
//! So the laws of that verdict hold of its answer. `agrees_is_explained` (txs_theorem_audit): a program explains each report on which
//! its audit agrees. `serial_is_one_by_one`: if `serial` is true there, the program's own transactions, run one after the other, do
//! what the commits say. `differs_is_not_explained`: a program explains no report on which its audit differs. `runs_never_differ`
//! (txs_theorem_audit_runs): an audit of the report of a run that a program explains never differs.
#![tactic(auto)]

pub mod auditing;
mod joining;
mod judging;
mod order;
mod parts;
pub mod pieces;
mod verdict;
mod workers;

pub use auditing::{audit, audit_gated};
pub use txs_audit_book::{AuditError, Terms, Verdict};
