//! The events of every run have an order, and an audit of a run's report never differs. Nothing in this crate runs.
#![tactic(auto)]

ghost use Rattle.txs_theorem_audit_runs.specs.Runs.{RunsAreExplained, RunsNeverDiffer};

mod order;

pub use order::runs_are_ordered;
use txs_theorem_audit::differs_is_not_explained;

/// The report of a run that a program explains is explained as an audit asks.
pub fn runs_are_explained()
    ensures { RunsAreExplained }
{
    runs_are_ordered();
}

/// An audit of it never differs.
pub fn runs_never_differ()
    ensures { RunsNeverDiffer }
{
    differs_is_not_explained();
    runs_are_explained();
}
