//! The events of every run have an order. Nothing in this crate runs.

ghost use Rattle.txs_theorem_audit_runs.specs.OrderedRuns.{RunsAreOrdered};

/// The events of every list of plays have an order that fits the traces of its actors.
pub fn runs_are_ordered()
    ensures { RunsAreOrdered }
{}
