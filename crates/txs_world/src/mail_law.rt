//! Laws of calls in a row. Each is the contract of a function of its own, which does nothing when it runs.

ghost use Rattle.txs_world.specs.Calls.{EachOnceInOrder, FailedRunsNothing};

/// What an agent ran, and behind it what waits, is what was put into its mailbox: each action once, in order.
pub fn each_once_in_order()
    ensures { EachOnceInOrder }
{}

/// An agent that has failed runs nothing more, and what waits stays.
pub fn failed_runs_nothing()
    ensures { FailedRunsNothing }
{}
