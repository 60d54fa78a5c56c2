//! What the outcomes that are written say of runs by workers. Nothing here runs.

ghost use Rattle.txs_cli_explore.specs.Laws.{WrittenOutcomesAreAll};

use txs_explore::workers_are_listed;

/// Where it is written that the search went everywhere, each run by workers that came to its end below the limit has one of the outcomes that are written.
pub fn written_outcomes_are_all()
    ensures { WrittenOutcomesAreAll }
{
    workers_are_listed();
}
