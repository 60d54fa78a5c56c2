//! The law of the end of a run.

ghost use Rattle.txs_history_run.specs.Settled.{SettledIsRun};

use txs_history::history_is_run;

/// Where the actors follow one history, which has as many asks as they made, the report of the actors is that of a run by turns.
pub fn settled_is_run()
    ensures { SettledIsRun }
{
    history_is_run();
}
