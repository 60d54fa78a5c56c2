//! What a search through the schedules of a script's threads and agents says of all its runs. Nothing in this crate runs.

ghost use Rattle.txs_explore.specs.SearchLaws.{AsksAreAlike, BelowIsWithin, EndsAreOver, FewAreFound, FewAreRuns, RunsAreFound, RunsComeByAsks, SearchesAgree, TurnsArePlays, WaysAreRuns};

use txs_theorem_runs::law::{every_ask_is_lawful, opening_holds, play_holds};
use txs_world::law::serve_keeps;

/// Where the search went everywhere, each run that comes to an end has one of the outcomes that it found.
pub fn runs_are_found()
    ensures { RunsAreFound }
{}

/// Each outcome that it found is that of the run by the asks beside it.
pub fn ways_are_runs()
    ensures { WaysAreRuns }
{}

/// Where the search with few switches went everywhere, each schedule with no more switches that comes to an end has one of the outcomes that
/// it found.
pub fn few_are_found()
    ensures { FewAreFound }
{}

/// Each outcome that it found is that of the run by the asks beside it, which have no more switches.
pub fn few_are_runs()
    ensures { FewAreRuns }
{}

/// Each run, instruction by instruction, comes to where a list of asks comes to.
pub fn runs_come_by_asks()
    ensures { RunsComeByAsks }
{}

/// A turn by asks is the actor's plays up to and with its next ask.
pub fn turns_are_plays()
    ensures { TurnsArePlays }
{}

/// States that differ in instructions alone can't be told apart by asks, and asks that are apart may be exchanged.
pub fn asks_are_alike()
    ensures { AsksAreAlike }
{}

/// Searches from such states find the same.
pub fn searches_agree()
    ensures { SearchesAgree }
{}

/// Where no thread goes on, and no agent has an action to take, nobody may go on.
pub fn ends_are_over()
    ensures { EndsAreOver }
{
    serve_keeps();
    every_ask_is_lawful();
    opening_holds();
    play_holds();
}

/// Turns behind which each actor is below its limit are within the limit.
pub fn below_is_within()
    ensures { BelowIsWithin }
{}
