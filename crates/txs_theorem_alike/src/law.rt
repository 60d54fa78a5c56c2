//! Laws of states that nobody can tell apart. Each law is the contract of a function of its own, which does nothing when it runs.

ghost use Rattle.txs_theorem_alike.specs.Actors.{ActorsRunAlike, RepliesAlike, StagedTakes, ToldAlike, TurnsAlike};
ghost use Rattle.txs_theorem_alike.specs.Anew.{AlikeStands, BeginsAnew, FailedTriesAreNothing};
ghost use Rattle.txs_theorem_alike.specs.Answers.{AlikeAnswerAlike};
ghost use Rattle.txs_theorem_alike.specs.Beginnings.{TurnKeepsStart};
ghost use Rattle.txs_theorem_alike.specs.Commits.{CommitsCommute, CommitsExchange};
ghost use Rattle.txs_theorem_alike.specs.Equal.{StatesBack, StatesItself, StatesOn};
ghost use Rattle.txs_theorem_alike.specs.Failures.{FewFailuresLeaveTries, RunActorsAreReady};
ghost use Rattle.txs_theorem_alike.specs.Free.{FailuresAreSeen, RunsGoFreely};
ghost use Rattle.txs_theorem_alike.specs.InStages.{AlikeHaveStages, StagesAreAlike};
ghost use Rattle.txs_theorem_alike.specs.Keys.{KeyIsExact, PointKeyIsExact, ViewKeyIsExact};
ghost use Rattle.txs_theorem_alike.specs.LeftOut.{TriesAreLeftOut};
ghost use Rattle.txs_theorem_alike.specs.Needed.{CountsAreNeeded, OrderIsNeeded, SendsAreNeeded, SinceIsNeeded, TriesTell, ViewsAreNeeded};
ghost use Rattle.txs_theorem_alike.specs.Renaming.{RunIsNatural, TurnIsNatural};
ghost use Rattle.txs_theorem_alike.specs.Retried.{RetriesOccur};
ghost use Rattle.txs_theorem_alike.specs.Safe.{AlikeRunsAskOn, AlikeRunsGoOn, CommitsOfRunsCommute, RetriesDontMatter, TurnsGoFreely};
ghost use Rattle.txs_theorem_alike.specs.Stages.{AsksKeepAlike};
ghost use Rattle.txs_theorem_alike.specs.States.{RunsKeepStates, TurnsKeepStates};
ghost use Rattle.txs_theorem_alike.specs.Swaps.{ChangedIsBack, SwapKeepsOpen};
ghost use Rattle.txs_theorem_alike.specs.Tries.{FailedTryLeavesNothing, OthersGoOn, TryIsUnseen};
ghost use Rattle.txs_theorem_alike.specs.TriesLeft.{TriesDontCount};
ghost use Rattle.txs_theorem_alike.specs.Turns.{TurnKeepsAlike};
ghost use Rattle.txs_theorem_alike.specs.Unnoticed.{LooksAreLeftOut};
ghost use Rattle.txs_theorem_alike.specs.Unseen.{AlikeAreDue, AlikeAreTold, AlikeBack, AlikeItself, AlikeOn, PlacesAreWithin, UnseenIsAlike};
ghost use Rattle.txs_theorem_alike.specs.Walks.{AlikeGoOnAlike, AsksKeepStates, WalksAreOwn};
ghost use Rattle.txs_theorem_alike.specs.Whole.{FailedTriesAreLeftOut};

use txs_theorem_runs::law::{every_ask_is_lawful, opening_holds, play_holds, standing_is_staged};

/// States that are alike answer alike, and stay alike.
pub fn alike_answer_alike()
    ensures { AlikeAnswerAlike }
{}

/// One request of an actor, in its stage, keeps all actors alike.
pub fn asks_keep_alike()
    ensures { AsksKeepAlike }
{}

/// A request that only looks or comes to nothing leaves a state that is alike.
pub fn unseen_is_alike()
    ensures { UnseenIsAlike }
{}

/// To be alike is an equivalence of what is shared, with places that are in the journals; and those of runs are.
pub fn alike_relates()
    ensures itself { AlikeItself }
    ensures back { AlikeBack }
    ensures on { AlikeOn }
    ensures within { PlacesAreWithin }
{}

/// The same agents may take an action, and they take the same.
pub fn alike_are_due()
    ensures { AlikeAreDue }
{}

/// Of states that are alike the same values and faults are told.
pub fn alike_are_told()
    ensures { AlikeAreTold }
{}

/// States and places with the same keys are alike.
pub fn keys_are_exact()
    ensures state { KeyIsExact }
    ensures point { PointKeyIsExact }
    ensures view { ViewKeyIsExact }
{}

/// A turn from other places comes to the same but for the places, and so do many turns.
pub fn turn_is_natural()
    ensures turn { TurnIsNatural }
    ensures run { RunIsNatural }
{}

/// While a transaction may run again, it doesn't count how many times.
pub fn tries_dont_count()
    ensures { TriesDontCount }
{}

/// From configurations that are the same but for places and tries, a turn comes to the same but for those: with a request that waits,
/// and with its reply.
pub fn turns_are_alike()
    ensures turn { TurnsAlike }
    ensures reply { RepliesAlike }
    ensures takes { StagedTakes }
    ensures told { ToldAlike }
{}

/// Actors of a run that are the same but for places and tries are so after a turn, where they are answered alike.
pub fn actors_run_alike()
    ensures { ActorsRunAlike }
{}

/// While fewer tries failed than a transaction may be run again, it may be run again; so the actors of runs are ready for their turns.
pub fn run_actors_are_ready()
    ensures left { FewFailuresLeaveTries }
    ensures ready { RunActorsAreReady }
{}

/// Where what is shared answers alike, a turn keeps all alike.
pub fn turn_keeps_alike()
    ensures { TurnKeepsAlike }
{}

/// To be alike is an equivalence of states of runs; it can also be said with the stage of each actor.
pub fn states_relate()
    ensures itself { StatesItself }
    ensures back { StatesBack }
    ensures on { StatesOn }
    ensures stages { AlikeHaveStages }
    ensures alike { StagesAreAlike }
{}

/// A turn of an actor keeps states of runs alike.
pub fn turns_keep_states()
    ensures { TurnsKeepStates }
{}

/// And so do many turns.
pub fn runs_keep_states()
    ensures { RunsKeepStates }
{
    play_holds();
}

/// A turn of a try leaves where it began as it was.
pub fn turn_keeps_start()
    ensures { TurnKeepsStart }
{}

/// Such a turn changes nothing for others, nor for where the actor begins; and turns of others keep that.
pub fn try_is_unseen()
    ensures own { TryIsUnseen }
    ensures others { OthersGoOn }
{}

/// A try that failed leaves nothing.
pub fn failed_try_leaves_nothing()
    ensures { FailedTryLeavesNothing }
{
    play_holds();
}

/// Where a transaction begins anew nothing is left of its tries.
pub fn begins_anew()
    ensures stands { AlikeStands }
    ensures begins { BeginsAnew }
    ensures nothing { FailedTriesAreNothing }
{
    play_holds();
}

/// So turns among which an actor tries in vain come to what they come to without these; any turns may follow.
pub fn failed_tries_are_left_out()
    ensures { FailedTriesAreLeftOut }
{
    play_holds();
}

/// And so from one state of a run.
pub fn tries_are_left_out()
    ensures { TriesAreLeftOut }
{
    play_holds();
}

/// A step of a swap leaves where it was opened as it was; and where its atom has changed it is back there.
pub fn swap_keeps_open()
    ensures steps { SwapKeepsOpen }
    ensures changed { ChangedIsBack }
{}

/// Turns of an actor that only look, and bring it back to where it was, may be left out: so a swap that is made again, and a loop that waits.
pub fn looks_are_left_out()
    ensures { LooksAreLeftOut }
{
    play_holds();
}

/// Commits on different refs are answered the same in either order, and nobody can tell which came first.
pub fn commits_exchange()
    ensures { CommitsExchange }
{}

/// So two actors that commit on different refs come to alike states in either order.
pub fn commits_commute()
    ensures { CommitsCommute }
{}

/// The same of runs of well-typed code, where it is enough that there is room in the journals and that no actor has too many retries: nothing
/// stops them; alike runs go on alike; commits on different refs commute; and retries do not matter.
pub fn runs_go_on_alike()
    ensures free { TurnsGoFreely }
    ensures alike { AlikeRunsGoOn }
    ensures commits { CommitsOfRunsCommute }
    ensures retries { RetriesDontMatter }
    ensures requests { AlikeRunsAskOn }
{
    opening_holds();
    play_holds();
    every_ask_is_lawful();
    standing_is_staged();
}

/// Without counts of writes, without what was written since a view, without held sends or the order of waiting actions, actors can tell
/// states apart that are the same in all else; and tries must not count.
pub fn each_part_is_needed()
    ensures counts { CountsAreNeeded }
    ensures since { SinceIsNeeded }
    ensures views { ViewsAreNeeded }
    ensures sends { SendsAreNeeded }
    ensures order { OrderIsNeeded }
    ensures tries { TriesTell }
{}

/// By a computed run: a transaction is tried, has to run again, and stands where it begins it anew.
pub fn retries_occur()
    ensures { RetriesOccur }
{}

/// Alike states go on alike: each actor goes on alone up to its next request, the same actors may go on, of them the same is told, and with
/// the request answered the states are alike again.
pub fn alike_go_on_alike()
    ensures one { AlikeGoOnAlike }
    ensures many { AsksKeepStates }
    ensures own { WalksAreOwn }
{
    play_holds();
}

/// Failed tries are in the journal of the store; so in a run of well-typed code an actor goes freely where there is room and few tries of it
/// failed.
pub fn runs_go_freely()
    ensures seen { FailuresAreSeen }
    ensures free { RunsGoFreely }
{
    every_ask_is_lawful();
}
