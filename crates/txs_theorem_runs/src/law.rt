//! What the sources of threads say of runs over what they share. Each law is the contract of a function of its own, which does nothing when it
//! runs.

ghost use Rattle.txs_theorem_runs.specs.Agents.{RunActsMean};
ghost use Rattle.txs_theorem_runs.specs.Explains.{RunExplained, ProgramExplained};
ghost use Rattle.txs_theorem_runs.specs.Full.{RunStops, RunWaits, RunFullStops};
ghost use Rattle.txs_theorem_runs.specs.Invariant.{OpeningHolds, PlayHolds, InvariantExplains};
ghost use Rattle.txs_theorem_runs.specs.Lawful.{RunAsksLawful, TypedStands, TypedActorsStand};
ghost use Rattle.txs_theorem_runs.specs.Laws.{ToldFits, ServedIsTold, OthersLeaveTold, AloneHistory};
ghost use Rattle.txs_theorem_runs.specs.Printed.{RunPrints};
ghost use Rattle.txs_theorem_runs.specs.Refused.{RunRefusals};
ghost use Rattle.txs_theorem_runs.specs.Report.{RunTraced, RunReported, TypedAreStaged};
ghost use Rattle.txs_theorem_runs.specs.Standing.{StandingIsStaged};

use txs_theorem_threads::replies_fit;
use txs_world::law::{action_stays, done_is_undisturbed, refused_is_undisturbed, serve_keeps};
use txs_world_book::law::{history_of_whole, unwritten_stays};

/// Every run is explained: its books are legal, each commit was undisturbed, and each source that an actor's code follows means just
/// what the actor did, with what it printed and how it ended.
pub fn every_run_is_explained()
    ensures { RunExplained }
{
    unwritten_stays();
    serve_keeps();
    done_is_undisturbed();
    replies_fit();
}

/// Each program that the code follows explains every run of the code.
pub fn every_program_explains_its_runs()
    ensures { ProgramExplained }
{
    unwritten_stays();
    serve_keeps();
    done_is_undisturbed();
    replies_fit();
}

/// Each actor, also one that was stopped, has printed at least what each source that its code follows
/// means on all that the actor did but the last.
pub fn every_actor_has_printed()
    ensures { RunPrints }
{
    unwritten_stays();
    serve_keeps();
    done_is_undisturbed();
    replies_fit();
}

/// Where the constants of all code and the opening values name defined cells alone, and each agent's code its own agent, every ask of a
/// thread or an agent whose instructions are where they may be is lawful. So it is not stopped for what it asks.
pub fn every_ask_is_lawful()
    ensures { RunAsksLawful }
{
    serve_keeps();
}

/// Code whose instructions are where they may be asks at most once a turn, and each ask comes in its stage.
pub fn standing_is_staged()
    ensures { StandingIsStaged }
{}

/// The instructions of each thread of well-typed code are where they may be.
pub fn typed_stands()
    ensures { TypedStands }
{}

/// So do those of each actor's code, also of one that no thread has.
pub fn typed_actors_stand()
    ensures { TypedActorsStand }
{}

/// So the code of each thread and each agent of well-typed code asks at most once a turn, and each ask comes in its stage.
pub fn typed_threads_are_staged()
    ensures { TypedAreStaged }
{}

/// What holds between the plays of a run holds before the first.
pub fn opening_holds()
    ensures { OpeningHolds }
{}

/// Each play keeps what holds between plays.
pub fn play_holds()
    ensures { PlayHolds }
{
    serve_keeps();
}

/// Where this holds, the run so far is explained.
pub fn invariant_explains()
    ensures { InvariantExplains }
{
    unwritten_stays();
    done_is_undisturbed();
    replies_fit();
}

/// What an actor was answered fits what it did.
pub fn told_fits()
    ensures { ToldFits }
{
    unwritten_stays();
}

/// An ask in its stage, answered by what is shared: with this entry behind them, the actor's entries agree with the books after it.
pub fn served_is_told()
    ensures { ServedIsTold }
{}

/// What another actor adds to the books leaves what an actor was answered.
pub fn others_leave_told()
    ensures { OthersLeaveTold }
{}

/// Of an actor that has the store for itself, what it did is what the store's book says of it.
pub fn alone_history()
    ensures { AloneHistory }
{
    history_of_whole();
}

/// What each agent's actor did means what its actions mean: of each act the first in its mail, on the state that the agent found and on
/// what its actor did since the act before it, with what was printed and what it sends. What all code sends a program may send. An agent
/// never ends. Where its next instruction asks what may add an event, its action needs an event of the book that answers, or is over as it is
/// handed in.
pub fn every_action_means()
    ensures { RunActsMean }
{
    unwritten_stays();
    serve_keeps();
    done_is_undisturbed();
    refused_is_undisturbed();
    action_stays();
    replies_fit();
}

/// What a transaction set or ensured wasn't written before its commit was refused, nor what it commuted since its view; the agent is that
/// of its first held send whose agent has failed.
pub fn every_refusal_is_undisturbed()
    ensures { RunRefusals }
{
    refused_is_undisturbed();
    serve_keeps();
}

/// What each actor was answered, the books say, and its trace names its own events and no others, whatever its code asks.
pub fn every_trace_holds()
    ensures { RunTraced }
{
    serve_keeps();
}

/// A program explains all that its threads and its agents did in one run.
pub fn every_report_is_explained()
    ensures { RunReported }
{
    unwritten_stays();
    serve_keeps();
    done_is_undisturbed();
    refused_is_undisturbed();
    action_stays();
    replies_fit();
}

/// An actor that was stopped for a full book is at an ask that may add an event to a book which is full, where no play itself says that a book is full.
pub fn every_full_stop_is_true()
    ensures { RunStops }
{
    serve_keeps();
}

/// Where an actor's next instruction asks, each source that its code follows needs an event of the book that answers the ask. It has eaten all that the
/// actor did, and printed what the actor printed.
pub fn every_ask_is_waited_for()
    ensures { RunWaits }
{
    unwritten_stays();
    serve_keeps();
    done_is_undisturbed();
    replies_fit();
}

/// A program says of each actor that is at an ask whose book is full that it needs an event of a full book. Its meaning has eaten all that the actor did,
/// and printed just what the actor printed. An agent's action may also be over, and is to be handed in to the store's book, which is full.
pub fn every_full_stop_is_explained()
    ensures { RunFullStops }
{
    unwritten_stays();
    serve_keeps();
    done_is_undisturbed();
    refused_is_undisturbed();
    action_stays();
    replies_fit();
}
