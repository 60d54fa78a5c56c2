//! What an audit's answer says of a report, and what it finds of threads and actions by what the evaluators answer. Nothing in this
//! crate runs.
#![tactic(auto)]

ghost use Rattle.txs_theorem_audit.specs.Examples.{
  ChangedIsAnswered,
  CountsAreAnswered,
  CrossedIsAnswered,
  EntriesAreAnswered,
  EventsAreAnswered,
  RefusedIsAnswered,
  SkewIsAnswered,
  TwoAreAnswered,
  UnfinishedIsAnswered,
};
ghost use Rattle.txs_theorem_audit.specs.Laws.{AgreesIsExplained, DiffersIsNotExplained, ExplainedActionsAreSerial, ExplainedIsSerial, SerialIsOneByOne, WrongStays, WrongStaysInActions};
ghost use Rattle.txs_theorem_audit.specs.NotSerial.{SkewIsNotOneByOne};
ghost use Rattle.txs_theorem_audit.specs.Pieces.{HalvesAreWhole, PiecesAreAll};
ghost use Rattle.txs_theorem_audit.specs.Stays.{ActionStays, RestStays, ThreadStays};

mod answered;

pub use answered::{
    act_is_answered, action_is_answered, calm_is_answered, covered_is_answered, end_is_answered,
    full_is_answered, least_is_answered, noted_are_answered, rest_full_is_answered,
    still_is_answered,
};
use txs_theorem_serial::{named_on_a_cycle, none_is_ordered, some_is_not_ordered};

/// A program explains a report on which an audit agrees.
pub fn agrees_is_explained()
    ensures { AgreesIsExplained }
{
    none_is_ordered();
    named_on_a_cycle();
}

/// No sound program explains a report on which an audit differs.
pub fn differs_is_not_explained()
    ensures { DiffersIsNotExplained }
{
    some_is_not_ordered();
}

/// Each covered commit of a report that a sound program explains is serial.
pub fn explained_is_serial()
    ensures { ExplainedIsSerial }
{}

/// So is each covered commit of an action.
pub fn explained_actions_are_serial()
    ensures { ExplainedActionsAreSerial }
{}

/// Where an audit agrees and says that all commits are covered, they are. The program's own transactions, run one after the other in
/// the order of the store's book, then give the writes, the sends and the wanted results of the commits.
pub fn serial_is_one_by_one()
    ensures { SerialIsOneByOne }
{}

/// Reports of a thread that counts to three are answered right, with few turns and with enough.
pub fn counts_are_answered()
    ensures { CountsAreAnswered }
{}

/// Reports of two threads that count one ref are answered right.
pub fn two_are_answered()
    ensures { TwoAreAnswered }
{}

/// Write skew is explained and not serial; where both refs are ensured it differs.
pub fn skew_is_answered()
    ensures { SkewIsAnswered }
{}

/// The commits of write skew aren't what the program's own transactions do, one after the other.
pub fn skew_is_not_one_by_one()
    ensures { SkewIsNotOneByOne }
{}

/// A report in which a written number was changed differs at its event.
pub fn changed_is_answered()
    ensures { ChangedIsAnswered }
{}

/// What a sound thread doesn't allow on a beginning of its events, it doesn't allow on all of them.
pub fn wrong_stays()
    ensures { WrongStays }
{}

/// The same of an action that a program may send.
pub fn wrong_stays_in_actions()
    ensures { WrongStaysInActions }
{}

/// A report in which one event was changed differs at it.
pub fn events_are_answered()
    ensures { EventsAreAnswered }
{}

/// A report in which one entry was changed differs there.
pub fn entries_are_answered()
    ensures { EntriesAreAnswered }
{}

/// A value that a validator refuses isn't written; a report in which it was written differs.
pub fn refused_is_answered()
    ensures { RefusedIsAnswered }
{}

/// A thread that hasn't ended, or was stopped for no reason, is answered right.
pub fn unfinished_is_answered()
    ensures { UnfinishedIsAnswered }
{}

/// Two threads of which each read an atom before the other set it, and set its own before, differ; where one read comes behind, they agree.
pub fn crossed_is_answered()
    ensures { CrossedIsAnswered }
{}

/// The last tests may be gone through by halves.
pub fn halves_are_whole()
    ensures { HalvesAreWhole }
{}

/// Where the tests before find nothing, the verdict is what is found of all pieces.
pub fn pieces_are_all()
    ensures { PiecesAreAll }
{}

/// What is found of a thread with some turns of each loop is found with more.
pub fn thread_stays()
    ensures { ThreadStays }
{}

/// So is what is found of an action that is over, and what it prints.
pub fn action_stays()
    ensures { ActionStays }
{}

/// So is what is found behind an agent's last act.
pub fn rest_stays()
    ensures { RestStays }
{}
