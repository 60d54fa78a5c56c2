//! When committed transactions are as if they had run one after the other; in which order the events of all books of a run came, and when
//! there is an order that fits. Nothing in this crate runs.
#![tactic(auto)]

ghost use Rattle.txs_theorem_serial.specs.Laws.{ActionsNote, CommitsSerial, CoveredIsSerial, OneForEach, RunsAreSerial, ThreadsNote};

mod order;

pub use order::{
    links_are_within, named_on_a_cycle, none_is_ordered, one_last_cut, some_is_not_ordered,
};

/// A covered transaction is serial.
pub fn covered_is_serial()
    ensures { CoveredIsSerial }
{}

/// Where a thread ends, waits, or needs more turns, each commit and refusal that it has eaten has its transaction.
pub fn threads_note()
    ensures { ThreadsNote }
{}

/// The same of an action that a program may send: it holds its sends, and its commits send nothing.
pub fn actions_note()
    ensures { ActionsNote }
{}

/// Of what a thread did each covered transaction is serial, at the place of its commit.
pub fn commits_serial()
    ensures { CommitsSerial }
{}

/// Where all transactions that were committed are covered, and there are no others, these do what the commits say, run one after the
/// other in the order of the commits: the writes, the sends and the wanted results. Each is that of one commit or refusal.
pub fn runs_are_serial()
    ensures { RunsAreSerial }
{}

/// One after the other, an actor has as many transactions as commits and refusals: none stands for two.
pub fn one_for_each()
    ensures { OneForEach }
{}
