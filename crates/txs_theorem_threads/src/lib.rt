//! What it is that code follows a program: after any number of turns, on replies that fit a thread's
//! events, the thread's meaning eats those events with what the code printed, and ends as the code has;
//! and all that the meaning prints the code prints, also where neither ends.
//! An agent's code hands in what an action means, and continues to run one that never ends.
//! Each law is the contract of a function of its own, which does nothing when it runs.
#![tactic(auto)]

ghost use Rattle.txs_theorem_threads.specs.ActionsBehave.{SoundFollowsAgents};
ghost use Rattle.txs_theorem_threads.specs.FollowsAll.{GeneratedFollows, SoundFollowsAll};
ghost use Rattle.txs_theorem_threads.specs.Follows.{PureIsMeant, SoundFollows, ThreadIsMeant, TransactionIsMeant};
ghost use Rattle.txs_theorem_threads.specs.RepliesFitTo.{FittingToFits, OneMoreFits};

/// Code that behaves as a sound thread's tree does on any replies follows the thread's meaning.
pub fn sound_code_follows()
    ensures { SoundFollows }
{}

/// No sound tree's meaning is invalid, whatever the bound on its loops: that of a thread on replies that fit events, that of a
/// transaction's body on a world of refs, and that of a pure callee, which gives a value or a fault or needs turns.
pub fn sound_is_meant()
    ensures thread { ThreadIsMeant }
    ensures transaction { TransactionIsMeant }
    ensures callee { PureIsMeant }
{}

/// Exchanges that fit events and end in some phase fit those events.
pub fn replies_fit()
    ensures { FittingToFits }
{}

/// Exchanges that fit events, and one more that fits further events in the phase after them, fit all
/// these events together.
pub fn one_more_fits()
    ensures { OneMoreFits }
{}

/// Where the code of each thread of a sound program behaves as the thread's tree does on any replies,
/// the code follows the program.
pub fn sound_follows_all()
    ensures { SoundFollowsAll }
{}

/// Where a generator makes code that behaves as a thread's tree does, what it makes of each thread of
/// a sound program follows the program.
pub fn generated_follows()
    ensures { GeneratedFollows }
{}

/// Code of sound functions that does what they mean where actions call them follows the actions of
/// each agent.
pub fn sound_follows_agents()
    ensures { SoundFollowsAgents }
{}
