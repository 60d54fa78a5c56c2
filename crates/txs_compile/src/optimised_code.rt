//! Code of an optimised program follows the program from before: its threads, and the actions of its agents. Each law
//! is a function of its own, which does nothing when it runs.

ghost use Rattle.txs_compile.specs.Optimised.{BehavesBefore, OptimisedFollows, OptimisedFollowsAgents, OptimisedMeansSame, OptimisedSound};

use txs_theorem_threads::{sound_follows_agents, sound_follows_all};

/// An optimised program is sound.
pub fn optimised_is_sound()
    ensures { OptimisedSound }
{}

/// An optimised program means what the program from before means: its pure callees, its threads one by one, and the actions of its agents.
pub fn optimised_means_same()
    ensures { OptimisedMeansSame }
{}

/// Code that behaves as the optimised program's trees do on any replies behaves as the trees from before.
pub fn code_behaves_as_before()
    ensures { BehavesBefore }
{}

/// Code that behaves as the optimised program's trees do on any replies follows the sound program from before.
pub fn optimised_code_follows()
    ensures { OptimisedFollows }
{
    sound_follows_all();
}

/// Code that does what the optimised functions mean where actions call them follows the actions of each agent by the functions
/// from before.
pub fn optimised_code_follows_agents()
    ensures { OptimisedFollowsAgents }
{
    sound_follows_agents();
}
