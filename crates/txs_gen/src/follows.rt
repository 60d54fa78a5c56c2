//! The laws of a program's code: it follows the program, and the actions of its agents, and sends only what a program may send.

ghost use Rattle.txs_gen.specs.Agents.{AgentsFollow, CodeOfActionsBehaves};
ghost use Rattle.txs_gen.specs.CodeFollows.{CodeFollows, CodeOfProgramBehaves};
ghost use Rattle.txs_gen.specs.Sends.{CodeOfProgramSendsSound, SoundProgramSendsSound};

use txs_theorem_threads::{generated_follows, sound_follows_agents};

/// The code of a sound program does what its trees do, on any replies.
pub fn code_of_program_behaves()
    ensures { CodeOfProgramBehaves }
{}

/// The code of a sound program's functions does what an action means that the program may send, on any replies.
pub fn code_of_actions_behaves()
    ensures { CodeOfActionsBehaves }
{}

/// The code of a sound program follows it: on replies that fit a thread's events, the thread's meaning
/// eats those events with what the code printed, and ends as the code has.
pub fn code_of_program_follows()
    ensures { CodeFollows }
{
    generated_follows();
}

/// The code of a sound program's functions follows the actions of each agent: of an action that it took
/// the agent hands in the action's meaning and nothing else, and it does so where that meaning is there
/// for some bound on loops.
pub fn code_of_agents_follows()
    ensures { AgentsFollow }
{
    sound_follows_agents();
}

/// Each send of a sound program names a callee that isn't for transactions alone, and takes the agent's state and the arguments. Where each send of a
/// program does, by what is known of some functions, so does each send in its code: so what the code sends, a program may send.
pub fn code_of_program_sends_sound()
    ensures program { SoundProgramSendsSound }
    ensures code { CodeOfProgramSendsSound }
{}
