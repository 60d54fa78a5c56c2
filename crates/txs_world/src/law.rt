//! Laws of what the store answers. Each is the contract of a function of its own, which does nothing when it runs.

ghost use Rattle.txs_world.specs.Laws.{ServeKeeps, DoneIsUndisturbed, RefusedIsUndisturbed, ActionStays};

/// What the store does keeps its book legal, its commits undisturbed, and each action that is taken waiting.
pub fn serve_keeps()
    ensures { ServeKeeps }
{}

/// What a transaction set or ensured wasn't written between its read point and its commit, nor what it commuted between its view
/// and its commit.
pub fn done_is_undisturbed()
    ensures { DoneIsUndisturbed }
{}

/// The same of a transaction that is refused for an agent that has failed; the agent is that of its first send whose agent has.
pub fn refused_is_undisturbed()
    ensures { RefusedIsUndisturbed }
{}

/// The action that an agent runs next stays so, with its number and the agent's state, until the agent has run one.
pub fn action_stays()
    ensures { ActionStays }
{}
