//! What an actor has done on its exchanges.

ghost use Rattle.txs_machine_actor.specs.Laws.{ActorsRun};

/// An actor has done what the machine does on the exchanges so far: no turn changes that, and an answer
/// adds its exchange, unless it has no action for an agent, which is no step.
pub fn actors_run()
    ensures { ActorsRun }
{}
