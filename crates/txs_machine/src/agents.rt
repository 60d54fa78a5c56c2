//! The agents of a run: their actors are behind those of the threads, and there are further rounds as long as one has something to do.

ghost use Rattle.std.specs.Prelude.{◌≡◌, ◌≤◌, ◌<◌, ◌+◌, ℕ, length, take, IfOk, IsTrue, Some, None, true, false};
ghost use Rattle.txs_value_cell.specs.Agents.{agents_from};
ghost use Rattle.txs_world_shared.specs.SharedState.{numbered_book};
ghost use Rattle.txs_value_cell.specs.declared.action.Action.{Action as AnAction};
ghost use Rattle.txs_value_cell.specs.Forms.{same_kind};
ghost use Rattle.txs_value_data.specs.declared.value.CellKind.TheVariants.{Agent as AnAgent};
ghost use Rattle.txs_world_book.specs.Book.{has_agent};
ghost use Rattle.txs_world_book.specs.Served.{cells_of};
ghost use Rattle.txs_world.specs.Store.{next_action};
ghost use Rattle.txs_machine.specs.Agents.{agents_of};
ghost use Rattle.txs_machine.specs.Plays.{AreOpenedFor};
ghost use Rattle.txs_machine.specs.RunOver.{IsStateOf};
ghost use Rattle.txs_machine.specs.Running.{AreAttending, AreIdle, IsWorking};

use crate::player::{AgentPlayer, Player};
use std::alloc::{AllocError, Global};
use txs_code_meaning::Verified;
use txs_machine_actor::Actor;
use txs_value_data::{CellId, CellKind};
use txs_world_shared::SharedState;

/// Whether cells of this kind are agents.
pub(crate) fn is_agent(kind: CellKind) -> bool
    ensures { result ≡ same_kind kind AnAgent }
{
    matches!(kind, CellKind::Agent)
}

/// The actor of the next cell, behind those of the cells before it, if the cell is an agent.
pub(crate) fn open_next(
    alloc: Global,
    code: &Verified,
    agents: &mut Vec<AgentPlayer>,
    cell: usize,
    threads: u16,
    max_steps: u64,
) -> Result<(), AllocError>
    requires there { cell < length code.now.cells }
    requires many { threads ≡ length code.now.threads }
    requires few { length code.now.threads + length code.now.cells ≤ 65535 }
    requires opened { AreOpenedFor code.now max_steps threads (agents_from 0 (take cell code.now.cells)) agents.old.items }
    ensures { IfOk result (λ _. AreOpenedFor code.now max_steps threads (agents_from 0 (take (cell + 1) code.now.cells)) agents.new.items) }
{
    let cells = code.code().cells();
    if !is_agent(cells[cell].kind) {
        return Ok(());
    }
    let agent = CellId {
        kind: CellKind::Agent,
        number: cell as u16,
    };
    let number = threads + agents.len() as u16;
    agents.reserve(1)?;
    let actor = Actor::agent(alloc, code, agent, number, max_steps)?;
    let player = Player {
        actor,
        trace: Vec::new(alloc),
    };
    agents.push_reserved(AgentPlayer { agent, player });
    Ok(())
}

/// Whether an agent's actor hasn't ended, and has something to do: the agent hasn't failed, and an action waits for it, or runs.
fn is_working(agent: &AgentPlayer, shared: &SharedState) -> bool
    requires { has_agent (cells_of shared.now.cells) agent.now.agent ≡ true }
    ensures unended { IsTrue result → agent.now.player.actor.outcome ≡ None }
    ensures yes { IsTrue result → (x : AnAction) × (next_action (cells_of shared.now.cells) (numbered_book shared.now 0) agent.now.agent ≡ Some x) }
    ensures no { result ≡ false → agent.now.player.actor.outcome ≡ None → next_action (cells_of shared.now.cells) (numbered_book shared.now 0) agent.now.agent ≡ None }
{
    if agent.player.actor.outcome().is_some() {
        return false;
    }
    if shared.failure(agent.agent).is_some() {
        return false;
    }
    shared.waiting(agent.agent) > 0
}

/// Whether a play of an agent's actor leaves something else: the actor hasn't ended, and has something to do, or no step left, so that it ends. Any
/// other is asked for nothing, since it would be answered that nothing waits, and stay as it is.
pub(crate) fn is_due(agent: &AgentPlayer, shared: &SharedState, max_steps: u64) -> bool
    requires { has_agent (cells_of shared.now.cells) agent.now.agent ≡ true }
    ensures unended { IsTrue result → agent.now.player.actor.outcome ≡ None }
    ensures no { result ≡ false → agent.now.player.actor.outcome ≡ None → next_action (cells_of shared.now.cells) (numbered_book shared.now 0) agent.now.agent ≡ None }
    ensures left { result ≡ false → agent.now.player.actor.outcome ≡ None → agent.now.player.actor.steps < max_steps }
    ensures yes { IsTrue result → agent.now.player.actor.steps < max_steps → (x : AnAction) × (next_action (cells_of shared.now.cells) (numbered_book shared.now 0) agent.now.agent ≡ Some x) }
{
    let actor = &agent.player.actor;
    if actor.outcome().is_some() {
        return false;
    }
    if actor.steps() >= max_steps {
        return true;
    }
    is_working(agent, shared)
}

/// Whether there is an agent whose actor hasn't ended and which has something to do.
pub(crate) fn is_any_working(agents: &[AgentPlayer], code: &Verified, shared: &SharedState) -> bool
    requires of { IsStateOf code.now shared.now }
    requires attending { (limit : ℕ) × (k : ℕ) × AreAttending code.now limit k (agents_of code.now) agents.now }
    ensures working { IsTrue result → (i : ℕ) × IsWorking code.now shared.now i agents.now }
    ensures idle { result ≡ false → AreIdle code.now shared.now agents.now }
{
    for i in 0..agents.len() {
        if is_working(&agents[i], shared) {
            return true;
        }
    }
    false
}
