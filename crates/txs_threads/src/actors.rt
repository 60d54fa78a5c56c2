//! The actors of a code before their first turns: one for each thread, and behind them one for each agent.

ghost use Rattle.std.specs.Prelude.{◌≡◌, ◌<◌, ◌≤◌, ◌+◌, length, IfOk};
ghost use Rattle.txs_machine_actor.specs.PlainActor.{Lives};
ghost use Rattle.txs_machine_actor.specs.Turns.{IsNew};
ghost use Rattle.txs_machine.specs.Agents.{agents_of};
ghost use Rattle.txs_history_run.specs.Callees.{AreCallees};

use crate::scheduler::{Actors, agent_at};
use std::alloc::{AllocError, Global};
use txs_code_meaning::Verified;
use txs_history::{Asked, Past, Run};
use txs_history_run::LoggedActor;
use txs_machine_actor::Actor;
use txs_value_cell::list_agents;
use txs_value_data::CellId;

/// The agents of the code, in the order of its cells.
pub(crate) fn agents_in(alloc: Global, code: &Verified) -> Result<Vec<CellId>, AllocError>
    requires few { length code.now.cells ≤ 65535 }
    ensures { IfOk result (λ v. v.items ≡ agents_of code.now) }
{
    let cells = code.code().cells();
    list_agents(alloc, cells)
}

/// The actor with this number before its first turn: those of threads come first, and behind them those of these agents.
fn actor_at(
    alloc: Global,
    code: &Verified,
    agents: &[CellId],
    threads: u16,
    number: u16,
    max_steps: u64,
) -> Result<Actor, AllocError>
    requires agents { agents.now ≡ agents_of code.now }
    requires many { threads ≡ length code.now.threads }
    requires there { number < threads + length agents.now }
    ensures new { IfOk result (λ a. IsNew code.now number max_steps a) }
    ensures lives { IfOk result (λ a. Lives code.now a) }
{
    if number < threads {
        return Actor::thread(alloc, code, number, max_steps);
    }
    let agent = agent_at(agents, threads, number);
    Actor::agent(alloc, code, agent, number, max_steps)
}

/// All actors, before their first turns, the last one first: those of threads are ready, and those of agents are parked, since nothing waits for them yet.
#[tactic(auto, using(txs_history_run::proofs::On::renewed))]
pub(crate) fn open_all<'a, J: Run>(
    actors: &mut Actors<LoggedActor<'a, J>>,
    alloc: Global,
    code: &'a Verified,
    callees: &'a [bool],
    agents: &[CellId],
    threads: u16,
    max_steps: u64,
    past: &Past<Asked, J>,
) -> Result<(), AllocError>
    requires code { code.now ≡ J.code }
    requires limit { max_steps ≡ J.limit }
    requires callees { AreCallees code.now callees.now }
    requires agents { agents.now ≡ agents_of code.now }
    requires many { threads ≡ length code.now.threads }
    requires few { length code.now.threads + length code.now.cells ≤ 65535 }
{
    let many = threads + agents.len() as u16;
    actors.make_room(usize::from(many), code.code().cells().len())?;
    for k in 0..many {
        let number = many - 1 - k;
        let actor = actor_at(alloc, code, agents, threads, number, max_steps)?;
        let logged = LoggedActor::new(alloc, code, callees, actor, past.again());
        actors.add(agents, threads, number, logged);
    }
    Ok(())
}
