//! Runs up to some asks, made again from the beginning: what actors run on can't be copied.

ghost use Rattle.std.specs.Prelude.{◌≡◌, ◌≤◌, ◌<◌, ◌+◌, ◌-◌, ◌^◌, ◌++◌, ◌∷◌, ℕ, List, [], length, false, IfOk, OnOk, Some, None};
ghost use Rattle.txs_value_data.specs.Places.{nth};
ghost use Rattle.txs_world_protocol.specs.declared.event.Outcome.TheVariants.{Memory};
ghost use Rattle.txs_explore.specs.Runners.{many};
ghost use Rattle.txs_machine.specs.Running.{attendants};
ghost use Rattle.txs_machine.specs.declared.player.Player.{Player as APlayer};
ghost use Rattle.txs_explore.specs.Told.{explored};
ghost use Rattle.txs_explore.specs.Looked.{IsStageAt};
ghost use Rattle.txs_explore.specs.Node.{AreBelow};

use std::alloc::{AllocError, Global};
use txs_code_meaning::Verified;
use txs_machine::{AgentPlayer, Outcome, Player, Players, SharedState, open_players, play_at};

/// All actors of a run, and what they share.
#[derive(Drop)]
pub(crate) struct Stage {
    pub(crate) players: Players,
    pub(crate) shared: SharedState,
}

/// The actors and what they share where nothing was done yet.
fn open_stage(alloc: Global, code: &Verified, max_steps: u64) -> Result<Stage, AllocError>
    requires few { length code.now.threads + length code.now.cells ≤ 65535 }
    ensures { IfOk result (λ stage. IsStageAt code.now max_steps [] stage) }
{
    let plain = code.code();
    let threads = plain.threads().len() as u16;
    let shared = SharedState::open(alloc, plain.cells(), threads)?;
    let mut players = Players {
        threads: Vec::new(alloc),
        agents: Vec::new(alloc),
    };
    open_players(alloc, code, threads, max_steps, &mut players)?;
    Ok(Stage { players, shared })
}

/// Whether the actor of a thread was stopped since a growth of memory was refused.
fn is_out(player: &Player) -> bool
    ensures { result ≡ false → player.now.actor.outcome ≡ Some Memory → ⊥ }
{
    match player.actor.outcome() {
        Some(Outcome::Memory) => true,
        Some(_) | None => false,
    }
}

/// Whether the actor with this number was.
fn is_out_at(players: &Players, k: u16) -> bool
    requires { k < length players.now.threads.items + length players.now.agents.items }
    ensures { result ≡ false → (x : APlayer) → nth (players.now.threads.items ++ attendants players.now.agents.items) k ≡ Some x → x.actor.outcome ≡ Some Memory → ⊥ }
{
    let threads = players.threads.len();
    let at = usize::from(k);
    if at < threads {
        is_out(&players.threads[at])
    } else {
        is_out(&players.agents[at - threads].player)
    }
}

/// One more ask of an actor, or its end.
fn play_ask(stage: &mut Stage, code: &Verified, k: u16, max_steps: u64) -> Result<(), AllocError>
    requires small { max_steps + 1 < 2 ^ 64 - 1 }
    requires one { k < many (explored code.now max_steps) }
    requires at { (ks : List ℕ) × IsStageAt code.now max_steps ks stage.old }
    ensures { OnOk result ((ks : List ℕ) → IsStageAt code.now max_steps ks stage.old → IsStageAt code.now max_steps (ks ++ k ∷ []) stage.new) }
{
    play_at(
        &mut stage.players,
        code,
        &mut stage.shared,
        k,
        u64::MAX,
        max_steps,
    );
    if is_out_at(&stage.players, k) {
        return Err(AllocError);
    }
    Ok(())
}

/// The actors and what they share behind these asks.
pub(crate) fn replay(
    alloc: Global,
    code: &Verified,
    asks: &[u16],
    max_steps: u64,
) -> Result<Stage, AllocError>
    requires few { length code.now.threads + length code.now.cells ≤ 65535 }
    requires small { max_steps + 1 < 2 ^ 64 - 1 }
    requires named { AreBelow (many (explored code.now max_steps)) asks.now }
    ensures { IfOk result (λ stage. IsStageAt code.now max_steps asks.now stage) }
{
    let mut stage = open_stage(alloc, code, max_steps)?;
    for k in asks {
        play_ask(&mut stage, code, *k, max_steps)?;
    }
    Ok(stage)
}

/// The actors of threads, and behind them those of agents.
pub(crate) fn all_players(players: Players) -> Result<Vec<Player>, AllocError>
    ensures { IfOk result (λ all. all.items ≡ players.threads.items ++ attendants players.agents.items) }
{
    let Players { threads, agents } = players;
    let mut all = threads;
    for agent in agents {
        let AgentPlayer { agent: _, player } = agent;
        all.push(player)?;
    }
    Ok(all)
}
