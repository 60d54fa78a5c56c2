//! All actors of a run that is made again, and what they share.

ghost use Rattle.std.specs.Prelude.{◌≡◌, ◌≤◌, ◌<◌, ◌+◌, length, IfOk};
ghost use Rattle.txs_machine.specs.Agents.{actors_of};
ghost use Rattle.txs_cli_events.specs.Staged.{IsStaged};

use std::alloc::{AllocError, Global};
use txs_code_meaning::Verified;
use txs_machine::{Player, Players, SharedState, open_players, play_at};

/// All actors, and what they share.
#[derive(Drop)]
pub(crate) struct Stage {
    pub(crate) players: Players,
    pub(crate) shared: SharedState,
}

impl Stage {
    /// The actors and what they share where nothing was done yet. Each may make so many steps.
    pub(crate) fn open(alloc: Global, code: &Verified, max_steps: u64) -> Result<Stage, AllocError>
        requires few { length code.now.threads + length code.now.cells ≤ 65535 }
        ensures { IfOk result (λ stage. IsStaged code.now max_steps stage) }
    {
        let plain = code.code();
        let threads = plain.threads().len() as u16;
        let shared = SharedState::open(alloc, plain.cells(), threads)?;
        let mut players = Players {
            threads: Vec::new(alloc),
            agents: Vec::new(alloc),
        };
        open_players(alloc, code, threads, max_steps, &mut players)?;
        Ok(Stage { players, shared })
    }

    /// How many actors there are.
    pub(crate) fn actors(&self) -> u16
        requires { length self.now.players.threads.items + length self.now.players.agents.items ≤ 65535 }
        ensures { result ≡ length self.now.players.threads.items + length self.now.players.agents.items }
    {
        (self.players.threads.len() + self.players.agents.len()) as u16
    }

    /// The actor with this number: threads come first, and agents behind them.
    pub(crate) fn player(&self, k: u16) -> &Player
        requires { k < length self.now.players.threads.items + length self.now.players.agents.items }
    {
        let threads = self.players.threads.len();
        let at = usize::from(k);
        if at < threads {
            &self.players.threads[at]
        } else {
            &self.players.agents[at - threads].player
        }
    }

    /// A play of an actor: up to so many turns, up to its end or an ask, which is served.
    pub(crate) fn play(&mut self, code: &Verified, k: u16, budget: u64, max_steps: u64)
        requires some { 0 < budget }
        requires there { k < actors_of code.now }
        requires staged { IsStaged code.now max_steps self.old }
        ensures { IsStaged code.now max_steps self.new }
    {
        play_at(
            &mut self.players,
            code,
            &mut self.shared,
            k,
            budget,
            max_steps,
        );
    }
}
