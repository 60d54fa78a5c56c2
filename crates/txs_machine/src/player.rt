//! An actor of a run, with the places of its events.

use txs_machine_actor::Actor;
use txs_value_data::CellId;
use txs_world_protocol::Place;

/// An actor, and the places of the events that it has added to the books, in order.
#[derive(Drop)]
pub struct Player {
    pub actor: Actor,
    pub trace: Vec<Place>,
}

/// An agent, and its actor.
#[derive(Drop)]
pub struct AgentPlayer {
    pub agent: CellId,
    pub player: Player,
}

/// All actors of a run: those of the threads, and behind them those of the agents, in the order of the cells.
#[derive(Drop)]
pub struct Players {
    pub threads: Vec<Player>,
    pub agents: Vec<AgentPlayer>,
}
