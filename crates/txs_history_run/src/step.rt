//! What an actor is to do next.

use txs_world_protocol::Ask;

/// What an actor is to do next. It is what contracts see of its last turn: no value of it is made.
pub enum Step {
    /// It runs.
    Runs,
    /// It waits with this ask.
    Asks(Ask),
    /// It met what no run gives, and does no more.
    Broken,
}
