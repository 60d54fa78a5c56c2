//! What turns come to.

use txs_world_protocol::{Ask, Outcome};

/// What a turn came to.
#[derive(Drop)]
pub enum Turn {
    /// The actor made a step and continues.
    Went,
    /// The actor asks the shared state, and continues once it is answered.
    Asks(Ask),
    /// The actor has ended.
    Ended(Outcome),
}
