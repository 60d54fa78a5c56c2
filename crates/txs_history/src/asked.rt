//! The events of a history.

use txs_world_protocol::Ask;

/// What an actor asked. No value of it is made.
pub struct Asked {
    pub actor: u16,
    pub ask: Ask,
}
