//! Turns of an actor, one and many. Each is the machine's meaning of one instruction: of one that leaves the loop of the actor's
//! body, by what validators answer of the values that it writes, or of an agent's own body. A turn is made by calls of the actor alone.
#![tactic(auto)]

mod attend;
mod judge;
mod pace;

pub use pace::{run, turn};
