//! What workers call between the steps of what they run: a gate, which a test can close. Promises that each ask is told under its own kind (`kind_of`).
#![tactic(auto)]

pub mod gate;

pub use gate::{AskKind, Gate, Made, Moment, OpenGate, kind_of};
