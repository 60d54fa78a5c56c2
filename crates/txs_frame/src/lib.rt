//! What a transaction has done so far: the values that it has of its own, the refs that it set and those
//! that it ensured, its commutes and the sends that it holds. Each call does to the frame what the
//! definitions say of the plain state, and where there was no memory or the ref was commuted the frame is
//! as before.
#![tactic(auto)]

pub mod frame;
pub mod law;
mod own;
pub mod phase;

pub use frame::{Commute, SetError, TxFrame};
pub use phase::{Phase, Task, validator_of};
