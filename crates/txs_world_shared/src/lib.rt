//! The state that all actors share: the store with its book, and of each atom its book. Promises that each ask is answered by the book
//! that it is for, which alone grows, just as the laws of runs say, and that all books stay legal.
#![tactic(auto)]

pub mod atoms;
mod joining;
pub mod law;
mod parts;
mod serve;
pub mod state;

pub use state::SharedState;
