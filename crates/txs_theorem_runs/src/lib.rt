//! Runs of many actors over what they share, the store and the atoms, and what the sources of their threads say of them. For every
//! list of turns of several actors the books are legal, no ref that a commit wrote was written between its view and its place, what
//! a transaction set or ensured wasn't written since its read point, and each thread means just what its actor did, with what it
//! printed and how it ended. An actor that was stopped has printed what its sources mean on all that it did but the last. Threads and
//! agents of well-typed code whose values name defined cells alone ask nothing that they may not ask. Each law is the contract of a function of its own,
//! which does nothing when it runs.
#![tactic(auto)]

pub mod law;
