//! States of runs that nobody can tell apart, though their journals differ: what is asked in them is answered alike, actors run alike, and so they stay
//! alike. Tries that failed leave nothing, and commits on different refs may be exchanged. Each law is the contract of a function of its own, which does
//! nothing when it runs.
#![tactic(auto)]

pub mod law;
