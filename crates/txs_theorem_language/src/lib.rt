//! What a script's text, its program and its refusals have to do with one another, across the layers: where forms stand, which refusal
//! is the first, and what names, `and` and `or` mean. Each law is the contract of a function of its own, which does nothing when it runs.
#![tactic(auto)]

pub mod law;
