//! What no contract says from trees up to the compiler: that calls succeed with ample memory, evaluators, and the room of stacks.
#![tactic(auto)]

#[cfg(test)]
mod acting;
#[cfg(test)]
mod checks;
#[cfg(test)]
mod events;
#[cfg(test)]
mod trees;
