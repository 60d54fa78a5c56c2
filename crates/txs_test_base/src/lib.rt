//! What no contract says of the crates below trees, of code as bytes, and of the state that actors share: that calls succeed
//! with ample memory, the worked rows of places, of a transaction's frame, and of what store and atoms serve. How mailboxes run, printed
//! text, damaged code, and limits.
#![tactic(auto)]

#[cfg(test)]
mod asks;
#[cfg(test)]
mod bytes;
#[cfg(test)]
mod frame;
#[cfg(test)]
mod listing;
#[cfg(test)]
mod mail;
#[cfg(test)]
mod positions;
#[cfg(test)]
mod reader;
#[cfg(test)]
mod replies;
#[cfg(test)]
mod shared;
#[cfg(test)]
mod values;
#[cfg(test)]
mod verifier;
