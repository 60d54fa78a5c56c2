//! A run that is over, with its events in their order; and the long form of `--events`: a line for each of them, with all its parts. Promises
//! that each line says just what the report has of its event, and that nothing is appended after an error.
//!
//! `replay` makes a run again by its plays: the order of its events, and where in the text each actor was when it made them. Where it gives
//! a list, that list has each event that the report's traces name once, in an order that the report allows.
#![tactic(auto)]

mod again;
mod check;
pub mod lines;
mod listing;
mod making;
mod parts;
pub mod seen;
mod shown;
mod stage;

pub use again::replay;
pub use lines::write_replayed;
pub use seen::{Noted, Replayed};
