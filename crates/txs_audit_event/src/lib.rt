//! What differs at an event of a report that isn't as the text says, at a thread's end, or at an action's act: what is expected and what
//! is found. An audit has said before where that is.
#![tactic(auto)]

mod actions;
mod asking;
mod commits;
mod disturbing;
mod events;
pub mod law;
mod lines;
mod meant;
mod what;

pub use actions::came_within;
pub use asking::Question;
pub use events::event_what;
pub use lines::{full_what, part_what, printed_what, stop_what};
pub use meant::{Doer, Meant, least_of, mean_within, printed_of};
pub use what::What;
