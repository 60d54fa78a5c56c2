//! All outcomes of a code's threads and agents: a search through the orders in which they may run. Each outcome that it lists is that of a
//! run, and where it went everywhere there are no others.
//!
//! Its laws say what such a search says of all runs; they do nothing when they run.
#![tactic(auto)]

mod asks;
pub mod ending;
mod exploring;
mod few;
pub mod law;
mod look;
mod replay;
mod search;
mod search_laws;
pub mod told;
mod ways;

pub use ending::{End, Ending};
pub use exploring::{Explored, Limits, explore};
pub use law::workers_are_listed;
pub use search_laws::{
    asks_are_alike, below_is_within, ends_are_over, few_are_found, few_are_runs, runs_are_found,
    runs_come_by_asks, searches_agree, turns_are_plays, ways_are_runs,
};
pub use told::{has_ending, repeated, run_way};
pub use ways::Way;
