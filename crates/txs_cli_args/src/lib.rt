//! What the program can be asked for, and the words of the command line: what they ask for, or the text of help or of a usage fault.
#![tactic(auto)]

pub mod request;
pub mod words;

pub use request::{Explain, Exploring, Input, Request, RunOptions, Scheduling, Showing};
pub use words::parse_words;
