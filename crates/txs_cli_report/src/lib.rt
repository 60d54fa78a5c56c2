//! What the program writes of a script, of code and of a run, over any streams: lines on two streams, and a status. Where a stream
//! can't be written, it has got a beginning of what it was to get, and no other byte.
//!
//! And schedules as text: the list of plays that a person writes, the lines of a run's events, and numbers in lines.
#![tactic(auto)]

mod agents;
pub mod cells;
pub mod events;
pub mod explain;
pub mod output;
pub mod plays;
pub mod report;
pub mod streams;
pub mod text;
pub mod told;
pub mod unnamed;
pub mod written;

pub use events::write_events;
pub use output::{write_answer, write_told};
pub use plays::{ListError, WrongPlay, read_plays};
pub use text::{write_both, write_number};
pub use written::write_plays;
