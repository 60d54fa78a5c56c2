//! The picture of a run: a lane for each thread and agent, in the order of the run, as SVG. Promises that what it appends is UTF-8, and that texts of a
//! script are escaped by `push_escaped`, which gives the characters that its definition says.
#![tactic(auto)]

mod draw;
pub mod escape;
mod law;
mod layout;
pub mod picture;
mod places;
mod words;

pub use escape::push_escaped;
pub use law::escaped_is_text;
pub use picture::write_timeline;
