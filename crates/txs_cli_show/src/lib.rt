//! What is shown of a run by a schedule, beside its plain output or in its place: its events in their long form, its picture, and lines of JSON. The
//! script is compiled and run by its list of plays, and the events of that run are shown in their order.
#![tactic(auto)]

mod again;
pub mod json;
pub mod lines;
pub mod picture;

pub use json::{check_json, problem_json, show_json};
pub use lines::show_lines;
pub use picture::draw;
