//! The checks of programs whose names are resolved: recur, numbers of arguments, purity, what is for
//! transactions alone or for outside alone, and size. A program is accepted exactly where it is sound, and
//! else refused for the first reason in source order.
#![tactic(auto)]

mod bodies;
pub mod callee;
mod class;
pub mod error;
pub mod law;
mod parts;
mod place;
pub mod program;
pub mod size;
mod validators;
mod walk;

pub use callee::{FunctionTable, function_table, is_pure_callee, is_sent_callee};
pub use error::{CheckError, CheckErrorKind};
pub use program::check;
pub use size::nodes_left;
