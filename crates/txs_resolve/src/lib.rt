//! Resolution of names: the forms of a script to the program that they are, or the first refusal with its
//! place. Each symbol stands for the nearest enclosing local, else for an earlier definition, else for a core
//! operation. What a script's program is says one function over plain forms, which answers either a program
//! or one refusal; `resolve` answers the same.
//!
//! Forms are walked in source order, each before its parts, and their nodes are put together behind them. The walk hands on one
//! `Vec` of nodes, so that no node is owned where it may stop.
#![tactic(auto)]

mod below;
mod definition;
mod depth;
mod expression;
pub mod law;
mod nodes;
pub mod resolver;
mod script;
mod stop;
mod values;

pub use depth::levels;
pub use expression::body;
pub use resolver::resolve;
pub use stop::{Stop, refused};
pub use txs_resolve_expand::{ResolveError, ResolveErrorKind};
pub use txs_tree_meaning::Raw;
pub use values::{fits, literal};
