//! Cells: how a script defines them, the forms on them with the table of what each takes and where it may be, and the
//! actions that are sent to agents. Promises that a form takes the cells of its row and no others, and that a copy of an
//! action is equal to it.
#![tactic(auto)]

pub mod action;
pub mod arguments;
pub mod cell;
pub mod form;

pub use action::{Action, copy_action};
pub use arguments::Arguments;
pub use cell::{CellDefinition, ErrorMode, agents_in, copy_cells, count_agents, list_agents};
pub use form::{CellForm, FormAsk, FormRule, LookForm, PutForm, Standing, UpdateForm};
