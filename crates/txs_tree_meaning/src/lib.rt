//! Programs as trees. A node is a plain tree to every contract (`tree_of`), a program the sound program of its cells,
//! functions and threads. What trees mean is in the definitions: `pure_meaning` of a callee, `tx_meaning` of a transaction's
//! body on one world of refs, `thread_meaning` of a thread on a list of events.
//!
//! Nodes are taken apart and made anew: `view` says what a node is, with its parts; a function for each form makes a node of
//! parts; `shift_node` copies a node where more locals come in; `copy_program` copies a program.
#![tactic(auto)]

pub mod build;
pub mod copying;
pub mod node;
pub mod parts;
pub mod program;
pub mod raw;
pub mod shifting;

pub use build::{
    Spot, const_node, dosync_node, if_node, let_node, local_node, look_node, loop_node, put_node,
    row_node, send_node, spot_of, update_node,
};
pub use copying::copy_program;
pub use node::{Function, Node, NodeKind, Thread};
pub use parts::{Row, Shape, view};
pub use program::Program;
pub use raw::Raw;
pub use shifting::{Shift, shift_node};
