//! Code: the instructions of functions and threads with their spans, the cells and constants that they name, and what makes code well
//! typed: lawful instructions, and tables of the stack's depth and of the transactions and open forms at each place that it comes to.
//! What the machine does with code is given by the definitions, by cases on instructions, and so is what an actor's state is.
#![tactic(auto)]

pub mod code;
pub mod fusing;
pub mod instr;
pub mod law;
pub mod validating;
pub mod verified;

pub use code::{Body, Code};
pub use fusing::{Arithmetic, Comparison, Fused};
pub use instr::{Instr, OpenForm};
pub use validating::has_validator;
pub use verified::Verified;
