//! Code from trees. `generate` gives exactly the code of a program: for each function and each thread the
//! instructions of its tree, each with the span of the node that it is made for, the constants, each with an
//! entry of its own, and the cells. That code is well typed, with the room that each stack needs. By the law of
//! `generated_code_behaves` the code of a tree does what the tree does on any replies, and so, by that
//! of `code_of_program_follows`, the code of a program follows the program.
#![tactic(auto)]

pub mod behaves;
mod emit;
pub mod follows;
pub mod threads;

pub use threads::generate;
