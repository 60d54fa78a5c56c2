//! The byte form of code, and its reading. Promises that `decode` answers code exactly where the bytes are its form, and else the first
//! refusal from left to right with its place, so that code has one form and a form one code; and the byte of each instruction.
#![tactic(auto)]

mod bodies;
mod cells;
mod decoding;
mod error;
mod fields;
mod instrs;
mod opcode;
mod operands;
mod tag;
mod values;

pub use decoding::decode;
pub use error::{CodeError, CodeErrorKind};
pub use opcode::Opcode;
