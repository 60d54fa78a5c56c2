//! The listing of code: `write_listing` writes, over any writer, a line for each cell, constant, body and instruction. On `Ok` the
//! writer got the listing, whole and once; on an error a beginning of it, and not all. `write_all` says so of any bytes.
#![tactic(auto)]

mod disasm;
mod fault;
mod lines;
mod names;
mod output;

pub use disasm::write_listing;
pub use fault::WriteFault;
pub use output::write_all;
