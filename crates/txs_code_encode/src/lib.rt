//! Code in its byte form, written, and read by txs_code_decode. Promises that `encode` gives the form; that `bytes_of` gives it where there is
//! one, and says where there is none; and that `same_code` is equality.
#![tactic(auto)]

mod encoding;
mod same;
mod small;
mod written;

pub use encoding::{bytes_of, encode};
pub use same::same_code;
pub use txs_code_decode::{CodeError, CodeErrorKind, Opcode, decode};
