//! Why bytes aren't taken as code.

use crate::VerifyError;
use txs_code_decode::CodeError;

/// Why bytes aren't taken as code.
#[derive(Clone, Copy)]
pub enum LoadError {
    /// They are the byte form of no code.
    Bytes(CodeError),
    /// Their code isn't well typed.
    Code(VerifyError),
    /// There was no memory.
    Memory,
}
