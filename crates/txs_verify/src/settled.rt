//! Bytes with which no byte form begins.

ghost use Rattle.std.specs.Prelude.{◌≡◌, ◌≢◌, IfOk};
ghost use Rattle.txs_code_decode.specs.declared.error.CodeErrorKind.TheVariants as kind;
ghost use Rattle.txs_verify.specs.Load.{RefusalsStay, is_settled, stays_refused};

use std::alloc::{AllocError, Global};
use txs_code_decode::{CodeError, CodeErrorKind, decode};

/// Whether what is behind bytes changes nothing of their refusal.
fn stays_refused(error: CodeError) -> Result<bool, AllocError>
    ensures value { IfOk result (λ stays. stays ≡ stays_refused error.kind) }
    ensures told { IfOk result (λ stays. error.kind ≢ kind.Memory) }
{
    match error.kind {
        CodeErrorKind::BadMagic => Ok(true),
        CodeErrorKind::Truncated => Ok(false),
        CodeErrorKind::BadOpcode => Ok(true),
        CodeErrorKind::BadOperand => Ok(true),
        CodeErrorKind::Trailing => Ok(true),
        CodeErrorKind::TooLarge => Ok(true),
        CodeErrorKind::Memory => Err(AllocError),
    }
}

/// Whether no byte form begins with these bytes: they are refused, and stay so whatever is behind them.
///
/// # Errors
/// `AllocError` where there was no memory for the code that they begin.
pub fn is_settled(alloc: Global, bytes: &[u8]) -> Result<bool, AllocError>
    ensures { IfOk result (λ settled. settled ≡ is_settled bytes.now) }
{
    match decode(alloc, bytes) {
        Ok(code) => {
            drop(code);
            Ok(false)
        }
        Err(error) => stays_refused(error),
    }
}

/// Bytes that are settled are refused so with any bytes behind them.
pub fn refusals_stay()
    ensures { RefusalsStay }
{}
