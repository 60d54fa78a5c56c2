//! Code, read and verified.

ghost use Rattle.std.specs.Prelude.{◌≡◌, IfOk, IfErr};
ghost use Rattle.txs_code_decode.specs.CodeForm.{HasForm};
ghost use Rattle.txs_code_meaning.specs.OwnCells.{NamesOwnCells};
ghost use Rattle.txs_code_meaning.specs.WellTyped.{WellTyped};
ghost use Rattle.txs_verify.specs.Load.{IsFormOf, IsRefusal, IsWrongCode, bytes_error, code_error};
ghost use Rattle.txs_verify.specs.Verdict.{AreLeastRooms};

use crate::law::form_is_taken;
use crate::load_error::LoadError;
use crate::{Rooms, VerifyError, VerifyErrorKind, verify};
use std::alloc::Global;
use txs_code_decode::{CodeError, CodeErrorKind, decode};
use txs_code_meaning::{Code, Verified};

/// What a refusal of the bytes is.
fn of_bytes(error: CodeError) -> LoadError
    ensures { result ≡ bytes_error error }
{
    match error.kind {
        CodeErrorKind::Memory => LoadError::Memory,
        _ => LoadError::Bytes(error),
    }
}

/// What a refusal of the code is.
fn of_code(error: VerifyError) -> LoadError
    ensures { result ≡ code_error error }
{
    match error.kind {
        VerifyErrorKind::Memory => LoadError::Memory,
        _ => LoadError::Code(error),
    }
}

/// Verifies code that has a byte form.
fn check(alloc: Global, code: Code) -> Result<(Code, Rooms), LoadError>
    requires { HasForm code }
    ensures kept { IfOk result (λ r. r.0 ≡ code) }
    ensures typed { IfOk result (λ r. WellTyped code r.1.functions.items r.1.threads.items) }
    ensures least { IfOk result (λ r. AreLeastRooms code r.1.functions.items r.1.threads.items) }
    ensures own_cells { IfOk result (λ r. NamesOwnCells code) }
    ensures refused { IfErr result (λ e. IsWrongCode code e) }
{
    form_is_taken(&code);
    match verify(alloc, code) {
        Ok((code, rooms)) => Ok((code, rooms)),
        Err((_, error)) => Err(of_code(error)),
    }
}

/// The code that the bytes are the form of, with the least rooms for its stacks with which it is well typed.
///
/// # Errors
/// The first refusal of the bytes from left to right; a refusal of their code; or out of memory.
pub fn load(alloc: Global, bytes: &[u8]) -> Result<(Code, Rooms), LoadError>
    ensures form { IfOk result (λ r. IsFormOf bytes.now r.0) }
    ensures typed { IfOk result (λ r. WellTyped r.0 r.1.functions.items r.1.threads.items) }
    ensures least { IfOk result (λ r. AreLeastRooms r.0 r.1.functions.items r.1.threads.items) }
    ensures own_cells { IfOk result (λ r. NamesOwnCells r.0) }
    ensures refused { IfErr result (λ e. IsRefusal bytes.now e) }
{
    match decode(alloc, bytes) {
        Ok(code) => check(alloc, code),
        Err(error) => Err(of_bytes(error)),
    }
}

/// The same, ready to run.
///
/// # Errors
/// As `load`.
pub fn load_verified(alloc: Global, bytes: &[u8]) -> Result<Verified, LoadError>
    ensures form { IfOk result (λ v. IsFormOf bytes.now v) }
    ensures refused { IfErr result (λ e. IsRefusal bytes.now e) }
{
    let (code, rooms) = load(alloc, bytes)?;
    match Verified::seal(alloc, code, rooms.functions, rooms.threads) {
        Ok(verified) => Ok(verified),
        Err(_) => Err(LoadError::Memory),
    }
}
