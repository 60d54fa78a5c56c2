//! Why a script isn't compiled.

ghost use Rattle.std.specs.Prelude.{◌≡◌};
ghost use Rattle.txs_compile.specs.declared.compile_error.CompileError.TheVariants.{Memory};

use std::alloc::AllocError;
use thiserror::Error;
use txs_check::CheckError;
use txs_reader::ReadError;
use txs_resolve::ResolveError;

/// Why a script isn't compiled.
#[derive(Clone, Copy, Debug, PartialEq, Eq, Error)]
pub enum CompileError {
    /// It isn't read.
    #[error("the script isn't read: {0:?}")]
    Read(ReadError),
    /// Its names don't resolve.
    #[error("its names don't resolve: {0:?}")]
    Resolve(ResolveError),
    /// It isn't sound.
    #[error("it isn't sound: {0:?}")]
    Check(CheckError),
    /// There was no memory for its forms, its program or its code.
    #[error("out of memory")]
    Memory,
}

impl From<AllocError> for CompileError {
    ghost from_gives = { λ _ e. e ≡ Memory };

    fn from(_: AllocError) -> CompileError {
        CompileError::Memory
    }
}
