//! Why a listing isn't written whole.

ghost use Rattle.std.specs.Prelude.{◌≡◌};
ghost use Rattle.txs_disasm.specs.declared.fault.WriteFault.TheVariants as fault;

use std::alloc::AllocError;
use thiserror::Error;

/// Why a listing isn't written whole.
#[derive(Clone, Copy, Debug, PartialEq, Eq, Error)]
pub enum WriteFault {
    /// The writer failed, took no byte, or was interrupted too often.
    #[error("write failed")]
    Write,
    /// There was no memory for a line.
    #[error("out of memory")]
    Memory,
}

impl From<AllocError> for WriteFault {
    ghost from_gives = { λ _ e. e ≡ fault.Memory };

    fn from(_: AllocError) -> WriteFault {
        WriteFault::Memory
    }
}
