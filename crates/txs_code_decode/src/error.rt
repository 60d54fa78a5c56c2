//! Why bytes are no code, and where.

ghost use Rattle.std.specs.Prelude.{◌≡◌, ◌+◌, length};
ghost use Rattle.txs_code_decode.specs.Errors.{code_error_number, code_error_name};
ghost use Rattle.txs_code_decode.specs.declared.error.Stop.TheVariants as stops;

use std::alloc::{AllocError, AllocFailed};
use std::fmt::{self, Display, Formatter, Write};

/// The reasons for which bytes are no code.
#[derive(Clone, Copy, PartialEq, Eq)]
pub enum CodeErrorKind {
    /// They don't begin with `TXS1` or `TXS2`.
    BadMagic,
    /// They end within a field.
    Truncated,
    /// No instruction or value has this byte.
    BadOpcode,
    /// Another field holds what it may not hold.
    BadOperand,
    /// Bytes are behind the code.
    Trailing,
    /// More of something than code may have.
    TooLarge,
    /// There was no memory for the code.
    Memory,
}

impl CodeErrorKind {
    /// The number under which the reason is reported: 31 to 36, and 0 where memory ran out.
    pub fn number(self) -> u8
        ensures { result ≡ code_error_number self }
    {
        match self {
            CodeErrorKind::BadMagic => 31,
            CodeErrorKind::Truncated => 32,
            CodeErrorKind::BadOpcode => 33,
            CodeErrorKind::BadOperand => 34,
            CodeErrorKind::Trailing => 35,
            CodeErrorKind::TooLarge => 36,
            CodeErrorKind::Memory => 0,
        }
    }

    /// The name under which the reason is reported.
    pub fn name(self) -> &'static str
        ensures { result.now ≡ code_error_name self }
    {
        match self {
            CodeErrorKind::BadMagic => "BadMagic",
            CodeErrorKind::Truncated => "Truncated",
            CodeErrorKind::BadOpcode => "BadOpcode",
            CodeErrorKind::BadOperand => "BadOperand",
            CodeErrorKind::Trailing => "Trailing",
            CodeErrorKind::TooLarge => "TooLarge",
            CodeErrorKind::Memory => "Memory",
        }
    }
}

impl Display for CodeErrorKind {
    ghost use Rattle.std.specs.Prelude.{Some};

    ghost output = { λ k. Some (code_error_name k) };

    fn fmt<W: Write>(&self, f: &mut Formatter<W>) -> fmt::Result {
        f.write_str(self.name())
    }
}

/// Why bytes are no code, and the place of the field that is the reason, from 0: its first byte; the number of all bytes where they
/// end too early; 0 where memory ran out.
#[derive(Clone, Copy, PartialEq, Eq)]
pub struct CodeError {
    pub kind: CodeErrorKind,
    pub at: usize,
}

/// A refusal, and how many bytes are left from the first byte of the field that is refused.
#[derive(Clone, Copy)]
pub(crate) struct Refusal {
    pub kind: CodeErrorKind,
    pub left: usize,
}

/// Why reading stopped.
#[derive(Clone, Copy)]
pub(crate) enum Stop {
    Memory,
    Refused(Refusal),
}

impl From<AllocError> for Stop {
    ghost from_gives = { λ _ e. e ≡ stops.Memory };

    fn from(_: AllocError) -> Stop {
        Stop::Memory
    }
}

impl<T: Drop> From<AllocFailed<T>> for Stop {
    ghost from_gives = { λ _ e. e ≡ stops.Memory };

    fn from(_: AllocFailed<T>) -> Stop {
        Stop::Memory
    }
}

/// The refusal of the byte before these bytes, which are part of more.
pub(crate) fn refused_before(kind: CodeErrorKind, bytes: &[u8]) -> Stop
    ensures { result ≡ stops.Refused (record { kind = kind; left = length bytes.now + 1 }) }
{
    Stop::Refused(Refusal {
        kind,
        left: bytes.len() + 1,
    })
}

/// The refusal of the field with which these bytes begin.
pub(crate) fn refused(kind: CodeErrorKind, bytes: &[u8]) -> Stop
    ensures { result ≡ stops.Refused (record { kind = kind; left = length bytes.now }) }
{
    Stop::Refused(Refusal {
        kind,
        left: bytes.len(),
    })
}
