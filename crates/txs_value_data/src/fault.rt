//! Why an operation gives no value, and where a form faults.

ghost use Rattle.std.specs.Prelude.{◌≡◌};
ghost use Rattle.txs_value_data.specs.Faults.{fault_name};
ghost use Rattle.txs_value_data.specs.declared.fault.Stop.TheVariants.{Fault, Memory};

use std::alloc::{AllocError, AllocFailed};
use std::fmt::{self, Debug, Display, Formatter, Write};
use thiserror::Error;

/// A place in a script, in bytes from its beginning; the byte at `to` isn't part of it.
#[derive(Clone, Copy, Debug, PartialEq, Eq)]
pub struct Span {
    pub from: u32,
    pub to: u32,
}

/// The kinds of faults of a running script.
#[derive(Clone, Copy, PartialEq, Eq, Error)]
pub enum FaultKind {
    /// A whole number past the 64-bit range.
    Overflow,
    /// `quot`, `rem` or `mod` by zero.
    DivideByZero,
    /// Something else where a number is wanted.
    NotANumber,
    /// Something else where a vector is wanted.
    NotAVector,
    /// An index that is below 0 or past a vector's end.
    IndexOut,
    /// `pop` of an empty vector.
    PopEmpty,
    /// `deref` of what is no cell.
    NotACell,
    /// A form for refs on something else.
    NotARef,
    /// A form for atoms on something else.
    NotAnAtom,
    /// A form for agents on something else.
    NotAnAgent,
    /// `deref` of an atom or an agent inside a transaction.
    OutsideOnly,
    /// `alter` or `ref-set` of a ref that the transaction commuted.
    SetAfterCommute,
    /// The 10,000th try of a transaction that has to run again.
    RetryLimit,
    /// A `send` to an agent that has failed.
    AgentFailed,
    /// A value that its cell's validator refuses.
    InvalidState,
    /// A vector value of more than 32 levels.
    TooDeep,
    /// A vector value of more than 65,535 items.
    TooLong,
}

impl FaultKind {
    /// The word by which the fault is named.
    pub fn name(self) -> &'static str
        ensures { result.now ≡ fault_name self }
    {
        match self {
            FaultKind::Overflow => "Overflow",
            FaultKind::DivideByZero => "DivideByZero",
            FaultKind::NotANumber => "NotANumber",
            FaultKind::NotAVector => "NotAVector",
            FaultKind::IndexOut => "IndexOut",
            FaultKind::PopEmpty => "PopEmpty",
            FaultKind::NotACell => "NotACell",
            FaultKind::NotARef => "NotARef",
            FaultKind::NotAnAtom => "NotAnAtom",
            FaultKind::NotAnAgent => "NotAnAgent",
            FaultKind::OutsideOnly => "OutsideOnly",
            FaultKind::SetAfterCommute => "SetAfterCommute",
            FaultKind::RetryLimit => "RetryLimit",
            FaultKind::AgentFailed => "AgentFailed",
            FaultKind::InvalidState => "InvalidState",
            FaultKind::TooDeep => "TooDeep",
            FaultKind::TooLong => "TooLong",
        }
    }
}

impl Debug for FaultKind {
    fn fmt<W: Write>(&self, f: &mut Formatter<W>) -> fmt::Result {
        Display::fmt(self, f)
    }
}

impl Display for FaultKind {
    ghost use Rattle.std.specs.Prelude.{Some};

    ghost output = { λ k. Some (fault_name k) };

    fn fmt<W: Write>(&self, f: &mut Formatter<W>) -> fmt::Result {
        f.write_str(self.name())
    }
}

/// A fault, with the span of the form that faults.
#[derive(Clone, Copy, PartialEq, Eq)]
pub struct Fault {
    pub kind: FaultKind,
    pub span: Span,
}

/// Why a core operation gives no value: it faults, or there was no memory for its value.
#[derive(Clone, Copy, Debug, Error)]
pub enum Stop {
    /// The operation faults so.
    #[error(transparent)]
    Fault(FaultKind),
    /// There was no memory for the value.
    #[error("out of memory")]
    Memory,
}

impl From<FaultKind> for Stop {
    ghost from_gives = { λ k s. s ≡ Fault k };

    fn from(kind: FaultKind) -> Stop {
        Stop::Fault(kind)
    }
}

impl From<AllocError> for Stop {
    ghost from_gives = { λ _ s. s ≡ Memory };

    fn from(_e: AllocError) -> Stop {
        Stop::Memory
    }
}

impl<T: Drop> From<AllocFailed<T>> for Stop {
    ghost from_gives = { λ _ s. s ≡ Memory };

    fn from(_e: AllocFailed<T>) -> Stop {
        Stop::Memory
    }
}
