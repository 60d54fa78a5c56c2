//! Why code is refused, and where.

ghost use Rattle.std.specs.Prelude.{◌≡◌};
ghost use Rattle.txs_verify.specs.Errors.{verify_number, verify_name};
ghost use Rattle.txs_verify.specs.Walk.{out_of_memory};

use std::alloc::{AllocError, AllocFailed};

/// The reasons for which code is refused.
#[derive(Clone, Copy, PartialEq, Eq)]
pub enum VerifyErrorKind {
    /// A jump to what is no place of the body.
    JumpOut,
    /// An instruction that takes more values than are on the stack.
    StackLow,
    /// Two depths of the stack at one place, or a body that ends with another number of values than one.
    StackDiffers,
    /// A local that the body doesn't have.
    LocalOut,
    /// A number of arguments that the operation or callee doesn't take; or a validator that doesn't take one value.
    ArityWrong,
    /// A function that isn't numbered below its caller, or an open, call and close that aren't together.
    CallOrder,
    /// What may not stand inside a transaction or outside one, or two numbers of open transactions at one place; or a validator that isn't pure.
    TxNesting,
    /// Code that continues past its end, reported at the instruction that does so, or at 0 of a body without instructions; or code that ends as a body of its
    /// kind doesn't.
    FallsOff,
    /// There was no memory for the checks.
    Memory,
}

impl VerifyErrorKind {
    /// The number under which the reason is reported: 41 to 48, and 0 where memory ran out.
    pub fn number(self) -> u8
        ensures { result ≡ verify_number self }
    {
        match self {
            VerifyErrorKind::JumpOut => 41,
            VerifyErrorKind::StackLow => 42,
            VerifyErrorKind::StackDiffers => 43,
            VerifyErrorKind::LocalOut => 44,
            VerifyErrorKind::ArityWrong => 45,
            VerifyErrorKind::CallOrder => 46,
            VerifyErrorKind::TxNesting => 47,
            VerifyErrorKind::FallsOff => 48,
            VerifyErrorKind::Memory => 0,
        }
    }

    /// The name under which the reason is reported.
    pub fn name(self) -> &'static str
        ensures { result.now ≡ verify_name self }
    {
        match self {
            VerifyErrorKind::JumpOut => "JumpOut",
            VerifyErrorKind::StackLow => "StackLow",
            VerifyErrorKind::StackDiffers => "StackDiffers",
            VerifyErrorKind::LocalOut => "LocalOut",
            VerifyErrorKind::ArityWrong => "ArityWrong",
            VerifyErrorKind::CallOrder => "CallOrder",
            VerifyErrorKind::TxNesting => "TxNesting",
            VerifyErrorKind::FallsOff => "FallsOff",
            VerifyErrorKind::Memory => "Memory",
        }
    }
}

/// A body of the code, or a cell with a validator.
#[derive(Clone, Copy, PartialEq, Eq)]
pub enum BodyName {
    /// That of a function, by its number.
    Function(usize),
    /// That of a thread, in script order.
    Thread(usize),
    /// The validator of a cell, by the cell's number.
    Cell(usize),
}

/// Why code is refused: the reason, the body, and the place of the instruction in it; 0 of a cell's validator.
#[derive(Clone, Copy, PartialEq, Eq)]
pub struct VerifyError {
    pub kind: VerifyErrorKind,
    pub body: BodyName,
    pub at: usize,
}

/// Why a body is refused, and at which of its places.
#[derive(Clone, Copy)]
pub struct Refusal {
    pub kind: VerifyErrorKind,
    pub at: usize,
}

/// Why the checks of a body stop.
#[derive(Clone, Copy)]
pub enum Stop {
    /// The body is refused.
    Refused(Refusal),
    /// There was no memory.
    Memory,
}

impl From<AllocError> for Stop {
    ghost from_gives = { λ _ e. e ≡ out_of_memory };

    fn from(_: AllocError) -> Stop {
        Stop::Memory
    }
}

impl<T: Drop> From<AllocFailed<T>> for Stop {
    ghost from_gives = { λ _ e. e ≡ out_of_memory };

    fn from(_: AllocFailed<T>) -> Stop {
        Stop::Memory
    }
}
