//! Why a program whose names are resolved is refused, and where.

ghost use Rattle.std.specs.Prelude.{◌≡◌};
ghost use Rattle.txs_check.specs.Errors.{check_number, check_name, out_of_memory};

use std::alloc::AllocError;
use std::fmt::{self, Display, Formatter, Write};
use thiserror::Error;
use txs_value_data::Span;

/// The reasons for which a program is refused.
#[derive(Clone, Copy, Debug, PartialEq, Eq, Error)]
pub enum CheckErrorKind {
    /// A `recur` with no loop or function around it, or outside its tail position.
    RecurNotTail,
    /// A `recur` with another number of values than its loop or function has.
    RecurCount,
    /// A `recur` with a `dosync` between it and its loop or function.
    RecurAcrossDosync,
    /// A number of arguments that the operation or function doesn't take.
    Arity,
    /// A function that isn't pure, where a form on a cell calls it on the cell's value.
    NotPure,
    /// What is for transactions alone, in a future outside every transaction, or sent.
    InsideOnly,
    /// What is for outside alone, in a transaction.
    OutsideOnly,
    /// More nodes than a program may have.
    CodeTooLarge,
    /// There was no memory for the checks.
    Memory,
}

impl CheckErrorKind {
    /// The number under which the reason is reported: 21 to 28, and 0 where memory ran out.
    pub fn number(self) -> u8
        ensures { result ≡ check_number self }
    {
        match self {
            CheckErrorKind::RecurNotTail => 21,
            CheckErrorKind::RecurCount => 22,
            CheckErrorKind::RecurAcrossDosync => 23,
            CheckErrorKind::Arity => 24,
            CheckErrorKind::NotPure => 25,
            CheckErrorKind::InsideOnly => 26,
            CheckErrorKind::OutsideOnly => 27,
            CheckErrorKind::CodeTooLarge => 28,
            CheckErrorKind::Memory => 0,
        }
    }

    /// The name under which the reason is reported.
    pub fn name(self) -> &'static str
        ensures { result.now ≡ check_name self }
    {
        match self {
            CheckErrorKind::RecurNotTail => "RecurNotTail",
            CheckErrorKind::RecurCount => "RecurCount",
            CheckErrorKind::RecurAcrossDosync => "RecurAcrossDosync",
            CheckErrorKind::Arity => "Arity",
            CheckErrorKind::NotPure => "NotPure",
            CheckErrorKind::InsideOnly => "InsideOnly",
            CheckErrorKind::OutsideOnly => "OutsideOnly",
            CheckErrorKind::CodeTooLarge => "CodeTooLarge",
            CheckErrorKind::Memory => "Memory",
        }
    }
}

impl Display for CheckErrorKind {
    ghost use Rattle.std.specs.Prelude.{Some};

    ghost output = { λ k. Some (check_name k) };

    fn fmt<W: Write>(&self, f: &mut Formatter<W>) -> fmt::Result {
        f.write_str(self.name())
    }
}

/// Why a program is refused, and the place of the form that is the reason.
#[derive(Clone, Copy, Debug, PartialEq, Eq)]
pub struct CheckError {
    pub kind: CheckErrorKind,
    pub at: Span,
}

impl From<AllocError> for CheckError {
    ghost from_gives = { λ _ e. e ≡ out_of_memory };

    fn from(_: AllocError) -> CheckError {
        CheckError {
            kind: CheckErrorKind::Memory,
            at: Span { from: 0, to: 0 },
        }
    }
}
