//! Why there is no report of a run by workers.

ghost use Rattle.std.specs.Prelude.{◌≡◌};
ghost use Rattle.txs_machine.specs.ErrorName.{error_name, error_number};
ghost use Rattle.txs_machine.specs.declared.run_error.RunError.TheVariants.{Memory};

use std::alloc::AllocError;
use std::error::Error;
use std::fmt::{self, Debug, Display, Formatter, Write};

/// Why there is no report of a run by workers.
#[derive(Clone, Copy, PartialEq, Eq)]
pub enum RunError {
    /// What the actors did is no run by turns, which no run that ends is known to give.
    JournalMismatch,
    /// There were to be no workers, or over 64, or one couldn't be started.
    NoThread,
    /// There was no memory.
    Memory,
}

impl Debug for RunError {
    fn fmt<W: Write>(&self, f: &mut Formatter<W>) -> fmt::Result {
        Display::fmt(self, f)
    }
}

impl Display for RunError {
    ghost use Rattle.std.specs.Prelude.{Some};

    ghost output = { λ e. Some (error_name e) };

    fn fmt<W: Write>(&self, f: &mut Formatter<W>) -> fmt::Result {
        f.write_str(self.name())
    }
}

impl Error for RunError {}

impl From<AllocError> for RunError {
    ghost from_gives = { λ _ e. e ≡ Memory };

    fn from(_: AllocError) -> RunError {
        RunError::Memory
    }
}

impl RunError {
    /// The number under which the reason is reported: 51 to 53.
    pub fn number(self) -> u8
        ensures { result ≡ error_number self }
    {
        match self {
            RunError::JournalMismatch => 51,
            RunError::NoThread => 52,
            RunError::Memory => 53,
        }
    }

    /// Its name, as it is printed.
    pub fn name(self) -> &'static str
        ensures { result.now ≡ error_name self }
    {
        match self {
            RunError::JournalMismatch => "JournalMismatch",
            RunError::NoThread => "NoThread",
            RunError::Memory => "Memory",
        }
    }
}
