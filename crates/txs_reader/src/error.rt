//! Why a script isn't read, and where.

ghost use Rattle.std.specs.Prelude.{◌≡◌};
ghost use Rattle.txs_reader.specs.Errors.{report_number, report_name};
ghost use Rattle.txs_reader.specs.Refused.{out_of_memory};

use std::alloc::{AllocError, AllocFailed};
use std::fmt::{self, Display, Formatter, Write};
use thiserror::Error;
use txs_value_data::Span;

/// The reasons for which a script isn't read.
#[derive(Clone, Copy, Debug, PartialEq, Eq, Error)]
pub enum ReadErrorKind {
    /// A byte that begins no character.
    NotUtf8,
    /// The end of the script, with a bracket, `@` or quote open.
    Unclosed,
    /// A closing bracket that doesn't fit what is open.
    Unopened,
    /// A word that reads as nothing in this language, though Clojure may read it: a symbol of letters beyond ASCII is one.
    BadToken,
    /// A whole number past the 64-bit range.
    NumberTooLarge,
    /// A backslash in a text that begins no escape.
    BadEscape,
    /// The 101st nested opening.
    TooDeep,
    /// A script, text, name, list or vector past its limit.
    TooLarge,
    /// What Clojure reads and this profile leaves out.
    LeftOut,
    /// There was no memory for the forms.
    Memory,
}

impl ReadErrorKind {
    /// The number under which the reason is reported, from 1 to 10.
    pub fn number(self) -> u8
        ensures { result ≡ report_number self }
    {
        match self {
            ReadErrorKind::NotUtf8 => 1,
            ReadErrorKind::Unclosed => 2,
            ReadErrorKind::Unopened => 3,
            ReadErrorKind::BadToken => 4,
            ReadErrorKind::NumberTooLarge => 5,
            ReadErrorKind::BadEscape => 6,
            ReadErrorKind::TooDeep => 7,
            ReadErrorKind::TooLarge => 8,
            ReadErrorKind::LeftOut => 9,
            ReadErrorKind::Memory => 10,
        }
    }

    /// The name under which the reason is reported.
    pub fn name(self) -> &'static str
        ensures { result.now ≡ report_name self }
    {
        match self {
            ReadErrorKind::NotUtf8 => "NotUtf8",
            ReadErrorKind::Unclosed => "Unclosed",
            ReadErrorKind::Unopened => "Unopened",
            ReadErrorKind::BadToken => "BadToken",
            ReadErrorKind::NumberTooLarge => "NumberTooLarge",
            ReadErrorKind::BadEscape => "BadEscape",
            ReadErrorKind::TooDeep => "TooDeep",
            ReadErrorKind::TooLarge => "TooLarge",
            ReadErrorKind::LeftOut => "LeftOut",
            ReadErrorKind::Memory => "Memory",
        }
    }
}

impl Display for ReadErrorKind {
    ghost use Rattle.std.specs.Prelude.{Some};

    ghost output = { λ k. Some (report_name k) };

    fn fmt<W: Write>(&self, f: &mut Formatter<W>) -> fmt::Result {
        f.write_str(self.name())
    }
}

/// Why a script isn't read, and the bytes of it that are the reason; 0..0 where memory ran out.
#[derive(Clone, Copy, Debug, PartialEq, Eq)]
pub struct ReadError {
    pub kind: ReadErrorKind,
    pub at: Span,
}

impl ReadError {
    /// The error of a call for which there was no memory.
    fn memory() -> ReadError
        ensures { result ≡ out_of_memory }
    {
        ReadError {
            kind: ReadErrorKind::Memory,
            at: Span { from: 0, to: 0 },
        }
    }
}

impl From<AllocError> for ReadError {
    ghost from_gives = { λ _ e. e ≡ out_of_memory };

    fn from(_: AllocError) -> ReadError {
        ReadError::memory()
    }
}

impl<T: Drop> From<AllocFailed<T>> for ReadError {
    ghost from_gives = { λ _ e. e ≡ out_of_memory };

    fn from(_: AllocFailed<T>) -> ReadError {
        ReadError::memory()
    }
}
