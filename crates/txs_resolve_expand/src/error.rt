//! Why the forms of a script are no program, and where.

ghost use Rattle.std.specs.Prelude.{◌≡◌};
ghost use Rattle.txs_resolve_expand.specs.Reported.{report_number, report_name};

use std::fmt::{self, Debug, Display, Formatter, Write};
use thiserror::Error;
use txs_value_data::Span;

/// The reasons for which forms are no program.
#[derive(Clone, Copy, PartialEq, Eq, Error)]
pub enum ResolveErrorKind {
    /// A name that stands for nothing here.
    UnknownName,
    /// A definition of a name that is defined already, or that a core operation has.
    Redefined,
    /// What reads, and is no form of the language in this place.
    BadForm,
    /// What is no function is where one is called.
    NotCallable,
    /// A local is where a function is called.
    LocalCalled,
    /// A function calls itself.
    SelfCall,
    /// A definition, parameter, name or form past its limit.
    TooMany,
    /// There was no memory for the program.
    Memory,
}

impl ResolveErrorKind {
    /// The number under which the reason is reported, from 11 to 17, and 0 where memory ran out.
    pub fn number(self) -> u8
        ensures { result ≡ report_number self }
    {
        match self {
            ResolveErrorKind::UnknownName => 11,
            ResolveErrorKind::Redefined => 12,
            ResolveErrorKind::BadForm => 13,
            ResolveErrorKind::NotCallable => 14,
            ResolveErrorKind::LocalCalled => 15,
            ResolveErrorKind::SelfCall => 16,
            ResolveErrorKind::TooMany => 17,
            ResolveErrorKind::Memory => 0,
        }
    }

    /// The name under which the reason is reported.
    pub fn name(self) -> &'static str
        ensures { result.now ≡ report_name self }
    {
        match self {
            ResolveErrorKind::UnknownName => "UnknownName",
            ResolveErrorKind::Redefined => "Redefined",
            ResolveErrorKind::BadForm => "BadForm",
            ResolveErrorKind::NotCallable => "NotCallable",
            ResolveErrorKind::LocalCalled => "LocalCalled",
            ResolveErrorKind::SelfCall => "SelfCall",
            ResolveErrorKind::TooMany => "TooMany",
            ResolveErrorKind::Memory => "Memory",
        }
    }
}

impl Debug for ResolveErrorKind {
    fn fmt<W: Write>(&self, f: &mut Formatter<W>) -> fmt::Result {
        f.write_str(self.name())
    }
}

impl Display for ResolveErrorKind {
    ghost use Rattle.std.specs.Prelude.{Some};

    ghost output = { λ k. Some (report_name k) };

    fn fmt<W: Write>(&self, f: &mut Formatter<W>) -> fmt::Result {
        f.write_str(self.name())
    }
}

/// Why forms are no program, and the place of the form or symbol that is the reason: 0..0 where memory ran out.
#[derive(Clone, Copy, Debug, PartialEq, Eq)]
pub struct ResolveError {
    pub kind: ResolveErrorKind,
    pub at: Span,
}

/// The refusal for this reason at this place.
pub fn refusal(kind: ResolveErrorKind, at: Span) -> ResolveError
    ensures { result ≡ record { kind = kind; at = at } }
{
    ResolveError { kind, at }
}
