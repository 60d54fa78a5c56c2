//! What an audit answers.

ghost use Rattle.std.specs.Prelude.{◌≡◌};
ghost use Rattle.txs_audit_book.specs.Answered.{audit_turns};

use std::alloc::{AllocError, AllocFailed};

/// What a run was to do.
#[derive(Clone, Copy)]
pub struct Terms {
    /// Whether it was to go on up to its end, as every run of the program does.
    pub finishes: bool,
    /// How many steps each actor may make.
    pub steps: u64,
}

impl Terms {
    /// How many turns an audit allows each loop: as many as an actor may make steps, or as a `u32` says at most.
    pub fn turns(self) -> u32
        ensures { result ≡ audit_turns self.steps }
    {
        if self.steps > u32::MAX as u64 {
            return u32::MAX;
        }
        self.steps as u32
    }
}

/// What an audit answers of a report. The event is an index in the actor's trace.
#[derive(Clone, Copy, PartialEq, Eq)]
pub enum Verdict {
    /// The source explains the report, and if `serial` is true, every commit is covered.
    Agrees { serial: bool },
    /// The source doesn't explain this event, or what comes behind all events.
    Differs { actor: u16, event: usize },
    /// Behind so many events a loop has as many turns as the audit allows.
    Undecided { actor: u16, event: usize },
}

/// Why an audit answers nothing.
#[derive(Clone, Copy, PartialEq, Eq)]
pub enum AuditError {
    /// There are to be no workers, or over 64, or one couldn't be started.
    NoThread,
    /// There was no memory.
    Memory,
}

impl From<AllocError> for AuditError {
    fn from(_e: AllocError) -> AuditError {
        AuditError::Memory
    }
}

impl<T: Drop> From<AllocFailed<T>> for AuditError {
    fn from(_e: AllocFailed<T>) -> AuditError {
        AuditError::Memory
    }
}
