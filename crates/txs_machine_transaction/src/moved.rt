//! What instructions on cells or the transaction come to.

use crate::state::Pending;
use txs_value_cell::Action;
use txs_value_data::{CellId, Fault, FaultKind};

/// What an instruction on cells or the transaction came to.
#[derive(Drop)]
pub enum Moved {
    /// The next instruction follows.
    On,
    /// The same instruction follows.
    Stays,
    /// The shared state has to be asked.
    Asks(Pending),
    /// An action is sent outside transactions. Its agent takes the place of itself and so many arguments at the top of the stack.
    Sends(Action, u16),
    /// A fault of the instruction.
    Faults(FaultKind),
    /// A fault of another place.
    Falls(Fault),
    /// There was no memory.
    Memory,
}

/// What most instructions on cells or the transaction come to, in few words.
#[derive(Clone, Copy)]
pub enum Quick {
    /// The next instruction follows.
    On,
    /// A cell's value has to be asked for.
    Reads(CellId),
    /// A ref's value has to be asked for, which goes below so many arguments.
    Opens(CellId, u16),
    /// A transaction begins, which may run again so many times.
    Begins(u16),
    /// The transaction ends, with no commutes.
    Commits,
    /// A fault of the instruction.
    Faults(FaultKind),
    /// There was no memory.
    Memory,
}
