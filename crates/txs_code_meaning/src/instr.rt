//! Instructions.

use txs_value_cell::{LookForm, PutForm, UpdateForm};
use txs_value_data::{Callee, Op};

/// What an open begins, with the callee that it names; that of `alter` names none.
#[derive(Clone, Copy)]
pub enum OpenForm {
    /// `alter`
    Alter,
    /// `commute`
    Commute(Callee),
    /// `swap!`
    Swap(Callee),
}

/// An instruction. Its places are numbers of instructions of the same body, from 0.
#[derive(Clone, Copy)]
pub enum Instr {
    /// Pushes a constant, by its number.
    Const(u32),
    /// Pushes a local, by its number.
    Local(u8),
    /// Pops a value into a local.
    Store(u8),
    /// Pops a value.
    Pop,
    /// Goes on at a place.
    Jump(u32),
    /// Pops a value, and continues at a place where it is logically false.
    JumpFalse(u32),
    /// A core operation on so many values at the top of the stack, with its value in their place.
    Core(Op, u16),
    /// A function, by its number, on as many values at the top of the stack as it has parameters, with its value in their
    /// place.
    Call(u16),
    /// Ends a function with the value at the top of the stack.
    Return,
    /// A vector of so many values at the top of the stack, in their place.
    Vector(u16),
    /// Prints so many values at the top of the stack as a line, with nil in their place.
    Print(u16),
    /// Reads the cell at the top of the stack, with its value in its place.
    Look(LookForm),
    /// Gives the cell below the top of the stack the value at the top, which stands then in the place of both.
    Put(PutForm),
    /// A transaction begins, or joins the one that runs.
    TxBegin,
    /// A transaction ends, or leaves the one that runs.
    TxEnd,
    /// The value of the cell that is below so many values, between it and them. At once behind it stand the operation or call
    /// of the callee, on that value and those, and the close.
    Open(OpenForm, u16),
    /// The value at the top of the stack becomes that of the cell below it, in whose place it stands then.
    Close(UpdateForm),
    /// Sends the agent that is below so many values an action: the callee, which is to be called on the agent's state and
    /// these values. The agent is in the place of all.
    Send(Callee, u16),
    /// Ends a thread.
    Halt,
}
