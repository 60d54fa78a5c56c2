//! What an actor keeps of its transaction and of its unanswered ask.

use txs_frame::{Commute, Phase};
use txs_machine_stack::Stack;
use txs_value_cell::Action;
use txs_value_data::{CellId, Fault, Listed, Span, Value};

/// Where a transaction or a swap began: its span, and the stack there, whose body continues at its first instruction.
#[derive(Drop)]
pub struct Savepoint {
    pub span: Span,
    pub stack: Stack,
}

/// The transaction of an actor, or the swap that it has in hand.
#[derive(Drop)]
pub enum Transaction {
    /// None.
    Outside,
    /// It begins anew, and may run again so many times.
    Restarting {
        left: u16,
    },
    /// It runs, with so many inner ones, and may run again so many times from where it began.
    Running {
        left: u16,
        inner: u64,
        from: Savepoint,
    },
    /// At its end its tasks are done, and it may run again so many times from where it began.
    Applying {
        left: u16,
        from: Savepoint,
        phase: Phase,
    },
    /// The function of its next task runs, in a stack of its own: that of the transaction is put aside.
    Evaluating {
        left: u16,
        from: Savepoint,
        phase: Phase,
        aside: Stack,
    },
    /// There is none, and the callee of a swap is applied, whose atom was opened at this place of its book. It goes again from
    /// where it began.
    Swapping {
        cell: CellId,
        at: u32,
        from: Savepoint,
    },
    /// There is none, and no swap. The function that is an atom's validator looks at what a reset gives the atom, in a stack of its
    /// own: that of the actor is put aside.
    Judging {
        aside: Stack,
    },
    /// The function that is the validator of a swap's atom looks at what the swap gives the atom, in a stack of its own: that of
    /// the swap is put aside.
    Weighing {
        cell: CellId,
        at: u32,
        from: Savepoint,
        aside: Stack,
    },
}

/// What an actor's unanswered ask is for.
#[derive(Drop)]
pub enum Pending {
    /// A transaction begins, which may run again so many times from here.
    Begin { left: u16, from: Savepoint },
    /// A cell's value takes the cell's place at the top of the stack.
    Read(CellId),
    /// A ref's value takes the ref's place at the top of the stack, and these refs are ensured then.
    Ensure(CellId, Listed<CellId>),
    /// A ref's value goes between the ref and so many arguments, and this commute is open then, if one is.
    Open(CellId, u16, Option<Commute>),
    /// The refs that were commuted and not set are viewed, for these tasks of a transaction's end.
    View(Phase),
    /// An atom gets this value, which is at the top of the stack and takes the atom's place, too.
    Reset(CellId, Value),
    /// An action is sent, and its agent takes the place of itself and so many arguments at the top of the stack.
    Send(Action, u16),
    /// An atom's value goes between the atom and so many arguments, and a swap is applied then, which goes again from here.
    Swap(CellId, u16, Savepoint),
    /// A swap ends: its atom, which was opened at this place, gets this value, which is at the top of the stack and takes the
    /// atom's place, too.
    Close(CellId, u32, Value),
    /// A transaction ends.
    Commit,
    /// A transaction of an action ends, whose sends the action holds up to its end: it holds these then, and no others.
    Hold(Listed<Action>),
    /// A transaction has ended with a fault.
    Fail(Fault),
    /// A swap of this atom, which was opened at this place, has ended with a fault.
    Broke(CellId, u32, Fault),
    /// An agent takes the first action of its mailbox.
    Take(CellId),
    /// An agent's action is over, with the agent's new state and the action's sends, or with a fault.
    Finish(CellId, Result<(Value, Listed<Action>), Fault>),
}
