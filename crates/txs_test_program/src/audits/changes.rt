// A report with one thing changed.
use std::alloc::{AllocError, Global};
use txs_value_cell::{Action, Arguments};
use txs_value_data::{Callee, CellId, CellKind, Fault, FaultKind, Listed, Op, Span, Value};
use txs_world_protocol::{ActorReport, Event, EventKind, Outcome, Place, Report};

/// What is changed of a report.
#[derive(Clone, Copy)]
pub enum Change {
    Nothing,
    /// The actor of the first event.
    Actor,
    /// The read point of the first commit.
    ReadPoint,
    /// The ref that it wrote.
    Ref,
    /// The value that it wrote, and the ref's, which are this.
    Written(i64),
    /// The operation that it sends.
    Sent,
    /// The number of the action.
    Number,
    /// What the action came to, and the agent's state.
    Came,
    /// What the atom was swapped to, and its value.
    Swapped,
    /// The value of the cell with this number.
    Cell(usize),
    /// The fault of the agent.
    Failed,
    /// The first byte that the thread printed, or the last, which is missing.
    Printed,
    PrintedLess,
    /// How the thread ended.
    Ended,
    /// The thread's trace, which has an entry more, or one less, or the first two in another order.
    TraceMore,
    TraceLess,
    TraceOrder,
    /// What the agent's actor printed, and how it ended.
    AgentPrinted,
    AgentEnded,
}

/// Some fault.
const FAULT: Fault = Fault {
    kind: FaultKind::Overflow,
    span: Span { from: 0, to: 1 },
};

/// The ref with this number, and the value that it is given.
fn written(alloc: Global, number: u16, value: i64) -> Result<Listed<(CellId, Value)>, AllocError> {
    let cell = CellId {
        kind: CellKind::Ref,
        number,
    };
    let mut writes = Vec::new(alloc);
    writes.push((cell, Value::Int(value)))?;
    Ok(Listed::from_vec(writes))
}

/// What the first of these actions is where it decrements.
fn decremented(alloc: Global, sends: &[Action]) -> Result<Listed<Action>, AllocError> {
    let mut changed = Vec::new(alloc);
    if let Some(action) = sends.first() {
        let agent = action.agent;
        let span = action.span;
        changed.push(Action {
            agent,
            callee: Callee::Core(Op::Dec),
            args: Arguments::none(),
            span,
        })?;
    }
    Ok(Listed::from_vec(changed))
}

/// Changes the first commit.
fn change_commit(alloc: Global, book: &mut [Event], change: Change) -> Result<(), AllocError> {
    let Some(event) = book.first_mut() else {
        return Ok(());
    };
    if let EventKind::Commit {
        at,
        view: _,
        writes,
        sends,
    } = &mut event.kind
    {
        match change {
            Change::ReadPoint => *at = 1,
            Change::Ref => *writes = written(alloc, 1, 1)?,
            Change::Written(value) => *writes = written(alloc, 0, value)?,
            Change::Sent => *sends = decremented(alloc, sends.as_slice())?,
            _ => {}
        }
    }
    Ok(())
}

/// Changes the action.
fn change_act(book: &mut [Event], change: Change) {
    let Some(event) = book.get_mut(1) else {
        return;
    };
    if let EventKind::Act {
        agent: _,
        number,
        new,
        sends: _,
    } = &mut event.kind
    {
        match change {
            Change::Number => *number = 2,
            Change::Came => *new = Ok(Value::Int(2)),
            _ => {}
        }
    }
}

/// The swap of the atom to this value, alone.
fn swapped(alloc: Global, value: i64) -> Result<Listed<Event>, AllocError> {
    let mut events = Vec::new(alloc);
    events.push(Event {
        actor: 0,
        kind: EventKind::Swap {
            new: Value::Int(value),
        },
    })?;
    Ok(Listed::from_vec(events))
}

/// The cell with this number has this value.
fn set_cell(report: &mut Report, number: usize, value: i64) {
    if let Some(cell) = report.cells.get_mut(number) {
        *cell = Value::Int(value);
    }
}

/// Changes what an actor printed, or how it ended.
fn change_end(ran: &mut ActorReport, change: Change) -> Result<(), AllocError> {
    match change {
        Change::Printed => {
            if let Some(byte) = ran.printed.first_mut() {
                *byte = b'2';
            }
        }
        Change::PrintedLess => {
            ran.printed.pop();
        }
        Change::AgentPrinted => ran.printed.push(b'2')?,
        Change::Ended => ran.outcome = Some(Outcome::Failed(FAULT)),
        Change::AgentEnded => ran.outcome = Some(Outcome::Done),
        _ => {}
    }
    Ok(())
}

/// Changes a trace.
fn change_trace(trace: &mut Vec<Place>, change: Change) -> Result<(), AllocError> {
    match change {
        Change::TraceMore => trace.push(Place { book: 0, at: 1 })?,
        Change::TraceLess => {
            trace.pop();
        }
        Change::TraceOrder => {
            if trace.len() > 1 {
                trace.swap(0, 1);
            }
        }
        _ => {}
    }
    Ok(())
}

/// Changes the entry of the thread or of the agent.
fn change_entry(rans: &mut [ActorReport], change: Change) -> Result<(), AllocError> {
    let Some(ran) = rans.first_mut() else {
        return Ok(());
    };
    change_end(ran, change)?;
    change_trace(&mut ran.trace, change)
}

/// Changes a cell or a fault, also beside an event.
fn change_left(report: &mut Report, change: Change) {
    match change {
        Change::Written(value) => set_cell(report, 0, value),
        Change::Came => set_cell(report, 2, 2),
        Change::Swapped => set_cell(report, 1, 2),
        Change::Cell(number) => set_cell(report, number, 5),
        Change::Failed => {
            if let Some(fault) = report.failed.first_mut() {
                *fault = Some(FAULT);
            }
        }
        _ => {}
    }
}

/// Changes events.
fn change_events(alloc: Global, report: &mut Report, change: Change) -> Result<(), AllocError> {
    match change {
        Change::Actor => {
            if let Some(event) = report.book.first_mut() {
                event.actor = 1;
            }
        }
        Change::Swapped => {
            if let Some(book) = report.atom_books.first_mut() {
                *book = swapped(alloc, 2)?;
            }
        }
        _ => {}
    }
    change_commit(alloc, report.book.as_mut_slice(), change)?;
    change_act(report.book.as_mut_slice(), change);
    Ok(())
}

/// Changes this of the report.
pub fn make(alloc: Global, report: &mut Report, change: Change) -> Result<(), AllocError> {
    change_events(alloc, report, change)?;
    change_left(report, change);
    match change {
        Change::AgentPrinted | Change::AgentEnded => {
            change_entry(report.agents.as_mut_slice(), change)
        }
        _ => change_entry(report.threads.as_mut_slice(), change),
    }
}
