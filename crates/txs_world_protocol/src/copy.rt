//! Copies of asks, replies and events, each equal to what it was made of. Their values are shared, and
//! their lists are not.
ghost use Rattle.std.specs.Prelude.{◌≡◌, IfOk};

use crate::ask::{Ask, Reply};
use crate::event::{Event, EventKind};
use std::alloc::{AllocError, Global};
use txs_value_cell::{Action, copy_action};
use txs_value_data::{CellId, Fault, Listed, Value, copy_value, copy_values};

/// The same cells with the same values in a list of its own.
pub fn copy_writes(
    alloc: Global,
    writes: &Listed<(CellId, Value)>,
) -> Result<Listed<(CellId, Value)>, AllocError>
    ensures { IfOk result (λ c. c ≡ writes.now) }
{
    let writes = writes.as_slice();
    let mut copies = Vec::with_capacity(alloc, writes.len())?;
    for write in writes {
        copies.push_reserved((write.0, copy_value(&write.1)?));
    }
    Ok(Listed::from_vec(copies))
}

/// The same actions in a list of its own.
fn copy_actions(alloc: Global, actions: &Listed<Action>) -> Result<Listed<Action>, AllocError>
    ensures { IfOk result (λ c. c ≡ actions.now) }
{
    let actions = actions.as_slice();
    let mut copies = Vec::with_capacity(alloc, actions.len())?;
    for action in actions {
        copies.push_reserved(copy_action(action)?);
    }
    Ok(Listed::from_vec(copies))
}

/// The same new state of an agent, or the same fault.
fn copy_new(new: &Result<Value, Fault>) -> Result<Result<Value, Fault>, AllocError>
    ensures { IfOk result (λ c. c ≡ new.now) }
{
    match new {
        Ok(value) => Ok(Ok(copy_value(value)?)),
        Err(fault) => Ok(Err(*fault)),
    }
}

/// The same ask whose lists are its own.
pub fn copy_ask(alloc: Global, ask: &Ask) -> Result<Ask, AllocError>
    ensures { IfOk result (λ c. c ≡ ask.now) }
{
    match ask {
        Ask::Begin => Ok(Ask::Begin),
        Ask::Look { cell, at } => Ok(Ask::Look {
            cell: *cell,
            at: *at,
        }),
        Ask::View { cells } => Ok(Ask::View {
            cells: Listed::from_vec(Vec::from_slice(alloc, cells.as_slice())?),
        }),
        Ask::Commit {
            at,
            sets,
            ensured,
            view,
            commuted,
            sends,
        } => {
            let ensured = Vec::from_slice(alloc, ensured.as_slice())?;
            let sets = copy_writes(alloc, sets)?;
            let commuted = copy_writes(alloc, commuted)?;
            let sends = copy_actions(alloc, sends)?;
            Ok(Ask::Commit {
                at: *at,
                sets,
                ensured: Listed::from_vec(ensured),
                view: *view,
                commuted,
                sends,
            })
        }
        Ask::Fail { at, view } => Ok(Ask::Fail {
            at: *at,
            view: *view,
        }),
        Ask::Peek { cell } => Ok(Ask::Peek { cell: *cell }),
        Ask::Send { action } => Ok(Ask::Send {
            action: copy_action(action)?,
        }),
        Ask::Take { agent } => Ok(Ask::Take { agent: *agent }),
        Ask::Finish { agent, new, sends } => {
            let sends = copy_actions(alloc, sends)?;
            let new = copy_new(new)?;
            Ok(Ask::Finish {
                agent: *agent,
                new,
                sends,
            })
        }
        Ask::OpenAt { cell } => Ok(Ask::OpenAt { cell: *cell }),
        Ask::CloseAt { cell, at, new } => Ok(Ask::CloseAt {
            cell: *cell,
            at: *at,
            new: copy_value(new)?,
        }),
        Ask::Broke { cell, at } => Ok(Ask::Broke {
            cell: *cell,
            at: *at,
        }),
    }
}

/// The same reply whose lists are its own.
pub fn copy_reply(alloc: Global, reply: &Reply) -> Result<Reply, AllocError>
    ensures { IfOk result (λ c. c ≡ reply.now) }
{
    match reply {
        Reply::At(place) => Ok(Reply::At(*place)),
        Reply::Is(value) => Ok(Reply::Is(copy_value(value)?)),
        Reply::Views(view, values) => Ok(Reply::Views(*view, copy_values(alloc, values)?)),
        Reply::Done => Ok(Reply::Done),
        Reply::Retry(cell) => Ok(Reply::Retry(*cell)),
        Reply::Changed(cell) => Ok(Reply::Changed(*cell)),
        Reply::AgentIsFailed(agent) => Ok(Reply::AgentIsFailed(*agent)),
        Reply::Action {
            number,
            action,
            state,
        } => {
            let action = copy_action(action)?;
            let state = copy_value(state)?;
            Ok(Reply::Action {
                number: *number,
                action,
                state,
            })
        }
        Reply::Idle => Ok(Reply::Idle),
        Reply::Opened(at, value) => Ok(Reply::Opened(*at, copy_value(value)?)),
        Reply::Full => Ok(Reply::Full),
        Reply::Memory => Ok(Reply::Memory),
    }
}

fn copy_kind(alloc: Global, kind: &EventKind) -> Result<EventKind, AllocError>
    ensures { IfOk result (λ c. c ≡ kind.now) }
{
    match kind {
        EventKind::Read { cell } => Ok(EventKind::Read { cell: *cell }),
        EventKind::Commit {
            at,
            view,
            writes,
            sends,
        } => {
            let writes = copy_writes(alloc, writes)?;
            let sends = copy_actions(alloc, sends)?;
            Ok(EventKind::Commit {
                at: *at,
                view: *view,
                writes,
                sends,
            })
        }
        EventKind::Retry { since, cell, cause } => Ok(EventKind::Retry {
            since: *since,
            cell: *cell,
            cause: *cause,
        }),
        EventKind::Fail { at, view } => Ok(EventKind::Fail {
            at: *at,
            view: *view,
        }),
        EventKind::Refused { at, view, agent } => Ok(EventKind::Refused {
            at: *at,
            view: *view,
            agent: *agent,
        }),
        EventKind::Send { action } => Ok(EventKind::Send {
            action: copy_action(action)?,
        }),
        EventKind::SendRefused { agent } => Ok(EventKind::SendRefused { agent: *agent }),
        EventKind::Act {
            agent,
            number,
            new,
            sends,
        } => {
            let sends = copy_actions(alloc, sends)?;
            let new = copy_new(new)?;
            Ok(EventKind::Act {
                agent: *agent,
                number: *number,
                new,
                sends,
            })
        }
        EventKind::Swap { new } => Ok(EventKind::Swap {
            new: copy_value(new)?,
        }),
        EventKind::Broke { at } => Ok(EventKind::Broke { at: *at }),
    }
}

/// The same event whose lists are its own.
pub fn copy_event(alloc: Global, event: &Event) -> Result<Event, AllocError>
    ensures { IfOk result (λ c. c ≡ event.now) }
{
    Ok(Event {
        actor: event.actor,
        kind: copy_kind(alloc, &event.kind)?,
    })
}
