//! A line for each event of a run.

ghost use Rattle.std.specs.Prelude.{◌≡◌, ◌≤◌, codes, false, length, IfOk, OnErr, OnOk};
ghost use Rattle.serde_json.specs.Data.{depth};
ghost use Rattle.serde_json.specs.View.{view};
ghost use Rattle.serde_json.specs.Written.{has_float};
ghost use Rattle.txs_cli_json.specs.Json.{AddsLine, AddsLines, times};
ghost use Rattle.txs_value_data.specs.Printed.{Extends};

use crate::array::Array;
use crate::places::Places;
use crate::spans::{Line, Part};
use crate::value::{fitting_json, name_in};
use serde_json::Value as Json;
use std::alloc::{AllocError, Global};
use txs_cli_events::{Noted, Replayed};
use txs_cli_report::events::name_of;
use txs_value_cell::{Action, CellDefinition};
use txs_value_data::{Callee, CellId, Fault, Value};
use txs_world_protocol::{Cause, EventKind, Place};

/// The values of an action.
type Args = Array<35>;

/// Objects in a row.
type Parts = Array<37>;

/// What an event's line is made of, beside the event.
#[derive(Clone, Copy)]
pub(crate) struct Around<'a> {
    pub(crate) places: &'a Places<'a>,
    pub(crate) run: Replayed<'a>,
}

/// Puts in what is called: an operation by its name, or a function by its number.
fn put_callee(object: &mut Part, callee: Callee) -> Result<(), AllocError> {
    match callee {
        Callee::Core(op) => object.put_bytes("callee", op.name()),
        Callee::Function(number) => object.put_number("callee", u64::from(number)),
    }
}

/// Values in a row.
fn args_json(alloc: Global, cells: &[CellDefinition], args: &[Value]) -> Result<Json, AllocError>
    ensures shallow { IfOk result (λ v. depth (view v) ≤ 36) }
    ensures whole { IfOk result (λ v. has_float (view v) ≡ false) }
{
    let mut list = Args::new(alloc);
    for arg in args {
        list.push(fitting_json(alloc, cells, arg)?)?;
    }
    Ok(list.into_value())
}

/// An action that was sent.
fn action_json(alloc: Global, cells: &[CellDefinition], action: &Action) -> Result<Json, AllocError>
    ensures shallow { IfOk result (λ v. depth (view v) ≤ 37) }
    ensures whole { IfOk result (λ v. has_float (view v) ≡ false) }
{
    let mut object = Part::new(alloc);
    object.put_bytes("agent", name_in(cells, action.agent))?;
    put_callee(&mut object, action.callee)?;
    let args = args_json(alloc, cells, action.args.as_slice())?;
    object.put("args", args)?;
    object.put_span(action.span)?;
    Ok(object.into_value())
}

/// Puts in what was sent.
fn put_sends(
    line: &mut Line,
    cells: &[CellDefinition],
    sends: &[Action],
) -> Result<(), AllocError> {
    let alloc = line.alloc;
    let mut list = Parts::new(alloc);
    for action in sends {
        list.push(action_json(alloc, cells, action)?)?;
    }
    line.put("sends", list.into_value())
}

/// A value that a ref was given.
fn write_json(
    alloc: Global,
    cells: &[CellDefinition],
    write: &(CellId, Value),
) -> Result<Json, AllocError>
    ensures shallow { IfOk result (λ v. depth (view v) ≤ 37) }
    ensures whole { IfOk result (λ v. has_float (view v) ≡ false) }
{
    let mut object = Part::new(alloc);
    object.put_bytes("cell", name_in(cells, write.0))?;
    object.put_value("value", cells, &write.1)?;
    Ok(object.into_value())
}

/// Puts in what a transaction wrote.
fn put_writes(
    line: &mut Line,
    cells: &[CellDefinition],
    writes: &[(CellId, Value)],
) -> Result<(), AllocError> {
    let alloc = line.alloc;
    let mut list = Parts::new(alloc);
    for write in writes {
        list.push(write_json(alloc, cells, write)?)?;
    }
    line.put("writes", list.into_value())
}

/// Puts in the read point of a transaction and its last view.
fn put_points(line: &mut Line, read_point: u32, view: u32) -> Result<(), AllocError> {
    line.put_number("read_point", u64::from(read_point))?;
    line.put_number("view", u64::from(view))
}

/// The word for why a transaction has to run again.
fn cause_word(cause: Cause) -> &'static str {
    match cause {
        Cause::Outdated => "outdated",
        Cause::Held => "held",
        Cause::Commuted { .. } => "commuted",
    }
}

/// The read point of a transaction that has to run again, since a ref was written at this place or later.
fn read_point(since: u32, cause: Cause) -> u32 {
    match cause {
        Cause::Outdated | Cause::Held => since,
        Cause::Commuted { at } => at,
    }
}

/// Puts in that a transaction has to run again.
fn put_retry(line: &mut Line, since: u32, cell: &[u8], cause: Cause) -> Result<(), AllocError> {
    line.put_number("since", u64::from(since))?;
    line.put_bytes("cell", cell)?;
    line.put_text("cause", cause_word(cause))?;
    line.put_number("read_point", u64::from(read_point(since, cause)))
}

/// Puts in the fault of an action: its name, and its place.
fn put_fault_of(line: &mut Line, around: Around<'_>, fault: Fault) -> Result<(), AllocError> {
    let mut object = Part::new(line.alloc);
    object.put_text("name", fault.kind.name())?;
    object.put_place_of(around.places, Some(fault.span))?;
    line.put("fault", object.into_value())
}

/// Puts in what an action came to: the agent's new state, or its fault.
fn put_new(
    line: &mut Line,
    around: Around<'_>,
    new: &Result<Value, Fault>,
) -> Result<(), AllocError> {
    match new {
        Ok(value) => {
            line.put_value("new", around.run.cells, value)?;
            line.put_null("fault")
        }
        Err(fault) => put_fault_of(line, around, *fault),
    }
}

/// Puts in the parts of what an actor did.
fn put_kind(line: &mut Line, around: Around<'_>, kind: &EventKind) -> Result<(), AllocError> {
    let cells = around.run.cells;
    match kind {
        EventKind::Read { cell } => line.put_bytes("cell", name_in(cells, *cell)),
        EventKind::Commit {
            at,
            view,
            writes,
            sends,
        } => {
            put_points(line, *at, *view)?;
            put_writes(line, cells, writes.as_slice())?;
            put_sends(line, cells, sends.as_slice())
        }
        EventKind::Retry { since, cell, cause } => {
            put_retry(line, *since, name_in(cells, *cell), *cause)
        }
        EventKind::Fail { at, view } => put_points(line, *at, *view),
        EventKind::Refused { at, view, agent } => {
            put_points(line, *at, *view)?;
            line.put_bytes("failed_agent", name_in(cells, *agent))
        }
        EventKind::Send { action } => { put_sends(line, cells, std::slice::from_ref(action)) }
        EventKind::SendRefused { agent } => {
            line.put_bytes("failed_agent", name_in(cells, *agent))
        }
        EventKind::Act {
            agent: _,
            number,
            new,
            sends,
        } => {
            line.put_number("number", u64::from(*number))?;
            put_new(line, around, new)?;
            put_sends(line, cells, sends.as_slice())
        }
        EventKind::Swap { new } => line.put_value("new", cells, new),
        EventKind::Broke { at } => line.put_number("read_point", u64::from(*at)),
    }
}

/// Puts in where an event is: its book, which is the journal or that of the atom of this name, and its index there.
fn put_book(line: &mut Line, run: Replayed<'_>, place: Place) -> Result<(), AllocError> {
    match run.atom_of(place.book) {
        Some(atom) => line.put_bytes("book", run.cell_name(atom))?,
        None => line.put_text("book", "journal")?,
    }
    line.put_number("index", u64::from(place.at))
}

/// Puts in whose an event is: the actor's number, and the thread's number or the agent's name.
fn put_actor(line: &mut Line, run: Replayed<'_>, actor: u16) -> Result<(), AllocError> {
    line.put_number("actor", u64::from(actor))?;
    match run.agent_of(actor) {
        Some(agent) => {
            line.put_null("thread")?;
            line.put_bytes("agent", run.cell_name(agent))
        }
        None => {
            line.put_number("thread", u64::from(actor))?;
            line.put_null("agent")
        }
    }
}

/// Puts in what an actor did at a place: its word and its parts.
fn put_event(line: &mut Line, around: Around<'_>, place: Place) -> Result<(), AllocError> {
    match around.run.event_at(place) {
        Some(event) => {
            line.put_text("event", name_of(&event.kind))?;
            put_kind(line, around, &event.kind)
        }
        None => line.put_null("event"),
    }
}

/// Appends the line of an event.
fn add_event(
    alloc: Global,
    out: &mut Vec<u8>,
    around: Around<'_>,
    order: usize,
    note: Noted,
) -> Result<(), AllocError>
    ensures ok { OnOk result (AddsLine (codes "event") out.old.items out.new.items) }
    ensures err { OnErr result (out.new.items ≡ out.old.items) }
{
    let mut line = Line::new(alloc);
    line.put_number("order", order as u64)?;
    put_book(&mut line, around.run, note.event)?;
    put_actor(&mut line, around.run, note.actor)?;
    line.put_place_of(around.places, note.at)?;
    line.put_number("printed_before", note.printed as u64)?;
    put_event(&mut line, around, note.event)?;
    line.write(out, "event")
}

/// Appends the lines of all events, in the order of the run.
pub(crate) fn add_events(
    alloc: Global,
    out: &mut Vec<u8>,
    around: Around<'_>,
) -> Result<(), AllocError>
    ensures ok { OnOk result (AddsLines (times (length around.entry.run.notes.now) (codes "event")) out.old.items out.new.items) }
    ensures kept { Extends out.old.items out.new.items }
{
    for (order, note) in around.run.notes.iter().enumerate() {
        add_event(alloc, out, around, order, *note)?;
    }
    Ok(())
}
