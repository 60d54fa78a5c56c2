//! The parts of an event, behind its word.

ghost use Rattle.std.specs.Prelude.{◌≡◌, ◌++◌, OnOk};
ghost use Rattle.std.specs.List.{flat_map};
ghost use Rattle.txs_cli_events.specs.LongLines.{act_words, argument_words, at_words, call_words, callee_words, cause_words, commit_words, each, failed_words, outcome_words, parts, read_words, retry_words, send_words, sent_words, since_words, span_words, view_words, write_mark, write_words};
ghost use Rattle.txs_cli_events.specs.Run.{cell_name};
ghost use Rattle.txs_cli_events.specs.Shown.{shown};
ghost use Rattle.txs_value_data.specs.View.{plain_of};

use crate::seen::Replayed;
use crate::shown::write_shown;
use std::alloc::AllocError;
use txs_cli_report::{write_both, write_number};
use txs_value_cell::Action;
use txs_value_data::{Callee, CellId, Fault, Span, Value};
use txs_world_protocol::{Cause, EventKind};

/// Appends a span behind these bytes.
fn write_span(out: &mut Vec<u8>, before: &[u8], span: Span) -> Result<(), AllocError>
    ensures { OnOk result (out.new.items ≡ out.old.items ++ (before.now ++ span_words span)) }
{
    write_number(out, before, span.from as usize)?;
    write_number(out, b"..", span.to as usize)
}

/// Appends where in the script it is, if that is known.
pub(crate) fn write_at(out: &mut Vec<u8>, at: Option<Span>) -> Result<(), AllocError>
    ensures { OnOk result (out.new.items ≡ out.old.items ++ at_words at) }
{
    match at {
        Some(span) => write_span(out, b" at ", span),
        None => Ok(()),
    }
}

/// Appends a value behind these bytes.
fn write_value(out: &mut Vec<u8>, before: &[u8], value: &Value) -> Result<(), AllocError>
    ensures { OnOk result (out.new.items ≡ out.old.items ++ (before.now ++ shown (plain_of value.now))) }
{
    out.extend_from_slice(before)?;
    write_shown(out, value)
}

/// Appends a cell's name behind these bytes.
fn write_name(
    out: &mut Vec<u8>,
    run: Replayed<'_>,
    before: &[u8],
    cell: CellId,
) -> Result<(), AllocError>
    ensures { OnOk result (out.new.items ≡ out.old.items ++ (before.now ++ cell_name run.entry.cells.now cell.number)) }
{
    write_both(out, before, run.name_of(cell))
}

/// Appends what is called.
fn write_callee(out: &mut Vec<u8>, callee: Callee) -> Result<(), AllocError>
    ensures { OnOk result (out.new.items ≡ out.old.items ++ callee_words callee) }
{
    match callee {
        Callee::Core(op) => write_both(out, b" core ", op.name()),
        Callee::Function(function) => write_number(out, b" fn ", usize::from(function)),
    }
}

/// Appends an argument, by its index.
fn write_argument(out: &mut Vec<u8>, i: usize, value: &Value) -> Result<(), AllocError>
    ensures { OnOk result (out.new.items ≡ out.old.items ++ argument_words i value.now) }
{
    match i {
        0 => write_value(out, b" with ", value),
        _ => write_value(out, b" ", value),
    }
}

/// Appends arguments.
fn write_arguments(out: &mut Vec<u8>, values: &[Value]) -> Result<(), AllocError>
    ensures { OnOk result (out.new.items ≡ out.old.items ++ each argument_words 0 values.now) }
{
    for (i, value) in values.iter().enumerate() {
        write_argument(out, i, value)?;
    }
    Ok(())
}

/// Appends what an action calls, and with which arguments.
fn write_call(out: &mut Vec<u8>, action: &Action) -> Result<(), AllocError>
    ensures { OnOk result (out.new.items ≡ out.old.items ++ call_words action.now) }
{
    write_callee(out, action.callee)?;
    write_arguments(out, action.args.as_slice())
}

/// What is before the value that a ref got, by its index.
fn write_mark(i: usize) -> &'static [u8]
    ensures { result.now ≡ write_mark i }
{
    match i {
        0 => b": ",
        _ => b", ",
    }
}

/// Appends a value that a ref got, by its index.
fn write_write(
    out: &mut Vec<u8>,
    run: Replayed<'_>,
    i: usize,
    write: &(CellId, Value),
) -> Result<(), AllocError>
    ensures { OnOk result (out.new.items ≡ out.old.items ++ write_words run.entry.cells.now i write.now) }
{
    write_name(out, run, write_mark(i), write.0)?;
    write_value(out, b" = ", &write.1)
}

/// Appends the values that refs got.
fn write_writes(
    out: &mut Vec<u8>,
    run: Replayed<'_>,
    writes: &[(CellId, Value)],
) -> Result<(), AllocError>
    ensures { OnOk result (out.new.items ≡ out.old.items ++ each (write_words run.entry.cells.now) 0 writes.now) }
{
    for (i, write) in writes.iter().enumerate() {
        write_write(out, run, i, write)?;
    }
    Ok(())
}

/// Appends an action that was sent.
fn write_sent(out: &mut Vec<u8>, run: Replayed<'_>, action: &Action) -> Result<(), AllocError>
    ensures { OnOk result (out.new.items ≡ out.old.items ++ sent_words run.entry.cells.now action.now) }
{
    write_name(out, run, b"; sends ", action.agent)?;
    write_call(out, action)?;
    write_span(out, b" at ", action.span)
}

/// Appends the actions that were sent.
fn write_sends(out: &mut Vec<u8>, run: Replayed<'_>, actions: &[Action]) -> Result<(), AllocError>
    ensures { OnOk result (out.new.items ≡ out.old.items ++ flat_map (sent_words run.entry.cells.now) actions.now) }
{
    for action in actions {
        write_sent(out, run, action)?;
    }
    Ok(())
}

/// Appends that an agent has failed.
fn write_failed(out: &mut Vec<u8>, run: Replayed<'_>, agent: CellId) -> Result<(), AllocError>
    ensures { OnOk result (out.new.items ≡ out.old.items ++ failed_words run.entry.cells.now agent) }
{
    write_name(out, run, b": agent ", agent)?;
    out.extend_from_slice(b" has failed")
}

/// Appends the read point of a transaction.
fn write_read_point(out: &mut Vec<u8>, at: u32) -> Result<(), AllocError>
    ensures { OnOk result (out.new.items ≡ out.old.items ++ read_words at) }
{
    write_number(out, b", read point ", at as usize)
}

/// Appends the read point of a transaction, and the place of its last view.
fn write_view(out: &mut Vec<u8>, at: u32, view: u32) -> Result<(), AllocError>
    ensures { OnOk result (out.new.items ≡ out.old.items ++ view_words at view) }
{
    write_read_point(out, at)?;
    write_number(out, b", view ", view as usize)
}

/// Appends from where a transaction runs again.
fn write_since(out: &mut Vec<u8>, cause: Cause, since: u32) -> Result<(), AllocError>
    ensures { OnOk result (out.new.items ≡ out.old.items ++ since_words cause since) }
{
    match cause {
        Cause::Outdated | Cause::Held => write_read_point(out, since),
        Cause::Commuted { at } => write_view(out, at, since),
    }
}

/// Why a transaction runs again.
fn cause_words(cause: Cause) -> &'static [u8]
    ensures { result.now ≡ cause_words cause }
{
    match cause {
        Cause::Outdated => b" (outdated)",
        Cause::Held => b" (held)",
        Cause::Commuted { .. } => b" (commuted)",
    }
}

/// Appends the parts of a retry.
fn write_retry(
    out: &mut Vec<u8>,
    run: Replayed<'_>,
    since: u32,
    cell: CellId,
    cause: Cause,
) -> Result<(), AllocError>
    ensures { OnOk result (out.new.items ≡ out.old.items ++ retry_words run.entry.cells.now since cell cause) }
{
    write_since(out, cause, since)?;
    write_name(out, run, b": ", cell)?;
    write_number(out, b" was written since ", since as usize)?;
    out.extend_from_slice(cause_words(cause))
}

/// Appends what an action gave.
fn write_outcome(out: &mut Vec<u8>, new: &Result<Value, Fault>) -> Result<(), AllocError>
    ensures { OnOk result (out.new.items ≡ out.old.items ++ outcome_words new.now) }
{
    match new {
        Ok(value) => write_value(out, b" gives ", value),
        Err(fault) => {
            write_both(out, b" fails as ", fault.kind.name().as_bytes())?;
            write_span(out, b" at ", fault.span)
        }
    }
}

/// Appends the parts of a commit.
fn write_commit(
    out: &mut Vec<u8>,
    run: Replayed<'_>,
    at: u32,
    view: u32,
    writes: &[(CellId, Value)],
    sends: &[Action],
) -> Result<(), AllocError>
    ensures { OnOk result (out.new.items ≡ out.old.items ++ commit_words run.entry.cells.now at view writes.now sends.now) }
{
    write_view(out, at, view)?;
    write_writes(out, run, writes)?;
    write_sends(out, run, sends)
}

/// Appends the parts of a transaction that wrote nothing, since an agent has failed.
fn write_refused(
    out: &mut Vec<u8>,
    run: Replayed<'_>,
    at: u32,
    view: u32,
    agent: CellId,
) -> Result<(), AllocError>
    ensures { OnOk result (out.new.items ≡ out.old.items ++ (view_words at view ++ failed_words run.entry.cells.now agent)) }
{
    write_view(out, at, view)?;
    write_failed(out, run, agent)
}

/// Appends the parts of a send.
fn write_send(out: &mut Vec<u8>, run: Replayed<'_>, action: &Action) -> Result<(), AllocError>
    ensures { OnOk result (out.new.items ≡ out.old.items ++ send_words run.entry.cells.now action.now) }
{
    write_name(out, run, b": ", action.agent)?;
    out.extend_from_slice(b" gets")?;
    write_call(out, action)
}

/// Appends the parts of an agent's action.
fn write_act(
    out: &mut Vec<u8>,
    run: Replayed<'_>,
    number: u32,
    new: &Result<Value, Fault>,
    sends: &[Action],
) -> Result<(), AllocError>
    ensures { OnOk result (out.new.items ≡ out.old.items ++ act_words run.entry.cells.now number new.now sends.now) }
{
    write_number(out, b": action ", number as usize)?;
    write_outcome(out, new)?;
    write_sends(out, run, sends)
}

/// Appends the parts of an event.
pub(crate) fn write_parts(
    out: &mut Vec<u8>,
    run: Replayed<'_>,
    kind: &EventKind,
) -> Result<(), AllocError>
    ensures { OnOk result (out.new.items ≡ out.old.items ++ parts run.entry.cells.now kind.now) }
{
    match kind {
        EventKind::Read { cell } => write_name(out, run, b": ", *cell),
        EventKind::Commit {
            at,
            view,
            writes,
            sends,
        } => write_commit(out, run, *at, *view, writes.as_slice(), sends.as_slice()),
        EventKind::Retry { since, cell, cause } => write_retry(out, run, *since, *cell, *cause),
        EventKind::Fail { at, view } => write_view(out, *at, *view),
        EventKind::Refused { at, view, agent } => write_refused(out, run, *at, *view, *agent),
        EventKind::Send { action } => write_send(out, run, action),
        EventKind::SendRefused { agent } => write_failed(out, run, *agent),
        EventKind::Act {
            number,
            new,
            sends,
            ..
        } => write_act(out, run, *number, new, sends.as_slice()),
        EventKind::Swap { new } => write_value(out, b": ", new),
        EventKind::Broke { at } => write_number(out, b": read at ", *at as usize),
    }
}
