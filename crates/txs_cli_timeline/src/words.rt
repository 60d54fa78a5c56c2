//! What is written of events, values and lines: texts that are not escaped yet. Each has little more than 1,000 bytes, however long what it is written of is.

use std::alloc::{AllocError, Global};
use std::fmt::Write;
use std::str;
use txs_cli_events::Replayed;
use txs_value_cell::Action;
use txs_value_data::{CellId, CellKind, Fault, Items, Value};
use txs_world_protocol::{Cause, EventKind, Outcome};

/// How many bytes a text has before no more is written.
const MOST: usize = 1_000;

/// How deep in vectors values are written.
const DEEPEST: usize = 33;

/// Whether no more is written.
fn is_full(text: &String) -> bool {
    text.len() >= MOST
}

/// Appends as much of a text as there is room for.
fn push_text(text: &mut String, more: &str) -> Result<(), AllocError> {
    for c in more.chars() {
        if is_full(text) {
            return Ok(());
        }
        text.push(c)?;
    }
    Ok(())
}

/// Appends as much of bytes as there is room for. What is no UTF-8 becomes U+FFFD.
pub(crate) fn push_bytes(alloc: Global, text: &mut String, bytes: &[u8]) -> Result<(), AllocError> {
    let part = &bytes[..bytes.len().min(MOST)];
    match str::from_utf8(part) {
        Ok(more) => push_text(text, more),
        Err(_) => push_text(text, String::from_utf8_lossy(alloc, part)?.as_str()),
    }
}

/// Appends a name, which is ASCII.
fn push_name(text: &mut String, name: &[u8]) -> Result<(), AllocError> {
    push_text(text, str::from_utf8(name).unwrap_or("?"))
}

/// Appends a word, and the name of a cell behind it.
fn push_cell(
    text: &mut String,
    run: Replayed<'_>,
    word: &str,
    cell: CellId,
) -> Result<(), AllocError> {
    text.push_str(word)?;
    push_name(text, run.name_of(cell))
}

/// How a cell's kind begins where it is printed.
fn kind_text(kind: CellKind) -> &'static str {
    match kind {
        CellKind::Ref => "#ref",
        CellKind::Atom => "#atom",
        CellKind::Agent => "#agent",
    }
}

/// Appends a vector, with no vector in it that is deeper than so many levels.
#[cycle(push_value)]
fn push_items(text: &mut String, items: &Items, levels: usize) -> Result<(), AllocError> {
    text.push('[')?;
    for i in 0..items.len() {
        if is_full(text) {
            return Ok(());
        }
        if i > 0 {
            text.push(' ')?;
        }
        push_levels(text, items.get(i), levels)?;
    }
    text.push(']')
}

/// Appends a value, with no vector in it that is deeper than so many levels.
#[cycle(push_value)]
fn push_levels(text: &mut String, value: &Value, levels: usize) -> Result<(), AllocError> {
    match value {
        Value::Nil => text.push_str("nil"),
        Value::Truth(true) => text.push_str("true"),
        Value::Truth(false) => text.push_str("false"),
        Value::Int(n) => write!(text, "{n}"),
        Value::Key(name) => {
            text.push(':')?;
            push_name(text, name.as_bytes())
        }
        Value::Text(more) => push_text(text, more.as_str()),
        Value::Vector(items) if levels > 0 => push_items(text, items, levels - 1),
        Value::Vector(_) => text.push_str("[..]"),
        Value::Cell(id) => {
            let kind = kind_text(id.kind);
            let number = id.number;
            write!(text, "{kind}[{number}]")
        }
    }
}

/// Appends as much of a value, as `println` writes it, as there is room for.
fn push_value(text: &mut String, value: &Value) -> Result<(), AllocError> {
    push_levels(text, value, DEEPEST)
}

/// Appends a cell's name and its value.
fn push_written(text: &mut String, name: &[u8], value: &Value) -> Result<(), AllocError> {
    push_name(text, name)?;
    text.push_str(" = ")?;
    push_value(text, value)
}

/// Appends refs and their values.
fn push_writes(
    text: &mut String,
    run: Replayed<'_>,
    writes: &[(CellId, Value)],
) -> Result<(), AllocError> {
    for (i, write) in writes.iter().enumerate() {
        if is_full(text) {
            return Ok(());
        }
        if i > 0 {
            text.push_str(", ")?;
        }
        push_written(text, run.name_of(write.0), &write.1)?;
    }
    Ok(())
}

/// Appends the values that an action is sent with.
fn push_args(text: &mut String, values: &[Value]) -> Result<(), AllocError> {
    for value in values {
        if is_full(text) {
            return Ok(());
        }
        text.push(' ')?;
        push_value(text, value)?;
    }
    Ok(())
}

/// Appends an action: its agent, and what it is sent with.
fn push_action(text: &mut String, run: Replayed<'_>, action: &Action) -> Result<(), AllocError> {
    push_cell(text, run, "to ", action.agent)?;
    if action.args.as_slice().is_empty() {
        return Ok(());
    }
    text.push(':')?;
    push_args(text, action.args.as_slice())
}

/// Appends actions, each behind what is there already.
fn push_sends(text: &mut String, run: Replayed<'_>, actions: &[Action]) -> Result<(), AllocError> {
    for action in actions {
        if is_full(text) {
            return Ok(());
        }
        if !text.is_empty() {
            text.push_str("; ")?;
        }
        push_action(text, run, action)?;
    }
    Ok(())
}

/// Appends what an action came to.
fn push_result(text: &mut String, new: &Result<Value, Fault>) -> Result<(), AllocError> {
    match new {
        Ok(value) => {
            text.push_str("= ")?;
            push_value(text, value)
        }
        Err(fault) => {
            text.push_str("fault ")?;
            text.push_str(fault.kind.name())
        }
    }
}

/// The name of the atom whose book has this number.
fn atom_name<'a>(run: Replayed<'a>, book: u32) -> &'a [u8] {
    match run.atom_of(book) {
        Some(number) => run.cell_name(number),
        None => b"",
    }
}

/// What is seen beside an event, which is in this book.
pub(crate) fn words_of(
    alloc: Global,
    run: Replayed<'_>,
    kind: &EventKind,
    book: u32,
) -> Result<String, AllocError> {
    let mut text = String::new(alloc);
    push_words(&mut text, run, kind, book)?;
    Ok(text)
}

/// Appends what is seen beside an event, which is in this book.
fn push_words(
    text: &mut String,
    run: Replayed<'_>,
    kind: &EventKind,
    book: u32,
) -> Result<(), AllocError> {
    match kind {
        EventKind::Read { cell } => push_cell(text, run, "", *cell),
        EventKind::Commit { writes, sends, .. } => {
            push_writes(text, run, writes.as_slice())?;
            push_sends(text, run, sends.as_slice())
        }
        EventKind::Retry { cell, .. } => {
            push_cell(text, run, "", *cell)?;
            text.push_str(" changed")
        }
        EventKind::Fail { .. } => text.push_str("fault"),
        EventKind::Refused { agent, .. } | EventKind::SendRefused { agent } => {
            push_cell(text, run, "", *agent)?;
            text.push_str(" has failed")
        }
        EventKind::Send { action } => push_action(text, run, action),
        EventKind::Act { new, sends, .. } => {
            push_result(text, new)?;
            push_sends(text, run, sends.as_slice())
        }
        EventKind::Swap { new } => push_written(text, atom_name(run, book), new),
        EventKind::Broke { .. } => {
            push_name(text, atom_name(run, book))?;
            text.push_str(": fault")
        }
    }
}

/// What an event is, in a sentence's words.
pub(crate) fn meaning_of(kind: &EventKind) -> &'static str {
    match kind {
        EventKind::Read { .. } => "read of a cell outside every transaction",
        EventKind::Commit { .. } => "commit of a transaction",
        EventKind::Retry {
            cause: Cause::Outdated,
            ..
        } => "the transaction has to run again: the value that it reads is no longer kept",
        EventKind::Retry {
            cause: Cause::Held,
            ..
        } => "the transaction has to run again: what it set or ensured was written meanwhile",
        EventKind::Retry {
            cause: Cause::Commuted { .. },
            ..
        } => "the commutes have to be made again: the ref was written meanwhile",
        EventKind::Fail { .. } => "a fault in the transaction",
        EventKind::Refused { .. } => "the transaction is refused: an agent of its sends has failed",
        EventKind::Send { .. } => "send to an agent",
        EventKind::SendRefused { .. } => "the send is refused: its agent has failed",
        EventKind::Act { .. } => "end of an agent's action",
        EventKind::Swap { .. } => "new value of an atom",
        EventKind::Broke { .. } => "a fault in the function of a swap!",
    }
}

/// Appends the points at which a transaction read.
pub(crate) fn push_points(text: &mut String, kind: &EventKind) -> Result<(), AllocError> {
    match kind {
        EventKind::Commit { at, view, .. }
        | EventKind::Fail { at, view }
        | EventKind::Refused { at, view, .. } => {
            write!(text, "read point {at}, last view {view}\n")
        }
        EventKind::Retry {
            since,
            cause: Cause::Commuted { at },
            ..
        } => write!(text, "read point {at}, last view {since}\n"),
        EventKind::Retry { since, .. } => write!(text, "read point {since}\n"),
        EventKind::Act { number, .. } => write!(text, "action {number} of the agent\n"),
        _ => Ok(()),
    }
}

/// Appends an actor's name.
pub(crate) fn push_actor(
    text: &mut String,
    run: Replayed<'_>,
    actor: u16,
) -> Result<(), AllocError> {
    match run.agent_of(actor) {
        Some(number) => {
            text.push_str("agent ")?;
            push_name(text, run.cell_name(number))
        }
        None => write!(text, "thread {actor}"),
    }
}

/// How an actor ended, in a word or two.
pub(crate) fn push_outcome(text: &mut String, outcome: Option<Outcome>) -> Result<(), AllocError> {
    match outcome {
        Some(Outcome::Done) => text.push_str("done"),
        Some(Outcome::Failed(fault)) => {
            text.push_str("failed: ")?;
            text.push_str(fault.kind.name())
        }
        Some(Outcome::StepsSpent) => text.push_str("stopped: StepsSpent"),
        Some(Outcome::JournalFull) => text.push_str("stopped: JournalFull"),
        Some(Outcome::Memory) => text.push_str("stopped: Memory"),
        None => text.push_str("at rest"),
    }
}
