//! The event that an answer names, in a sentence: whose it is, and where it is.

use crate::explain::Audited;
use itoa::Buffer;
use std::alloc::AllocError;
use std::str;
use txs_cli_report::events::name_of;
use txs_tree_meaning::Program;
use txs_value_cell::Action;
use txs_value_data::{CellId, CellKind, Span};
use txs_world_protocol::{ActorReport, Event, EventKind, Outcome, Place, Report};

/// An event of an actor: its index in the actor's trace, which is the trace's length where all events are behind it.
#[derive(Clone, Copy)]
pub(crate) struct EventAt {
    pub(crate) actor: u16,
    pub(crate) event: usize,
}

/// The entry of an actor: threads come first, and behind them the agents.
fn entry_of(report: &Report, actor: u16) -> Option<&ActorReport> {
    let actor = usize::from(actor);
    let threads = report.threads.len();
    if actor < threads {
        return report.threads.get(actor);
    }
    report.agents.get(actor - threads)
}

/// The event of this index in this book: 0 is the store's, n the n-th atom's.
fn event_in(report: &Report, place: Place) -> Option<&Event> {
    let at = place.at as usize;
    if place.book == 0 {
        return report.book.get(at);
    }
    let book = report.atom_books.get(place.book as usize - 1)?;
    book.as_slice().get(at)
}

/// The name of the n-th cell of this kind, counted from 0.
fn name_in(program: &Program, kind: CellKind, n: usize) -> Option<&str> {
    let mut before = n;
    for cell in program.cells() {
        if cell.kind == kind {
            if before == 0 {
                return str::from_utf8(cell.name.as_bytes()).ok();
            }
            before -= 1;
        }
    }
    None
}

/// Appends a word to a sentence, and a number behind it.
pub(crate) fn push_number(text: &mut String, word: &str, number: usize) -> Result<(), AllocError> {
    let mut buffer = Buffer::new();
    text.push_str(word)?;
    text.push_str(buffer.format(number))
}

/// Appends a word to a sentence, and a name behind it.
pub(crate) fn push_name(text: &mut String, word: &str, name: &str) -> Result<(), AllocError> {
    text.push_str(word)?;
    text.push_str(name)
}

/// Appends whose event it is: a thread's by its number, or an agent's by its name.
pub(crate) fn write_actor(
    text: &mut String,
    audited: Audited<'_>,
    actor: u16,
) -> Result<(), AllocError> {
    let number = usize::from(actor);
    let threads = audited.report.threads.len();
    if number < threads {
        return push_number(text, "thread ", number);
    }
    match name_in(audited.program, CellKind::Agent, number - threads) {
        Some(name) => push_name(text, "agent ", name),
        None => push_number(text, "actor ", number),
    }
}

/// Appends which book it is: the journal, or that of an atom.
pub(crate) fn write_book(
    text: &mut String,
    program: &Program,
    book: usize,
) -> Result<(), AllocError> {
    if book == 0 {
        return text.push_str(" of the journal");
    }
    match name_in(program, CellKind::Atom, book - 1) {
        Some(name) => push_name(text, " of the journal of atom ", name),
        None => push_number(text, " of the journal numbered ", book),
    }
}

/// Appends where an event is, and its name.
fn write_place(text: &mut String, audited: Audited<'_>, place: Place) -> Result<(), AllocError> {
    push_number(text, "index ", place.at as usize)?;
    write_book(text, audited.program, place.book as usize)?;
    match event_in(audited.report, place) {
        Some(event) => push_name(text, ", ", name_of(&event.kind)),
        None => text.push_str(", where no event is"),
    }
}

/// Appends that it is behind all of so many events.
fn write_behind(text: &mut String, events: usize) -> Result<(), AllocError> {
    match events {
        0 => text.push_str(", which has no event,"),
        1 => text.push_str(" behind its only event"),
        _ => {
            push_number(text, " behind its ", events)?;
            text.push_str(" events")
        }
    }
}

/// Appends which event of an actor it is: where it is in its trace and in its book, or that it is behind all.
pub(crate) fn write_event(
    text: &mut String,
    audited: Audited<'_>,
    at: EventAt,
) -> Result<(), AllocError> {
    let Some(entry) = entry_of(audited.report, at.actor) else {
        return text.push_str(", which the report doesn't have");
    };
    match entry.trace.get(at.event) {
        Some(place) => {
            push_number(text, " at its event ", at.event)?;
            text.push_str(" (")?;
            write_place(text, audited, *place)?;
            text.push_str(")")
        }
        None => write_behind(text, entry.trace.len()),
    }
}

/// The action that is so many-th among these to this agent, counted from 1, as its span; or how many more it takes.
fn span_among(actions: &[Action], agent: CellId, number: u32) -> Result<Span, u32> {
    let mut number = number;
    for action in actions {
        if action.agent == agent {
            if number <= 1 {
                return Ok(action.span);
            }
            number -= 1;
        }
    }
    Err(number)
}

/// The actions that an event sends.
fn sent_by(kind: &EventKind) -> &[Action] {
    match kind {
        EventKind::Send { action } => std::slice::from_ref(action),
        EventKind::Commit { sends, .. } | EventKind::Act { sends, .. } => sends.as_slice(),
        _ => &[],
    }
}

/// The form by which an agent's so many-th action was sent, counted from 1.
fn form_of_act(events: &[Event], agent: CellId, number: u32) -> Option<Span> {
    let mut number = number;
    for event in events {
        match span_among(sent_by(&event.kind), agent, number) {
            Ok(span) => return Some(span),
            Err(more) => number = more,
        }
    }
    None
}

/// The form that an event is of, where the report has it: a `send`.
fn form_of_event(report: &Report, event: &Event) -> Option<Span> {
    match &event.kind {
        EventKind::Send { action } => Some(action.span),
        EventKind::Act { agent, number, .. } => {
            form_of_act(report.book.as_slice(), *agent, *number)
        }
        _ => None,
    }
}

/// The form that the report has of an event or of an end.
fn form_in(report: &Report, at: EventAt) -> Option<Span> {
    let entry = entry_of(report, at.actor)?;
    match entry.trace.get(at.event) {
        Some(place) => form_of_event(report, event_in(report, *place)?),
        None => match entry.outcome {
            Some(Outcome::Failed(fault)) => Some(fault.span),
            _ => None,
        },
    }
}

/// The n-th agent, counted from 0.
fn agent_in(program: &Program, n: usize) -> Option<CellId> {
    let mut before = n;
    for (number, cell) in program.cells().iter().enumerate() {
        if cell.kind == CellKind::Agent {
            if before == 0 {
                let number = u16::try_from(number).ok()?;
                return Some(CellId {
                    kind: CellKind::Agent,
                    number,
                });
            }
            before -= 1;
        }
    }
    None
}

/// Whether the end of an action is at this index of this book.
fn is_act(report: &Report, place: Place) -> bool {
    match event_in(report, place) {
        Some(event) => matches!(event.kind, EventKind::Act { .. }),
        None => false,
    }
}

/// How many of these events are the ends of actions.
fn acts_among(report: &Report, places: &[Place]) -> u32 {
    let mut acts: u32 = 0;
    for place in places {
        if is_act(report, *place) {
            acts = acts.saturating_add(1);
        }
    }
    acts
}

/// The form by which the action was sent in which an event of an agent's actor is, or behind its last event the action under way.
fn form_of_action(audited: Audited<'_>, at: EventAt) -> Option<Span> {
    let report = audited.report;
    let number = usize::from(at.actor).checked_sub(report.threads.len())?;
    let agent = agent_in(audited.program, number)?;
    let trace = entry_of(report, at.actor)?.trace.as_slice();
    let before = &trace[..at.event.min(trace.len())];
    let number = acts_among(report, before).saturating_add(1);
    form_of_act(report.book.as_slice(), agent, number)
}

/// The form of the thread with this number.
fn form_of_thread(program: &Program, actor: u16) -> Option<Span> {
    Some(program.threads().get(usize::from(actor))?.span)
}

/// The form of the text that is shown: of a `send`, of the action in which an agent's event is, or of a fault, else the thread's.
pub(crate) fn form_of(audited: Audited<'_>, at: EventAt) -> Option<Span> {
    if let Some(span) = form_in(audited.report, at) {
        return Some(span);
    }
    match form_of_action(audited, at) {
        Some(span) => Some(span),
        None => form_of_thread(audited.program, at.actor),
    }
}
