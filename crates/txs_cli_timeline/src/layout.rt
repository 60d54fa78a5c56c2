//! Where in the picture each event is, and what is joined to what.
//!
//! A column is an event. An edge is a number of columns: it is right behind so many of them.

use std::alloc::{AllocError, Global};
use txs_cli_events::{Noted, Replayed};
use txs_value_cell::Action;
use txs_value_data::{CellId, Value};
use txs_world_protocol::{Cause, EventKind, Place};

/// A place in the picture: the column of an event, and the lane of its actor.
#[derive(Clone, Copy)]
pub(crate) struct Spot {
    pub(crate) column: usize,
    pub(crate) lane: usize,
}

/// Two places that are joined.
#[derive(Clone, Copy)]
pub(crate) struct Link {
    pub(crate) from: Spot,
    pub(crate) to: Spot,
}

/// How far an actor had come: behind which edge its last event is, and how many bytes it had printed before that.
#[derive(Clone, Copy)]
pub(crate) struct Progress {
    pub(crate) edge: usize,
    pub(crate) printed: usize,
}

/// What is known of a column.
#[derive(Clone, Copy)]
pub(crate) struct Step {
    /// The edge at which the bar of its transaction begins, if it ends one.
    pub(crate) bar: Option<usize>,
    /// How far its actor had come before it.
    pub(crate) before: Progress,
    /// The column of its actor's next event, or how many columns there are.
    pub(crate) next: usize,
}

/// A picture's parts, by their places.
#[derive(Drop)]
pub(crate) struct Layout {
    pub(crate) steps: Vec<Step>,
    /// How far each actor came.
    pub(crate) lanes: Vec<Progress>,
    /// Each retry, and the event that caused it.
    pub(crate) causes: Vec<Link>,
    /// Each send, and the event of the action that it is.
    pub(crate) sends: Vec<Link>,
}

/// Who wrote a cell last: the number of the event in the journal, and its place.
#[derive(Clone, Copy)]
struct Writer {
    number: u32,
    at: Spot,
}

/// What is known of the cells and of the journal while the events are gone through.
#[derive(Drop)]
struct Tables {
    /// The edge behind each event of the journal.
    journal: Vec<usize>,
    /// Of each cell who wrote it last.
    writers: Vec<Option<Writer>>,
    /// Of each cell the places of the actions that were sent to it, in their order.
    mail: Vec<Vec<Spot>>,
}

impl Tables {
    fn new(alloc: Global, run: Replayed<'_>) -> Result<Tables, AllocError> {
        let mut journal = Vec::new(alloc);
        journal.resize(run.report.book.len(), 0)?;
        let mut writers = Vec::new(alloc);
        writers.resize(run.cells.len(), None)?;
        let mut mail = Vec::new(alloc);
        for _ in run.cells {
            mail.push(Vec::new(alloc))?;
        }
        Ok(Tables {
            journal,
            writers,
            mail,
        })
    }

    /// The edge at which a transaction with this read point begins, of an actor whose last event is before this edge.
    fn bar(&self, at: u32, edge: usize) -> usize {
        match self.journal.get((at as usize).wrapping_sub(1)) {
            Some(read) => edge.max(*read),
            None => edge,
        }
    }

    /// Keeps that a cell is written.
    fn write(&mut self, cell: CellId, writer: Writer) {
        if let Some(kept) = self.writers.get_mut(usize::from(cell.number)) {
            *kept = Some(writer);
        }
    }

    /// Keeps that refs are written.
    fn write_all(&mut self, writes: &[(CellId, Value)], writer: Writer) {
        for write in writes {
            self.write(write.0, writer);
        }
    }

    /// Keeps that an action is sent.
    fn send(&mut self, action: &Action, at: Spot) -> Result<(), AllocError> {
        match self.mail.get_mut(usize::from(action.agent.number)) {
            Some(mail) => Ok(mail.push(at)?),
            None => Ok(()),
        }
    }

    /// Keeps that actions are sent.
    fn send_all(&mut self, actions: &[Action], at: Spot) -> Result<(), AllocError> {
        for action in actions {
            self.send(action, at)?;
        }
        Ok(())
    }

    /// Keeps what an event wrote and sent.
    fn add(&mut self, kind: &EventKind, writer: Writer) -> Result<(), AllocError> {
        match kind {
            EventKind::Commit { writes, sends, .. } => {
                self.write_all(writes.as_slice(), writer);
                self.send_all(sends.as_slice(), writer.at)
            }
            EventKind::Send { action } => self.send(action, writer.at),
            EventKind::Act {
                agent,
                new,
                sends,
                ..
            } => {
                if new.is_ok() {
                    self.write(*agent, writer);
                }
                self.send_all(sends.as_slice(), writer.at)
            }
            _ => Ok(()),
        }
    }

    /// Keeps where an event is, if it is one of the journal.
    fn place(&mut self, event: Place, column: usize) {
        if event.book != 0 {
            return;
        }
        if let Some(edge) = self.journal.get_mut(event.at as usize) {
            *edge = column.saturating_add(1);
        }
    }

    /// Where the last event is that wrote a cell, if its number is this one or later.
    fn cause(&self, cell: CellId, since: u32) -> Option<Spot> {
        let writer = (*self.writers.get(usize::from(cell.number))?)?;
        if writer.number < since {
            return None;
        }
        Some(writer.at)
    }

    /// Where an agent's action of this number, counted from 1, was sent.
    fn sender(&self, agent: CellId, number: u32) -> Option<Spot> {
        let mail = self.mail.get(usize::from(agent.number))?;
        mail.get((number as usize).wrapping_sub(1)).copied()
    }
}

/// The read point of the transaction of which an event is the end, if it is that of one.
fn read_point(kind: &EventKind) -> Option<u32> {
    match kind {
        EventKind::Commit { at, .. } | EventKind::Fail { at, .. } | EventKind::Refused { at, .. } =>
            Some(*at),
        EventKind::Retry {
            cause: Cause::Commuted { at },
            ..
        } => Some(*at),
        EventKind::Retry { since, .. } => Some(*since),
        _ => None,
    }
}

impl Layout {
    /// Adds a link from where it comes, if that is known.
    fn link(links: &mut Vec<Link>, from: Option<Spot>, to: Spot) -> Result<(), AllocError> {
        match from {
            Some(from) => Ok(links.push(Link { from, to })?),
            None => Ok(()),
        }
    }

    /// Adds the links to an event.
    fn add_links(&mut self, tables: &Tables, kind: &EventKind, at: Spot) -> Result<(), AllocError> {
        match kind {
            EventKind::Retry { since, cell, .. } => {
                Layout::link(&mut self.causes, tables.cause(*cell, *since), at)
            }
            EventKind::Act { agent, number, .. } => {
                Layout::link(&mut self.sends, tables.sender(*agent, *number), at)
            }
            _ => Ok(()),
        }
    }

    /// Keeps of an event's column what bar ends there, and how far its actor has come.
    fn add_step(&mut self, bar: Option<usize>, printed: usize, at: Spot) {
        let Some(progress) = self.lanes.get_mut(at.lane) else {
            return;
        };
        let before = *progress;
        *progress = Progress {
            edge: at.column.saturating_add(1),
            printed,
        };
        if let Some(last) = self.steps.get_mut(before.edge.wrapping_sub(1)) {
            last.next = at.column;
        }
        if let Some(step) = self.steps.get_mut(at.column) {
            step.bar = bar;
            step.before = before;
        }
    }

    /// Adds an event, which is in this column.
    fn add(
        &mut self,
        tables: &mut Tables,
        run: Replayed<'_>,
        column: usize,
        note: Noted,
    ) -> Result<(), AllocError> {
        let at = Spot {
            column,
            lane: usize::from(note.actor),
        };
        let Some(event) = run.event_at(note.event) else {
            return Ok(());
        };
        let edge = self.edge_of(at.lane);
        let bar = match read_point(&event.kind) {
            Some(read) => Some(tables.bar(read, edge)),
            None => None,
        };
        self.add_links(tables, &event.kind, at)?;
        self.add_step(bar, note.printed, at);
        let number = note.event.at;
        tables.add(&event.kind, Writer { number, at })?;
        tables.place(note.event, column);
        Ok(())
    }

    /// The edge behind the last event of an actor.
    fn edge_of(&self, lane: usize) -> usize {
        match self.lanes.get(lane) {
            Some(progress) => progress.edge,
            None => 0,
        }
    }

    /// A picture of these many events without links.
    fn empty(alloc: Global, events: usize, lanes: usize) -> Result<Layout, AllocError> {
        let start = Progress {
            edge: 0,
            printed: 0,
        };
        let step = Step {
            bar: None,
            before: start,
            next: events,
        };
        let mut layout = Layout {
            steps: Vec::new(alloc),
            lanes: Vec::new(alloc),
            causes: Vec::new(alloc),
            sends: Vec::new(alloc),
        };
        layout.steps.resize(events, step)?;
        layout.lanes.resize(lanes, start)?;
        Ok(layout)
    }

    /// Where each of these events of a run is, and what is joined to what.
    pub(crate) fn of_run(
        alloc: Global,
        run: Replayed<'_>,
        notes: &[Noted],
    ) -> Result<Layout, AllocError> {
        let lanes = run
            .report
            .threads
            .len()
            .saturating_add(run.report.agents.len());
        let mut layout = Layout::empty(alloc, notes.len(), lanes)?;
        let mut tables = Tables::new(alloc, run)?;
        for (column, note) in notes.iter().enumerate() {
            layout.add(&mut tables, run, column, *note)?;
        }
        Ok(layout)
    }
}
