//! The whole picture.

ghost use Rattle.std.specs.Prelude.{◌≡◌, OnErr, OnOk};
ghost use Rattle.txs_cli_timeline.specs.Appended.{AppendsText, Extends};

use crate::draw::{
    Frame, push_bar, push_grid, push_group, push_head, push_label, push_lane, push_link, push_sign,
    shortened,
};
use crate::layout::{Layout, Link, Progress, Step};
use crate::places::Places;
use crate::words::{meaning_of, push_actor, push_bytes, push_outcome, push_points, words_of};
use std::alloc::{AllocError, Global};
use std::fmt::Write;
use txs_cli_events::{Noted, Replayed};
use txs_cli_report::events::name_of;
use txs_value_data::Span;
use txs_world_protocol::{ActorReport, EventKind, Outcome};

/// How many events a picture has at most.
const MOST: usize = 10_000;

/// How many columns there are between two numbers of events.
const GRID: usize = 10;

/// How many columns there are between two names of a lane.
const NAMES: usize = 40;

/// How many characters are beside a sign at most.
const BESIDE: usize = 40;

/// How many characters of a value or a line are in a title at most.
const IN_TITLE: usize = 200;

/// What a picture is made of.
#[derive(Clone, Copy)]
struct Picture<'a> {
    alloc: Global,
    run: Replayed<'a>,
    notes: &'a [Noted],
    places: &'a Places<'a>,
    frame: Frame,
}

/// The class of the bar that an event ends.
fn bar_class(kind: &EventKind) -> &'static str {
    match kind {
        EventKind::Retry { .. } => "lost",
        EventKind::Fail { .. } | EventKind::Refused { .. } => "void",
        _ => "bar",
    }
}

/// The sign of how an actor ended.
fn end_sign(outcome: Option<Outcome>) -> &'static str {
    match outcome {
        Some(Outcome::Done) | None => "done",
        Some(Outcome::Failed(_)) => "failed",
        Some(Outcome::StepsSpent | Outcome::JournalFull | Outcome::Memory) => "stopped",
    }
}

/// Where an actor's end is in the script, if it failed or was stopped there.
fn end_place(report: &ActorReport) -> Option<Span> {
    match report.outcome {
        Some(Outcome::Failed(fault)) => Some(fault.span),
        _ => report.place,
    }
}

/// Appends so many things and their name.
fn push_count(text: &mut String, count: usize, name: &str) -> Result<(), AllocError> {
    let many = if count == 1 { "" } else { "s" };
    write!(text, "{count} {name}{many}")
}

/// The title of the picture.
fn title_of(alloc: Global, run: Replayed<'_>) -> Result<String, AllocError> {
    let mut title = String::from_str(alloc, "A run of ")?;
    push_count(&mut title, run.report.threads.len(), "thread")?;
    let agents = run.report.agents.len();
    if agents > 0 {
        title.push_str(" and ")?;
        push_count(&mut title, agents, "agent")?;
    }
    title.push_str(", with ")?;
    push_count(&mut title, run.notes.len(), "event")?;
    Ok(title)
}

/// What is said where the picture has fewer events than the run.
fn note_of(alloc: Global, shown: usize, all: usize) -> Result<String, AllocError> {
    if shown == all {
        return Ok(String::new(alloc));
    }
    format!(in alloc; "the first {shown} of {all} events")
}

impl<'a> Picture<'a> {
    /// Appends where a span begins in the script, as line and column, behind a word.
    fn push_place(self, text: &mut String, at: Option<Span>) -> Result<(), AllocError> {
        let Some(span) = at else {
            return Ok(());
        };
        let place = self.places.find(span.from as usize);
        let line = place.line;
        let column = place.column;
        write!(text, " at {line}:{column}")
    }

    /// The title of an event, with what is seen beside it.
    fn title(
        self,
        column: usize,
        note: Noted,
        kind: &EventKind,
        words: &str,
    ) -> Result<String, AllocError> {
        let mut title = String::new(self.alloc);
        push_actor(&mut title, self.run, note.actor)?;
        self.push_place(&mut title, note.at)?;
        title.push_str(": ")?;
        title.push_str(meaning_of(kind))?;
        let number = note.event.at;
        let book = if note.event.book == 0 {
            "the journal"
        } else {
            "its atom"
        };
        write!(
            title,
            "\nevent {column} of the run, event {number} of {book}\n"
        )?;
        push_points(&mut title, kind)?;
        title.push_str(shortened(self.alloc, words, IN_TITLE)?.as_str())?;
        Ok(title)
    }

    /// Appends what is seen of an event: its bar, its sign, and what is beside it.
    fn push_event(
        self,
        out: &mut String,
        column: usize,
        note: Noted,
        step: Step,
    ) -> Result<(), AllocError> {
        let Some(event) = self.run.event_at(note.event) else {
            return Ok(());
        };
        let kind = &event.kind;
        let words = words_of(self.alloc, self.run, kind, note.event.book)?;
        let title = self.title(column, note, kind, words.as_str())?;
        let x = self.frame.x(column);
        push_group(
            out,
            x,
            self.frame.y(usize::from(note.actor)),
            title.as_str(),
        )?;
        if let Some(edge) = step.bar {
            push_bar(
                out,
                bar_class(kind),
                x.saturating_sub(self.frame.edge(edge)),
            )?;
        }
        push_sign(out, name_of(kind))?;
        let room = self.frame.room(x, self.frame.x(step.next));
        self.push_beside(out, "class=\"t\" x=\"-9\" y=\"-15\"", words.as_str(), room)?;
        out.push_str("</g>\n")
    }

    /// Appends the text beside the origin, as much of it as there is room for.
    fn push_beside(
        self,
        out: &mut String,
        attributes: &str,
        text: &str,
        room: usize,
    ) -> Result<(), AllocError> {
        let short = shortened(self.alloc, text, room.min(BESIDE))?;
        if short.is_empty() {
            return Ok(());
        }
        push_label(out, attributes, short.as_str())
    }

    /// What an actor printed from its progress up to so many bytes, without the newline at its end.
    fn printed(self, actor: u16, before: Progress, to: usize) -> &'a [u8] {
        let Some(report) = self.run.actor(actor) else {
            return b"";
        };
        let printed = report.printed.as_slice();
        let to = to.min(printed.len());
        let part = &printed[before.printed.min(to)..to];
        match part.split_last() {
            Some((b'\n', lines)) => lines,
            _ => part,
        }
    }

    /// Appends the sign of lines that an actor printed behind an edge, with room up to this place. There is none if it printed nothing.
    fn push_printed(
        self,
        out: &mut String,
        actor: u16,
        edge: usize,
        lines: &[u8],
        to: usize,
    ) -> Result<(), AllocError> {
        if lines.is_empty() {
            return Ok(());
        }
        let x = self.frame.edge(edge).saturating_add(8);
        let mut text = String::new(self.alloc);
        push_bytes(self.alloc, &mut text, lines)?;
        let title = shortened(self.alloc, text.as_str(), IN_TITLE)?;
        push_group(
            out,
            x,
            self.frame.y(usize::from(actor)).saturating_add(22),
            title.as_str(),
        )?;
        push_sign(out, "printed")?;
        let room = self.frame.room(x.saturating_add(10), to);
        self.push_beside(out, "class=\"p\" x=\"10\" y=\"4\"", text.as_str(), room)?;
        out.push_str("</g>\n")
    }

    /// Appends an event, and what its actor printed before it.
    fn push_column(
        self,
        out: &mut String,
        column: usize,
        note: Noted,
        step: Step,
    ) -> Result<(), AllocError> {
        let lines = self.printed(note.actor, step.before, note.printed);
        let to = self.frame.edge(column.saturating_add(1));
        self.push_printed(out, note.actor, step.before.edge, lines, to)?;
        self.push_event(out, column, note, step)
    }

    /// Appends all events.
    fn push_events(self, out: &mut String, steps: &[Step]) -> Result<(), AllocError> {
        for (column, (note, step)) in self.notes.iter().zip(steps.iter()).enumerate() {
            self.push_column(out, column, *note, *step)?;
        }
        Ok(())
    }

    /// Appends links of this class.
    fn push_links(self, out: &mut String, class: &str, links: &[Link]) -> Result<(), AllocError> {
        for link in links {
            let from = (self.frame.x(link.from.column), self.frame.y(link.from.lane));
            let to = (self.frame.x(link.to.column), self.frame.y(link.to.lane));
            push_link(out, class, from, to)?;
        }
        Ok(())
    }

    /// Appends the numbers of events.
    fn push_grids(self, out: &mut String) -> Result<(), AllocError> {
        for part in 0..self.frame.columns / GRID + 1 {
            push_grid(out, self.frame, part * GRID)?;
        }
        Ok(())
    }

    /// Appends an actor's name at these places of its lane.
    fn push_names(self, out: &mut String, actor: u16, name: &str) -> Result<(), AllocError> {
        let y = self.frame.y(usize::from(actor)).saturating_add(34);
        for part in 1..self.frame.columns / NAMES + 1 {
            push_group(out, self.frame.edge(part * NAMES), y, name)?;
            push_label(out, "class=\"n\"", name)?;
            out.push_str("</g>\n")?;
        }
        Ok(())
    }

    /// How an actor ended, and where.
    fn ended(self, report: &ActorReport) -> Result<String, AllocError> {
        let mut text = String::new(self.alloc);
        push_outcome(&mut text, report.outcome)?;
        self.push_place(&mut text, end_place(report))?;
        Ok(text)
    }

    /// Appends the end of a lane: how its actor ended.
    fn push_end(
        self,
        out: &mut String,
        actor: u16,
        report: &ActorReport,
        ended: &str,
    ) -> Result<(), AllocError> {
        let x = self.frame.end().saturating_add(30);
        push_group(out, x, self.frame.y(usize::from(actor)), ended)?;
        push_sign(out, end_sign(report.outcome))?;
        push_label(out, "class=\"o\" x=\"16\" y=\"4\"", ended)?;
        out.push_str("</g>\n")
    }

    /// Appends what an actor printed behind its last event, if the picture has all events.
    fn push_last(self, out: &mut String, actor: u16, progress: Progress) -> Result<(), AllocError> {
        if self.notes.len() < self.run.notes.len() {
            return Ok(());
        }
        let lines = self.printed(actor, progress, usize::MAX);
        self.push_printed(out, actor, progress.edge, lines, self.frame.end())
    }

    /// Appends the beginning of a lane: its line, its name, and how its actor ended.
    fn push_start(
        self,
        out: &mut String,
        actor: u16,
        name: &str,
        ended: &str,
    ) -> Result<(), AllocError> {
        push_lane(out, self.frame, usize::from(actor))?;
        push_group(out, 24, self.frame.y(usize::from(actor)), name)?;
        let short = shortened(self.alloc, name, 17)?;
        push_label(out, "y=\"0\"", short.as_str())?;
        let short = shortened(self.alloc, ended, 22)?;
        push_label(out, "class=\"n\" y=\"15\"", short.as_str())?;
        out.push_str("</g>\n")
    }

    /// Appends a lane without its events.
    fn push_lane(self, out: &mut String, actor: u16, progress: Progress) -> Result<(), AllocError> {
        let Some(report) = self.run.actor(actor) else {
            return Ok(());
        };
        let mut name = String::new(self.alloc);
        push_actor(&mut name, self.run, actor)?;
        let ended = self.ended(report)?;
        self.push_start(out, actor, name.as_str(), ended.as_str())?;
        self.push_names(out, actor, name.as_str())?;
        self.push_last(out, actor, progress)?;
        self.push_end(out, actor, report, ended.as_str())
    }

    /// Appends all lanes without their events.
    fn push_lanes(self, out: &mut String, lanes: &[Progress]) -> Result<(), AllocError> {
        for (actor, progress) in lanes.iter().enumerate() {
            let Ok(actor) = u16::try_from(actor) else {
                return Ok(());
            };
            self.push_lane(out, actor, *progress)?;
        }
        Ok(())
    }

    /// Appends all of the picture.
    fn push_all(self, out: &mut String, layout: &Layout) -> Result<(), AllocError> {
        let title = title_of(self.alloc, self.run)?;
        let note = note_of(self.alloc, self.notes.len(), self.run.notes.len())?;
        push_head(out, self.frame, title.as_str(), note.as_str())?;
        self.push_grids(out)?;
        self.push_lanes(out, layout.lanes.as_slice())?;
        self.push_links(out, "cause", layout.causes.as_slice())?;
        self.push_links(out, "send", layout.sends.as_slice())?;
        self.push_events(out, layout.steps.as_slice())?;
        out.push_str("</svg>\n")
    }
}

/// The picture of a run of this script.
fn picture_of(alloc: Global, text: &[u8], run: Replayed<'_>) -> Result<String, AllocError> {
    let notes = &run.notes[..run.notes.len().min(MOST)];
    let places = Places::new(alloc, text)?;
    let layout = Layout::of_run(alloc, run, notes)?;
    let frame = Frame {
        columns: notes.len(),
        lanes: layout.lanes.len(),
    };
    let picture = Picture {
        alloc,
        run,
        notes,
        places: &places,
        frame,
    };
    let mut out = String::new(alloc);
    picture.push_all(&mut out, &layout)?;
    Ok(out)
}

/// Appends the picture of a run of this script, as SVG in UTF-8. Of a run of more than 10,000 events it has the first 10,000, and says so. After an error
/// nothing is appended.
pub fn write_timeline(
    alloc: Global,
    out: &mut Vec<u8>,
    text: &[u8],
    run: Replayed<'_>,
) -> Result<(), AllocError>
    ensures text { OnOk result (AppendsText out.old.items out.new.items) }
    ensures err { OnErr result (out.new.items ≡ out.old.items) }
    ensures kept { Extends out.old.items out.new.items }
{
    let picture = picture_of(alloc, text, run)?;
    out.extend_from_slice(picture.as_str().as_bytes())
}
