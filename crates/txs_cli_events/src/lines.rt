//! The long form of `--events`: a line for each event.

ghost use Rattle.std.specs.Prelude.{◌≡◌, ◌++◌, decimal, length, option_copied, OnErr, OnOk};
ghost use Rattle.std.specs.List.{flat_map};
ghost use Rattle.txs_cli_events.specs.LongLines.{actor_words, book_words, event_words, long_line, long_lines};
ghost use Rattle.txs_cli_events.specs.Run.{agent_of, atom_of};

use crate::parts::{write_at, write_parts};
use crate::seen::{Noted, Replayed};
use std::alloc::{AllocError, Global};
use txs_cli_report::events::name_of;
use txs_cli_report::{write_both, write_number};
use txs_value_data::Span;
use txs_world_protocol::Event;

/// Appends whose book it is: the journal, or an atom's.
fn write_book(out: &mut Vec<u8>, run: Replayed<'_>, book: u32) -> Result<(), AllocError>
    ensures { OnOk result (out.new.items ≡ out.old.items ++ book_words run.entry.cells.now (atom_of run.entry.cells.now book)) }
{
    match run.atom_of(book) {
        Some(number) => {
            write_both(out, b"atom ", run.cell_name(number))?;
            out.extend_from_slice(b" ")
        }
        None => out.extend_from_slice(b"journal "),
    }
}

/// Appends who acts: a thread by its number, or an agent by its name.
fn write_actor(out: &mut Vec<u8>, run: Replayed<'_>, actor: u16) -> Result<(), AllocError>
    ensures { OnOk result (out.new.items ≡ out.old.items ++ actor_words run.entry.cells.now actor (agent_of run.entry.cells.now (length run.entry.report.now.threads.items) actor)) }
{
    match run.agent_of(actor) {
        Some(number) => write_both(out, b": agent ", run.cell_name(number)),
        None => write_number(out, b": thread ", usize::from(actor)),
    }
}

/// Appends what an actor did and where, if there is such an event.
fn write_event(
    out: &mut Vec<u8>,
    run: Replayed<'_>,
    event: Option<&Event>,
    at: Option<Span>,
) -> Result<(), AllocError>
    ensures { OnOk result (out.new.items ≡ out.old.items ++ event_words run.entry.cells.now (option_copied event.entry) at) }
{
    let Some(event) = event else {
        return write_at(out, at);
    };
    write_both(out, b" ", name_of(&event.kind).as_bytes())?;
    write_at(out, at)?;
    write_parts(out, run, &event.kind)
}

/// Appends the line of an event.
fn write_line(out: &mut Vec<u8>, run: Replayed<'_>, note: &Noted) -> Result<(), AllocError>
    ensures { OnOk result (out.new.items ≡ out.old.items ++ long_line run.entry.cells.now run.entry.report.now note.now) }
{
    write_book(out, run, note.event.book)?;
    write_number(out, b"", note.event.at as usize)?;
    write_actor(out, run, note.actor)?;
    write_event(out, run, run.event_at(note.event), note.at)?;
    out.extend_from_slice(b"\n")
}

/// Appends the lines of events.
fn write_lines(out: &mut Vec<u8>, run: Replayed<'_>, notes: &[Noted]) -> Result<(), AllocError>
    ensures { OnOk result (out.new.items ≡ out.old.items ++ flat_map (long_line run.entry.cells.now run.entry.report.now) notes.now) }
{
    for note in notes {
        write_line(out, run, note)?;
    }
    Ok(())
}

/// Appends a line for each event of a run, in the run's order, with all that the report has of it (docs/RUNNING.md, "The long form"). An error
/// where there is no memory, and then nothing is appended.
pub fn write_replayed(alloc: Global, out: &mut Vec<u8>, run: Replayed<'_>) -> Result<(), AllocError>
    ensures ok { OnOk result (out.new.items ≡ out.old.items ++ long_lines run.entry.cells.now run.entry.report.now run.entry.notes.now) }
    ensures err { OnErr result (out.new.items ≡ out.old.items) }
{
    let mut lines = Vec::new(alloc);
    write_lines(&mut lines, run, run.notes)?;
    out.extend_from_slice(lines.as_slice())
}
