//! A line for each thread, agent, cell and event of a run.

ghost use Rattle.std.specs.Prelude.{◌≡◌, ◌++◌, ◌∷◌, [], codes, length, option_copied, OnErr, OnOk};
ghost use Rattle.std.specs.List.{slice_get};
ghost use Rattle.std.specs.Str.Lossy.{utf8_lossy};
ghost use Rattle.serde_json.specs.Data.{put, string};
ghost use Rattle.serde_json.specs.View.{members_view};
ghost use Rattle.serde_json.specs.Written.{compact_text};
ghost use Rattle.txs_cli_json.specs.Cells.{AddsCells, cell_json, cell_lines, with_definition};
ghost use Rattle.txs_cli_json.specs.Json.{AddsLine, AddsLines, run_kinds, times};
ghost use Rattle.txs_value_data.specs.Printed.{Extends, printed};
ghost use Rattle.txs_value_data.specs.View.{plain_of};

use crate::event::{Around, add_events};
use crate::places::Places;
use crate::spans::{Line, put_fault};
use crate::value::kind_word;
use std::alloc::{AllocError, Global};
use txs_cli_events::Replayed;
use txs_cli_report::explain::Script;
use txs_value_cell::CellDefinition;
use txs_value_data::{Value, write_text};
use txs_world_protocol::{ActorReport, Outcome};

/// The word for how an actor ended. One of which no end is known counts as done, as in the lines of the program.
fn outcome_word(outcome: Option<Outcome>) -> &'static str {
    match outcome {
        None | Some(Outcome::Done) => "done",
        Some(Outcome::Failed(_)) => "failed",
        Some(Outcome::StepsSpent | Outcome::JournalFull | Outcome::Memory) => "stopped",
    }
}

/// The word for why an actor was stopped, if it was.
fn stop_word(outcome: Option<Outcome>) -> Option<&'static str> {
    match outcome {
        None | Some(Outcome::Done | Outcome::Failed(_)) => None,
        Some(Outcome::StepsSpent) => Some("StepsSpent"),
        Some(Outcome::JournalFull) => Some("JournalFull"),
        Some(Outcome::Memory) => Some("Memory"),
    }
}

/// Puts in what an actor did: what it printed, its steps, how it ended, and why and where it was stopped.
fn put_actor(line: &mut Line, script: Script<'_>, actor: &ActorReport) -> Result<(), AllocError> {
    line.put_bytes("printed", actor.printed.as_slice())?;
    line.put_number("steps", actor.steps)?;
    line.put_text("outcome", outcome_word(actor.outcome))?;
    match stop_word(actor.outcome) {
        Some(why) => line.put_text("why", why)?,
        None => line.put_null("why")?,
    }
    line.put_place(script.text, actor.place)
}

/// Appends the line of a thread.
fn add_thread(
    alloc: Global,
    out: &mut Vec<u8>,
    script: Script<'_>,
    number: usize,
    thread: &ActorReport,
) -> Result<(), AllocError>
    ensures ok { OnOk result (AddsLine (codes "thread") out.old.items out.new.items) }
    ensures err { OnErr result (out.new.items ≡ out.old.items) }
{
    let mut line = Line::new(alloc);
    line.put_number("number", number as u64)?;
    put_actor(&mut line, script, thread)?;
    let fault = match thread.outcome {
        Some(Outcome::Failed(fault)) => Some(fault),
        _ => None,
    };
    put_fault(&mut line, "fault", script.text, fault)?;
    line.write(out, "thread")
}

/// Appends the lines of threads.
fn add_threads(
    alloc: Global,
    out: &mut Vec<u8>,
    script: Script<'_>,
    run: Replayed<'_>,
) -> Result<(), AllocError>
    ensures ok { OnOk result (AddsLines (times (length run.entry.report.now.threads.items) (codes "thread")) out.old.items out.new.items) }
    ensures kept { Extends out.old.items out.new.items }
{
    for (number, thread) in run.report.threads.iter().enumerate() {
        add_thread(alloc, out, script, number, thread)?;
    }
    Ok(())
}

/// The name of the agent that an actor is; nothing where it is none.
fn agent_name<'a>(run: Replayed<'a>, actor: usize) -> &'a [u8] {
    if actor > u16::MAX as usize {
        return b"";
    }
    match run.agent_of(actor as u16) {
        Some(agent) => run.cell_name(agent),
        None => b"",
    }
}

/// Appends the line of an agent: the so many-th of all, whose actor did this.
fn add_agent(
    alloc: Global,
    out: &mut Vec<u8>,
    script: Script<'_>,
    run: Replayed<'_>,
    k: usize,
    agent: &ActorReport,
) -> Result<(), AllocError>
    ensures ok { OnOk result (AddsLine (codes "agent") out.old.items out.new.items) }
    ensures err { OnErr result (out.new.items ≡ out.old.items) }
{
    let number = run.report.threads.len().saturating_add(k);
    let mut line = Line::new(alloc);
    line.put_number("number", number as u64)?;
    line.put_bytes("name", agent_name(run, number))?;
    put_actor(&mut line, script, agent)?;
    let failed = run.report.failed.get(k).copied().flatten();
    put_fault(&mut line, "failed", script.text, failed)?;
    line.write(out, "agent")
}

/// Appends the lines of agents.
fn add_agents(
    alloc: Global,
    out: &mut Vec<u8>,
    script: Script<'_>,
    run: Replayed<'_>,
) -> Result<(), AllocError>
    ensures ok { OnOk result (AddsLines (times (length run.entry.report.now.agents.items) (codes "agent")) out.old.items out.new.items) }
    ensures kept { Extends out.old.items out.new.items }
{
    for (k, agent) in run.report.agents.iter().enumerate() {
        add_agent(alloc, out, script, run, k, agent)?;
    }
    Ok(())
}

/// Puts in the kind of a cell and its name.
fn put_definition(line: &mut Line, cell: Option<&CellDefinition>) -> Result<(), AllocError>
    ensures { OnOk result (members_view line.new.members.entries ≡ with_definition (option_copied cell.entry) (members_view line.old.members.entries)) }
{
    let Some(cell) = cell else {
        line.put_null("kind")?;
        return line.put_null("name");
    };
    line.put_text("kind", kind_word(cell.kind))?;
    line.put_bytes("name", cell.name.as_bytes())
}

/// Puts in a value as `println` writes it.
fn put_printed(line: &mut Line, value: &Value) -> Result<(), AllocError>
    ensures { OnOk result (members_view line.new.members.entries ≡ put (codes "text") (string (utf8_lossy (printed (plain_of value.now)))) (members_view line.old.members.entries)) }
{
    let mut text = Vec::new(line.alloc);
    write_text(value, &mut text)?;
    line.put_bytes("text", text.as_slice())
}

/// The definition of this number, if there is one.
fn cell_at(cells: &[CellDefinition], number: usize) -> Option<&CellDefinition>
    ensures { option_copied result ≡ slice_get cells.now number }
{
    cells.get(number)
}

/// Appends the line of a cell: its value, also as `println` writes it.
fn add_cell(
    alloc: Global,
    out: &mut Vec<u8>,
    cells: &[CellDefinition],
    number: usize,
    value: &Value,
) -> Result<(), AllocError>
    ensures whole { OnOk result (out.new.items ≡ out.old.items ++ (compact_text (cell_json cells.now number value.now) ++ 10 ∷ [])) }
    ensures ok { OnOk result (AddsLine (codes "cell") out.old.items out.new.items) }
    ensures err { OnErr result (out.new.items ≡ out.old.items) }
{
    let mut line = Line::new(alloc);
    line.put_number("number", number as u64)?;
    put_definition(&mut line, cell_at(cells, number))?;
    line.put_value("value", cells, value)?;
    put_printed(&mut line, value)?;
    line.write(out, "cell")
}

/// Appends the lines of cells, with these values.
fn add_cells(
    alloc: Global,
    out: &mut Vec<u8>,
    cells: &[CellDefinition],
    values: &[Value],
) -> Result<(), AllocError>
    ensures whole { OnOk result (out.new.items ≡ out.old.items ++ cell_lines cells.now 0 values.now) }
    ensures ok { OnOk result (AddsLines (times (length values.now) (codes "cell")) out.old.items out.new.items) }
    ensures kept { Extends out.old.items out.new.items }
{
    for (number, value) in values.iter().enumerate() {
        add_cell(alloc, out, cells, number, value)?;
    }
    Ok(())
}

/// Appends a line for each thread, agent, cell and event of a run.
pub(crate) fn add_lines(
    alloc: Global,
    out: &mut Vec<u8>,
    script: Script<'_>,
    run: Replayed<'_>,
) -> Result<(), AllocError>
    ensures cells { OnOk result (AddsCells run.entry.cells.now run.entry.report.now.cells.items out.old.items out.new.items) }
    ensures ok { OnOk result (AddsLines (run_kinds run.entry.report.now (length run.entry.notes.now)) out.old.items out.new.items) }
    ensures kept { Extends out.old.items out.new.items }
{
    add_threads(alloc, out, script, run)?;
    add_agents(alloc, out, script, run)?;
    add_cells(alloc, out, run.cells, run.report.cells.as_slice())?;
    let places = Places::of(alloc, script.text)?;
    let around = Around {
        places: &places,
        run,
    };
    add_events(alloc, out, around)
}
