//! What is told of a run that is over, and of code: that it compiles, its listing, or its byte form.

ghost use Rattle.std.specs.Prelude.{◌≡◌, ◌++◌, ◌≤◌, length, [], codes, IfOk, OnErr, OnOk};
ghost use Rattle.txs_code_decode.specs.CodeForm.{HasForm, form};
ghost use Rattle.txs_disasm.specs.Listing.{listing};
ghost use Rattle.txs_machine.specs.Agents.{agents_of};
ghost use Rattle.txs_world_shared.specs.SharedState.{numbered_book};
ghost use Rattle.txs_cli_report.specs.AgentLines.{named_from};
ghost use Rattle.txs_cli_report.specs.Lent.{lines_of, script_of, told_of};
ghost use Rattle.txs_cli_report.specs.Lines.{all_printed};
ghost use Rattle.txs_cli_report.specs.Told.{EndsTold, IsTold, ReportTells, behind_bytes, cells_told, events_told, run_status};

use crate::agents::add_agents;
use crate::cells::write_cells;
use crate::explain::Script;
use crate::told::{Told, answer, of_threads};
use crate::write_events;
use std::alloc::{AllocError, Global};
use std::mem;
use txs_cli_args::RunOptions;
use txs_code_encode::encode;
use txs_code_meaning::{Code, Verified};
use txs_disasm::write_listing;
use txs_machine::Entries;
use txs_value_cell::CellDefinition;
use txs_world_shared::SharedState;

/// What is told of the threads and agents of a run that is over, but for what they printed: the lines of threads, and behind them those of agents.
fn of_report(
    alloc: Global,
    script: Script<'_>,
    cells: &[CellDefinition],
    report: &Entries,
    shared: &SharedState,
) -> Result<Told, AllocError>
    requires few_threads { length report.now.threads.items ≤ 64 }
    requires few_cells { length cells.now ≤ 1000 }
    requires made { shared.now.cells ≡ cells.now }
    requires one_each { length report.now.agents.items ≡ length (named_from 0 cells.now) }
    ensures output { IfOk result (λ t. t.output.items ≡ []) }
    ensures errors { IfOk result (λ t. EndsTold cells.now (script_of script.entry) shared.now report.now.threads.items report.now.agents.items t.errors.items) }
    ensures status { IfOk result (λ t. t.status ≡ run_status cells.now shared.now report.now.threads.items report.now.agents.items) }
{
    let mut told = of_threads(alloc, script, report)?;
    let agents = report.agents.as_slice();
    add_agents(&mut told, script, cells, agents, shared)?;
    Ok(told)
}

/// Appends the lines of cells, where they are wanted. After an error nothing is appended.
fn tell_cells(
    output: &mut Vec<u8>,
    wanted: bool,
    cells: &[CellDefinition],
    shared: &SharedState,
) -> Result<(), AllocError>
    requires few { length cells.now ≤ 1000 }
    requires made { shared.now.cells ≡ cells.now }
    ensures output { OnOk result (output.new.items ≡ output.old.items ++ cells_told wanted cells.now shared.now) }
    ensures unchanged { OnErr result (output.new.items ≡ output.old.items) }
{
    if !wanted {
        return Ok(());
    }
    write_cells(output, cells, shared)
}

/// Appends the lines of the events of the store's book, where they are wanted. After an error nothing is appended.
fn tell_events(output: &mut Vec<u8>, wanted: bool, shared: &SharedState) -> Result<(), AllocError>
    ensures output { OnOk result (output.new.items ≡ output.old.items ++ events_told wanted (numbered_book shared.now 0)) }
    ensures unchanged { OnErr result (output.new.items ≡ output.old.items) }
{
    if !wanted {
        return Ok(());
    }
    write_events(output, shared.events())
}

/// Appends what is told behind a run: the lines of the cells, of which the state is made, and of the events of the store's book, where
/// they are wanted. After an error nothing is appended.
fn tell_book(
    told: &mut Told,
    options: RunOptions,
    cells: &[CellDefinition],
    shared: &SharedState,
) -> Result<(), AllocError>
    requires few { length cells.now ≤ 1000 }
    requires made { shared.now.cells ≡ cells.now }
    ensures output { OnOk result (told.new.output.items ≡ (told.old.output.items ++ cells_told options.cells cells.now shared.now) ++ events_told options.events (numbered_book shared.now 0)) }
    ensures unchanged { OnErr result (told.new.output.items ≡ told.old.output.items) }
    ensures errors { told.new.errors.items ≡ told.old.errors.items }
    ensures status { told.new.status ≡ told.old.status }
{
    let length = told.output.len();
    tell_cells(&mut told.output, options.cells, cells, shared)?;
    let done = tell_events(&mut told.output, options.events, shared);
    if done.is_err() {
        told.output.truncate(length);
    }
    done
}

/// What is told of a run of the code that is over, but for what its threads and agents printed: how each ended, its cells and the events of the
/// store's book, where they are wanted. Behind what they printed it is what the report tells.
pub fn report_lines(
    alloc: Global,
    script: Script<'_>,
    code: &Code,
    report: &Entries,
    shared: &SharedState,
    options: RunOptions,
) -> Result<Told, AllocError>
    requires few_threads { length report.now.threads.items ≤ 64 }
    requires few_cells { length code.now.cells ≤ 1000 }
    requires made { shared.now.cells ≡ code.now.cells }
    requires one_each { length report.now.agents.items ≡ length (agents_of code.now) }
    ensures { IfOk result (λ t. ReportTells code.now (script_of script.entry) shared.now report.now options.cells options.events (behind_bytes (all_printed (report.now.threads.items ++ report.now.agents.items)) (lines_of t))) }
{
    let cells = code.cells();
    let mut told = of_report(alloc, script, cells, report, shared)?;
    tell_book(&mut told, options, cells, shared)?;
    Ok(told)
}

/// What is told of a run of the code that is over: what its report tells, and behind it its cells and the events of the store's book, where
/// they are wanted. What its threads and agents printed is moved, and not copied.
pub fn report_run(
    alloc: Global,
    script: Script<'_>,
    code: &Code,
    mut report: Entries,
    shared: &SharedState,
    options: RunOptions,
) -> Result<Told, AllocError>
    requires few_threads { length report.threads.items ≤ 64 }
    requires few_cells { length code.now.cells ≤ 1000 }
    requires made { shared.now.cells ≡ code.now.cells }
    requires one_each { length report.agents.items ≡ length (agents_of code.now) }
    ensures { IfOk result (λ t. ReportTells code.now (script_of script.entry) shared.now report options.cells options.events (told_of t)) }
{
    let mut told = report_lines(alloc, script, code, &report, shared, options)?;
    mem::swap(&mut told.threads, &mut report.threads);
    mem::swap(&mut told.agents, &mut report.agents);
    Ok(told)
}

/// What is told of a script that compiles, where nothing runs.
pub fn accepted(alloc: Global) -> Result<Told, AllocError>
    ensures { IfOk result (λ t. IsTold (codes "ok\n") [] 0 (told_of t)) }
{
    let output = Vec::from_slice(alloc, b"ok\n")?;
    Ok(answer(output, alloc))
}

/// The listing of the code, on the standard output.
pub fn listing_of(alloc: Global, code: &Code) -> Result<Told, AllocError>
    ensures { IfOk result (λ t. IsTold (listing code.now) [] 0 (told_of t)) }
{
    let mut output = Vec::new(alloc);
    match write_listing(alloc, code, &mut output) {
        Ok(()) => Ok(answer(output, alloc)),
        Err(_) => Err(AllocError),
    }
}

/// The byte form of the code, on the standard output.
pub fn form_of(alloc: Global, code: &Verified) -> Result<Told, AllocError>
    requires { HasForm code.now }
    ensures { IfOk result (λ t. IsTold (form code.now) [] 0 (told_of t)) }
{
    let bytes = encode(alloc, code.code())?;
    Ok(answer(bytes, alloc))
}
