//! What is told of agents: which have failed, and whose actors were stopped.

ghost use Rattle.std.specs.Prelude.{◌≡◌, ◌≤◌, ◌++◌, ℕ, List, length, drop, [], true, IfOk, OnOk};
ghost use Rattle.txs_cli_report.specs.AgentLines.{AreAgentsTold, failed_by, failure_of, named_from, status_of_agents, with_named};
ghost use Rattle.txs_cli_report.specs.Lent.{script_of};
ghost use Rattle.txs_world_book.specs.Book.{has_cell};
ghost use Rattle.txs_world_book.specs.Served.{cells_of};

use crate::explain::Script;
use crate::told::{Front, Told, how_ended, tell_end};
use std::alloc::AllocError;
use txs_machine::ActorReport;
use txs_value_cell::CellDefinition;
use txs_value_data::{CellId, CellKind, Fault};
use txs_world_protocol::Outcome;
use txs_world_shared::SharedState;

/// How an agent ended that has failed by this fault, if it has.
fn failed_by(fault: Option<Fault>) -> Option<Outcome>
    ensures { result ≡ failed_by fault }
{
    match fault {
        Some(fault) => Some(Outcome::Failed(fault)),
        None => None,
    }
}

/// Adds what is told of the cell with this number, where it is an agent, whose entry is the first of these: that it has failed, and behind that,
/// that its actor was stopped. Answers the entries behind it.
fn add_cell<'a>(
    told: &mut Told,
    script: Script<'_>,
    cell: &CellDefinition,
    number: u16,
    entries: &'a [ActorReport],
    shared: &SharedState,
) -> Result<&'a [ActorReport], AllocError>
    requires there { has_cell (cells_of shared.now.cells) (record { kind = cell.now.kind; number = number }) ≡ true }
    requires entry { length (with_named cell.now.kind number cell.now.name []) ≤ length entries.now }
    ensures output { told.new.output.items ≡ told.old.output.items }
    ensures rest { IfOk result (λ rest. rest.now ≡ drop (length (with_named cell.now.kind number cell.now.name [])) entries.now) }
    ensures errors { OnOk result ((lines : List ℕ) × AreAgentsTold (script_of script.entry) (failure_of shared.now) (with_named cell.now.kind number cell.now.name []) entries.now lines × (told.new.errors.items ≡ told.old.errors.items ++ lines)) }
    ensures status { OnOk result (told.new.status ≡ status_of_agents told.old.status (failure_of shared.now) (with_named cell.now.kind number cell.now.name []) entries.now) }
{
    let CellKind::Agent = cell.kind else {
        return Ok(entries);
    };
    let Some((entry, rest)) = entries.split_first() else {
        return Ok(entries);
    };
    let agent = CellId {
        kind: CellKind::Agent,
        number,
    };
    let failure = shared.failure(agent);
    let name = cell.name.as_bytes();
    let failed = how_ended(failed_by(failure));
    let stopped = how_ended(entry.outcome);
    tell_end(told, script, Front::Agent(name), failed, None)?;
    tell_end(told, script, Front::Agent(name), stopped, entry.place)?;
    Ok(rest)
}

/// Adds what is told of all agents, in the order of their definitions. There is an entry for each.
pub fn add_agents(
    told: &mut Told,
    script: Script<'_>,
    cells: &[CellDefinition],
    agents: &[ActorReport],
    shared: &SharedState,
) -> Result<(), AllocError>
    requires few { length cells.now ≤ 1000 }
    requires made { shared.now.cells ≡ cells.now }
    requires one_each { length agents.now ≡ length (named_from 0 cells.now) }
    ensures output { told.new.output.items ≡ told.old.output.items }
    ensures errors { OnOk result ((lines : List ℕ) × AreAgentsTold (script_of script.entry) (failure_of shared.now) (named_from 0 cells.now) agents.now lines × (told.new.errors.items ≡ told.old.errors.items ++ lines)) }
    ensures status { OnOk result (told.new.status ≡ status_of_agents told.old.status (failure_of shared.now) (named_from 0 cells.now) agents.now) }
{
    let mut rest = agents;
    for (number, cell) in cells.iter().enumerate() {
        rest = add_cell(told, script, cell, number as u16, rest, shared)?;
    }
    Ok(())
}
