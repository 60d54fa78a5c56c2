//! The definition of a cell, and the agents among cells.

ghost use Rattle.std.specs.Prelude.{◌≡◌, ◌≤◌, ◌++◌, [], length, if◌then◌else◌, IfOk, OnOk};
ghost use Rattle.txs_value_cell.specs.Agents.{agents_from, with_agent};
ghost use Rattle.txs_value_cell.specs.Forms.{same_kind};
ghost use Rattle.txs_value_data.specs.declared.value.CellKind.TheVariants.{Agent};

use std::alloc::{AllocError, Global};
use txs_value_data::{Callee, CellId, CellKind, Name, Value, copy_value};

/// What an agent does after an action that faulted, as `:error-mode` says.
#[derive(Clone, Copy, PartialEq, Eq)]
pub enum ErrorMode {
    /// It is failed, and runs no further action.
    Fail,
    /// It continues as if the action hadn't happened.
    Continue,
}

/// A cell as a script defines it: its kind, its name, the value that it opens with, of an agent its error mode, and what has to
/// accept each further value of it, where there is such a validator. Every cell but an agent has `Fail`.
pub struct CellDefinition {
    pub kind: CellKind,
    pub name: Name,
    pub opening: Value,
    pub error_mode: ErrorMode,
    pub validator: Option<Callee>,
}

// Dropped by a call that is proved here, so that no crate above proves it again.
impl Drop for CellDefinition {
    fn drop(self) {
        let CellDefinition {
            kind: _,
            name,
            opening,
            error_mode: _,
            validator: _,
        } = self;
        drop(name);
        drop(opening);
    }
}

/// The same definition of a cell.
fn copy_cell(cell: &CellDefinition) -> Result<CellDefinition, AllocError>
    ensures { IfOk result (λ copy. copy ≡ cell.now) }
{
    Ok(CellDefinition {
        kind: cell.kind,
        name: cell.name.share()?,
        opening: copy_value(&cell.opening)?,
        error_mode: cell.error_mode,
        validator: cell.validator,
    })
}

/// The same definitions of cells.
///
/// # Errors
/// There was no memory.
pub fn copy_cells(
    alloc: Global,
    cells: &[CellDefinition],
) -> Result<Vec<CellDefinition>, AllocError>
    ensures { IfOk result (λ copies. copies.items ≡ cells.now) }
{
    let mut copies = Vec::with_capacity(alloc, cells.len())?;
    for cell in cells {
        copies.push_reserved(copy_cell(cell)?);
    }
    Ok(copies)
}

/// 1 for an agent, 0 for another cell.
pub fn agents_in(kind: CellKind) -> usize
    ensures listed { result ≡ length (with_agent kind 0 []) }
    ensures kind { result ≡ (if same_kind kind Agent then 1 else 0) }
{
    match kind {
        CellKind::Agent => 1,
        CellKind::Ref | CellKind::Atom => 0,
    }
}

/// How many of these cells are agents.
pub fn count_agents(cells: &[CellDefinition]) -> usize
    ensures { result ≡ length (agents_from 0 cells.now) }
{
    let mut agents = 0;
    for cell in cells {
        agents += agents_in(cell.kind);
    }
    agents
}

/// Adds the cell with this number, where it is an agent.
fn add_agent(agents: &mut Vec<CellId>, kind: CellKind, number: u16) -> Result<(), AllocError>
    ensures { OnOk result (agents.new.items ≡ agents.old.items ++ with_agent kind number []) }
{
    match kind {
        CellKind::Ref | CellKind::Atom => Ok(()),
        CellKind::Agent => {
            agents.push(CellId { kind, number })?;
            Ok(())
        }
    }
}

/// The agents among these cells, in their order.
pub fn list_agents(alloc: Global, cells: &[CellDefinition]) -> Result<Vec<CellId>, AllocError>
    requires few { length cells.now ≤ 65536 }
    ensures { IfOk result (λ v. v.items ≡ agents_from 0 cells.now) }
{
    let mut agents = Vec::new(alloc);
    for number in 0..cells.len() {
        add_agent(&mut agents, cells[number].kind, number as u16)?;
    }
    Ok(agents)
}
