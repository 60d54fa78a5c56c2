//! The cells of a kind.

ghost use Rattle.std.specs.Prelude.{◌≡◌, ◌≤◌, ◌++◌, ◌∷◌, [], length, IfOk, OnOk};
ghost use Rattle.txs_value_cell.specs.Agents.{agents_from};
ghost use Rattle.txs_value_data.specs.Limits.{most_definitions};
ghost use Rattle.txs_theorem_audit.specs.Verdict.{atoms_from};
ghost use Rattle.txs_audit_book.specs.Numbered.{of_kind};

use std::alloc::{AllocError, Global};
use txs_value_cell::CellDefinition;
use txs_value_data::{CellId, CellKind};

/// One cell more, if it is of this kind.
fn add_if(
    found: &mut Vec<CellId>,
    kind: CellKind,
    cell: &CellDefinition,
    number: u16,
) -> Result<(), AllocError>
    ensures { OnOk result (found.new.items ≡ found.old.items ++ of_kind kind number (cell.now ∷ [])) }
{
    if cell.kind == kind {
        found.push(CellId { kind, number })?;
    }
    Ok(())
}

/// The cells of this kind, in their order.
fn of_kind(
    alloc: Global,
    cells: &[CellDefinition],
    kind: CellKind,
) -> Result<Vec<CellId>, AllocError>
    requires { length cells.now ≤ most_definitions }
    ensures { IfOk result (λ found. found.items ≡ of_kind kind 0 cells.now) }
{
    let mut found = Vec::new(alloc);
    for (i, cell) in cells.iter().enumerate() {
        add_if(&mut found, kind, cell, i as u16)?;
    }
    Ok(found)
}

/// The atoms among these cells, in their order.
pub fn atoms_of(alloc: Global, cells: &[CellDefinition]) -> Result<Vec<CellId>, AllocError>
    requires { length cells.now ≤ most_definitions }
    ensures { IfOk result (λ found. found.items ≡ atoms_from 0 cells.now) }
{
    of_kind(alloc, cells, CellKind::Atom)
}

/// The agents among these cells, in their order.
pub fn agents_of(alloc: Global, cells: &[CellDefinition]) -> Result<Vec<CellId>, AllocError>
    requires { length cells.now ≤ most_definitions }
    ensures { IfOk result (λ found. found.items ≡ agents_from 0 cells.now) }
{
    of_kind(alloc, cells, CellKind::Agent)
}
