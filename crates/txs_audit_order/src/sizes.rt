//! Whether a report has one entry for each thread, agent, atom and cell.

ghost use Rattle.std.specs.Prelude.{◌≡◌, if◌then◌else◌};
ghost use Rattle.txs_value_cell.specs.Forms.{same_kind};
ghost use Rattle.txs_tree_meaning.specs.View.{program_of};
ghost use Rattle.txs_theorem_audit.specs.Audited.{report_as};
ghost use Rattle.txs_theorem_audit.specs.Verdict.{fits_sizes};
ghost use Rattle.txs_audit_order.specs.Many.{many_of};

use txs_tree_meaning::Program;
use txs_value_cell::CellDefinition;
use txs_value_data::CellKind;
use txs_world_protocol::Report;

/// One for a cell of this kind, and none for another.
fn one_of(cell: &CellDefinition, kind: CellKind) -> usize
    ensures { result ≡ (if same_kind cell.now.kind kind then 1 else 0) }
{
    if cell.kind == kind { 1 } else { 0 }
}

/// How many of these cells are of this kind.
fn count(cells: &[CellDefinition], kind: CellKind) -> usize
    ensures { result ≡ many_of kind cells.now }
{
    let mut many = 0;
    for cell in cells {
        many += one_of(cell, kind);
    }
    many
}

/// Whether there is one entry for each thread, agent, atom and cell.
pub fn has_sizes(program: &Program, report: &Report) -> bool
    ensures { result ≡ fits_sizes (program_of program.now) (report_as report.now) }
{
    let cells = program.cells();
    let agents = count(cells, CellKind::Agent);
    let atoms = count(cells, CellKind::Atom);
    if report.threads.len() != program.threads().len() {
        return false;
    }
    if report.agents.len() != agents {
        return false;
    }
    if report.atom_books.len() != atoms {
        return false;
    }
    if report.cells.len() != cells.len() {
        return false;
    }
    report.failed.len() == agents
}
