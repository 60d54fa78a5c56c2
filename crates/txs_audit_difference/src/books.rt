//! What differs in the books of a report, or in what they leave.

ghost use Rattle.std.specs.Prelude.{◌≡◌, ◌≤◌, ◌<◌, ◌+◌, ℕ, suc, length, true, Some, IfOk, option_copied};
ghost use Rattle.txs_value_data.specs.Places.{nth};
ghost use Rattle.txs_value_cell.specs.Agents.{agents_from};
ghost use Rattle.txs_value_data.specs.Limits.{most_definitions, most_events};
ghost use Rattle.txs_value_data.specs.declared.value.CellId.{CellId as ACell};
ghost use Rattle.txs_world_book.specs.Book.{value_or};
ghost use Rattle.txs_world_book.specs.Served.{cells_of};
ghost use Rattle.txs_tree_eval_transaction.specs.Views.{held};
ghost use Rattle.txs_tree_meaning.specs.View.{program_of};
ghost use Rattle.txs_theorem_audit.specs.Audited.{PlainReport, books_of, report_as};
ghost use Rattle.txs_theorem_audit.specs.Verdict.{atoms_from, fits_sizes, same_failure};
ghost use Rattle.txs_audit_book.specs.Replayed.{newest_there};
ghost use Rattle.txs_audit_book.specs.Swapped.{SwapsAre};
ghost use Rattle.txs_audit_evidence.specs.Evidence.{plain_books, replay_in};
ghost use Rattle.txs_audit_difference.specs.Difference.{atom_told, atoms_told, books_told, cell_what, failed_what, store_told, value_what};
ghost use Rattle.txs_audit_difference.specs.Left.{atom_left_told, illegal_told, left_told, newest_what};
ghost use Rattle.txs_audit_event.specs.Transactions.{or_else};

use crate::pieces::{Spot, at_event};
use crate::told::Told;
use std::alloc::{AllocError, Global};
use txs_audit_book::ends::same_fault;
use txs_audit_book::numbers::{agents_of, atoms_of};
use txs_audit_book::{Gone, Replay, go_through, go_through_atom};
use txs_audit_event::What;
use txs_audit_order::places::{first_length, index_of};
use txs_tree_eval::History;
use txs_tree_meaning::Program;
use txs_value_cell::{CellDefinition, count_agents};
use txs_value_data::{CellId, CellKind, Fault, Value, copy_value};
use txs_world_protocol::{Report, same_value};

// ---- what the store's book leaves

/// A cell that should have this value and has that one, if they differ.
fn cell_what(cell: CellId, expected: &Value, found: &Value) -> Result<Option<What>, AllocError>
    ensures { IfOk result (λ o. o ≡ cell_what cell expected.now found.now) }
{
    if same_value(expected, found) {
        return Ok(None);
    }
    Ok(Some(What::Cell {
        cell,
        expected: copy_value(expected)?,
        found: copy_value(found)?,
    }))
}

/// The cell with this number, if it hasn't its newest value. An atom has its own book.
fn newest_what(replay: &Replay<'_>, cell: CellId, found: &Value) -> Result<Option<What>, AllocError>
    ensures { IfOk result (λ o. o ≡ newest_what cell (newest_there replay.now cell.number) found.now) }
{
    if cell.kind == CellKind::Atom {
        return Ok(None);
    }
    match replay.newest(cell.number) {
        Some(newest) => cell_what(cell, newest, found),
        None => Ok(None),
    }
}

/// The first of the store's cells that hasn't its newest value.
fn value_what(
    cells: &[CellDefinition],
    replay: &Replay<'_>,
    values: &[Value],
) -> Result<Option<What>, AllocError>
    requires few { length cells.now ≤ most_definitions }
    requires same { replay.now.cells ≡ cells_of cells.now }
    requires many { length values.now ≡ length cells.now }
    ensures { IfOk result (λ o. (r : PlainReport) → r.book ≡ replay.now.book → o ≡ value_what cells.now r 0 cells.now values.now) }
{
    for (i, definition) in cells.iter().enumerate() {
        let cell = CellId {
            kind: definition.kind,
            number: i as u16,
        };
        if let Some(what) = newest_what(replay, cell, &values[i])? {
            return Ok(Some(what));
        }
    }
    Ok(None)
}

/// Whether two faults that there may be are the same.
fn same_failure(a: Option<Fault>, b: Option<Fault>) -> bool
    ensures { result ≡ same_failure a b }
{
    match a {
        Some(a) => match b {
            Some(b) => same_fault(a, b),
            None => false,
        },
        None => b.is_none(),
    }
}

/// The first of these agents that hasn't failed so.
fn failed_what(replay: &Replay<'_>, agents: &[CellId], failed: &[Option<Fault>]) -> Option<What>
    requires there { (i : ℕ) (g : ACell) → nth agents.now i ≡ Some g → g.number < length replay.now.cells }
    requires many { length failed.now ≡ length agents.now }
    ensures { result ≡ failed_what replay.now.cells replay.now.book agents.now failed.now }
{
    for (i, agent) in agents.iter().enumerate() {
        let failure = replay.failure(agent.number);
        if !same_failure(failure, failed[i]) {
            return Some(What::Failure {
                agent: *agent,
                expected: failure,
                found: failed[i],
            });
        }
    }
    None
}

/// What is told of a report in which this is left, if it is.
fn left_told(report: &Report, what: Option<What>) -> Told
    ensures { result ≡ left_told (report_as report.now) what }
{
    match what {
        Some(what) => {
            let event = first_length(report);
            Told::So(at_event(what, Spot { actor: 0, event }))
        }
        None => Told::Clear,
    }
}

/// What the store's book leaves.
fn store_left(
    alloc: Global,
    program: &Program,
    report: &Report,
    replay: &Replay<'_>,
) -> Result<Told, AllocError>
    requires fits { fits_sizes (program_of program.now) (report_as report.now) ≡ true }
    requires same { replay.now ≡ replay_in (plain_books program.now report.now) }
    ensures { IfOk result (λ t. t ≡ left_told (report_as report.now) (or_else (value_what program.now.cells (report_as report.now) 0 program.now.cells (report_as report.now).cells) (failed_what (cells_of program.now.cells) (report_as report.now).book (agents_from 0 program.now.cells) (report_as report.now).failed))) }
{
    // A step of the proof, which does nothing when it runs.
    program.is_sound();
    let cells = program.cells();
    let agents = agents_of(alloc, cells)?;
    match value_what(cells, replay, report.cells.as_slice())? {
        Some(what) => Ok(left_told(report, Some(what))),
        None => {
            let failed = failed_what(replay, agents.as_slice(), report.failed.as_slice());
            Ok(left_told(report, failed))
        }
    }
}

/// The event at this index of a book may not stand there.
fn illegal(report: &Report, book: u32, actor: u16, at: usize) -> Told
    ensures { result ≡ illegal_told (report_as report.now) book actor at }
{
    let event = index_of(report, book, actor, at);
    let what = What::Illegal {
        book: book as usize,
        at,
    };
    Told::So(at_event(what, Spot { actor, event }))
}

/// What the store's book tells.
fn store_told(alloc: Global, program: &Program, report: &Report) -> Result<Told, AllocError>
    requires { fits_sizes (program_of program.now) (report_as report.now) ≡ true }
    ensures { IfOk result (λ t. t ≡ store_told (program_of program.now) (report_as report.now)) }
{
    // A step of the proof, which does nothing when it runs.
    program.is_sound();
    let threads = program.threads().len() as u16;
    let book = report.book.as_slice();
    match go_through(alloc, program.cells(), threads, book)? {
        Gone::UpTo(at) => Ok(illegal(report, 0, book[at].actor, at)),
        Gone::Through(replay) => store_left(alloc, program, report, &replay),
    }
}

// ---- the books of atoms

/// The value of an atom behind so many events of its book.
fn value_behind<'b>(swaps: &'b History, events: u32, opening: &'b Value) -> &'b Value
    ensures { result.now ≡ value_or (held swaps.now events) opening.now }
{
    match swaps.at(events) {
        Some(item) => &item.1,
        None => opening,
    }
}

/// What the book of the n-th atom leaves, which has these swaps.
fn atom_left(
    program: &Program,
    report: &Report,
    n: usize,
    cell: CellId,
    swaps: &History,
) -> Result<Told, AllocError>
    requires fits { fits_sizes (program_of program.now) (report_as report.now) ≡ true }
    requires there { nth (atoms_from 0 program.now.cells) n ≡ Some cell }
    requires few { length (books_of (report_as report.now) (suc n)) ≤ most_events }
    requires swapped { SwapsAre swaps.now (books_of (report_as report.now) (suc n)) }
    ensures { IfOk result (λ t. t ≡ atom_left_told (program_of program.now) (report_as report.now) cell) }
{
    let number = usize::from(cell.number);
    let events = report.atom_books[n].as_slice().len() as u32;
    let opening = &program.cells()[number].opening;
    let expected = value_behind(swaps, events, opening);
    let what = cell_what(cell, expected, &report.cells[number])?;
    Ok(left_told(report, what))
}

/// What the book of the n-th atom tells.
fn atom_told(
    alloc: Global,
    program: &Program,
    report: &Report,
    n: usize,
    cell: CellId,
) -> Result<Told, AllocError>
    requires fits { fits_sizes (program_of program.now) (report_as report.now) ≡ true }
    requires there { nth (atoms_from 0 program.now.cells) n ≡ Some cell }
    ensures { IfOk result (λ t. t ≡ atom_told (program_of program.now) (report_as report.now) cell) }
{
    // A step of the proof, which does nothing when it runs.
    program.is_sound();
    let actors = program.threads().len() + count_agents(program.cells());
    let events = report.atom_books[n].as_slice();
    match go_through_atom(alloc, cell, actors, events)? {
        Gone::UpTo(at) => Ok(illegal(report, n as u32 + 1, events[at].actor, at)),
        Gone::Through(swaps) => atom_left(program, report, n, cell, &swaps),
    }
}

/// What the books of these atoms tell, which are all.
fn atoms_told(
    alloc: Global,
    program: &Program,
    report: &Report,
    atoms: &[CellId],
) -> Result<Told, AllocError>
    requires fits { fits_sizes (program_of program.now) (report_as report.now) ≡ true }
    requires all { atoms.now ≡ atoms_from 0 program.now.cells }
    ensures { IfOk result (λ t. t ≡ atoms_told (program_of program.now) (report_as report.now) atoms.now) }
{
    for (n, cell) in atoms.iter().enumerate() {
        match atom_told(alloc, program, report, n, *cell)? {
            Told::Clear => {}
            Told::Open => return Ok(Told::Open),
            Told::So(differs) => return Ok(Told::So(differs)),
        }
    }
    Ok(Told::Clear)
}

/// What the books of a report tell that has the right sizes.
pub(crate) fn books_told(
    alloc: Global,
    program: &Program,
    report: &Report,
) -> Result<Told, AllocError>
    requires { fits_sizes (program_of program.now) (report_as report.now) ≡ true }
    ensures { IfOk result (λ t. t ≡ books_told (program_of program.now) (report_as report.now)) }
{
    // A step of the proof, which does nothing when it runs.
    program.is_sound();
    match store_told(alloc, program, report)? {
        Told::Clear => {
            let atoms = atoms_of(alloc, program.cells())?;
            atoms_told(alloc, program, report, atoms.as_slice())
        }
        Told::Open => Ok(Told::Open),
        Told::So(differs) => Ok(Told::So(differs)),
    }
}
