//! The books of a report are gone through: the store's, and then those of the atoms.

ghost use Rattle.std.specs.Prelude.{◌≡◌, ◌≤◌, ◌&&◌, suc, length, true, IfOk, Some};
ghost use Rattle.txs_value_data.specs.Places.{nth};
ghost use Rattle.txs_tree_meaning.specs.View.{program_of};
ghost use Rattle.txs_value_data.specs.Limits.{most_events};
ghost use Rattle.txs_theorem_audit.specs.Audited.{Off, books_of, entry_of, report_as};
ghost use Rattle.txs_theorem_audit.specs.Verdict.{atoms_from, fits_sizes, index_if};
ghost use Rattle.txs_audit_book.specs.Judged.{as_found};
ghost use Rattle.txs_audit_book.specs.Swapped.{SwapsAre};
ghost use Rattle.txs_audit_evidence.specs.Evidence.{AtomLeft, AtomOpened, AtomsOpened, Opened, StoreLeft, StoreOpened, plain_books, replay_in};

use crate::books::Books;
use std::alloc::{AllocError, Global};
use txs_audit_book::finding::check;
use txs_audit_book::left::{has_failed, has_swapped, has_values};
use txs_audit_book::numbers::{agents_of, atoms_of};
use txs_audit_book::{Finding, Gone, Replay, go_through, go_through_atom};
use txs_audit_order::places::{first_length, index_of};
use txs_check::function_table;
use txs_tree_eval::History;
use txs_tree_meaning::Program;
use txs_value_cell::count_agents;
use txs_value_data::CellId;
use txs_world_protocol::Report;

/// Off at the event at this index of a book.
fn off_at(report: &Report, book: u32, actor: u16, at: usize) -> Finding
    ensures { as_found result ≡ Off actor (index_if book at (entry_of (report_as report.now) actor)) }
{
    Finding::Off(actor, index_of(report, book, actor, at))
}

/// Whether both hold.
fn both(a: bool, b: bool) -> bool
    ensures { result ≡ (a && b) }
{
    a && b
}

/// What the store's book leaves.
fn store_left(
    alloc: Global,
    program: &Program,
    report: &Report,
    replay: &Replay<'_>,
) -> Result<Finding, AllocError>
    requires fits { fits_sizes (program_of program.now) (report_as report.now) ≡ true }
    requires same { replay.now ≡ replay_in (plain_books program.now report.now) }
    ensures { IfOk result (StoreLeft program.now report.now) }
{
    // A step of the proof, which does nothing when it runs.
    program.is_sound();
    let cells = program.cells();
    let agents = agents_of(alloc, cells)?;
    let values = has_values(cells, replay, report.cells.as_slice());
    let failures = has_failed(replay, agents.as_slice(), report.failed.as_slice());
    Ok(check(both(values, failures), 0, first_length(report)))
}

/// The store's book gone through, or what an audit finds in it.
fn open_store<'a>(
    alloc: Global,
    program: &'a Program,
    report: &'a Report,
) -> Result<Result<Replay<'a>, Finding>, AllocError>
    requires { fits_sizes (program_of program.now) (report_as report.now) ≡ true }
    ensures { IfOk result (StoreOpened program.now report.now) }
{
    // A step of the proof, which does nothing when it runs.
    program.is_sound();
    let threads = program.threads().len() as u16;
    let book = report.book.as_slice();
    let replay = match go_through(alloc, program.cells(), threads, book)? {
        Gone::UpTo(at) => return Ok(Err(off_at(report, 0, book[at].actor, at))),
        Gone::Through(replay) => replay,
    };
    let left = store_left(alloc, program, report, &replay)?;
    if left.is_fine() {
        return Ok(Ok(replay));
    }
    Ok(Err(left))
}

/// What the book of the n-th atom leaves.
fn atom_left(program: &Program, report: &Report, n: usize, cell: CellId, swaps: &History) -> Finding
    requires fits { fits_sizes (program_of program.now) (report_as report.now) ≡ true }
    requires there { nth (atoms_from 0 program.now.cells) n ≡ Some cell }
    requires few { length (books_of (report_as report.now) (suc n)) ≤ most_events }
    requires swapped { SwapsAre swaps.now (books_of (report_as report.now) (suc n)) }
    ensures { AtomLeft program.now report.now n cell result }
{
    let number = usize::from(cell.number);
    let events = report.atom_books[n].as_slice().len() as u32;
    let opening = &program.cells()[number].opening;
    let holds = has_swapped(swaps, events, opening, &report.cells[number]);
    check(holds, 0, first_length(report))
}

/// The book of the n-th atom gone through, or what an audit finds in it.
fn open_atom(
    alloc: Global,
    program: &Program,
    report: &Report,
    n: usize,
    cell: CellId,
) -> Result<Result<History, Finding>, AllocError>
    requires fits { fits_sizes (program_of program.now) (report_as report.now) ≡ true }
    requires there { nth (atoms_from 0 program.now.cells) n ≡ Some cell }
    ensures { IfOk result (AtomOpened program.now report.now n cell) }
{
    // A step of the proof, which does nothing when it runs.
    program.is_sound();
    let actors = program.threads().len() + count_agents(program.cells());
    let events = report.atom_books[n].as_slice();
    let swaps = match go_through_atom(alloc, cell, actors, events)? {
        Gone::UpTo(at) => return Ok(Err(off_at(report, n as u32 + 1, events[at].actor, at))),
        Gone::Through(swaps) => swaps,
    };
    let left = atom_left(program, report, n, cell, &swaps);
    if left.is_fine() {
        return Ok(Ok(swaps));
    }
    Ok(Err(left))
}

/// The books of these atoms gone through, which are all, or what an audit finds in the first that isn't right.
fn open_each(
    alloc: Global,
    program: &Program,
    report: &Report,
    atoms: &[CellId],
) -> Result<Result<Vec<History>, Finding>, AllocError>
    requires fits { fits_sizes (program_of program.now) (report_as report.now) ≡ true }
    requires all { atoms.now ≡ atoms_from 0 program.now.cells }
    ensures { IfOk result (AtomsOpened program.now report.now) }
{
    let mut all = Vec::new(alloc);
    for (n, cell) in atoms.iter().enumerate() {
        match open_atom(alloc, program, report, n, *cell)? {
            Ok(swaps) => all.push(swaps)?,
            Err(finding) => return Ok(Err(finding)),
        }
    }
    Ok(Ok(all))
}

/// The books of the atoms gone through, or what an audit finds in the first that isn't right.
fn open_atoms(
    alloc: Global,
    program: &Program,
    report: &Report,
) -> Result<Result<Vec<History>, Finding>, AllocError>
    requires { fits_sizes (program_of program.now) (report_as report.now) ≡ true }
    ensures { IfOk result (AtomsOpened program.now report.now) }
{
    // A step of the proof, which does nothing when it runs.
    program.is_sound();
    let atoms = atoms_of(alloc, program.cells())?;
    open_each(alloc, program, report, atoms.as_slice())
}

/// Goes through the books of a report that has the right sizes: an audit finds nothing in them, or that is what it finds.
///
/// # Errors
/// `AllocError` where there was no memory for what is kept of them.
pub fn open_books<'a>(
    alloc: Global,
    program: &'a Program,
    report: &'a Report,
) -> Result<Result<Books<'a>, Finding>, AllocError>
    requires { fits_sizes (program_of program.now) (report_as report.now) ≡ true }
    ensures { IfOk result (Opened program.now report.now) }
{
    let replay = match open_store(alloc, program, report)? {
        Ok(replay) => replay,
        Err(finding) => return Ok(Err(finding)),
    };
    let swaps = match open_atoms(alloc, program, report)? {
        Ok(swaps) => swaps,
        Err(finding) => return Ok(Err(finding)),
    };
    let functions = function_table(alloc, program)?;
    Ok(Ok(Books {
        program,
        report,
        replay,
        swaps,
        functions,
    }))
}
