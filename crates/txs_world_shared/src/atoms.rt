//! The atoms of cells, and what one of them answers.

ghost use Rattle.std.specs.Prelude.{◌≡◌, ◌<◌, ◌++◌, ◌∷◌, [], length, true, false, None, IfOk, IfSome, OnOk, if◌then◌else◌};
ghost use Rattle.std.proofs.Common.{get_or};
ghost use Rattle.txs_world_protocol.specs.declared.ask.Ask.TheVariants as ask;
ghost use Rattle.txs_value_cell.specs.Forms.{same_kind};
ghost use Rattle.txs_value_data.specs.declared.value.CellKind.TheVariants as kind;
ghost use Rattle.txs_world_book.specs.Atom.{AtomAnswers, serve_atom, is_lawful_atom};
ghost use Rattle.txs_world_shared.specs.Apart.{may_ask_atom};
ghost use Rattle.txs_world_shared.specs.Kept.{opens_atom, new_atom, atoms_of, places_of, no_atom, atom_named, names_place, AnswersAt};

use std::alloc::{AllocError, Global};
use txs_value_cell::CellDefinition;
use txs_value_data::{CellId, CellKind, copy_value};
use txs_world_book::AtomBook;
use txs_world_protocol::{Ask, Reply};

/// The atoms of these cells in their order, each with an empty book.
pub(crate) fn open_atoms(
    alloc: Global,
    cells: &[CellDefinition],
) -> Result<Vec<AtomBook>, AllocError>
    ensures { IfOk result (λ v. v.items ≡ atoms_of 0 cells.now) }
{
    let mut atoms = Vec::new(alloc);
    for number in 0..cells.len() {
        open_atom(alloc, &mut atoms, number, &cells[number])?;
    }
    Ok(atoms)
}

/// Adds the atom of a cell, if it is one. Behind the cells that have numbers none is added.
fn open_atom(
    alloc: Global,
    atoms: &mut Vec<AtomBook>,
    number: usize,
    cell: &CellDefinition,
) -> Result<(), AllocError>
    ensures { OnOk result (atoms.new.items ≡ (if opens_atom number cell.now then atoms.old.items ++ new_atom number cell.now ∷ [] else atoms.old.items)) }
{
    if cell.kind == CellKind::Atom && number < 65_536 {
        atoms.reserve(1)?;
        let opening = copy_value(&cell.opening)?;
        let id = CellId {
            kind: CellKind::Atom,
            number: number as u16,
        };
        atoms.push_reserved(AtomBook::new(alloc, id, opening));
    }
    Ok(())
}

/// Of each of these cells how many atoms there are before it, and how many there are in all.
pub(crate) fn open_places(alloc: Global, cells: &[CellDefinition]) -> Result<Vec<usize>, AllocError>
    ensures { IfOk result (λ v. v.items ≡ places_of 0 cells.now) }
{
    let mut places = Vec::with_capacity(alloc, cells.len() + 1)?;
    let mut atoms = 0usize;
    for cell in cells {
        places.push_reserved(atoms);
        atoms += atoms_in(cell);
    }
    places.push_reserved(atoms);
    Ok(places)
}

/// 1 for an atom, 0 for another cell.
fn atoms_in(cell: &CellDefinition) -> usize
    ensures { result ≡ (if same_kind cell.now.kind kind.Atom then 1 else 0) }
{
    match cell.kind {
        CellKind::Atom => 1,
        CellKind::Ref | CellKind::Agent => 0,
    }
}

/// The atom whose book an ask is for, if it is for an atom's.
pub fn atom_named(ask: &Ask) -> Option<CellId>
    ensures { result ≡ atom_named ask.now }
{
    match ask {
        Ask::Peek { cell } => {
            if cell.kind == CellKind::Atom {
                Some(*cell)
            } else {
                None
            }
        }
        Ask::OpenAt { cell } => Some(*cell),
        Ask::CloseAt { cell, .. } => Some(*cell),
        Ask::Broke { cell, .. } => Some(*cell),
        _ => None,
    }
}

/// Whether the actor may name the place of an atom's book that it asks with, if it names one.
pub(crate) fn names_place(atom: &AtomBook, actor: u16, ask: &Ask) -> bool
    ensures { result ≡ names_place actor ask.now atom.now.book }
{
    match ask {
        Ask::CloseAt { at, .. } => match at {
            Some(place) => atom.lawful(actor, *place),
            None => true,
        },
        Ask::Broke { at, .. } => atom.lawful(actor, *at),
        _ => true,
    }
}

/// What an atom answers, and adds to its book.
fn serve_atom(atom: &mut AtomBook, actor: u16, ask: Ask) -> Reply
    requires { is_lawful_atom atom.old.cell actor ask atom.old.book ≡ true }
    ensures { AtomAnswers atom.old (serve_atom atom.old.cell atom.old.opening actor ask atom.old.book) result atom.new }
{
    match ask {
        Ask::Peek { .. } => atom.peek(actor),
        Ask::OpenAt { .. } => atom.open_at(),
        Ask::CloseAt { at, new, .. } => atom.close_at(actor, at, new),
        Ask::Broke { at, .. } => atom.fail_at(actor, at),
        _ => unreachable!(),
    }
}

/// What an atom answers an actor, which is one of so many, and adds to its book; nothing, and nothing is added, where the actor
/// may not ask it of this atom. An atom under a lock of its own is served so.
pub fn serve_alone(atom: &mut AtomBook, actors: usize, actor: u16, ask: Ask) -> Option<Reply>
    ensures served { IfSome result (λ r. AtomAnswers atom.old (serve_atom atom.old.cell atom.old.opening actor ask atom.old.book) r atom.new) }
    ensures lawful { (result ≡ None → may_ask_atom actors actor ask atom.old ≡ false) × (may_ask_atom actors actor ask atom.old ≡ false → result ≡ None) }
    ensures refused { result ≡ None → atom.new ≡ atom.old }
{
    if !may_ask_atom(atom, actors, actor, &ask) {
        drop(ask);
        return None;
    }
    Some(serve_atom(atom, actor, ask))
}

/// Whether the actor may ask this of this atom: it is one of so many, the ask names the atom, and the actor may name the place.
fn may_ask_atom(atom: &AtomBook, actors: usize, actor: u16, ask: &Ask) -> bool
    ensures { result ≡ may_ask_atom actors actor ask.now atom.now }
{
    let Some(cell) = atom_named(ask) else {
        return false;
    };
    usize::from(actor) < actors && cell == atom.cell() && names_place(atom, actor, ask)
}

/// What the atom at a place answers, and adds to its book.
pub(crate) fn serve_at(atoms: &mut Vec<AtomBook>, place: usize, actor: u16, ask: Ask) -> Reply
    requires within { place < length atoms.old.items }
    requires lawful { is_lawful_atom (get_or atoms.old.items place no_atom).cell actor ask (get_or atoms.old.items place no_atom).book ≡ true }
    ensures { AnswersAt atoms.old.items place actor ask result atoms.new.items }
{
    let atom = &mut atoms[place];
    serve_atom(atom, actor, ask)
}
