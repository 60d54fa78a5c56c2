//! The state that all actors share.

ghost use Rattle.std.specs.Prelude.{◌≡◌, ◌≤◌, ◌<◌, ◌↔◌, ◌∷◌, ℕ, [], length, map, true, None, IfOk, IfSome, IsTrue};
ghost use Rattle.txs_world_protocol.specs.SeenEvent.{home, atoms_below};
ghost use Rattle.txs_theorem_runs.specs.Invariant.{SharedStands};
ghost use Rattle.txs_theorem_runs.specs.Shared.{untouched, has_atom, atom_of, book_for};
ghost use Rattle.txs_world_shared.specs.Apart.{AreLegal, ArePartsOf};
ghost use Rattle.txs_world.specs.Laws.{StoreStands};
ghost use Rattle.txs_world_shared.specs.Kept.{atom_named, atoms_of, without_book, state_of};
ghost use Rattle.txs_world_shared.specs.SharedState.{PlainShared, shared_of, numbered_book, book_of, newest_of};
ghost use Rattle.txs_world_book.specs.Book.{actors, has_cell, has_agent, mail_after};
ghost use Rattle.txs_world_book.specs.Served.{cells_of};

use crate::atoms::{atom_named, open_atoms, open_places};
use crate::joining::{all_by_actors, open_like};
use crate::parts::move_books;
use std::alloc::{AllocError, Global};
use std::marker::Model;
use txs_value_cell::{CellDefinition, copy_cells};
use txs_value_data::{CellId, CellKind, Fault, Listed, Value, same};
use txs_world::Store;
use txs_world_book::AtomBook;
use txs_world_protocol::{Ask, Event};

/// What all actors share: the refs and agents with their book, and the atoms, each with a book of its own.
pub struct SharedState {
    /// The cells as they were defined.
    pub(crate) cells: Vec<CellDefinition>,
    /// The refs and agents with their book, and the agents' mailboxes.
    pub(crate) store: Store,
    /// The atoms in the order of their cells.
    pub(crate) atoms: Vec<AtomBook>,
    /// Of each cell how many atoms there are before it, which of an atom is its place among the atoms; and how many there are in all.
    pub(crate) places: Vec<usize>,
}

// Dropped by a call that is proved here, so that no crate above proves again how books and cells are dropped.
impl Drop for SharedState {
    fn drop(self) {
        let SharedState {
            cells,
            store,
            atoms,
            places,
        } = self;
        drop(cells);
        drop(store);
        drop(atoms);
        drop(places);
    }
}

impl Model for SharedState {
    ghost use Rattle.txs_world_shared.specs.SharedState.{PlainShared};
    ghost use Rattle.txs_world_shared.specs.Kept.{state_of};
    ghost use Rattle.std.specs.Coded.{codes};
    ghost use Rattle.txs_value_data.specs.contracts.value.Value as value;

    ghost Value = { PlainShared };

    ghost coded = { Prim.hlevel (codes, value.the_row.coded) };

    ghost view = { λ s. state_of s.cells.items s.store s.atoms.items };

    ghost use Rattle.txs_world_shared.specs.Kept.{IsKept};

    ghost invariant = { λ s. IsKept s.cells.items s.store s.atoms.items s.places.items };
}

impl SharedState {
    /// The state of these cells for so many threads, with empty books. It shares names and opening values with the definitions.
    ///
    /// # Errors
    /// `AllocError` where there was no memory for it.
    pub fn open(
        alloc: Global,
        cells: &[CellDefinition],
        threads: u16,
    ) -> Result<SharedState, AllocError>
        ensures cells { IfOk result (λ s. s.cells ≡ cells.now) }
        ensures threads { IfOk result (λ s. s.threads ≡ threads) }
        ensures untouched { IfOk result (λ s. shared_of s ≡ untouched cells.now) }
    {
        let places = open_places(alloc, cells)?;
        let copies = copy_cells(alloc, cells)?;
        let atoms = open_atoms(alloc, cells)?;
        let store = Store::open(alloc, cells, threads)?;
        Ok(SharedState {
            cells: copies,
            store,
            atoms,
            places,
        })
    }

    /// The cells as they were defined.
    pub fn cells(&self) -> &[CellDefinition]
        ensures { result.now ≡ self.now.cells }
    {
        self.cells.as_slice()
    }

    /// How many threads it was opened for.
    pub fn threads(&self) -> u16
        ensures { result ≡ self.now.threads }
    {
        self.store.threads()
    }

    /// How many actors there are: the threads, and behind them the agents.
    pub fn actors(&self) -> usize
        ensures { result ≡ actors self.now.threads (cells_of self.now.cells) }
    {
        self.store.actors()
    }

    /// The events of the store's book. All books are legal, those of the atoms as well, and the commits undisturbed.
    pub fn events(&self) -> &[Event]
        ensures value { result.now ≡ numbered_book self.now 0 }
        ensures stands { SharedStands self.now.cells self.now.threads (shared_of self.now) }
    {
        self.store.events()
    }

    /// The events of the book with this number: 0 is the store's, n the n-th atom's. One that isn't there has none.
    pub fn numbered_events(&self, number: usize) -> &[Event]
        ensures { result.now ≡ numbered_book self.now number }
    {
        if number == 0 {
            self.events()
        } else if number <= self.atoms.len() {
            self.atoms[number - 1].events()
        } else {
            &[]
        }
    }

    /// How many books there are: the store's, and one of each atom. One with a number from there on has no events.
    pub fn books(&self) -> usize
        ensures number { result ≡ length self.now.books }
        ensures rest { (n : ℕ) → result ≤ n → numbered_book self.now n ≡ [] }
    {
        self.atoms.len() + 1
    }

    /// The books themselves: the store's, and those of the atoms in the order of their cells, one for each.
    ///
    /// # Errors
    /// `AllocError` where there was no memory for the list of the atoms' books.
    pub fn into_books(self, alloc: Global) -> Result<(Vec<Event>, Vec<Listed<Event>>), AllocError>
        ensures books { IfOk result (λ books. books.0.items ∷ books.1.items ≡ self.books) }
        ensures atoms { IfOk result (λ books. length books.1.items ≡ length (atoms_of 0 self.cells)) }
    {
        let mut books = Vec::with_capacity(alloc, self.atoms.len())?;
        let SharedState {
            cells,
            store,
            atoms,
            places,
        } = self;
        drop(cells);
        drop(places);
        move_books(atoms, &mut books);
        Ok((store.into_events(), books))
    }

    /// The parts: the store, and the atoms in the order of their cells, each with its book.
    pub fn into_parts(self) -> (Store, Vec<AtomBook>)
        ensures cells { result.0.cells ≡ cells_of self.cells }
        ensures atoms { map without_book result.1.items ≡ atoms_of 0 self.cells }
        ensures state { state_of self.cells result.0 result.1.items ≡ self }
    {
        let SharedState {
            cells,
            store,
            atoms,
            places,
        } = self;
        drop(cells);
        drop(places);
        (store, atoms)
    }

    /// The state of these cells with this store and these atoms; nothing, where they are no parts of one.
    ///
    /// # Errors
    /// `AllocError` where there was no memory for the cells, or for the atoms' indexes.
    pub fn join(
        alloc: Global,
        cells: &[CellDefinition],
        store: Store,
        atoms: Vec<AtomBook>,
    ) -> Result<Option<SharedState>, AllocError>
        ensures state { IfOk result (λ o. IfSome o (λ s. s ≡ state_of cells.now store atoms.items)) }
        ensures parts { IfOk result (λ o. IfSome o (λ s. ArePartsOf cells.now store atoms.items)) }
        ensures apart { IfOk result (λ o. o ≡ None → ArePartsOf cells.now store atoms.items → ⊥) }
    {
        let fresh = SharedState::open(alloc, cells, store.threads())?;
        let made = store.made_for(cells)
            && open_like(fresh.atoms.as_slice(), atoms.as_slice())
            && all_by_actors(store.actors(), atoms.as_slice());
        if !made {
            drop(store);
            drop(atoms);
            drop(fresh);
            return Ok(None);
        }
        store.stands();
        Ok(Some(fresh.with_parts(store, atoms)))
    }

    /// The state with this store and these atoms in the place of its own.
    fn with_parts(self, store: Store, atoms: Vec<AtomBook>) -> SharedState
        requires parts { ArePartsOf self.cells store atoms.items }
        requires legal { AreLegal atoms.items }
        requires stands { StoreStands store }
        ensures { result ≡ state_of self.cells store atoms.items }
    {
        let SharedState {
            cells,
            store: unused,
            atoms: empty,
            places,
        } = self;
        drop(unused);
        drop(empty);
        SharedState {
            cells,
            store,
            atoms,
            places,
        }
    }

    /// The number of the book that an ask is for.
    pub fn book_for(&self, ask: &Ask) -> usize
        ensures number { result ≡ book_for self.now.cells ask.now }
        ensures few { result ≤ 65536 }
    {
        match atom_named(ask) {
            Some(cell) => self.home(cell),
            None => 0,
        }
    }

    /// The number of the book that a cell's events are in.
    pub fn home(&self, cell: CellId) -> usize
        ensures number { result ≡ home self.now.cells cell }
        ensures few { result ≤ 65536 }
    {
        match cell.kind {
            CellKind::Atom => self.place(cell.number) + 1,
            CellKind::Ref | CellKind::Agent => 0,
        }
    }

    /// The newest value of a cell, of an agent its state.
    pub fn newest(&self, cell: CellId) -> &Value
        requires { has_cell (cells_of self.now.cells) cell ≡ true }
        ensures { result.now ≡ newest_of self.now cell }
    {
        match cell.kind {
            CellKind::Atom => self.atom(cell).newest(),
            CellKind::Ref | CellKind::Agent => self.store.newest(cell),
        }
    }

    /// The fault of an agent that has failed.
    pub fn failure(&self, agent: CellId) -> Option<Fault>
        requires { has_agent (cells_of self.now.cells) agent ≡ true }
        ensures { result ≡ (mail_after (cells_of self.now.cells) (numbered_book self.now 0) agent.number).fault }
    {
        self.store.failure(agent)
    }

    /// How many actions are in an agent's mailbox, with the one that is taken; an agent that has failed runs none of them.
    pub fn waiting(&self, agent: CellId) -> usize
        requires { has_agent (cells_of self.now.cells) agent ≡ true }
        ensures { result ≡ length (mail_after (cells_of self.now.cells) (numbered_book self.now 0) agent.number).actions }
    {
        self.store.waiting(agent)
    }

    /// Whether it is the state of these cells.
    pub fn made_for(&self, cells: &[CellDefinition]) -> bool
        ensures { IsTrue result ↔ (self.now.cells ≡ cells.now) }
    {
        let own = self.cells();
        if own.len() != cells.len() {
            return false;
        }
        for (i, cell) in cells.iter().enumerate() {
            if !is_cell(&own[i], cell) {
                return false;
            }
        }
        true
    }

    /// How many atoms there are before the cell with this number.
    pub(crate) fn place(&self, number: u16) -> usize
        ensures place { result ≡ atoms_below self.now.cells number }
        ensures few { result ≤ number }
        ensures fits { number < 65536 }
    {
        let number = usize::from(number).min(self.cells.len());
        self.places[number]
    }

    /// An atom with its book.
    pub(crate) fn atom(&self, cell: CellId) -> &AtomBook
        requires { has_atom self.now.cells cell ≡ true }
        ensures { result.now ≡ atom_of self.now.cells cell (book_of self.now cell) }
    {
        let place = self.place(cell.number);
        &self.atoms[place]
    }
}

/// Whether two definitions are equal.
fn is_cell(cell: &CellDefinition, other: &CellDefinition) -> bool
    ensures { IsTrue result ↔ (cell.now ≡ other.now) }
{
    cell.kind == other.kind
        && cell.name.as_bytes() == other.name.as_bytes()
        && same(&cell.opening, &other.opening)
        && cell.error_mode == other.error_mode
        && cell.validator == other.validator
}
