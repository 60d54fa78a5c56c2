//! The atoms, each under a lock of its own.

ghost use Rattle.std.specs.Prelude.{◌≡◌, ◌≤◌, length, IfErr};
ghost use Rattle.txs_history.specs.Logged.{locks_of};
ghost use Rattle.txs_machine.specs.declared.run_error.RunError.TheVariants.{Memory};
ghost use Rattle.txs_threads.specs.Run.{AreOpened};

use crate::runnable::AsksAtom;
use std::alloc::{AllocError, Global};
use std::hint::spin_loop;
use std::sync::{Mutex, MutexGuard, Wait};
use txs_code_meaning::Verified;
use txs_history::{Asked, LoggedAtom, LoggedStore, Opened, Run};
use txs_history_run::AfterAsk;
use txs_machine::RunError;
use txs_value_data::CellId;
use txs_world::Store;
use txs_world_book::AtomBook;

/// How often a worker that finds an atom's lock held looks again before it sleeps.
const LOOKS: u32 = 200;

/// The atoms of a run.
#[derive(Drop)]
pub struct Atoms<A> {
    /// Of each cell the index of its lock; of one that is no atom a number behind all of them.
    indexes: Vec<usize>,
    /// The atoms, in the order of their cells.
    locks: Vec<Mutex<A>>,
}

/// The atoms behind a run, without their locks.
#[derive(Drop)]
pub struct FreeAtoms<A> {
    indexes: Vec<usize>,
    atoms: Vec<A>,
}

/// An atom's lock, taken. What is done under it is short, so a worker that finds it held looks again for a while before it sleeps.
fn lock_atom<'a, R: Wait, A>(rt: &R, lock: &'a Mutex<A>) -> MutexGuard<'a, A> {
    for _ in 0..LOOKS {
        if let Some(guard) = lock.try_lock() {
            return guard;
        }
        spin_loop();
    }
    lock.lock(rt)
}

/// The indexes of so many cells, none of which is an atom.
fn no_indexes(alloc: Global, cells: usize) -> Result<Vec<usize>, AllocError> {
    let mut indexes = Vec::with_capacity(alloc, cells)?;
    for _ in 0..cells {
        let _ = indexes.push(usize::MAX);
    }
    Ok(indexes)
}

/// The index of a cell's atom, of one that is no atom a number behind all of them.
fn index_of(indexes: &[usize], cell: CellId) -> usize {
    let number = usize::from(cell.number);
    if number < indexes.len() {
        indexes[number]
    } else {
        usize::MAX
    }
}

impl<A: Drop> Atoms<A> {
    /// Room for the atoms among so many cells.
    ///
    /// # Errors
    /// `AllocError` where there was no memory for it.
    pub fn open(alloc: Global, cells: usize, atoms: usize) -> Result<Atoms<A>, AllocError> {
        let indexes = no_indexes(alloc, cells)?;
        let locks = Vec::with_capacity(alloc, atoms)?;
        Ok(Atoms { indexes, locks })
    }

    /// Puts the atom of this cell under a lock, behind those before it.
    pub fn add(&mut self, cell: CellId, atom: A) {
        let number = usize::from(cell.number);
        if number < self.indexes.len() {
            self.indexes[number] = self.locks.len();
        }
        let _ = self.locks.push(Mutex::new(atom));
    }

    /// Serves an actor's ask that names this atom, under its lock: what became of it.
    pub fn serve<R: Wait, P: AsksAtom<A>>(&self, rt: &R, cell: CellId, actor: &mut P) -> AfterAsk {
        let index = index_of(self.indexes.as_slice(), cell);
        if index >= self.locks.len() {
            return AfterAsk::Unserved;
        }
        let mut atom = lock_atom(rt, &self.locks[index]);
        actor.ask_atom(&mut atom)
    }

    /// The atoms without their locks, in the order of their cells.
    ///
    /// # Errors
    /// `AllocError` where there was no memory for the list.
    pub fn into_free(self, alloc: Global) -> Result<FreeAtoms<A>, AllocError> {
        let Atoms { indexes, locks } = self;
        let mut atoms = Vec::with_capacity(alloc, locks.len())?;
        for lock in locks {
            let _ = atoms.push(lock.into_inner());
        }
        Ok(FreeAtoms { indexes, atoms })
    }
}

impl<A: Drop> FreeAtoms<A> {
    /// Serves an actor's ask that names this atom: what became of it.
    pub fn serve<P: AsksAtom<A>>(&mut self, cell: CellId, actor: &mut P) -> AfterAsk {
        let index = index_of(self.indexes.as_slice(), cell);
        if index >= self.atoms.len() {
            return AfterAsk::Unserved;
        }
        actor.ask_atom(&mut self.atoms[index])
    }

    /// The atoms, in the order of their cells.
    pub fn into_atoms(self) -> Vec<A>
        ensures { result ≡ self.atoms }
    {
        let FreeAtoms { indexes, atoms } = self;
        drop(indexes);
        atoms
    }
}

/// The store and the atoms, before the first ask, each with its log of the history.
pub(crate) fn open_logged<J: Run>(
    alloc: Global,
    code: &Verified,
    mut opened: Opened<Asked>,
    parts: (Store, Vec<AtomBook>),
) -> Result<(LoggedStore<J>, Atoms<LoggedAtom<J>>), RunError>
    requires book { opened.seen.book ≡ J.book }
    requires first { opened.next ≡ 0 }
    requires locks { opened.count ≡ locks_of J.code.cells }
    requires code { code.now ≡ J.code }
    requires few { length code.now.cells ≤ 65535 }
    requires parts { AreOpened code.now parts.0 parts.1.items }
    ensures { IfErr result (λ e. e ≡ Memory) }
{
    let (store, books) = parts;
    let actors = store.actors();
    let store = LoggedStore::new(store, opened.next::<J>());
    let cells = code.code().cells().len();
    let mut atoms = Atoms::open(alloc, cells, books.len())?;
    for book in books {
        let cell = book.cell();
        let atom = LoggedAtom::new(book, actors, opened.next::<J>());
        atoms.add(cell, atom);
    }
    Ok((store, atoms))
}
