//! What a report has of the state: the value of each cell, and the fault of each agent.

ghost use Rattle.std.specs.Prelude.{◌≡◌, ◌≤◌, ◌++◌, [], length, map, true, vec_capacity, IfOk, OnOk};
ghost use Rattle.txs_world_book.specs.Book.{has_cell};
ghost use Rattle.txs_world_book.specs.Served.{cells_of};
ghost use Rattle.txs_world_shared.specs.Parts.{values_of, fault_of, with_fault, faults_of};

use crate::state::SharedState;
use std::alloc::{AllocError, Global};
use txs_value_cell::CellDefinition;
use txs_value_data::{CellId, CellKind, Fault, Listed, Value, copy_value};
use txs_world_book::AtomBook;
use txs_world_protocol::Event;

/// Adds the events of each of these atoms. There is room for them.
pub(crate) fn move_books(atoms: Vec<AtomBook>, books: &mut Vec<Listed<Event>>)
    requires room { length atoms.items ≤ vec_capacity books.old }
    requires empty { books.old.items ≡ [] }
    ensures { books.new.items ≡ map (λ a. a.book) atoms.items }
{
    for atom in atoms {
        books.push_reserved(Listed::from_vec(atom.into_events()));
    }
}

impl SharedState {
    /// The newest value of each cell, by its number; of an agent its state.
    ///
    /// # Errors
    /// `AllocError` where there was no memory for them.
    pub fn values(&self, alloc: Global) -> Result<Vec<Value>, AllocError>
        requires few { length self.now.cells ≤ 65535 }
        ensures { IfOk result (λ values. values.items ≡ values_of self.now) }
    {
        let cells = self.cells();
        let mut values = Vec::with_capacity(alloc, cells.len())?;
        for (i, cell) in cells.iter().enumerate() {
            let id = CellId {
                kind: cell.kind,
                number: i as u16,
            };
            values.push_reserved(copy_value(self.newest(id))?);
        }
        Ok(values)
    }

    /// Of each agent, in the order of the cells, its fault if it has failed.
    ///
    /// # Errors
    /// `AllocError` where there was no memory for them.
    pub fn failures(&self, alloc: Global) -> Result<Vec<Option<Fault>>, AllocError>
        requires few { length self.now.cells ≤ 65535 }
        ensures { IfOk result (λ faults. faults.items ≡ faults_of self.now) }
    {
        let cells = self.cells();
        let mut faults = Vec::new(alloc);
        for (i, cell) in cells.iter().enumerate() {
            self.add_fault(&mut faults, cell, i as u16)?;
        }
        Ok(faults)
    }

    /// Adds the fault of the cell with this number, if it is an agent.
    fn add_fault(
        &self,
        faults: &mut Vec<Option<Fault>>,
        cell: &CellDefinition,
        number: u16,
    ) -> Result<(), AllocError>
        requires there { has_cell (cells_of self.now.cells) (record { kind = cell.now.kind; number = number }) ≡ true }
        ensures { OnOk result (faults.new.items ≡ faults.old.items ++ with_fault (fault_of self.now) cell.now.kind number []) }
    {
        let CellKind::Agent = cell.kind else {
            return Ok(());
        };
        let agent = CellId {
            kind: CellKind::Agent,
            number,
        };
        faults.push(self.failure(agent))?;
        Ok(())
    }
}
