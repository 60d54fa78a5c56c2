//! The store of refs and agents, with its book.

ghost use Rattle.std.specs.Prelude.{◌≡◌, ◌↔◌, [], length, true, false, IsTrue, IfOk};
ghost use Rattle.txs_world_book.specs.Book.{actors, has_cell, has_agent, opening, newest, mail_after, Legal, Undisturbed};
ghost use Rattle.txs_world.specs.Laws.{StoreStands};
ghost use Rattle.txs_world.specs.Store.{PlainStore, store_with, none_taken};
ghost use Rattle.txs_world_book.specs.Served.{cell_of, cells_of};

use crate::inbox::{Inbox, check_mail, open_inboxes};
use crate::slot::{Slot, open_slots};
use std::alloc::{AllocError, Global};
use std::collections::VecDeque;
use std::marker::Model;
use txs_value_cell::{Action, CellDefinition};
use txs_value_data::{CellId, Fault, Value, same};
use txs_world_book::{Cells, Journal, StoreCell, continues};
use txs_world_protocol::Event;

/// The refs and agents that threads share, with the book of what actors did to them. Each atom has a book of its own.
#[derive(Drop)]
pub struct Store {
    pub(crate) alloc: Global,
    pub(crate) cells: Cells,
    /// How many threads there are: actors have their numbers before those of agents.
    pub(crate) threads: u16,
    pub(crate) slots: Vec<Slot>,
    pub(crate) inboxes: Vec<Inbox>,
    pub(crate) journal: Journal,
    /// What an event writes, and what a commit sends: kept for their room, between events.
    pub(crate) spare: Vec<(CellId, Value)>,
    pub(crate) queue: VecDeque<Action>,
}

impl Model for Store {
    ghost use Rattle.txs_world.specs.Store.{PlainStore, store_with};
    ghost use Rattle.txs_world.specs.Inboxes.{plain_inboxes, taken_of};
    ghost use Rattle.std.specs.Coded.{codes};
    ghost use Rattle.txs_value_data.specs.contracts.value.Value as value;

    ghost Value = { PlainStore };

    ghost coded = { Prim.hlevel (codes, value.the_row.coded) };

    ghost view = { λ s. store_with s.cells s.threads s.journal.book.items (taken_of (plain_inboxes s.inboxes.items)) };

    ghost use Rattle.txs_world.specs.Kept.{IsKept};

    ghost invariant = { λ s. IsKept s.cells s.threads s.slots.items (plain_inboxes s.inboxes.items) s.journal.views.items s.journal.tries.items s.journal.book.items };
}

impl Store {
    /// A store of these cells for so many threads, with an empty book. It shares the opening values with their definitions. The
    /// actors are the threads and, behind them, the agents in the order of their cells.
    pub fn open(alloc: Global, cells: &[CellDefinition], threads: u16) -> Result<Store, AllocError>
        ensures { IfOk result (λ s. s ≡ store_with (cells_of cells.now) threads [] (none_taken (cells_of cells.now))) }
    {
        let cells = Cells::open(alloc, cells)?;
        let slots = open_slots(alloc, cells.as_slice())?;
        let inboxes = open_inboxes(alloc, cells.as_slice())?;
        Ok(Store {
            alloc,
            cells,
            threads,
            slots,
            inboxes,
            journal: Journal::new(alloc),
            spare: Vec::new(alloc),
            queue: VecDeque::new(alloc),
        })
    }

    /// The cells as they opened.
    pub fn cells(&self) -> &[StoreCell]
        ensures { result.now ≡ self.now.cells }
    {
        self.cells.as_slice()
    }

    /// How many threads it was opened for.
    pub fn threads(&self) -> u16
        ensures { result ≡ self.now.threads }
    {
        self.threads
    }

    /// How many actors there are: the threads, and behind them the agents.
    pub fn actors(&self) -> usize
        ensures { result ≡ actors self.now.threads self.now.cells }
    {
        self.cells.actors(self.threads)
    }

    /// The events so far.
    pub fn events(&self) -> &[Event]
        ensures value { result.now ≡ self.now.book }
        ensures legal { Legal self.now.cells self.now.threads self.now.book }
        ensures undisturbed { Undisturbed self.now.book }
    {
        self.journal.book.as_slice()
    }

    /// What holds of every store: its book is legal, its commits are undisturbed, and each action that is taken waits.
    pub fn stands(&self)
        ensures { StoreStands self.now }
    {
        check_mail(self.inboxes.as_slice());
    }

    /// The events alone.
    pub fn into_events(self) -> Vec<Event>
        ensures { result.items ≡ self.book }
    {
        let Store {
            alloc: _,
            cells,
            threads: _,
            slots,
            inboxes,
            journal,
            spare,
            queue,
        } = self;
        drop(cells);
        drop(slots);
        drop(inboxes);
        drop(spare);
        drop(queue);
        journal.into_book()
    }

    /// The newest value of a cell: of an agent its state. Of an atom it is the value that it opened with, since the atom's book
    /// has its newest.
    pub fn newest(&self, cell: CellId) -> &Value
        requires { has_cell self.now.cells cell ≡ true }
        ensures { result.now ≡ newest (opening self.now.cells) self.now.book cell.number }
    {
        &self.slots[usize::from(cell.number)].newest().value
    }

    /// The fault of an agent that has failed.
    pub fn failure(&self, agent: CellId) -> Option<Fault>
        requires { has_agent self.now.cells agent ≡ true }
        ensures { result ≡ (mail_after self.now.cells self.now.book agent.number).fault }
    {
        self.inboxes[usize::from(agent.number)].fault
    }

    /// How many actions are in an agent's mailbox, with the one that is taken. An agent that has failed runs none of them.
    pub fn waiting(&self, agent: CellId) -> usize
        requires { has_agent self.now.cells agent ≡ true }
        ensures { result ≡ length (mail_after self.now.cells self.now.book agent.number).actions }
    {
        self.inboxes[usize::from(agent.number)].mailbox.len()
    }

    /// Whether the store's cells are those of these definitions.
    pub fn made_for(&self, cells: &[CellDefinition]) -> bool
        ensures { IsTrue result ↔ (self.now.cells ≡ cells_of cells.now) }
    {
        let own = self.cells();
        if own.len() != cells.len() {
            return false;
        }
        for (i, definition) in cells.iter().enumerate() {
            if !is_cell_of(&own[i], definition) {
                return false;
            }
        }
        true
    }
}

/// Whether a cell is of this definition.
fn is_cell_of(cell: &StoreCell, definition: &CellDefinition) -> bool
    ensures { IsTrue result ↔ (cell.now ≡ cell_of definition.now) }
{
    cell.kind == definition.kind
        && same(&cell.opening, &definition.opening)
        && cell.goes_on == continues(definition.error_mode)
}
