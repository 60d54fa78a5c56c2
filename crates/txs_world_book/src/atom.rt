//! An atom with its book.

ghost use Rattle.std.specs.Prelude.{◌≡◌, ℕ, ◌<◌, ◌≤◌, ◌++◌, ◌∷◌, ◌↔◌, [], length, true, false, Some, IsTrue, IfOk, OnErr, OnOk};
ghost use Rattle.txs_world_protocol.specs.declared.ask.Ask.TheVariants as ask;
ghost use Rattle.txs_world_protocol.specs.declared.event.EventKind.TheVariants as event;
ghost use Rattle.txs_value_data.specs.Limits.{most_events};
ghost use Rattle.txs_world_book.specs.Atom.{PlainAtom, LegalAtom, LegalAtomKind, AtomAnswers, atom_with, atom_newest, serve_atom, is_swap, swapped_since};
ghost use Rattle.txs_world_book.specs.Book.{may_name};
ghost use Rattle.txs_world_book.specs.Served.{event_of};

use crate::journal::{Journal, stand_of};
use std::alloc::{AllocError, Global};
use std::marker::Model;
use txs_value_data::limits::MOST_EVENTS;
use txs_value_data::{CellId, Value, copy_value};
use txs_world_protocol::{Event, EventKind, Reply};

/// An atom: its newest value, and the book of what actors did to it.
#[derive(Drop)]
pub struct AtomBook {
    cell: CellId,
    opening: Value,
    /// The value of the last swap.
    value: Option<Value>,
    /// How many events there are up to the last swap.
    swapped: u32,
    journal: Journal,
}

impl Model for AtomBook {
    ghost use Rattle.txs_world_book.specs.Atom.{PlainAtom};
    ghost use Rattle.std.specs.Coded.{codes};
    ghost use Rattle.txs_value_data.specs.contracts.value.Value as value_type;

    ghost Value = { PlainAtom };

    ghost coded = { Prim.hlevel (codes, value_type.the_row.coded) };

    ghost view = { λ s. record { cell = s.cell; opening = s.opening; book = s.journal.book.items } };

    ghost use Rattle.txs_world_book.specs.Atom.{IsAtomKept};

    ghost invariant = { λ s. IsAtomKept s.cell s.opening s.value s.swapped s.journal.views.items s.journal.book.items };
}

impl AtomBook {
    /// The atom of this cell, which opens with this value, with an empty book.
    pub fn new(alloc: Global, cell: CellId, opening: Value) -> AtomBook
        ensures { result ≡ record { cell = cell; opening = opening; book = [] } }
    {
        AtomBook {
            cell,
            opening,
            value: None,
            swapped: 0,
            journal: Journal::new(alloc),
        }
    }

    /// The atom's cell.
    pub fn cell(&self) -> CellId
        ensures { result ≡ self.now.cell }
    {
        self.cell
    }

    /// The value that it opened with.
    pub fn opening(&self) -> &Value
        ensures { result.now ≡ self.now.opening }
    {
        &self.opening
    }

    /// The events so far.
    pub fn events(&self) -> &[Event]
        ensures value { result.now ≡ self.now.book }
        ensures legal { LegalAtom self.now.cell self.now.book }
    {
        self.journal.book.as_slice()
    }

    /// The events alone.
    pub fn into_events(self) -> Vec<Event>
        ensures { result.items ≡ self.book }
    {
        let AtomBook {
            cell: _,
            opening,
            value,
            swapped: _,
            journal,
        } = self;
        drop(opening);
        drop(value);
        journal.into_book()
    }

    /// The newest value.
    pub fn newest(&self) -> &Value
        ensures { result.now ≡ atom_newest self.now }
    {
        match &self.value {
            Some(value) => value,
            None => &self.opening,
        }
    }

    /// Whether the actor may name this place: it is at most the number of events, with all that the actor did before it.
    pub fn lawful(&self, actor: u16, place: u32) -> bool
        ensures { result ≡ may_name true self.now.book actor place }
    {
        let events = self.journal.book.len();
        let stand = stand_of(self.journal.views.as_slice(), actor);
        place as usize <= events && stand <= place
    }

    /// The number of events and the newest value, with which a swap begins.
    #[tactic(auto, unfolding(txs_value_data::specs::Limits::most_events))]
    pub fn open_at(&self) -> Reply
        ensures { (actor : ℕ) → AtomAnswers self.now (serve_atom self.now.cell self.now.opening actor (ask.OpenAt self.now.cell) self.now.book) result self.now }
    {
        match self.share_newest() {
            Ok(value) => Reply::Opened(self.journal.book.len() as u32, value),
            Err(_) => Reply::Memory,
        }
    }

    /// The end of a swap that was opened at a place: `Changed`, and nothing is done, where the atom was swapped since. Without a
    /// place, of `reset!`, it isn't tested.
    pub fn close_at(&mut self, actor: u16, at: Option<u32>, new: Value) -> Reply
        ensures { AtomAnswers self.old (serve_atom self.old.cell self.old.opening actor (ask.CloseAt self.old.cell at new) self.old.book) result self.new }
    {
        if let Some(place) = at {
            if self.is_swapped(place) {
                drop(new);
                return Reply::Changed(self.cell);
            }
        }
        if self.is_full() {
            drop(new);
            return Reply::Full;
        }
        match self.swap(actor, new) {
            Ok(()) => Reply::Done,
            Err(_) => Reply::Memory,
        }
    }

    /// The end of a swap whose callee faulted on the value opened at this place.
    pub fn fail_at(&mut self, actor: u16, at: u32) -> Reply
        requires { may_name true self.old.book actor at ≡ true }
        ensures { AtomAnswers self.old (serve_atom self.old.cell self.old.opening actor (ask.Broke self.old.cell at) self.old.book) result self.new }
    {
        if self.is_full() {
            return Reply::Full;
        }
        match self.push(actor, EventKind::Broke { at }) {
            Ok(_) => Reply::Done,
            Err(_) => Reply::Memory,
        }
    }

    /// The newest value, read outside every transaction.
    pub fn peek(&mut self, actor: u16) -> Reply
        ensures { AtomAnswers self.old (serve_atom self.old.cell self.old.opening actor (ask.Peek self.old.cell) self.old.book) result self.new }
    {
        if self.is_full() {
            return Reply::Full;
        }
        let value = match self.share_newest() {
            Ok(value) => value,
            Err(_) => return Reply::Memory,
        };
        let cell = self.cell;
        match self.push(actor, EventKind::Read { cell }) {
            Ok(_) => Reply::Is(value),
            Err(_) => {
                drop(value);
                Reply::Memory
            }
        }
    }

    /// The newest value, which the atom goes on sharing.
    fn share_newest(&self) -> Result<Value, AllocError>
        ensures { IfOk result (λ v. v ≡ atom_newest self.now) }
    {
        copy_value(self.newest())
    }

    /// Whether there is no room for one more event.
    #[tactic(auto, unfolding(txs_value_data::specs::Limits::most_events))]
    fn is_full(&self) -> bool
        ensures { IsTrue result ↔ (most_events ≤ length self.now.book) }
    {
        self.journal.book.len() >= MOST_EVENTS
    }

    /// Whether a swap is at this place or later.
    fn is_swapped(&self, place: u32) -> bool
        ensures { result ≡ swapped_since place self.now.book }
    {
        place < self.swapped
    }

    /// Adds an event that gives no value, and answers how many there are with it.
    fn push(&mut self, actor: u16, kind: EventKind) -> Result<u32, AllocError>
        requires room { length self.old.book < most_events }
        requires legal { LegalAtomKind self.old.cell self.old.book actor kind }
        requires quiet { is_swap kind ≡ false }
        ensures added { OnOk result (self.new ≡ atom_with self.old (self.old.book ++ event_of actor kind ∷ [])) }
        ensures same { OnErr result (self.new ≡ self.old) }
    {
        self.journal.add(actor, kind)
    }

    /// Adds a swap. The book and the atom share the new value.
    fn swap(&mut self, actor: u16, new: Value) -> Result<(), AllocError>
        requires { length self.old.book < most_events }
        ensures added { OnOk result (self.new ≡ atom_with self.old (self.old.book ++ event_of actor (event.Swap new) ∷ [])) }
        ensures same { OnErr result (self.new ≡ self.old) }
    {
        let value = match copy_value(&new) {
            Ok(value) => value,
            Err(refused) => {
                drop(new);
                return Err(refused);
            }
        };
        match self.journal.add(actor, EventKind::Swap { new }) {
            Ok(events) => {
                self.swapped = events;
                drop(self.value.replace(value));
                Ok(())
            }
            Err(refused) => {
                drop(value);
                Err(refused)
            }
        }
    }
}
