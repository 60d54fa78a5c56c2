//! What the store answers.

ghost use Rattle.std.specs.Prelude.{◌≡◌, ◌≤◌, ◌<◌, nat_lt, [], ◌↔◌, map, length, true, false, option_copied, IsTrue, IfOk, OnOk};
ghost use Rattle.txs_world_book.specs.Book.{actors, has_cell, has_ref, has_readable, has_refs, may_name, may_end, opening, newest, written, is_outdated, makes, LegalKind};
ghost use Rattle.txs_value_data.specs.Limits.{most_events};
ghost use Rattle.txs_world.specs.Kept.{kept_at, ChangesNothing};
ghost use Rattle.txs_world.specs.Store.{is_lawful, looks, serve, store_after, TakesMemory, Answers, Replies};
ghost use Rattle.txs_world_book.specs.Served.{adds, served};
ghost use Rattle.txs_world_protocol.specs.declared.ask.Reply.TheVariants as reply;
ghost use Rattle.txs_world_protocol.specs.declared.event.EventKind.TheVariants as event;

use crate::store::Store;
use std::alloc::AllocError;
use txs_value_data::limits::MOST_EVENTS;
use txs_value_data::{CellId, Listed, Value, copy_value};
use txs_world_protocol::{Ask, Cause, Event, EventKind, Reply};

impl Store {
    /// Answers an ask of an actor, as a whole. The reply is `Full` exactly where the book has as many events as it may have and
    /// the answer would add one. It is `Memory` where there was no memory for the event, for what is handed out (the list of a
    /// `View`, the copy of an action at a `Take`), for what a `Commit` or a `Finish` writes (a commit's joined list is one), or
    /// for what is put into mailboxes, or where a value can have no more owners. After both the store is as before. A commit's
    /// event keeps the lists of its ask.
    #[inline(always)]
    pub fn serve(&mut self, actor: u16, ask: Ask) -> Reply
        requires { is_lawful self.old actor ask ≡ true }
        ensures { Answers self.old (serve self.old.cells actor ask self.old.book) (store_after self.old ask (serve self.old.cells actor ask self.old.book)) result self.new }
    {
        match ask {
            Ask::Begin => Reply::At(self.read_point()),
            Ask::Look { cell, at } => self.look(actor, cell, at),
            Ask::View { cells } => self.view(cells.as_slice()),
            Ask::Commit {
                at,
                sets,
                ensured,
                view,
                commuted,
                sends,
            } => self.commit(
                actor,
                at,
                sets,
                ensured.as_slice(),
                view,
                commuted.as_slice(),
                sends,
            ),
            Ask::Fail { at, view } => self.fail(actor, at, view),
            Ask::Peek { cell } => self.peek(actor, cell),
            Ask::Send { action } => self.send(actor, action),
            Ask::Take { agent } => self.take(actor, agent),
            Ask::Finish { agent, new, sends } => self.finish(actor, agent, new, sends),
            Ask::OpenAt { .. } | Ask::Broke { .. } => Reply::Idle,
            Ask::CloseAt { new, .. } => {
                drop(new);
                Reply::Idle
            }
        }
    }

    /// How many events there are.
    #[tactic(auto, unfolding(txs_value_data::specs::Limits::most_events))]
    fn read_point(&self) -> u32
        ensures { result ≡ length self.now.book }
    {
        self.journal.book.len() as u32
    }

    /// Whether there is no room for one more event.
    #[tactic(auto, unfolding(txs_value_data::specs::Limits::most_events))]
    pub(crate) fn is_full(&self) -> bool
        ensures { IsTrue result ↔ (most_events ≤ length self.now.book) }
    {
        self.journal.book.len() >= MOST_EVENTS
    }

    /// Whether the ref was written at this place or later.
    pub(crate) fn is_written(&self, cell: CellId, at: u32) -> bool
        requires { has_ref self.now.cells cell ≡ true }
        ensures { result ≡ written cell.number at self.now.book }
    {
        at < self.slots[usize::from(cell.number)].newest().written
    }

    /// Adds an event that writes nothing and changes no agent, and gives this reply.
    pub(crate) fn tell(&mut self, actor: u16, kind: EventKind, reply: Reply) -> Reply
        requires made { makes self.old.cells self.old.threads actor kind ≡ true }
        requires legal { LegalKind self.old.cells self.old.book actor kind }
        requires quiet { ChangesNothing kind }
        requires told { TakesMemory reply }
        ensures { Replies self.old (adds actor kind reply self.old.book) result self.new }
    {
        if self.is_full() {
            drop(kind);
            drop(reply);
            return Reply::Full;
        }
        match self.journal.add(actor, kind) {
            Ok(_) => reply,
            Err(_) => {
                drop(reply);
                Reply::Memory
            }
        }
    }

    /// The value at the read point, or that it is no longer kept, since the ref was written too often since.
    fn look(&mut self, actor: u16, cell: CellId, at: u32) -> Reply
        requires actor { nat_lt actor (actors self.old.threads self.old.cells) ≡ true }
        requires cell { has_ref self.old.cells cell ≡ true }
        requires place { may_name false self.old.book actor at ≡ true }
        ensures { Replies self.old (looks (is_outdated cell.number at self.old.book) (opening self.old.cells) actor cell at self.old.book) result self.new }
    {
        match self.kept(cell, at) {
            Some(value) => match copy_value(value) {
                Ok(value) => Reply::Is(value),
                Err(_) => Reply::Memory,
            },
            None => self.rerun(actor, cell, at, Cause::Outdated),
        }
    }

    /// The value that the ref had after the first `at` events, if it is still kept.
    fn kept(&self, cell: CellId, at: u32) -> Option<&Value>
        requires { has_ref self.now.cells cell ≡ true }
        ensures { option_copied result ≡ kept_at (opening self.now.cells) cell.number at self.now.book }
    {
        self.slots[usize::from(cell.number)].value_at(at)
    }

    /// The newest value, which the store goes on sharing.
    pub(crate) fn share_newest(&self, cell: CellId) -> Result<Value, AllocError>
        requires { has_cell self.now.cells cell ≡ true }
        ensures { IfOk result (λ v. v ≡ newest (opening self.now.cells) self.now.book cell.number) }
    {
        copy_value(self.newest(cell))
    }

    /// The newest values of these refs.
    fn view(&self, cells: &[CellId]) -> Reply
        requires { has_refs self.now.cells cells.now ≡ true }
        ensures { Replies self.now (served (reply.Views (length self.now.book) (map (λ c. newest (opening self.now.cells) self.now.book c.number) cells.now)) self.now.book) result self.now }
    {
        let mut values = Vec::new(self.alloc);
        match self.share_all(&mut values, cells) {
            Ok(()) => Reply::Views(self.read_point(), Listed::from_vec(values)),
            Err(_) => Reply::Memory,
        }
    }

    /// Adds the newest values of these refs, which the store goes on sharing.
    fn share_all(&self, values: &mut Vec<Value>, cells: &[CellId]) -> Result<(), AllocError>
        requires refs { has_refs self.now.cells cells.now ≡ true }
        requires empty { values.old.items ≡ [] }
        ensures { OnOk result (values.new.items ≡ map (λ c. newest (opening self.now.cells) self.now.book c.number) cells.now) }
    {
        values.reserve(cells.len())?;
        for cell in cells {
            let value = self.share_newest(*cell)?;
            values.push_reserved(value);
        }
        Ok(())
    }

    /// The end of a transaction that faulted.
    fn fail(&mut self, actor: u16, at: u32, view: u32) -> Reply
        requires actor { nat_lt actor (actors self.old.threads self.old.cells) ≡ true }
        requires ends { may_end self.old.book actor at view ≡ true }
        ensures { Replies self.old (adds actor (event.Fail at view) reply.Done self.old.book) result self.new }
    {
        self.tell(actor, EventKind::Fail { at, view }, Reply::Done)
    }

    /// The newest value.
    fn peek(&mut self, actor: u16, cell: CellId) -> Reply
        requires actor { nat_lt actor (actors self.old.threads self.old.cells) ≡ true }
        requires cell { has_readable self.old.cells cell ≡ true }
        ensures { Replies self.old (adds actor (event.Read cell) (reply.Is (newest (opening self.old.cells) self.old.book cell.number)) self.old.book) result self.new }
    {
        if self.is_full() {
            return Reply::Full;
        }
        match self.share_newest(cell) {
            Ok(value) => self.tell(actor, EventKind::Read { cell }, Reply::Is(value)),
            Err(_) => Reply::Memory,
        }
    }
}
