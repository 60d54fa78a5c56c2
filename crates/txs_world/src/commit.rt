//! How a transaction ends that has not faulted.

ghost use Rattle.std.specs.Prelude.{◌≡◌, ◌<◌, nat_lt, ◌++◌, ◌∷◌, [], length, true, false, OnOk};
ghost use Rattle.txs_world_protocol.specs.declared.ask.Ask.TheVariants as ask;
ghost use Rattle.txs_world_protocol.specs.declared.ask.Reply.TheVariants as reply;
ghost use Rattle.txs_world_protocol.specs.declared.event.EventKind.TheVariants as event;
ghost use Rattle.txs_value_data.specs.Limits.{most_events};
ghost use Rattle.txs_world_book.specs.Book.{actors, makes, cells_in, are_refs, are_sends, has_ref, has_refs, has_agent, may_end, least, least_written, first_failed, is_failed, LegalKind, Guarded};
ghost use Rattle.txs_world.specs.Inboxes.{plain_inboxes, all_sent_below, rooms, HaveRoom};
ghost use Rattle.txs_world.specs.Kept.{IsEnd};
ghost use Rattle.txs_world.specs.Places.{Ascend};
ghost use Rattle.txs_world.specs.Store.{is_lawful, are_apart, merged, serve, Replies};
ghost use Rattle.txs_world_book.specs.Served.{adds};

use crate::inbox::{Inbox, fill_queue, mail_all, make_room_for};
use crate::slot::{append, join_writes, put_all};
use crate::store::Store;
use std::alloc::AllocError;
use std::collections::VecDeque;
use txs_value_cell::Action;
use txs_value_data::{CellId, Listed, Value};
use txs_world_protocol::{Cause, EventKind, Reply};

/// What the tests of a commit come to.
#[derive(Clone, Copy)]
pub(crate) enum End {
    /// This ref, which was set or ensured, was written since the read point.
    Reruns(CellId),
    /// This ref, which was commuted, was written since the view.
    Redoes(CellId),
    /// This agent, for which a send is held, has failed.
    Refuses(CellId),
    /// Each test is passed.
    Commits,
}

/// The one of two cells with the lesser number.
pub fn least(a: Option<CellId>, b: Option<CellId>) -> Option<CellId>
    ensures { result ≡ least a b }
{
    match (a, b) {
        (None, b) => b,
        (Some(c), None) => Some(c),
        (Some(c), Some(d)) => {
            if c.number <= d.number {
                Some(c)
            } else {
                Some(d)
            }
        }
    }
}

/// Fills lists, which are kept for their room, with what a commit writes and sends, and makes room for its sends in the inboxes.
fn prepare(
    copies: &mut Vec<(CellId, Value)>,
    queue: &mut VecDeque<Action>,
    inboxes: &mut Vec<Inbox>,
    writes: &Listed<(CellId, Value)>,
    sends: &Listed<Action>,
) -> Result<(), AllocError>
    requires { all_sent_below (length inboxes.old.items) sends.now ≡ true }
    ensures same { plain_inboxes inboxes.new.items ≡ plain_inboxes inboxes.old.items }
    ensures copies { OnOk result (copies.new.items ≡ writes.now) }
    ensures queue { OnOk result (queue.new.items ≡ sends.now) }
    ensures room { OnOk result (HaveRoom (rooms inboxes.new.items) sends.now) }
{
    copies.clear();
    append(copies, writes.as_slice())?;
    fill_queue(queue, sends.as_slice())?;
    make_room_for(inboxes, sends.as_slice())
}

impl Store {
    /// The end of a transaction: its writes and sends, unless one of its tests comes out otherwise.
    pub(crate) fn commit(
        &mut self,
        actor: u16,
        at: u32,
        sets: Listed<(CellId, Value)>,
        ensured: &[CellId],
        view: u32,
        commuted: &[(CellId, Value)],
        sends: Listed<Action>,
    ) -> Reply
        requires { is_lawful self.old actor (ask.Commit at sets ensured.now view commuted.now sends) ≡ true }
        ensures { Replies self.old (serve self.old.cells actor (ask.Commit at sets ensured.now view commuted.now sends) self.old.book) result self.new }
    {
        let end = self.test(
            at,
            sets.as_slice(),
            ensured,
            view,
            commuted,
            sends.as_slice(),
        );
        match end {
            End::Reruns(cell) => self.rerun(actor, cell, at, Cause::Held),
            End::Redoes(cell) => {
                let kind = EventKind::Retry {
                    since: view,
                    cell,
                    cause: Cause::Commuted { at },
                };
                self.tell(actor, kind, Reply::Changed(cell))
            }
            End::Refuses(agent) => {
                let kind = EventKind::Refused { at, view, agent };
                self.tell(actor, kind, Reply::AgentIsFailed(agent))
            }
            End::Commits => self.done(actor, at, view, sets, commuted, sends),
        }
    }

    /// What the tests of a commit come to, in their order.
    fn test(
        &self,
        at: u32,
        sets: &[(CellId, Value)],
        ensured: &[CellId],
        view: u32,
        commuted: &[(CellId, Value)],
        sends: &[Action],
    ) -> End
        requires sets { has_refs self.now.cells (cells_in sets.now) ≡ true }
        requires ensured { has_refs self.now.cells ensured.now ≡ true }
        requires commuted { has_refs self.now.cells (cells_in commuted.now) ≡ true }
        requires sends { are_sends self.now.cells sends.now ≡ true }
        ensures { IsEnd (least_written self.now.book at (cells_in sets.now ++ ensured.now)) (least_written self.now.book view (cells_in commuted.now)) (first_failed self.now.cells self.now.book sends.now) result }
    {
        if let Some(cell) = self.least_tested(at, sets, ensured) {
            return End::Reruns(cell);
        }
        if let Some(cell) = self.least_written(view, commuted) {
            return End::Redoes(cell);
        }
        match self.first_failed(sends) {
            Some(agent) => End::Refuses(agent),
            None => End::Commits,
        }
    }

    /// The least of what was set or ensured that was written at this place or later.
    fn least_tested(&self, at: u32, sets: &[(CellId, Value)], ensured: &[CellId]) -> Option<CellId>
        requires sets { has_refs self.now.cells (cells_in sets.now) ≡ true }
        requires ensured { has_refs self.now.cells ensured.now ≡ true }
        ensures { result ≡ least_written self.now.book at (cells_in sets.now ++ ensured.now) }
    {
        let set = self.least_written(at, sets);
        least(set, self.least_ensured(at, ensured))
    }

    /// The least of these refs that was written at this place or later.
    fn least_written(&self, at: u32, writes: &[(CellId, Value)]) -> Option<CellId>
        requires { has_refs self.now.cells (cells_in writes.now) ≡ true }
        ensures { result ≡ least_written self.now.book at (cells_in writes.now) }
    {
        let mut found = None;
        for write in writes {
            found = self.least_with(at, found, write.0);
        }
        found
    }

    /// The same of refs without values.
    fn least_ensured(&self, at: u32, cells: &[CellId]) -> Option<CellId>
        requires { has_refs self.now.cells cells.now ≡ true }
        ensures { result ≡ least_written self.now.book at cells.now }
    {
        let mut found = None;
        for cell in cells {
            found = self.least_with(at, found, *cell);
        }
        found
    }

    /// The lesser one of what was found and a ref, where this was written at this place or later.
    fn least_with(&self, at: u32, found: Option<CellId>, cell: CellId) -> Option<CellId>
        requires { has_ref self.now.cells cell ≡ true }
        ensures { result ≡ least found (least_written self.now.book at (cell ∷ [])) }
    {
        if self.is_written(cell, at) {
            least(found, Some(cell))
        } else {
            found
        }
    }

    /// The agent of the first of these actions whose agent has failed.
    pub(crate) fn first_failed(&self, sends: &[Action]) -> Option<CellId>
        requires { are_sends self.now.cells sends.now ≡ true }
        ensures { result ≡ first_failed self.now.cells self.now.book sends.now }
    {
        for action in sends {
            if self.is_failed(action.agent) {
                return Some(action.agent);
            }
        }
        None
    }

    /// Whether an agent has failed.
    pub(crate) fn is_failed(&self, agent: CellId) -> bool
        requires { has_agent self.now.cells agent ≡ true }
        ensures { result ≡ is_failed self.now.cells self.now.book agent }
    {
        self.failure(agent).is_some()
    }

    /// The transaction has to run again for this cause, since the ref was written after its read point.
    pub(crate) fn rerun(&mut self, actor: u16, cell: CellId, at: u32, cause: Cause) -> Reply
        requires actor { nat_lt actor (actors self.old.threads self.old.cells) ≡ true }
        requires legal { LegalKind self.old.cells self.old.book actor (event.Retry at cell cause) }
        ensures { Replies self.old (adds actor (event.Retry at cell cause) (reply.Retry cell) self.old.book) result self.new }
    {
        let kind = EventKind::Retry {
            since: at,
            cell,
            cause,
        };
        self.tell(actor, kind, Reply::Retry(cell))
    }

    /// The transaction's writes and sends.
    fn done(
        &mut self,
        actor: u16,
        at: u32,
        view: u32,
        sets: Listed<(CellId, Value)>,
        commuted: &[(CellId, Value)],
        sends: Listed<Action>,
    ) -> Reply
        requires made { makes self.old.cells self.old.threads actor (event.Commit at view (merged sets commuted.now) sends) ≡ true }
        requires ascend { Ascend 0 commuted.now }
        requires apart { are_apart (cells_in commuted.now) (cells_in sets) ≡ true }
        requires legal { LegalKind self.old.cells self.old.book actor (event.Commit at view (merged sets commuted.now) sends) }
        requires guarded { Guarded self.old.book (event.Commit at view (merged sets commuted.now) sends) }
        ensures { Replies self.old (adds actor (event.Commit at view (merged sets commuted.now) sends) reply.Done self.old.book) result self.new }
    {
        if self.is_full() {
            drop(sets);
            drop(sends);
            return Reply::Full;
        }
        match join_writes(self.alloc, sets, commuted) {
            Ok(writes) => self.write(actor, at, view, writes, sends),
            Err(_) => {
                drop(sends);
                Reply::Memory
            }
        }
    }

    /// Adds a commit, for which the book has room, writes what it wrote and puts its sends into the inboxes. The book keeps the
    /// lists; the slots share their values, and the inboxes have copies of the actions.
    fn write(
        &mut self,
        actor: u16,
        at: u32,
        view: u32,
        writes: Listed<(CellId, Value)>,
        sends: Listed<Action>,
    ) -> Reply
        requires room { length self.old.book < most_events }
        requires made { makes self.old.cells self.old.threads actor (event.Commit at view writes sends) ≡ true }
        requires legal { LegalKind self.old.cells self.old.book actor (event.Commit at view writes sends) }
        requires guarded { Guarded self.old.book (event.Commit at view writes sends) }
        ensures { Replies self.old (adds actor (event.Commit at view writes sends) reply.Done self.old.book) result self.new }
    {
        match prepare(
            &mut self.spare,
            &mut self.queue,
            &mut self.inboxes,
            &writes,
            &sends,
        ) {
            Ok(()) => (),
            Err(_) => {
                drop(writes);
                drop(sends);
                return Reply::Memory;
            }
        }
        let kind = EventKind::Commit {
            at,
            view,
            writes,
            sends,
        };
        match self.journal.add(actor, kind) {
            Ok(events) => {
                // From here on nothing fails.
                put_all(&mut self.slots, &mut self.spare, events);
                mail_all(&mut self.inboxes, &mut self.queue);
                Reply::Done
            }
            Err(_) => Reply::Memory,
        }
    }
}
