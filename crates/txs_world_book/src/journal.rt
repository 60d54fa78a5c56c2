//! A book, and where each actor is in it.

ghost use Rattle.std.specs.Prelude.{◌≡◌, ◌<◌, ◌++◌, ◌∷◌, [], suc, length, slice_index, true, false, vec_capacity, IfOk, OnErr, OnOk};
ghost use Rattle.txs_value_data.specs.Limits.{most_events};
ghost use Rattle.txs_world_book.specs.Book.{is_again, counts};
ghost use Rattle.txs_world_book.specs.Stands.{Marked, StandAsBefore};
ghost use Rattle.txs_world_book.specs.Served.{event_of};

use std::alloc::{AllocError, Global};
use txs_world_protocol::{Cause, Event, EventKind};

/// The events; of each actor how many there are up to its last one, and up to its last one that isn't a commute phase to be made
/// again.
#[derive(Drop)]
pub struct Journal {
    pub book: Vec<Event>,
    pub views: Vec<u32>,
    pub tries: Vec<u32>,
}

impl Journal {
    /// A journal without events.
    pub fn new(alloc: Global) -> Journal
        ensures book { result.book.items ≡ [] }
        ensures views { result.views.items ≡ [] }
        ensures tries { result.tries.items ≡ [] }
    {
        Journal {
            book: Vec::new(alloc),
            views: Vec::new(alloc),
            tries: Vec::new(alloc),
        }
    }

    /// The events alone.
    pub fn into_book(self) -> Vec<Event>
        ensures { result.items ≡ self.book.items }
    {
        let Journal { book, views, tries } = self;
        drop(views);
        drop(tries);
        book
    }

    /// Adds an event, and answers how many there are with it.
    #[inline(always)]
    pub fn add(&mut self, actor: u16, kind: EventKind) -> Result<u32, AllocError>
        requires { length self.old.book.items < most_events }
        ensures added { OnOk result (self.new.book.items ≡ self.old.book.items ++ event_of actor kind ∷ []) }
        ensures many { IfOk result (λ n. n ≡ suc (length self.old.book.items)) }
        ensures views { OnOk result (Marked true actor (suc (length self.old.book.items)) self.old.views.items self.new.views.items) }
        ensures tries { OnOk result (Marked (counts false kind) actor (suc (length self.old.book.items)) self.old.tries.items self.new.tries.items) }
        ensures same { OnErr result (self.new.book.items ≡ self.old.book.items) }
        ensures same_views { OnErr result (StandAsBefore self.old.views.items self.new.views.items) }
        ensures same_tries { OnErr result (StandAsBefore self.old.tries.items self.new.tries.items) }
    {
        match self.make_room(actor) {
            Ok(()) => Ok(self.put(actor, kind)),
            Err(refused) => {
                // By a call, which is one case where to drop it here is one for each kind.
                drop(kind);
                Err(refused)
            }
        }
    }

    /// Makes room for one more event, and for where the actor is.
    fn make_room(&mut self, actor: u16) -> Result<(), AllocError>
        ensures same { self.new.book.items ≡ self.old.book.items }
        ensures same_views { StandAsBefore self.old.views.items self.new.views.items }
        ensures same_tries { StandAsBefore self.old.tries.items self.new.tries.items }
        ensures room { OnOk result (length self.new.book.items < vec_capacity self.new.book) }
        ensures views { OnOk result (actor < length self.new.views.items) }
        ensures tries { OnOk result (actor < length self.new.tries.items) }
    {
        self.book.reserve(1)?;
        make_room(&mut self.views, actor)?;
        make_room(&mut self.tries, actor)
    }

    /// Adds an event that has its room, and answers how many there are with it.
    fn put(&mut self, actor: u16, kind: EventKind) -> u32
        requires few { length self.old.book.items < most_events }
        requires room { length self.old.book.items < vec_capacity self.old.book }
        requires in_views { actor < length self.old.views.items }
        requires in_tries { actor < length self.old.tries.items }
        ensures added { self.new.book.items ≡ self.old.book.items ++ event_of actor kind ∷ [] }
        ensures many { result ≡ suc (length self.old.book.items) }
        ensures views { Marked true actor (suc (length self.old.book.items)) self.old.views.items self.new.views.items }
        ensures tries { Marked (counts false kind) actor (suc (length self.old.book.items)) self.old.tries.items self.new.tries.items }
    {
        let is_try = is_no_redo(&kind);
        self.book.push_reserved(Event { actor, kind });
        let events = self.book.len() as u32;
        mark(&mut self.views, actor, events, true);
        mark(&mut self.tries, actor, events, is_try);
        events
    }
}

/// Whether an event isn't a commute phase to be made again.
pub fn is_no_redo(kind: &EventKind) -> bool
    ensures { result ≡ counts false kind.now }
{
    match kind {
        EventKind::Retry { cause, .. } => !is_again(*cause),
        _ => true,
    }
}

/// Whether the commutes alone are made again.
fn is_again(cause: Cause) -> bool
    ensures { result ≡ is_again cause }
{
    match cause {
        Cause::Outdated | Cause::Held => false,
        Cause::Commuted { .. } => true,
    }
}

/// Where an actor is, 0 where it has no place yet.
pub fn stand_of(stands: &[u32], actor: u16) -> u32
    ensures { result ≡ slice_index stands.now actor }
{
    let actor = usize::from(actor);
    if actor < stands.len() {
        stands[actor]
    } else {
        0
    }
}

/// Makes room for where the actor is. Where every actor is stays as before.
///
/// # Errors
/// There was no memory.
pub fn make_room(stands: &mut Vec<u32>, actor: u16) -> Result<(), AllocError>
    ensures same { StandAsBefore stands.old.items stands.new.items }
    ensures room { OnOk result (actor < length stands.new.items) }
{
    let wanted = usize::from(actor) + 1;
    if stands.len() < wanted {
        stands.resize(wanted, 0)?;
    }
    Ok(())
}

/// The actor's last event is the last of so many, where it counts.
pub fn mark(stands: &mut Vec<u32>, actor: u16, events: u32, counts: bool)
    requires { actor < length stands.old.items }
    ensures { Marked counts actor events stands.old.items stands.new.items }
{
    if counts {
        stands[usize::from(actor)] = events;
    }
}
