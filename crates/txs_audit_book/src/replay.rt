//! The store's book gone through once.

ghost use Rattle.std.specs.Prelude.{◌≡◌, ◌≤◌, ◌<◌, length, take, IfOk, option_copied};
ghost use Rattle.txs_world_book.specs.Served.{cells_of};
ghost use Rattle.txs_tree_eval_transaction.specs.Views.{held};
ghost use Rattle.txs_audit_book.specs.Replayed.{WentThrough, WorldsAre, IsRun, newest_there, failure_there, value_there, mail_there};
ghost use Rattle.txs_value_data.specs.Places.{nth};
ghost use Rattle.txs_world_book.specs.Book.{is_there, mail_after, written};

use crate::parts::{Parts, open_parts, put};
use crate::values::index_in;
use std::alloc::{AllocError, Global};
use std::marker::Model;
use txs_tree_eval_transaction::History;
use txs_value_cell::{Action, CellDefinition};
use txs_value_data::{Fault, Value};
use txs_world_protocol::Event;

/// A book has no more events.
const MOST_EVENTS: usize = 1_000_000;

/// The store's book gone through: what each event left of the cells.
#[derive(Drop)]
pub struct Replay<'a> {
    parts: Parts,
    book: &'a [Event],
}

impl<'a> Model for Replay<'a> {
    ghost use Rattle.std.specs.Coded.{codes};
    ghost use Rattle.txs_value_data.specs.contracts.value.Value as value;
    ghost use Rattle.txs_audit_book.specs.Replayed.{PlainReplay, plain_replay};

    ghost Value = { PlainReplay };

    ghost coded = { Prim.hlevel (codes, value.the_row.coded) };

    ghost view = { λ r. plain_replay r.parts.cells r.parts.threads r.book.now };

    ghost use Rattle.txs_audit_book.specs.Gone.{GoneParts};

    ghost invariant = { λ r. GoneParts r.parts r.book.now };
}

/// What comes of going through a book: it is gone through, or the event at this index may not stand there.
#[derive(Drop)]
pub enum Gone<T> {
    Through(T),
    UpTo(usize),
}

/// The value that a cell has at an index.
fn value_in(history: &History, place: u32) -> Option<&Value>
    ensures { option_copied result ≡ held history.now place }
{
    match history.at(place) {
        Some(item) => Some(&item.1),
        None => None,
    }
}

impl<'a> Replay<'a> {
    /// The fault of the agent with this number, where it has failed.
    pub fn failure(&self, number: u16) -> Option<Fault>
        requires { number < length self.now.cells }
        ensures { result ≡ failure_there self.now number }
    {
        self.parts.inboxes[usize::from(number)].fault
    }

    /// Of each cell the values that it has had, by number.
    pub fn histories(&self) -> &[History]
        ensures { WorldsAre self.now result.now }
    {
        self.parts.histories.as_slice()
    }

    /// The value of the cell with this number behind so many events, if there is one.
    pub fn value_at(&self, number: u16, events: u32) -> Option<&Value>
        ensures { option_copied result ≡ value_there self.now number events }
    {
        let place = usize::from(number);
        if place >= self.parts.histories.len() {
            return None;
        }
        value_in(&self.parts.histories[place], events)
    }

    /// The newest value of the cell with this number, if there is one.
    pub fn newest(&self, number: u16) -> Option<&Value>
        ensures { option_copied result ≡ newest_there self.now number }
    {
        let events = self.book.len() as u32;
        self.value_at(number, events)
    }

    /// Whether the cell with this number was written at index `since` or later, among the first so many events.
    pub fn is_written(&self, number: u16, since: u32, events: u32) -> bool
        requires there { number < length self.now.cells }
        requires within { events ≤ length self.now.book }
        ensures { result ≡ written number since (take events self.now.book) }
    {
        let place = usize::from(number);
        since < index_in(&self.parts.histories[place], events)
    }

    /// Whether the agent with this number has failed among the first so many events.
    pub fn has_failed(&self, number: u16, events: u32) -> bool
        requires there { number < length self.now.cells }
        requires within { events ≤ length self.now.book }
        ensures { result ≡ is_there (mail_there self.now number events).fault }
    {
        let inbox = &self.parts.inboxes[usize::from(number)];
        if inbox.fault.is_none() {
            return false;
        }
        inbox.failed <= events
    }

    /// The first action that waits for the agent with this number.
    pub fn next(&self, number: u16) -> Option<&Action>
        requires { number < length self.now.cells }
        ensures { option_copied result ≡ nth (mail_after self.now.cells self.now.book number).actions 0 }
    {
        let inbox = &self.parts.inboxes[usize::from(number)];
        inbox.sent.get(inbox.acts)
    }

    /// The action that the agent with this number ran as its so many-th, counted from 1.
    pub fn action(&self, number: u16, nth: u32) -> Option<&Action>
        requires { number < length self.now.cells }
        ensures { IsRun self.now number nth (option_copied result) }
    {
        if nth == 0 {
            return None;
        }
        let inbox = &self.parts.inboxes[usize::from(number)];
        inbox.sent.get(nth as usize - 1)
    }
}

/// Goes through the store's book.
///
/// # Errors
/// `AllocError` where there was no memory for what is kept.
pub fn go_through<'a>(
    alloc: Global,
    definitions: &[CellDefinition],
    threads: u16,
    book: &'a [Event],
) -> Result<Gone<Replay<'a>>, AllocError>
    ensures { IfOk result (λ g. WentThrough (cells_of definitions.now) threads book.now g) }
{
    let mut parts = open_parts(alloc, definitions, threads)?;
    for (i, event) in book.iter().enumerate() {
        let (done, _) = book.split_at(i);
        if i >= MOST_EVENTS {
            return Ok(Gone::UpTo(i));
        }
        if !parts.is_legal(done, event) {
            return Ok(Gone::UpTo(i));
        }
        put(&mut parts, done, event)?;
    }
    Ok(Gone::Through(Replay { parts, book }))
}
