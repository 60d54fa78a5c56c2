//! The books of a report, gone through, with the program and the report: what pieces are judged by.

ghost use Rattle.std.specs.Prelude.{◌≡◌, ◌≤◌, ◌<◌, length, take, option_copied};
ghost use Rattle.txs_value_data.specs.Places.{nth};
ghost use Rattle.txs_value_data.specs.declared.value.CellId.{CellId as PlainCell};
ghost use Rattle.txs_world.specs.Store.{next_action};
ghost use Rattle.txs_world_book.specs.Book.{is_there, mail_after, written};
ghost use Rattle.txs_world_book.specs.Served.{cells_of};
ghost use Rattle.txs_theorem_audit.specs.Audited.{books_of, report_as};
ghost use Rattle.txs_theorem_audit.specs.Verdict.{is_full_book};
ghost use Rattle.txs_audit_book.specs.Replayed.{IsRun, WorldsAre, value_there};
ghost use Rattle.txs_audit_evidence.specs.Evidence.{AreLegal, SwapsIn, replay_in};

use std::marker::Model;
use txs_audit_book::Replay;
use txs_check::FunctionTable;
use txs_tree_eval::History;
use txs_tree_meaning::Program;
use txs_value_cell::Action;
use txs_value_data::Value;
use txs_value_data::limits::MOST_EVENTS;
use txs_world_protocol::{Event, Place, Report};

/// A program, with the table of its functions; a report that has the right sizes; and the report's books gone through: the store's,
/// and the swaps of each atom.
#[derive(Drop)]
pub struct Books<'a> {
    pub(crate) program: &'a Program,
    pub(crate) report: &'a Report,
    pub(crate) replay: Replay<'a>,
    pub(crate) swaps: Vec<History>,
    pub(crate) functions: FunctionTable<'a>,
}

impl<'a> Model for Books<'a> {
    ghost use Rattle.std.specs.Coded.{codes};
    ghost use Rattle.txs_tree_meaning.specs.contracts.node.Node as node;
    ghost use Rattle.txs_value_data.specs.contracts.value.Value as value;
    ghost use Rattle.txs_audit_evidence.specs.Evidence.{PlainBooks, plain_books};

    ghost Value = { PlainBooks };

    ghost coded = { Prim.hlevel (codes, node.the_row.coded, value.the_row.coded) };

    ghost view = { λ b. plain_books b.program.now b.report.now };

    ghost use Rattle.txs_audit_evidence.specs.Evidence.{AreGone};

    ghost invariant = { λ b. AreGone (plain_books b.program.now b.report.now) b.replay b.swaps.items b.functions };
}

impl<'a> Books<'a> {
    /// The program.
    pub fn program(&self) -> &'a Program
        ensures { result.now ≡ self.now.program }
    {
        self.program
    }

    /// What is known of the program's functions.
    pub fn functions(&self) -> &FunctionTable<'a>
        ensures { result.now ≡ self.now.program }
    {
        &self.functions
    }

    /// The report.
    pub fn report(&self) -> &'a Report
        ensures { report_as result.now ≡ self.now.report }
    {
        self.report
    }

    /// The report has the right sizes, and each of its books is legal.
    pub fn are_legal(&self)
        ensures { AreLegal self.now }
    {
        let _ = &self.swaps;
    }

    /// The event at a place of the report's books, if there is one.
    pub fn event_at(&self, place: Place) -> Option<&'a Event>
        ensures { option_copied result ≡ nth (books_of self.now.report place.book) place.at }
    {
        if place.book == 0 {
            return self.report.book.get(place.at as usize);
        }
        match self.report.atom_books.get(place.book as usize - 1) {
            Some(book) => book.as_slice().get(place.at as usize),
            None => None,
        }
    }

    /// How many events the book with this number has: none where there is no such book.
    pub fn events_in(&self, book: usize) -> usize
        ensures { result ≡ length (books_of self.now.report book) }
    {
        if book == 0 {
            return self.report.book.len();
        }
        match self.report.atom_books.get(book - 1) {
            Some(events) => events.as_slice().len(),
            None => 0,
        }
    }

    /// Whether the book that is needed, if any is, is full.
    #[tactic(auto, unfolding(txs_value_data::specs::Limits::most_events))]
    pub fn is_full(&self, book: Option<usize>) -> bool
        ensures { result ≡ is_full_book (books_of self.now.report) book }
    {
        match book {
            Some(book) => MOST_EVENTS <= self.events_in(book),
            None => false,
        }
    }

    /// Of each cell the values that it has had, by number.
    pub(crate) fn histories(&self) -> &[History]
        ensures { WorldsAre (replay_in self.now) result.now }
    {
        self.replay.histories()
    }

    /// The swaps of the atom that this book is of; none for the store's book, and where there is no such book.
    pub(crate) fn swaps_in(&self, book: u32) -> Option<&History>
        ensures { SwapsIn self.now book (option_copied result) }
    {
        if book == 0 {
            return None;
        }
        self.swaps.get(book as usize - 1)
    }

    /// So many events, or as many as the store's book has.
    fn within(&self, events: u32) -> u32
        ensures within { result ≤ length self.now.report.book }
        ensures same { take result self.now.report.book ≡ take events self.now.report.book }
    {
        let all = self.report.book.len();
        if events as usize <= all {
            return events;
        }
        all as u32
    }

    /// Whether the cell with this number was written at index `since` or later, among the first so many events of the store's
    /// book. A number without a cell is never written.
    pub fn is_written(&self, number: u16, since: u32, events: u32) -> bool
        ensures { result ≡ written number since (take events self.now.report.book) }
    {
        if usize::from(number) >= self.program.cells().len() {
            return false;
        }
        let events = self.within(events);
        self.replay.is_written(number, since, events)
    }

    /// Whether the agent with this number has failed among the first so many events of the store's book. A number without a cell
    /// never fails.
    pub fn has_failed(&self, number: u16, events: u32) -> bool
        ensures { result ≡ is_there (mail_after (cells_of self.now.program.cells) (take events self.now.report.book) number).fault }
    {
        if usize::from(number) >= self.program.cells().len() {
            return false;
        }
        let events = self.within(events);
        self.replay.has_failed(number, events)
    }

    /// The action that the agent with this number ran as its so many-th, counted from 1.
    pub fn action(&self, number: u16, nth: u32) -> Option<&Action>
        ensures { number < length self.now.program.cells → IsRun (replay_in self.now) number nth (option_copied result) }
    {
        if usize::from(number) >= self.program.cells().len() {
            return None;
        }
        self.replay.action(number, nth)
    }

    /// What the agent with this number runs next behind the whole of the store's book: the first action that waits, unless the agent has
    /// failed.
    pub fn next_action(&self, number: u16) -> Option<&Action>
        requires { number < length self.now.program.cells }
        ensures { (g : PlainCell) → g.number ≡ number → option_copied result ≡ next_action (cells_of self.now.program.cells) self.now.report.book g }
    {
        match self.replay.failure(number) {
            Some(_) => None,
            None => self.replay.next(number),
        }
    }

    /// The value of the cell with this number behind so many events of the store's book, if there is one.
    pub fn value_at(&self, number: u16, events: u32) -> Option<&Value>
        ensures { option_copied result ≡ value_there (replay_in self.now) number events }
    {
        self.replay.value_at(number, events)
    }
}
