//! The events of a trace with their worlds.

ghost use Rattle.std.specs.Prelude.{◌≡◌, ◌<◌, ◌++◌, ◌∷◌, [], length, IfOk, OnOk};
ghost use Rattle.txs_tree_eval_transaction.specs.Views.{plain_view, world_of as view_world};
ghost use Rattle.txs_tree_eval_node.specs.Events.{seen_event, seen_events};
ghost use Rattle.txs_theorem_runs.specs.Shared.{seen_in, world_of};
ghost use Rattle.txs_theorem_runs.specs.Told.{seen_of};
ghost use Rattle.txs_theorem_audit.specs.Audited.{books_of, place_of};
ghost use Rattle.txs_audit_order.specs.Named.{plain_trace};

use crate::books::Books;
use std::alloc::{AllocError, Global};
use txs_audit_order::kinds::{at_of, view_of};
use txs_tree_eval::{RefView, Seen};
use txs_world_protocol::{EventKind, Place};

impl<'a> Books<'a> {
    /// The values of cells behind so many events of a book that has events.
    fn view(&self, book: u32, events: u32) -> RefView<'_>
        requires { 0 < length (books_of self.now.report book) }
        ensures { view_world (plain_view result) ≡ world_of self.now.program.cells book (books_of self.now.report book) events }
    {
        RefView {
            cells: self.histories(),
            swaps: self.swaps_in(book),
            place: events,
        }
    }

    /// An event at a place, with its worlds.
    fn see<'b>(&'b self, place: Place, kind: &'b EventKind) -> Seen<'b>
        requires { 0 < length (books_of self.now.report place.book) }
        ensures { seen_event result ≡ seen_in self.now.program.cells place.book (books_of self.now.report place.book) place.at kind.now }
    {
        let start = at_of(kind, place.at);
        let view = view_of(kind, place.at);
        Seen {
            book: place.book as usize,
            kind,
            start: self.view(place.book, start),
            view: self.view(place.book, view),
            here: self.view(place.book, place.at),
        }
    }

    /// Adds the event at a place with its worlds, if there is one.
    fn see_next<'b>(&'b self, seen: &mut Vec<Seen<'b>>, place: Place) -> Result<(), AllocError>
        ensures { OnOk result (seen_events seen.new.items ≡ seen_events seen.old.items ++ seen_of self.now.program.cells (books_of self.now.report) (place_of place ∷ [])) }
    {
        let Some(event) = self.event_at(place) else {
            return Ok(());
        };
        seen.push(self.see(place, &event.kind))?;
        Ok(())
    }

    /// The events of a trace with their worlds: a place that names no event is left out.
    ///
    /// # Errors
    /// `AllocError` where there was no memory for them.
    pub fn see_all<'b>(
        &'b self,
        alloc: Global,
        trace: &[Place],
    ) -> Result<Vec<Seen<'b>>, AllocError>
        ensures { IfOk result (λ seen. seen_events seen.items ≡ seen_of self.now.program.cells (books_of self.now.report) (plain_trace trace.now)) }
    {
        let mut seen = Vec::with_capacity(alloc, trace.len())?;
        for place in trace {
            self.see_next(&mut seen, *place)?;
        }
        Ok(seen)
    }
}
