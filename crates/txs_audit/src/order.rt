//! The order of all events.

ghost use Rattle.std.specs.Prelude.{◌≡◌, IfOk, Some};
ghost use Rattle.txs_tree_meaning.specs.View.{program_of};
ghost use Rattle.txs_theorem_audit.specs.Audited.{place_of};
ghost use Rattle.txs_theorem_audit.specs.Verdict.{order_found, place_off};
ghost use Rattle.txs_audit_order.specs.Named.{off_in};

use std::alloc::{AllocError, Global};
use txs_audit_evidence::Books;
use txs_audit_order::out_of_order;
use txs_audit_order::places::index_of;
use txs_world_protocol::Place;

/// The actor of the event at a place, and the index at which its trace names it; none where there is no such event.
fn named_off(books: &Books<'_>, place: Place) -> Option<(u16, usize)>
    ensures { off_in result ≡ place_off books.now.report (Some (place_of place)) }
{
    match books.event_at(place) {
        Some(event) => {
            let at = place.at as usize;
            let index = index_of(books.report(), place.book, event.actor, at);
            Some((event.actor, index))
        }
        None => None,
    }
}

/// The actor of an event that comes before itself, if there is no order of all events, and the index at which its trace names it.
pub(crate) fn order_off(
    alloc: Global,
    books: &Books<'_>,
) -> Result<Option<(u16, usize)>, AllocError>
    ensures { IfOk result (λ o. off_in o ≡ order_found (program_of books.now.program) books.now.report) }
{
    match out_of_order(alloc, books.program(), books.report())? {
        Some(place) => Ok(named_off(books, place)),
        None => Ok(None),
    }
}
