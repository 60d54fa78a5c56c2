//! What came before what.

ghost use Rattle.std.specs.Prelude.{◌≡◌, ◌++◌, ◌∷◌, [], set, OnOk};
ghost use Rattle.std.proofs.Common.{get_or};
ghost use Rattle.txs_theorem_serial.specs.Order.{links_to, links_between};
ghost use Rattle.txs_audit_order.specs.Ordered.{place_as};
ghost use Rattle.txs_audit_order.specs.Linked.{spot_as, spots_as, behind_as, with_links, next_of, AreSorted, IsSorted};

use crate::rows::Row;
use std::alloc::AllocError;
use txs_world_protocol::Place;

/// Where an event is: the number of its book, and its index there.
#[derive(Clone, Copy)]
pub(crate) struct Spot {
    pub(crate) book: u32,
    pub(crate) at: usize,
}

/// What came before an event of some book: the event's index, and the number of the book and the index of what came before it.
#[derive(Clone, Copy, Drop)]
pub(crate) struct Before {
    pub(crate) at: u32,
    pub(crate) book: u32,
    pub(crate) earlier: usize,
}

/// The events that an actor is behind: one of its own, and the one that sent its action.
#[derive(Clone, Copy)]
pub(crate) struct Behind {
    pub(crate) event: Option<Spot>,
    pub(crate) sender: Option<Spot>,
}

/// A place with an index of more bits.
pub(crate) fn spot_of(place: Place) -> Spot
    ensures { spot_as result ≡ place_as place }
{
    Spot {
        book: place.book,
        at: place.at as usize,
    }
}

/// A link joins the row of this book, if there is such a book.
fn add_link(rows: &mut Vec<Row<Before>>, book: usize, link: Before) -> Result<(), AllocError>
    ensures { OnOk result (rows.new.items ≡ set rows.old.items book (get_or rows.old.items book [] ++ link ∷ [])) }
{
    if book >= rows.len() {
        return Ok(());
    }
    let row = &mut rows[book];
    row.add(link)
}

/// One event came before the other, unless the book itself says it.
fn link_spot(rows: &mut Vec<Row<Before>>, earlier: Spot, later: Place) -> Result<(), AllocError>
    ensures { OnOk result (rows.new.items ≡ with_links rows.old.items (links_to (spot_as earlier ∷ []) (place_as later))) }
{
    if earlier.book == later.book && earlier.at < later.at as usize {
        return Ok(());
    }
    let link = Before {
        at: later.at,
        book: earlier.book,
        earlier: earlier.at,
    };
    add_link(rows, later.book as usize, link)
}

/// The same, if there is an earlier one.
pub(crate) fn link_one(
    rows: &mut Vec<Row<Before>>,
    earlier: Option<Spot>,
    later: Place,
) -> Result<(), AllocError>
    ensures { OnOk result (rows.new.items ≡ with_links rows.old.items (links_to (spots_as earlier) (place_as later))) }
{
    match earlier {
        Some(spot) => link_spot(rows, spot, later),
        None => Ok(()),
    }
}

/// The events that an actor is behind came before this one.
pub(crate) fn link_behind(
    rows: &mut Vec<Row<Before>>,
    behind: Behind,
    later: Place,
) -> Result<(), AllocError>
    ensures { OnOk result (rows.new.items ≡ with_links rows.old.items (links_to (behind_as behind) (place_as later))) }
{
    link_one(rows, behind.event, later)?;
    link_one(rows, behind.sender, later)
}

/// They came before what a book of so many events had next at this point, too, if it had anything.
pub(crate) fn link_next(
    rows: &mut Vec<Row<Before>>,
    behind: Behind,
    book: u32,
    many: usize,
    point: Option<u32>,
) -> Result<(), AllocError>
    ensures { OnOk result (rows.new.items ≡ with_links rows.old.items (links_between (behind_as behind) (next_of book many point))) }
{
    match point {
        Some(at) => {
            if (at as usize) < many {
                return link_behind(rows, behind, Place { book, at });
            }
            Ok(())
        }
        None => Ok(()),
    }
}

/// A row in order of the later events.
fn sort_row(row: &mut Row<Before>)
    ensures { IsSorted row.old row.new }
{
    row.items.sort_unstable_by_key(|link| link.at);
}

/// Each row in order.
pub(crate) fn sort_rows(rows: &mut Vec<Row<Before>>)
    ensures { AreSorted rows.old.items rows.new.items }
{
    for i in 0..rows.len() {
        let row = &mut rows[i];
        sort_row(row);
    }
}
