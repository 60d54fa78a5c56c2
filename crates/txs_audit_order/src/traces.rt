//! What the traces of a report say of the order of its events.

ghost use Rattle.std.specs.Prelude.{◌≡◌, ◌<◌, ◌∷◌, [], length, map, nat_lt, replicate, option_copied, IfOk, OnOk};
ghost use Rattle.std.proofs.Common.{get_or};
ghost use Rattle.txs_value_data.specs.Places.{nth};
ghost use Rattle.txs_value_cell.specs.Agents.{agents_from};
ghost use Rattle.txs_world_book.specs.Book.{is_redo};
ghost use Rattle.txs_world_book.specs.History.{began_at};
ghost use Rattle.txs_theorem_serial.specs.Order.{actor_links, agent_links, is_over, point_of, thread_links};
ghost use Rattle.txs_audit_order.specs.Ordered.{books_as, links_as, place_as, traces_in};
ghost use Rattle.txs_audit_order.specs.Linked.{IsBehind, IsCell, IsFirst, agent_said, links_in, sender_in, spots_as, with_links};
ghost use Rattle.txs_audit_order.specs.Sent.{AreSenders};

use crate::links::{Before, Behind, Spot, link_behind, link_next, link_one, spot_of};
use crate::rows::{Row, empty_rows};
use crate::senders::all_senders;
use std::alloc::{AllocError, Global};
use txs_value_cell::CellDefinition;
use txs_value_data::CellKind;
use txs_world_protocol::{ActorReport, Cause, Event, EventKind, Place, Report};

/// What is known of an actor behind some events: how many actions are over, its last event, and the events that it is behind.
#[derive(Clone, Copy)]
struct Known {
    acts: usize,
    last: Option<Spot>,
    behind: Behind,
}

/// The event at a place of a report's books, if there is one.
fn event_at(report: &Report, place: Place) -> Option<&Event>
    ensures { option_copied result ≡ nth (books_as report.now place.book) place.at }
{
    if place.book == 0 {
        return report.book.get(place.at as usize);
    }
    match report.atom_books.get(place.book as usize - 1) {
        Some(book) => book.as_slice().get(place.at as usize),
        None => None,
    }
}

/// How many events a book of a report has.
pub(crate) fn length_of(report: &Report, book: usize) -> usize
    ensures { result ≡ length (books_as report.now book) }
{
    if book == 0 {
        return report.book.len();
    }
    match report.atom_books.get(book - 1) {
        Some(events) => events.as_slice().len(),
        None => 0,
    }
}

/// How many events the book had when a transaction began that had to run again.
fn began_at(cause: Cause, since: u32) -> u32
    ensures { result ≡ began_at cause since }
{
    match cause {
        Cause::Outdated | Cause::Held => since,
        Cause::Commuted { at } => at,
    }
}

/// How many events the book had when the transaction of this event began, or when the atom of a swap that faulted was opened.
fn point_of(kind: &EventKind) -> Option<u32>
    ensures { result ≡ point_of kind.now }
{
    match kind {
        EventKind::Commit { at, .. } => Some(*at),
        EventKind::Retry { since, cause, .. } => Some(began_at(*cause, *since)),
        EventKind::Fail { at, .. } => Some(*at),
        EventKind::Refused { at, .. } => Some(*at),
        EventKind::Broke { at } => Some(*at),
        _ => None,
    }
}

/// Whether an action is over with an event.
fn is_over(kind: &EventKind) -> bool
    ensures { result ≡ is_over kind.now }
{
    match kind {
        EventKind::Act { .. } => true,
        _ => false,
    }
}

/// Whether an event is the end of a commute phase that has to be made again.
fn is_redo(kind: &EventKind) -> bool
    ensures { result ≡ is_redo kind.now }
{
    match kind {
        EventKind::Retry { cause, .. } => match cause {
            Cause::Outdated | Cause::Held => false,
            Cause::Commuted { .. } => true,
        },
        _ => false,
    }
}

/// The event that sent an actor its j-th action, if one did.
fn sender_of(senders: &[usize], j: usize) -> Option<Spot>
    ensures { spots_as result ≡ sender_in senders.now j }
{
    match senders.get(j) {
        Some(index) => Some(Spot {
            book: 0,
            at: *index,
        }),
        None => None,
    }
}

/// What is known of an actor before its first event.
fn known_first(senders: &[usize]) -> Known
    ensures { IsFirst senders.now result }
{
    let behind = Behind {
        event: None,
        sender: sender_of(senders, 0),
    };
    Known {
        acts: 0,
        last: None,
        behind,
    }
}

/// What is known behind an event at this place.
fn known_after(known: Known, senders: &[usize], place: Place, kind: &EventKind) -> Known
    requires { known.acts < 18446744073709551615 }
    ensures { IsBehind senders.now known (place_as place) kind.now result }
{
    let here = Some(spot_of(place));
    if is_over(kind) {
        let acts = known.acts + 1;
        let behind = Behind {
            event: here,
            sender: sender_of(senders, acts),
        };
        return Known {
            acts,
            last: here,
            behind,
        };
    }
    if is_redo(kind) {
        return Known {
            acts: known.acts,
            last: here,
            behind: known.behind,
        };
    }
    let behind = Behind {
        event: here,
        sender: None,
    };
    Known {
        acts: known.acts,
        last: here,
        behind,
    }
}

/// What an event at this place of a book of so many events says.
fn link_event(
    rows: &mut Vec<Row<Before>>,
    known: Known,
    place: Place,
    many: usize,
    kind: &EventKind,
) -> Result<(), AllocError>
    ensures { OnOk result (rows.new.items ≡ with_links rows.old.items (links_in known (place_as place) many kind.now)) }
{
    link_one(rows, known.last, place)?;
    link_behind(rows, known.behind, place)?;
    link_next(rows, known.behind, place.book, many, point_of(kind))
}

/// What an event at this place of a report's books says.
fn link_place(
    rows: &mut Vec<Row<Before>>,
    report: &Report,
    known: Known,
    place: Place,
    kind: &EventKind,
) -> Result<(), AllocError>
    ensures { OnOk result (rows.new.items ≡ with_links rows.old.items (links_in known (place_as place) (length (books_as report.now place.book)) kind.now)) }
{
    let many = length_of(report, place.book as usize);
    link_event(rows, known, place, many, kind)
}

/// What a trace says, of which the j-th action was sent by the j-th of these events.
fn link_trace(
    rows: &mut Vec<Row<Before>>,
    report: &Report,
    senders: &[usize],
    trace: &[Place],
) -> Result<(), AllocError>
    ensures { OnOk result (rows.new.items ≡ with_links rows.old.items (actor_links (books_as report.now) (sender_in senders.now) (map place_as trace.now))) }
{
    let mut known = known_first(senders);
    for place in trace {
        match event_at(report, *place) {
            Some(event) => {
                link_place(rows, report, known, *place, &event.kind)?;
                known = known_after(known, senders, *place, &event.kind);
            }
            None => {}
        }
    }
    Ok(())
}

/// What the traces of threads say.
fn link_threads(
    rows: &mut Vec<Row<Before>>,
    report: &Report,
    rans: &[ActorReport],
) -> Result<(), AllocError>
    ensures { OnOk result (rows.new.items ≡ with_links rows.old.items (thread_links (books_as report.now) (traces_in rans.now))) }
{
    for ran in rans {
        link_trace(rows, report, &[], ran.trace.as_slice())?;
    }
    Ok(())
}

/// What the trace of an agent says, if there is an entry of it.
fn link_agent(
    rows: &mut Vec<Row<Before>>,
    report: &Report,
    senders: &[usize],
    agent: usize,
) -> Result<(), AllocError>
    ensures { OnOk result (rows.new.items ≡ with_links rows.old.items (agent_said (books_as report.now) (sender_in senders.now) (nth (traces_in report.now.agents.items) agent))) }
{
    match report.agents.get(agent) {
        Some(ran) => link_trace(rows, report, senders, ran.trace.as_slice()),
        None => Ok(()),
    }
}

/// What the trace of a cell's agent says, if the cell is one and there is an entry of it; and how many agents there are up to this cell.
fn link_cell(
    rows: &mut Vec<Row<Before>>,
    report: &Report,
    senders: &[usize],
    cell: &CellDefinition,
    agent: usize,
) -> Result<usize, AllocError>
    requires { agent < 18446744073709551615 }
    ensures { IfOk result (λ n. IsCell (books_as report.now) senders.now (traces_in report.now.agents.items) cell.now.kind agent rows.old.items rows.new.items n) }
{
    if cell.kind == CellKind::Agent {
        link_agent(rows, report, senders, agent)?;
        return Ok(agent + 1);
    }
    Ok(agent)
}

/// What the traces of agents say, which were sent their actions by these events.
fn link_agents(
    rows: &mut Vec<Row<Before>>,
    report: &Report,
    senders: &[Row<usize>],
    cells: &[CellDefinition],
) -> Result<(), AllocError>
    requires { AreSenders (length cells.now) report.now.book.items senders.now }
    ensures { OnOk result (rows.new.items ≡ with_links rows.old.items (agent_links (books_as report.now) (agents_from 0 cells.now) (traces_in report.now.agents.items))) }
{
    let mut agent = 0;
    for (i, cell) in cells.iter().enumerate() {
        agent = link_cell(rows, report, senders[i].as_slice(), cell, agent)?;
    }
    Ok(())
}

/// What all traces of a report say, by the book of the later event.
pub(crate) fn all_links(
    alloc: Global,
    cells: &[CellDefinition],
    report: &Report,
    books: usize,
) -> Result<Vec<Row<Before>>, AllocError>
    ensures { IfOk result (λ rows. rows.items ≡ with_links (replicate books []) (links_as cells.now report.now)) }
{
    let mut rows = empty_rows(alloc, books)?;
    link_threads(&mut rows, report, report.threads.as_slice())?;
    let senders = all_senders(alloc, cells.len(), report.book.as_slice())?;
    link_agents(&mut rows, report, senders.as_slice(), cells)?;
    Ok(rows)
}
