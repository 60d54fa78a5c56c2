//! The pieces of an audit: each thread, each action of an agent that is over, and the end of each agent.

ghost use Rattle.std.specs.Prelude.{◌≡◌, ◌≤◌, ◌<◌, ◌+◌, ◌&&◌, ◌++◌, length, map, IfOk, OnOk, Some};
ghost use Rattle.txs_theorem_audit.specs.Audited.{books_of, place_of, ran_as};
ghost use Rattle.txs_theorem_serial.specs.Whole.{is_act};
ghost use Rattle.txs_value_data.specs.Places.{nth};
ghost use Rattle.txs_theorem_audit.specs.Pieces.{act_pieces, agent_pieces, pieces_of, thread_pieces};
ghost use Rattle.txs_audit.specs.Pieced.{IsFound, acts_left, piece_as, pieces_as, sought_of, sought_of_one};

use std::alloc::{AllocError, Global};
use txs_audit_book::Finding;
use txs_audit_evidence::Books;
use txs_audit_evidence::acts::{act_found, agent_end};
use txs_audit_evidence::threads::thread_found;
use txs_audit_evidence::transactions::Found;
use txs_world_protocol::{ActorReport, EventKind, Place};

/// A piece.
#[derive(Clone, Copy)]
pub enum Piece {
    /// The thread with this number.
    Thread(u16),
    /// Of the agent with this number among the agents an action that is over: the index of the first of its events, and that of its act.
    Act(u16, usize, usize),
    /// The end of the agent with this number among the agents, and the index behind its last act.
    End(u16, usize),
}

/// The threads with these entries join the pieces.
fn add_threads(pieces: &mut Vec<Piece>, threads: &[ActorReport]) -> Result<(), AllocError>
    requires { length threads.now ≤ 65535 }
    ensures { OnOk result (pieces_as pieces.new.items ≡ pieces_as pieces.old.items ++ thread_pieces 0 (map ran_as threads.now)) }
{
    for i in 0..threads.len() {
        pieces.push(Piece::Thread(i as u16))?;
    }
    Ok(())
}

/// Whether an entry names an act.
fn is_act(books: &Books<'_>, place: Place) -> bool
    ensures { result ≡ is_act (nth (books_of books.now.report place.book) place.at) }
{
    match books.event_at(place) {
        Some(event) => match event.kind {
            EventKind::Act { .. } => true,
            _ => false,
        },
        None => false,
    }
}

/// The action that is over with this entry, which is at this index of a trace, joins the pieces, where the entry names an act. The answer is
/// the index at which what comes behind begins.
fn add_act(
    pieces: &mut Vec<Piece>,
    books: &Books<'_>,
    agent: u16,
    from: usize,
    at: usize,
    place: Place,
    trace: &[Place],
) -> Result<usize, AllocError>
    requires { nth (map place_of trace.now) at ≡ Some (place_of place) }
    ensures { IfOk result (λ next. acts_left (books_of books.now.report) (pieces_as pieces.new.items) agent next (at + 1) (map place_of trace.now) ≡ acts_left (books_of books.now.report) (pieces_as pieces.old.items) agent from at (map place_of trace.now)) }
{
    if !is_act(books, place) {
        return Ok(from);
    }
    pieces.push(Piece::Act(agent, from, at))?;
    Ok(at + 1)
}

/// The pieces of an agent with this entry join the pieces: each action that is over, and the end.
fn add_agent(
    pieces: &mut Vec<Piece>,
    books: &Books<'_>,
    agent: u16,
    ran: &ActorReport,
) -> Result<(), AllocError>
    ensures { OnOk result (pieces_as pieces.new.items ≡ pieces_as pieces.old.items ++ act_pieces (books_of books.now.report) agent 0 0 (map place_of ran.now.trace.items)) }
{
    let trace = ran.trace.as_slice();
    let mut from = 0;
    for (at, place) in trace.iter().enumerate() {
        from = add_act(pieces, books, agent, from, at, *place, trace)?;
    }
    pieces.push(Piece::End(agent, from))?;
    Ok(())
}

/// The pieces of the agents with these entries join the pieces.
fn add_agents(
    pieces: &mut Vec<Piece>,
    books: &Books<'_>,
    agents: &[ActorReport],
) -> Result<(), AllocError>
    requires { length agents.now ≤ 65535 }
    ensures { OnOk result (pieces_as pieces.new.items ≡ pieces_as pieces.old.items ++ agent_pieces (books_of books.now.report) 0 (map ran_as agents.now)) }
{
    for i in 0..agents.len() {
        add_agent(pieces, books, i as u16, &agents[i])?;
    }
    Ok(())
}

/// All pieces of a report, in the order in which they are tested.
pub fn pieces_of(alloc: Global, books: &Books<'_>) -> Result<Vec<Piece>, AllocError>
    ensures { IfOk result (λ v. pieces_as v.items ≡ pieces_of books.now.report) }
{
    books.are_legal();
    books.program().is_sound();
    let report = books.report();
    let mut pieces = Vec::new(alloc);
    add_threads(&mut pieces, report.threads.as_slice())?;
    add_agents(&mut pieces, books, report.agents.as_slice())?;
    Ok(pieces)
}

/// What is found of a piece, where each loop makes at most `turns` turns.
pub fn piece_found(
    alloc: Global,
    books: &Books<'_>,
    turns: u32,
    piece: &Piece,
) -> Result<Found, AllocError>
    ensures { IfOk result (IsFound (sought_of_one books.now turns (piece_as piece.now))) }
{
    match *piece {
        Piece::Thread(thread) => thread_found(alloc, books, thread, turns),
        Piece::Act(agent, from, at) => act_found(alloc, books, agent, from, at, turns),
        Piece::End(agent, from) => agent_end(alloc, books, agent, from, turns),
    }
}

/// Whether both are so. A call, so that no branch joins in a loop.
fn are_both(first: bool, second: bool) -> bool
    ensures { result ≡ (first && second) }
{
    first && second
}

/// What is found of these pieces, one after the other, up to the first of which something is found.
pub fn pieces_found(
    alloc: Global,
    books: &Books<'_>,
    turns: u32,
    pieces: &[Piece],
) -> Result<Found, AllocError>
    ensures { IfOk result (IsFound (sought_of books.now turns (pieces_as pieces.now))) }
{
    let mut serial = true;
    for piece in pieces {
        let found = piece_found(alloc, books, turns, piece)?;
        if !found.finding.is_fine() {
            return Ok(found);
        }
        serial = are_both(serial, found.serial);
    }
    Ok(Found {
        finding: Finding::Fine,
        serial,
    })
}
