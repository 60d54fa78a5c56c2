//! The pieces of a report, one after the other, up to the first that isn't fine.

ghost use Rattle.std.specs.Prelude.{◌≡◌, ◌<◌, ◌-◌, ◌^◌, map, IfOk};
ghost use Rattle.txs_value_data.specs.Places.{nth};
ghost use Rattle.txs_tree_meaning.specs.View.{program_of};
ghost use Rattle.txs_theorem_serial.specs.Whole.{is_act};
ghost use Rattle.txs_theorem_audit.specs.Audited.{books_of, place_of, ran_as};
ghost use Rattle.txs_theorem_audit.specs.Pieces.{OfAct, OfEnd, OfThread, act_pieces, agent_pieces, pieces_of, thread_pieces};
ghost use Rattle.txs_audit_difference.specs.Difference.{pieces_told};
ghost use Rattle.txs_audit_difference.specs.Walked.{IsNext, one_told};

use crate::pieces::{Spot, act_what, agent_what, at_event, thread_what};
use crate::told::Told;
use std::alloc::{AllocError, Global};
use txs_audit_book::Finding;
use txs_audit_evidence::Books;
use txs_audit_evidence::acts::{act_found, agent_end};
use txs_audit_evidence::threads::thread_found;
use txs_world_protocol::{ActorReport, EventKind, Place};

// ---- one piece

/// What the test of the thread with this number tells.
fn thread_told(
    alloc: Global,
    books: &Books<'_>,
    turns: u32,
    thread: u16,
) -> Result<Told, AllocError>
    ensures { IfOk result (λ t. t ≡ one_told (program_of books.now.program) books.now.report turns (OfThread thread)) }
{
    let found = thread_found(alloc, books, thread, turns)?;
    match found.finding {
        Finding::Fine => Ok(Told::Clear),
        Finding::Short(_, _) => Ok(Told::Open),
        Finding::Off(actor, event) => {
            let what = thread_what(alloc, books, turns, thread, event)?;
            Ok(Told::So(at_event(what, Spot { actor, event })))
        }
    }
}

/// What the test of the action tells that is over with the entry at index `at` of an agent's trace, whose events are those from index `from` on.
fn act_told(
    alloc: Global,
    books: &Books<'_>,
    turns: u32,
    agent: u16,
    from: usize,
    at: usize,
) -> Result<Told, AllocError>
    ensures { IfOk result (λ t. t ≡ one_told (program_of books.now.program) books.now.report turns (OfAct agent from at)) }
{
    let found = act_found(alloc, books, agent, from, at, turns)?;
    match found.finding {
        Finding::Fine => Ok(Told::Clear),
        Finding::Short(_, _) => Ok(Told::Open),
        Finding::Off(actor, event) => {
            let spot = Spot { actor, event };
            let differs = act_what(alloc, books, turns, spot, agent, from, at)?;
            Ok(Told::So(differs))
        }
    }
}

/// What the test of an agent's end tells, whose actor did from this index of its trace on what comes behind its last act.
fn end_told(
    alloc: Global,
    books: &Books<'_>,
    turns: u32,
    agent: u16,
    from: usize,
) -> Result<Told, AllocError>
    ensures { IfOk result (λ t. t ≡ one_told (program_of books.now.program) books.now.report turns (OfEnd agent from)) }
{
    let found = agent_end(alloc, books, agent, from, turns)?;
    match found.finding {
        Finding::Fine => Ok(Told::Clear),
        Finding::Short(_, _) => Ok(Told::Open),
        Finding::Off(actor, event) => {
            let spot = Spot { actor, event };
            let differs = agent_what(alloc, books, turns, spot, agent, from)?;
            Ok(Told::So(differs))
        }
    }
}

// ---- one after the other

/// What the tests of all threads tell.
fn threads_told(alloc: Global, books: &Books<'_>, turns: u32) -> Result<Told, AllocError>
    ensures { IfOk result (λ t. t ≡ pieces_told (program_of books.now.program) books.now.report turns (thread_pieces 0 books.now.report.threads)) }
{
    // Steps of the proof, which do nothing when they run.
    books.are_legal();
    books.program().is_sound();
    for i in 0..books.report().threads.len() {
        match thread_told(alloc, books, turns, i as u16)? {
            Told::Clear => {}
            Told::Open => return Ok(Told::Open),
            Told::So(differs) => return Ok(Told::So(differs)),
        }
    }
    Ok(Told::Clear)
}

/// Whether an entry names an act.
fn is_act(books: &Books<'_>, place: Place) -> bool
    ensures { result ≡ is_act (nth (books_of books.now.report place.book) place.at) }
{
    match books.event_at(place) {
        Some(event) => match event.kind {
            EventKind::Act { .. } => true,
            _ => false,
        },
        None => false,
    }
}

/// What comes of an entry of an agent's trace: the index at which what comes behind begins, or what a test tells that isn't fine.
#[derive(Drop)]
enum Step {
    Begins(usize),
    Ends(Told),
}

/// The entry at this index of an agent's trace is gone through, where the action there began at index `from`.
fn pass(
    alloc: Global,
    books: &Books<'_>,
    turns: u32,
    agent: u16,
    from: usize,
    at: usize,
    place: Place,
) -> Result<Step, AllocError>
    requires { at < 2 ^ 64 - 1 }
    ensures { IfOk result (λ s. IsNext (program_of books.now.program) books.now.report turns agent from at (place_of place) s) }
{
    if !is_act(books, place) {
        return Ok(Step::Begins(from));
    }
    match act_told(alloc, books, turns, agent, from, at)? {
        Told::Clear => Ok(Step::Begins(at + 1)),
        Told::Open => Ok(Step::Ends(Told::Open)),
        Told::So(differs) => Ok(Step::Ends(Told::So(differs))),
    }
}

/// What the tests of the pieces of the agent with this number among the agents tell, which has this entry.
fn agent_told(
    alloc: Global,
    books: &Books<'_>,
    turns: u32,
    agent: u16,
    ran: &ActorReport,
) -> Result<Told, AllocError>
    ensures { IfOk result (λ t. t ≡ pieces_told (program_of books.now.program) books.now.report turns (act_pieces (books_of books.now.report) agent 0 0 (map place_of ran.now.trace.items))) }
{
    let trace = ran.trace.as_slice();
    let mut from = 0;
    for (at, place) in trace.iter().enumerate() {
        match pass(alloc, books, turns, agent, from, at, *place)? {
            Step::Begins(next) => from = next,
            Step::Ends(told) => return Ok(told),
        }
    }
    end_told(alloc, books, turns, agent, from)
}

/// What the tests of the pieces of all agents tell.
fn agents_told(alloc: Global, books: &Books<'_>, turns: u32) -> Result<Told, AllocError>
    ensures { IfOk result (λ t. t ≡ pieces_told (program_of books.now.program) books.now.report turns (agent_pieces (books_of books.now.report) 0 books.now.report.agents)) }
{
    // Steps of the proof, which do nothing when they run.
    books.are_legal();
    books.program().is_sound();
    let agents = books.report().agents.as_slice();
    for (i, ran) in agents.iter().enumerate() {
        match agent_told(alloc, books, turns, i as u16, ran)? {
            Told::Clear => {}
            Told::Open => return Ok(Told::Open),
            Told::So(differs) => return Ok(Told::So(differs)),
        }
    }
    Ok(Told::Clear)
}

/// What the tests of all pieces tell, in their order.
pub(crate) fn pieces_told(alloc: Global, books: &Books<'_>, turns: u32) -> Result<Told, AllocError>
    ensures { IfOk result (λ t. t ≡ pieces_told (program_of books.now.program) books.now.report turns (pieces_of books.now.report)) }
{
    match threads_told(alloc, books, turns)? {
        Told::Clear => agents_told(alloc, books, turns),
        Told::Open => Ok(Told::Open),
        Told::So(differs) => Ok(Told::So(differs)),
    }
}
