//! What differs in a piece that is off: a thread, an action of an agent that is over, or an agent's end.

ghost use Rattle.std.specs.Prelude.{◌≡◌, ◌≤◌, ◌<◌, ◌++◌, [], length, suc, take, drop, true, Some, IfOk};
ghost use Rattle.txs_value_data.specs.Places.{nth};
ghost use Rattle.txs_value_cell.specs.Agents.{agents_from};
ghost use Rattle.txs_world.specs.Store.{next_action};
ghost use Rattle.txs_world_book.specs.Served.{cells_of};
ghost use Rattle.txs_tree_eval_node.specs.Events.{seen_events};
ghost use Rattle.txs_tree_meaning.specs.Known.{known};
ghost use Rattle.txs_tree_meaning.specs.View.{functions_of, program_of};
ghost use Rattle.txs_theorem_runs.specs.Told.{seen_of};
ghost use Rattle.txs_theorem_audit.specs.Audited.{books_of, ran_as};
ghost use Rattle.txs_theorem_audit.specs.Pieces.{acts_print};
ghost use Rattle.txs_theorem_audit.specs.Verdict.{is_sent_call, least_of, printed_by};
ghost use Rattle.txs_theorem_audit.specs.Evaluated.{means_on};
ghost use Rattle.txs_audit_evidence.specs.Acted.{HasAct};
ghost use Rattle.txs_audit_order.specs.Named.{plain_trace};
ghost use Rattle.txs_audit_event.specs.Meant.{MayDo, doer_means, held_by, thread_means};
ghost use Rattle.txs_audit_difference.specs.Pieces.{act_what_in, acted_what, at_event, at_or_behind, end_of_agent, end_what_in, in_action, needed_by, needed_of, over_what, still_behind, still_what, thread_end, thread_what, waiting_what};
ghost use Rattle.txs_audit_event.specs.Transactions.{or_what};
ghost use Rattle.txs_audit_event.specs.Lines.{full_what, part_what};
ghost use Rattle.txs_audit_event.specs.declared.what.What.{What as AWhat};

use crate::told::Difference;
use std::alloc::{AllocError, Global};
use txs_audit_book::ends::{begins, is_full_stop, is_stopped};
use txs_audit_event::{
    Doer, Question, What, came_within, event_what, full_what, least_of, mean_within, part_what,
    printed_of, printed_what, stop_what,
};
use txs_audit_evidence::Books;
use txs_audit_evidence::acts::{
    Act, act_of, action_of, acts_print, cell_of, entry_of, is_sent, part_of, prints_within,
    state_of,
};
use txs_tree_eval::Seen;
use txs_value_cell::Action;
use txs_value_data::{CellId, Listed, Span, Value};
use txs_world_protocol::{ActorReport, Outcome, Place};

/// Where a piece is off: the actor, and the index in its trace.
#[derive(Clone, Copy)]
pub(crate) struct Spot {
    pub(crate) actor: u16,
    pub(crate) event: usize,
}

/// What differs there, in no action.
pub(crate) fn at_event(what: What, spot: Spot) -> Difference
    ensures { result ≡ at_event what spot.actor spot.event }
{
    Difference {
        actor: spot.actor,
        event: spot.event,
        action: None,
        what,
    }
}

/// What differs there, in an action with this span.
fn in_action(span: Span, what: What, spot: Spot) -> Difference
    ensures { result ≡ in_action span what spot.actor spot.event }
{
    Difference {
        actor: spot.actor,
        event: spot.event,
        action: Some(span),
        what,
    }
}

/// Nothing finer is known.
fn unknown() -> What
    ensures { result ≡ What.Event None }
{
    What::Event { book: None }
}

/// What differs at the event with this index of some events, which a part of a trace names; none where there is no such event.
fn part_at<'b>(
    alloc: Global,
    books: &'b Books<'_>,
    turns: u32,
    doer: Doer<'b>,
    since: &[Place],
    seen: &'b [Seen<'b>],
    at: usize,
) -> Result<Option<What>, AllocError>
    requires { MayDo (program_of books.now.program) doer }
    ensures { IfOk result (λ o. (behind : AWhat) → or_what o behind ≡ at_or_behind (program_of books.now.program) books.now.report turns (doer_means (program_of books.now.program) turns doer.entry) (held_by doer.entry) (seen_events seen.now) at (nth (seen_events seen.now) at) (nth (plain_trace since.now) at) behind) }
{
    let Some(event) = seen.get(at) else {
        return Ok(None);
    };
    let Some(place) = since.get(at) else {
        return Ok(Some(unknown()));
    };
    let (front, _) = seen.split_at(at);
    let question = Question {
        books,
        turns,
        doer,
        front,
        event: *event,
    };
    let what = event_what(alloc, question, *place)?;
    Ok(Some(what))
}

// ---- threads

/// What differs of the end of the thread with this number and entry, where its events are these.
fn thread_end<'b>(
    alloc: Global,
    books: &'b Books<'_>,
    turns: u32,
    thread: u16,
    ran: &ActorReport,
    seen: &'b [Seen<'b>],
) -> Result<What, AllocError>
    requires { thread < length books.now.program.threads }
    ensures { IfOk result (λ w. w ≡ thread_end books.now.report (thread_means (program_of books.now.program) turns (nth (program_of books.now.program).threads thread)) (seen_events seen.now) (ran_as ran.now)) }
{
    let doer = Doer::Thread(thread);
    let least = least_of(alloc, books, doer, seen, turns)?;
    let meant = mean_within(alloc, books, doer, seen, turns)?;
    let ended = meant.ended;
    let needed = meant.asks;
    let whole = printed_of(alloc, meant);
    stop_what(
        alloc,
        books,
        ended,
        needed,
        whole.as_slice(),
        least.as_slice(),
        ran,
    )
}

/// What differs in the thread with this number and entry at the event with this index of its trace, or behind its events.
fn thread_at(
    alloc: Global,
    books: &Books<'_>,
    turns: u32,
    thread: u16,
    ran: &ActorReport,
    at: usize,
) -> Result<What, AllocError>
    requires { thread < length books.now.program.threads }
    ensures { IfOk result (λ w. w ≡ thread_what (program_of books.now.program) books.now.report turns (thread_means (program_of books.now.program) turns (nth (program_of books.now.program).threads thread)) at (Some (ran_as ran.now))) }
{
    let trace = ran.trace.as_slice();
    let seen = books.see_all(alloc, trace)?;
    let events = seen.as_slice();
    match part_at(alloc, books, turns, Doer::Thread(thread), trace, events, at)? {
        Some(what) => Ok(what),
        None => thread_end(alloc, books, turns, thread, ran, events),
    }
}

/// What differs in the thread with this number.
pub(crate) fn thread_what(
    alloc: Global,
    books: &Books<'_>,
    turns: u32,
    thread: u16,
    at: usize,
) -> Result<What, AllocError>
    ensures { IfOk result (λ w. w ≡ thread_what (program_of books.now.program) books.now.report turns (thread_means (program_of books.now.program) turns (nth (program_of books.now.program).threads thread)) at (nth books.now.report.threads thread)) }
{
    // A step of the proof, which does nothing when it runs.
    books.are_legal();
    match books.report().threads.get(usize::from(thread)) {
        Some(ran) => thread_at(alloc, books, turns, thread, ran, at),
        None => Ok(unknown()),
    }
}

// ---- actions that are over

/// What differs in this action on this state, at the event with this index of its part of the trace, or at its act.
fn acted_what(
    alloc: Global,
    books: &Books<'_>,
    turns: u32,
    since: &[Place],
    at: usize,
    action: &Action,
    state: &Value,
    act: Act<'_>,
) -> Result<What, AllocError>
    requires { is_sent_call (known (functions_of books.now.program.functions)) action.now.callee (suc (length action.now.args)) ≡ true }
    ensures { IfOk result (λ w. w ≡ acted_what (program_of books.now.program) books.now.report turns (take act.entry.at books.now.report.book) action.now state.now (plain_trace since.now) at act.entry.new.now act.entry.sends.now) }
{
    let seen = books.see_all(alloc, since)?;
    let events = seen.as_slice();
    let doer = Doer::Action(action, state);
    match part_at(alloc, books, turns, doer, since, events, at)? {
        Some(what) => Ok(what),
        None => came_within(alloc, books, turns, action, state, act, events),
    }
}

/// What differs in the action that is over with this act.
fn over_what(
    alloc: Global,
    books: &Books<'_>,
    turns: u32,
    spot: Spot,
    since: &[Place],
    at: usize,
    act: Act<'_>,
) -> Result<Difference, AllocError>
    requires { HasAct books.now act }
    ensures { IfOk result (λ d. d ≡ over_what (program_of books.now.program) books.now.report turns spot.actor spot.event at (take act.entry.at books.now.report.book) act.entry.agent (plain_trace since.now) act.entry.new.now act.entry.sends.now (next_action (cells_of books.now.program.cells) (take act.entry.at books.now.report.book) act.entry.agent)) }
{
    let Some(action) = action_of(books, act) else {
        return Ok(at_event(unknown(), spot));
    };
    let Some(state) = state_of(books, act) else {
        return Ok(at_event(unknown(), spot));
    };
    if !is_sent(books, action) {
        return Ok(in_action(action.span, unknown(), spot));
    }
    let what = acted_what(alloc, books, turns, since, at, action, state, act)?;
    Ok(in_action(action.span, what, spot))
}

/// The lesser of two indexes.
fn least(a: usize, b: usize) -> usize
    ensures first { a ≤ b → result ≡ a }
    ensures second { b ≤ a → result ≡ b }
{
    if a <= b {
        return a;
    }
    b
}

/// What differs in the action that is over with the entry at index `at` of the trace of this entry, whose events are those from index `from` on.
fn act_at(
    alloc: Global,
    books: &Books<'_>,
    turns: u32,
    spot: Spot,
    from: usize,
    at: usize,
    ran: &ActorReport,
) -> Result<Difference, AllocError>
    ensures { IfOk result (λ d. d ≡ act_what_in (program_of books.now.program) books.now.report turns spot.actor spot.event from at (Some (ran_as ran.now))) }
{
    let trace = ran.trace.as_slice();
    let Some(place) = trace.get(at) else {
        return Ok(at_event(unknown(), spot));
    };
    let Some(act) = act_of(books, *place) else {
        return Ok(at_event(unknown(), spot));
    };
    let since = part_of(trace, least(from, at), at);
    let first = at.saturating_sub(since.len());
    let index = spot.event.saturating_sub(first);
    over_what(alloc, books, turns, spot, since, index, act)
}

/// What differs in the action that is over with the entry at index `at` of the trace of the agent with this number among the agents, whose events are those
/// from index `from` on.
pub(crate) fn act_what(
    alloc: Global,
    books: &Books<'_>,
    turns: u32,
    spot: Spot,
    agent: u16,
    from: usize,
    at: usize,
) -> Result<Difference, AllocError>
    ensures { IfOk result (λ d. d ≡ act_what_in (program_of books.now.program) books.now.report turns spot.actor spot.event from at (nth books.now.report.agents agent)) }
{
    match entry_of(books, agent) {
        Some(ran) => act_at(alloc, books, turns, spot, from, at, ran),
        None => Ok(at_event(unknown(), spot)),
    }
}

// ---- ends

/// These bytes, and those behind them.
fn joined(alloc: Global, front: &[u8], rest: &[u8]) -> Result<Vec<u8>, AllocError>
    ensures { IfOk result (λ all. all.items ≡ front.now ++ rest.now) }
{
    let mut all = Vec::from_slice(alloc, front)?;
    all.extend_from_slice(rest)?;
    Ok(all)
}

/// What this action prints on this state and all of these events but the last; nothing where there is none.
fn least_prints<'b>(
    alloc: Global,
    books: &'b Books<'_>,
    turns: u32,
    action: &Action,
    state: &Value,
    seen: &'b [Seen<'b>],
) -> Result<Listed<u8>, AllocError>
    requires { is_sent_call (known (functions_of books.now.program.functions)) action.now.callee (suc (length action.now.args)) ≡ true }
    ensures { IfOk result (λ o. o ≡ least_of (means_on (program_of books.now.program) turns action.now state.now) (seen_events seen.now)) }
{
    if seen.is_empty() {
        return Ok(Listed::from_vec(Vec::new(alloc)));
    }
    let (before, _) = seen.split_at(seen.len() - 1);
    prints_within(alloc, books, turns, action, state, before)
}

/// How an agent's actor ended: whether it was stopped for a full book, what its actions print that are over, and all that it printed.
#[derive(Clone, Copy)]
struct End<'a> {
    full: bool,
    outs: &'a [u8],
    out: &'a [u8],
}

/// What differs of what this action printed on this state and these events.
fn still_printed<'b>(
    alloc: Global,
    books: &'b Books<'_>,
    turns: u32,
    action: &Action,
    state: &Value,
    seen: &'b [Seen<'b>],
    end: End<'_>,
) -> Result<What, AllocError>
    requires { is_sent_call (known (functions_of books.now.program.functions)) action.now.callee (suc (length action.now.args)) ≡ true }
    ensures { IfOk result (λ w. w ≡ part_what (end.entry.outs.now ++ printed_by (means_on (program_of books.now.program) turns action.now state.now (seen_events seen.now))) (end.entry.outs.now ++ least_of (means_on (program_of books.now.program) turns action.now state.now) (seen_events seen.now)) end.entry.out.now) }
{
    let printed = prints_within(alloc, books, turns, action, state, seen)?;
    let fewest = least_prints(alloc, books, turns, action, state, seen)?;
    let whole = joined(alloc, end.outs, printed.as_slice())?;
    let least = joined(alloc, end.outs, fewest.as_slice())?;
    part_what(alloc, whole.as_slice(), least.as_slice(), end.out)
}

/// The book of the event that something needs next that ends so, or waits for an event of this book: an action that is over needs its act.
fn needed_by(ended: Option<Outcome>, asks: Option<usize>) -> Option<usize>
    ensures { result ≡ needed_by ended asks }
{
    match ended {
        Some(_) => Some(0),
        None => asks,
    }
}

/// The book of the event that this action needs next on this state, behind these events.
fn needed<'b>(
    alloc: Global,
    books: &'b Books<'_>,
    turns: u32,
    action: &'b Action,
    state: &'b Value,
    seen: &'b [Seen<'b>],
) -> Result<Option<usize>, AllocError>
    requires { is_sent_call (known (functions_of books.now.program.functions)) action.now.callee (suc (length action.now.args)) ≡ true }
    ensures { IfOk result (λ o. o ≡ needed_of (doer_means (program_of books.now.program) turns (Doer.Action action.entry state.entry) (seen_events seen.now))) }
{
    let meant = mean_within(alloc, books, Doer::Action(action, state), seen, turns)?;
    Ok(needed_by(meant.ended, meant.asks))
}

/// What differs of a stop for a full book in this action on this state and these events.
fn still_full<'b>(
    alloc: Global,
    books: &'b Books<'_>,
    turns: u32,
    action: &'b Action,
    state: &'b Value,
    seen: &'b [Seen<'b>],
    end: End<'_>,
) -> Result<What, AllocError>
    requires { is_sent_call (known (functions_of books.now.program.functions)) action.now.callee (suc (length action.now.args)) ≡ true }
    ensures { IfOk result (λ w. w ≡ full_what (books_of books.now.report) (needed_of (doer_means (program_of books.now.program) turns (Doer.Action action.entry state.entry) (seen_events seen.now))) (end.entry.outs.now ++ printed_by (means_on (program_of books.now.program) turns action.now state.now (seen_events seen.now))) end.entry.out.now) }
{
    let printed = prints_within(alloc, books, turns, action, state, seen)?;
    let whole = joined(alloc, end.outs, printed.as_slice())?;
    let needed = needed(alloc, books, turns, action, state, seen)?;
    full_what(alloc, books, needed, whole.as_slice(), end.out)
}

/// What differs behind the events of this action on this state, which isn't over.
fn still_behind<'b>(
    alloc: Global,
    books: &'b Books<'_>,
    turns: u32,
    since: &[Place],
    action: &'b Action,
    state: &'b Value,
    seen: &'b [Seen<'b>],
    end: End<'_>,
) -> Result<What, AllocError>
    requires sent { is_sent_call (known (functions_of books.now.program.functions)) action.now.callee (suc (length action.now.args)) ≡ true }
    requires events { seen_events seen.now ≡ seen_of books.now.program.cells (books_of books.now.report) (plain_trace since.now) }
    ensures { IfOk result (λ w. w ≡ still_behind (program_of books.now.program) books.now.report turns end.entry.full action.now state.now (plain_trace since.now) end.entry.outs.now end.entry.out.now) }
{
    if end.full {
        return still_full(alloc, books, turns, action, state, seen, end);
    }
    still_printed(alloc, books, turns, action, state, seen, end)
}

/// What differs in this action on this state, which isn't over, at the event with this index of its part of the trace, or behind its events.
fn waiting_what(
    alloc: Global,
    books: &Books<'_>,
    turns: u32,
    since: &[Place],
    at: usize,
    action: &Action,
    state: &Value,
    end: End<'_>,
) -> Result<What, AllocError>
    requires { is_sent_call (known (functions_of books.now.program.functions)) action.now.callee (suc (length action.now.args)) ≡ true }
    ensures { IfOk result (λ w. w ≡ waiting_what (program_of books.now.program) books.now.report turns end.entry.full action.now state.now (plain_trace since.now) at end.entry.outs.now end.entry.out.now) }
{
    let seen = books.see_all(alloc, since)?;
    let events = seen.as_slice();
    let doer = Doer::Action(action, state);
    match part_at(alloc, books, turns, doer, since, events, at)? {
        Some(what) => Ok(what),
        None => still_behind(alloc, books, turns, since, action, state, events, end),
    }
}

/// What differs in the first action that waits for an agent behind the whole book, if one does.
fn still_what(
    alloc: Global,
    books: &Books<'_>,
    turns: u32,
    spot: Spot,
    since: &[Place],
    at: usize,
    agent: CellId,
    end: End<'_>,
) -> Result<Difference, AllocError>
    requires { agent.number < length books.now.program.cells }
    ensures { IfOk result (λ d. d ≡ still_what (program_of books.now.program) books.now.report turns end.entry.full spot.actor spot.event at agent (plain_trace since.now) end.entry.outs.now end.entry.out.now (next_action (cells_of books.now.program.cells) books.now.report.book agent)) }
{
    // A step of the proof, which does nothing when it runs.
    books.are_legal();
    let events = books.report().book.len() as u32;
    let Some(action) = books.next_action(agent.number) else {
        return Ok(at_event(What::Idle, spot));
    };
    let Some(state) = books.value_at(agent.number, events) else {
        return Ok(at_event(unknown(), spot));
    };
    if !is_sent(books, action) {
        return Ok(in_action(action.span, unknown(), spot));
    }
    let what = waiting_what(alloc, books, turns, since, at, action, state, end)?;
    Ok(in_action(action.span, what, spot))
}

/// What differs at the end of this agent with this entry, whose actor did from this index of its trace on what comes behind its last act.
fn end_of(
    alloc: Global,
    books: &Books<'_>,
    turns: u32,
    spot: Spot,
    agent: CellId,
    from: usize,
    ran: &ActorReport,
) -> Result<Difference, AllocError>
    requires { agent.number < length books.now.program.cells }
    ensures { IfOk result (λ d. d ≡ end_of_agent (program_of books.now.program) books.now.report turns spot.actor spot.event agent (drop from (plain_trace ran.now.trace.items)) (acts_print (program_of books.now.program) books.now.report turns [] (plain_trace ran.now.trace.items)) (ran_as ran.now)) }
{
    let trace = ran.trace.as_slice();
    if !is_stopped(ran.outcome) {
        let what = What::Ended {
            expected: None,
            found: ran.outcome,
        };
        return Ok(at_event(what, spot));
    }
    let outs = acts_print(alloc, books, turns, trace)?;
    let end = End {
        full: is_full_stop(ran.outcome),
        outs: outs.as_slice(),
        out: ran.printed.as_slice(),
    };
    if !begins(end.outs, end.out) {
        let what = printed_what(alloc, end.outs, end.out)?;
        return Ok(at_event(what, spot));
    }
    let (_, since) = trace.split_at(least(from, trace.len()));
    let first = trace.len().saturating_sub(since.len());
    let index = spot.event.saturating_sub(first);
    still_what(alloc, books, turns, spot, since, index, agent, end)
}

/// What differs at the end of the agent with this number among the agents, whose actor did from this index of its trace on what comes behind its
/// last act.
pub(crate) fn agent_what(
    alloc: Global,
    books: &Books<'_>,
    turns: u32,
    spot: Spot,
    agent: u16,
    from: usize,
) -> Result<Difference, AllocError>
    ensures { IfOk result (λ d. d ≡ end_what_in (program_of books.now.program) books.now.report turns spot.actor spot.event from (nth (agents_from 0 books.now.program.cells) agent) (nth books.now.report.agents agent)) }
{
    let Some(ran) = entry_of(books, agent) else {
        return Ok(at_event(unknown(), spot));
    };
    match cell_of(alloc, books, agent)? {
        Some(cell) => end_of(alloc, books, turns, spot, cell, from, ran),
        None => Ok(at_event(unknown(), spot)),
    }
}
