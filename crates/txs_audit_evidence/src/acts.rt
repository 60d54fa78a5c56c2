//! The actions of agents, and how agents end.

ghost use Rattle.std.specs.Prelude.{◌≡◌, ◌==◌, ◌&&◌, ◌≤◌, ◌<◌, ◌+◌, ◌^◌, ◌-◌, ◌∷◌, [], length, not, suc, true, take, drop, IfOk, Some, option_copied};
ghost use Rattle.txs_value_data.specs.Places.{nth};
ghost use Rattle.txs_value_cell.specs.Agents.{agents_from};
ghost use Rattle.txs_world.specs.Store.{next_action};
ghost use Rattle.txs_world_book.specs.Book.{newest, opening};
ghost use Rattle.txs_world_book.specs.Served.{cells_of};
ghost use Rattle.txs_tree_meaning.specs.Known.{known};
ghost use Rattle.txs_tree_meaning.specs.View.{functions_of, program_of};
ghost use Rattle.txs_tree_eval.specs.ActionTold.{TellsAction};
ghost use Rattle.txs_tree_eval_node.specs.Events.{seen_events};
ghost use Rattle.txs_theorem_runs.specs.Told.{seen_of};
ghost use Rattle.txs_theorem_audit.specs.Audited.{Fine, Off, books_of, place_of, ran_as};
ghost use Rattle.txs_theorem_audit.specs.Pieces.{OfAct, OfEnd, act_finding, act_finding_at, acts_print, end_finding, end_serial, event_serial, part_of, piece_finding, piece_serial, serial_at};
ghost use Rattle.txs_theorem_audit.specs.Verdict.{act_ends, action_covered, action_found, action_prints, agent_end, begins, is_full_stop, is_sent_call, least_of, part_printed, printed_by, rest_ends, rest_found, still_found};
ghost use Rattle.txs_theorem_audit.specs.Evaluated.{means_on, prints_by};
ghost use Rattle.txs_audit_book.specs.Judged.{as_found};
ghost use Rattle.txs_audit_evidence.specs.Acted.{HasAct, IsAct, NamesAct, PrintsOn, covered_since, end_by, judged};
ghost use Rattle.txs_audit_order.specs.Named.{plain_entry, plain_trace};

use crate::books::Books;
use crate::transactions::{Found, first_failed, transactions_found};
use std::alloc::{AllocError, Global};
use txs_audit_book::bounds::{first_bound, is_short, next_bound, wants_turns};
use txs_audit_book::ends::{begins, is_full_stop, is_stopped};
use txs_audit_book::numbers::agents_of;
use txs_audit_book::{Finding, Stretch, act_ends, action_end, full_ends, still_ends};
use txs_theorem_audit::{
    act_is_answered, action_is_answered, action_stays, calm_is_answered, covered_is_answered,
    rest_full_is_answered, rest_stays, still_is_answered,
};
use txs_tree_eval::{ActionMeaning, Needs, Seen, eval_action};
use txs_value_cell::Action;
use txs_value_data::{Callee, CellId, Fault, Listed, Value, copy_value};
use txs_world_protocol::{ActorReport, Event, EventKind, Place};

/// The most arguments of an operation.
const MOST_ITEMS: usize = 65_535;

/// An act: its agent, what the action came to, what it sent, and how many events the store's book has before it.
#[derive(Clone, Copy)]
pub struct Act<'a> {
    pub agent: CellId,
    pub number: u32,
    pub new: &'a Result<Value, Fault>,
    pub sends: &'a [Action],
    pub at: u32,
}

/// What an action is judged by at its end: the act with which it is over; or, where it isn't over, whether its agent's actor was
/// stopped for a full book, and what that printed since its last act.
#[derive(Clone, Copy)]
pub enum Ending<'a> {
    Act(Act<'a>),
    Waits(bool, &'a [u8]),
}

/// The act that this event is, if it is one. The store's book has so many events before it.
fn act_in(event: &Event, at: u32) -> Option<Act<'_>>
    ensures { IsAct event.now.kind at result }
{
    match &event.kind {
        EventKind::Act {
            agent,
            number,
            new,
            sends,
        } => Some(Act {
            agent: *agent,
            number: *number,
            new,
            sends: sends.as_slice(),
            at,
        }),
        _ => None,
    }
}

/// The act that the entry names, if it is one. In the book of an atom there is none.
pub fn act_of<'a>(books: &Books<'a>, place: Place) -> Option<Act<'a>>
    ensures { NamesAct books.now (place_of place) result }
{
    books.are_legal();
    if place.book != 0 {
        return None;
    }
    match books.event_at(place) {
        Some(event) => act_in(event, place.at),
        None => None,
    }
}

/// The lesser of two indexes.
fn least(a: usize, b: usize) -> usize
    ensures first { a ≤ b → result ≡ a }
    ensures second { b ≤ a → result ≡ b }
{
    if a <= b {
        return a;
    }
    b
}

/// The action that is over with this act.
pub fn action_of<'b>(books: &'b Books<'_>, act: Act<'_>) -> Option<&'b Action>
    requires { HasAct books.now act }
    ensures { option_copied result ≡ next_action (cells_of books.now.program.cells) (take act.entry.at books.now.report.book) act.entry.agent }
{
    books.are_legal();
    books.action(act.agent.number, act.number)
}

/// The state of its agent before this act.
pub fn state_of<'b>(books: &'b Books<'_>, act: Act<'_>) -> Option<&'b Value>
    requires { HasAct books.now act }
    ensures { option_copied result ≡ Some (newest (opening (cells_of books.now.program.cells)) (take act.entry.at books.now.report.book) act.entry.agent.number) }
{
    books.are_legal();
    books.value_at(act.agent.number, act.at)
}

/// The entries of a trace from one index up to another.
pub fn part_of(trace: &[Place], from: usize, to: usize) -> &[Place]
    requires order { from ≤ to }
    requires within { to ≤ length trace.now }
    ensures part { plain_trace result.now ≡ part_of from to (plain_trace trace.now) }
    ensures many { length result.now ≡ to - from }
{
    let (front, _) = trace.split_at(to);
    let (_, part) = front.split_at(from);
    part
}

/// An agent's state and the values of an action that it runs.
fn values_of(alloc: Global, state: &Value, args: &[Value]) -> Result<Vec<Value>, AllocError>
    ensures { IfOk result (λ vs. vs.items ≡ state.now ∷ args.now) }
{
    let mut values = Vec::new(alloc);
    values.push(copy_value(state)?)?;
    for arg in args {
        values.push(copy_value(arg)?)?;
    }
    Ok(values)
}

/// Whether a callee may be applied as an action to so many values.
fn is_sent_call(books: &Books<'_>, callee: Callee, count: usize) -> bool
    ensures { result ≡ is_sent_call (known (functions_of books.now.program.functions)) callee count }
{
    let sent = books.functions().may_be_sent(callee, count);
    match callee {
        Callee::Core(_) => sent && count <= MOST_ITEMS,
        Callee::Function(_) => sent,
    }
}

/// Whether this action may be applied to its agent's state and its arguments.
pub fn is_sent(books: &Books<'_>, action: &Action) -> bool
    ensures { result ≡ is_sent_call (known (functions_of books.now.program.functions)) action.now.callee (suc (length action.now.args)) }
{
    let count = action.args.as_slice().len() + 1;
    is_sent_call(books, action.callee, count)
}

/// What is answered of this action on this state and these events of its agent's actor.
pub fn answered<'b>(
    alloc: Global,
    books: &'b Books<'_>,
    turns: u32,
    action: &Action,
    state: &Value,
    seen: &'b [Seen<'b>],
) -> Result<ActionMeaning, AllocError>
    requires { is_sent_call (known (functions_of books.now.program.functions)) action.now.callee (suc (length action.now.args)) ≡ true }
    ensures { IfOk result (λ m. TellsAction m (program_of books.now.program) action.now.callee action.now.span (state.now ∷ action.now.args) turns (seen_events seen.now)) }
{
    let values = values_of(alloc, state, action.args.as_slice())?;
    eval_action(
        alloc,
        books.program(),
        action.callee,
        action.span,
        values.as_slice(),
        seen,
        turns,
    )
}

/// Found at an index, with no commit looked at.
fn off(actor: u16, index: usize) -> Found
    ensures { as_found result.finding ≡ Off actor index }
{
    Found {
        finding: Finding::Off(actor, index),
        serial: true,
    }
}

/// Nothing is found, and no commit is left uncovered.
fn fine() -> Found
    ensures finding { as_found result.finding ≡ Fine }
    ensures serial { result.serial ≡ true }
{
    Found {
        finding: Finding::Fine,
        serial: true,
    }
}

// ---- actions that are over

/// What is found of an act, on the part of the trace since the act before it, where its events are these and each loop makes at most so many turns.
fn ran_with<'b>(
    alloc: Global,
    books: &'b Books<'_>,
    turns: u32,
    stretch: Stretch,
    since: &[Place],
    act: Act<'_>,
    seen: &'b [Seen<'b>],
) -> Result<Found, AllocError>
    requires there { HasAct books.now act }
    requires fits { stretch.first + length since.now < 2 ^ 64 }
    requires events { seen_events seen.now ≡ seen_of books.now.program.cells (books_of books.now.report) (plain_trace since.now) }
    ensures finding { IfOk result (λ f. as_found f.finding ≡ action_found (program_of books.now.program) books.now.report turns stretch.actor stretch.first stretch.index (take act.entry.at books.now.report.book) act.entry.agent (plain_trace since.now) act.entry.new.now act.entry.sends.now (next_action (cells_of books.now.program.cells) (take act.entry.at books.now.report.book) act.entry.agent)) }
    ensures serial { IfOk result (λ f. as_found f.finding ≡ Fine → f.serial ≡ action_covered (program_of books.now.program) books.now.report turns (take act.entry.at books.now.report.book) act.entry.agent (plain_trace since.now) (next_action (cells_of books.now.program.cells) (take act.entry.at books.now.report.book) act.entry.agent)) }
{
    let Some(action) = action_of(books, act) else {
        return Ok(off(stretch.actor, stretch.index));
    };
    let Some(state) = state_of(books, act) else {
        return Ok(off(stretch.actor, stretch.index));
    };
    if !is_sent(books, action) {
        return Ok(off(stretch.actor, stretch.index));
    }
    let ending = Ending::Act(act);
    judged(
        alloc, books, turns, stretch, since, action, state, ending, seen,
    )
}

/// The same where each loop makes at most `turns` turns: with few turns first, and with more only where these don't suffice.
fn ran_within<'b>(
    alloc: Global,
    books: &'b Books<'_>,
    turns: u32,
    stretch: Stretch,
    since: &[Place],
    act: Act<'_>,
    seen: &'b [Seen<'b>],
) -> Result<Found, AllocError>
    requires there { HasAct books.now act }
    requires fits { stretch.first + length since.now < 2 ^ 64 }
    requires events { seen_events seen.now ≡ seen_of books.now.program.cells (books_of books.now.report) (plain_trace since.now) }
    ensures finding { IfOk result (λ f. as_found f.finding ≡ action_found (program_of books.now.program) books.now.report turns stretch.actor stretch.first stretch.index (take act.entry.at books.now.report.book) act.entry.agent (plain_trace since.now) act.entry.new.now act.entry.sends.now (next_action (cells_of books.now.program.cells) (take act.entry.at books.now.report.book) act.entry.agent)) }
    ensures serial { IfOk result (λ f. as_found f.finding ≡ Fine → f.serial ≡ action_covered (program_of books.now.program) books.now.report turns (take act.entry.at books.now.report.book) act.entry.agent (plain_trace since.now) (next_action (cells_of books.now.program.cells) (take act.entry.at books.now.report.book) act.entry.agent)) }
{
    // A law and a step of the proof, which do nothing when they run.
    action_stays();
    books.program().is_sound();
    let mut bound = first_bound(turns);
    loop {
        let found = ran_with(alloc, books, bound, stretch, since, act, seen)?;
        if !is_short(found.finding, bound, turns) {
            return Ok(found);
        }
        bound = next_bound(bound, turns);
    }
}

/// What is found of an act, on the part of the trace since the act before it.
fn ran_found(
    alloc: Global,
    books: &Books<'_>,
    turns: u32,
    stretch: Stretch,
    since: &[Place],
    act: Act<'_>,
) -> Result<Found, AllocError>
    requires there { HasAct books.now act }
    requires fits { stretch.first + length since.now < 2 ^ 64 }
    ensures finding { IfOk result (λ f. as_found f.finding ≡ action_found (program_of books.now.program) books.now.report turns stretch.actor stretch.first stretch.index (take act.entry.at books.now.report.book) act.entry.agent (plain_trace since.now) act.entry.new.now act.entry.sends.now (next_action (cells_of books.now.program.cells) (take act.entry.at books.now.report.book) act.entry.agent)) }
    ensures serial { IfOk result (λ f. as_found f.finding ≡ Fine → f.serial ≡ action_covered (program_of books.now.program) books.now.report turns (take act.entry.at books.now.report.book) act.entry.agent (plain_trace since.now) (next_action (cells_of books.now.program.cells) (take act.entry.at books.now.report.book) act.entry.agent)) }
{
    let seen = books.see_all(alloc, since)?;
    ran_within(alloc, books, turns, stretch, since, act, seen.as_slice())
}

/// The actor of the agent with this number among the agents: the threads come first.
pub fn actor_of(books: &Books<'_>, agent: u16) -> u16
    requires { agent < length books.now.report.agents }
    ensures { result ≡ length (program_of books.now.program).threads + agent }
{
    books.are_legal();
    let program = books.program();
    // A step of the proof, which does nothing when it runs.
    program.is_sound();
    program.threads().len() as u16 + agent
}

/// The entry of the agent with this number among the agents, if there is one.
pub fn entry_of<'a>(books: &Books<'a>, agent: u16) -> Option<&'a ActorReport>
    ensures { plain_entry (option_copied result) ≡ nth books.now.report.agents agent }
{
    let report = books.report();
    report.agents.get(usize::from(agent))
}

/// The agent with this number among the agents, if there is one.
pub fn cell_of(alloc: Global, books: &Books<'_>, agent: u16) -> Result<Option<CellId>, AllocError>
    ensures { IfOk result (λ o. o ≡ nth (agents_from 0 books.now.program.cells) agent) }
{
    let program = books.program();
    // A step of the proof, which does nothing when it runs.
    program.is_sound();
    let agents = agents_of(alloc, program.cells())?;
    match agents.as_slice().get(usize::from(agent)) {
        Some(cell) => Ok(Some(*cell)),
        None => Ok(None),
    }
}

/// What is found of the action that is over with this entry, which is at this index of a trace, where its events are those from index
/// `from` on.
fn place_found(
    alloc: Global,
    books: &Books<'_>,
    actor: u16,
    from: usize,
    at: usize,
    turns: u32,
    trace: &[Place],
    place: Place,
) -> Result<Found, AllocError>
    requires { nth (plain_trace trace.now) at ≡ Some (place_of place) }
    ensures finding { IfOk result (λ f. as_found f.finding ≡ act_finding (program_of books.now.program) books.now.report turns actor (part_of from at (plain_trace trace.now)) at (place_of place) (nth (books_of books.now.report place.book) place.at)) }
    ensures serial { IfOk result (λ f. as_found f.finding ≡ Fine → f.serial ≡ event_serial (program_of books.now.program) books.now.report turns (place_of place) (part_of from at (plain_trace trace.now)) (nth (books_of books.now.report place.book) place.at)) }
{
    match act_of(books, place) {
        Some(act) => {
            let first = least(from, at);
            let stretch = Stretch {
                actor,
                first,
                events: 0,
                index: at,
            };
            let since = part_of(trace, first, at);
            ran_found(alloc, books, turns, stretch, since, act)
        }
        None => Ok(fine()),
    }
}

/// What is found of the action that is over with the entry at this index of a trace, where its events are those from index `from` on.
fn act_at(
    alloc: Global,
    books: &Books<'_>,
    actor: u16,
    from: usize,
    at: usize,
    turns: u32,
    ran: &ActorReport,
) -> Result<Found, AllocError>
    ensures finding { IfOk result (λ f. as_found f.finding ≡ act_finding_at (program_of books.now.program) books.now.report turns actor from at (ran_as ran.now) (nth (plain_trace ran.now.trace.items) at)) }
    ensures serial { IfOk result (λ f. as_found f.finding ≡ Fine → f.serial ≡ serial_at (program_of books.now.program) books.now.report turns (part_of from at (plain_trace ran.now.trace.items)) (nth (plain_trace ran.now.trace.items) at)) }
{
    let trace = ran.trace.as_slice();
    match trace.get(at) {
        Some(place) => place_found(alloc, books, actor, from, at, turns, trace, *place),
        None => Ok(fine()),
    }
}

/// What is found of the action that is over with the entry at index `at` of the trace of the agent with this number among the agents,
/// where each loop makes at most `turns` turns. Its events are those from index `from` on.
///
/// # Errors
/// `AllocError` where there was no memory for what the action means.
pub fn act_found(
    alloc: Global,
    books: &Books<'_>,
    agent: u16,
    from: usize,
    at: usize,
    turns: u32,
) -> Result<Found, AllocError>
    ensures finding { IfOk result (λ f. as_found f.finding ≡ piece_finding (program_of books.now.program) books.now.report turns (OfAct agent from at)) }
    ensures serial { IfOk result (λ f. as_found f.finding ≡ Fine → f.serial ≡ piece_serial (program_of books.now.program) books.now.report turns (OfAct agent from at)) }
{
    match entry_of(books, agent) {
        Some(ran) => act_at(alloc, books, actor_of(books, agent), from, at, turns, ran),
        None => Ok(fine()),
    }
}

// ---- what actions print

/// What is printed by an action of which this is answered: nothing where it doesn't allow an event.
fn printed_of(alloc: Global, meaning: ActionMeaning) -> Listed<u8>
    ensures { result ≡ prints_by meaning.needs meaning.printed }
{
    match meaning.needs {
        Needs::Wrong => Listed::from_vec(Vec::new(alloc)),
        _ => meaning.printed,
    }
}

/// What this action prints on this state and these events: with few turns first, and with more only where these don't suffice.
pub fn prints_within<'b>(
    alloc: Global,
    books: &'b Books<'_>,
    turns: u32,
    action: &Action,
    state: &Value,
    seen: &'b [Seen<'b>],
) -> Result<Listed<u8>, AllocError>
    requires { is_sent_call (known (functions_of books.now.program.functions)) action.now.callee (suc (length action.now.args)) ≡ true }
    ensures { IfOk result (λ o. o ≡ printed_by (means_on (program_of books.now.program) turns action.now state.now (seen_events seen.now))) }
{
    // Laws that the proof uses; they do nothing when they run.
    action_is_answered();
    books.program().is_sound();
    let mut bound = first_bound(turns);
    loop {
        let meaning = answered(alloc, books, bound, action, state, seen)?;
        if !wants_turns(&meaning.needs, bound, turns) {
            return Ok(printed_of(alloc, meaning));
        }
        bound = next_bound(bound, turns);
    }
}

/// What this action prints on this state and the events of this part of a trace.
fn action_prints(
    alloc: Global,
    books: &Books<'_>,
    turns: u32,
    since: &[Place],
    action: &Action,
    state: &Value,
) -> Result<Listed<u8>, AllocError>
    requires { is_sent_call (known (functions_of books.now.program.functions)) action.now.callee (suc (length action.now.args)) ≡ true }
    ensures { IfOk result (λ o. o ≡ printed_by (means_on (program_of books.now.program) turns action.now state.now (seen_of books.now.program.cells (books_of books.now.report) (plain_trace since.now)))) }
{
    let seen = books.see_all(alloc, since)?;
    prints_within(alloc, books, turns, action, state, seen.as_slice())
}

/// What an action prints that is over with this act.
fn act_prints(
    alloc: Global,
    books: &Books<'_>,
    turns: u32,
    since: &[Place],
    act: Act<'_>,
) -> Result<Listed<u8>, AllocError>
    requires { HasAct books.now act }
    ensures { IfOk result (λ o. o ≡ action_prints (program_of books.now.program) books.now.report turns (take act.entry.at books.now.report.book) act.entry.agent (plain_trace since.now) (next_action (cells_of books.now.program.cells) (take act.entry.at books.now.report.book) act.entry.agent)) }
{
    let Some(action) = action_of(books, act) else {
        return Ok(Listed::from_vec(Vec::new(alloc)));
    };
    let Some(state) = state_of(books, act) else {
        return Ok(Listed::from_vec(Vec::new(alloc)));
    };
    if !is_sent(books, action) {
        return Ok(Listed::from_vec(Vec::new(alloc)));
    }
    action_prints(alloc, books, turns, since, action, state)
}

/// What the action prints that is over with this entry, which is at this index, joins what was printed, where the entry names an act. The answer is
/// the index at which the next action begins.
fn print_next(
    alloc: Global,
    books: &Books<'_>,
    turns: u32,
    trace: &[Place],
    from: usize,
    at: usize,
    place: Place,
    all: &mut Vec<u8>,
) -> Result<usize, AllocError>
    requires order { from ≤ at }
    requires here { nth (plain_trace trace.now) at ≡ Some (place_of place) }
    ensures { IfOk result (λ next. PrintsOn (program_of books.now.program) books.now.report turns (plain_trace trace.now) from at all.old.items next all.new.items) }
{
    let Some(act) = act_of(books, place) else {
        return Ok(from);
    };
    let printed = act_prints(alloc, books, turns, part_of(trace, from, at), act)?;
    all.extend_from_slice(printed.as_slice())?;
    Ok(at + 1)
}

/// What the actions of this trace print that are over, one after another.
pub fn acts_print(
    alloc: Global,
    books: &Books<'_>,
    turns: u32,
    trace: &[Place],
) -> Result<Vec<u8>, AllocError>
    ensures { IfOk result (λ all. all.items ≡ acts_print (program_of books.now.program) books.now.report turns [] (plain_trace trace.now)) }
{
    let mut all = Vec::new(alloc);
    let mut from = 0;
    for (at, place) in trace.iter().enumerate() {
        from = print_next(alloc, books, turns, trace, from, at, *place, &mut all)?;
    }
    Ok(all)
}

// ---- ends

/// Whether an actor that wasn't stopped for a full book has neither entries nor bytes left.
fn is_nothing(full: bool, since: &[Place], out: &[u8]) -> bool
    ensures { result ≡ (not full && (length since.now == 0 && length out.now == 0)) }
{
    !full && (since.is_empty() && out.is_empty())
}

/// Whether these bytes begin with what this action prints on all of these events but the last.
fn prints_least<'b>(
    alloc: Global,
    books: &'b Books<'_>,
    turns: u32,
    action: &Action,
    state: &Value,
    seen: &'b [Seen<'b>],
    out: &[u8],
) -> Result<bool, AllocError>
    requires { is_sent_call (known (functions_of books.now.program.functions)) action.now.callee (suc (length action.now.args)) ≡ true }
    ensures { IfOk result (λ b. b ≡ begins (least_of (means_on (program_of books.now.program) turns action.now state.now) (seen_events seen.now)) out.now) }
{
    // Laws that the proof uses; they do nothing when they run.
    action_is_answered();
    books.program().is_sound();
    if seen.is_empty() {
        return Ok(true);
    }
    let (before, _) = seen.split_at(seen.len() - 1);
    let least = answered(alloc, books, turns, action, state, before)?;
    let printed = printed_of(alloc, least);
    Ok(begins(printed.as_slice(), out))
}

/// Whether an action that isn't over has printed as much of its meaning as on all of its events but the last, and no more than this.
fn printed_part<'b>(
    alloc: Global,
    books: &'b Books<'_>,
    turns: u32,
    action: &Action,
    state: &Value,
    seen: &'b [Seen<'b>],
    whole: &[u8],
    out: &[u8],
) -> Result<bool, AllocError>
    requires { is_sent_call (known (functions_of books.now.program.functions)) action.now.callee (suc (length action.now.args)) ≡ true }
    ensures { IfOk result (λ b. b ≡ part_printed (means_on (program_of books.now.program) turns action.now state.now) (seen_events seen.now) out.now whole.now) }
{
    if !begins(out, whole) {
        return Ok(false);
    }
    prints_least(alloc, books, turns, action, state, seen, out)
}

/// What is found of the end of this action on this state, which isn't over and has printed this, where its events are these and this is
/// answered of it. Where its agent's actor was stopped for a full book, the store's book and the one that the action needs are looked at.
fn rest_ends<'b>(
    alloc: Global,
    books: &'b Books<'_>,
    turns: u32,
    full: bool,
    stretch: Stretch,
    action: &Action,
    state: &Value,
    out: &[u8],
    seen: &'b [Seen<'b>],
    meaning: &ActionMeaning,
) -> Result<Finding, AllocError>
    requires sent { is_sent_call (known (functions_of books.now.program.functions)) action.now.callee (suc (length action.now.args)) ≡ true }
    requires fits { stretch.first + length seen.now < 2 ^ 64 }
    requires many { stretch.events ≡ length seen.now }
    requires tells { TellsAction meaning.now (program_of books.now.program) action.now.callee action.now.span (state.now ∷ action.now.args) turns (seen_events seen.now) }
    ensures { IfOk result (λ f. as_found f ≡ rest_ends (books_of books.now.report) full stretch.actor stretch.first stretch.index (means_on (program_of books.now.program) turns action.now state.now) (seen_events seen.now) out.now (means_on (program_of books.now.program) turns action.now state.now (seen_events seen.now))) }
{
    // Laws and a step of the proof, which do nothing when they run.
    still_is_answered();
    rest_full_is_answered();
    books.program().is_sound();
    let end = action_end(alloc, books.program(), turns, action, meaning)?;
    if full {
        let store = books.is_full(Some(0));
        let needed = books.is_full(meaning.asks);
        return Ok(full_ends(stretch, meaning, &end, out, store, needed));
    }
    let whole = meaning.printed.as_slice();
    let part = printed_part(alloc, books, turns, action, state, seen, whole, out)?;
    Ok(still_ends(stretch, meaning, &end, part))
}

/// What is found of the end of this action on this state by its act, where its events are these and this is answered of it.
fn over_ends<'b>(
    alloc: Global,
    books: &'b Books<'_>,
    turns: u32,
    stretch: Stretch,
    action: &Action,
    state: &Value,
    act: Act<'_>,
    seen: &'b [Seen<'b>],
    meaning: &ActionMeaning,
) -> Result<Finding, AllocError>
    requires sent { is_sent_call (known (functions_of books.now.program.functions)) action.now.callee (suc (length action.now.args)) ≡ true }
    requires fits { stretch.first + length seen.now < 2 ^ 64 }
    requires many { stretch.events ≡ length seen.now }
    requires tells { TellsAction meaning.now (program_of books.now.program) action.now.callee action.now.span (state.now ∷ action.now.args) turns (seen_events seen.now) }
    ensures { IfOk result (λ f. as_found f ≡ act_ends (cells_of books.now.program.cells) (take act.entry.at books.now.report.book) action.now.span stretch.actor stretch.first stretch.index (means_on (program_of books.now.program) turns action.now state.now) (seen_events seen.now) act.entry.new.now act.entry.sends.now (means_on (program_of books.now.program) turns action.now state.now (seen_events seen.now))) }
{
    // A law and a step of the proof, which do nothing when they run.
    act_is_answered();
    books.program().is_sound();
    let end = action_end(alloc, books.program(), turns, action, meaning)?;
    let failed = first_failed(books, meaning.sends.as_slice(), act.at);
    Ok(act_ends(
        stretch,
        action.span,
        failed,
        meaning,
        &end,
        act.new,
        act.sends,
    ))
}

/// What is found of the end of this action on this state, where its events are these and this is answered of it.
fn end_found<'b>(
    alloc: Global,
    books: &'b Books<'_>,
    turns: u32,
    stretch: Stretch,
    since: &[Place],
    action: &Action,
    state: &Value,
    ending: Ending<'_>,
    seen: &'b [Seen<'b>],
    meaning: &ActionMeaning,
) -> Result<Finding, AllocError>
    requires sent { is_sent_call (known (functions_of books.now.program.functions)) action.now.callee (suc (length action.now.args)) ≡ true }
    requires fits { stretch.first + length since.now < 2 ^ 64 }
    requires many { stretch.events ≡ length seen.now }
    requires events { seen_events seen.now ≡ seen_of books.now.program.cells (books_of books.now.report) (plain_trace since.now) }
    requires tells { TellsAction meaning.now (program_of books.now.program) action.now.callee action.now.span (state.now ∷ action.now.args) turns (seen_events seen.now) }
    ensures { IfOk result (λ f. as_found f ≡ end_by (program_of books.now.program) books.now.report turns stretch.actor stretch.first stretch.index action.now state.now (plain_trace since.now) ending.entry) }
{
    match ending {
        Ending::Act(act) => over_ends(
            alloc, books, turns, stretch, action, state, act, seen, meaning,
        ),
        Ending::Waits(full, out) => rest_ends(
            alloc, books, turns, full, stretch, action, state, out, seen, meaning,
        ),
    }
}

/// What is found of this action on this state, on the part of the trace that is the action's, where its events are these and this is
/// answered of it.
fn judge<'b>(
    alloc: Global,
    books: &'b Books<'_>,
    turns: u32,
    stretch: Stretch,
    since: &[Place],
    action: &Action,
    state: &Value,
    ending: Ending<'_>,
    seen: &'b [Seen<'b>],
    meaning: &ActionMeaning,
) -> Result<Found, AllocError>
    requires sent { is_sent_call (known (functions_of books.now.program.functions)) action.now.callee (suc (length action.now.args)) ≡ true }
    requires fits { stretch.first + length since.now < 2 ^ 64 }
    requires many { stretch.events ≡ length seen.now }
    requires events { seen_events seen.now ≡ seen_of books.now.program.cells (books_of books.now.report) (plain_trace since.now) }
    requires tells { TellsAction meaning.now (program_of books.now.program) action.now.callee action.now.span (state.now ∷ action.now.args) turns (seen_events seen.now) }
    ensures finding { IfOk result (λ f. as_found f.finding ≡ judged (program_of books.now.program) books.now.report turns stretch.actor stretch.first stretch.index action.now state.now (plain_trace since.now) ending.entry) }
    ensures serial { IfOk result (λ f. as_found f.finding ≡ Fine → f.serial ≡ covered_since (program_of books.now.program) books.now.report turns action.now state.now (plain_trace since.now)) }
{
    // Laws that the proof uses; they do nothing when they run.
    action_is_answered();
    calm_is_answered();
    covered_is_answered();
    books.program().is_sound();
    let txs = meaning.txs.as_slice();
    let calm = transactions_found(books, stretch.actor, stretch.first, since, txs)?;
    if !calm.finding.is_fine() {
        return Ok(calm);
    }
    let finding = end_found(
        alloc, books, turns, stretch, since, action, state, ending, seen, meaning,
    )?;
    Ok(Found {
        finding,
        serial: calm.serial,
    })
}

/// What is found of this action on this state, on the part of the trace that is the action's, where its events are these.
fn judged<'b>(
    alloc: Global,
    books: &'b Books<'_>,
    turns: u32,
    stretch: Stretch,
    since: &[Place],
    action: &Action,
    state: &Value,
    ending: Ending<'_>,
    seen: &'b [Seen<'b>],
) -> Result<Found, AllocError>
    requires sent { is_sent_call (known (functions_of books.now.program.functions)) action.now.callee (suc (length action.now.args)) ≡ true }
    requires fits { stretch.first + length since.now < 2 ^ 64 }
    requires events { seen_events seen.now ≡ seen_of books.now.program.cells (books_of books.now.report) (plain_trace since.now) }
    ensures finding { IfOk result (λ f. as_found f.finding ≡ judged (program_of books.now.program) books.now.report turns stretch.actor stretch.first stretch.index action.now state.now (plain_trace since.now) ending.entry) }
    ensures serial { IfOk result (λ f. as_found f.finding ≡ Fine → f.serial ≡ covered_since (program_of books.now.program) books.now.report turns action.now state.now (plain_trace since.now)) }
{
    let meaning = answered(alloc, books, turns, action, state, seen)?;
    let its = Stretch {
        actor: stretch.actor,
        first: stretch.first,
        events: seen.len(),
        index: stretch.index,
    };
    judge(
        alloc, books, turns, its, since, action, state, ending, seen, &meaning,
    )
}

/// What is found of what an agent's actor did behind its last act, and has printed since: the first action that waits for the agent
/// means that.
fn still_found<'b>(
    alloc: Global,
    books: &'b Books<'_>,
    turns: u32,
    full: bool,
    stretch: Stretch,
    since: &[Place],
    agent: CellId,
    out: &[u8],
    seen: &'b [Seen<'b>],
) -> Result<Found, AllocError>
    requires there { agent.number < length books.now.program.cells }
    requires fits { stretch.first + length since.now < 2 ^ 64 }
    requires events { seen_events seen.now ≡ seen_of books.now.program.cells (books_of books.now.report) (plain_trace since.now) }
    ensures finding { IfOk result (λ f. as_found f.finding ≡ still_found (program_of books.now.program) books.now.report turns full stretch.actor stretch.first stretch.index agent (plain_trace since.now) out.now (next_action (cells_of books.now.program.cells) books.now.report.book agent)) }
    ensures serial { IfOk result (λ f. as_found f.finding ≡ Fine → f.serial ≡ action_covered (program_of books.now.program) books.now.report turns books.now.report.book agent (plain_trace since.now) (next_action (cells_of books.now.program.cells) books.now.report.book agent)) }
{
    books.are_legal();
    let events = books.report().book.len() as u32;
    let Some(action) = books.next_action(agent.number) else {
        return Ok(off(stretch.actor, stretch.first));
    };
    let Some(state) = books.value_at(agent.number, events) else {
        return Ok(off(stretch.actor, stretch.first));
    };
    if !is_sent(books, action) {
        return Ok(off(stretch.actor, stretch.first));
    }
    let ending = Ending::Waits(full, out);
    judged(
        alloc, books, turns, stretch, since, action, state, ending, seen,
    )
}

/// What is found of what an agent's actor did behind its last act, and has printed since, where its events are these and each loop makes at
/// most so many turns: nothing, or what the first action that waits means. One that was stopped for a full book has such an action.
fn rest_with<'b>(
    alloc: Global,
    books: &'b Books<'_>,
    turns: u32,
    full: bool,
    stretch: Stretch,
    since: &[Place],
    agent: CellId,
    out: &[u8],
    seen: &'b [Seen<'b>],
) -> Result<Found, AllocError>
    requires there { agent.number < length books.now.program.cells }
    requires fits { stretch.first + length since.now < 2 ^ 64 }
    requires events { seen_events seen.now ≡ seen_of books.now.program.cells (books_of books.now.report) (plain_trace since.now) }
    ensures finding { IfOk result (λ f. as_found f.finding ≡ rest_found (program_of books.now.program) books.now.report turns full stretch.actor stretch.first stretch.index agent (plain_trace since.now) out.now) }
    ensures serial { IfOk result (λ f. as_found f.finding ≡ Fine → f.serial ≡ action_covered (program_of books.now.program) books.now.report turns books.now.report.book agent (plain_trace since.now) (next_action (cells_of books.now.program.cells) books.now.report.book agent)) }
{
    if is_nothing(full, since, out) {
        return Ok(fine());
    }
    still_found(alloc, books, turns, full, stretch, since, agent, out, seen)
}

/// The same where each loop makes at most `turns` turns: with few turns first, and with more only where these don't suffice.
fn rest_within<'b>(
    alloc: Global,
    books: &'b Books<'_>,
    turns: u32,
    full: bool,
    stretch: Stretch,
    since: &[Place],
    agent: CellId,
    out: &[u8],
    seen: &'b [Seen<'b>],
) -> Result<Found, AllocError>
    requires there { agent.number < length books.now.program.cells }
    requires fits { stretch.first + length since.now < 2 ^ 64 }
    requires events { seen_events seen.now ≡ seen_of books.now.program.cells (books_of books.now.report) (plain_trace since.now) }
    ensures finding { IfOk result (λ f. as_found f.finding ≡ rest_found (program_of books.now.program) books.now.report turns full stretch.actor stretch.first stretch.index agent (plain_trace since.now) out.now) }
    ensures serial { IfOk result (λ f. as_found f.finding ≡ Fine → f.serial ≡ action_covered (program_of books.now.program) books.now.report turns books.now.report.book agent (plain_trace since.now) (next_action (cells_of books.now.program.cells) books.now.report.book agent)) }
{
    // A law and a step of the proof, which do nothing when they run.
    rest_stays();
    books.program().is_sound();
    let mut bound = first_bound(turns);
    loop {
        let found = rest_with(alloc, books, bound, full, stretch, since, agent, out, seen)?;
        if !is_short(found.finding, bound, turns) {
            return Ok(found);
        }
        bound = next_bound(bound, turns);
    }
}

/// What is found of what an agent's actor did from this index of its trace on, behind its last act, and has printed since.
fn rest_found(
    alloc: Global,
    books: &Books<'_>,
    turns: u32,
    full: bool,
    actor: u16,
    agent: CellId,
    from: usize,
    trace: &[Place],
    out: &[u8],
) -> Result<Found, AllocError>
    requires there { agent.number < length books.now.program.cells }
    requires within { from ≤ length trace.now }
    ensures finding { IfOk result (λ f. as_found f.finding ≡ rest_found (program_of books.now.program) books.now.report turns full actor from (length trace.now) agent (drop from (plain_trace trace.now)) out.now) }
    ensures serial { IfOk result (λ f. as_found f.finding ≡ Fine → f.serial ≡ action_covered (program_of books.now.program) books.now.report turns books.now.report.book agent (drop from (plain_trace trace.now)) (next_action (cells_of books.now.program.cells) books.now.report.book agent)) }
{
    let (_, since) = trace.split_at(from);
    let stretch = Stretch {
        actor,
        first: from,
        events: 0,
        index: trace.len(),
    };
    let seen = books.see_all(alloc, since)?;
    let events = seen.as_slice();
    rest_within(
        alloc, books, turns, full, stretch, since, agent, out, events,
    )
}

/// What is found of the end of an agent with this entry, whose actor began at this index what comes behind its last act: it was stopped
/// or hasn't ended, and printed what its actions print.
fn ended(
    alloc: Global,
    books: &Books<'_>,
    turns: u32,
    actor: u16,
    agent: CellId,
    from: usize,
    ran: &ActorReport,
) -> Result<Found, AllocError>
    requires there { agent.number < length books.now.program.cells }
    requires within { from ≤ length ran.now.trace.items }
    ensures finding { IfOk result (λ f. as_found f.finding ≡ agent_end (program_of books.now.program) books.now.report turns actor agent (drop from (plain_trace ran.now.trace.items)) (acts_print (program_of books.now.program) books.now.report turns [] (plain_trace ran.now.trace.items)) (ran_as ran.now)) }
    ensures serial { IfOk result (λ f. as_found f.finding ≡ Fine → f.serial ≡ action_covered (program_of books.now.program) books.now.report turns books.now.report.book agent (drop from (plain_trace ran.now.trace.items)) (next_action (cells_of books.now.program.cells) books.now.report.book agent)) }
{
    let trace = ran.trace.as_slice();
    let printed = ran.printed.as_slice();
    let outs = acts_print(alloc, books, turns, trace)?;
    if !is_stopped(ran.outcome) {
        return Ok(off(actor, trace.len()));
    }
    if !begins(outs.as_slice(), printed) {
        return Ok(off(actor, trace.len()));
    }
    let (_, out) = printed.split_at(outs.len());
    let full = is_full_stop(ran.outcome);
    rest_found(alloc, books, turns, full, actor, agent, from, trace, out)
}

/// What is found of the end of the agent with this number among the agents, which has this entry. What its actor did behind its last act
/// is from index `from` of its trace on.
fn end_of(
    alloc: Global,
    books: &Books<'_>,
    agent: u16,
    from: usize,
    turns: u32,
    ran: &ActorReport,
) -> Result<Found, AllocError>
    requires { nth books.now.report.agents agent ≡ Some (ran_as ran.now) }
    ensures finding { IfOk result (λ f. as_found f.finding ≡ end_finding (program_of books.now.program) books.now.report turns (length (program_of books.now.program).threads + agent) from (nth (agents_from 0 books.now.program.cells) agent) (Some (ran_as ran.now))) }
    ensures serial { IfOk result (λ f. as_found f.finding ≡ Fine → f.serial ≡ end_serial (program_of books.now.program) books.now.report turns from (nth (agents_from 0 books.now.program.cells) agent) (Some (ran_as ran.now))) }
{
    match cell_of(alloc, books, agent)? {
        Some(cell) => {
            let actor = actor_of(books, agent);
            let start = least(from, ran.trace.len());
            ended(alloc, books, turns, actor, cell, start, ran)
        }
        None => Ok(fine()),
    }
}

/// What is found of the end of the agent with this number among the agents, where each loop makes at most `turns` turns. What its actor
/// did behind its last act is from index `from` of its trace on.
///
/// # Errors
/// `AllocError` where there was no memory for what its actions mean.
pub fn agent_end(
    alloc: Global,
    books: &Books<'_>,
    agent: u16,
    from: usize,
    turns: u32,
) -> Result<Found, AllocError>
    ensures finding { IfOk result (λ f. as_found f.finding ≡ piece_finding (program_of books.now.program) books.now.report turns (OfEnd agent from)) }
    ensures serial { IfOk result (λ f. as_found f.finding ≡ Fine → f.serial ≡ piece_serial (program_of books.now.program) books.now.report turns (OfEnd agent from)) }
{
    match entry_of(books, agent) {
        Some(ran) => end_of(alloc, books, agent, from, turns, ran),
        None => Ok(fine()),
    }
}
