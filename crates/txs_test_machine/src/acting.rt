// What an action means on events.
use crate::events::{all_seen, histories, is_text, kinds_of, number_of};
use std::alloc::Global;
use txs_check::is_sent_callee;
use txs_tree_eval::{ActionMeaning, Needs, Seen, eval_action};
use txs_tree_meaning::Program;
use txs_value_data::{Callee, CellId, Span, Value};

const NOWHERE: Span = Span { from: 0, to: 0 };

// Whether an action ends so: with a value of this text, by the name of its fault, or with what it needs, as `end_of` of `events.rt` names it.
fn ends_so(alloc: Global, meaning: &ActionMeaning, end: &str) -> bool {
    match (meaning.needs, &meaning.result) {
        (Needs::Nothing, Some(Ok(value))) => is_text(alloc, value, end.as_bytes()),
        (Needs::Nothing, Some(Err(fault))) => fault.kind.name() == end,
        (Needs::Event, None) => end == "event",
        (Needs::Turns, None) => end == "turns",
        (Needs::Wrong, None) => end == "wrong",
        _ => false,
    }
}

// Whether so many are told by this word.
fn are_so_many(count: usize, word: &str) -> bool {
    usize::try_from(number_of(word)) == Ok(count)
}

// Whether an action means this: how many of the events it eats, its end, how many sends it holds, and in the lines below what it prints.
fn is_meant(alloc: Global, meaning: &ActionMeaning, wanted: &str) -> bool {
    let (first, printed) = wanted.split_once('\n').unwrap_or((wanted, ""));
    let mut words = first.split_whitespace();
    let eaten = words.next().unwrap_or("");
    let end = words.next().unwrap_or("");
    let sends = words.next().unwrap_or("");
    ends_so(alloc, meaning, end)
        && are_so_many(meaning.eaten, eaten)
        && are_so_many(meaning.sends.as_slice().len(), sends)
        && meaning.printed.as_slice() == printed.as_bytes()
}

// Whether a callee may be sent to these values, and means this as an action on these events.
fn means_on<'a>(
    alloc: Global,
    program: &'a Program,
    callee: Callee,
    values: &[Value],
    events: &'a [Seen<'a>],
    wanted: &str,
) -> bool {
    if !matches!(
        is_sent_callee(alloc, program, callee, values.len()),
        Ok(true)
    ) {
        return false;
    }
    match eval_action(alloc, program, callee, NOWHERE, values, events, 100) {
        Ok(meaning) => is_meant(alloc, &meaning, wanted),
        Err(_) => false,
    }
}

// The same of the first function on this state, where cells have these values, one for each place.
fn means_so(alloc: Global, program: &Program, state: &str, values: &str, rest: &str) -> bool {
    let Some(first) = program.cells().first() else {
        return false;
    };
    let cell = CellId {
        kind: first.kind,
        number: 0,
    };
    let (events, wanted) = rest.split_once('\n').unwrap_or((rest, ""));
    let cells = histories(alloc, values);
    let kinds = kinds_of(alloc, cell, events);
    let seen = all_seen(alloc, cell.kind, kinds.as_slice(), cells.as_slice(), events);
    let states = [Value::Int(number_of(state))];
    means_on(
        alloc,
        program,
        Callee::Function(0),
        &states,
        seen.as_slice(),
        wanted,
    )
}

/// Whether the first function means what these lines say, as an action: its agent's state; the values of the cells, one for each place; the
/// events, each with its places; and what it means on them.
pub fn acts(alloc: Global, program: &Program, lines: &str) -> bool {
    let (state, rest) = lines.split_once('\n').unwrap_or((lines, ""));
    let (values, rest) = rest.split_once('\n').unwrap_or((rest, ""));
    means_so(alloc, program, state, values, rest)
}
