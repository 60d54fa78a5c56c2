// Replies and events, beside the words of a row.
use crate::asks::{next_word, number_of};
use std::slice;
use std::str::SplitWhitespace;
use txs_cli_report::events::name_of;
use txs_value_data::Value;
use txs_world_protocol::{Event, Reply};

// A reply as a row tells it: its name, the place or the number in it, and its values.
fn parts_of(reply: &Reply) -> (&'static str, Option<u32>, &[Value]) {
    match reply {
        Reply::At(place) => ("at", Some(*place), &[]),
        Reply::Is(value) => ("is", None, slice::from_ref(value)),
        Reply::Views(place, values) => ("views", Some(*place), values.as_slice()),
        Reply::Done => ("done", None, &[]),
        Reply::Retry(cell) => ("retry", Some(u32::from(cell.number)), &[]),
        Reply::Changed(cell) => ("changed", Some(u32::from(cell.number)), &[]),
        Reply::AgentIsFailed(agent) => ("failed", Some(u32::from(agent.number)), &[]),
        Reply::Action { number, state, .. } => ("action", Some(*number), slice::from_ref(state)),
        Reply::Opened(place, value) => ("opened", Some(*place), slice::from_ref(value)),
        Reply::Idle => ("idle", None, &[]),
        Reply::Full => ("full", None, &[]),
        Reply::Memory => ("memory", None, &[]),
    }
}

/// Whether the next words tell this reply: its name, what stands in it, and no more.
pub fn is_reply(reply: &Reply, words: &mut SplitWhitespace<'_>) -> bool {
    let (name, number, values) = parts_of(reply);
    if words.next() != Some(name) {
        return false;
    }
    if let Some(number) = number {
        if number_of(next_word(words)) != number {
            return false;
        }
    }
    for value in values {
        let told = i64::from(number_of(next_word(words)));
        if !matches!(value, Value::Int(n) if *n == told) {
            return false;
        }
    }
    words.next().is_none()
}

/// Whether the next words tell just these events: of each its actor and its name.
pub fn are_events(events: &[Event], words: &mut SplitWhitespace<'_>) -> bool {
    for event in events {
        let actor = number_of(next_word(words));
        if actor != u32::from(event.actor) || words.next() != Some(name_of(&event.kind)) {
            return false;
        }
    }
    words.next().is_none()
}
