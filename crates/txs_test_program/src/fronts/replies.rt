// Replies beside what is wanted of them.
use txs_value_data::Value;
use txs_world_protocol::Reply;

// The name of a reply, the index or the number in it, and the value in it.
fn parts_of(reply: &Reply) -> (&'static str, u32, Option<&Value>) {
    match reply {
        Reply::At(at) => ("at", *at, None),
        Reply::Is(value) => ("is", 0, Some(value)),
        Reply::Views(at, values) => ("views", *at, values.as_slice().first()),
        Reply::Done => ("done", 0, None),
        Reply::Retry(cell) => ("retry", u32::from(cell.number), None),
        Reply::Changed(cell) => ("changed", u32::from(cell.number), None),
        Reply::AgentIsFailed(agent) => ("failed", u32::from(agent.number), None),
        Reply::Action { number, state, .. } => ("action", *number, Some(state)),
        Reply::Opened(at, value) => ("opened", *at, Some(value)),
        Reply::Idle => ("idle", 0, None),
        Reply::Full => ("full", 0, None),
        Reply::Memory => ("memory", 0, None),
    }
}

/// Whether a reply, which is let go, has this name, this index or number, or else 0, and this value, or none.
pub fn is_reply(reply: Reply, name: &str, number: u32, value: Option<i64>) -> bool {
    let parts = parts_of(&reply);
    let same = match (parts.2, value) {
        (Some(Value::Int(n)), Some(wanted)) => *n == wanted,
        (None, None) => true,
        _ => false,
    };
    let is = same && parts.0 == name && parts.1 == number;
    drop(reply);
    is
}
