// Copies of actions, asks, replies and events.
use std::alloc::Global;
use txs_value_cell::{Action, Arguments, copy_action};
use txs_value_data::{Callee, CellId, CellKind, Fault, FaultKind, Listed, Op, Span, Value};
use txs_world_protocol::{
    Ask, Cause, Event, EventKind, Reply, copy_ask, copy_event, copy_reply, copy_writes,
};

const REF: CellId = CellId {
    kind: CellKind::Ref,
    number: 3,
};

const AGENT: CellId = CellId {
    kind: CellKind::Agent,
    number: 0,
};

const FAULT: Fault = Fault {
    kind: FaultKind::DivideByZero,
    span: Span { from: 27, to: 42 },
};

/// The action of `(send g quot 0)`, with this span.
pub fn quotient(agent: CellId, span: Span) -> Action {
    Action {
        agent,
        callee: Callee::Core(Op::Quot),
        args: Arguments::one(Value::Int(0)),
        span,
    }
}

// Whether an action is that.
fn is_quotient(action: &Action) -> bool {
    matches!(action.args.as_slice(), [Value::Int(divisor)] if *divisor == 0)
        && action.agent == AGENT
        && action.callee == Callee::Core(Op::Quot)
        && action.span == FAULT.span
}

// Whether that action alone is sent.
fn send_quotient(sends: &Listed<Action>) -> bool {
    matches!(sends.as_slice(), [action] if is_quotient(action))
}

// Whether such an action is copied, and an ask that sends it.
fn are_sends_copied(alloc: Global) -> bool {
    let action = quotient(AGENT, FAULT.span);
    let is = match copy_action(&action) {
        Ok(copy) => is_quotient(&copy),
        Err(_) => false,
    };
    let ask = Ask::Send { action };
    let copy = copy_ask(alloc, &ask);
    drop(ask);
    let sends = matches!(&copy, Ok(Ask::Send { action }) if is_quotient(action));
    drop(copy);
    is && sends
}

// Whether several arguments are shared.
fn are_arguments_shared(alloc: Global) -> bool {
    let Ok(values) = vec![in alloc; Value::Int(1), Value::Int(2)] else {
        return false;
    };
    let Ok(args) = Arguments::from_vec(values) else {
        return false;
    };
    let copy = args.share();
    drop(args);
    match copy {
        Ok(copy) => matches!(copy.as_slice(), [Value::Int(a), Value::Int(b)] if *a == 1 && *b == 2),
        Err(_) => false,
    }
}

// Whether writes set a ref to 7.
fn set_seven(writes: &Listed<(CellId, Value)>) -> bool {
    matches!(writes.as_slice(), [(cell, Value::Int(n))] if *cell == REF && *n == 7)
}

// Whether an ask is a commit that sets it to 7, and so does the copy of its writes.
fn is_commit(alloc: Global, ask: &Ask) -> bool {
    let Ask::Commit { at, sets, view, .. } = ask else {
        return false;
    };
    let copied = match copy_writes(alloc, sets) {
        Ok(copy) => set_seven(&copy),
        Err(_) => false,
    };
    copied && *at == 5 && *view == 6 && set_seven(sets)
}

/// A commit that sets a ref alone.
pub fn commit(alloc: Global, at: u32, view: u32, cell: CellId, new: i64) -> Ask {
    let mut sets = Vec::new(alloc);
    let _pushed = sets.push((cell, Value::Int(new)));
    Ask::Commit {
        at,
        sets: Listed::from_vec(sets),
        ensured: Listed::from_vec(Vec::new(alloc)),
        view,
        commuted: Listed::from_vec(Vec::new(alloc)),
        sends: Listed::from_vec(Vec::new(alloc)),
    }
}

// Whether that commit is copied.
fn is_commit_copied(alloc: Global) -> bool {
    let ask = commit(alloc, 5, 6, REF, 7);
    let copy = copy_ask(alloc, &ask);
    drop(ask);
    let is = matches!(&copy, Ok(copy) if is_commit(alloc, copy));
    drop(copy);
    is
}

// Whether a reply is copied, as that action which is an agent's first, on the state 10, or as a value, which is true.
fn is_reply_copied(alloc: Global, reply: Reply) -> bool {
    let copy = copy_reply(alloc, &reply);
    drop(reply);
    let is = match &copy {
        Ok(
            Reply::Action {
                number,
                action,
                state: Value::Int(state),
            },
        ) => *number == 1 && *state == 10 && is_quotient(action),
        Ok(Reply::Is(Value::Truth(truth))) => *truth,
        _ => false,
    };
    drop(copy);
    is
}

// Whether two causes are the same.
fn is_same(cause: Cause, other: Cause) -> bool {
    match (cause, other) {
        (Cause::Outdated, Cause::Outdated) | (Cause::Held, Cause::Held) => true,
        (Cause::Commuted { at }, Cause::Commuted { at: other }) => at == other,
        _ => false,
    }
}

// Whether a retry of that ref for this cause is copied, of the third actor.
fn is_retry_copied(alloc: Global, cause: Cause) -> bool {
    let kind = EventKind::Retry {
        since: 4,
        cell: REF,
        cause,
    };
    let event = Event { actor: 2, kind };
    let copy = copy_event(alloc, &event);
    drop(event);
    let is = match &copy {
        Ok(Event { actor: 2, kind }) => match kind {
            EventKind::Retry {
                since,
                cell,
                cause: copied,
            } => *since == 4 && *cell == REF && is_same(*copied, cause),
            _ => false,
        },
        _ => false,
    };
    drop(copy);
    is
}

// Whether such retries are copied, one for each cause.
fn are_retries_copied(alloc: Global) -> bool {
    is_retry_copied(alloc, Cause::Outdated)
        && is_retry_copied(alloc, Cause::Held)
        && is_retry_copied(alloc, Cause::Commuted { at: 3 })
}

// Whether an event of the third actor is copied, as that agent's first action, which came to that fault and sent that action.
fn is_act_copied(alloc: Global, kind: EventKind) -> bool {
    let event = Event { actor: 2, kind };
    let copy = copy_event(alloc, &event);
    drop(event);
    let is = match &copy {
        Ok(Event { actor: 2, kind }) => match kind {
            EventKind::Act {
                agent,
                number,
                new: Err(fault),
                sends,
            } => *agent == AGENT && *number == 1 && *fault == FAULT && send_quotient(sends),
            _ => false,
        },
        _ => false,
    };
    drop(copy);
    is
}

#[test]
fn copies_asks(rt: HostRuntime) {
    assert!(rt; are_sends_copied(rt.alloc()) && is_commit_copied(rt.alloc()));
}

#[test]
fn shares_arguments(rt: HostRuntime) {
    assert!(rt; are_arguments_shared(rt.alloc()));
}

#[test]
fn copies_replies(rt: HostRuntime) {
    let first = Reply::Action {
        number: 1,
        action: quotient(AGENT, FAULT.span),
        state: Value::Int(10),
    };
    let is = is_reply_copied(rt.alloc(), first);
    assert!(rt; is && is_reply_copied(rt.alloc(), Reply::Is(Value::Truth(true))));
}

#[test]
fn copies_events(rt: HostRuntime) {
    let is = are_retries_copied(rt.alloc());
    let mut sends = Vec::new(rt.alloc());
    let _pushed = sends.push(quotient(AGENT, FAULT.span));
    let act = EventKind::Act {
        agent: AGENT,
        number: 1,
        new: Err(FAULT),
        sends: Listed::from_vec(sends),
    };
    assert!(rt; is_act_copied(rt.alloc(), act) && is);
}
