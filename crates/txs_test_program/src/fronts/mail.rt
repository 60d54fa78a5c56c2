// A mailbox.
use crate::fronts::copies::quotient;
use txs_value_data::{CellId, CellKind, Span};
use txs_world::{Action, Mailbox};

// Puts an action of this span into a mailbox: whether there was memory.
fn put(mailbox: &mut Mailbox, from: u32) -> bool {
    let agent = CellId {
        kind: CellKind::Agent,
        number: 0,
    };
    let action: Action = quotient(agent, Span { from, to: from });
    let Ok(()) = mailbox.reserve(1) else {
        drop(action);
        return false;
    };
    mailbox.put_reserved(action);
    true
}

// Takes the next action, and finishes it, as one that failed or not, or gives it back: where its span begins, or 0 where there is none.
fn run(mailbox: &mut Mailbox, failed: Option<bool>) -> u32 {
    if mailbox.is_taken() {
        return 0;
    }
    let from = match mailbox.take() {
        Some(action) => action.span.from,
        None => return 0,
    };
    match failed {
        Some(failed) => mailbox.finish(failed),
        None => mailbox.give_back(),
    }
    from
}

#[test]
fn runs_in_order(rt: HostRuntime) {
    let mut mailbox = Mailbox::new(rt.alloc(), false);
    let sent = put(&mut mailbox, 5) && put(&mut mailbox, 6);
    let ran = run(&mut mailbox, None) == 5 && run(&mut mailbox, Some(false)) == 5;
    let failed = run(&mut mailbox, Some(true)) == 6 && run(&mut mailbox, None) == 0;
    let empty = mailbox.len() == 0 && mailbox.has_failed();
    drop(mailbox);
    assert!(rt; sent && ran && failed && empty);
}
