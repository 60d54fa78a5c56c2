// What no clause says: that the calls succeed with ample memory, and that puts and takes cost the same however many wait.
use txs_value_cell::{Action, Arguments};
use txs_value_data::{Callee, CellId, CellKind, Op, Span};
use txs_world::Mailbox;

// Sends `(send g inc)`, which stands at this place: whether there was room.
fn send(mailbox: &mut Mailbox, at: u32) -> bool {
    let Ok(()) = mailbox.reserve(1) else {
        return false;
    };
    mailbox.put_reserved(Action {
        agent: CellId {
            kind: CellKind::Agent,
            number: 0,
        },
        callee: Callee::Core(Op::Inc),
        args: Arguments::none(),
        span: Span { from: at, to: at },
    });
    true
}

// Takes the next action, and finishes it, as one that failed or not, or gives it back: where it stands, or 0 where there is none.
fn run(mailbox: &mut Mailbox, failed: Option<bool>) -> u32 {
    if mailbox.is_taken() {
        return 0;
    }
    let at = match mailbox.take() {
        Some(action) => action.span.from,
        None => return 0,
    };
    match failed {
        Some(failed) => mailbox.finish(failed),
        None => mailbox.give_back(),
    }
    at
}

// What it shows; whether a mailbox goes on after a fault; whether the next actions fail, or are given back, and where they stand; how many are left, and whether the agent has failed.
type Plan = (
    &'static str,
    bool,
    &'static [(Option<bool>, u32)],
    usize,
    bool,
);

const PLANS: [Plan; 4] = [
    (
        "runs in order",
        false,
        &[
            (Some(false), 1),
            (Some(false), 2),
            (Some(false), 3),
            (Some(false), 0),
        ],
        0,
        false,
    ),
    (
        "stops after a fault",
        false,
        &[(Some(true), 1), (Some(false), 0)],
        2,
        true,
    ),
    (
        "goes on after a fault",
        true,
        &[(Some(true), 1), (Some(false), 2)],
        1,
        false,
    ),
    (
        "gives back",
        false,
        &[(None, 1), (Some(false), 1), (None, 2)],
        2,
        false,
    ),
];

// Whether the next actions end and stand so.
fn goes(mailbox: &mut Mailbox, plan: &[(Option<bool>, u32)]) -> bool {
    for (failed, at) in plan {
        if run(mailbox, *failed) != *at {
            return false;
        }
    }
    true
}

// Each with the actions that stand at 1, 2 and 3.
#[test]
fn runs_by_plan(rt: HostRuntime) {
    for (name, goes_on, plan, left, failed) in &PLANS {
        let mut mailbox = Mailbox::new(rt.alloc(), *goes_on);
        let mut sent = true;
        for at in 1..4 {
            sent = send(&mut mailbox, at) && sent;
        }
        assert!(rt;
            sent && mailbox.len() == 3
                && goes(&mut mailbox, plan)
                && mailbox.len() == *left
                && mailbox.room().saturating_add(*left) >= 3
                && mailbox.has_failed() == *failed,
            "{name}"
        );
    }
}

const MANY: u32 = 100_000;

// While ever more wait: two are sent for each that runs, and then the others run.
#[test]
fn takes_as_long_with_many(rt: HostRuntime) {
    let mut mailbox = Mailbox::new(rt.alloc(), false);
    let mut so = true;
    for at in 1..=MANY {
        so = send(&mut mailbox, at) && so;
        so = (at % 2 == 1 || run(&mut mailbox, Some(false)) == at / 2) && so;
    }
    for at in MANY / 2 + 1..=MANY {
        so = run(&mut mailbox, Some(false)) == at && so;
    }
    assert!(rt; so && mailbox.len() == 0);
}
