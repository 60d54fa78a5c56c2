// Reports that no run gives, in which each part alone is right: something is left to do, a stop isn't true, or the events have no order. An audit differs at each.
use crate::audits::case::{Case, always_answers, case_of};
use std::alloc::Global;
use std::mem;
use std::sync::Wait;
use std::thread::Threads;
use txs_audit_book::Verdict;
use txs_machine::Play;
use txs_value_data::{Listed, Value};
use txs_world_protocol::{ActorReport, EventKind, Outcome, Place, Report};

/// A thread that prints.
const PRINTS: &str = "(future (println 1))";

/// A thread that sends one action.
const SENDS: &str = "(def g (agent 0)) (future (send g inc))";

/// An action that reads a ref, which the transaction that sends it sets.
const EARLY: &str = "(def g (agent 0)) (def r (ref 0)) (defn look [s] (println @r) (inc s))
(future (dosync (send g look) (ref-set r 1)))";

/// An action that reads a ref in a transaction, which the thread set before it sent it.
const LATER: &str = "(def r (ref 0)) (def g (agent 0)) (defn look [s] (println (dosync @r)) (inc s))
(future (dosync (ref-set r 1)) (send g look))";

/// A thread that sets a ref and then an atom, and one that reads the atom and then the ref.
const CROSS: &str = "(def r (ref 0)) (def a (atom 0))
(future (dosync (ref-set r 1)) (reset! a 1)) (future (println @a) (println (dosync @r)))";

/// Two threads that each reset an atom, and then read the other one's.
const BUFFER: &str = "(def a (atom 0)) (def b (atom 0))
(future (reset! a 1) (println @b)) (future (reset! b 1) (println @a))";

/// What is forged of a report.
#[derive(Clone, Copy)]
enum Forged {
    /// The first thread hasn't ended, and printed nothing.
    Unended,
    /// The agent's action wasn't run.
    MailLeft,
    /// The first thread was stopped for steps, of which it made fewer than it might; or for a full journal.
    FewSteps,
    FullJournal,
    /// The agent was stopped for a full journal, before its action or behind it.
    FullBefore,
    FullBehind,
    /// The action read before it was sent.
    Early,
    /// Its transaction began before it was sent.
    Later,
    /// The second thread's transaction began before the first one's, whose later reset it had read.
    Cross,
    /// Each thread read before the other one's reset, which came before its own.
    Buffer,
}

/// The first of these entries ended so, and printed nothing.
fn end_so(rans: &mut [ActorReport], outcome: Option<Outcome>) {
    if let Some(ran) = rans.first_mut() {
        ran.outcome = outcome;
        ran.printed.clear();
    }
}

/// The first agent's action isn't there.
fn leave_mail(report: &mut Report) {
    report.book.pop();
    if let Some(ran) = report.agents.first_mut() {
        ran.trace.clear();
    }
    if let Some(cell) = report.cells.first_mut() {
        *cell = Value::Int(0);
    }
}

/// This actor was stopped for a full journal.
fn stop_full(ran: Option<&mut ActorReport>) {
    if let Some(ran) = ran {
        ran.outcome = Some(Outcome::JournalFull);
    }
}

/// The first byte that this entry printed.
fn print_first(ran: Option<&mut ActorReport>, byte: u8) {
    if let Some(ran) = ran {
        if let Some(first) = ran.printed.first_mut() {
            *first = byte;
        }
    }
}

/// The first entry of this trace is the event at this index of the store's book.
fn move_first(ran: Option<&mut ActorReport>, at: u32) {
    if let Some(ran) = ran {
        if let Some(place) = ran.trace.first_mut() {
            *place = Place { book: 0, at };
        }
    }
}

/// The first two events of the store's book in the other order.
fn turn_round(report: &mut Report) {
    if report.book.len() > 1 {
        report.book.swap(0, 1);
    }
    move_first(report.threads.first_mut(), 1);
    move_first(report.agents.first_mut(), 0);
    print_first(report.agents.first_mut(), b'0');
}

/// The commit at this index began before all events.
fn begin_first(report: &mut Report, index: usize) {
    if let Some(event) = report.book.get_mut(index) {
        if let EventKind::Commit { at, view, .. } = &mut event.kind {
            *at = 0;
            *view = 0;
        }
    }
}

/// The last number that the second thread printed is 0.
fn print_last(ran: Option<&mut ActorReport>) {
    if let Some(ran) = ran {
        if ran.printed.len() > 2 {
            ran.printed[2] = b'0';
        }
    }
}

/// The two events of each atom's book in the other order, and each thread read 0.
fn turn_atoms(alloc: Global, report: &mut Report) {
    for book in report.atom_books.iter_mut() {
        let mut events = mem::replace(book, Listed::from_vec(Vec::new(alloc))).into_vec();
        if events.len() > 1 {
            events.swap(0, 1);
        }
        drop(mem::replace(book, Listed::from_vec(events)));
    }
    for ran in report.threads.iter_mut() {
        for place in ran.trace.iter_mut() {
            place.at ^= 1;
        }
        print_first(Some(ran), b'0');
    }
}

/// Forges a report.
fn forge(alloc: Global, report: &mut Report, forged: Forged) {
    match forged {
        Forged::Unended => end_so(report.threads.as_mut_slice(), None),
        Forged::MailLeft => leave_mail(report),
        Forged::FewSteps => end_so(report.threads.as_mut_slice(), Some(Outcome::StepsSpent)),
        Forged::FullJournal => end_so(report.threads.as_mut_slice(), Some(Outcome::JournalFull)),
        Forged::FullBefore => {
            leave_mail(report);
            stop_full(report.agents.first_mut());
        }
        Forged::FullBehind => stop_full(report.agents.first_mut()),
        Forged::Early => turn_round(report),
        Forged::Later => {
            begin_first(report, 2);
            print_first(report.agents.first_mut(), b'0');
        }
        Forged::Cross => {
            begin_first(report, 1);
            print_last(report.threads.get_mut(1));
        }
        Forged::Buffer => turn_atoms(alloc, report),
    }
}

/// Whether the report of this case, with this forged, differs at this event.
fn is_found<R: Threads + Wait + Sync>(
    rt: &R,
    alloc: Global,
    case: Option<Case>,
    forged: Forged,
    actor: u16,
    event: usize,
) -> bool {
    let Some(mut case) = case else {
        return false;
    };
    forge(alloc, &mut case.report, forged);
    let is = always_answers(rt, alloc, &case, 100, Verdict::Differs { actor, event });
    drop(case);
    is
}

#[test]
fn what_is_left_to_do_is_found(rt: HostRuntime) {
    let alloc = rt.alloc();
    assert!(rt;
        is_found(
            &rt,
            alloc,
            case_of(alloc, PRINTS, &[]),
            Forged::Unended,
            0,
            0
        )
    );
    assert!(rt;
        is_found(
            &rt,
            alloc,
            case_of(alloc, SENDS, &[]),
            Forged::MailLeft,
            1,
            0
        )
    );
}

#[test]
fn a_stop_that_is_not_true_is_found(rt: HostRuntime) {
    let alloc = rt.alloc();
    assert!(rt;
        is_found(
            &rt,
            alloc,
            case_of(alloc, PRINTS, &[]),
            Forged::FewSteps,
            0,
            0
        )
    );
    assert!(rt;
        is_found(
            &rt,
            alloc,
            case_of(alloc, PRINTS, &[]),
            Forged::FullJournal,
            0,
            0
        )
    );
}

#[test]
fn an_agent_at_no_full_journal_is_found(rt: HostRuntime) {
    let alloc = rt.alloc();
    assert!(rt;
        is_found(
            &rt,
            alloc,
            case_of(alloc, SENDS, &[]),
            Forged::FullBefore,
            1,
            0
        )
    );
    assert!(rt;
        is_found(
            &rt,
            alloc,
            case_of(alloc, SENDS, &[]),
            Forged::FullBehind,
            1,
            1
        )
    );
}

#[test]
fn an_effect_before_its_cause_is_found(rt: HostRuntime) {
    let alloc = rt.alloc();
    assert!(rt; is_found(&rt, alloc, case_of(alloc, EARLY, &[]), Forged::Early, 1, 0));
    assert!(rt; is_found(&rt, alloc, case_of(alloc, LATER, &[]), Forged::Later, 0, 0));
}

#[test]
fn a_stale_read_point_is_found(rt: HostRuntime) {
    let alloc = rt.alloc();
    let plays = [Play::Ask(0); 5];
    assert!(rt;
        is_found(
            &rt,
            alloc,
            case_of(alloc, CROSS, &plays),
            Forged::Cross,
            0,
            0
        )
    );
}

#[test]
fn two_journals_crosswise_are_found(rt: HostRuntime) {
    let alloc = rt.alloc();
    assert!(rt;
        is_found(
            &rt,
            alloc,
            case_of(alloc, BUFFER, &[]),
            Forged::Buffer,
            0,
            1
        )
    );
}
