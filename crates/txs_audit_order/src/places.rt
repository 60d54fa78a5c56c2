//! Where a wrong event of a book is in the traces.

ghost use Rattle.std.specs.Prelude.{◌≡◌, ◌&&◌, ◌==◌, option_copied};
ghost use Rattle.txs_theorem_audit.specs.Audited.{entry_of, report_as};
ghost use Rattle.txs_theorem_audit.specs.Verdict.{index_if, index_in, length_if};
ghost use Rattle.txs_audit_order.specs.Named.{plain_entry, plain_trace};

use txs_world_protocol::{ActorReport, Place, Report};

/// Whether this is the place of the event at this index of a book.
fn is_at(place: Place, book: u32, at: usize) -> bool
    ensures { result ≡ (place.book == book && place.at == at) }
{
    place.book == book && place.at as usize == at
}

/// The index of a place in a trace, its length where it isn't there.
fn index_in(book: u32, at: usize, trace: &[Place]) -> usize
    ensures { result ≡ index_in book at (plain_trace trace.now) }
{
    for (i, place) in trace.iter().enumerate() {
        if is_at(*place, book, at) {
            return i;
        }
    }
    trace.len()
}

/// The entry of an actor: threads come first, and behind them the agents.
pub fn entry_of<'a>(report: &'a Report, actor: u16) -> Option<&'a ActorReport>
    ensures { plain_entry (option_copied result) ≡ entry_of (report_as report.now) actor }
{
    let actor = usize::from(actor);
    let threads = report.threads.len();
    if actor < threads {
        return report.threads.get(actor);
    }
    report.agents.get(actor - threads)
}

/// Which entry of an actor's trace names the event at this index of a book: the trace's length where none does, and 0 where there is no such
/// actor.
pub fn index_of(report: &Report, book: u32, actor: u16, at: usize) -> usize
    ensures { result ≡ index_if book at (entry_of (report_as report.now) actor) }
{
    match entry_of(report, actor) {
        Some(ran) => index_in(book, at, ran.trace.as_slice()),
        None => 0,
    }
}

/// How many events the first actor's trace has.
pub fn first_length(report: &Report) -> usize
    ensures { result ≡ length_if (entry_of (report_as report.now) 0) }
{
    match entry_of(report, 0) {
        Some(ran) => ran.trace.len(),
        None => 0,
    }
}
