//! How actors ended. A stop for steps is true, and where the run was to go on up to its end, each thread has ended, and each agent's actor has ended
//! or has nothing to do.

ghost use Rattle.std.specs.Prelude.{◌≡◌, ◌≤◌, ◌<◌, ◌&&◌, ◌||◌, not, length, map, IfOk};
ghost use Rattle.txs_value_cell.specs.Agents.{agents_from};
ghost use Rattle.txs_world.specs.Store.{next_action};
ghost use Rattle.txs_world_book.specs.Book.{is_there};
ghost use Rattle.txs_world_book.specs.Served.{cells_of};
ghost use Rattle.txs_tree_meaning.specs.View.{program_of};
ghost use Rattle.txs_theorem_audit.specs.Audited.{ran_as};
ghost use Rattle.txs_theorem_audit.specs.Verdict.{agents_over, ends_found, is_true_stop, threads_over};
ghost use Rattle.txs_audit_book.specs.Answered.{terms_as};
ghost use Rattle.txs_audit_order.specs.Named.{off_in};

use crate::acts::actor_of;
use crate::books::Books;
use std::alloc::{AllocError, Global};
use txs_audit_book::Terms;
use txs_audit_book::numbers::agents_of;
use txs_value_data::CellId;
use txs_world_protocol::{ActorReport, Outcome};

/// Whether a stop for steps is true: the actor has made as many as it may.
fn is_true_stop(limit: u64, outcome: Option<Outcome>, steps: u64) -> bool
    ensures { result ≡ is_true_stop limit outcome steps }
{
    match outcome {
        Some(Outcome::StepsSpent) => steps == limit,
        Some(Outcome::Done | Outcome::Failed(_) | Outcome::JournalFull | Outcome::Memory) | None =>
            true,
    }
}

/// Whether an actor may have come to this: it has ended, or has nothing to do, or the run wasn't to go on up to its end.
fn may_be(finishes: bool, outcome: Option<Outcome>, idle: bool) -> bool
    ensures { result ≡ (not finishes || (is_there outcome || idle)) }
{
    if !finishes {
        return true;
    }
    match outcome {
        Some(_) => true,
        None => idle,
    }
}

/// Whether the end of an actor is right that has nothing to do, or may have.
fn is_right(terms: Terms, idle: bool, ran: &ActorReport) -> bool
    ensures { result ≡ ((not terms.finishes || (is_there ran.now.outcome || idle)) && is_true_stop terms.steps ran.now.outcome ran.now.steps) }
{
    if !may_be(terms.finishes, ran.outcome, idle) {
        return false;
    }
    is_true_stop(terms.steps, ran.outcome, ran.steps)
}

/// The first thread whose end is wrong, and the index behind its trace.
fn threads_off(terms: Terms, threads: &[ActorReport]) -> Option<(u16, usize)>
    requires { length threads.now ≤ 65535 }
    ensures { off_in result ≡ threads_over (terms_as terms) 0 (map ran_as threads.now) }
{
    for (i, ran) in threads.iter().enumerate() {
        if !is_right(terms, false, ran) {
            return Some((i as u16, ran.trace.len()));
        }
    }
    None
}

/// Whether an agent has nothing to do behind the whole of the store's book.
fn is_idle(books: &Books<'_>, agent: CellId) -> bool
    requires { agent.number < length books.now.program.cells }
    ensures { result ≡ not (is_there (next_action (cells_of books.now.program.cells) books.now.report.book agent)) }
{
    match books.next_action(agent.number) {
        Some(_) => false,
        None => true,
    }
}

/// The first agent whose actor's end is wrong, and the index behind its trace.
fn agents_off(
    books: &Books<'_>,
    terms: Terms,
    agents: &[CellId],
    rans: &[ActorReport],
) -> Option<(u16, usize)>
    requires all { agents.now ≡ agents_from 0 books.now.program.cells }
    requires same { map ran_as rans.now ≡ books.now.report.agents }
    requires few { length agents.now ≤ 65535 }
    ensures { off_in result ≡ agents_over (terms_as terms) (cells_of books.now.program.cells) books.now.report.book (length (program_of books.now.program).threads) agents.now (map ran_as rans.now) }
{
    books.are_legal();
    for (i, agent) in agents.iter().enumerate() {
        let ran = &rans[i];
        if !is_right(terms, is_idle(books, *agent), ran) {
            return Some((actor_of(books, i as u16), ran.trace.len()));
        }
    }
    None
}

/// The first actor that hasn't ended as it was to, or whose stop isn't true, and the index behind its trace: threads first, and behind
/// them agents. An agent that has failed, or has no mail behind the whole of the store's book, has nothing to do.
///
/// # Errors
/// `AllocError` where there was no memory for the numbers of agents.
pub fn ends_off(
    alloc: Global,
    books: &Books<'_>,
    terms: Terms,
) -> Result<Option<(u16, usize)>, AllocError>
    ensures { IfOk result (λ o. off_in o ≡ ends_found (program_of books.now.program) (terms_as terms) books.now.report) }
{
    books.are_legal();
    let program = books.program();
    // A step of the proof, which does nothing when it runs.
    program.is_sound();
    let report = books.report();
    let agents = agents_of(alloc, program.cells())?;
    match threads_off(terms, report.threads.as_slice()) {
        Some(off) => Ok(Some(off)),
        None => Ok(agents_off(books, terms, agents.as_slice(), report.agents.as_slice())),
    }
}
