//! The end of a thread, against what its source means on its events.

ghost use Rattle.std.specs.Prelude.{◌≡◌, ◌<◌, length, IfOk, Some};
ghost use Rattle.txs_value_data.specs.Places.{nth};
ghost use Rattle.txs_tree_meaning.specs.Thread.{thread_meaning};
ghost use Rattle.txs_tree_meaning.specs.Tree.{PlainThread};
ghost use Rattle.txs_tree_meaning.specs.View.{program_of};
ghost use Rattle.txs_tree_eval.specs.Told.{Tells};
ghost use Rattle.txs_tree_eval_node.specs.Events.{seen_events};
ghost use Rattle.txs_theorem_threads.specs.FollowsAll.{source_of};
ghost use Rattle.txs_theorem_audit.specs.Audited.{ran_as};
ghost use Rattle.txs_theorem_audit.specs.Verdict.{begins, end_found, least_printed};
ghost use Rattle.txs_theorem_audit.specs.Evaluated.{full_by, least_by, part_by};
ghost use Rattle.txs_audit_book.specs.Judged.{as_found};
ghost use Rattle.txs_audit_book.specs.Ended.{end_with, ended_with};

use crate::ends::{begins, is_stopped, same_bytes, same_end};
use crate::finding::{Finding, check};
use std::alloc::{AllocError, Global};
use txs_theorem_audit::{end_is_answered, least_is_answered};
use txs_tree_eval::{Needs, Seen, ThreadMeaning, eval_thread};
use txs_tree_meaning::Program;
use txs_world_protocol::ActorReport;

/// Whether these bytes begin with what a thread's meaning prints, where it has one.
fn least(meaning: &ThreadMeaning, out: &[u8]) -> bool
    ensures { result ≡ least_by meaning.now.needs meaning.now.printed out.now }
{
    match meaning.needs {
        Needs::Wrong => true,
        _ => begins(meaning.printed.as_slice(), out),
    }
}

/// Whether these bytes begin with what the program's thread prints on all of its events but the last.
fn prints_least<'a>(
    alloc: Global,
    program: &'a Program,
    thread: usize,
    seen: &'a [Seen<'a>],
    turns: u32,
    out: &[u8],
) -> Result<bool, AllocError>
    requires { thread < length program.now.threads }
    ensures { IfOk result (λ b. (t : PlainThread) → nth (program_of program.now).threads thread ≡ Some t
        → b ≡ begins (least_printed (source_of (program_of program.now) t) turns (seen_events seen.now)) out.now) }
{
    if seen.is_empty() {
        return Ok(true);
    }
    let (before, _) = seen.split_at(seen.len() - 1);
    // A law that the proof uses; it does nothing when it runs.
    least_is_answered();
    let meaning = eval_thread(alloc, program, thread, before, turns)?;
    Ok(least(&meaning, out))
}

/// Whether the program's thread was stopped and has printed as much as its meaning says at least, and no more.
fn printed_part<'a>(
    alloc: Global,
    program: &'a Program,
    thread: usize,
    seen: &'a [Seen<'a>],
    turns: u32,
    ran: &ActorReport,
    meaning: &ThreadMeaning,
) -> Result<bool, AllocError>
    requires { thread < length program.now.threads }
    ensures { IfOk result (λ b. (t : PlainThread) → nth (program_of program.now).threads thread ≡ Some t
        → b ≡ part_by ran.now.outcome ran.now.printed.items meaning.now.printed (least_printed (source_of (program_of program.now) t) turns (seen_events seen.now))) }
{
    let out = ran.printed.as_slice();
    if !is_stopped(ran.outcome) {
        return Ok(false);
    }
    if !begins(out, meaning.printed.as_slice()) {
        return Ok(false);
    }
    prints_least(alloc, program, thread, seen, turns, out)
}

/// The end of a thread that has a meaning on so many events: whether it ended and printed so, or else was stopped and printed
/// a part.
fn printed_all(ran: &ActorReport, meaning: &ThreadMeaning, part: bool) -> bool
    ensures { result ≡ ended_with ran.now.outcome ran.now.printed.items part meaning.now.outcome meaning.now.printed }
{
    if same_end(meaning.outcome, ran.outcome) {
        return same_bytes(ran.printed.as_slice(), meaning.printed.as_slice());
    }
    part
}

/// The end of a thread by its meaning on so many events, and whether it was stopped and printed a part.
fn end_with(
    actor: u16,
    events: usize,
    ran: &ActorReport,
    meaning: &ThreadMeaning,
    part: bool,
) -> Finding
    ensures { as_found result ≡ end_with actor events ran.now.outcome ran.now.printed.items part meaning.now.needs meaning.now.outcome meaning.now.printed meaning.now.eaten }
{
    let eaten = meaning.eaten;
    match meaning.needs {
        Needs::Wrong => Finding::Off(actor, eaten),
        Needs::Turns => {
            if eaten == events && part {
                return Finding::Fine;
            }
            Finding::Short(actor, eaten)
        }
        Needs::Nothing | Needs::Event => {
            let first = check(eaten == events, actor, eaten);
            let ended = printed_all(ran, meaning, part);
            first.and_then(check(ended, actor, events))
        }
    }
}

/// What is found of the end of a thread that was stopped for a full book and printed this, by its meaning on so many events. The
/// event that it lacks, if it does, would be one of a full book or not.
pub fn full_end(
    actor: u16,
    events: usize,
    out: &[u8],
    meaning: &ThreadMeaning,
    full: bool,
) -> Finding
    ensures { as_found result ≡ full_by actor events out.now meaning.now.needs full meaning.now.printed meaning.now.eaten }
{
    let first = check(meaning.eaten == events, actor, meaning.eaten);
    match meaning.needs {
        Needs::Nothing => first.and_then(Finding::Off(actor, events)),
        Needs::Event => {
            let holds = full && same_bytes(out, meaning.printed.as_slice());
            first.and_then(check(holds, actor, events))
        }
        Needs::Turns => Finding::Short(actor, meaning.eaten),
        Needs::Wrong => Finding::Off(actor, meaning.eaten),
    }
}

/// What is found of the end of the program's thread, whose meaning on these events with their worlds is told so, where each
/// loop makes at most `turns` turns.
///
/// # Errors
/// `AllocError` where there was no memory for what the thread means on all events but the last.
pub fn end_found<'a>(
    alloc: Global,
    program: &'a Program,
    thread: u16,
    seen: &'a [Seen<'a>],
    turns: u32,
    ran: &ActorReport,
    meaning: &ThreadMeaning,
) -> Result<Finding, AllocError>
    requires { thread < length program.now.threads }
    ensures { IfOk result (λ f. (t : PlainThread) → nth (program_of program.now).threads thread ≡ Some t
        → Tells meaning.now (source_of (program_of program.now) t) turns (seen_events seen.now)
        → as_found f ≡ end_found (source_of (program_of program.now) t) turns thread (seen_events seen.now) (ran_as ran.now) (thread_meaning (source_of (program_of program.now) t) turns (seen_events seen.now))) }
{
    // Laws that the proof uses; they do nothing when they run.
    program.is_sound();
    end_is_answered();
    let number = usize::from(thread);
    let part = printed_part(alloc, program, number, seen, turns, ran, meaning)?;
    Ok(end_with(thread, seen.len(), ran, meaning, part))
}
