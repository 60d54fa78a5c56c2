//! All outcomes of a script: each is told as a schedule tells it, with the list of plays that comes to it.

ghost use Rattle.std.specs.Prelude.{◌≡◌, ◌≤◌, ◌+◌, ◌<◌, ◌-◌, ◌^◌, ◌++◌, ℕ, length, true, Some, IfOk, IfSome, OnOk};
ghost use Rattle.txs_audit_book.specs.Answered.{finishing};
ghost use Rattle.txs_cli_audit.specs.Audit.{HasNoAnswer, IsRight};
ghost use Rattle.txs_cli_explore.specs.Explored.{ExploredTells, IsExplored, OutcomeTells, OutcomesTell, StreamExploredTells, ends_line, few_line, last_line, limit_of, lists_in, switches_word, texts_in};
ghost use Rattle.txs_cli_report.specs.Lent.{script_of, text_in, told_of};
ghost use Rattle.txs_cli_report.specs.Told.{Told as PlainTold, Written, front};
ghost use Rattle.txs_code_decode.specs.CodeForm.{HasForm};
ghost use Rattle.txs_code_meaning.specs.OwnCells.{NamesOwnCells};
ghost use Rattle.txs_explore.specs.Ways.{AreAll, AreAllOfFew, AreRuns};

use crate::outcomes::{Outcome, status_of};
use crate::ways::outcomes_of;
use crate::written::add_outcomes;
use std::alloc::{AllocError, Global};
use std::io::{Read, Write};
use txs_audit_book::{AuditError, Terms, Verdict};
use txs_cli::source::unread;
use txs_cli_args::Exploring;
use txs_cli_report::explain::Script;
use txs_cli_report::streams::read_bytes;
use txs_cli_report::told::{Told, answer, refused};
use txs_cli_report::{write_answer, write_number};
use txs_code_meaning::Verified;
use txs_compile::compile;
use txs_explore::{Explored, Limits, explore};
use txs_tree_meaning::Program;
use txs_world_protocol::Report;

/// How many asks a schedule has at most.
const DEPTH: u32 = 1_000;

/// How many switches are tried at most.
const SWITCHES: u32 = 1_000;

/// How many asks are made at first. They become four times as many until the search went everywhere, or made as many as it may.
const FIRST: u64 = 10_000;

/// How many steps an actor makes at most, whatever is asked for.
const MOST_STEPS: u64 = 1_000_000_000_000;

/// The outcomes of a code, by so many asks at most. The progress is called with how many asks a search made that didn't go everywhere, and how many outcomes it found.
fn search<P: Fn(u64, usize)>(
    alloc: Global,
    progress: &P,
    code: &Verified,
    steps: u64,
    most: u64,
) -> Result<(Explored, u64), AllocError>
    requires progress { (n : _) (k : _) → P.pre progress.now n k }
    requires few { length code.now.threads + length code.now.cells ≤ 65535 }
    requires small { steps + 1 < 2 ^ 64 - 1 }
    ensures runs { IfOk result (λ e. AreRuns code.now steps e.0.ways.items) }
    ensures all { IfOk result (λ e. e.0.whole ≡ true → AreAll code.now steps e.0.ways.items) }
    ensures few { IfOk result (λ e. (k : ℕ) → e.0.within ≡ Some k → AreAllOfFew code.now steps k e.0.ways.items) }
{
    let mut asks = FIRST.min(most);
    for _ in 0..32 {
        let limits = Limits {
            max_steps: steps,
            depth: DEPTH,
            switches: SWITCHES,
            asks,
        };
        let explored = explore(alloc, code, limits)?;
        if explored.whole || asks >= most {
            return Ok((explored, asks));
        }
        progress(asks, explored.ways.len());
        drop(explored);
        asks = asks.saturating_mul(4).min(most);
    }
    let limits = Limits {
        max_steps: steps,
        depth: DEPTH,
        switches: SWITCHES,
        asks: most,
    };
    Ok((explore(alloc, code, limits)?, most))
}

/// Appends of how many outcomes something says that there are no others.
fn add_ends(output: &mut Vec<u8>, outcomes: usize) -> Result<(), AllocError>
    ensures { OnOk result (output.new.items ≡ output.old.items ++ ends_line outcomes) }
{
    if outcomes == 1 {
        return output.extend_from_slice(b" ends in this outcome\n");
    }
    write_number(output, b" ends in one of these ", outcomes)?;
    output.extend_from_slice(b" outcomes\n")
}

/// The word for so many switches.
fn switches_word(most: u32) -> &'static [u8]
    ensures { result.now ≡ switches_word most }
{
    if most == 1 {
        return b" switch";
    }
    b" switches"
}

/// Appends that schedules with no more switches have no others.
fn add_few(output: &mut Vec<u8>, most: u32, outcomes: usize) -> Result<(), AllocError>
    ensures { OnOk result (output.new.items ≡ output.old.items ++ few_line (Some most) outcomes) }
{
    write_number(output, b"; each schedule with at most ", most as usize)?;
    output.extend_from_slice(switches_word(most))?;
    add_ends(output, outcomes)
}

/// Appends the last line: whether there are no other outcomes, or of which schedules that is known.
fn add_last(
    output: &mut Vec<u8>,
    explored: &Explored,
    asks: u64,
    outcomes: usize,
) -> Result<(), AllocError>
    ensures { OnOk result (output.new.items ≡ output.old.items ++ last_line explored.now.whole explored.now.within asks outcomes) }
{
    if explored.whole {
        output.extend_from_slice(b"complete: each schedule")?;
        return add_ends(output, outcomes);
    }
    write_number(output, b"not complete: a search made ", asks as usize)?;
    output.extend_from_slice(b" requests")?;
    match explored.within {
        None => output.extend_from_slice(b"\n"),
        Some(most) => add_few(output, most, outcomes),
    }
}

/// The lists of plays that come to these outcomes, in their order.
fn lists_of(alloc: Global, outcomes: &[Outcome]) -> Result<Vec<Vec<u8>>, AllocError>
    ensures { IfOk result (λ lists. texts_in lists.items ≡ lists_in outcomes.now) }
{
    let mut lists = Vec::new(alloc);
    for outcome in outcomes {
        let list = Vec::from_slice(alloc, outcome.list.as_slice())?;
        lists.push(list)?;
    }
    Ok(lists)
}

/// What is told of outcomes that such a search found, which were to be the same or weren't.
fn tell_outcomes(
    alloc: Global,
    explored: &Explored,
    asks: u64,
    outcomes: &[Outcome],
    same: bool,
) -> Result<Told, AllocError>
    ensures { IfOk result (λ t. OutcomesTell explored.now.whole explored.now.within asks same outcomes.now (told_of t)) }
{
    let mut output = Vec::new(alloc);
    add_outcomes(alloc, &mut output, outcomes)?;
    add_last(&mut output, explored, asks, outcomes.len())?;
    let mut told = answer(output, alloc);
    told.status = status_of(outcomes, explored.whole, same);
    Ok(told)
}

/// What is told of a code's outcomes, and the list of plays of each.
fn explore_compiled<
    A: Fn(Global, &Program, &Report, Terms, usize) -> Result<Verdict, AuditError>,
    P: Fn(u64, usize),
>(
    alloc: Global,
    auditor: &A,
    progress: &P,
    script: Script<'_>,
    compiled: &(Program, Verified),
    exploring: Exploring,
) -> Result<(Told, Vec<Vec<u8>>), AllocError>
    requires audit { (a : _) (p : _) (r : _) (w : _) (n : _) → A.pre auditor.now a p r w n }
    requires right { (a : _) (p : _) (r : _) (w : _) (n : _) (v : _) → A.post auditor.now a p r w n v → IsRight p.now r.now w v }
    requires progress { (n : _) (k : _) → P.pre progress.now n k }
    requires form { HasForm compiled.now.1 }
    requires own_cells { NamesOwnCells compiled.now.1 }
    requires small { exploring.steps + 1 < 2 ^ 64 - 1 }
    ensures { IfOk result (λ r. IsExplored compiled.now.1 exploring.steps
        (OutcomeTells exploring.audit (λ p r e. HasNoAnswer (A.post auditor.now) p r (finishing exploring.steps) 4 e) (script_of script.entry) exploring.steps compiled.now.0 compiled.now.1) exploring.same (texts_in r.1.items) (told_of r.0)) }
{
    // Says that the code is well typed; it does nothing when it runs.
    let _rooms = compiled.1.rooms();
    let (explored, asks) = search(
        alloc,
        progress,
        &compiled.1,
        exploring.steps,
        exploring.asks,
    )?;
    let ways = explored.ways.as_slice();
    let Some(outcomes) = outcomes_of(alloc, auditor, script, compiled, ways, exploring)? else {
        return Err(AllocError);
    };
    let outcomes = outcomes.as_slice();
    let lists = lists_of(alloc, outcomes)?;
    let told = tell_outcomes(alloc, &explored, asks, outcomes, exploring.same)?;
    Ok((told, lists))
}

/// What is told of a script's outcomes, and the list of plays of each; or that it is refused.
fn explore_script<
    A: Fn(Global, &Program, &Report, Terms, usize) -> Result<Verdict, AuditError>,
    P: Fn(u64, usize),
>(
    alloc: Global,
    auditor: &A,
    progress: &P,
    script: Script<'_>,
    exploring: Exploring,
) -> Result<(Told, Vec<Vec<u8>>), AllocError>
    requires audit { (a : _) (p : _) (r : _) (w : _) (n : _) → A.pre auditor.now a p r w n }
    requires right { (a : _) (p : _) (r : _) (w : _) (n : _) (v : _) → A.post auditor.now a p r w n v → IsRight p.now r.now w v }
    requires progress { (n : _) (k : _) → P.pre progress.now n k }
    requires small { exploring.steps + 1 < 2 ^ 64 - 1 }
    ensures { IfOk result (λ r. ExploredTells (script_of script.entry) exploring.steps
        (OutcomeTells exploring.audit (λ p r e. HasNoAnswer (A.post auditor.now) p r (finishing exploring.steps) 4 e) (script_of script.entry) exploring.steps) exploring.same (texts_in r.1.items) (told_of r.0)) }
{
    match compile(alloc, script.text) {
        Ok(compiled) => explore_compiled(alloc, auditor, progress, script, &compiled, exploring),
        Err(error) => {
            let told = refused(alloc, script, &error)?;
            Ok((told, Vec::new(alloc)))
        }
    }
}

/// The same search, in which actors make no more steps than any may.
fn limited(exploring: Exploring) -> Exploring
    ensures steps { result.steps ≡ limit_of exploring.steps }
    ensures same { result.same ≡ exploring.same }
    ensures audit { result.audit ≡ exploring.audit }
{
    Exploring {
        steps: exploring.steps.min(MOST_STEPS),
        ..exploring
    }
}

/// Writes all outcomes of a script, each with a list of plays that comes to it, and whether there are others. Answers the status, and these lists.
fn explore_text<
    A: Fn(Global, &Program, &Report, Terms, usize) -> Result<Verdict, AuditError>,
    P: Fn(u64, usize),
    W: Write,
    F: Write,
>(
    alloc: Global,
    auditor: &A,
    progress: &P,
    script: Script<'_>,
    exploring: Exploring,
    writer: &mut W,
    faults: &mut F,
) -> (u8, Vec<Vec<u8>>)
    requires audit { (a : _) (p : _) (r : _) (w : _) (n : _) → A.pre auditor.now a p r w n }
    requires right { (a : _) (p : _) (r : _) (w : _) (n : _) (v : _) → A.post auditor.now a p r w n v → IsRight p.now r.now w v }
    requires progress { (n : _) (k : _) → P.pre progress.now n k }
    ensures { (t : PlainTold) × StreamExploredTells (script_of script.entry) (limit_of exploring.steps)
        (OutcomeTells exploring.audit (λ p r e. HasNoAnswer (A.post auditor.now) p r (finishing (limit_of exploring.steps)) 4 e) (script_of script.entry) (limit_of exploring.steps)) exploring.same (texts_in result.1.items) t
        × Written (W.contents writer.old) (W.contents writer.new) (F.contents faults.old) (F.contents faults.new) t result.0 }
{
    match explore_script(alloc, auditor, progress, script, limited(exploring)) {
        Ok((told, lists)) => (write_answer(Ok(told), writer, faults), lists),
        Err(error) => (write_answer(Err(error), writer, faults), Vec::new(alloc)),
    }
}

/// Writes all outcomes of the reader's script, each with a list of plays that comes to it, and whether there are others. Answers the status, and the
/// lists of the outcomes that are written, in their order.
pub fn explore_run<
    A: Fn(Global, &Program, &Report, Terms, usize) -> Result<Verdict, AuditError>,
    P: Fn(u64, usize),
    R: Read,
    W: Write,
    F: Write,
>(
    alloc: Global,
    auditor: &A,
    progress: &P,
    exploring: Exploring,
    file: Option<&str>,
    reader: &mut R,
    writer: &mut W,
    faults: &mut F,
) -> (u8, Vec<Vec<u8>>)
    requires audit { (a : _) (p : _) (r : _) (w : _) (n : _) → A.pre auditor.now a p r w n }
    requires right { (a : _) (p : _) (r : _) (w : _) (n : _) (v : _) → A.post auditor.now a p r w n v → IsRight p.now r.now w v }
    requires progress { (n : _) (k : _) → P.pre progress.now n k }
    ensures { IfSome (R.remaining reader.old) (λ input. (t : PlainTold) × StreamExploredTells (record { text = front input; file = text_in file.entry }) (limit_of exploring.steps)
        (OutcomeTells exploring.audit (λ p r e. HasNoAnswer (A.post auditor.now) p r (finishing (limit_of exploring.steps)) 4 e) (record { text = front input; file = text_in file.entry }) (limit_of exploring.steps)) exploring.same (texts_in result.1.items) t
        × Written (W.contents writer.old) (W.contents writer.new) (F.contents faults.old) (F.contents faults.new) t result.0) }
{
    match read_bytes(alloc, reader) {
        Ok(bytes) => {
            let text = bytes.as_slice();
            let script = Script { text, file };
            explore_text(alloc, auditor, progress, script, exploring, writer, faults)
        }
        Err(fault) => (
            write_answer(unread(alloc, fault), writer, faults),
            Vec::new(alloc),
        ),
    }
}
