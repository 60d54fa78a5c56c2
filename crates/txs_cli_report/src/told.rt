//! What the program tells of a script: its lines on both streams, and its status.

ghost use Rattle.std.specs.Prelude.{◌≡◌, ◌≢◌, ◌≤◌, ◌++◌, ℕ, List, max, length, [], codes, decimal, Some, None, IfOk, IfSome, OnOk};
ghost use Rattle.txs_compile.specs.Compiled.{IsRefusal};
ghost use Rattle.txs_compile.specs.declared.compile_error.CompileError.TheVariants.{Memory};
ghost use Rattle.txs_cli_report.specs.Lent.{front_of, text_in, script_of, told_of};
ghost use Rattle.txs_cli_report.specs.Lines.{IsLesson, at_place, lesson_of, list_place, refusal_line, refused_line, refused_place, thread_front, failed_line, stopped_line, end_line, end_place, status_of, how_ended, status_from, AreLessons, AreThreadsTold};
ghost use Rattle.txs_cli_report.specs.Told.{ScriptRefused, WrongListTells, list_name};

use crate::explain::{Script, write_explained};
use crate::{WrongPlay, write_both, write_number};
use std::alloc::{AllocError, Global};
use txs_cli_advice::{
    OF_JOURNAL, OF_LIST, OF_MEMORY, OF_STEPS, of_check, of_fault, of_read, of_resolve, on_check,
    on_fault, on_read, on_resolve,
};
use txs_compile::CompileError;
use txs_machine::{ActorReport, Entries};
use txs_value_data::{Fault, Span};
use txs_world_protocol::Outcome;

/// What the program tells: its standard output and error, and its status.
pub struct Told {
    /// The threads that have run. The standard output begins with what they printed, in their order; it is written from here, and not copied.
    pub threads: Vec<ActorReport>,
    /// The agents whose actors have run. What their actions printed comes behind that of the threads, in the order of the agents.
    pub agents: Vec<ActorReport>,
    /// The lines of the standard output behind that.
    pub output: Vec<u8>,
    pub errors: Vec<u8>,
    pub status: u8,
}

// Dropped by a call that is proved here, so that no crate above proves it again.
impl Drop for Told {
    fn drop(self) {
        let Told {
            threads,
            agents,
            output,
            errors,
            status: _,
        } = self;
        drop(threads);
        drop(agents);
        drop(output);
        drop(errors);
    }
}

/// Of whom a line tells: of the thread with this number, or of the agent with this name.
#[derive(Clone, Copy)]
pub(crate) enum Front<'a> {
    Thread(u16),
    Agent(&'a [u8]),
}

/// What the line of a refusal tells: its number and name, the place, and what to do about it.
#[derive(Clone, Copy)]
struct Refusal {
    number: u8,
    name: &'static str,
    at: Span,
    advice: Option<&'static str>,
}

/// All threads ended, and no agent has failed.
pub const DONE: u8 = 0;

/// The script was refused.
pub const REFUSED: u8 = 1;

/// The words can't be used, a play names no actor, or a stream couldn't be read or written.
pub const UNUSABLE: u8 = 2;

/// A thread or an agent failed.
pub const FAILED: u8 = 3;

/// Steps or memory didn't suffice.
pub const SPENT: u8 = 4;

/// What is said of a script without threads, where lines are explained.
const OF_NONE: &str =
    "There is no `future` at the top, so nothing runs: put what is to run into one.";

/// A text on the standard output alone.
pub fn answer(output: Vec<u8>, alloc: Global) -> Told
    ensures whole { (told_of result).output ≡ output.items }
    ensures output { result.output.items ≡ output.items }
    ensures errors { result.errors.items ≡ [] }
    ensures status { result.status ≡ 0 }
{
    Told {
        threads: Vec::new(alloc),
        agents: Vec::new(alloc),
        output,
        errors: Vec::new(alloc),
        status: DONE,
    }
}

/// A line on the standard error alone.
pub fn complaint(alloc: Global, status: u8, line: &str) -> Result<Told, AllocError>
    ensures output { IfOk result (λ t. (told_of t).output ≡ []) }
    ensures errors { IfOk result (λ t. t.errors.items ≡ line.now ++ codes "\n") }
    ensures status { IfOk result (λ t. t.status ≡ status) }
{
    let mut errors = Vec::new(alloc);
    write_both(&mut errors, line.as_bytes(), b"\n")?;
    Ok(Told {
        threads: Vec::new(alloc),
        agents: Vec::new(alloc),
        output: Vec::new(alloc),
        errors,
        status,
    })
}

/// Appends what explains a line, where a file is named.
pub(crate) fn explain(
    errors: &mut Vec<u8>,
    script: Script<'_>,
    at: Option<Span>,
    advice: &str,
) -> Result<(), AllocError>
    ensures { OnOk result (errors.new.items ≡ errors.old.items ++ lesson_of (text_in script.entry.file) script.entry.text.now at (Some advice.now)) }
{
    match script.file {
        Some(file) => write_explained(errors, file, script.text, at, advice),
        None => Ok(()),
    }
}

/// Appends where a line ends with a place.
fn write_place(line: &mut Vec<u8>, at: Span) -> Result<(), AllocError>
    ensures { OnOk result (line.new.items ≡ line.old.items ++ at_place at) }
{
    write_number(line, b" at ", at.from as usize)?;
    write_number(line, b"..", at.to as usize)?;
    line.extend_from_slice(b"\n")
}

/// Appends the line of a refusal, and what explains it.
fn write_refusal(
    errors: &mut Vec<u8>,
    script: Script<'_>,
    refusal: &Refusal,
    advice: &str,
) -> Result<(), AllocError>
    ensures { OnOk result (errors.new.items ≡ (errors.old.items ++ refusal_line refusal.now.number refusal.now.name.now refusal.now.at) ++ lesson_of (text_in script.entry.file) script.entry.text.now (Some refusal.now.at) (Some advice.now)) }
{
    write_number(errors, b"refused ", refusal.number as usize)?;
    write_both(errors, b" ", refusal.name.as_bytes())?;
    write_place(errors, refusal.at)?;
    explain(errors, script, Some(refusal.at), advice)
}

/// Appends how a line begins.
fn write_front(line: &mut Vec<u8>, front: Front<'_>) -> Result<(), AllocError>
    ensures { OnOk result (line.new.items ≡ line.old.items ++ front_of front.entry) }
{
    match front {
        Front::Thread(k) => write_number(line, b"thread ", k as usize),
        Front::Agent(name) => write_both(line, b"agent ", name),
    }
}

/// The refusal of a script that isn't compiled, but for one for want of memory, of which the program tells otherwise.
fn refusal_of(error: &CompileError) -> Option<Refusal>
    ensures told { IfSome result (λ r. error.now ≢ Memory) }
    ensures line { IfSome result (λ r. refused_line error.now ≡ refusal_line r.number r.name.now r.at) }
    ensures place { IfSome result (λ r. refused_place error.now ≡ Some r.at) }
{
    match error {
        CompileError::Read(e) => Some(Refusal {
            number: e.kind.number(),
            name: e.kind.name(),
            at: e.at,
            advice: of_read(e.kind),
        }),
        CompileError::Resolve(e) => Some(Refusal {
            number: e.kind.number(),
            name: e.kind.name(),
            at: e.at,
            advice: of_resolve(e.kind),
        }),
        CompileError::Check(e) => Some(Refusal {
            number: e.kind.number(),
            name: e.kind.name(),
            at: e.at,
            advice: of_check(e.kind),
        }),
        CompileError::Memory => None,
    }
}

/// What to do about a refusal, by what is at its span in the script, where that is known.
fn advice_on(
    alloc: Global,
    text: &[u8],
    error: &CompileError,
) -> Result<Option<String>, AllocError> {
    match error {
        CompileError::Read(e) => on_read(alloc, text, *e),
        CompileError::Resolve(e) => on_resolve(alloc, text, *e),
        CompileError::Check(e) => on_check(alloc, text, *e),
        CompileError::Memory => Ok(None),
    }
}

/// What to do about a refusal: what is known by its span, else this, which is known by its kind. Where nothing is explained the script
/// isn't looked at.
fn advice_for(
    alloc: Global,
    script: Script<'_>,
    error: &CompileError,
    advice: &str,
) -> Result<String, AllocError> {
    if script.file.is_none() {
        return Ok(String::new(alloc));
    }
    match advice_on(alloc, script.text, error)? {
        Some(advice) => Ok(advice),
        None => String::from_str(alloc, advice),
    }
}

/// What is told of a script that isn't compiled.
pub fn refused(alloc: Global, script: Script<'_>, error: &CompileError) -> Result<Told, AllocError>
    requires { IsRefusal script.text.now error.now }
    ensures { IfOk result (λ t. ScriptRefused (script_of script.entry) (told_of t)) }
{
    let Some(refusal) = refusal_of(error) else {
        return Err(AllocError);
    };
    let Some(advice) = refusal.advice else {
        return Err(AllocError);
    };
    let sentence = advice_for(alloc, script, error, advice)?;
    let advice = sentence.as_str();
    let mut errors = Vec::new(alloc);
    write_refusal(&mut errors, script, &refusal, advice)?;
    Ok(Told {
        threads: Vec::new(alloc),
        agents: Vec::new(alloc),
        output: Vec::new(alloc),
        errors,
        status: REFUSED,
    })
}

/// The name under which a list of plays is explained, where lines are.
pub(crate) fn list_name<'a>(file: Option<&str>) -> Option<&'a str>
    ensures { text_in result ≡ list_name (text_in file.entry) }
{
    match file {
        Some(_) => Some("--turns"),
        None => None,
    }
}

/// Where the item stands that says no play, if its places are numbers of 32 bits.
pub(crate) fn list_place(wrong: WrongPlay) -> Option<Span>
    ensures { result ≡ list_place wrong }
{
    let to = wrong.from.checked_add(wrong.length)?;
    if to > u32::MAX as usize {
        return None;
    }
    Some(Span {
        from: wrong.from as u32,
        to: to as u32,
    })
}

/// What is told of a list of plays, which is written so, of which an item says none. Where a file is named, it is explained.
pub fn wrong_list(
    alloc: Global,
    turns: &str,
    file: Option<&str>,
    wrong: WrongPlay,
) -> Result<Told, AllocError>
    ensures { IfOk result (λ t. WrongListTells turns.now (text_in file.entry) wrong (told_of t)) }
{
    let list = Script {
        text: turns.as_bytes(),
        file: list_name(file),
    };
    let mut told = complaint(alloc, UNUSABLE, "wrong list")?;
    explain(&mut told.errors, list, list_place(wrong), OF_LIST)?;
    Ok(told)
}

/// What to do about a fault: what is known by its span, else what is known by its kind. Where nothing is explained the script isn't
/// looked at.
fn fault_advice(alloc: Global, script: Script<'_>, fault: Fault) -> Result<String, AllocError> {
    if script.file.is_none() {
        return Ok(String::new(alloc));
    }
    match on_fault(alloc, script.text, fault)? {
        Some(advice) => Ok(advice),
        None => String::from_str(alloc, of_fault(fault.kind)),
    }
}

/// Appends the line of one that failed, and what explains it.
fn write_failed(
    errors: &mut Vec<u8>,
    script: Script<'_>,
    front: Front<'_>,
    fault: Fault,
) -> Result<(), AllocError>
    ensures { OnOk result ((line : List ℕ) × IsLesson (script_of script.entry) (failed_line (front_of front.entry) fault) (Some fault.span) line × (errors.new.items ≡ errors.old.items ++ line)) }
{
    write_front(errors, front)?;
    write_both(errors, b" failed: ", fault.kind.name().as_bytes())?;
    write_place(errors, fault.span)?;
    let sentence = fault_advice(*errors.allocator(), script, fault)?;
    explain(errors, script, Some(fault.span), sentence.as_str())
}

/// Appends the line of one that was stopped there, and what explains it.
fn write_stopped(
    errors: &mut Vec<u8>,
    script: Script<'_>,
    front: Front<'_>,
    why: &[u8],
    at: Option<Span>,
    advice: &str,
) -> Result<(), AllocError>
    ensures { OnOk result ((line : List ℕ) × IsLesson (script_of script.entry) (stopped_line (front_of front.entry) why.now) at line × (errors.new.items ≡ errors.old.items ++ line)) }
{
    write_front(errors, front)?;
    write_both(errors, b" stopped: ", why)?;
    errors.extend_from_slice(b"\n")?;
    explain(errors, script, at, advice)
}

/// Appends the line that tells how a thread, an agent or an agent's actor ended, if there is one, and what explains it: with this place where it was stopped.
fn write_end(
    errors: &mut Vec<u8>,
    script: Script<'_>,
    front: Front<'_>,
    outcome: Outcome,
    at: Option<Span>,
) -> Result<(), AllocError>
    ensures { OnOk result ((line : List ℕ) × IsLesson (script_of script.entry) (end_line (front_of front.entry) outcome) (end_place outcome at) line × (errors.new.items ≡ errors.old.items ++ line)) }
{
    match outcome {
        Outcome::Done => Ok(()),
        Outcome::Failed(fault) => write_failed(errors, script, front, fault),
        Outcome::StepsSpent => { write_stopped(errors, script, front, b"StepsSpent", at, OF_STEPS) }
        Outcome::JournalFull => {
            write_stopped(errors, script, front, b"JournalFull", at, OF_JOURNAL)
        }
        Outcome::Memory => { write_stopped(errors, script, front, b"Memory", at, OF_MEMORY) }
    }
}

/// How one that ended so counts in the status.
fn status_of(outcome: Outcome) -> u8
    ensures { result ≡ status_of outcome }
{
    match outcome {
        Outcome::Done => DONE,
        Outcome::Failed(_) => FAILED,
        Outcome::StepsSpent | Outcome::JournalFull | Outcome::Memory => SPENT,
    }
}

/// Adds what is told of a thread, an agent or an agent's actor that ended so, and was stopped there, if it was, but for what it printed: its line, if there is one, and the status, where it is higher.
pub(crate) fn tell_end(
    told: &mut Told,
    script: Script<'_>,
    front: Front<'_>,
    outcome: Outcome,
    at: Option<Span>,
) -> Result<(), AllocError>
    ensures output { told.new.output.items ≡ told.old.output.items }
    ensures errors { OnOk result ((line : List ℕ) × IsLesson (script_of script.entry) (end_line (front_of front.entry) outcome) (end_place outcome at) line × (told.new.errors.items ≡ told.old.errors.items ++ line)) }
    ensures status { told.new.status ≡ max told.old.status (status_of outcome) }
{
    told.status = told.status.max(status_of(outcome));
    write_end(&mut told.errors, script, front, outcome, at)
}

/// How a thread ended; every thread of a run has. Of one that hasn't, nothing is told, as of one that is done.
pub(crate) fn how_ended(outcome: Option<Outcome>) -> Outcome
    ensures { result ≡ how_ended outcome }
{
    match outcome {
        Some(outcome) => outcome,
        None => Outcome::Done,
    }
}

/// Adds what is told of a thread that has run, but for what it printed: the line that tells how it ended, and the status, where it is higher.
fn add_thread(
    told: &mut Told,
    script: Script<'_>,
    k: u16,
    thread: &ActorReport,
) -> Result<(), AllocError>
    ensures output { told.new.output.items ≡ told.old.output.items }
    ensures errors { OnOk result ((line : List ℕ) × IsLesson (script_of script.entry) (end_line (thread_front k) (how_ended thread.now.outcome)) (end_place (how_ended thread.now.outcome) thread.now.place) line × (told.new.errors.items ≡ told.old.errors.items ++ line)) }
    ensures status { OnOk result (told.new.status ≡ max told.old.status (status_of (how_ended thread.now.outcome))) }
{
    tell_end(
        told,
        script,
        Front::Thread(k),
        how_ended(thread.outcome),
        thread.place,
    )
}

/// What is told of all threads that have run, in their order, but for what they printed: how each ended.
fn of_ends(alloc: Global, script: Script<'_>, report: &Entries) -> Result<Told, AllocError>
    requires few { length report.now.threads.items ≤ 64 }
    ensures output { IfOk result (λ t. t.output.items ≡ []) }
    ensures errors { IfOk result (λ t. AreLessons (script_of script.entry) 0 report.now.threads.items t.errors.items) }
    ensures status { IfOk result (λ t. t.status ≡ status_from 0 report.now.threads.items) }
{
    let mut told = answer(Vec::new(alloc), alloc);
    for (k, thread) in report.threads.iter().enumerate() {
        add_thread(&mut told, script, k as u16, thread)?;
    }
    Ok(told)
}

/// What is told of a run of no thread: where a file is named, that there is none.
fn of_none(alloc: Global, script: Script<'_>) -> Result<Told, AllocError>
    ensures output { IfOk result (λ t. t.output.items ≡ []) }
    ensures errors { IfOk result (λ t. (advice : List ℕ) × (t.errors.items ≡ lesson_of (text_in script.entry.file) script.entry.text.now None (Some advice))) }
    ensures status { IfOk result (λ t. t.status ≡ 0) }
{
    let mut told = answer(Vec::new(alloc), alloc);
    explain(&mut told.errors, script, None, OF_NONE)?;
    Ok(told)
}

/// What is told of all threads that have run, in their order, but for what they printed: how each ended, or where a file is named, that there is
/// none.
pub fn of_threads(alloc: Global, script: Script<'_>, report: &Entries) -> Result<Told, AllocError>
    requires few { length report.now.threads.items ≤ 64 }
    ensures output { IfOk result (λ t. t.output.items ≡ []) }
    ensures errors { IfOk result (λ t. AreThreadsTold (script_of script.entry) report.now.threads.items t.errors.items) }
    ensures status { IfOk result (λ t. t.status ≡ status_from 0 report.now.threads.items) }
{
    if report.threads.as_slice().is_empty() {
        return of_none(alloc, script);
    }
    of_ends(alloc, script, report)
}
