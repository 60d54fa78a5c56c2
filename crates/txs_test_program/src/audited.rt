// What is told of answers that an audit of a right run never has.
ghost use Rattle.std.specs.Prelude.{◌≡◌, ◌≤◌, ◌+◌, length, IfOk};
ghost use Rattle.txs_machine.specs.RunOver.{IsStateOf};
ghost use Rattle.txs_theorem_runs.specs.Shared.{untouched};
ghost use Rattle.txs_world_shared.specs.SharedState.{shared_of};

use std::alloc::{AllocError, Global};
use std::mem;
use txs_audit_book::{Terms, Verdict};
use txs_cli_audit::{Audited, add_answer};
use txs_cli_report::explain::Script;
use txs_cli_report::told::{Told, answer};
use txs_code_meaning::Verified;
use txs_compile::{CompileError, compile};
use txs_machine::{Report, SharedState, run_schedule};
use txs_tree_meaning::Program;
use txs_value_data::{CellId, CellKind, Listed, Value};
use txs_world_protocol::{Event, EventKind};

// Two threads and an agent: thread 0 commits, thread 1 sends.
const SCRIPT: &[u8] = b"(def g (agent 1))
(def r (ref 1))
(future (dosync (alter r + 10)))
(future (send g + 2))";

// The state of the code's cells, with empty books.
fn open_state(alloc: Global, code: &Verified) -> Result<SharedState, AllocError>
    requires few { length code.now.threads + length code.now.cells ≤ 65535 }
    ensures of { IfOk result (λ s. IsStateOf code.now s) }
    ensures unused { IfOk result (λ s. shared_of s ≡ untouched code.now.cells) }
{
    let code = code.code();
    SharedState::open(alloc, code.cells(), code.threads().len() as u16)
}

// The report of a run in rounds.
fn reported(alloc: Global, code: &Verified) -> Result<Report, CompileError>
    requires few { length code.now.threads + length code.now.cells ≤ 65535 }
{
    let mut shared = open_state(alloc, code)?;
    match run_schedule(alloc, code, &[], 1000, true, &mut shared) {
        Ok(entries) => Ok(entries.into_report(alloc, shared)?),
        Err(_) => {
            drop(shared);
            Err(CompileError::Memory)
        }
    }
}

// The program and the report of its run.
fn run(alloc: Global) -> Result<(Program, Report), CompileError> {
    let (program, code) = compile(alloc, SCRIPT)?;
    let report = reported(alloc, &code);
    drop(code);
    match report {
        Ok(report) => Ok((program, report)),
        Err(refused) => {
            drop(program);
            Err(refused)
        }
    }
}

// What is changed of a right report.
#[derive(Clone, Copy)]
enum Changed {
    Nothing,
    // The ref is 12, and no longer 11.
    Cell,
    // So it is, and the commit wrote it.
    Write,
    // The commit wrote nothing, and the ref is 1.
    NoWrite,
    // The action's new state is 4, and so is the agent.
    Act,
    // The first thread hasn't ended.
    Left,
}

// What a commit wrote is this, or nothing.
fn write(alloc: Global, kind: &mut EventKind, value: Option<i64>) -> Result<(), AllocError> {
    let mut all = Vec::new(alloc);
    if let Some(value) = value {
        let cell = CellId {
            kind: CellKind::Ref,
            number: 1,
        };
        all.push((cell, Value::Int(value)))?;
    }
    match kind {
        EventKind::Commit { writes, .. } => drop(mem::replace(writes, Listed::from_vec(all))),
        _ => drop(all),
    }
    Ok(())
}

// What the commit of a book wrote is this, or nothing.
fn write_all(alloc: Global, book: &mut Vec<Event>, value: Option<i64>) -> Result<(), AllocError> {
    for event in book.iter_mut() {
        write(alloc, &mut event.kind, value)?;
    }
    Ok(())
}

// The action of a book gave this state.
fn give(book: &mut Vec<Event>, state: i64) {
    for event in book.iter_mut() {
        if let EventKind::Act { new, .. } = &mut event.kind {
            drop(mem::replace(new, Ok(Value::Int(state))));
        }
    }
}

// The cell with this number has this value.
fn set(cells: &mut Vec<Value>, number: usize, value: i64) {
    if let Some(cell) = cells.get_mut(number) {
        *cell = Value::Int(value);
    }
}

// Changes a report.
fn change(alloc: Global, report: &mut Report, changed: Changed) -> Result<(), AllocError> {
    match changed {
        Changed::Nothing => {}
        Changed::Cell => set(&mut report.cells, 1, 12),
        Changed::Write => {
            set(&mut report.cells, 1, 12);
            write_all(alloc, &mut report.book, Some(12))?;
        }
        Changed::NoWrite => {
            set(&mut report.cells, 1, 1);
            write_all(alloc, &mut report.book, None)?;
        }
        Changed::Act => {
            set(&mut report.cells, 0, 4);
            give(&mut report.book, 4);
        }
        Changed::Left => {
            if let Some(ran) = report.threads.first_mut() {
                ran.outcome = None;
            }
        }
    }
    Ok(())
}

// What the run was to do.
const TERMS: Terms = Terms {
    finishes: true,
    steps: 1000,
};

// What is told of this answer on a report that is changed so, where lines are explained.
fn told_of(alloc: Global, changed: Changed, answered: Verdict) -> Result<Told, CompileError> {
    let (program, mut report) = run(alloc)?;
    change(alloc, &mut report, changed)?;
    let audited = Audited {
        program: &program,
        report: &report,
    };
    let script = Script {
        text: SCRIPT,
        file: Some("a.clj"),
    };
    let mut told = answer(Vec::new(alloc), alloc);
    add_answer(alloc, script, audited, TERMS, answered, &mut told)?;
    Ok(told)
}

// Whether this is told of the answer.
fn tells(alloc: Global, answered: Verdict, line: &str, errors: &str, status: u8) -> bool {
    match told_of(alloc, Changed::Nothing, answered) {
        Ok(told) => {
            told.output.as_slice() == line.as_bytes()
                && told.errors.as_slice() == errors.as_bytes()
                && told.status == status
        }
        Err(_) => false,
    }
}

// Of a commit.
const COMMIT: &str =
    "a.clj:3:1: What thread 0 did at its event 0 (index 2 of the journal, commit) isn't explained by the text. The run went wrong, or the report was changed.
(future (dosync (alter r + 10)))
^^^^^^^^^^^^^^^^^^^^^^^^^^^^^^^^
";

// Of an action.
const ACT: &str =
    "a.clj:4:9: What agent g did at its event 0 (index 1 of the journal, act) needs more turns of a loop than there are steps: give it more steps by `--steps N`.
(future (send g + 2))
        ^^^^^^^^^^^^
";

// Of a cell.
const CELL: &str =
    "a.clj:2:1: Cell r is 12; its journal leaves 11. The run went wrong, or the report was changed.\n";

// Of what a commit wrote.
const WROTE: &str =
    "a.clj:3:9: What thread 0 did at its event 0 (index 2 of the journal, commit) isn't explained by the text: it wrote r = 12; the text gives 11. The run went wrong, or the report was changed.\n";

const WROTE_NOTHING: &str =
    "a.clj:3:9: What thread 0 did at its event 0 (index 2 of the journal, commit) isn't explained by the text: it wrote r";

// Of what an action gave.
const GAVE: &str =
    "a.clj:4:9: What agent g did at its event 0 (index 1 of the journal, act) isn't explained by the text: it came to 4; the text gives 3. The run went wrong, or the report was changed.\n";

// Of a thread.
const LEFT: &str =
    "a.clj:3:1: What thread 0 did behind its only event isn't explained by the text: it has something to do, and the run went on to its end. The run went wrong, or the report was changed.\n";

#[test]
fn an_audit_may_differ(rt: HostRuntime) {
    let differs = Verdict::Differs { actor: 0, event: 0 };
    assert!(rt; tells(rt.alloc(), differs, "audit differs 0 0\n", COMMIT, 4));
}

#[test]
fn an_audit_may_be_undecided(rt: HostRuntime) {
    let undecided = Verdict::Undecided { actor: 2, event: 0 };
    assert!(rt; tells(rt.alloc(), undecided, "audit undecided 2 0\n", ACT, 0));
}

// Whether the sentence of a changed report, in which an audit differs at this event, begins so.
fn says(alloc: Global, changed: Changed, actor: u16, event: usize, sentence: &str) -> bool {
    match told_of(alloc, changed, Verdict::Differs { actor, event }) {
        Ok(told) => told.errors.as_slice().starts_with(sentence.as_bytes()),
        Err(_) => false,
    }
}

#[test]
fn a_wrong_cell_is_named(rt: HostRuntime) {
    let alloc = rt.alloc();
    assert!(rt; says(alloc, Changed::Cell, 0, 1, CELL));
}

#[test]
fn what_a_commit_wrote_is_named(rt: HostRuntime) {
    let alloc = rt.alloc();
    assert!(rt; says(alloc, Changed::Write, 0, 0, WROTE));
    assert!(rt; says(alloc, Changed::NoWrite, 0, 0, WROTE_NOTHING));
}

#[test]
fn what_an_action_gave_is_named(rt: HostRuntime) {
    let alloc = rt.alloc();
    assert!(rt; says(alloc, Changed::Act, 2, 0, GAVE));
}

#[test]
fn a_thread_that_has_not_ended_is_named(rt: HostRuntime) {
    let alloc = rt.alloc();
    assert!(rt; says(alloc, Changed::Left, 0, 1, LEFT));
}
