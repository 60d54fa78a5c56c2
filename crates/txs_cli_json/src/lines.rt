//! The lines of a whole run, of a script that compiles, of a problem, and of the end.

ghost use Rattle.std.specs.Prelude.{◌≡◌, ◌++◌, length, OnErr, OnOk};
ghost use Rattle.txs_cli_json.specs.Cells.{AddsCells};
ghost use Rattle.txs_cli_json.specs.Json.{AddsLines, run_kinds, end_line, ok_line, problem_line};

use crate::run::add_lines;
use crate::spans::Line;
use std::alloc::{AllocError, Global};
use txs_cli_events::Replayed;
use txs_cli_report::explain::Script;

/// Appends a line for each thread, agent, cell and event of a run, in this order. After an error nothing is appended.
pub fn add_run(
    alloc: Global,
    out: &mut Vec<u8>,
    script: Script<'_>,
    run: Replayed<'_>,
) -> Result<(), AllocError>
    ensures cells { OnOk result (AddsCells run.entry.cells.now run.entry.report.now.cells.items out.old.items out.new.items) }
    ensures ok { OnOk result (AddsLines (run_kinds run.entry.report.now (length run.entry.notes.now)) out.old.items out.new.items) }
    ensures err { OnErr result (out.new.items ≡ out.old.items) }
{
    let length = out.len();
    let done = add_lines(alloc, out, script, run);
    if done.is_err() {
        out.truncate(length);
    }
    done
}

/// Appends the line of a script that compiles, where nothing runs. After an error nothing is appended.
pub fn add_ok(alloc: Global, out: &mut Vec<u8>) -> Result<(), AllocError>
    ensures ok { OnOk result (out.new.items ≡ out.old.items ++ ok_line) }
    ensures err { OnErr result (out.new.items ≡ out.old.items) }
{
    Line::new(alloc).write(out, "ok")
}

/// Appends the line of a problem that no part of a report tells, as `run failed: NoThread`. After an error nothing is appended.
pub fn add_problem(alloc: Global, out: &mut Vec<u8>, line: &str) -> Result<(), AllocError>
    ensures ok { OnOk result (out.new.items ≡ out.old.items ++ problem_line line.now) }
    ensures err { OnErr result (out.new.items ≡ out.old.items) }
{
    let mut problem = Line::new(alloc);
    problem.put_text("message", line)?;
    problem.write(out, "problem")
}

/// Appends the last line: the status. After an error nothing is appended.
pub fn add_end(alloc: Global, out: &mut Vec<u8>, status: u8) -> Result<(), AllocError>
    ensures ok { OnOk result (out.new.items ≡ out.old.items ++ end_line status) }
    ensures err { OnErr result (out.new.items ≡ out.old.items) }
{
    let mut end = Line::new(alloc);
    end.put_number("status", status as u64)?;
    end.write(out, "end")
}
