//! All outcomes of a script, with a picture of each where they are wanted.

ghost use Rattle.txs_cli_audit.specs.Audit.{IsRight};

use crate::files::{complain, explained_as, no_memory, read_input};
use crate::show::draw_to;
use std::alloc::{AllocError, Global};
use std::io;
use std::time::{Duration, Instant};
use txs_audit_book::{AuditError, Terms, Verdict};
use txs_cli_args::{Exploring, Request};
use txs_cli_explore::explore_run;
use txs_cli_report::told::{DONE, SPENT};
use txs_tree_meaning::Program;
use txs_world_protocol::Report;

/// Whether it is longer than a second since then. Where there is no clock, it isn't.
fn is_long(rt: &HostRuntime, start: &io::Result<Instant>) -> bool {
    let Ok(start) = start else {
        return false;
    };
    match start.elapsed(rt) {
        Ok(since) => since > Duration::from_secs(1),
        Err(_) => false,
    }
}

/// The name of the file in this folder that gets the picture of this outcome.
fn picture_name(alloc: Global, folder: &str, number: usize) -> Result<String, AllocError> {
    format!(in alloc; "{folder}/outcome-{number}.svg")
}

/// Writes the picture of the outcome with this number to the file for it in this folder. Answers the status.
fn draw_outcome(
    rt: &HostRuntime,
    request: &Request,
    text: &[u8],
    list: &[u8],
    steps: u64,
    folder: &str,
    number: usize,
) -> u8 {
    let Ok(list) = str::from_utf8(list) else {
        return complain(rt, b"show failed\n", SPENT);
    };
    match picture_name(rt.alloc(), folder, number) {
        Ok(name) => draw_to(rt, request, text, list, steps, name.as_str()),
        Err(_) => no_memory(rt),
    }
}

/// Writes a picture of each outcome, which are those of these lists of plays. Answers the highest status.
fn draw_all(
    rt: &HostRuntime,
    request: &Request,
    text: &[u8],
    lists: &[Vec<u8>],
    steps: u64,
    folder: &str,
) -> u8 {
    let mut status = DONE;
    for (i, list) in lists.iter().enumerate() {
        let number = i.saturating_add(1);
        let drawn = draw_outcome(rt, request, text, list.as_slice(), steps, folder, number);
        status = status.max(drawn);
    }
    status
}

/// Lists all outcomes of the request's file or of standard input, and writes their pictures to this folder, if one is named. Where that takes longer than
/// a second, it says on the standard error how far it is.
pub(crate) fn explore_on<
    A: Fn(Global, &Program, &Report, Terms, usize) -> Result<Verdict, AuditError>,
>(
    rt: &HostRuntime,
    auditor: &A,
    request: &Request,
    exploring: Exploring,
    folder: Option<&str>,
) -> u8
    requires audit { (a : _) (p : _) (r : _) (w : _) (n : _) → A.pre auditor.now a p r w n }
    requires right { (a : _) (p : _) (r : _) (w : _) (n : _) (v : _) → A.post auditor.now a p r w n v → IsRight p.now r.now w v }
{
    let bytes = match read_input(rt, request) {
        Ok(bytes) => bytes,
        Err(status) => return status,
    };
    let start = Instant::now(rt);
    let progress = |asks: u64, outcomes: usize| {
        if is_long(rt, &start) {
            let _ = eprintln!(rt; "requests: {asks}, outcomes so far: {outcomes}");
        }
    };
    let text = bytes.as_slice();
    let (status, lists) = explore_run(
        rt.alloc(),
        auditor,
        &progress,
        exploring,
        explained_as(request),
        &mut bytes.as_slice(),
        &mut io::writer(rt),
        &mut rt.stderr(),
    );
    match folder {
        Some(folder) => {
            let lists = lists.as_slice();
            status.max(draw_all(rt, request, text, lists, exploring.steps, folder))
        }
        None => status,
    }
}
