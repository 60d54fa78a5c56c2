//! A run by workers that is recorded in a file.

use crate::files::{complain, covers_source, explained_as, no_memory, read_input, write_to};
use std::io;
use std::sync::Wait;
use std::thread::Threads;
use txs_cli::{Record, record_by_workers};
use txs_cli_args::{Request, RunOptions};
use txs_cli_report::told::{SPENT, UNUSABLE};

/// Writes a list of plays, with a line's end behind it. Answers the status.
fn write_list(rt: &HostRuntime, request: &Request, out: &str, list: String) -> u8 {
    let mut line = list;
    if line.push_str("\n").is_err() {
        return no_memory(rt);
    }
    write_to(rt, request, out, line.as_bytes(), "the list")
}

/// Writes the list of a run that was recorded, or says that there is none. A run that didn't happen has none, and its status says why.
fn write_record(rt: &HostRuntime, request: &Request, out: &str, status: u8, record: Record) -> u8 {
    match record {
        Record::NoRun => status,
        Record::NoList => status.max(complain(rt, b"record failed\n", SPENT)),
        Record::List(list) => status.max(write_list(rt, request, out, list)),
    }
}

/// Runs the request's file or standard input by so many workers, and writes the list of the run to the file of this name.
pub(crate) fn record_to<T: Threads + Wait + Sync>(
    rt: &HostRuntime,
    threads: &T,
    request: &Request,
    workers: u64,
    options: RunOptions,
    out: &str,
) -> u8 {
    if covers_source(rt, request, out) {
        return complain(
            rt,
            b"error: the file of --record is the script itself\n",
            UNUSABLE,
        );
    }
    let bytes = match read_input(rt, request) {
        Ok(bytes) => bytes,
        Err(status) => return status,
    };
    let (status, record) = record_by_workers(
        threads,
        rt.alloc(),
        workers as usize,
        options,
        explained_as(request),
        &mut bytes.as_slice(),
        &mut io::writer(rt),
        &mut rt.stderr(),
    );
    write_record(rt, request, out, status, record)
}
