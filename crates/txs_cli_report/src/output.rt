//! Writes what is told: the standard output, and then the standard error.

ghost use Rattle.std.specs.Io.KnownBytes.{Appends};
ghost use Rattle.std.specs.Prelude.{◌++◌, codes, OnErr, OnOk};
ghost use Rattle.txs_cli_report.specs.Lent.{answer_of};
ghost use Rattle.txs_cli_report.specs.Lines.{all_printed};
ghost use Rattle.txs_cli_report.specs.Told.{HasErrors, IsBegun, LacksErrors, Written};

use crate::streams::{WriteFault, write_bytes, write_piece};
use crate::told::{SPENT, Told, UNUSABLE};
use std::alloc::AllocError;
use std::io::Write;
use txs_world_protocol::ActorReport;

/// Writes the standard error where the standard output couldn't be written, and behind it a line that says so.
fn write_fault<F: Write>(faults: &mut F, errors: &[u8]) -> Result<(), WriteFault>
    ensures whole { OnOk result (Appends (F.contents faults.old) (F.contents faults.new) (errors.now ++ codes "write failed\n")) }
    ensures begun { OnErr result (IsBegun (F.contents faults.old) (F.contents faults.new) (errors.now ++ codes "write failed\n")) }
{
    write_bytes(faults, errors)?;
    write_bytes(faults, b"write failed\n")
}

/// Writes what these actors printed, in their order and nothing else. The writer isn't flushed.
fn write_printed<W: Write>(writer: &mut W, actors: &[ActorReport]) -> Result<(), WriteFault>
    ensures whole { OnOk result (Appends (W.contents writer.old) (W.contents writer.new) (all_printed actors.now)) }
    ensures begun { OnErr result (IsBegun (W.contents writer.old) (W.contents writer.new) (all_printed actors.now)) }
{
    for actor in actors {
        write_piece(writer, actor.printed.as_slice())?;
    }
    Ok(())
}

/// Writes the standard output: what threads printed, in their order, then what agents printed, and these lines behind it.
fn write_output<W: Write>(
    writer: &mut W,
    threads: &[ActorReport],
    agents: &[ActorReport],
    lines: &[u8],
) -> Result<(), WriteFault>
    ensures whole { OnOk result (Appends (W.contents writer.old) (W.contents writer.new) (all_printed (threads.now ++ agents.now) ++ lines.now)) }
    ensures begun { OnErr result (IsBegun (W.contents writer.old) (W.contents writer.new) (all_printed (threads.now ++ agents.now) ++ lines.now)) }
{
    write_printed(writer, threads)?;
    write_printed(writer, agents)?;
    write_bytes(writer, lines)
}

/// Writes the standard output, which begins with what threads and agents printed, and then the standard error. Answers the status, which is 2 at least
/// where one of them couldn't be written; and whether the standard error was, of which only a write that failed says that it wasn't.
fn write_streams<W: Write, F: Write>(
    threads: &[ActorReport],
    agents: &[ActorReport],
    output: &[u8],
    errors: &[u8],
    status: u8,
    writer: &mut W,
    faults: &mut F,
) -> (u8, Result<(), WriteFault>)
    ensures whole { OnOk result.1 (HasErrors (W.contents writer.old) (W.contents writer.new) (F.contents faults.old) (F.contents faults.new) (record { output = all_printed (threads.now ++ agents.now) ++ output.now; errors = errors.now; status = status }) result.0) }
    ensures cut { OnErr result.1 (LacksErrors (W.contents writer.old) (W.contents writer.new) (F.contents faults.old) (F.contents faults.new) (record { output = all_printed (threads.now ++ agents.now) ++ output.now; errors = errors.now; status = status }) result.0) }
{
    if write_output(writer, threads, agents, output).is_err() {
        let told = write_fault(faults, errors);
        return (status.max(UNUSABLE), told);
    }
    match write_bytes(faults, errors) {
        Ok(()) => (status, Ok(())),
        Err(fault) => (status.max(UNUSABLE), Err(fault)),
    }
}

/// Writes the standard output, which begins with what threads and agents printed, and then the standard error. Answers the status, which is 2 at least
/// where one of them couldn't be written.
fn write_whole<W: Write, F: Write>(
    threads: &[ActorReport],
    agents: &[ActorReport],
    output: &[u8],
    errors: &[u8],
    status: u8,
    writer: &mut W,
    faults: &mut F,
) -> u8
    ensures { Written (W.contents writer.old) (W.contents writer.new) (F.contents faults.old) (F.contents faults.new) (record { output = all_printed (threads.now ++ agents.now) ++ output.now; errors = errors.now; status = status }) result }
{
    let ended = write_streams(threads, agents, output, errors, status, writer, faults);
    ended.0
}

/// Writes the standard output, and then the standard error. Answers the status, which is 2 at least where one of them
/// couldn't be written.
pub fn write_told<W: Write, F: Write>(
    output: &[u8],
    errors: &[u8],
    status: u8,
    writer: &mut W,
    faults: &mut F,
) -> u8
    ensures { Written (W.contents writer.old) (W.contents writer.new) (F.contents faults.old) (F.contents faults.new) (record { output = output.now; errors = errors.now; status = status }) result }
{
    write_whole(&[], &[], output, errors, status, writer, faults)
}

/// Writes what is told, or that there was no memory for it. Answers the status.
pub fn write_answer<W: Write, F: Write>(
    told: Result<Told, AllocError>,
    writer: &mut W,
    faults: &mut F,
) -> u8
    ensures { Written (W.contents writer.old) (W.contents writer.new) (F.contents faults.old) (F.contents faults.new) (answer_of told) result }
{
    match told {
        Ok(told) => write_whole(
            told.threads.as_slice(),
            told.agents.as_slice(),
            told.output.as_slice(),
            told.errors.as_slice(),
            told.status,
            writer,
            faults,
        ),
        Err(_) => write_told(&[], b"out of memory\n", SPENT, writer, faults),
    }
}
