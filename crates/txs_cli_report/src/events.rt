//! The lines that tell of a book's events.

ghost use Rattle.std.specs.Prelude.{◌≡◌, ◌≤◌, ◌++◌, length, OnErr, OnOk};
ghost use Rattle.txs_cli_report.specs.EventLines.{event_name, event_line, event_lines};
ghost use Rattle.txs_value_data.specs.Limits.{most_events};
ghost use Rattle.txs_value_data.specs.Printed.{Extends};

use crate::text::{write_both, write_number};
use std::alloc::AllocError;
use txs_world_protocol::{Event, EventKind};

/// The word for what an actor did.
pub fn name_of(kind: &EventKind) -> &'static str
    ensures { result.now ≡ event_name kind.now }
{
    match kind {
        EventKind::Read { .. } => "read",
        EventKind::Commit { .. } => "commit",
        EventKind::Retry { .. } => "retry",
        EventKind::Fail { .. } => "fail",
        EventKind::Refused { .. } => "refused",
        EventKind::Send { .. } => "send",
        EventKind::SendRefused { .. } => "send-refused",
        EventKind::Act { .. } => "act",
        EventKind::Swap { .. } => "swap",
        EventKind::Broke { .. } => "broke",
    }
}

/// Appends the line of an event: its place in the book, its actor, and what that did.
fn write_event(output: &mut Vec<u8>, place: u32, event: &Event) -> Result<(), AllocError>
    ensures ok { OnOk result (output.new.items ≡ output.old.items ++ event_line place event.now) }
    ensures kept { Extends output.old.items output.new.items }
{
    write_number(output, b"", place as usize)?;
    write_number(output, b" ", usize::from(event.actor))?;
    write_both(output, b" ", name_of(&event.kind).as_bytes())?;
    output.extend_from_slice(b"\n")
}

/// Appends the lines of events.
#[tactic(auto, unfolding(txs_value_data::specs::Limits::most_events))]
fn append_events(output: &mut Vec<u8>, events: &[Event]) -> Result<(), AllocError>
    requires { length events.now ≤ most_events }
    ensures ok { OnOk result (output.new.items ≡ output.old.items ++ event_lines 0 events.now) }
    ensures kept { Extends output.old.items output.new.items }
{
    for (place, event) in events.iter().enumerate() {
        write_event(output, place as u32, event)?;
    }
    Ok(())
}

/// Appends a line for each event of a book, in their order. After an error nothing is appended.
pub fn write_events(output: &mut Vec<u8>, events: &[Event]) -> Result<(), AllocError>
    requires { length events.now ≤ most_events }
    ensures ok { OnOk result (output.new.items ≡ output.old.items ++ event_lines 0 events.now) }
    ensures err { OnErr result (output.new.items ≡ output.old.items) }
{
    let length = output.len();
    let done = append_events(output, events);
    if done.is_err() {
        output.truncate(length);
    }
    done
}
