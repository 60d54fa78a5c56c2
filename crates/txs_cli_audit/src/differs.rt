//! What differs, in words: what the report says, and what the text gives or the journals leave.

use crate::event::{push_name, push_number, write_book};
use std::alloc::{AllocError, Global};
use std::str;
use txs_audit_difference::{Difference, What};
use txs_reader::is_escaped;
use txs_tree_meaning::Program;
use txs_value_cell::Action;
use txs_value_data::print::write_text;
use txs_value_data::{CellId, Fault, Listed, Span, Value};
use txs_world_protocol::Outcome;

/// How many bytes of a value or of a line are shown at most.
const MOST: usize = 120;

/// Whether each character of a text can be seen.
fn is_shown(text: &str) -> bool {
    text.chars().all(|c| !is_escaped(c))
}

/// Appends how long a text is, in the place of the text.
fn push_length(text: &mut String, length: usize) -> Result<(), AllocError> {
    push_number(text, "a text of ", length)?;
    text.push_str(" bytes")
}

/// Appends bytes as text: the first of them, where there are many. Of bytes that can't be seen it tells how many there are.
fn push_bytes(text: &mut String, bytes: &[u8]) -> Result<(), AllocError> {
    let length = bytes.len();
    let Ok(part) = str::from_utf8(&bytes[..length.min(MOST)]) else {
        return push_length(text, length);
    };
    if !is_shown(part) {
        return push_length(text, length);
    }
    text.push_str(part)?;
    if length > MOST {
        return text.push_str(" ..");
    }
    Ok(())
}

/// Appends a value as `println` writes it.
fn push_value(alloc: Global, text: &mut String, value: &Value) -> Result<(), AllocError> {
    let mut bytes = Vec::new(alloc);
    write_text(value, &mut bytes)?;
    push_bytes(text, bytes.as_slice())
}

/// Appends a word, and a cell's name behind it.
fn push_cell(
    text: &mut String,
    program: &Program,
    word: &str,
    cell: CellId,
) -> Result<(), AllocError> {
    let name = match program.cells().get(usize::from(cell.number)) {
        Some(defined) => str::from_utf8(defined.name.as_bytes()).ok(),
        None => None,
    };
    match name {
        Some(name) => push_name(text, word, name),
        None => {
            text.push_str(word)?;
            push_number(text, "cell ", usize::from(cell.number))
        }
    }
}

/// Appends an action: its agent, and what it is sent with.
fn push_action(
    alloc: Global,
    text: &mut String,
    program: &Program,
    action: &Action,
) -> Result<(), AllocError> {
    push_cell(text, program, "an action to ", action.agent)?;
    for (i, value) in action.args.as_slice().iter().enumerate() {
        text.push_str(if i == 0 { " with " } else { " " })?;
        push_value(alloc, text, value)?;
    }
    Ok(())
}

/// Appends how an actor ended.
fn push_outcome(text: &mut String, outcome: Option<Outcome>) -> Result<(), AllocError> {
    match outcome {
        Some(Outcome::Done) => text.push_str("done"),
        Some(Outcome::Failed(fault)) => push_name(text, "failed with ", fault.kind.name()),
        Some(Outcome::StepsSpent) => text.push_str("stopped for its steps"),
        Some(Outcome::JournalFull) => text.push_str("stopped for a full journal"),
        Some(Outcome::Memory) => text.push_str("stopped for memory"),
        None => text.push_str("not at its end"),
    }
}

/// Appends how an agent has failed, if it has.
fn push_failure(text: &mut String, fault: Option<Fault>) -> Result<(), AllocError> {
    match fault {
        Some(fault) => push_name(text, "has failed with ", fault.kind.name()),
        None => text.push_str("hasn't failed"),
    }
}

/// Appends a printed line.
fn push_line(text: &mut String, line: &Listed<u8>) -> Result<(), AllocError> {
    text.push_str("`")?;
    push_bytes(text, line.as_slice())?;
    text.push_str("`")
}

/// Appends which line it printed otherwise, the first of which has number 0 here and 1 in the sentence.
fn push_lines(
    text: &mut String,
    number: usize,
    expected: Option<&Listed<u8>>,
    found: Option<&Listed<u8>>,
) -> Result<(), AllocError> {
    push_number(text, "line ", number.saturating_add(1))?;
    match found {
        Some(line) => {
            text.push_str(" that it printed is ")?;
            push_line(text, line)?;
        }
        None => text.push_str(" wasn't printed")?,
    }
    match expected {
        Some(line) => {
            text.push_str("; the text gives ")?;
            push_line(text, line)
        }
        None => text.push_str("; the text gives none"),
    }
}

/// Appends what a transaction wrote to a ref.
fn push_written(
    alloc: Global,
    text: &mut String,
    expected: Option<&Value>,
    found: Option<&Value>,
) -> Result<(), AllocError> {
    match found {
        Some(value) => {
            text.push_str(" = ")?;
            push_value(alloc, text, value)?;
        }
        None => text.push_str(" not at all")?,
    }
    match expected {
        Some(value) => {
            text.push_str("; the text gives ")?;
            push_value(alloc, text, value)
        }
        None => text.push_str("; the text doesn't write it"),
    }
}

/// Appends what was sent.
fn push_sent(
    alloc: Global,
    text: &mut String,
    program: &Program,
    expected: Option<&Action>,
    found: Option<&Action>,
) -> Result<(), AllocError> {
    match found {
        Some(action) => push_action(alloc, text, program, action)?,
        None => text.push_str("nothing")?,
    }
    match expected {
        Some(action) => {
            text.push_str("; the text gives ")?;
            push_action(alloc, text, program, action)
        }
        None => text.push_str("; the text sends no more"),
    }
}

/// Appends what an action came to.
fn push_result(
    alloc: Global,
    text: &mut String,
    new: &Result<Value, Fault>,
) -> Result<(), AllocError> {
    match new {
        Ok(value) => push_value(alloc, text, value),
        Err(fault) => push_name(text, "the fault ", fault.kind.name()),
    }
}

/// Appends why a stop for a full journal isn't true.
fn push_full(
    text: &mut String,
    program: &Program,
    book: Option<usize>,
    events: usize,
) -> Result<(), AllocError> {
    text.push_str("it was stopped for a full journal, but needs ")?;
    match book {
        Some(book) => {
            text.push_str("an event")?;
            write_book(text, program, book)?;
            push_number(text, ", which has ", events)?;
            text.push_str(" and isn't full")
        }
        None => text.push_str("no event"),
    }
}

/// Appends for which agent a transaction was refused.
fn push_refusal(
    text: &mut String,
    program: &Program,
    expected: Option<CellId>,
    found: CellId,
) -> Result<(), AllocError> {
    push_cell(text, program, "it was refused for ", found)?;
    match expected {
        Some(agent) => push_cell(
            text,
            program,
            "; the first of its sends to a failed agent is to ",
            agent,
        ),
        None => text.push_str("; none of its sends is to a failed agent"),
    }
}

/// Appends what a transaction's commit, or its retry, has wrong.
fn push_transaction(
    alloc: Global,
    text: &mut String,
    program: &Program,
    what: &What,
) -> Result<(), AllocError> {
    match what {
        What::Wrote {
            cell,
            expected,
            found,
            ..
        } => {
            push_cell(text, program, "it wrote ", *cell)?;
            push_written(alloc, text, expected.as_ref(), found.as_ref())
        }
        What::Sends {
            number,
            expected,
            found,
            ..
        } => {
            push_number(text, "its send ", number.saturating_add(1))?;
            text.push_str(" is ")?;
            push_sent(alloc, text, program, expected.as_ref(), found.as_ref())
        }
        What::Disturbed { cell, set, by, .. } => {
            push_cell(text, program, "", *cell)?;
            text.push_str(if *set {
                ", which it set,"
            } else {
                ", which it ensured,"
            })?;
            push_number(text, " was written by event ", *by)?;
            text.push_str(" of the journal, behind its read point")
        }
        What::Refusal {
            expected,
            found,
            ..
        } => push_refusal(text, program, *expected, *found),
        What::Cause { cell, .. } => {
            push_cell(text, program, "it ran again for ", *cell)?;
            text.push_str(", which it doesn't set, ensure, commute or read so")
        }
        What::NoFault { .. } => text.push_str("the text doesn't fault there"),
        What::Dosync { .. } => text.push_str("the text's next event is the end of a `dosync`"),
        _ => text.push_str("the text's next event is another one"),
    }
}

/// Appends what an actor's end, or its output, has wrong.
fn push_end(
    alloc: Global,
    text: &mut String,
    program: &Program,
    what: &What,
) -> Result<(), AllocError> {
    match what {
        What::Left => text.push_str("it has something to do, and the run went on to its end"),
        What::Steps { expected, found } => {
            push_steps(text, "it was stopped for its steps after ", *found)?;
            push_steps(text, ", and may make ", *expected)
        }
        What::NotFull { book, events } => push_full(text, program, *book, *events),
        What::Line {
            number,
            expected,
            found,
        } => push_lines(text, *number, expected.as_ref(), found.as_ref()),
        What::Ended { expected, found } => {
            text.push_str("it is ")?;
            push_outcome(text, *found)?;
            text.push_str("; by the text it is ")?;
            push_outcome(text, *expected)
        }
        What::Over { ended } => {
            text.push_str("by the text it is over before, and ")?;
            push_outcome(text, Some(*ended))
        }
        What::Gave { expected, found } => {
            text.push_str("it came to ")?;
            push_result(alloc, text, found)?;
            text.push_str("; the text gives ")?;
            push_result(alloc, text, expected)
        }
        What::Unfinished => text.push_str("by the text the action isn't over there"),
        What::Idle => text.push_str("no action waits"),
        _ => push_transaction(alloc, text, program, what),
    }
}

/// Appends a word and a number of steps.
fn push_steps(text: &mut String, word: &str, steps: u64) -> Result<(), AllocError> {
    let mut buffer = itoa::Buffer::new();
    text.push_str(word)?;
    text.push_str(buffer.format(steps))
}

/// Appends what is wrong at an event, or behind all events of an actor.
pub(crate) fn push_what(
    alloc: Global,
    text: &mut String,
    program: &Program,
    what: &What,
) -> Result<(), AllocError> {
    match what {
        What::Sizes => {
            text.push_str("the report doesn't have one entry for each thread, agent, atom and cell")
        }
        What::Trace => text.push_str("its trace doesn't name its events of each journal in order"),
        What::Order => text.push_str("it would have to come before itself"),
        What::Illegal { book, at } => {
            push_number(text, "event ", *at)?;
            write_book(text, program, *book)?;
            text.push_str(" may not come behind those before it")
        }
        What::Faults { fault } => {
            push_name(text, "the text faults there with ", fault.kind.name())
        }
        What::Sent { .. } => text.push_str("by the text another action is sent there"),
        What::Event { book: Some(book) } => {
            text.push_str("the text's next event is another one")?;
            write_book(text, program, *book)
        }
        _ => push_end(alloc, text, program, what),
    }
}

/// Appends what is wrong of a cell, where it is one that differs: what its value is and what its journal leaves, or how an agent has failed.
/// Whether it is.
pub(crate) fn push_left(
    alloc: Global,
    text: &mut String,
    program: &Program,
    what: &What,
) -> Result<bool, AllocError> {
    match what {
        What::Cell {
            cell,
            expected,
            found,
        } => {
            push_cell(text, program, "Cell ", *cell)?;
            text.push_str(" is ")?;
            push_value(alloc, text, found)?;
            text.push_str("; its journal leaves ")?;
            push_value(alloc, text, expected)?;
            Ok(true)
        }
        What::Failure {
            agent,
            expected,
            found,
        } => {
            push_cell(text, program, "Agent ", *agent)?;
            text.push_str(" ")?;
            push_failure(text, *found)?;
            text.push_str("; by the journal it ")?;
            push_failure(text, *expected)?;
            Ok(true)
        }
        _ => Ok(false),
    }
}

/// The place of a cell's definition, or of its validator.
fn place_of_cell(program: &Program, cell: CellId) -> Option<Span> {
    Some(*program.validator_spans().get(usize::from(cell.number))?)
}

/// The form of the text that is shown for what differs, if that says one.
pub(crate) fn form_of(program: &Program, difference: &Difference) -> Option<Span> {
    match &difference.what {
        What::Cell { cell, .. } => place_of_cell(program, *cell),
        What::Failure { agent, .. } => place_of_cell(program, *agent),
        What::Wrote { span, .. }
        | What::Sends { span, .. }
        | What::Disturbed { span, .. }
        | What::Refusal { span, .. }
        | What::Cause { span, .. }
        | What::NoFault { span }
        | What::Dosync { span }
        | What::Sent { span } => Some(*span),
        What::Faults { fault } => Some(fault.span),
        _ => difference.action,
    }
}
