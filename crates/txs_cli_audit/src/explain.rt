//! What explains an answer: the form of the text, and which event it is.

ghost use Rattle.std.specs.Prelude.{◌≡◌, ◌++◌, ℕ, List, Option, Some, OnOk};
ghost use Rattle.txs_audit_book.specs.Answered.{as_verdict};
ghost use Rattle.txs_cli_audit.specs.Audit.{LessonOf};
ghost use Rattle.txs_cli_report.specs.Lent.{script_of, text_in};
ghost use Rattle.txs_cli_report.specs.Lines.{lesson_of};
ghost use Rattle.txs_value_data.specs.declared.fault.Span.{Span as PlainSpan};

use crate::differs;
use crate::event::{EventAt, form_of, write_actor, write_event};
use std::alloc::{AllocError, Global};
use txs_audit_book::{Terms, Verdict};
use txs_audit_difference::{Difference, difference};
use txs_cli_report::explain::{Script, write_explained};
use txs_tree_meaning::Program;
use txs_value_data::Span;
use txs_world_protocol::Report;

/// What is audited: a report, against a program.
#[derive(Clone, Copy)]
pub struct Audited<'a> {
    pub program: &'a Program,
    pub report: &'a Report,
}

/// What is said of an event that the text doesn't explain.
const DIFFERS: &str = " isn't explained by the text";

/// What a difference means.
const MEANS: &str = ". The run went wrong, or the report was changed.";

/// What is said of an event that needs more turns.
const UNDECIDED: &str =
    " needs more turns of a loop than there are steps: give it more steps by `--steps N`.";

/// The sentence of an event, which ends so.
fn sentence_of(
    alloc: Global,
    audited: Audited<'_>,
    at: EventAt,
    end: &str,
) -> Result<String, AllocError> {
    let mut text = String::new(alloc);
    text.push_str("What ")?;
    write_actor(&mut text, audited, at.actor)?;
    text.push_str(" did")?;
    write_event(&mut text, audited, at)?;
    text.push_str(end)?;
    Ok(text)
}

/// The sentence of what differs at an event: a cell, or what the text explains otherwise.
fn sentence_of_difference(
    alloc: Global,
    audited: Audited<'_>,
    at: EventAt,
    found: &Option<Difference>,
) -> Result<String, AllocError> {
    let Some(difference) = found else {
        let mut text = sentence_of(alloc, audited, at, DIFFERS)?;
        text.push_str(MEANS)?;
        return Ok(text);
    };
    let mut text = String::new(alloc);
    if !differs::push_left(alloc, &mut text, audited.program, &difference.what)? {
        text = sentence_of(alloc, audited, at, DIFFERS)?;
        text.push_str(": ")?;
        differs::push_what(alloc, &mut text, audited.program, &difference.what)?;
    }
    text.push_str(MEANS)?;
    Ok(text)
}

/// The form of the text that is shown: that of what differs, where it says one, else that of the event.
fn form_of_difference(
    audited: Audited<'_>,
    at: EventAt,
    found: &Option<Difference>,
) -> Option<Span> {
    match found {
        Some(difference) => match differs::form_of(audited.program, difference) {
            Some(span) => Some(span),
            None => form_of(audited, at),
        },
        None => form_of(audited, at),
    }
}

/// The sentence of what differs in a report at an event, and the form of the text that is shown.
fn what_differs(
    alloc: Global,
    audited: Audited<'_>,
    terms: Terms,
    at: EventAt,
) -> Result<(String, Option<Span>), AllocError> {
    let found = difference(alloc, audited.program, audited.report, terms, terms.turns())?;
    let sentence = sentence_of_difference(alloc, audited, at, &found)?;
    let form = form_of_difference(audited, at, &found);
    Ok((sentence, form))
}

/// Appends what explains a report that differs, where a file is named.
fn explain_difference(
    alloc: Global,
    errors: &mut Vec<u8>,
    script: Script<'_>,
    audited: Audited<'_>,
    terms: Terms,
    at: EventAt,
) -> Result<(), AllocError>
    ensures { OnOk result ((form : Option PlainSpan) × (sentence : List ℕ) × (errors.new.items ≡ errors.old.items ++ lesson_of (text_in script.entry.file) script.entry.text.now form (Some sentence))) }
{
    let Some(file) = script.file else {
        return Ok(());
    };
    let (sentence, form) = what_differs(alloc, audited, terms, at)?;
    write_explained(errors, file, script.text, form, sentence.as_str())
}

/// Appends what explains an event that needs more turns, where a file is named.
fn explain_undecided(
    alloc: Global,
    errors: &mut Vec<u8>,
    script: Script<'_>,
    audited: Audited<'_>,
    at: EventAt,
) -> Result<(), AllocError>
    ensures { OnOk result ((form : Option PlainSpan) × (sentence : List ℕ) × (errors.new.items ≡ errors.old.items ++ lesson_of (text_in script.entry.file) script.entry.text.now form (Some sentence))) }
{
    let Some(file) = script.file else {
        return Ok(());
    };
    let sentence = sentence_of(alloc, audited, at, UNDECIDED)?;
    write_explained(
        errors,
        file,
        script.text,
        form_of(audited, at),
        sentence.as_str(),
    )
}

/// The sentence that explains an answer, and the form of the text that is shown, if there is one. Of an answer that agrees there is none.
pub fn reason_of(
    alloc: Global,
    audited: Audited<'_>,
    terms: Terms,
    answer: Verdict,
) -> Result<Option<(String, Option<Span>)>, AllocError> {
    match answer {
        Verdict::Agrees { .. } => Ok(None),
        Verdict::Differs { actor, event } => {
            let at = EventAt { actor, event };
            Ok(Some(what_differs(alloc, audited, terms, at)?))
        }
        Verdict::Undecided { actor, event } => {
            let at = EventAt { actor, event };
            let sentence = sentence_of(alloc, audited, at, UNDECIDED)?;
            Ok(Some((sentence, form_of(audited, at))))
        }
    }
}

/// Appends what explains an answer, where a file is named: of one that agrees nothing.
pub(crate) fn explain(
    alloc: Global,
    errors: &mut Vec<u8>,
    script: Script<'_>,
    audited: Audited<'_>,
    terms: Terms,
    answer: Verdict,
) -> Result<(), AllocError>
    ensures { OnOk result ((lesson : List ℕ) × LessonOf (script_of script.entry) (as_verdict answer) lesson × (errors.new.items ≡ errors.old.items ++ lesson)) }
{
    match answer {
        Verdict::Agrees { .. } => Ok(()),
        Verdict::Differs { actor, event } => {
            let at = EventAt { actor, event };
            explain_difference(alloc, errors, script, audited, terms, at)
        }
        Verdict::Undecided { actor, event } => {
            let at = EventAt { actor, event };
            explain_undecided(alloc, errors, script, audited, at)
        }
    }
}
