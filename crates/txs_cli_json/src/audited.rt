//! The line of an audit.

ghost use Rattle.std.specs.Prelude.{◌≡◌, ◌++◌, List, ℕ, codes, OnErr, OnOk};
ghost use Rattle.serde_json.specs.Data.{put, string};
ghost use Rattle.serde_json.specs.View.{members_view};
ghost use Rattle.txs_cli_json.specs.Json.{AddsLine, IsLineOf, typed};
ghost use Rattle.txs_cli_json.specs.Members.{audit_members, failure_word, with_event, with_failure, with_place, with_verdict};

use crate::spans::Line;
use std::alloc::{AllocError, Global};
use txs_audit_book::{AuditError, Verdict};
use txs_cli_report::explain::Script;
use txs_value_data::Span;

/// Puts in the verdict that names an event: its actor, and its index in the actor's trace.
fn put_event(line: &mut Line, verdict: &str, actor: u16, event: usize) -> Result<(), AllocError>
    ensures { OnOk result (members_view line.new.members.entries ≡ with_event verdict.now actor event (members_view line.old.members.entries)) }
{
    line.put_text("verdict", verdict)?;
    line.put_number("actor", actor as u64)?;
    line.put_number("event", event as u64)
}

/// Puts in a verdict.
fn put_verdict(line: &mut Line, verdict: Verdict) -> Result<(), AllocError>
    ensures { OnOk result (members_view line.new.members.entries ≡ with_verdict verdict (members_view line.old.members.entries)) }
{
    match verdict {
        Verdict::Agrees { serial } => {
            line.put_text("verdict", "agrees")?;
            line.put_truth("serial", serial)
        }
        Verdict::Differs { actor, event } => put_event(line, "differs", actor, event),
        Verdict::Undecided { actor, event } => put_event(line, "undecided", actor, event),
    }
}

/// The word for why there is no verdict.
fn failure_word(failure: AuditError) -> &'static str
    ensures { result.now ≡ failure_word failure }
{
    match failure {
        AuditError::NoThread => "NoThread",
        AuditError::Memory => "Memory",
    }
}

/// Puts in that there is no verdict, and why.
fn put_failure(line: &mut Line, failure: AuditError) -> Result<(), AllocError>
    ensures { OnOk result (members_view line.new.members.entries ≡ with_failure failure (members_view line.old.members.entries)) }
{
    line.put_null("verdict")?;
    line.put_text("failure", failure_word(failure))
}

/// Puts in the sentence that says why it is so, and the place that is shown with it.
fn put_why(
    line: &mut Line,
    script: Script<'_>,
    why: &str,
    at: Option<Span>,
) -> Result<(), AllocError>
    ensures { OnOk result (members_view line.new.members.entries ≡ with_place script.entry.text.now at (put (codes "why") (string why.now) (members_view line.old.members.entries))) }
{
    line.put_text("why", why)?;
    line.put_place(script.text, at)
}

/// Appends the line of an audit: its verdict, or why there is none; and where it doesn't agree the sentence that says why, with the place
/// that is shown. After an error nothing is appended.
pub fn add_audit(
    alloc: Global,
    out: &mut Vec<u8>,
    script: Script<'_>,
    answer: Result<Verdict, AuditError>,
    why: Option<(&str, Option<Span>)>,
) -> Result<(), AllocError>
    ensures whole { OnOk result ((line : List ℕ) × IsLineOf (typed (codes "audit") (audit_members script.entry.text.now answer why.entry)) line × (out.new.items ≡ out.old.items ++ line)) }
    ensures ok { OnOk result (AddsLine (codes "audit") out.old.items out.new.items) }
    ensures err { OnErr result (out.new.items ≡ out.old.items) }
{
    let mut line = Line::new(alloc);
    match answer {
        Ok(verdict) => put_verdict(&mut line, verdict)?,
        Err(failure) => put_failure(&mut line, failure)?,
    }
    if let Some((why, at)) = why {
        put_why(&mut line, script, why, at)?;
    }
    line.write(out, "audit")
}
