//! The line of a script that is refused.

ghost use Rattle.std.specs.Prelude.{◌≡◌, ◌∷◌, [], List, ℕ, codes, IfSome, MatchOption, OnErr, OnOk};
ghost use Rattle.serde_json.specs.Data.{Data, Members, put};
ghost use Rattle.serde_json.specs.View.{members_view};
ghost use Rattle.txs_cli_json.specs.Json.{AddsLines, refusal_kinds};
ghost use Rattle.txs_cli_json.specs.Members.{AddsRefusal, with_refusal, with_refused};

use crate::spans::Line;
use std::alloc::{AllocError, Global};
use txs_cli_advice::{of_check, of_read, of_resolve, on_check, on_read, on_resolve};
use txs_cli_report::explain::Script;
use txs_compile::CompileError;
use txs_value_data::Span;

/// What is said of a refusal: its number and name, the place, and what to do about it by its kind.
#[derive(Clone, Copy)]
struct Refusal {
    number: u8,
    name: &'static str,
    at: Span,
    advice: Option<&'static str>,
}

/// The refusal of a script, but for one for want of memory, of which there is no line.
fn refusal_of(error: &CompileError) -> Option<Refusal>
    ensures whole { IfSome result (λ r. (text : List ℕ) (ms : Members) → with_refused text error.now ms ≡ with_refusal text r.number r.name.now r.at ms) }
    ensures kinds { MatchOption result (refusal_kinds error.now ≡ []) (λ r. refusal_kinds error.now ≡ codes "refused" ∷ []) }
{
    match error {
        CompileError::Read(e) => Some(Refusal {
            number: e.kind.number(),
            name: e.kind.name(),
            at: e.at,
            advice: of_read(e.kind),
        }),
        CompileError::Resolve(e) => Some(Refusal {
            number: e.kind.number(),
            name: e.kind.name(),
            at: e.at,
            advice: of_resolve(e.kind),
        }),
        CompileError::Check(e) => Some(Refusal {
            number: e.kind.number(),
            name: e.kind.name(),
            at: e.at,
            advice: of_check(e.kind),
        }),
        CompileError::Memory => None,
    }
}

/// What to do about a refusal, by what is at its span in the script, where that is known.
fn advice_on(
    alloc: Global,
    text: &[u8],
    error: &CompileError,
) -> Result<Option<String>, AllocError> {
    match error {
        CompileError::Read(e) => on_read(alloc, text, *e),
        CompileError::Resolve(e) => on_resolve(alloc, text, *e),
        CompileError::Check(e) => on_check(alloc, text, *e),
        CompileError::Memory => Ok(None),
    }
}

/// Puts in what to do about a refusal: what is known by its span, else what is known by its kind.
fn put_advice(
    line: &mut Line,
    text: &[u8],
    error: &CompileError,
    advice: Option<&str>,
) -> Result<(), AllocError>
    ensures { OnOk result ((advice : Data) × (members_view line.new.members.entries ≡ put (codes "advice") advice (members_view line.old.members.entries))) }
{
    if let Some(advice) = advice_on(line.alloc, text, error)? {
        return line.put_text("advice", advice.as_str());
    }
    match advice {
        Some(advice) => line.put_text("advice", advice),
        None => line.put_null("advice"),
    }
}

/// Appends the line of a refusal. After an error nothing is appended. Of a script that isn't compiled for want of memory there is no line.
pub fn add_refusal(
    alloc: Global,
    out: &mut Vec<u8>,
    script: Script<'_>,
    error: &CompileError,
) -> Result<(), AllocError>
    ensures whole { OnOk result (AddsRefusal script.entry.text.now error.now out.old.items out.new.items) }
    ensures ok { OnOk result (AddsLines (refusal_kinds error.now) out.old.items out.new.items) }
    ensures err { OnErr result (out.new.items ≡ out.old.items) }
{
    let Some(refusal) = refusal_of(error) else {
        return Ok(());
    };
    let mut line = Line::new(alloc);
    put_advice(&mut line, script.text, error, refusal.advice)?;
    line.put_number("number", refusal.number as u64)?;
    line.put_text("name", refusal.name)?;
    line.put_place(script.text, Some(refusal.at))?;
    line.write(out, "refused")
}
