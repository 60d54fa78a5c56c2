//! What to do about a value that a validator refused: which cells may be meant, and what their validators are.

ghost use Rattle.std.specs.Prelude.{string_bytes, IfOk, IfSome};
ghost use Rattle.txs_reader.specs.Safe.{Safe};

use std::alloc::{AllocError, Global};
use txs_cli_advice_script::{bytes_at, forms_of, if_safe, in_rows, name_at, parts_at};
use txs_reader::{Bracket, Form};
use txs_value_data::Span;

/// The kind of the cells that a form changes, by the name with which it begins, and where it names the cell: past the end, if it
/// names none.
static CHANGED: [(&'static str, (&'static str, usize)); 3] = [
    ("dosync", ("ref", usize::MAX)),
    ("swap! reset!", ("atom", 1)),
    ("send", ("agent", 1)),
];

/// A cell with a validator, both by their names, which are empty where there is none.
#[derive(Clone, Copy)]
struct Validated<'a> {
    cell: &'a str,
    validator: &'a str,
}

/// Whether one of these forms, or of their parts, is a vector with this name as an item: then a local may have it.
pub(crate) fn is_bound(forms: &[Form], is_vector: bool, name: &str, levels: u32) -> bool {
    for (i, form) in forms.iter().enumerate() {
        if is_vector && name_at(forms, i) == name {
            return true;
        }
        if let Form::Group(bracket, parts, _) = form {
            let is_square = matches!(bracket, Bracket::Square);
            if levels > 0 && is_bound(parts, is_square, name, levels - 1) {
                return true;
            }
        }
    }
    false
}

/// The cell that the form at this index of a script defines, if it is of this kind and has a validator, and this name, if the name
/// isn't empty. Among the options behind its first value the validator alone is a symbol, and there are two at most.
fn cell_at<'a>(forms: &'a [Form], i: usize, kind: &str, named: &str) -> Validated<'a> {
    let parts = parts_at(forms, i);
    let cell = name_at(parts, 1);
    let opening = parts_at(parts, 2);
    let mut validator = name_at(opening, 3);
    if validator.is_empty() {
        validator = name_at(opening, 5);
    }
    let is_named = named.is_empty() | (named == cell);
    if !is_named | (name_at(opening, 0) != kind) {
        validator = "";
    }
    Validated { cell, validator }
}

/// These parts, one after the other, if all of them are safe to show.
fn join(alloc: Global, parts: &[&str]) -> Result<Option<String>, AllocError>
    ensures { IfOk result (λ shown. IfSome shown (λ text. Safe (string_bytes text))) }
{
    match parts.join(alloc, "") {
        Ok(text) => Ok(if_safe(text)),
        Err(error) => Err(error),
    }
}

/// The sentence about the only cell that may be meant.
fn of_one(alloc: Global, one: Validated<'_>) -> Result<Option<String>, AllocError>
    ensures { IfOk result (λ shown. IfSome shown (λ text. Safe (string_bytes text))) }
{
    join(
        alloc,
        &[
            "`",
            one.validator,
            "` is the validator of `",
            one.cell,
            "`, and gave `false` or `nil`: give `",
            one.cell,
            "` a value that it accepts.",
        ],
    )
}

/// The cells of this kind that have validators, and of these the named one alone, if the name isn't empty.
fn of_cells(
    alloc: Global,
    forms: &[Form],
    kind: &str,
    named: &str,
) -> Result<Option<String>, AllocError>
    ensures { IfOk result (λ shown. IfSome shown (λ text. Safe (string_bytes text))) }
{
    let mut parts = Vec::new(alloc);
    let mut last = 0_usize;
    for i in 0..forms.len() {
        let one = cell_at(forms, i, kind, named);
        if !one.validator.is_empty() {
            let before = if parts.is_empty() {
                "A validator gave `false` or `nil`: `"
            } else {
                "`, or `"
            };
            parts.extend_from_slice(&[before, one.validator, "` of `", one.cell])?;
            last = i;
        }
    }
    match parts.len() {
        0 => Ok(None),
        4 => of_one(alloc, cell_at(forms, last, kind, named)),
        _ => {
            parts.push("`.")?;
            join(alloc, &parts)
        }
    }
}

/// The cells that may be meant where a value was refused at a span, with their validators, if that is seen.
pub(crate) fn on_refused(alloc: Global, text: &[u8], at: Span) -> Result<Option<String>, AllocError>
    ensures { IfOk result (λ shown. IfSome shown (λ text. Safe (string_bytes text))) }
{
    let here = match forms_of(alloc, bytes_at(text, at)) {
        Ok(here) => here,
        Err(error) => return Err(error),
    };
    let list = parts_at(&here, 0);
    let (kind, at) = in_rows(&CHANGED, name_at(list, 0), ("", 0));
    if kind.is_empty() {
        return Ok(None);
    }
    let forms = match forms_of(alloc, text) {
        Ok(forms) => forms,
        Err(error) => return Err(error),
    };
    let mut named = name_at(list, at);
    if !named.is_empty() && is_bound(&forms, false, named, 100) {
        named = "";
    }
    of_cells(alloc, &forms, kind, named)
}
