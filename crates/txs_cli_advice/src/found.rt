//! What to do about a value of another kind than the one that is taken, as far as the script says what it is: by a literal, or by the
//! name of a constant or of a cell.

ghost use Rattle.std.specs.Prelude.{string_bytes, IfOk, IfSome};
ghost use Rattle.txs_reader.specs.Safe.{Safe};

use crate::validated::is_bound;
use std::alloc::{AllocError, Global};
use txs_cli_advice_script::{
    Sentence, bytes_at, definition_of, forms_of, in_rows, name_at, of_two, parts_at,
    place_of_function, plain, written,
};
use txs_reader::{Bracket, Form};
use txs_value_data::Span;

/// The most bytes of a form that is looked at.
const MOST_LOOKED_AT: usize = 4_096;

/// The most arguments of it that are.
const MOST_ARGUMENTS: usize = 8;

/// The most bytes of a script that is searched for a name: a run may have as many faults as it has threads and agents.
const MOST_SEARCHED: usize = 16_384;

/// What a value should have been.
#[derive(Clone, Copy)]
pub(crate) enum Wrong {
    Number,
    Vector,
    /// A cell that is read.
    Cell,
    /// A cell of the kind that the form changes.
    Changed,
    /// A ref, since a transaction reads it.
    Inside,
}

/// What a value is, where that is known: its kind, and the name by which the script has it, if it is no literal.
#[derive(Clone, Copy)]
struct Found<'a> {
    kind: &'static str,
    name: &'a str,
}

/// The kinds of the cells that a `def` makes.
static CELLS: [(&'static str, &'static str); 3] = [
    ("ref", "a ref"),
    ("atom", "an atom"),
    ("agent", "an agent"),
];

/// What operations and forms take.
static TAKEN: [(&'static str, &'static str); 8] = [
    (
        "+ - * inc dec quot rem mod < > <= >= max min zero? pos? neg?",
        "` takes whole numbers.",
    ),
    ("nth", "` takes a vector and an index."),
    ("assoc", "` takes a vector, an index and a value."),
    ("conj peek pop", "` takes a vector."),
    ("count", "` takes a vector or `nil`."),
    ("alter ref-set commute ensure", "` takes a ref."),
    ("swap! reset!", "` takes an atom."),
    ("send", "` takes an agent."),
];

/// How a cell of a kind is changed; an empty text for what is no cell.
fn change_of(kind: &str) -> &'static str {
    if kind == "a ref" {
        "`alter` it in a `dosync`."
    } else if kind == "an atom" {
        "`swap!` it, outside of a `dosync`."
    } else if kind == "an agent" {
        "`send` it an action."
    } else {
        ""
    }
}

/// The kind of a literal, or of the cell that a list of a `def` makes; an empty text for what is computed.
fn kind_of(forms: &[Form], i: usize) -> &'static str {
    match forms.get(i) {
        Some(Form::Nil(_)) => "`nil`",
        Some(Form::Truth(true, _)) => "`true`",
        Some(Form::Truth(false, _)) => "`false`",
        Some(Form::Number(_, _)) => "a whole number",
        Some(Form::Text(_, _)) => "a text",
        Some(Form::Keyword(_, _)) => "a keyword",
        Some(Form::Group(Bracket::Square, _, _)) => "a vector",
        Some(Form::Group(Bracket::Round, _, _)) => {
            in_rows(&CELLS, name_at(parts_at(forms, i), 0), "")
        }
        _ => "",
    }
}

/// Whether a value of this kind is another than what should be there; of an unknown kind it isn't known.
fn is_wrong(kind: &str, wrong: Wrong) -> bool {
    let is_cell = !change_of(kind).is_empty();
    match wrong {
        _ if kind.is_empty() => false,
        Wrong::Number => kind != "a whole number",
        Wrong::Vector => kind != "a vector",
        Wrong::Cell => !is_cell,
        Wrong::Changed => true,
        Wrong::Inside => is_cell & (kind != "a ref"),
    }
}

/// The operation that a list calls, also by a form on a cell, and which of the list's parts is its first argument there.
fn operation_of(list: &[Form]) -> (&str, usize) {
    let at = place_of_function(name_at(list, 0));
    (name_at(list, at), at.saturating_add(1))
}

/// The first of some parts of a list that is wrong, among those that are literals; none where none is.
fn wrong_literal(list: &[Form], from: usize, to: usize, wrong: Wrong) -> &'static str {
    for i in from..to {
        let kind = kind_of(list, i);
        if is_wrong(kind, wrong) {
            return kind;
        }
    }
    ""
}

/// The first of some parts of a list that is wrong, among the names of constants and cells of a script.
fn wrong_name<'a>(
    forms: &[Form],
    list: &'a [Form],
    from: usize,
    to: usize,
    wrong: Wrong,
) -> Found<'a> {
    for i in from..to {
        let name = name_at(list, i);
        let kind = kind_of(definition_of(forms, name), 2);
        if is_wrong(kind, wrong) && !is_bound(forms, false, name, 100) {
            return Found { kind, name };
        }
    }
    Found { kind: "", name: "" }
}

/// Which parts of a list may be wrong: from this one up to before that.
fn suspects(list: &[Form], wrong: Wrong) -> (usize, usize) {
    let (name, first) = operation_of(list);
    // (of a form on a cell the operation's first argument is the cell's value, and no part of the list)
    let vector: usize = if first > 1 { 0 } else { 1 };
    let is_indexed = (name == "nth") | (name == "assoc");
    match wrong {
        Wrong::Number if is_indexed & (vector == 1) => (2, 3),
        Wrong::Number if is_indexed => (first, first.saturating_add(1)),
        Wrong::Number => (first, first.saturating_add(MOST_ARGUMENTS)),
        Wrong::Vector => (1, vector.saturating_add(1)),
        Wrong::Cell | Wrong::Changed | Wrong::Inside => (1, 2),
    }
}

/// The form or operation that takes what is wrong.
fn taker(list: &[Form], wrong: Wrong) -> &str {
    match wrong {
        Wrong::Number | Wrong::Vector => operation_of(list).0,
        _ => name_at(list, 0),
    }
}

/// The sentence about a literal.
fn on_literal<'a>(kind: &'a str, name: &'a str, wrong: Wrong) -> Sentence<'a> {
    if matches!(wrong, Wrong::Cell) {
        return of_two(
            "Here is ",
            kind,
            ": `@` and `deref` take a ref, an atom or an agent.",
            "",
            "",
        );
    }
    let taken = in_rows(&TAKEN, name, "");
    if taken.is_empty() {
        return plain("");
    }
    Sentence {
        front: "Here is ",
        name: kind,
        text: ": `",
        first: None,
        other: name,
        rest: taken,
        second: None,
        after: "",
        end: "",
    }
}

/// The sentence about a constant or a cell by its name.
fn of_known<'a>(found: Found<'a>, other: &'a str, rest: &'a str, end: &'a str) -> Sentence<'a> {
    Sentence {
        front: "`",
        name: found.name,
        text: "` is ",
        first: None,
        other: found.kind,
        rest: other,
        second: None,
        after: rest,
        end,
    }
}

/// The same, where a form of this name takes something else.
fn of_taker<'a>(found: Found<'a>, name: &'a str) -> Sentence<'a> {
    let taken = in_rows(&TAKEN, name, "");
    if taken.is_empty() {
        plain("")
    } else {
        of_known(found, ": `", name, taken)
    }
}

/// What to do about a constant or a cell by its name.
fn on_known<'a>(found: Found<'a>, name: &'a str, wrong: Wrong) -> Sentence<'a> {
    let changed = change_of(found.kind);
    match wrong {
        Wrong::Cell => of_known(
            found,
            "",
            "",
            ", and no cell: write it without `@` or `deref`.",
        ),
        Wrong::Inside => of_known(
            found,
            "",
            "",
            ": read it outside of the `dosync`, as by a `let` around that.",
        ),
        Wrong::Changed if !changed.is_empty() & (name != "ensure") => {
            of_known(found, ": ", changed, "")
        }
        Wrong::Number | Wrong::Vector if !changed.is_empty() => {
            of_known(found, ": its value is `@", found.name, "`.")
        }
        _ => of_taker(found, name),
    }
}

/// What to do about a value of another kind than the one that is taken by a list, if the script says what it is.
fn on_list(
    alloc: Global,
    text: &[u8],
    list: &[Form],
    wrong: Wrong,
) -> Result<Option<String>, AllocError>
    ensures { IfOk result (λ shown. IfSome shown (λ text. Safe (string_bytes text))) }
{
    let name = taker(list, wrong);
    let (from, to) = suspects(list, wrong);
    let kind = wrong_literal(list, from, to, wrong);
    if !kind.is_empty() {
        return written(alloc, on_literal(kind, name, wrong));
    }
    if (text.len() > MOST_SEARCHED) || !is_named(list, from, to) {
        return Ok(None);
    }
    let forms = match forms_of(alloc, text) {
        Ok(forms) => forms,
        Err(error) => return Err(error),
    };
    let found = wrong_name(&forms, list, from, to, wrong);
    if found.kind.is_empty() {
        return Ok(None);
    }
    written(alloc, on_known(found, name, wrong))
}

/// Whether one of some parts of a list is a name.
fn is_named(list: &[Form], from: usize, to: usize) -> bool {
    for i in from..to {
        if !name_at(list, i).is_empty() {
            return true;
        }
    }
    false
}

/// What to do about a value of another kind than the one that is taken by the form at a span, if the script says what it is.
pub(crate) fn on_wrong(
    alloc: Global,
    text: &[u8],
    at: Span,
    wrong: Wrong,
) -> Result<Option<String>, AllocError>
    ensures { IfOk result (λ shown. IfSome shown (λ text. Safe (string_bytes text))) }
{
    let word = bytes_at(text, at);
    if word.len() > MOST_LOOKED_AT {
        return Ok(None);
    }
    match forms_of(alloc, word) {
        Ok(here) => on_list(alloc, text, parts_at(&here, 0), wrong),
        Err(error) => Err(error),
    }
}
