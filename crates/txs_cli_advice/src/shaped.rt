//! What to do about a form of another shape or in a wrong place.

use crate::named::{of_near_word, of_word};
use txs_cli_advice_script::{
    NOT_AT_TOP, Sentence, about, inside, instead_of, instead_of_word, items_at, name_at,
    nearest_at_top, of_clojure, or, parts_at, plain, shape_at_top, unlike,
};
use txs_reader::{Bracket, Form};

/// What to do about a list without parts.
const EMPTY: &str = "Write `[]` for an empty vector, or `nil`: there are no lists as values.";

/// What to do about a vector in place of a name.
const TAKEN_APART: &str =
    "A vector isn't taken apart here: bind it to one name, and take its items by `nth`.";

/// What to do about a `cond` that isn't in pairs.
const UNPAIRED: &str =
    "A test lacks its value: write `(cond TEST VALUE ..)` in pairs; `:else` is a test that always holds.";

/// What to do about a `def` with a text before its value.
const DESCRIBED: &str =
    "A `def` has no text before its value: write that as a comment, behind a `;`.";

/// Whether one of the names that a vector of pairs binds is a vector.
fn takes_apart(items: &[Form]) -> bool {
    for i in 0..items.len() {
        if (i % 2 == 0) & items_at(items, i).is_some() {
            return true;
        }
    }
    false
}

/// What to do about a `let` or a `loop`.
fn on_bindings<'a>(head: &'a str, items: &[Form]) -> Sentence<'a> {
    if items.len() % 2 == 0 {
        let is_apart = takes_apart(items);
        return plain(if is_apart { TAKEN_APART } else { inside(head) });
    }
    Sentence {
        front: "A name lacks its value: the vector of this `",
        name: head,
        text: "` is of pairs, and its last form is number ",
        first: Some(items.len()),
        other: "",
        rest: "",
        second: None,
        after: "",
        end: ".",
    }
}

/// What to do about a list below the top.
fn on_list(list: &[Form]) -> Sentence<'_> {
    let head = name_at(list, 0);
    if list.is_empty() {
        return plain(EMPTY);
    }
    if (head == "let") | (head == "loop") {
        if let Some(items) = items_at(list, 1) {
            return on_bindings(head, items);
        }
    }
    if (head == "cond") & (list.len() % 2 == 0) {
        return plain(UNPAIRED);
    }
    plain(inside(head))
}

/// What to do about a symbol that is no form here.
fn of_symbol(name: &str) -> &'static str {
    if name.contains('.') {
        "` has a dot, as classes of Java and other namespaces have: they are left out."
    } else if !inside(name).is_empty() {
        "` is the name of a form: it is no value, and no local, parameter or definition has its name."
    } else {
        "` is a function, and no value: name it where it is called, after the cell of an `alter`, `commute`, `swap!` or `send`, or after `:validator`."
    }
}

/// What to do about the form at this index, below the top.
pub(crate) fn on_form(forms: &[Form], i: usize) -> Sentence<'_> {
    match forms.get(i) {
        Some(Form::Group(Bracket::Round, list, _)) => on_list(list),
        Some(Form::Group(Bracket::Square, _, _)) => plain(TAKEN_APART),
        Some(Form::Symbol(_, _)) => {
            let name = name_at(forms, i);
            about(name, of_symbol(name))
        }
        _ => plain(""),
    }
}

/// What to do about a word that begins a list at the top, where it isn't known; nothing where that isn't known either.
pub(crate) fn on_head(head: &str) -> Sentence<'_> {
    let said = or(
        of_clojure(head, instead_of(head)),
        of_word(head, instead_of_word(head)),
    );
    or(said, of_near_word(head, nearest_at_top(head, unlike(head))))
}

/// Whether the second of three parts or more is a text: then the `def` has one before its value.
fn is_described(list: &[Form]) -> bool {
    matches!(list.get(2), Some(Form::Text(_, _))) & (list.len() > 3)
}

/// What to do about a list that belongs at the top, or about the value of a `def` there.
pub(crate) fn on_top(list: &[Form]) -> Sentence<'_> {
    let head = name_at(list, 0);
    let otherwise = shape_at_top(head, NOT_AT_TOP);
    if head != "def" {
        return plain(otherwise);
    }
    if is_described(list) {
        return plain(DESCRIBED);
    }
    let value = name_at(parts_at(list, 2), 0);
    or(
        of_clojure(value, instead_of(value)),
        plain(shape_at_top(value, otherwise)),
    )
}
