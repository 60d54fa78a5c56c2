//! What to do about a program that isn't sound, by what is at the span of the refusal.

ghost use Rattle.std.specs.Prelude.{◌≡◌, None, false, string_bytes, IfOk, IfSome};
ghost use Rattle.txs_reader.specs.Safe.{Safe};
ghost use Rattle.txs_cli_advice_script.specs.Sentences.{says};
ghost use Rattle.txs_cli_advice.specs.Seen.{check_seen};

use std::alloc::{AllocError, Global};
use txs_check::{CheckError, CheckErrorKind};
use txs_cli_advice_script::{
    Sentence, about, definition_of, first_vector, forms_of, in_rows, name_at, of_two, parts_at,
    place_of_function, plain, surroundings, takes, unlike, written,
};
use txs_reader::Form;

/// What to do about a function that has to be pure.
const NOT_PURE: &str =
    "` is not pure, as is wanted here: it or what it calls has a `println`, a `dosync` or a form on cells.";

/// What to do about a validator that takes another count of arguments.
const VALIDATOR: &str =
    "` is a validator here: such a function takes one argument, the value that the cell is to get.";

/// What to do about what is refused in a transaction, by its name.
static OUTSIDE: [(&'static str, &'static str); 2] = [
    (
        "println",
        "` is refused in a `dosync`, which may run again: let the `dosync` give the value, and print that.",
    ),
    (
        "swap! reset!",
        "` is refused in a `dosync`, which may run again: change a ref there, or the atom outside of it.",
    ),
];

/// What to do about a function that is refused there.
const OUTSIDE_CALL: &str =
    "` has a `println`, `swap!` or `reset!`, or calls what has one: call it outside of the `dosync`.";

/// What a list calls: a function by its name, how many arguments it is called on, and whether a cell's value is the first of them.
#[derive(Clone, Copy)]
struct Call<'a> {
    name: &'a str,
    count: usize,
    on_cell: bool,
}

/// What a list calls; the empty name where that isn't seen.
fn call_of(list: &[Form]) -> Call<'_> {
    let at = place_of_function(name_at(list, 0));
    Call {
        name: name_at(list, at),
        count: list.len().saturating_sub(at.max(1)),
        on_cell: at > 0,
    }
}

/// The sentence about a call, of which it is known how many arguments are taken, by a text or by a number, with what to write in
/// place of more.
fn of_count<'a>(
    call: Call<'a>,
    shown: &'static str,
    count: Option<usize>,
    instead: &'static str,
) -> Sentence<'a> {
    Sentence {
        front: "`",
        name: call.name,
        text: "` takes ",
        first: count,
        other: shown,
        rest: ", got ",
        second: Some(call.count),
        after: if call.on_cell {
            " with the cell's value as the first"
        } else {
            instead
        },
        end: ".",
    }
}

/// What to do about a call with a wrong count of arguments.
fn on_arity<'a>(forms: &'a [Form], call: Call<'a>) -> Sentence<'a> {
    let (least, shown, instead) = takes(call.name);
    if !shown.is_empty() {
        return of_count(
            call,
            shown,
            None,
            if call.count > least { instead } else { "" },
        );
    }
    match first_vector(definition_of(forms, call.name)) {
        Some(parameters) => of_count(call, "", Some(parameters.len()), ""),
        None => plain(""),
    }
}

/// What to do about what needs a transaction.
fn on_inside(list: &[Form]) -> Sentence<'_> {
    let head = name_at(list, 0);
    if head == "send" {
        about(
            name_at(list, 2),
            "` needs a transaction, and an action has none around it: put a `dosync` into the function.",
        )
    } else {
        of_two(
            "`",
            head,
            "` needs a transaction around it: write `(dosync (",
            head,
            " ..))`.",
        )
    }
}

/// What to do about a validator, by its name.
fn on_validator(name: &str, kind: CheckErrorKind) -> Sentence<'_>
    ensures { check_seen kind ≡ false → says result ≡ None }
{
    match kind {
        CheckErrorKind::NotPure => about(name, NOT_PURE),
        CheckErrorKind::Arity => about(name, VALIDATOR),
        CheckErrorKind::RecurCount
        | CheckErrorKind::InsideOnly
        | CheckErrorKind::OutsideOnly
        | CheckErrorKind::RecurNotTail
        | CheckErrorKind::RecurAcrossDosync
        | CheckErrorKind::CodeTooLarge
        | CheckErrorKind::Memory => plain(""),
    }
}

/// What to do about a list that isn't sound.
fn on_list<'a>(forms: &'a [Form], list: &'a [Form], kind: CheckErrorKind) -> Sentence<'a>
    ensures { check_seen kind ≡ false → says result ≡ None }
{
    let call = call_of(list);
    let head = name_at(list, 0);
    if call.name.is_empty() {
        return plain("");
    }
    match kind {
        CheckErrorKind::RecurCount => Sentence {
            front: "",
            name: "",
            text: "`recur` got ",
            first: Some(call.count),
            other: "",
            rest: "",
            second: None,
            after: "",
            end: ": give it as many values as its `loop` or function binds.",
        },
        CheckErrorKind::NotPure => about(call.name, NOT_PURE),
        CheckErrorKind::Arity => on_arity(forms, call),
        CheckErrorKind::InsideOnly => on_inside(list),
        CheckErrorKind::OutsideOnly => about(head, in_rows(&OUTSIDE, head, OUTSIDE_CALL)),
        CheckErrorKind::RecurNotTail
        | CheckErrorKind::RecurAcrossDosync
        | CheckErrorKind::CodeTooLarge
        | CheckErrorKind::Memory => plain(""),
    }
}

/// What to do about a program that isn't sound, as far as that is seen at the span, in these forms.
pub(crate) fn on_checked(forms: &[Form], error: CheckError) -> Sentence<'_>
    ensures { check_seen error.kind ≡ false → says result ≡ None }
{
    let here = surroundings(forms, error.at, "", unlike(""));
    let name = name_at(here.parts, here.index);
    if name.is_empty() {
        on_list(forms, parts_at(here.parts, here.index), error.kind)
    } else {
        on_validator(name, error.kind)
    }
}

/// What to do about a program that isn't sound, as far as that is seen at the span: nothing where the kind of the refusal says it all.
///
/// # Errors
/// Where there was no memory for the sentence, or for the forms of the script.
#[tactic(auto, using(txs_cli_advice_script::proofs::Shows::none_from_option_map))]
pub fn on_check(alloc: Global, text: &[u8], error: CheckError) -> Result<Option<String>, AllocError>
    ensures safe { IfOk result (λ shown. IfSome shown (λ text. Safe (string_bytes text))) }
    ensures quiet { check_seen error.kind ≡ false → IfOk result (λ shown. shown ≡ None) }
{
    match forms_of(alloc, text) {
        Ok(forms) => written(alloc, on_checked(&forms, error)),
        Err(error) => Err(error),
    }
}
