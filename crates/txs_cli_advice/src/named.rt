//! What to do about a name that isn't known, is taken, or is called and is no function.

ghost use Rattle.std.specs.Prelude.{◌≡◌, None, false};
ghost use Rattle.txs_cli_advice_script.specs.Sentences.{says};
ghost use Rattle.txs_cli_advice.specs.Seen.{name_seen};

use txs_cli_advice_script::{
    Around, Near, Sentence, about, definition_of, inside, instead_for, instead_of, instead_of_word,
    is_of_language, name_at, nearest_defined, nearest_form, nearest_operation, of_called,
    of_clojure, of_two, or, plain, surroundings, takes, unlike, word_at,
};
use txs_reader::Form;
use txs_resolve_expand::{ResolveError, ResolveErrorKind};

/// Behind a name that isn't known, before one that is near to it.
const NEAR: &str = "` is not known here: did you mean `";

/// The sentence about a name that isn't known, and is near to another; none where the other is empty.
fn of_near<'a>(name: &'a str, near: Near<'a>) -> Sentence<'a> {
    Sentence {
        front: "`",
        name,
        text: if near.name.is_empty() { "" } else { NEAR },
        first: None,
        other: near.name,
        rest: "",
        second: None,
        after: "",
        end: "`?",
    }
}

/// The same, where the other is of the language.
pub(crate) fn of_near_word<'a>(name: &'a str, near: Near<'static>) -> Sentence<'a> {
    Sentence {
        front: "`",
        name,
        text: if near.name.is_empty() { "" } else { NEAR },
        first: None,
        other: near.name,
        rest: "",
        second: None,
        after: "",
        end: "`?",
    }
}

/// The local that is nearest to a name, where a local may be meant.
fn nearest_local<'a>(name: &str, here: Around<'a>) -> Near<'a> {
    Near {
        name: if here.is_called() { "" } else { here.near.name },
        edits: if here.is_called() {
            unlike(name).edits
        } else {
            here.near.edits
        },
    }
}

/// The sentence about a word of another language; none where there is nothing to write instead.
pub(crate) fn of_word<'a>(name: &'a str, instead: &'static str) -> Sentence<'a> {
    instead_for(name, "` is no name of this profile; ", instead)
}

/// What to do about an operation that stands behind its first argument; nothing where none does.
fn on_infix(here: Around<'_>) -> Sentence<'_> {
    let sign = name_at(here.parts, 1);
    if (here.index != 0) | (here.parts.len() < 3) | takes(sign).1.is_empty() {
        return plain("");
    }
    let end = if sign == "=" {
        " a b)` as a test, or `(let [NAME VALUE] ..)`."
    } else {
        " a b)`."
    };
    of_two(
        "`",
        sign,
        "` comes before its arguments: write `(",
        sign,
        end,
    )
}

/// What to do about an unknown name, by the language: the form or the operation that is near to it.
fn on_language<'a>(name: &'a str, here: Around<'a>) -> Sentence<'a> {
    if !here.is_called() {
        return plain("");
    }
    let mut best = nearest_operation(name, unlike(name));
    if here.index == 0 {
        best = nearest_form(name, best);
    }
    let said = of_near_word(name, best);
    let infix = on_infix(here);
    if infix.name == "=" {
        or(said, infix)
    } else {
        said
    }
}

/// What to do about an unknown name that neither the script nor clojure.core has.
fn on_unlike<'a>(forms: &'a [Form], name: &'a str, here: Around<'a>) -> Sentence<'a> {
    let near = nearest_defined(forms, name, nearest_local(name, here));
    let said = or(of_near(name, near), of_word(name, instead_of_word(name)));
    or(said, on_language(name, here))
}

/// What to do about an unknown name.
fn on_unknown<'a>(forms: &'a [Form], name: &'a str, here: Around<'a>) -> Sentence<'a> {
    if !definition_of(forms, name).is_empty() {
        return about(
            name,
            "` is defined below: put that definition before this use.",
        );
    }
    or(
        of_clojure(name, instead_of(name)),
        on_unlike(forms, name, here),
    )
}

/// What to do about what is called and is no function.
fn on_called<'a>(name: &'a str, here: Around<'a>) -> Sentence<'a> {
    let said = on_infix(here);
    if !said.text.is_empty() {
        return said;
    }
    if let Some(text) = of_called(name) {
        return plain(text);
    }
    if !inside(name).is_empty() {
        return about(
            name,
            "` is the name of a form, and no function: write a `defn` above around it, and name that.",
        );
    }
    Sentence {
        front: "`",
        name,
        text: "` is no function: write `(nth ",
        first: None,
        other: name,
        rest: " i)` for an item of a vector, or `@",
        second: None,
        after: name,
        end: "` for a cell's value.",
    }
}

/// What to do about a local that is called.
fn on_local<'a>(forms: &'a [Form], name: &'a str, here: Around<'a>) -> Sentence<'a> {
    let hides = is_of_language(name) | !definition_of(forms, name).is_empty();
    let said = if hides {
        "` is a local here, and hides the function of its name: give the local another name."
    } else {
        "` is a local, and no local is called: functions are no values, so name one here."
    };
    or(on_infix(here), about(name, said))
}

/// What to do about a name that was defined before.
fn on_again(name: &str) -> Sentence<'_> {
    about(
        name,
        if is_of_language(name) {
            "` is a core operation: choose another name."
        } else {
            "` is defined above, and a name is defined once: a ref or an atom holds what changes."
        },
    )
}

/// What to do about a name that is refused, as far as that is seen at the span, in these forms.
pub(crate) fn on_name<'a>(text: &'a [u8], forms: &'a [Form], error: ResolveError) -> Sentence<'a>
    ensures { name_seen error.kind ≡ false → says result ≡ None }
{
    let name = word_at(text, error.at);
    let here = surroundings(forms, error.at, name, unlike(name));
    match error.kind {
        ResolveErrorKind::UnknownName => on_unknown(forms, name, here),
        ResolveErrorKind::NotCallable => on_called(name, here),
        ResolveErrorKind::LocalCalled => on_local(forms, name, here),
        ResolveErrorKind::Redefined => on_again(name),
        ResolveErrorKind::SelfCall => about(
            name,
            "` can't call itself: write a `loop`, or `recur` where nothing is left to do behind it.",
        ),
        ResolveErrorKind::BadForm | ResolveErrorKind::TooMany | ResolveErrorKind::Memory => {
            plain("")
        }
    }
}
