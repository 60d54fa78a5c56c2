//! What to do about a script that isn't read, by what is at the span of the refusal.

ghost use Rattle.std.specs.Prelude.{◌≡◌, None, false, string_bytes, IfOk, IfSome};
ghost use Rattle.txs_reader.specs.Safe.{Safe};
ghost use Rattle.txs_cli_advice_script.specs.Reading.{is_seen, of_language};
ghost use Rattle.txs_cli_advice_script.specs.Sentences.{says};

use crate::brackets::{on_unclosed, on_unopened};
use crate::script::{bytes_at, word_at};
use crate::sentence::{Sentence, about, instead_for, of_clojure, of_two, or, plain, written};
use crate::{
    byte_at, inside, instead_of, instead_of_call, of_code, of_left_out, of_mark, takes, text_of,
};
use std::alloc::{AllocError, Global};
use txs_reader::{ReadError, ReadErrorKind};
use txs_value_data::Span;

/// What names of clojure.core have before them where their namespace is written.
const CORE: &str = "clojure.core/";

/// What to do about a word with a character that belongs nowhere.
const TOKEN: &str =
    "` has a character that no name has: write ASCII letters, digits and * + ! - _ ' ? < > = . alone.";

/// The operations on namespaces that a script may have before a quote.
static QUOTED: [&'static str; 5] = ["require", "use", "import", "refer", "alias"];

/// Whether a form or a core operation has the name.
pub fn is_of_language(name: &str) -> bool
    ensures { result ≡ of_language name.now }
{
    !inside(name).is_empty() || !takes(name).1.is_empty()
}

/// What to do about a name of another namespace, or of a class.
fn on_qualified(word: &str) -> Sentence<'_> {
    let name = word.strip_prefix(CORE).unwrap_or("");
    if !name.is_empty() && is_of_language(name) {
        of_two(
            "Write `",
            name,
            "`: names of clojure.core need no namespace here.",
            "",
            "",
        )
    } else {
        of_clojure(name, instead_of(name))
    }
}

/// The operation of which a quote behind this text is an argument; an empty text elsewhere.
fn quoting(front: &str) -> &str {
    let front = front.trim_end();
    for name in &QUOTED {
        let rest = front.strip_suffix(*name).unwrap_or("");
        if rest.ends_with('(') {
            return front.get(rest.len()..).unwrap_or("");
        }
    }
    ""
}

/// The characters before a span.
fn front_of(text: &[u8], at: Span) -> &str {
    text_of(text.get(..at.from as usize).unwrap_or(&[]))
}

/// What to do about a word that is left out, at a span.
fn on_left_out(text: &[u8], at: Span) -> Sentence<'_> {
    let word = word_at(text, at);
    let quoting = if word.starts_with('\'') {
        quoting(front_of(text, at))
    } else {
        ""
    };
    let said = or(
        of_clojure(quoting, instead_of(quoting)),
        instead_for(word, "` is left out; ", instead_of_call(word)),
    );
    let next = byte_at(text, at.to as usize, 0);
    or(
        or(said, on_qualified(word)),
        plain(of_left_out(word.as_bytes(), next).unwrap_or("")),
    )
}

/// What to do about a word that belongs nowhere, or that is no characters.
fn on_token(text: &[u8], at: Span) -> Sentence<'_> {
    let said = of_code(text).or(of_mark(bytes_at(text, at))).unwrap_or("");
    or(plain(said), about(word_at(text, at), TOKEN))
}

/// What to do about a script that isn't read, as far as that is seen at the span.
fn of_place(text: &[u8], error: ReadError) -> Sentence<'_>
    ensures { is_seen error.kind ≡ false → says result ≡ None }
{
    match error.kind {
        ReadErrorKind::NotUtf8 | ReadErrorKind::BadToken => on_token(text, error.at),
        ReadErrorKind::LeftOut => on_left_out(text, error.at),
        ReadErrorKind::Unopened => on_unopened(front_of(text, error.at).as_bytes()),
        ReadErrorKind::Unclosed => on_unclosed(text, byte_at(text, error.at.from as usize, 0)),
        ReadErrorKind::NumberTooLarge
        | ReadErrorKind::BadEscape
        | ReadErrorKind::TooDeep
        | ReadErrorKind::TooLarge
        | ReadErrorKind::Memory => plain(""),
    }
}

/// What to do about a script that isn't read, as far as that is seen at the span: nothing where the kind of the refusal says it all, or
/// where the sentence would have a character of the script that isn't safe to show.
///
/// # Errors
/// Where there was no memory for the sentence.
#[tactic(auto, using(crate::proofs::Shows::none_from_option_map))]
pub fn on_read(alloc: Global, text: &[u8], error: ReadError) -> Result<Option<String>, AllocError>
    ensures safe { IfOk result (λ shown. IfSome shown (λ text. Safe (string_bytes text))) }
    ensures quiet { is_seen error.kind ≡ false → IfOk result (λ shown. shown ≡ None) }
{
    written(alloc, of_place(text, error))
}
