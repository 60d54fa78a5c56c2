//! Sentences, before and after they are written.

ghost use Rattle.std.specs.Prelude.{◌≡◌, ◌∷◌, ◌++◌, None, if◌then◌else◌, string_bytes, IfOk, IfSome, OnOk};
ghost use Rattle.std.specs.Option.{option_and_then, option_map, option_or};
ghost use Rattle.txs_reader.specs.Safe.{Safe};
ghost use Rattle.txs_cli_advice_script.specs.Sentences.{count_text, if_safe, is_safe, left_out, says, unless_empty, whole_of};

use itoa::Buffer;
use std::alloc::{AllocError, Global};
use txs_reader::is_escaped;

/// The parts of a sentence in their order, each empty where it isn't needed. A sentence without its text is none.
#[derive(Clone, Copy)]
pub struct Sentence<'a> {
    pub front: &'a str,
    pub name: &'a str,
    pub text: &'a str,
    pub first: Option<usize>,
    pub other: &'a str,
    pub rest: &'a str,
    pub second: Option<usize>,
    pub after: &'a str,
    pub end: &'a str,
}

/// A sentence with a name, another, and what is before, between and behind them.
pub fn of_two<'a>(
    front: &'a str,
    name: &'a str,
    text: &'a str,
    other: &'a str,
    end: &'a str,
) -> Sentence<'a>
    ensures { says result ≡ unless_empty text.now (front.now ++ name.now ++ text.now ++ other.now ++ end.now) }
{
    Sentence {
        front,
        name,
        text,
        first: None,
        other,
        rest: "",
        second: None,
        after: "",
        end,
    }
}

/// A sentence that is the same for all names; none where it is empty.
pub fn plain(text: &str) -> Sentence<'_>
    ensures { says result ≡ unless_empty text.now text.now }
{
    of_two("", "", text, "", "")
}

/// A sentence that begins with a name; none where the name is empty.
pub fn about<'a>(name: &'a str, text: &'static str) -> Sentence<'a>
    ensures { says result ≡ option_and_then (λ named. unless_empty text.now named) (unless_empty name.now (96 ∷ name.now ++ text.now)) }
{
    Sentence {
        front: "`",
        name,
        text: if name.is_empty() { "" } else { text },
        first: None,
        other: "",
        rest: "",
        second: None,
        after: "",
        end: "",
    }
}

/// A sentence about a name, with what to write instead; none where nothing is.
pub fn instead_for<'a>(name: &'a str, text: &'static str, instead: &'static str) -> Sentence<'a>
    ensures { says result ≡ option_and_then (λ whole. unless_empty text.now whole) (unless_empty instead.now (96 ∷ name.now ++ text.now ++ instead.now)) }
{
    Sentence {
        front: "`",
        name,
        text: if instead.is_empty() { "" } else { text },
        first: None,
        other: instead,
        rest: "",
        second: None,
        after: "",
        end: "",
    }
}

/// The sentence about a name of clojure.core that the profile leaves out; none where nothing is written instead.
pub fn of_clojure<'a>(name: &'a str, instead: &'static str) -> Sentence<'a>
    ensures { says result ≡ unless_empty instead.now (96 ∷ name.now ++ left_out ++ instead.now) }
{
    instead_for(name, "` of clojure.core is not in this profile; ", instead)
}

/// The first sentence, or the second where that is none.
pub fn or<'a>(first: Sentence<'a>, second: Sentence<'a>) -> Sentence<'a>
    ensures { says result ≡ option_or (says first.entry) (says second.entry) }
{
    if first.text.is_empty() { second } else { first }
}

/// Appends a number, if there is one.
pub fn write_count(out: &mut String, count: Option<usize>) -> Result<(), AllocError>
    ensures { OnOk result (string_bytes out.new ≡ string_bytes out.old ++ count_text count) }
{
    match count {
        Some(count) => {
            let mut buffer = Buffer::new();
            out.push_str(buffer.format(count))
        }
        None => Ok(()),
    }
}

/// Appends the first parts of a sentence, up to its first number.
fn write_front(out: &mut String, said: Sentence<'_>) -> Result<(), AllocError>
    ensures { OnOk result (string_bytes out.new ≡ string_bytes out.old ++ (said.entry.front.now ++ said.entry.name.now ++ said.entry.text.now ++ count_text said.entry.first)) }
{
    out.push_str(said.front)?;
    out.push_str(said.name)?;
    out.push_str(said.text)?;
    write_count(out, said.first)
}

/// Appends the others.
fn write_back(out: &mut String, said: Sentence<'_>) -> Result<(), AllocError>
    ensures { OnOk result (string_bytes out.new ≡ string_bytes out.old ++ (said.entry.other.now ++ said.entry.rest.now ++ count_text said.entry.second ++ said.entry.after.now ++ said.entry.end.now)) }
{
    out.push_str(said.other)?;
    out.push_str(said.rest)?;
    write_count(out, said.second)?;
    out.push_str(said.after)?;
    out.push_str(said.end)
}

/// Appends a sentence.
#[tactic(auto, using(crate::proofs::Parts::halves))]
pub fn write(out: &mut String, said: Sentence<'_>) -> Result<(), AllocError>
    ensures { OnOk result (string_bytes out.new ≡ string_bytes out.old ++ whole_of said.entry) }
{
    write_front(out, said)?;
    write_back(out, said)
}

/// Whether no character of a text has to be escaped.
fn is_safe(text: &str) -> bool
    ensures { result ≡ is_safe text.now }
{
    text.chars().all(|c| !is_escaped(c))
}

/// The text, if it is safe to show: then it is in one line, and a terminal obeys nothing of it.
pub fn if_safe(text: String) -> Option<String>
    ensures same { option_map (λ shown. string_bytes shown) result ≡ if_safe (string_bytes text) }
    ensures safe { IfSome result (λ shown. Safe (string_bytes shown)) }
{
    if is_safe(text.as_str()) {
        Some(text)
    } else {
        None
    }
}

/// The sentence as it is written, if there is one, and all of it is safe to show: names in it are the script's.
///
/// # Errors
/// Where there was no memory for it.
pub fn written(alloc: Global, said: Sentence<'_>) -> Result<Option<String>, AllocError>
    ensures parts { IfOk result (λ shown. option_map (λ text. string_bytes text) shown ≡ option_and_then if_safe (says said.entry)) }
    ensures safe { IfOk result (λ shown. IfSome shown (λ text. Safe (string_bytes text))) }
{
    if said.text.is_empty() {
        return Ok(None);
    }
    let mut out = String::new(alloc);
    match write(&mut out, said) {
        Ok(()) => Ok(if_safe(out)),
        Err(error) => Err(error),
    }
}
