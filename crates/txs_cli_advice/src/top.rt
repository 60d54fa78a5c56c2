//! What to do about forms that are no program: a name, a form of another shape, or forms at the top of the script that belong into a
//! future, with the refusal that comes next once they are there.

ghost use Rattle.std.specs.Prelude.{◌≡◌, None, false, string_bytes, IfOk, IfSome};
ghost use Rattle.txs_reader.specs.Safe.{Safe};
ghost use Rattle.txs_cli_advice_script.specs.Sentences.{says};
ghost use Rattle.txs_cli_advice.specs.Seen.{resolve_seen};

use crate::checked::on_checked;
use crate::kinds::{of_check, of_resolve};
use crate::named::on_name;
use crate::shaped::{on_form, on_head, on_top};
use std::alloc::{AllocError, Global};
use txs_check::{CheckError, CheckErrorKind, check};
use txs_cli_advice_script::{
    NOT_AT_TOP, Sentence, definition_of, forms_of, if_safe, instead_of, instead_of_word,
    is_of_language, is_of_top, name_at, nearest_at_top, or, parts_at, plain, surroundings, takes,
    unlike, write, write_count, written,
};
use txs_reader::{Bracket, Form, position};
use txs_resolve::resolve;
use txs_resolve_expand::{ResolveError, ResolveErrorKind};
use txs_value_data::Span;

/// The most forms at the top of which the first word is looked up.
const MOST_LOOKED_UP: usize = 256;

/// What to do about a name with an operation behind it.
const INFIX: &str =
    "A list says what is done, as `(+ a b)` or `(= a b)`; write `(def NAME LITERAL)` for a name with a value.";

/// What is at the top of a script and belongs into a future: how many forms, where the first three begin, and which form is the first
/// of another kind that doesn't belong there, if one is found.
#[derive(Clone, Copy)]
struct Strays {
    count: usize,
    first: usize,
    second: usize,
    third: usize,
    odd: Option<usize>,
}

/// Whether a list at the top begins with a word that belongs in no future either: one of clojure.core that is left out, or one that is
/// near to a form of the top.
fn is_odd(head: &str) -> bool {
    if head.is_empty() | is_of_language(head) {
        return false;
    }
    !instead_of(head).is_empty()
        | !instead_of_word(head).is_empty()
        | !nearest_at_top(head, unlike(head)).name.is_empty()
}

/// The strays, and one more that begins at this byte.
fn with_stray(strays: Strays, at: usize) -> Strays {
    let mut found = strays;
    match found.count {
        0 => found.first = at,
        1 => found.second = at,
        2 => found.third = at,
        _ => {}
    }
    found.count = found.count.saturating_add(1);
    found
}

/// What is at the top of a script and belongs into a future.
fn strays_of(forms: &[Form]) -> Strays {
    let mut found = Strays {
        count: 0,
        first: 0,
        second: 0,
        third: 0,
        odd: None,
    };
    let mut looked_up = 0_usize;
    for (i, form) in forms.iter().enumerate() {
        let head = name_at(parts_at(forms, i), 0);
        if is_of_top(head) {
            continue;
        }
        looked_up = looked_up.saturating_add(1);
        if (looked_up <= MOST_LOOKED_UP) && is_odd(head) {
            found.odd = found.odd.or(Some(i));
        } else {
            found = with_stray(found, form.span().from as usize);
        }
    }
    found
}

/// The script with all forms that belong into a future in one, at its end, which has all of them within its place.
fn gathered(alloc: Global, forms: Vec<Form>) -> Result<Vec<Form>, AllocError> {
    let mut kept = Vec::new(alloc);
    let mut body = forms_of(alloc, b"future")?;
    for form in forms {
        if is_kept(&form) {
            kept.push(form)?;
        } else {
            body.push(form)?;
        }
    }
    let at = Span {
        from: 0,
        to: u32::MAX,
    };
    kept.push(Form::Group(Bracket::Round, body, at))?;
    Ok(kept)
}

/// Whether a form is a list that belongs at the top.
fn is_kept(form: &Form) -> bool {
    match form {
        Form::Group(Bracket::Round, list, _) => is_of_top(name_at(list, 0)),
        _ => false,
    }
}

/// What a script is refused for behind its strays.
#[derive(Clone, Copy)]
enum Next {
    Nothing,
    Resolve(ResolveError),
    Check(CheckError),
}

/// What a program is refused for, but for a limit.
fn next_of_check(error: CheckError) -> Result<Next, AllocError> {
    match error.kind {
        CheckErrorKind::Memory => Err(AllocError),
        CheckErrorKind::CodeTooLarge => Ok(Next::Nothing),
        _ => Ok(Next::Check(error)),
    }
}

/// What these forms are refused for, but for a limit.
fn next_of(alloc: Global, forms: &[Form]) -> Result<Next, AllocError> {
    match resolve(alloc, forms) {
        Ok(raw) => match check(alloc, raw) {
            Ok(program) => {
                drop(program);
                Ok(Next::Nothing)
            }
            Err((raw, error)) => {
                drop(raw);
                next_of_check(error)
            }
        },
        Err(error) => match error.kind {
            ResolveErrorKind::Memory => Err(AllocError),
            ResolveErrorKind::TooMany => Ok(Next::Nothing),
            _ => Ok(Next::Resolve(error)),
        },
    }
}

/// What to do about it, and at which byte; nothing where nothing is known.
fn on_next<'a>(text: &'a [u8], forms: &'a [Form], next: Next) -> (Sentence<'a>, u32) {
    match next {
        Next::Nothing => (plain(""), 0),
        Next::Resolve(error) => {
            let kind = plain(of_resolve(error.kind).unwrap_or(""));
            (or(on_resolved(text, forms, error), kind), error.at.from)
        }
        Next::Check(error) => {
            let kind = plain(of_check(error.kind).unwrap_or(""));
            (or(on_checked(forms, error), kind), error.at.from)
        }
    }
}

/// Appends the line of a byte, behind a text.
fn write_line(out: &mut String, front: &str, text: &[u8], at: usize) -> Result<(), AllocError> {
    out.push_str(front)?;
    write_count(out, Some(position(text, at).line))
}

/// Appends the lines in which strays begin.
fn write_lines(out: &mut String, text: &[u8], strays: Strays) -> Result<(), AllocError> {
    write_line(out, " forms at the top, in lines ", text, strays.first)?;
    match strays.count {
        0..=2 => write_line(out, " and ", text, strays.second),
        3 => {
            write_line(out, ", ", text, strays.second)?;
            write_line(out, " and ", text, strays.third)
        }
        _ => {
            write_line(out, ", ", text, strays.second)?;
            write_line(out, ", ", text, strays.third)?;
            out.push_str(" and others")
        }
    }
}

/// Appends the sentence about strays.
fn write_strays(out: &mut String, text: &[u8], strays: Strays) -> Result<(), AllocError> {
    if strays.count < 2 {
        return out.push_str(NOT_AT_TOP);
    }
    write_count(out, Some(strays.count))?;
    write_lines(out, text, strays)?;
    out.push_str(
        ", belong into a `(future ..)`: only `ns`, `def`, `defn` and `future` stand at the top.",
    )
}

/// Appends the sentence about what comes next, at a byte, if there is one.
fn write_next(
    out: &mut String,
    text: &[u8],
    next: Sentence<'_>,
    at: u32,
) -> Result<(), AllocError> {
    if next.text.is_empty() {
        return Ok(());
    }
    let place = position(text, at as usize);
    out.push_str(" Next, at ")?;
    write_count(out, Some(place.line))?;
    out.push_str(":")?;
    write_count(out, Some(place.column))?;
    out.push_str(": ")?;
    write(out, next)
}

/// Appends what comes next, once the strays are in a future.
fn write_gathered(
    alloc: Global,
    out: &mut String,
    text: &[u8],
    forms: Vec<Form>,
) -> Result<(), AllocError> {
    let forms = match gathered(alloc, forms) {
        Ok(forms) => forms,
        Err(error) => return Err(error),
    };
    let next = match next_of(alloc, &forms) {
        Ok(next) => next,
        Err(error) => return Err(error),
    };
    let (said, at) = on_next(text, &forms, next);
    write_next(out, text, said, at)
}

/// Appends what to do about strays, and about what comes next.
fn write_all(
    alloc: Global,
    out: &mut String,
    text: &[u8],
    forms: Vec<Form>,
) -> Result<(), AllocError> {
    let strays = strays_of(&forms);
    match write_strays(out, text, strays) {
        Ok(()) => {}
        Err(error) => return Err(error),
    }
    let Some(i) = strays.odd else {
        return write_gathered(alloc, out, text, forms);
    };
    let at = match forms.get(i) {
        Some(form) => form.span().from,
        None => 0,
    };
    write_next(out, text, on_head(name_at(parts_at(&forms, i), 0)), at)
}

/// What to do about strays, and about what comes next.
fn on_all(alloc: Global, text: &[u8], forms: Vec<Form>) -> Result<Option<String>, AllocError>
    ensures { IfOk result (λ shown. IfSome shown (λ text. Safe (string_bytes text))) }
{
    let mut out = String::new(alloc);
    match write_all(alloc, &mut out, text, forms) {
        Ok(()) => Ok(if_safe(out)),
        Err(error) => Err(error),
    }
}

/// The index of the form at the top that has just this span; past the end, if none has.
fn index_at(forms: &[Form], at: Span) -> usize {
    for (i, form) in forms.iter().enumerate() {
        if form.span() == at {
            return i;
        }
    }
    forms.len()
}

/// What to do about forms that are no program, as far as that is seen at the span: about a name, a list that belongs at the top, or a
/// form below that.
fn on_resolved<'a>(text: &'a [u8], forms: &'a [Form], error: ResolveError) -> Sentence<'a>
    ensures { resolve_seen error.kind ≡ false → says result ≡ None }
{
    if !matches!(error.kind, ResolveErrorKind::BadForm) {
        return on_name(text, forms, error);
    }
    let here = surroundings(forms, error.at, "", unlike(""));
    let is_top = index_at(forms, error.at) < forms.len();
    match here.parts.get(here.index) {
        Some(form) if is_top && is_kept(form) => on_top(parts_at(here.parts, here.index)),
        _ => on_form(here.parts, here.index),
    }
}

/// Whether the form at this index of a script is a name with an operation behind it, as in `x = 5`.
fn is_infix(forms: &[Form], i: usize) -> bool {
    !name_at(forms, i).is_empty() && !takes(name_at(forms, i.saturating_add(1))).1.is_empty()
}

/// What to do about a form at the top that doesn't belong there, alone; nothing where it belongs into a future.
fn on_stray(forms: &[Form], i: usize) -> Sentence<'_> {
    if is_infix(forms, i) {
        return plain(INFIX);
    }
    let head = name_at(parts_at(forms, i), 0);
    if is_odd(head) && definition_of(forms, head).is_empty() {
        on_head(head)
    } else {
        plain("")
    }
}

/// What to do about forms that are no program, as far as that is seen at the span. If forms at the top belong into a future, it is
/// also said what the script is refused for next, once they are there.
///
/// # Errors
/// Where there was no memory for the sentence, or for the forms of the script.
#[tactic(auto, using(txs_cli_advice_script::proofs::Shows::none_from_option_map))]
pub fn on_resolve(
    alloc: Global,
    text: &[u8],
    error: ResolveError,
) -> Result<Option<String>, AllocError>
    ensures safe { IfOk result (λ shown. IfSome shown (λ text. Safe (string_bytes text))) }
    ensures quiet { resolve_seen error.kind ≡ false → IfOk result (λ shown. shown ≡ None) }
{
    let forms = match forms_of(alloc, text) {
        Ok(forms) => forms,
        Err(error) => return Err(error),
    };
    let i = index_at(&forms, error.at);
    let is_stray = match forms.get(i) {
        Some(form) => matches!(error.kind, ResolveErrorKind::BadForm) && !is_kept(form),
        None => false,
    };
    if !is_stray {
        return written(alloc, on_resolved(text, &forms, error));
    }
    let said = on_stray(&forms, i);
    if said.text.is_empty() {
        on_all(alloc, text, forms)
    } else {
        written(alloc, said)
    }
}
