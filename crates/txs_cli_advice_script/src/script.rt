//! What a script has, read again: the bytes and the forms at a span, and what is defined at the top.

ghost use Rattle.std.specs.Prelude.{◌≡◌, ◌⊎◌, [], if◌then◌else◌, slice_get, IfOk};
ghost use Rattle.std.specs.Option.{option_map};
ghost use Rattle.txs_cli_advice_script.specs.Shown.{text_of};
ghost use Rattle.txs_reader.specs.Script.{Reads};
ghost use Rattle.txs_reader.specs.Tree.{tree, trees};
ghost use Rattle.txs_cli_advice_script.specs.Forms.{bytes_in, defines, first_items, items_in, items_of, last_definition, name_defined, name_in, name_of, parts_in, parts_of};

use crate::{in_rows, text_of};
use std::alloc::{AllocError, Global};
use txs_reader::{Bracket, Form, ReadErrorKind, read_script};
use txs_value_data::Span;

/// The bytes at a span; none where the text is shorter.
pub fn bytes_at(text: &[u8], at: Span) -> &[u8]
    ensures { result.now ≡ bytes_in text.now at }
{
    let (from, to) = (at.from as usize, at.to as usize);
    if from <= to && to <= text.len() {
        &text[from..to]
    } else {
        &[]
    }
}

/// The characters at a span; none where they are not whole.
pub fn word_at(text: &[u8], at: Span) -> &str
    ensures { result.now ≡ text_of (bytes_in text.now at) }
{
    text_of(bytes_at(text, at))
}

/// The forms of a text; none where it isn't read.
///
/// # Errors
/// Where there was no memory for them.
pub fn forms_of(alloc: Global, text: &[u8]) -> Result<Vec<Form>, AllocError>
    ensures { IfOk result (λ forms. Reads text.now (trees forms.items) ⊎ (forms.items ≡ [])) }
{
    match read_script(alloc, text) {
        Ok(forms) => Ok(forms),
        Err(error) => match error.kind {
            ReadErrorKind::Memory => Err(AllocError),
            _ => Ok(Vec::new(alloc)),
        },
    }
}

/// The name that a form is; the empty one where it is no symbol.
fn name_of(form: &Form) -> &str
    ensures { result.now ≡ name_of (tree form.now) }
{
    match form {
        Form::Symbol(name, _) => text_of(name.as_bytes()),
        _ => "",
    }
}

/// The forms of a list; none where it is no list.
fn parts_of(form: &Form) -> &[Form]
    ensures { trees result.now ≡ parts_of (tree form.now) }
{
    let Form::Group(Bracket::Round, parts, _) = form else {
        return &[];
    };
    parts
}

/// The items of a vector, if it is one.
fn items_of(form: &Form) -> Option<&[Form]>
    ensures { option_map (λ items. trees items.now) result ≡ items_of (tree form.now) }
{
    let Form::Group(Bracket::Square, items, _) = form else {
        return None;
    };
    Some(items)
}

/// The name that the form at this index is; the empty one where it is no symbol.
pub fn name_at(forms: &[Form], i: usize) -> &str
    ensures { result.now ≡ name_in (slice_get (trees forms.now) i) }
{
    match forms.get(i) {
        Some(form) => name_of(form),
        None => "",
    }
}

/// The forms of the list at this index; none where it is no list.
pub fn parts_at(forms: &[Form], i: usize) -> &[Form]
    ensures { trees result.now ≡ parts_in (slice_get (trees forms.now) i) }
{
    match forms.get(i) {
        Some(form) => parts_of(form),
        None => &[],
    }
}

/// The items of the vector at this index, if it is one.
pub fn items_at(forms: &[Form], i: usize) -> Option<&[Form]>
    ensures { option_map (λ items. trees items.now) result ≡ items_in (slice_get (trees forms.now) i) }
{
    match forms.get(i) {
        Some(form) => items_of(form),
        None => None,
    }
}

/// The items of the first vector among these, if there is one.
pub fn first_vector(forms: &[Form]) -> Option<&[Form]>
    ensures { option_map (λ items. trees items.now) result ≡ first_items (trees forms.now) }
{
    for form in forms {
        if let Some(items) = items_of(form) {
            return Some(items);
        }
    }
    None
}

/// The forms that define a name.
static DEFINITIONS: [(&'static str, bool); 1] = [("def defn", true)];

/// The name that a list of these parts defines; the empty one where it defines none.
fn name_defined(parts: &[Form]) -> &str
    ensures { result.now ≡ name_defined (trees parts.now) }
{
    if in_rows(&DEFINITIONS, name_at(parts, 0), false) {
        name_at(parts, 1)
    } else {
        ""
    }
}

/// The name that the form at this index of a script defines; the empty one where it defines none.
pub(crate) fn defined_at(forms: &[Form], i: usize) -> &str
    ensures { result.now ≡ name_defined (parts_in (slice_get (trees forms.now) i)) }
{
    name_defined(parts_at(forms, i))
}

/// The parts of a form, where it defines a name; else these.
fn definition_or<'a>(form: &'a Form, name: &str, otherwise: &'a [Form]) -> &'a [Form]
    ensures { trees result.now ≡ (if defines name.now (parts_of (tree form.now)) then parts_of (tree form.now) else trees otherwise.now) }
{
    let parts = parts_of(form);
    if !name.is_empty() && name_defined(parts) == name {
        parts
    } else {
        otherwise
    }
}

/// The parts of the last definition of a name in a script; none where it has none.
pub fn definition_of<'a>(forms: &'a [Form], name: &str) -> &'a [Form]
    ensures { trees result.now ≡ last_definition name.now (trees forms.now) }
{
    let mut found: &'a [Form] = &[];
    for form in forms {
        found = definition_or(form, name, found);
    }
    found
}
