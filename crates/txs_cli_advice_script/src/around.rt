//! What is around a span: the list that has it as a part, and the names that are in scope there.

ghost use Rattle.std.specs.Prelude.{◌≡◌, ◌<◌, length, slice_get, IfSome};
ghost use Rattle.std.specs.List.{position_or_len};
ghost use Rattle.txs_reader.specs.Tree.{group, place, tree, trees, trees_of};
ghost use Rattle.txs_cli_advice_script.specs.Nears.{Nearest};
ghost use Rattle.txs_cli_advice_script.specs.Forms.{names_defined};
ghost use Rattle.txs_cli_advice_script.specs.Surroundings.{NearestInside, Surrounds, covers, function_place, names_function, names_of};

use crate::script::{defined_at, first_vector, items_at, name_at};
use crate::{Near, in_rows, nearer};
use txs_reader::{Bracket, Form};
use txs_value_data::Span;

/// Forms nest at most so deep: a bracket in a hundred others is refused.
const LEVELS: usize = 101;

/// The list or vector of which the form at a span is a part, the index of that part, and the local that is nearest to a name.
#[derive(Clone, Copy)]
pub struct Around<'a> {
    pub parts: &'a [Form],
    pub index: usize,
    pub near: Near<'a>,
}

/// Whether a span is within another.
fn covers(outer: Span, inner: Span) -> bool
    ensures { result ≡ covers outer inner }
{
    outer.from <= inner.from && inner.to <= outer.to
}

/// Which of the forms has the span within it; past the end, if none has.
fn index_of(forms: &[Form], at: Span) -> usize
    ensures { result ≡ position_or_len (λ form. covers (place form) at) (trees forms.now) }
{
    for (i, form) in forms.iter().enumerate() {
        if covers(form.span(), at) {
            return i;
        }
    }
    forms.len()
}

/// The forms with binding pairs, and how many forms of each pair come before the next name.
static BINDERS: [(&'static str, bool); 1] = [("let loop", true)];

/// Whether the form at this index ends before a byte.
fn is_before(forms: &[Form], i: usize, at: u32) -> bool {
    match forms.get(i) {
        Some(form) => form.span().to <= at,
        None => false,
    }
}

/// The name at an index of a vector of pairs, if it is bound before a byte, and nearer than this.
fn nearest_bound_at<'a>(
    name: &str,
    items: &'a [Form],
    i: usize,
    at: u32,
    best: Near<'a>,
) -> Near<'a>
    requires { i < length items.now }
    ensures { Nearest (names_of (trees items.now)) best.entry result }
{
    if i % 2 == 0 && is_before(items, i.saturating_add(1), at) {
        nearer(name, best, name_at(items, i))
    } else {
        best
    }
}

/// The nearest of the names that a vector of pairs binds before a byte.
fn nearest_bound<'a>(name: &str, items: &'a [Form], at: u32, best: Near<'a>) -> Near<'a>
    ensures { Nearest (names_of (trees items.now)) best.entry result }
{
    let mut best = best;
    for i in 0..items.len() {
        best = nearest_bound_at(name, items, i, at, best);
    }
    best
}

/// The nearest of these names.
fn nearest_of<'a>(name: &str, items: &'a [Form], best: Near<'a>) -> Near<'a>
    ensures { Nearest (names_of (trees items.now)) best.entry result }
{
    let mut best = best;
    for i in 0..items.len() {
        best = nearer(name, best, name_at(items, i));
    }
    best
}

/// The nearest of the names that a list binds for what is at a byte.
fn nearest_in<'a>(name: &str, parts: &'a [Form], at: u32, best: Near<'a>) -> Near<'a>
    ensures { NearestInside (trees parts.now) best.entry result }
{
    let head = name_at(parts, 0);
    if in_rows(&BINDERS, head, false) {
        return match items_at(parts, 1) {
            Some(items) => nearest_bound(name, items, at, best),
            None => best,
        };
    }
    if head != "defn" {
        return best;
    }
    match first_vector(parts) {
        Some(items) => nearest_of(name, items, best),
        None => best,
    }
}

/// What is around a span in these forms, which are the parts of a list or vector. A nearer name may be among those that it binds.
fn within<'a>(
    bracket: Bracket,
    forms: &'a [Form],
    at: Span,
    name: &str,
    near: Near<'a>,
) -> Around<'a>
    ensures parts { result.parts.now ≡ forms.now }
    ensures index { result.index ≡ position_or_len (λ form. covers (place form) at) (trees forms.now) }
    ensures near { NearestInside (trees forms.now) near.entry result.near }
{
    let near = match bracket {
        Bracket::Round => nearest_in(name, forms, at.from, near),
        Bracket::Square => near,
    };
    Around {
        parts: forms,
        index: index_of(forms, at),
        near,
    }
}

/// The list or vector that a form is, if it is one: its bracket, its parts and its span.
fn group_of(form: &Form) -> Option<(Bracket, &[Form], Span)>
    ensures { IfSome result (λ found. tree form.now ≡ group found.0 (trees_of (trees found.1.now)) found.2) }
{
    match form {
        Form::Group(bracket, parts, span) => Some((*bracket, parts, *span)),
        _ => None,
    }
}

/// The list or vector at this index, if it is one.
fn group_at(forms: &[Form], i: usize) -> Option<(Bracket, &[Form], Span)>
    ensures { IfSome result (λ found. slice_get (trees forms.now) i ≡ Some (group found.0 (trees_of (trees found.1.now)) found.2)) }
{
    match forms.get(i) {
        Some(form) => group_of(form),
        None => None,
    }
}

/// What is around the form at a span, from these forms inward.
pub fn surroundings<'a>(forms: &'a [Form], at: Span, name: &str, none: Near<'a>) -> Around<'a>
    ensures { Surrounds (trees forms.now) at none.entry result }
{
    let mut here = within(Bracket::Square, forms, at, name, none);
    for _ in 0..LEVELS {
        match group_at(here.parts, here.index) {
            Some((bracket, inner, span)) if span != at => {
                here = within(bracket, inner, at, name, here.near);
            }
            _ => return here,
        }
    }
    here
}

/// The nearest of the names that a script defines.
pub fn nearest_defined<'a>(forms: &'a [Form], name: &str, best: Near<'a>) -> Near<'a>
    ensures { Nearest (names_defined (trees forms.now)) best.entry result }
{
    let mut best = best;
    for i in 0..forms.len() {
        best = nearer(name, best, defined_at(forms, i));
    }
    best
}

/// Where a list that begins with one of these has the name of the function that it calls.
static CALLERS: [(&'static str, usize); 1] = [("alter commute swap! send", 2)];

/// Where a list that begins with this name has the name of the function that it calls: in front, but for a form on a cell.
pub fn place_of_function(head: &str) -> usize
    ensures { result ≡ function_place head.now }
{
    in_rows(&CALLERS, head, 0)
}

impl<'a> Around<'a> {
    /// Whether the part is where a function is named.
    pub fn is_called(self) -> bool
        ensures { result ≡ names_function (trees self.entry.parts.now) self.entry.index }
    {
        let at = place_of_function(name_at(self.parts, 0));
        self.index == 0 || (at > 0 && self.index == at)
    }
}
