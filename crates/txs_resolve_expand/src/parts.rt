//! Forms as the resolver meets them: as they are written, or as an expansion makes them.

ghost use Rattle.std.specs.Prelude.{◌≡◌, true, length};
ghost use Rattle.txs_resolve_expand.specs.Scope.{Scope};
ghost use Rattle.txs_reader.specs.Tree.{tree};
ghost use Rattle.txs_resolve_expand.specs.Expansions.{alone, form_at, is_alone};
ghost use Rattle.txs_resolve_expand.specs.Parts.{is_single, part_form, plain, PartFits};
ghost use Rattle.txs_value_data.specs.declared.fault.Span.{Span as ASpan};

use crate::shapes::{Change, Couple, Sequence, Single};
use crate::{FormName, form_of};
use txs_reader::{Bracket, Form};
use txs_value_data::Name;

/// A form: one that is written, or one that an expansion makes of written ones.
#[derive(Clone, Copy)]
pub enum Part<'a> {
    Written(&'a Form),
    /// The list of a form's name and these parts.
    List(FormName, &'a [Form]),
    /// The list of these forms.
    Prefix(&'a [Form]),
    /// `nil`.
    Nil,
    /// The hidden local, which has this number.
    Hidden(u8),
    /// The choice by the hidden local of this number: of an `and` the rest of it, else that local; of an `or`,
    /// as the truth value says, that local, else the rest.
    Choice(u8, bool, &'a [Form]),
}

/// A form without parts.
#[derive(Clone, Copy)]
pub enum Whole<'a> {
    Name(&'a Name),
    Literal(&'a Form),
    Nil,
    Truth,
    /// The hidden local, which has this number.
    Hidden(u8),
}

/// A special form, with its parts in source order.
#[derive(Clone, Copy)]
pub enum Special<'a> {
    /// Forms in a row.
    Row(Sequence, &'a [Form]),
    /// The body of a transaction, or the cell that is read.
    Single(Single, Part<'a>),
    /// What an operation is applied to, or a cell and the value that it is given.
    Pair(Couple, Part<'a>, &'a Form),
    /// Whether the branches are turned, the test, and the branches.
    Choice(bool, Part<'a>, Part<'a>, Part<'a>),
    /// Whether it is a loop, names and values in turn, and the body.
    Binding(bool, &'a [Form], &'a [Form]),
    /// Whether it is an `or`, its first value, and the rest: the value is bound to a hidden local.
    Hidden(bool, &'a Form, &'a [Form]),
}

/// What a form is, once it is expanded.
#[derive(Clone, Copy)]
pub enum Core<'a> {
    Whole(Whole<'a>),
    Parted(Special<'a>),
    /// The cell that is changed, what is called, and its further arguments.
    Changing(Change, &'a Form, &'a Form, &'a [Form]),
}

/// The form that a list is, by the name at its head.
pub fn form_at(form: &Form) -> Option<FormName>
    ensures { result ≡ form_at (tree form.now) }
{
    match form {
        Form::Symbol(name, _) => form_of(name.as_bytes()),
        _ => None,
    }
}

/// Whether a form of one part is that part.
fn is_alone(name: Option<FormName>) -> bool
    ensures { result ≡ is_alone name }
{
    matches!(name, Some(FormName::Do | FormName::And | FormName::Or))
}

/// Whether a list of these forms has one part behind its head, and is that part.
fn is_single(forms: &[Form]) -> bool
    ensures value { result ≡ is_single (plain forms.now) }
    ensures len { result ≡ true → length forms.now ≡ 2 }
{
    if forms.len() != 2 {
        return false;
    }
    is_alone(form_at(&forms[0]))
}

/// The form itself, or the one that is its only part, as far in as that goes.
fn innermost(form: &Form) -> &Form
    ensures { tree result.now ≡ alone (tree form.now) }
{
    let Form::Group(Bracket::Round, forms, _) = form else {
        return form;
    };
    if !is_single(forms) {
        return form;
    }
    innermost(&forms[1])
}

/// The form that a part stands for, where its only part does.
pub fn alone(part: Part<'_>) -> Part<'_>
    ensures form { (at : ASpan) → alone (part_form at part.entry) ≡ part_form at result }
    ensures fits { (scope : Scope) → PartFits scope part.entry → PartFits scope result }
{
    match part {
        Part::Written(form) => Part::Written(innermost(form)),
        Part::List(name, forms) => {
            if forms.len() == 1 && is_alone(Some(name)) {
                return Part::Written(innermost(&forms[0]));
            }
            part
        }
        Part::Prefix(forms) => {
            if is_single(forms) {
                return Part::Written(innermost(&forms[1]));
            }
            part
        }
        _ => part,
    }
}
