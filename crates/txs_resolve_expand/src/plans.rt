//! What each form is, once it is expanded: the table of the forms.

ghost use Rattle.std.specs.Prelude.{◌≡◌, ◌∷◌, Ok, IfOk, Some, IfSome};
ghost use Rattle.txs_resolve_expand.specs.declared.names.FormName.TheVariants.{Cond, Do};
ghost use Rattle.txs_resolve_expand.specs.Scope.{Scope as AScope};
ghost use Rattle.txs_reader.specs.declared.form.Bracket.TheVariants.{Round};
ghost use Rattle.txs_reader.specs.Tree.{tree, group, first, place};
ghost use Rattle.txs_value_data.specs.declared.fault.Span.{Span as ASpan};
ghost use Rattle.txs_value_cell.specs.declared.form.CellForm.TheVariants.{Look, Put};
ghost use Rattle.txs_value_data.specs.declared.op.Callee.TheVariants.{Core as CoreOp};
ghost use Rattle.txs_resolve_expand.specs.Expansions.{expand_once};
ghost use Rattle.txs_resolve_expand.specs.declared.shapes.Spot.{Spot as ASpot};
ghost use Rattle.txs_resolve_expand.specs.Expressions.{applied, cell_form, core_of, of_family};
ghost use Rattle.txs_resolve_expand.specs.Parts.{binding_name, change_form, choice_name, core_form, guard_name, first_or_nil, logic_name, own_spot, part_form, plain, seen, table, told, CoreFits, PartFits};
ghost use Rattle.txs_resolve_expand.specs.Parts.{core_at as the_core};

use crate::error::{ResolveError, ResolveErrorKind, refusal};
use crate::parts::{Core, Part, Special, Whole, alone, form_at};
use crate::shapes::{Change, Couple, Sequence, Single, Spot, are_pairs, callee, is_chain};
use crate::{FormName, Scope};
use txs_reader::{Bracket, Form};
use txs_value_cell::{CellForm, LookForm, PutForm, UpdateForm};
use txs_value_data::{Callee, Op, Span};

/// The first of the forms, else nil.
fn first_of(forms: &[Form]) -> Part<'_>
    ensures form { (at : ASpan) → part_form at result ≡ first_or_nil (plain forms.now) at }
    ensures fits { (scope : AScope) → PartFits scope result }
{
    match forms.split_first() {
        Some((form, _)) => Part::Written(form),
        None => Part::Nil,
    }
}

/// An `if`, or an `if-not`, whose branches are turned.
fn either(turned: bool, args: &[Form]) -> Option<Core<'_>>
    ensures core { (scope : AScope) (s : ASpot) → told s result ≡ table (choice_name turned) scope s (plain args.now) }
    ensures fits { (scope : AScope) → IfSome result (CoreFits scope) }
{
    let (test, behind) = args.split_first()?;
    let (one, rest) = behind.split_first()?;
    if rest.len() > 1 {
        return None;
    }
    let (test, one, other) = (Part::Written(test), Part::Written(one), first_of(rest));
    Some(Core::Parted(Special::Choice(turned, test, one, other)))
}

/// A `when`, or a `when-not`, whose branches are turned.
fn guarded(turned: bool, args: &[Form]) -> Option<Core<'_>>
    ensures core { (scope : AScope) (s : ASpot) → told s result ≡ table (guard_name turned) scope s (plain args.now) }
    ensures fits { (scope : AScope) → IfSome result (CoreFits scope) }
{
    let (test, forms) = args.split_first()?;
    let body = Part::List(FormName::Do, forms);
    Some(Core::Parted(Special::Choice(turned, Part::Written(test), body, Part::Nil)))
}

/// A `cond`.
fn cond(args: &[Form]) -> Option<Core<'_>>
    ensures core { (scope : AScope) (s : ASpot) → told s result ≡ table Cond scope s (plain args.now) }
    ensures fits { (scope : AScope) → IfSome result (CoreFits scope) }
{
    let Some((test, behind)) = args.split_first() else {
        return Some(Core::Whole(Whole::Nil));
    };
    let (one, rest) = behind.split_first()?;
    if rest.len() % 2 != 0 {
        return None;
    }
    let other = Part::List(FormName::Cond, rest);
    Some(Core::Parted(Special::Choice(false, Part::Written(test), Part::Written(one), other)))
}

/// An `and`, or an `or`.
fn logic(is_or: bool, args: &[Form]) -> Option<Core<'_>>
    ensures core { (scope : AScope) (s : ASpot) → told s result ≡ table (logic_name is_or) scope s (plain args.now) }
    ensures fits { (scope : AScope) → IfSome result (CoreFits scope) }
{
    let Some((value, rest)) = args.split_first() else {
        return Some(Core::Whole(if is_or { Whole::Nil } else { Whole::Truth }));
    };
    if rest.len() == 0 {
        return None;
    }
    Some(Core::Parted(Special::Hidden(is_or, value, rest)))
}

/// A `do`.
fn block(args: &[Form]) -> Core<'_>
    ensures core { (scope : AScope) (s : ASpot) → Ok (core_form s.span result) ≡ table Do scope s (plain args.now) }
    ensures fits { (scope : AScope) → CoreFits scope result }
{
    if args.len() == 0 {
        return Core::Whole(Whole::Nil);
    }
    Core::Parted(Special::Row(Sequence::Do, args))
}

/// A `let`, or a `loop`.
fn binding(is_loop: bool, args: &[Form]) -> Option<Core<'_>>
    ensures core { (scope : AScope) (s : ASpot) → told s result ≡ table (binding_name is_loop) scope s (plain args.now) }
    ensures fits { (scope : AScope) → IfSome result (CoreFits scope) }
{
    let Some((Form::Group(Bracket::Square, pairs, _), forms)) = args.split_first() else {
        return None;
    };
    if !are_pairs(pairs) {
        return None;
    }
    Some(Core::Parted(Special::Binding(is_loop, pairs, forms)))
}

/// A form that reads this cell, behind which nothing is.
fn reading<'a>(form: LookForm, cell: &'a Form, behind: &'a [Form]) -> Option<Core<'a>>
    ensures core { (s : ASpot) → told s result ≡ of_family (Some (Look form)) s.span (first (tree cell.now) (plain behind.now)) }
    ensures fits { (scope : AScope) → IfSome result (CoreFits scope) }
{
    if behind.len() != 0 {
        return None;
    }
    Some(Core::Parted(Special::Single(Single::Look(form), Part::Written(cell))))
}

/// A form that gives this cell the value behind it.
fn putting<'a>(form: PutForm, cell: &'a Form, behind: &'a [Form]) -> Option<Core<'a>>
    ensures core { (s : ASpot) → told s result ≡ of_family (Some (Put form)) s.span (first (tree cell.now) (plain behind.now)) }
    ensures fits { (scope : AScope) → IfSome result (CoreFits scope) }
{
    let (value, rest) = behind.split_first()?;
    if rest.len() != 0 {
        return None;
    }
    Some(Core::Parted(Special::Pair(Couple::Put(form), Part::Written(cell), value)))
}

/// A form on this cell that calls what is behind it.
fn changing<'a>(change: Change, cell: &'a Form, behind: &'a [Form]) -> Option<Core<'a>>
    ensures core { (s : ASpot) → told s result ≡ of_family (Some (change_form change)) s.span (first (tree cell.now) (plain behind.now)) }
    ensures fits { (scope : AScope) → IfSome result (CoreFits scope) }
{
    let (function, args) = behind.split_first()?;
    Some(Core::Changing(change, cell, function, args))
}

/// A form on a cell, by its name.
fn cell_form(name: FormName) -> Option<CellForm>
    ensures { result ≡ cell_form name }
{
    match name {
        FormName::Deref => Some(CellForm::Look(LookForm::Deref)),
        FormName::Ensure => Some(CellForm::Look(LookForm::Ensure)),
        FormName::RefSet => Some(CellForm::Put(PutForm::RefSet)),
        FormName::Reset => Some(CellForm::Put(PutForm::Reset)),
        FormName::Alter => Some(CellForm::Update(UpdateForm::Alter)),
        FormName::Commute => Some(CellForm::Update(UpdateForm::Commute)),
        FormName::Swap => Some(CellForm::Update(UpdateForm::Swap)),
        FormName::Send => Some(CellForm::Send),
        _ => None,
    }
}

/// A form on a cell, by what its family wants behind the cell.
fn on_cell(name: FormName, args: &[Form]) -> Option<Core<'_>>
    ensures core { (s : ASpot) → told s result ≡ of_family (cell_form name) s.span (plain args.now) }
    ensures fits { (scope : AScope) → IfSome result (CoreFits scope) }
{
    let form = cell_form(name)?;
    let (cell, behind) = args.split_first()?;
    match form {
        CellForm::Look(look) => reading(look, cell, behind),
        CellForm::Put(put) => putting(put, cell, behind),
        CellForm::Update(update) => changing(Change::Update(update), cell, behind),
        CellForm::Send => changing(Change::Send, cell, behind),
    }
}

/// What a list is at whose head the name of a form is.
fn special(name: FormName, args: &[Form]) -> Option<Core<'_>>
    ensures core { (scope : AScope) (s : ASpot) → told s result ≡ table name scope s (plain args.now) }
    ensures fits { (scope : AScope) → IfSome result (CoreFits scope) }
{
    match name {
        FormName::If => either(false, args),
        FormName::IfNot => either(true, args),
        FormName::When => guarded(false, args),
        FormName::WhenNot => guarded(true, args),
        FormName::And => logic(false, args),
        FormName::Or => logic(true, args),
        FormName::Cond => cond(args),
        FormName::Do => Some(block(args)),
        FormName::Let => binding(false, args),
        FormName::Loop => binding(true, args),
        FormName::Recur => Some(Core::Parted(Special::Row(Sequence::Recur, args))),
        FormName::Println => Some(Core::Parted(Special::Row(Sequence::Println, args))),
        FormName::Dosync => {
            let body = Part::List(FormName::Do, args);
            Some(Core::Parted(Special::Single(Single::Dosync, body)))
        }
        _ => on_cell(name, args),
    }
}

/// What a list is at whose head the name of a form is, for a form at this spot.
fn shaped<'a>(spot: Spot, name: FormName, args: &'a [Form]) -> Result<Core<'a>, ResolveError>
    ensures core { (scope : AScope) → seen (core_form spot.span) result ≡ table name scope spot (plain args.now) }
    ensures fits { (scope : AScope) → IfOk result (CoreFits scope) }
{
    match special(name, args) {
        Some(core) => Ok(core),
        None => Err(refusal(ResolveErrorKind::BadForm, spot.span)),
    }
}

/// An operation: that on more than two arguments is the chain of its pairs.
fn operation<'a>(op: Op, head: &Form, forms: &'a [Form], args: &'a [Form]) -> Core<'a>
    requires { forms.now ≡ head.now ∷ args.now }
    ensures core { (at : ASpan) → core_form at result ≡ applied (CoreOp op) (tree head.now) (plain args.now) at }
    ensures fits { (scope : AScope) → CoreFits scope result }
{
    if !is_chain(op, args.len()) {
        return Core::Parted(Special::Row(Sequence::Core(op), args));
    }
    let Some((last, prefix)) = forms.split_last() else {
        return Core::Parted(Special::Row(Sequence::Core(op), args));
    };
    Core::Parted(Special::Pair(Couple::Core(op), Part::Prefix(prefix), last))
}

/// What a list is, by the form whose name is at its head, else by what is called.
fn list<'a>(scope: &Scope<'_>, spot: Spot, forms: &'a [Form]) -> Result<Core<'a>, ResolveError>
    ensures core { seen (core_form spot.span) result ≡ core_of scope.now spot (expand_once (group Round (plain forms.now) spot.span)) }
    ensures fits { IfOk result (CoreFits scope.now) }
{
    let Some((head, args)) = forms.split_first() else {
        return Err(refusal(ResolveErrorKind::BadForm, spot.span));
    };
    if let Some(name) = form_at(head) {
        return shaped(spot, name, args);
    }
    if spot.room == 0 {
        return Err(refusal(ResolveErrorKind::TooMany, spot.span));
    }
    match callee(scope, spot, head)? {
        Callee::Core(op) => Ok(operation(op, head, forms, args)),
        Callee::Function(number) => Ok(Core::Parted(Special::Row(Sequence::Call(number), args))),
    }
}

/// What a written form is.
fn written<'a>(scope: &Scope<'_>, spot: Spot, form: &'a Form) -> Result<Core<'a>, ResolveError>
    requires { spot.span ≡ place (tree form.now) }
    ensures core { seen (core_form spot.span) result ≡ core_of scope.now spot (expand_once (tree form.now)) }
    ensures fits { IfOk result (CoreFits scope.now) }
{
    match form {
        Form::Symbol(name, _) => Ok(Core::Whole(Whole::Name(name))),
        Form::Group(Bracket::Round, forms, _) => list(scope, spot, forms),
        Form::Group(Bracket::Square, forms, _) => Ok(Core::Parted(Special::Row(
            Sequence::Vector,
            forms,
        ))),
        _ => Ok(Core::Whole(Whole::Literal(form))),
    }
}

/// What a form is at its own spot, once it is expanded.
fn plan<'a>(scope: &Scope<'_>, spot: Spot, part: Part<'a>) -> Result<Core<'a>, ResolveError>
    requires place { spot.span ≡ place (part_form spot.span part) }
    requires fits { PartFits scope.now part }
    ensures core { seen (core_form spot.span) result ≡ core_of scope.now spot (expand_once (part_form spot.span part.entry)) }
    ensures fits { IfOk result (CoreFits scope.now) }
{
    match part {
        Part::Written(form) => written(scope, spot, form),
        Part::List(name, args) => shaped(spot, name, args),
        Part::Prefix(forms) => list(scope, spot, forms),
        Part::Nil => Ok(Core::Whole(Whole::Nil)),
        Part::Hidden(number) => Ok(Core::Whole(Whole::Hidden(number))),
        Part::Choice(number, is_or, rest) => {
            let hidden = Part::Hidden(number);
            Ok(Core::Parted(if is_or {
                Special::Choice(false, hidden, hidden, Part::List(FormName::Or, rest))
            } else {
                Special::Choice(false, hidden, Part::List(FormName::And, rest), hidden)
            }))
        }
    }
}

/// Where a part is: what an expansion makes has the place of the written form.
fn place_of(part: Part<'_>, made: Span) -> Span
    ensures { result ≡ place (part_form made part.entry) }
{
    match part {
        Part::Written(form) => form.span(),
        _ => made,
    }
}

/// What a form is, once it is expanded, and the spot at which it is that: its own, since a form of one part may be
/// that part. A form's shape is looked at before the room that its node finds.
///
/// # Errors
/// The refusal of the form itself; none of its parts is looked at, but for what a list calls.
pub fn core_at<'a>(
    scope: &Scope<'_>,
    spot: Spot,
    part: Part<'a>,
) -> Result<(Spot, Core<'a>), ResolveError>
    requires { PartFits scope.now part }
    ensures core { seen (λ c. core_form c.0.span c.1) result ≡ the_core scope.now spot (part_form spot.span part.entry) }
    ensures spot { IfOk result (λ c. c.0 ≡ own_spot spot (part_form spot.span part.entry)) }
    ensures fits { IfOk result (λ c. CoreFits scope.now c.1) }
{
    let part = alone(part);
    let spot = Spot {
        room: spot.room,
        span: place_of(part, spot.span),
        wanted: spot.wanted,
    };
    Ok((spot, plan(scope, spot, part)?))
}
