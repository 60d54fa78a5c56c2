//! What is below a form: the spots of its parts, whether their results are wanted, and the names that it binds.

ghost use Rattle.std.specs.Prelude.{◌≡◌, ◌<◌, ◌≤◌, ◌+◌, ◌-◌, ◌||◌, length, drop, OnOk};
ghost use Rattle.txs_resolve_expand.specs.Expressions.{are_wanted, bound_name, flag, is_wanted, spot_at};
ghost use Rattle.txs_resolve_expand.specs.Parts.{seen};
ghost use Rattle.txs_reader.specs.Tree.{tree, trees, trees_of};
ghost use Rattle.txs_resolve.specs.Walk.{Hides};
ghost use Rattle.txs_value_data.specs.Limits.{most_locals};

use txs_reader::Form;
use txs_resolve_expand::{
    ResolveError, ResolveErrorKind, Scope, Sequence, Single, Spot, may_bind, refusal,
};
use txs_value_data::Name;
use txs_value_data::limits::MOST_LOCALS;

/// One level further down.
pub fn inner(spot: Spot, wanted: bool) -> Spot
    requires { 1 ≤ spot.room }
    ensures { result ≡ spot_at (spot.room - 1) spot.span wanted }
{
    Spot {
        room: spot.room - 1,
        span: spot.span,
        wanted,
    }
}

/// Whether the result of each item of a row is wanted.
pub fn are_wanted(kind: Sequence) -> bool
    ensures { result ≡ are_wanted kind }
{
    !matches!(kind, Sequence::Do)
}

/// Whether the result of the last item is wanted, where that of the row is or isn't.
pub fn last_wanted(kind: Sequence, wanted: bool) -> bool
    ensures { result ≡ (are_wanted kind || wanted) }
{
    match kind {
        Sequence::Do => wanted,
        _ => true,
    }
}

/// Whether the result of a form's only part is wanted, where its own is or isn't.
pub fn part_wanted(single: Single, wanted: bool) -> bool
    ensures { result ≡ (is_wanted single || wanted) }
{
    match single {
        Single::Dosync => wanted,
        Single::Look(_) => true,
    }
}

/// The flag of the form at this index, by whether forms are behind it.
pub fn flag_at(inner: bool, last: bool, forms: &[Form], i: usize) -> bool
    requires { i < length forms.now }
    ensures { result ≡ flag inner last (trees_of (trees (drop (i + 1) forms.now))) }
{
    if i + 1 == forms.len() { last } else { inner }
}

/// The name that the form binds, where one more local may be in scope.
pub fn bindable<'f>(scope: &Scope<'_>, form: &'f Form) -> Result<&'f Name, ResolveError>
    ensures name { seen (λ n. n.now) result ≡ bound_name scope.now (tree form.now) }
    ensures room { OnOk result (length scope.now.locals < most_locals) }
{
    match form {
        Form::Symbol(name, at) => {
            if !may_bind(name.as_bytes()) {
                return Err(refusal(ResolveErrorKind::BadForm, *at));
            }
            if scope.len() >= MOST_LOCALS {
                return Err(refusal(ResolveErrorKind::TooMany, *at));
            }
            Ok(name)
        }
        _ => Err(refusal(ResolveErrorKind::BadForm, form.span())),
    }
}

/// Binds a hidden local, and gives its number.
pub fn hide(scope: &mut Scope<'_>, spot: Spot) -> Result<u8, ResolveError>
    ensures { Hides result spot scope.old scope.new }
{
    let local = scope.len();
    if local >= MOST_LOCALS {
        return Err(refusal(ResolveErrorKind::TooMany, spot.span));
    }
    scope.push(&[]);
    Ok(local as u8)
}
