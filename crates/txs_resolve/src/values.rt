//! Literals: forms to values.

ghost use Rattle.std.specs.Prelude.{◌≡◌, ◌≤◌, length, IfOk};
ghost use Rattle.txs_resolve.specs.BodyGiven.{Gives, refusal_of};
ghost use Rattle.txs_resolve.specs.Made.{scalar};
ghost use Rattle.txs_resolve.specs.Literals.{literal, literals};
ghost use Rattle.txs_reader.specs.Tree.{tree, trees, trees_of};
ghost use Rattle.txs_value_data.specs.Limits.{most_depth};
ghost use Rattle.txs_value_data.specs.PlainValue.{depth, row_depth, plain_row};
ghost use Rattle.txs_value_data.specs.View.{plain_of, plains_of};

use crate::stop::{Stop, refused};
use std::alloc::Global;
use txs_reader::{Bracket, Form};
use txs_resolve_expand::{ResolveError, ResolveErrorKind, refusal};
use txs_value_data::limits::MOST_ITEMS;
use txs_value_data::{Items, Value};

/// The value of a literal without parts; nothing else has one.
pub fn scalar(form: &Form) -> Result<Value, Stop>
    ensures value { Gives (λ v. v) result (scalar (tree form.now)) }
    ensures flat { IfOk result (λ v. depth (plain_of v) ≡ 0) }
{
    match form {
        Form::Nil(_) => Ok(Value::Nil),
        Form::Truth(b, _) => Ok(Value::Truth(*b)),
        Form::Number(n, _) => Ok(Value::Int(*n)),
        Form::Text(text, _) => Ok(Value::Text(text.share()?)),
        Form::Keyword(name, _) => Ok(Value::Key(name.share()?)),
        _ => Err(refused(ResolveErrorKind::BadForm, form.span())),
    }
}

/// Whether the vectors of a literal have no more than so many levels and find place: it wants no memory.
///
/// # Errors
/// The refusal of the first vector that has too many levels or parts.
#[cycle(fits)]
pub fn fits(room: usize, form: &Form) -> Result<(), ResolveError>
    requires { room ≤ most_depth }
    ensures { refusal_of result ≡ refusal_of (literal room (tree form.now)) }
{
    match form {
        Form::Group(Bracket::Square, forms, span) => {
            if forms.len() > MOST_ITEMS {
                return Err(refusal(ResolveErrorKind::TooMany, *span));
            }
            if room == 0 {
                return Err(refusal(ResolveErrorKind::TooMany, *span));
            }
            all_fit(room - 1, forms)
        }
        Form::Group(Bracket::Round, _, span) => Err(refusal(ResolveErrorKind::BadForm, *span)),
        Form::Symbol(_, span) => Err(refusal(ResolveErrorKind::BadForm, *span)),
        _ => Ok(()),
    }
}

/// The same of all of these.
#[cycle(fits)]
fn all_fit(room: usize, forms: &[Form]) -> Result<(), ResolveError>
    requires { room ≤ 31 }
    ensures { refusal_of result ≡ refusal_of (literals room (trees_of (trees forms.now))) }
{
    for form in forms {
        fits(room, form)?;
    }
    Ok(())
}

/// The value of a literal whose vectors may have so many levels.
#[cycle(literal)]
pub fn literal(alloc: Global, room: usize, form: &Form) -> Result<Value, Stop>
    requires { room ≤ most_depth }
    ensures value { Gives (λ v. v) result (literal room (tree form.now)) }
    ensures depth { IfOk result (λ v. depth (plain_of v) ≤ room) }
{
    match form {
        Form::Group(Bracket::Square, forms, span) => {
            if room == 0 || forms.len() > MOST_ITEMS {
                return Err(refused(ResolveErrorKind::TooMany, *span));
            }
            let items = literals(alloc, room - 1, forms)?;
            Ok(Value::Vector(Items::from_vec(alloc, items)?))
        }
        _ => scalar(form),
    }
}

/// The values of literals.
#[cycle(literal)]
fn literals(alloc: Global, room: usize, forms: &[Form]) -> Result<Vec<Value>, Stop>
    requires { room ≤ 31 }
    ensures values { Gives (λ vs. vs.items) result (literals room (trees_of (trees forms.now))) }
    ensures depth { IfOk result (λ vs. row_depth (plain_row (plains_of vs.items)) ≤ room) }
    ensures len { IfOk result (λ vs. length vs.items ≡ length forms.now) }
{
    let mut values = Vec::new(alloc);
    for form in forms {
        let value = literal(alloc, room, form)?;
        values.push(value)?;
    }
    Ok(values)
}
