//! Where nodes stand, of which kinds they are, and what forms are by themselves.

ghost use Rattle.std.specs.Prelude.{◌≡◌};
ghost use Rattle.txs_resolve_expand.specs.Expressions.{are_pairs, callee_at, callee_of, is_chain, is_symbol};
ghost use Rattle.txs_resolve_expand.specs.Viewed.{meant};
ghost use Rattle.txs_reader.specs.Tree.{tree, trees, trees_of};

use crate::error::{ResolveError, ResolveErrorKind, refusal};
use crate::{Definition, Found, Scope};
use txs_reader::Form;
use txs_value_cell::{LookForm, PutForm, UpdateForm};
use txs_value_data::{Callee, Op, Span};

/// Where a node is: how many levels it may have, its span, and whether its result is wanted.
#[derive(Clone, Copy)]
pub struct Spot {
    pub room: usize,
    pub span: Span,
    pub wanted: bool,
}

/// The kinds of nodes that are made of a row of nodes alone.
#[derive(Clone, Copy)]
pub enum Sequence {
    Do,
    Recur,
    Println,
    Vector,
    Core(Op),
    Call(u16),
}

/// The forms that are made of one node.
#[derive(Clone, Copy)]
pub enum Single {
    Dosync,
    Look(LookForm),
}

/// The forms that are made of two nodes, whose results are wanted.
#[derive(Clone, Copy)]
pub enum Couple {
    Core(Op),
    Put(PutForm),
}

/// The forms on cells that call something.
#[derive(Clone, Copy)]
pub enum Change {
    Update(UpdateForm),
    Send,
}

/// What a name is in the place of a function, for a form at this spot.
fn callee_at(found: Found<'_>, spot: Spot, at: Span) -> Result<Callee, ResolveError>
    ensures { result ≡ callee_at (meant found.entry) spot at }
{
    match found {
        Found::Form(_) => Err(refusal(ResolveErrorKind::NotCallable, at)),
        Found::Dotted => Err(refusal(ResolveErrorKind::BadForm, at)),
        Found::Local(_) => Err(refusal(ResolveErrorKind::LocalCalled, at)),
        Found::Current => Err(refusal(ResolveErrorKind::SelfCall, at)),
        Found::Defined(Definition::Function(number, levels)) => {
            if usize::from(*levels) < spot.room {
                Ok(Callee::Function(*number))
            } else {
                Err(refusal(ResolveErrorKind::TooMany, spot.span))
            }
        }
        Found::Defined(_) => Err(refusal(ResolveErrorKind::NotCallable, at)),
        Found::Operation(op) => Ok(Callee::Core(op)),
        Found::Unknown => Err(refusal(ResolveErrorKind::UnknownName, at)),
    }
}

/// What a form is in the place of a function.
pub fn callee(scope: &Scope<'_>, spot: Spot, form: &Form) -> Result<Callee, ResolveError>
    ensures { result ≡ callee_of scope.now spot (tree form.now) }
{
    match form {
        Form::Symbol(name, at) => callee_at(scope.lookup(name), spot, *at),
        _ => Err(refusal(ResolveErrorKind::NotCallable, form.span())),
    }
}

/// Whether the operation on so many arguments is the chain of its pairs: those fold any number from the left.
pub fn is_chain(op: Op, count: usize) -> bool
    ensures { result ≡ is_chain op count }
{
    matches!(op, Op::Add | Op::Subtract | Op::Multiply) && count > 2
}

/// Whether the form is a symbol.
pub fn is_symbol(form: &Form) -> bool
    ensures { result ≡ is_symbol (tree form.now) }
{
    matches!(form, Form::Symbol(_, _))
}

/// Whether the forms are names and values in turn.
pub fn are_pairs(pairs: &[Form]) -> bool
    ensures { result ≡ are_pairs (trees_of (trees pairs.now)) }
{
    let mut at = 0;
    while at + 1 < pairs.len() {
        if !is_symbol(&pairs[at]) {
            return false;
        }
        at += 2;
    }
    if at < pairs.len() {
        return false;
    }
    true
}
