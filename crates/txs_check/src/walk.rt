//! The walk over a body: a node before its parts, and the parts as they are written.

ghost use Rattle.std.specs.Prelude.{◌≡◌, length, suc};
ghost use Rattle.txs_tree_meaning.specs.View.{tree_of, trees_of};
ghost use Rattle.txs_check.specs.Refused.{accepts, applied, called, calls, checked, checked_all, formed, here, sends, sent, sent_zoned, turned, zoned};
ghost use Rattle.txs_tree_meaning.specs.Known.{is_pure};
ghost use Rattle.txs_check.specs.Rows.{in_turn_of, place_behind, rows};
ghost use Rattle.txs_check.specs.Signatures.{known_as, known_if};

use crate::class::{Signature, signature_of};
use crate::error::{CheckError, CheckErrorKind};
use crate::parts::parts;
use crate::place::{Target, Zone, only};
use std::slice::from_ref;
use txs_tree_meaning::{Node, NodeKind};
use txs_value_apply::takes;
use txs_value_cell::{CellForm, Standing};
use txs_value_data::{Callee, Span};

/// Whether there is such a function and it has so many parameters.
fn accepts(signature: Option<Signature>, count: usize) -> bool
    ensures { result ≡ accepts (known_if signature) count }
{
    match signature {
        None => false,
        Some(signature) => usize::from(signature.parameters) == count,
    }
}

/// Whether what is known allows a call here.
fn check_zone(zone: Zone, signature: Option<Signature>, at: Span) -> Result<(), CheckError>
    ensures { result ≡ zoned zone (known_if signature) at }
{
    match signature {
        None => Ok(()),
        Some(signature) => match zone {
            Zone::InFunction => Ok(()),
            Zone::InFuture => only(!signature.class.inside, CheckErrorKind::InsideOnly, at),
            Zone::InDosync => only(!signature.class.outside, CheckErrorKind::OutsideOnly, at),
        },
    }
}

/// Whether the function may be called here on so many arguments.
fn check_call(
    signatures: &[Signature],
    zone: Zone,
    number: u16,
    count: usize,
    at: Span,
) -> Result<(), CheckError>
    ensures { result ≡ calls (known_as signatures.now) zone number count at }
{
    let signature = signature_of(signatures, number);
    only(accepts(signature, count), CheckErrorKind::Arity, at)?;
    check_zone(zone, signature, at)
}

/// Whether what is known is that it is pure.
fn is_pure(signature: Option<Signature>) -> bool
    ensures { result ≡ is_pure (known_if signature) }
{
    match signature {
        None => false,
        Some(signature) => signature.class.pure,
    }
}

/// Whether a form on a cell may call this on so many arguments, the cell's value among them.
pub fn check_callee(
    signatures: &[Signature],
    callee: Callee,
    count: usize,
    at: Span,
) -> Result<(), CheckError>
    ensures { result ≡ called (known_as signatures.now) callee count at }
{
    match callee {
        Callee::Core(op) => only(takes(op, count), CheckErrorKind::Arity, at),
        Callee::Function(number) => {
            let signature = signature_of(signatures, number);
            only(accepts(signature, count), CheckErrorKind::Arity, at)?;
            only(is_pure(signature), CheckErrorKind::NotPure, at)
        }
    }
}

/// Whether the form on a cell may be here.
fn check_form(zone: Zone, form: CellForm, at: Span) -> Result<(), CheckError>
    ensures { result ≡ formed zone form at }
{
    zone.check_standing(form.rule().stands, at)
}

/// Whether the form on a cell may be here and have the callee applied, with these arguments behind the cell's value.
fn check_applied(
    signatures: &[Signature],
    zone: Zone,
    form: CellForm,
    callee: Callee,
    args: &[Node],
    at: Span,
) -> Result<(), CheckError>
    ensures { result ≡ applied (known_as signatures.now) zone form callee (suc (length args.now)) at }
{
    check_callee(signatures, callee, args.len() + 1, at)?;
    check_form(zone, form, at)
}

/// Whether what is known allows a send: the function isn't for transactions alone.
fn check_sent_zone(signature: Option<Signature>, at: Span) -> Result<(), CheckError>
    ensures { result ≡ sent_zoned (known_if signature) at }
{
    match signature {
        None => Ok(()),
        Some(signature) => only(!signature.class.inside, CheckErrorKind::InsideOnly, at),
    }
}

/// Whether this may be sent on so many arguments, the agent's state among them: its action runs outside every transaction.
fn check_sent(
    signatures: &[Signature],
    callee: Callee,
    count: usize,
    at: Span,
) -> Result<(), CheckError>
    ensures { result ≡ sent (known_as signatures.now) callee count at }
{
    match callee {
        Callee::Core(op) => only(takes(op, count), CheckErrorKind::Arity, at),
        Callee::Function(number) => {
            let signature = signature_of(signatures, number);
            only(accepts(signature, count), CheckErrorKind::Arity, at)?;
            check_sent_zone(signature, at)
        }
    }
}

/// Whether a send of this may be here, with these arguments behind the agent's state.
fn check_send(
    signatures: &[Signature],
    zone: Zone,
    callee: Callee,
    args: &[Node],
    at: Span,
) -> Result<(), CheckError>
    ensures { result ≡ sends (known_as signatures.now) zone callee (suc (length args.now)) at }
{
    check_sent(signatures, callee, args.len() + 1, at)?;
    check_form(zone, CellForm::Send, at)
}

/// Whether the node itself may be here.
fn check_here(
    signatures: &[Signature],
    zone: Zone,
    target: Target,
    node: &Node,
) -> Result<(), CheckError>
    ensures { result ≡ here (known_as signatures.now) zone target (tree_of node.now) }
{
    match &node.kind {
        NodeKind::Const(_)
        | NodeKind::Local(_)
        | NodeKind::If(_, _, _)
        | NodeKind::Do(_)
        | NodeKind::Let(_, _)
        | NodeKind::Loop(_, _)
        | NodeKind::Vector(_)
        | NodeKind::Dosync(_) => Ok(()),
        NodeKind::Recur(values) => target.check_recur(values.len(), node.span),
        NodeKind::Core(op, args) => {
            only(takes(*op, args.len()), CheckErrorKind::Arity, node.span)
        }
        NodeKind::Call(number, args) => {
            check_call(signatures, zone, *number, args.len(), node.span)
        }
        NodeKind::Println(_) => zone.check_standing(Standing::Outside, node.span),
        NodeKind::Look(form, _) => check_form(zone, CellForm::Look(*form), node.span),
        NodeKind::Put(form, _, _) => check_form(zone, CellForm::Put(*form), node.span),
        NodeKind::Update(form, _, callee, args) => {
            let form = CellForm::Update(*form);
            check_applied(signatures, zone, form, *callee, args, node.span)
        }
        NodeKind::Send(_, callee, args) => {
            check_send(signatures, zone, *callee, args, node.span)
        }
    }
}

/// Whether the second of two branches is written first, as an `if-not` writes them: by where the choice, the first
/// branch and the second one begin. A branch that begins where the choice does is made by an expansion.
fn is_turned(whole: u32, first: u32, second: u32) -> bool
    ensures { result ≡ turned whole first second }
{
    whole < second && second < first
}

/// A node's parts in the order in which they are checked, in up to three rows: those of the first aren't in tail position.
fn rows_in_turn(node: &Node) -> (&[Node], &[Node], &[Node])
    ensures { in_turn_of (tree_of node.now) ≡ rows (trees_of result.0.now) (trees_of result.1.now) (trees_of result.2.now) }
{
    let (first, second, third) = parts(node);
    match &node.kind {
        NodeKind::If(_, one, other) => {
            if is_turned(node.span.from, one.span.from, other.span.from) {
                (first, third, second)
            } else {
                (first, second, third)
            }
        }
        NodeKind::Do(items) => match items.split_last() {
            None => (first, second, third),
            Some((last, before)) => (before, from_ref(last), third),
        },
        NodeKind::Dosync(_) => (second, first, third),
        NodeKind::Const(_)
        | NodeKind::Local(_)
        | NodeKind::Let(_, _)
        | NodeKind::Loop(_, _)
        | NodeKind::Recur(_)
        | NodeKind::Core(_, _)
        | NodeKind::Call(_, _)
        | NodeKind::Vector(_)
        | NodeKind::Println(_)
        | NodeKind::Look(_, _)
        | NodeKind::Put(_, _, _)
        | NodeKind::Update(_, _, _, _)
        | NodeKind::Send(_, _, _) => (first, second, third),
    }
}

/// Where the second and the third row of a node's parts are: in which zone, and what a recur meets there.
fn place_behind(zone: Zone, target: Target, node: &Node) -> (Zone, Target)
    ensures { result ≡ place_behind zone target (tree_of node.now) }
{
    match &node.kind {
        NodeKind::Const(_)
        | NodeKind::Local(_)
        | NodeKind::If(_, _, _)
        | NodeKind::Do(_)
        | NodeKind::Let(_, _)
        | NodeKind::Recur(_)
        | NodeKind::Core(_, _)
        | NodeKind::Call(_, _)
        | NodeKind::Vector(_)
        | NodeKind::Println(_)
        | NodeKind::Look(_, _) => (zone, target),
        NodeKind::Loop(values, _) => (zone, Target::Nearest(values.len(), true)),
        NodeKind::Dosync(_) => (Zone::InDosync, target.across()),
        NodeKind::Put(_, _, _) | NodeKind::Update(_, _, _, _) | NodeKind::Send(_, _, _) => {
            (zone, target.inner())
        }
    }
}

/// Whether the node may be here, and then its parts, as they are written: the first refusal is the answer.
#[cycle(walk)]
pub fn check_node(
    signatures: &[Signature],
    zone: Zone,
    target: Target,
    node: &Node,
) -> Result<(), CheckError>
    ensures { result ≡ checked (known_as signatures.now) zone target (tree_of node.now) }
{
    check_here(signatures, zone, target, node)?;
    let (first, second, third) = rows_in_turn(node);
    check_all(signatures, zone, target.inner(), first)?;
    let (zone, target) = place_behind(zone, target, node);
    check_all(signatures, zone, target, second)?;
    check_all(signatures, zone, target, third)
}

/// Each of the nodes in order.
#[cycle(walk)]
fn check_all(
    signatures: &[Signature],
    zone: Zone,
    target: Target,
    nodes: &[Node],
) -> Result<(), CheckError>
    ensures { result ≡ checked_all (known_as signatures.now) zone target (trees_of nodes.now) }
{
    for node in nodes {
        check_node(signatures, zone, target, node)?;
    }
    Ok(())
}
