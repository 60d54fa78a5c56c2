//! Expressions: forms to nodes.

ghost use Rattle.std.specs.Prelude.{◌≡◌, ◌≤◌, ◌+◌, ◌-◌, length, IfOk, OnOk};
ghost use Rattle.txs_reader.specs.Tree.{tree, trees, trees_of};
ghost use Rattle.txs_resolve_expand.specs.Expansions.{body as the_body};
ghost use Rattle.txs_resolve_expand.specs.Expressions.{changing, made, named, named_all, named_bindings, narrow, parted, put_together, spot_mark};
ghost use Rattle.txs_resolve.specs.Walk.{Becomes, Fills, IsWithin, PushesAll, PushesBound};
ghost use Rattle.txs_resolve.specs.BodyGiven.{Pushes};
ghost use Rattle.txs_resolve_expand.specs.Parts.{part_form, plain, special_form, PartFits, SpecialFits};
ghost use Rattle.txs_tree_meaning.specs.Marked.{Exactly, MarkedBy};
ghost use Rattle.txs_tree_meaning.specs.View.{tree_of};

use crate::below::{are_wanted, bindable, flag_at, hide, inner, last_wanted, part_wanted};
use crate::nodes::{Nodes, build, build_change, push_whole};
use crate::stop::Stop;
use std::alloc::Global;
use txs_reader::Form;
use txs_resolve_expand::{
    Change, Core, FormName, Part, ResolveError, ResolveErrorKind, Scope, Special, Spot, callee,
    core_at, refusal,
};
use txs_tree_meaning::Node;
use txs_value_data::limits::MOST_ITEMS;

/// The node of a part, behind these nodes.
#[cycle(resolve)]
fn expression<'a>(
    alloc: Global,
    scope: &mut Scope<'a>,
    nodes: &mut Nodes,
    spot: Spot,
    part: Part<'a>,
) -> Result<(), ResolveError>
    requires { PartFits scope.old part }
    ensures node { Pushes result nodes.old nodes.new (named spot.room scope.old spot.wanted (part_form spot.span part.entry)) }
    ensures kept { OnOk result (scope.new ≡ scope.old) }
{
    let (spot, core) = core_at(scope, spot, part)?;
    match core {
        Core::Whole(whole) => push_whole(scope, nodes, spot, whole),
        Core::Parted(special) => parted(alloc, scope, nodes, spot, special),
        Core::Changing(change, cell, function, args) => changed(
            alloc, scope, nodes, spot, change, cell, function, args,
        ),
    }
}

/// The node of a special form, behind these nodes.
#[cycle(resolve)]
fn parted<'a>(
    alloc: Global,
    scope: &mut Scope<'a>,
    nodes: &mut Nodes,
    spot: Spot,
    special: Special<'a>,
) -> Result<(), ResolveError>
    requires { SpecialFits scope.old special }
    ensures node { Pushes result nodes.old nodes.new (made (named (spot.room - 1)) scope.old spot (parted (special_form spot.span special.entry))) }
    ensures kept { OnOk result (scope.new ≡ scope.old) }
{
    if spot.room == 0 {
        return Err(refusal(ResolveErrorKind::TooMany, spot.span));
    }
    let mut parts = Nodes::new(alloc);
    children(alloc, scope, &mut parts, spot, special)?;
    build(alloc, nodes, spot, special, parts);
    Ok(())
}

/// The node of a form on a cell that calls something, behind these nodes.
#[cycle(resolve)]
fn changed<'a>(
    alloc: Global,
    scope: &mut Scope<'a>,
    nodes: &mut Nodes,
    spot: Spot,
    change: Change,
    cell: &'a Form,
    function: &'a Form,
    args: &'a [Form],
) -> Result<(), ResolveError>
    ensures node { Pushes result nodes.old nodes.new (made (named (spot.room - 1)) scope.old spot (parted (changing change (tree cell.now) (tree function.now) (plain args.now)))) }
    ensures kept { OnOk result (scope.new ≡ scope.old) }
{
    if spot.room == 0 {
        return Err(refusal(ResolveErrorKind::TooMany, spot.span));
    }
    let mut parts = Nodes::new(alloc);
    expression(
        alloc,
        scope,
        &mut parts,
        inner(spot, true),
        Part::Written(cell),
    )?;
    let callee = callee(scope, spot, function)?;
    items(alloc, scope, &mut parts, spot, 1, true, true, args)?;
    build_change(alloc, nodes, spot, change, callee, parts);
    Ok(())
}

/// The nodes of a special form's parts, in source order. Behind them no more is in scope than before.
#[cycle(resolve)]
fn children<'a>(
    alloc: Global,
    scope: &mut Scope<'a>,
    parts: &mut Nodes,
    spot: Spot,
    special: Special<'a>,
) -> Result<(), ResolveError>
    requires room { 1 ≤ spot.room }
    requires fits { SpecialFits scope.old special }
    ensures nodes { Fills result special.entry parts.old parts.new (spot_mark spot) (put_together (named (spot.room - 1)) scope.old spot (special_form spot.span special.entry)) }
    ensures kept { OnOk result (scope.new ≡ scope.old) }
{
    // One whose value is wanted, and one whose value is the form's own.
    let (value, tail) = (inner(spot, true), inner(spot, spot.wanted));
    match special {
        Special::Row(kind, forms) => {
            let (wanted, last) = (are_wanted(kind), last_wanted(kind, spot.wanted));
            items(alloc, scope, parts, spot, 0, wanted, last, forms)
        }
        Special::Single(single, part) => {
            let only = inner(spot, part_wanted(single, spot.wanted));
            expression(alloc, scope, parts, only, part)
        }
        Special::Pair(_, first, second) => {
            expression(alloc, scope, parts, value, first)?;
            expression(alloc, scope, parts, value, Part::Written(second))
        }
        Special::Choice(_, test, one, other) => {
            expression(alloc, scope, parts, value, test)?;
            expression(alloc, scope, parts, tail, one)?;
            expression(alloc, scope, parts, tail, other)
        }
        Special::Binding(_, pairs, forms) => {
            let outer = scope.len();
            bindings(alloc, scope, parts, spot, pairs)?;
            expression(alloc, scope, parts, tail, Part::List(FormName::Do, forms))?;
            scope.truncate(outer);
            Ok(())
        }
        Special::Hidden(is_or, first, rest) => {
            expression(alloc, scope, parts, value, Part::Written(first))?;
            let local = hide(scope, spot)?;
            let choice = Part::Choice(local, is_or, rest);
            expression(alloc, scope, parts, tail, choice)?;
            scope.truncate(usize::from(local));
            Ok(())
        }
    }
}

/// The nodes of the values of a `let` or a `loop`, with its names in scope.
#[cycle(resolve)]
fn bindings<'a>(
    alloc: Global,
    scope: &mut Scope<'a>,
    values: &mut Nodes,
    spot: Spot,
    pairs: &'a [Form],
) -> Result<(), ResolveError>
    requires { 1 ≤ spot.room }
    ensures values { PushesBound result values.old values.new scope.new (named_bindings (named (spot.room - 1)) scope.old (plain pairs.now)) }
    ensures outer { OnOk result (IsWithin scope.old scope.new) }
{
    let mut at = 0;
    while at + 1 < pairs.len() {
        expression(
            alloc,
            scope,
            values,
            inner(spot, true),
            Part::Written(&pairs[at + 1]),
        )?;
        let name = bindable(scope, &pairs[at])?;
        scope.push(name.as_bytes());
        at += 2;
    }
    if at < pairs.len() {
        return Err(refusal(ResolveErrorKind::BadForm, pairs[at].span()));
    }
    Ok(())
}

/// The nodes of forms, one level below this spot, of which the last has a flag of its own. So many parts stand
/// before them.
#[cycle(resolve)]
fn items<'a>(
    alloc: Global,
    scope: &mut Scope<'a>,
    nodes: &mut Nodes,
    spot: Spot,
    ahead: usize,
    wanted: bool,
    last: bool,
    forms: &'a [Form],
) -> Result<(), ResolveError>
    requires room { 1 ≤ spot.room }
    requires few { ahead ≤ 1 }
    ensures nodes { PushesAll result nodes.old nodes.new (narrow (ahead + length forms.now) spot (named_all (named (spot.room - 1)) scope.old wanted last (plain forms.now))) }
    ensures kept { OnOk result (scope.new ≡ scope.old) }
{
    if forms.len() > MOST_ITEMS - ahead {
        return Err(refusal(ResolveErrorKind::TooMany, spot.span));
    }
    for (i, form) in forms.iter().enumerate() {
        let wanted = flag_at(wanted, last, forms, i);
        expression(
            alloc,
            scope,
            nodes,
            inner(spot, wanted),
            Part::Written(form),
        )?;
    }
    Ok(())
}

/// The node of a body: of its expressions in order, the last of which may be wanted, and where there is none of nil. It
/// may have as many levels as there is room at the spot, whose span is that of the form that the body is of.
///
/// # Errors
/// The first refusal met in source order; running out of memory only where nothing is refused.
pub fn body<'a>(
    alloc: Global,
    scope: &mut Scope<'a>,
    spot: Spot,
    forms: &'a [Form],
) -> Result<Node, Stop>
    ensures node { Becomes result (named spot.room scope.old spot.wanted (the_body (trees_of (trees forms.now)) spot.span)) }
    ensures marked { IfOk result (λ n. MarkedBy Exactly spot.wanted (tree_of n)) }
    ensures kept { OnOk result (scope.new ≡ scope.old) }
{
    let mut nodes = Nodes::new(alloc);
    expression(
        alloc,
        scope,
        &mut nodes,
        spot,
        Part::List(FormName::Do, forms),
    )?;
    match nodes.into_one() {
        Some(node) => Ok(node),
        None => Err(Stop::Memory),
    }
}
