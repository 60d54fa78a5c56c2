//! Nodes of what is resolved: of forms without parts, and of special forms by the nodes of their parts.

ghost use Rattle.std.specs.Prelude.{◌≡◌, ◌<◌, ◌≤◌, ◌+◌, ◌-◌, [], ◌∷◌, ◌++◌, List, false, true, is_some, length, map, Ok, IfOk, IfSome};
ghost use Rattle.txs_resolve_expand.specs.Expressions.{change_node, choice_node, single_node, leaf_node, binding_node, sequence_node, spot_mark, symbol_node};
ghost use Rattle.txs_resolve.specs.BodyGiven.{row, Pushes, Puts, Shows};
ghost use Rattle.txs_resolve.specs.Made.{couple_node, simple_tree, with_room, IsMade, IsSimple, Makes};
ghost use Rattle.txs_resolve_expand.specs.Parts.{seen, whole_leaf, WholeFits};
ghost use Rattle.txs_resolve_expand.specs.Scope.{meaning};
ghost use Rattle.txs_tree_meaning.specs.Tree.{Tree, Mark};
ghost use Rattle.txs_tree_meaning.specs.declared.node.Node.{Node as ANode};
ghost use Rattle.txs_tree_meaning.specs.View.{kind_tree, tree_of, trees_of as nodes_tree};

use crate::stop::Stop;
use crate::values::scalar;
use std::alloc::{AllocError, Global};
use txs_reader::Form;
use txs_resolve_expand::{
    Change, Couple, Definition, Found, ResolveError, ResolveErrorKind, Scope, Sequence, Single,
    Special, Spot, Whole, refusal,
};
use txs_tree_meaning::{Node, NodeKind};
use txs_value_data::{Callee, CellId, Name, Value, copy_value};

/// Nodes in a row. Where memory was wanted for one of them they are lost, and no more is made of them. The walk over the
/// forms continues all the same to what may be refused: so a form that is refused is never answered by running out of memory.
#[derive(Drop)]
pub struct Nodes {
    pub items: Vec<Node>,
    pub lost: bool,
}

impl Nodes {
    /// There is none.
    pub fn new(alloc: Global) -> Nodes
        ensures none { result.items.items ≡ [] }
        ensures kept { result.lost ≡ false }
    {
        Nodes {
            items: Vec::new(alloc),
            lost: false,
        }
    }

    /// The only node. None where nodes are lost, or where there is none.
    pub fn into_one(self) -> Option<Node>
        ensures node { IfSome result (λ n. (t : Tree) → Shows self (t ∷ []) → tree_of n ≡ t) }
        ensures stays { self.lost ≡ false → 0 < length self.items.items → is_some result ≡ true }
    {
        if self.lost {
            return None;
        }
        let mut items = self.items;
        items.pop()
    }
}

/// What a form without parts is: a local, or a value.
#[derive(Clone, Copy)]
pub enum Simple<'s> {
    Local(u8),
    Constant(&'s Value),
    Cell(CellId),
    Literal(&'s Form),
    Nil,
    Truth,
}

/// What a name is as a value: a local, a constant or a cell.
fn symbol<'s>(scope: &'s Scope<'_>, name: &Name, spot: Spot) -> Result<Simple<'s>, ResolveError>
    ensures value { seen (λ x. simple_tree x (spot_mark spot)) result ≡ symbol_node (meaning name.now scope.now) (with_room spot) }
    ensures quoted { IfOk result IsSimple }
{
    match scope.lookup(name) {
        Found::Local(number) => Ok(Simple::Local(number)),
        Found::Defined(Definition::Constant(value)) => Ok(Simple::Constant(value)),
        Found::Defined(Definition::Cell(cell)) => Ok(Simple::Cell(*cell)),
        Found::Unknown => Err(refusal(ResolveErrorKind::UnknownName, spot.span)),
        _ => Err(refusal(ResolveErrorKind::BadForm, spot.span)),
    }
}

/// What a form without parts is, where there is room for a node.
fn as_simple<'s>(
    scope: &'s Scope<'_>,
    spot: Spot,
    whole: Whole<'s>,
) -> Result<Simple<'s>, ResolveError>
    requires { WholeFits scope.now whole }
    ensures value { seen (λ x. simple_tree x (spot_mark spot)) result ≡ leaf_node scope.now (whole_leaf whole.entry) (with_room spot) }
    ensures quoted { IfOk result IsSimple }
{
    match whole {
        Whole::Name(name) => symbol(scope, name, spot),
        Whole::Literal(form) => Ok(Simple::Literal(form)),
        Whole::Nil => Ok(Simple::Nil),
        Whole::Truth => Ok(Simple::Truth),
        Whole::Hidden(number) => Ok(Simple::Local(number)),
    }
}

/// The kind of the node of what has no parts.
fn simple_kind(simple: Simple<'_>) -> Result<NodeKind, Stop>
    requires { IsSimple simple }
    ensures { IfOk result (λ k. (m : Mark) → kind_tree k m ≡ simple_tree simple.entry m) }
{
    match simple {
        Simple::Local(number) => Ok(NodeKind::Local(number)),
        Simple::Constant(value) => Ok(NodeKind::Const(copy_value(value)?)),
        Simple::Cell(cell) => Ok(NodeKind::Const(Value::Cell(cell))),
        Simple::Literal(form) => Ok(NodeKind::Const(scalar(form)?)),
        Simple::Nil => Ok(NodeKind::Const(Value::Nil)),
        Simple::Truth => Ok(NodeKind::Const(Value::Truth(true))),
    }
}

/// The node of this kind at this spot, behind these nodes, which are lost where memory was wanted for the kind or is for
/// the node.
fn push(nodes: &mut Nodes, spot: Spot, kind: Option<NodeKind>)
    ensures { (t : Tree) → IfSome kind (λ k. kind_tree k (spot_mark spot) ≡ t) → Puts nodes.old nodes.new (t ∷ []) }
{
    if let Some(kind) = kind {
        let node = Node {
            kind,
            span: spot.span,
            wanted: spot.wanted,
        };
        if nodes.items.push(node).ok().is_some() {
            return;
        }
    }
    nodes.lost = true;
}

/// The node of a form without parts, behind these nodes.
pub fn push_whole(
    scope: &Scope<'_>,
    nodes: &mut Nodes,
    spot: Spot,
    whole: Whole<'_>,
) -> Result<(), ResolveError>
    requires { WholeFits scope.now whole }
    ensures { Pushes result nodes.old nodes.new (leaf_node scope.now (whole_leaf whole.entry) spot) }
{
    let simple = as_simple(scope, spot, whole)?;
    if spot.room == 0 {
        return Err(refusal(ResolveErrorKind::TooMany, spot.span));
    }
    push(nodes, spot, simple_kind(simple).ok());
    Ok(())
}

/// The last of the nodes, in a box.
fn boxed_last(alloc: Global, nodes: &mut Vec<Node>) -> Result<Box<Node>, AllocError>
    requires { 0 < length nodes.old.items }
    ensures { IfOk result (λ b. nodes.old.items ≡ nodes.new.items ++ b.value ∷ []) }
{
    match nodes.pop() {
        Some(node) => Ok(Box::new(alloc, node)?),
        None => unreachable!(),
    }
}

/// The last two of the nodes, such as the branches of a choice, in their order.
fn last_two(alloc: Global, nodes: &mut Vec<Node>) -> Result<(Box<Node>, Box<Node>), AllocError>
    requires { 2 ≤ length nodes.old.items }
    ensures { IfOk result (λ b. nodes.old.items ≡ nodes.new.items ++ b.0.value ∷ b.1.value ∷ []) }
{
    let other = boxed_last(alloc, nodes)?;
    let one = boxed_last(alloc, nodes)?;
    Ok((one, other))
}

/// The kind of a choice by a test, of these three nodes. Turned, the second branch is the one of a true test.
fn choice_kind(alloc: Global, turned: bool, parts: &mut Vec<Node>) -> Result<NodeKind, AllocError>
    requires { length parts.old.items ≡ 3 }
    ensures { IfOk result (λ k. (x y z : ANode) (m : Mark) → parts.old.items ≡ x ∷ y ∷ z ∷ [] → kind_tree k m ≡ choice_node turned (tree_of x) (tree_of y) (tree_of z) m) }
{
    let (one, other) = last_two(alloc, parts)?;
    let test = boxed_last(alloc, parts)?;
    if turned {
        return Ok(NodeKind::If(test, other, one));
    }
    Ok(NodeKind::If(test, one, other))
}

/// The kind of a row of nodes.
fn row_kind(kind: Sequence, nodes: Vec<Node>) -> NodeKind
    ensures { (m : Mark) → kind_tree result m ≡ sequence_node kind (nodes_tree nodes.items) m }
{
    match kind {
        Sequence::Do => NodeKind::Do(nodes),
        Sequence::Recur => NodeKind::Recur(nodes),
        Sequence::Println => NodeKind::Println(nodes),
        Sequence::Vector => NodeKind::Vector(nodes),
        Sequence::Core(op) => NodeKind::Core(op, nodes),
        Sequence::Call(number) => NodeKind::Call(number, nodes),
    }
}

/// The kind of a `let`, or of a `loop`, of the nodes of its values and its body.
fn binding_kind(alloc: Global, is_loop: bool, parts: Vec<Node>) -> Result<NodeKind, AllocError>
    requires { 0 < length parts.items }
    ensures { IfOk result (λ k. (vs : List ANode) (n : ANode) (m : Mark) → parts.items ≡ vs ++ n ∷ [] → kind_tree k m ≡ binding_node is_loop (nodes_tree vs) (tree_of n) m) }
{
    let mut values = parts;
    let body = boxed_last(alloc, &mut values)?;
    if is_loop {
        return Ok(NodeKind::Loop(values, body));
    }
    Ok(NodeKind::Let(values, body))
}

/// The kind of a form of two nodes.
fn couple_kind(alloc: Global, couple: Couple, parts: Vec<Node>) -> Result<NodeKind, AllocError>
    requires { length parts.items ≡ 2 }
    ensures { IfOk result (λ k. (x y : ANode) (m : Mark) → parts.items ≡ x ∷ y ∷ [] → kind_tree k m ≡ couple_node couple (tree_of x) (tree_of y) m) }
{
    let mut parts = parts;
    match couple {
        Couple::Core(op) => Ok(NodeKind::Core(op, parts)),
        Couple::Put(form) => {
            let (one, other) = last_two(alloc, &mut parts)?;
            Ok(NodeKind::Put(form, one, other))
        }
    }
}

/// The kind of a form of one node.
fn single_kind(single: Single, part: Box<Node>) -> NodeKind
    ensures { (m : Mark) → kind_tree result m ≡ single_node single (tree_of part.value) m }
{
    match single {
        Single::Dosync => NodeKind::Dosync(part),
        Single::Look(form) => NodeKind::Look(form, part),
    }
}

/// The kind of a form that calls something, of the nodes of its cell and its arguments.
fn change_kind(
    alloc: Global,
    change: Change,
    callee: Callee,
    parts: Vec<Node>,
) -> Result<NodeKind, AllocError>
    requires { 0 < length parts.items }
    ensures { IfOk result (λ k. (n : ANode) (vs : List ANode) (m : Mark) → parts.items ≡ n ∷ vs → kind_tree k m ≡ change_node change (tree_of n) callee (nodes_tree vs) m) }
{
    let mut args = parts;
    let cell = args.remove(0);
    let cell = Box::new(alloc, cell)?;
    match change {
        Change::Update(form) => Ok(NodeKind::Update(form, cell, callee, args)),
        Change::Send => Ok(NodeKind::Send(cell, callee, args)),
    }
}

/// The kind of a special form, of the nodes of its parts.
fn kind_of(alloc: Global, special: Special<'_>, parts: Vec<Node>) -> Result<NodeKind, AllocError>
    requires { (m : Mark) → (t : Tree) × IsMade special parts.items m t }
    ensures { IfOk result (λ k. (m : Mark) (t : Tree) → IsMade special.entry parts.items m t → kind_tree k m ≡ t) }
{
    let mut parts = parts;
    match special {
        Special::Row(kind, _) => Ok(row_kind(kind, parts)),
        Special::Single(single, _) => Ok(single_kind(single, boxed_last(alloc, &mut parts)?)),
        Special::Pair(couple, _, _) => couple_kind(alloc, couple, parts),
        Special::Choice(turned, _, _, _) => choice_kind(alloc, turned, &mut parts),
        Special::Binding(is_loop, _, _) => binding_kind(alloc, is_loop, parts),
        Special::Hidden(_, _, _) => binding_kind(alloc, false, parts),
    }
}

/// The node of a special form, of the nodes of its parts, behind these nodes, which are lost where those are.
pub fn build(alloc: Global, nodes: &mut Nodes, spot: Spot, special: Special<'_>, parts: Nodes)
    requires { parts.lost ≡ false → (m : Mark) → (t : Tree) × Makes special (map tree_of parts.items.items) m t }
    ensures { (t : Tree) → (parts.lost ≡ false → Makes special.entry (map tree_of parts.items.items) (spot_mark spot) t) → Puts nodes.old nodes.new (t ∷ []) }
{
    if parts.lost {
        drop(parts);
        nodes.lost = true;
        return;
    }
    push(nodes, spot, kind_of(alloc, special, parts.items).ok());
}

/// The node of a form that calls something, of the nodes of its cell and its arguments, behind these nodes, which are
/// lost where those are.
pub fn build_change(
    alloc: Global,
    nodes: &mut Nodes,
    spot: Spot,
    change: Change,
    callee: Callee,
    parts: Nodes,
)
    requires { parts.lost ≡ false → 0 < length parts.items.items }
    ensures { (t : Tree) (ts : List Tree) → Shows parts (t ∷ ts) → Puts nodes.old nodes.new (change_node change t callee (row ts) (spot_mark spot) ∷ []) }
{
    if parts.lost {
        drop(parts);
        nodes.lost = true;
        return;
    }
    push(
        nodes,
        spot,
        change_kind(alloc, change, callee, parts.items).ok(),
    );
}
