//! Nodes made of their parts.

ghost use Rattle.std.specs.Prelude.{◌≡◌, IfOk};
ghost use Rattle.txs_tree_meaning.specs.Tree as tree;
ghost use Rattle.txs_tree_meaning.specs.View.{mark_of, tree_of, trees_of};
ghost use Rattle.txs_tree_meaning.specs.Shapes.{row_tree};

use crate::parts::Row;
use crate::{Node, NodeKind};
use std::alloc::{AllocError, Global};
use txs_value_cell::{LookForm, PutForm, UpdateForm};
use txs_value_data::{Callee, Span, Value};

/// Where a node is in the script, and whether its result is wanted.
#[derive(Clone, Copy)]
pub struct Spot {
    pub span: Span,
    pub wanted: bool,
}

/// The spot of a node.
pub fn spot_of(node: &Node) -> Spot
    ensures { (result.span ≡ node.now.span) × (result.wanted ≡ node.now.wanted) }
{
    Spot {
        span: node.span,
        wanted: node.wanted,
    }
}

/// The node of this kind.
fn at(spot: Spot, kind: NodeKind) -> Node
    ensures { (result.kind ≡ kind) × (result.span ≡ spot.span) × (result.wanted ≡ spot.wanted) }
{
    Node {
        kind,
        span: spot.span,
        wanted: spot.wanted,
    }
}

/// A constant.
pub fn const_node(spot: Spot, value: Value) -> Node
    ensures { tree_of result ≡ tree.Const value (mark_of spot.span spot.wanted) }
{
    at(spot, NodeKind::Const(value))
}

/// A local.
pub fn local_node(spot: Spot, number: u8) -> Node
    ensures { tree_of result ≡ tree.Local number (mark_of spot.span spot.wanted) }
{
    at(spot, NodeKind::Local(number))
}

/// A choice.
pub fn if_node(
    alloc: Global,
    spot: Spot,
    test: Node,
    yes: Node,
    no: Node,
) -> Result<Node, AllocError>
    ensures { IfOk result (λ n. tree_of n ≡ tree.If (tree_of test) (tree_of yes) (tree_of no) (mark_of spot.span spot.wanted)) }
{
    let test = Box::new(alloc, test)?;
    let yes = Box::new(alloc, yes)?;
    Ok(at(spot, NodeKind::If(test, yes, Box::new(alloc, no)?)))
}

/// A form that is a row of parts.
pub fn row_node(spot: Spot, row: Row, parts: Vec<Node>) -> Node
    ensures { tree_of result ≡ row_tree row (trees_of parts.items) (mark_of spot.span spot.wanted) }
{
    match row {
        Row::Do => at(spot, NodeKind::Do(parts)),
        Row::Recur => at(spot, NodeKind::Recur(parts)),
        Row::Core(op) => at(spot, NodeKind::Core(op, parts)),
        Row::Call(number) => at(spot, NodeKind::Call(number, parts)),
        Row::Vector => at(spot, NodeKind::Vector(parts)),
        Row::Println => at(spot, NodeKind::Println(parts)),
    }
}

/// A let.
pub fn let_node(
    alloc: Global,
    spot: Spot,
    values: Vec<Node>,
    body: Node,
) -> Result<Node, AllocError>
    ensures { IfOk result (λ n. tree_of n ≡ tree.Let (trees_of values.items) (tree_of body) (mark_of spot.span spot.wanted)) }
{
    let body = Box::new(alloc, body)?;
    Ok(at(spot, NodeKind::Let(values, body)))
}

/// A loop.
pub fn loop_node(
    alloc: Global,
    spot: Spot,
    values: Vec<Node>,
    body: Node,
) -> Result<Node, AllocError>
    ensures { IfOk result (λ n. tree_of n ≡ tree.Loop (trees_of values.items) (tree_of body) (mark_of spot.span spot.wanted)) }
{
    let body = Box::new(alloc, body)?;
    Ok(at(spot, NodeKind::Loop(values, body)))
}

/// A transaction.
pub fn dosync_node(alloc: Global, spot: Spot, body: Node) -> Result<Node, AllocError>
    ensures { IfOk result (λ n. tree_of n ≡ tree.Dosync (tree_of body) (mark_of spot.span spot.wanted)) }
{
    Ok(at(spot, NodeKind::Dosync(Box::new(alloc, body)?)))
}

/// A form that reads a cell.
pub fn look_node(alloc: Global, spot: Spot, form: LookForm, cell: Node) -> Result<Node, AllocError>
    ensures { IfOk result (λ n. tree_of n ≡ tree.Look form (tree_of cell) (mark_of spot.span spot.wanted)) }
{
    Ok(at(spot, NodeKind::Look(form, Box::new(alloc, cell)?)))
}

/// A form that gives a cell a value.
pub fn put_node(
    alloc: Global,
    spot: Spot,
    form: PutForm,
    cell: Node,
    value: Node,
) -> Result<Node, AllocError>
    ensures { IfOk result (λ n. tree_of n ≡ tree.Put form (tree_of cell) (tree_of value) (mark_of spot.span spot.wanted)) }
{
    let cell = Box::new(alloc, cell)?;
    Ok(at(spot, NodeKind::Put(form, cell, Box::new(alloc, value)?)))
}

/// A form that updates a cell by a callee.
pub fn update_node(
    alloc: Global,
    spot: Spot,
    form: UpdateForm,
    cell: Node,
    callee: Callee,
    args: Vec<Node>,
) -> Result<Node, AllocError>
    ensures { IfOk result (λ n. tree_of n ≡ tree.Update form (tree_of cell) callee (trees_of args.items) (mark_of spot.span spot.wanted)) }
{
    let cell = Box::new(alloc, cell)?;
    Ok(at(spot, NodeKind::Update(form, cell, callee, args)))
}

/// A form that sends an action.
pub fn send_node(
    alloc: Global,
    spot: Spot,
    cell: Node,
    callee: Callee,
    args: Vec<Node>,
) -> Result<Node, AllocError>
    ensures { IfOk result (λ n. tree_of n ≡ tree.Send (tree_of cell) callee (trees_of args.items) (mark_of spot.span spot.wanted)) }
{
    let cell = Box::new(alloc, cell)?;
    Ok(at(spot, NodeKind::Send(cell, callee, args)))
}
