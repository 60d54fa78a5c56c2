//! Nodes folded.

ghost use Rattle.std.specs.Prelude.{◌≡◌, IfOk, OnOk, MatchOption, None, Some};
ghost use Rattle.txs_opt.specs.Fold.{chosen, constants, folded, folded_all, seen_items, settled, settled_core, settled_vector, value_of, whole};
ghost use Rattle.txs_tree_meaning.specs.Shapes.{row_tree};
ghost use Rattle.txs_opt.specs.Items.{SettlesAs, joined, kept_item, stays, values_in};
ghost use Rattle.txs_tree_meaning.specs.Tree as tree;
ghost use Rattle.txs_tree_meaning.specs.View.{mark_of, tree_of, trees_of};

use std::alloc::{AllocError, Global};
use txs_tree_meaning::{
    Node, Row, Shape, Spot, const_node, dosync_node, if_node, let_node, local_node, look_node,
    loop_node, put_node, row_node, send_node, spot_of, update_node, view,
};
use txs_value_apply::{apply, is_false, make_vector, takes};
use txs_value_data::{Op, Stop, Value, copy_value};

/// The value of a constant.
fn constant<'a>(node: &'a Node) -> Option<&'a Value>
    ensures { MatchOption result (value_of (tree_of node.now) ≡ None) (λ v. value_of (tree_of node.now) ≡ Some v.now) }
{
    match view(node) {
        Shape::Const(value) => Some(value),
        Shape::Local(_)
        | Shape::If(_, _, _)
        | Shape::Row(_, _)
        | Shape::Let(_, _)
        | Shape::Loop(_, _)
        | Shape::Dosync(_)
        | Shape::Look(_, _)
        | Shape::Put(_, _, _)
        | Shape::Update(_, _, _, _)
        | Shape::Send(_, _, _) => None,
    }
}

/// The values of these nodes, where each is a constant.
fn constants(alloc: Global, nodes: &[Node]) -> Result<Option<Vec<Value>>, AllocError>
    ensures { IfOk result (λ o. values_in o ≡ constants (trees_of nodes.now)) }
{
    let mut values = Vec::with_capacity(alloc, nodes.len())?;
    for node in nodes {
        match constant(node) {
            Some(value) => values.push(copy_value(value)?)?,
            None => return Ok(None),
        }
    }
    Ok(Some(values))
}

/// The value that was found in place of this node; the node where there was a fault.
fn settle(
    spot: Spot,
    found: Result<Value, Stop>,
    row: Row,
    parts: Vec<Node>,
) -> Result<Node, AllocError>
    ensures { IfOk result (λ n. SettlesAs found (row_tree row (trees_of parts.items) (mark_of spot.span spot.wanted)) (mark_of spot.span spot.wanted) (tree_of n)) }
{
    match found {
        Ok(value) => Ok(const_node(spot, value)),
        Err(Stop::Fault(_)) => Ok(row_node(spot, row, parts)),
        Err(Stop::Memory) => Err(AllocError),
    }
}

/// An operation on its arguments: its value where they are constants and it gives one.
fn core_node(alloc: Global, spot: Spot, op: Op, args: Vec<Node>) -> Result<Node, AllocError>
    ensures { IfOk result (λ n. tree_of n ≡ settled_core (constants (trees_of args.items)) op (trees_of args.items) (mark_of spot.span spot.wanted)) }
{
    match constants(alloc, args.as_slice())? {
        Some(values) => {
            if !takes(op, values.len()) {
                return Ok(row_node(spot, Row::Core(op), args));
            }
            settle(
                spot,
                apply(alloc, op, values.as_slice()),
                Row::Core(op),
                args,
            )
        }
        None => Ok(row_node(spot, Row::Core(op), args)),
    }
}

/// The vector of its items: its value where they are constants and there is one.
fn vector_node(alloc: Global, spot: Spot, items: Vec<Node>) -> Result<Node, AllocError>
    ensures { IfOk result (λ n. tree_of n ≡ settled_vector (constants (trees_of items.items)) (trees_of items.items) (mark_of spot.span spot.wanted)) }
{
    match constants(alloc, items.as_slice())? {
        Some(values) => settle(spot, make_vector(alloc, values), Row::Vector, items),
        None => Ok(row_node(spot, Row::Vector, items)),
    }
}

/// One item alone stands for the whole.
fn whole_node(spot: Spot, items: Vec<Node>) -> Node
    ensures { tree_of result ≡ whole (trees_of items.items) (mark_of spot.span spot.wanted) }
{
    let mut items = items;
    if items.len() == 1 {
        match items.pop() {
            Some(item) => return item,
            None => unreachable!(),
        }
    }
    row_node(spot, Row::Do, items)
}

/// Whether nothing is seen of an item of a Do: a constant that isn't the last.
fn goes(item: &Node, is_last: bool) -> bool
    ensures { kept_item is_last (tree_of item.now) ≡ stays result (tree_of item.now) }
{
    match constant(item) {
        Some(_) => !is_last,
        None => false,
    }
}

/// An item behind others; one that isn't the last goes where it is a constant.
fn push_item(items: &mut Vec<Node>, item: Node, is_last: bool) -> Result<(), AllocError>
    ensures { OnOk result (trees_of items.new.items ≡ joined (trees_of items.old.items) (kept_item is_last (tree_of item))) }
{
    if goes(&item, is_last) {
        return Ok(());
    }
    items.push(item)?;
    Ok(())
}

/// Each of the nodes folded.
#[cycle(fold)]
fn fold_all(alloc: Global, nodes: &[Node]) -> Result<Vec<Node>, AllocError>
    ensures { IfOk result (λ c. trees_of c.items ≡ folded_all (trees_of nodes.now)) }
{
    let mut anew = Vec::with_capacity(alloc, nodes.len())?;
    for node in nodes {
        anew.push(fold_node(alloc, node)?)?;
    }
    Ok(anew)
}

/// The items of which something is seen, each folded.
#[cycle(fold)]
fn fold_items(alloc: Global, nodes: &[Node]) -> Result<Vec<Node>, AllocError>
    ensures { IfOk result (λ c. trees_of c.items ≡ seen_items (folded_all (trees_of nodes.now))) }
{
    let mut items = Vec::with_capacity(alloc, nodes.len())?;
    for at in 0..nodes.len() {
        let item = fold_node(alloc, &nodes[at])?;
        push_item(&mut items, item, at + 1 == nodes.len())?;
    }
    Ok(items)
}

/// A form that is a row of parts, folded.
#[cycle(fold)]
fn fold_row(alloc: Global, spot: Spot, row: Row, parts: &[Node]) -> Result<Node, AllocError>
    ensures { IfOk result (λ n. tree_of n ≡ folded (row_tree row (trees_of parts.now) (mark_of spot.span spot.wanted))) }
{
    match row {
        Row::Do => Ok(whole_node(spot, fold_items(alloc, parts)?)),
        Row::Core(op) => core_node(alloc, spot, op, fold_all(alloc, parts)?),
        Row::Vector => vector_node(alloc, spot, fold_all(alloc, parts)?),
        Row::Recur => Ok(row_node(spot, Row::Recur, fold_all(alloc, parts)?)),
        Row::Call(number) => Ok(row_node(spot, Row::Call(number), fold_all(alloc, parts)?)),
        Row::Println => Ok(row_node(spot, Row::Println, fold_all(alloc, parts)?)),
    }
}

/// A choice folded: by a constant it is the branch that it takes.
#[cycle(fold)]
fn fold_if(
    alloc: Global,
    spot: Spot,
    test: &Node,
    yes: &Node,
    no: &Node,
) -> Result<Node, AllocError>
    ensures { IfOk result (λ n. tree_of n ≡ folded (tree.If (tree_of test.now) (tree_of yes.now) (tree_of no.now) (mark_of spot.span spot.wanted))) }
{
    let test = fold_node(alloc, test)?;
    if let Some(value) = constant(&test) {
        if is_false(value) {
            return fold_node(alloc, no);
        }
        return fold_node(alloc, yes);
    }
    let yes = fold_node(alloc, yes)?;
    if_node(alloc, spot, test, yes, fold_node(alloc, no)?)
}

/// The node folded.
#[cycle(fold)]
pub fn fold_node(alloc: Global, node: &Node) -> Result<Node, AllocError>
    ensures { IfOk result (λ n. tree_of n ≡ folded (tree_of node.now)) }
{
    let spot = spot_of(node);
    match view(node) {
        Shape::Const(value) => Ok(const_node(spot, copy_value(value)?)),
        Shape::Local(number) => Ok(local_node(spot, number)),
        Shape::If(test, yes, no) => fold_if(alloc, spot, test, yes, no),
        Shape::Row(row, parts) => fold_row(alloc, spot, row, parts),
        Shape::Let(values, body) => {
            let values = fold_all(alloc, values)?;
            let_node(alloc, spot, values, fold_node(alloc, body)?)
        }
        Shape::Loop(values, body) => {
            let values = fold_all(alloc, values)?;
            loop_node(alloc, spot, values, fold_node(alloc, body)?)
        }
        Shape::Dosync(body) => dosync_node(alloc, spot, fold_node(alloc, body)?),
        Shape::Look(form, cell) => look_node(alloc, spot, form, fold_node(alloc, cell)?),
        Shape::Put(form, cell, value) => {
            let cell = fold_node(alloc, cell)?;
            put_node(alloc, spot, form, cell, fold_node(alloc, value)?)
        }
        Shape::Update(form, cell, callee, args) => {
            let cell = fold_node(alloc, cell)?;
            update_node(alloc, spot, form, cell, callee, fold_all(alloc, args)?)
        }
        Shape::Send(cell, callee, args) => {
            let cell = fold_node(alloc, cell)?;
            send_node(alloc, spot, cell, callee, fold_all(alloc, args)?)
        }
    }
}
