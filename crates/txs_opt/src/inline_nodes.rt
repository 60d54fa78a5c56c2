//! Nodes with calls inlined.

ghost use Rattle.std.specs.Prelude.{◌≡◌, ◌≤◌, IfOk};
ghost use Rattle.txs_opt.specs.Inline.{all_inlined, inlined, let_inlined};
ghost use Rattle.txs_tree_meaning.specs.Locals.{reach, reach_all, reach_let};
ghost use Rattle.txs_tree_meaning.specs.Shapes.{row_tree};
ghost use Rattle.txs_tree_meaning.specs.View.{functions_of, mark_of, tree_of, trees_of};
ghost use Rattle.txs_value_data.specs.Limits.{most_locals};

use crate::call::call_node;
use crate::locals::behind;
use std::alloc::{AllocError, Global};
use txs_tree_meaning::{
    Function, Node, Row, Shape, Spot, const_node, dosync_node, if_node, let_node, local_node,
    look_node, loop_node, put_node, row_node, send_node, spot_of, update_node, view,
};
use txs_value_data::copy_value;

/// Each of the nodes with calls inlined, all with the same locals.
#[cycle(inline)]
fn inline_all(
    alloc: Global,
    done: &[Function],
    live: usize,
    budget: &mut u32,
    nodes: &[Node],
) -> Result<Vec<Node>, AllocError>
    requires { reach_all live (trees_of nodes.now) ≤ most_locals }
    ensures { IfOk result (λ c. (trees_of c.items ≡ (all_inlined (functions_of done.now) live budget.old (trees_of nodes.now)).trees)
        × (budget.new ≡ (all_inlined (functions_of done.now) live budget.old (trees_of nodes.now)).budget)) }
{
    let mut anew = Vec::with_capacity(alloc, nodes.len())?;
    for node in nodes {
        anew.push(inline_node(alloc, done, live, budget, node)?)?;
    }
    Ok(anew)
}

/// The values of a let with calls inlined, each of which sees those before it.
#[cycle(inline)]
fn inline_let(
    alloc: Global,
    done: &[Function],
    live: usize,
    budget: &mut u32,
    values: &[Node],
) -> Result<Vec<Node>, AllocError>
    requires { reach_let live (trees_of values.now) ≤ most_locals }
    ensures { IfOk result (λ c. (trees_of c.items ≡ (let_inlined (functions_of done.now) live budget.old (trees_of values.now)).trees)
        × (budget.new ≡ (let_inlined (functions_of done.now) live budget.old (trees_of values.now)).budget)) }
{
    let mut anew = Vec::with_capacity(alloc, values.len())?;
    for at in 0..values.len() {
        anew.push(inline_node(alloc, done, live + at, budget, &values[at])?)?;
    }
    Ok(anew)
}

/// A form that is a row of parts, with calls inlined, its own call too.
#[cycle(inline)]
fn inline_row(
    alloc: Global,
    done: &[Function],
    live: usize,
    budget: &mut u32,
    spot: Spot,
    row: Row,
    parts: &[Node],
) -> Result<Node, AllocError>
    requires { reach_all live (trees_of parts.now) ≤ most_locals }
    ensures { IfOk result (λ n. (tree_of n ≡ (inlined (functions_of done.now) live budget.old (row_tree row (trees_of parts.now) (mark_of spot.span spot.wanted))).tree)
        × (budget.new ≡ (inlined (functions_of done.now) live budget.old (row_tree row (trees_of parts.now) (mark_of spot.span spot.wanted))).budget)) }
{
    let parts = inline_all(alloc, done, live, budget, parts)?;
    match row {
        Row::Call(number) => call_node(alloc, done, live, budget, spot, number, parts),
        Row::Do | Row::Recur | Row::Core(_) | Row::Vector | Row::Println => {
            Ok(row_node(spot, row, parts))
        }
    }
}

/// The node with calls inlined of functions that are defined, from left to right, where so many locals are live and the program may
/// get so many nodes more.
#[cycle(inline)]
pub fn inline_node(
    alloc: Global,
    done: &[Function],
    live: usize,
    budget: &mut u32,
    node: &Node,
) -> Result<Node, AllocError>
    requires { reach live (tree_of node.now) ≤ most_locals }
    ensures { IfOk result (λ n. (tree_of n ≡ (inlined (functions_of done.now) live budget.old (tree_of node.now)).tree)
        × (budget.new ≡ (inlined (functions_of done.now) live budget.old (tree_of node.now)).budget)) }
{
    let spot = spot_of(node);
    match view(node) {
        Shape::Const(value) => Ok(const_node(spot, copy_value(value)?)),
        Shape::Local(number) => Ok(local_node(spot, number)),
        Shape::If(test, yes, no) => {
            let test = inline_node(alloc, done, live, budget, test)?;
            let yes = inline_node(alloc, done, live, budget, yes)?;
            let no = inline_node(alloc, done, live, budget, no)?;
            if_node(alloc, spot, test, yes, no)
        }
        Shape::Row(row, parts) => inline_row(alloc, done, live, budget, spot, row, parts),
        Shape::Let(values, body) => {
            let inner = behind(live, values);
            let values = inline_let(alloc, done, live, budget, values)?;
            let body = inline_node(alloc, done, inner, budget, body)?;
            let_node(alloc, spot, values, body)
        }
        Shape::Loop(values, body) => {
            let inner = behind(live, values);
            let values = inline_let(alloc, done, live, budget, values)?;
            let body = inline_node(alloc, done, inner, budget, body)?;
            loop_node(alloc, spot, values, body)
        }
        Shape::Dosync(body) => {
            let body = inline_node(alloc, done, live, budget, body)?;
            dosync_node(alloc, spot, body)
        }
        Shape::Look(form, cell) => {
            let cell = inline_node(alloc, done, live, budget, cell)?;
            look_node(alloc, spot, form, cell)
        }
        Shape::Put(form, cell, value) => {
            let cell = inline_node(alloc, done, live, budget, cell)?;
            let value = inline_node(alloc, done, live, budget, value)?;
            put_node(alloc, spot, form, cell, value)
        }
        Shape::Update(form, cell, callee, args) => {
            let cell = inline_node(alloc, done, live, budget, cell)?;
            let args = inline_all(alloc, done, live, budget, args)?;
            update_node(alloc, spot, form, cell, callee, args)
        }
        Shape::Send(cell, callee, args) => {
            let cell = inline_node(alloc, done, live, budget, cell)?;
            let args = inline_all(alloc, done, live, budget, args)?;
            send_node(alloc, spot, cell, callee, args)
        }
    }
}
