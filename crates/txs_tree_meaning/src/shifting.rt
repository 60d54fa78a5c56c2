//! Nodes made anew where more locals come in before one of them: each has its tree shifted.

ghost use Rattle.std.specs.Prelude.{◌≡◌, ◌≤◌, ◌+◌, IfOk};
ghost use Rattle.txs_tree_meaning.specs.Locals.{top, top_all};
ghost use Rattle.txs_tree_meaning.specs.Shift.{all_shifted, moved, shifted};
ghost use Rattle.txs_tree_meaning.specs.Shapes.{row_tree};
ghost use Rattle.txs_tree_meaning.specs.Tree as tree;
ghost use Rattle.txs_tree_meaning.specs.View.{mark_of, tree_of, trees_of};

use crate::Node;
use crate::build::{
    Spot, const_node, dosync_node, if_node, let_node, local_node, look_node, loop_node, put_node,
    row_node, send_node, spot_of, update_node,
};
use crate::parts::{Shape, view};
use std::alloc::{AllocError, Global};
use txs_value_data::copy_value;

/// How many locals come in, and before which one.
#[derive(Clone, Copy)]
pub struct Shift {
    pub from: u8,
    pub by: u8,
}

/// The number of a local where more come in.
fn moved_number(shift: Shift, number: u8) -> u8
    requires { number + shift.by ≤ 255 }
    ensures { result ≡ moved shift.from shift.by number }
{
    if number < shift.from {
        number
    } else {
        number + shift.by
    }
}

/// The nodes shifted.
#[cycle(shift)]
fn shift_all(alloc: Global, shift: Shift, nodes: &[Node]) -> Result<Vec<Node>, AllocError>
    requires { top_all (trees_of nodes.now) + shift.by ≤ 256 }
    ensures { IfOk result (λ c. trees_of c.items ≡ all_shifted shift.from shift.by (trees_of nodes.now)) }
{
    let mut anew = Vec::with_capacity(alloc, nodes.len())?;
    for node in nodes {
        anew.push(shift_node(alloc, shift, node)?)?;
    }
    Ok(anew)
}

/// A copy of the node, where so many locals come in before one of them. No local may get a number over 255.
///
/// # Errors
/// There was no memory.
#[cycle(shift)]
pub fn shift_node(alloc: Global, shift: Shift, node: &Node) -> Result<Node, AllocError>
    requires { top (tree_of node.now) + shift.by ≤ 256 }
    ensures { IfOk result (λ n. tree_of n ≡ shifted shift.from shift.by (tree_of node.now)) }
{
    let spot = spot_of(node);
    match view(node) {
        Shape::Const(value) => Ok(const_node(spot, copy_value(value)?)),
        Shape::Local(number) => Ok(local_node(spot, moved_number(shift, number))),
        Shape::If(test, yes, no) => {
            let test = shift_node(alloc, shift, test)?;
            let yes = shift_node(alloc, shift, yes)?;
            if_node(alloc, spot, test, yes, shift_node(alloc, shift, no)?)
        }
        Shape::Row(row, parts) => Ok(row_node(spot, row, shift_all(alloc, shift, parts)?)),
        Shape::Let(values, body) => {
            let values = shift_all(alloc, shift, values)?;
            let_node(alloc, spot, values, shift_node(alloc, shift, body)?)
        }
        Shape::Loop(values, body) => {
            let values = shift_all(alloc, shift, values)?;
            loop_node(alloc, spot, values, shift_node(alloc, shift, body)?)
        }
        Shape::Dosync(body) => dosync_node(alloc, spot, shift_node(alloc, shift, body)?),
        Shape::Look(form, cell) => look_node(alloc, spot, form, shift_node(alloc, shift, cell)?),
        Shape::Put(form, cell, value) => {
            let cell = shift_node(alloc, shift, cell)?;
            put_node(alloc, spot, form, cell, shift_node(alloc, shift, value)?)
        }
        Shape::Update(form, cell, callee, args) => {
            let cell = shift_node(alloc, shift, cell)?;
            update_node(
                alloc,
                spot,
                form,
                cell,
                callee,
                shift_all(alloc, shift, args)?,
            )
        }
        Shape::Send(cell, callee, args) => {
            let cell = shift_node(alloc, shift, cell)?;
            send_node(alloc, spot, cell, callee, shift_all(alloc, shift, args)?)
        }
    }
}
