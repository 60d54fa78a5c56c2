//! The parts of a node.

ghost use Rattle.std.specs.Prelude.{◌≡◌};
ghost use Rattle.txs_tree_meaning.specs.View.{tree_of, trees_of};
ghost use Rattle.txs_check.specs.Rows.{rows, rows_of};

use std::slice::from_ref;
use txs_tree_meaning::{Node, NodeKind};

/// A node's parts as they are written, in up to three rows.
pub fn parts(node: &Node) -> (&[Node], &[Node], &[Node])
    ensures { rows_of (tree_of node.now) ≡ rows (trees_of result.0.now) (trees_of result.1.now) (trees_of result.2.now) }
{
    let none: &[Node] = &[];
    match &node.kind {
        NodeKind::Const(_) | NodeKind::Local(_) => (none, none, none),
        NodeKind::If(test, first, second) => (from_ref(test), from_ref(first), from_ref(second)),
        NodeKind::Do(items)
        | NodeKind::Recur(items)
        | NodeKind::Core(_, items)
        | NodeKind::Call(_, items)
        | NodeKind::Vector(items)
        | NodeKind::Println(items) => (items, none, none),
        NodeKind::Let(values, body) | NodeKind::Loop(values, body) => {
            (values, from_ref(body), none)
        }
        NodeKind::Dosync(part) | NodeKind::Look(_, part) => (from_ref(part), none, none),
        NodeKind::Put(_, cell, value) => (from_ref(cell), from_ref(value), none),
        NodeKind::Update(_, cell, _, args) | NodeKind::Send(cell, _, args) => {
            (from_ref(cell), args, none)
        }
    }
}
