//! How many levels a tree has.

ghost use Rattle.std.specs.Prelude.{◌≡◌, ◌≤◌, max, suc};
ghost use Rattle.txs_resolve.specs.Depths.{at_place, callee_depth, depths, depths_in};
ghost use Rattle.txs_tree_meaning.specs.View.{tree_of, trees_of};
ghost use Rattle.txs_value_data.specs.Limits.{most_levels};

use std::slice::from_ref;
use txs_tree_meaning::{Node, NodeKind};
use txs_value_data::Callee;

/// The levels of the function of this number.
fn at_place(known: &[u16], number: u16) -> usize
    ensures { result ≡ at_place known.now number }
{
    match known.get(usize::from(number)) {
        None => 0,
        Some(levels) => usize::from(*levels),
    }
}

/// The levels of what a form on a cell calls.
fn of_callee(known: &[u16], callee: Callee) -> usize
    ensures { result ≡ callee_depth known.now callee }
{
    match callee {
        Callee::Core(_) => 0,
        Callee::Function(number) => at_place(known, number),
    }
}

/// What a node's levels are counted from: the levels of what it calls, and up to three rows of parts.
fn parts<'a>(known: &[u16], node: &'a Node) -> (usize, &'a [Node], &'a [Node], &'a [Node])
    ensures { depths known.now (tree_of node.now) ≡ suc (max result.0 (max (depths_in known.now (trees_of result.1.now)) (max (depths_in known.now (trees_of result.2.now)) (depths_in known.now (trees_of result.3.now))))) }
{
    let none: &[Node] = &[];
    match &node.kind {
        NodeKind::Const(_) | NodeKind::Local(_) => (0, none, none, none),
        NodeKind::If(test, yes, no) => (0, from_ref(test), from_ref(yes), from_ref(no)),
        NodeKind::Do(items)
        | NodeKind::Recur(items)
        | NodeKind::Core(_, items)
        | NodeKind::Vector(items)
        | NodeKind::Println(items) => (0, items, none, none),
        NodeKind::Call(number, args) => (at_place(known, *number), args, none, none),
        NodeKind::Let(values, body) | NodeKind::Loop(values, body) => {
            (0, values, from_ref(body), none)
        }
        NodeKind::Dosync(part) | NodeKind::Look(_, part) => (0, from_ref(part), none, none),
        NodeKind::Put(_, cell, value) => (0, from_ref(cell), from_ref(value), none),
        NodeKind::Update(_, cell, callee, args) | NodeKind::Send(cell, callee, args) => {
            (of_callee(known, *callee), from_ref(cell), args, none)
        }
    }
}

/// How many nodes are in one another at most, with those of the functions that are called, whose levels are known.
#[cycle(levels)]
pub fn levels(known: &[u16], node: &Node) -> usize
    requires { depths known.now (tree_of node.now) ≤ most_levels }
    ensures { result ≡ depths known.now (tree_of node.now) }
{
    let (called, first, second, third) = parts(known, node);
    let most = most_levels(known, second).max(most_levels(known, third));
    1 + called.max(most_levels(known, first).max(most))
}

/// The most of them that one of the nodes has.
#[cycle(levels)]
fn most_levels(known: &[u16], nodes: &[Node]) -> usize
    requires { depths_in known.now (trees_of nodes.now) ≤ most_levels }
    ensures { result ≡ depths_in known.now (trees_of nodes.now) }
{
    let mut most = 0;
    for node in nodes {
        most = levels(known, node).max(most);
    }
    most
}
