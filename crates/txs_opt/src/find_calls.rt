//! Whether a call is in a program.

ghost use Rattle.std.specs.Prelude.{◌≡◌, ◌||◌};
ghost use Rattle.txs_opt.specs.Optimised.{calls, functions_call, some_call, threads_call};
ghost use Rattle.txs_tree_meaning.specs.Shapes.{row_tree};
ghost use Rattle.txs_tree_meaning.specs.Tree.{Mark};
ghost use Rattle.txs_tree_meaning.specs.View.{functions_of, threads_of, tree_of, trees_of};

use txs_tree_meaning::{Function, Node, Row, Shape, Thread, view};

/// Whether a call is in one of the nodes.
#[cycle(calls)]
fn some_has_call(nodes: &[Node]) -> bool
    ensures { result ≡ some_call (trees_of nodes.now) }
{
    for node in nodes {
        if has_call(node) {
            return true;
        }
    }
    false
}

/// Whether a call is in a form that is a row of parts.
#[cycle(calls)]
fn row_has_call(row: Row, parts: &[Node]) -> bool
    ensures { (m : Mark) → result ≡ calls (row_tree row (trees_of parts.now) m) }
{
    match row {
        Row::Call(_) => true,
        Row::Do | Row::Recur | Row::Core(_) | Row::Vector | Row::Println => some_has_call(parts),
    }
}

/// Whether a call is in the node or in the parts behind it.
#[cycle(calls)]
fn one_or_some_has_call(node: &Node, nodes: &[Node]) -> bool
    ensures { result ≡ (calls (tree_of node.now) || some_call (trees_of nodes.now)) }
{
    if has_call(node) {
        return true;
    }
    some_has_call(nodes)
}

/// Whether a call is in these values or in the body behind them.
#[cycle(calls)]
fn bound_has_call(values: &[Node], body: &Node) -> bool
    ensures { result ≡ (some_call (trees_of values.now) || calls (tree_of body.now)) }
{
    if some_has_call(values) {
        return true;
    }
    has_call(body)
}

/// Whether a call is in the node.
#[cycle(calls)]
fn has_call(node: &Node) -> bool
    ensures { result ≡ calls (tree_of node.now) }
{
    match view(node) {
        Shape::Const(_) | Shape::Local(_) => false,
        Shape::If(test, yes, no) => {
            if has_call(test) {
                return true;
            }
            if has_call(yes) {
                return true;
            }
            has_call(no)
        }
        Shape::Row(row, parts) => row_has_call(row, parts),
        Shape::Let(values, body) => bound_has_call(values, body),
        Shape::Loop(values, body) => bound_has_call(values, body),
        Shape::Dosync(body) => has_call(body),
        Shape::Look(_, cell) => has_call(cell),
        Shape::Put(_, cell, value) => {
            if has_call(cell) {
                return true;
            }
            has_call(value)
        }
        Shape::Update(_, cell, _, args) => one_or_some_has_call(cell, args),
        Shape::Send(cell, _, args) => one_or_some_has_call(cell, args),
    }
}

/// Whether a call is in one of the functions.
pub fn functions_have_call(functions: &[Function]) -> bool
    ensures { result ≡ functions_call (functions_of functions.now) }
{
    for function in functions {
        if has_call(&function.body) {
            return true;
        }
    }
    false
}

/// Whether a call is in one of the threads.
pub fn threads_have_call(threads: &[Thread]) -> bool
    ensures { result ≡ threads_call (threads_of threads.now) }
{
    for thread in threads {
        if has_call(&thread.body) {
            return true;
        }
    }
    false
}
