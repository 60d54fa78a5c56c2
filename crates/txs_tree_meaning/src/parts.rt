//! What a node is, with its parts as they stand.

ghost use Rattle.std.specs.Prelude.{◌≡◌};
ghost use Rattle.txs_tree_meaning.specs.View.{mark_of, tree_of};
ghost use Rattle.txs_tree_meaning.specs.Shapes.{view_tree};

use crate::{Node, NodeKind};
use txs_value_cell::{LookForm, PutForm, UpdateForm};
use txs_value_data::{Callee, Op, Value};

/// The forms that are a row of parts.
#[derive(Clone, Copy)]
pub enum Row {
    Do,
    Recur,
    Core(Op),
    Call(u16),
    Vector,
    Println,
}

/// What a node is.
pub enum Shape<'a> {
    Const(&'a Value),
    Local(u8),
    If(&'a Node, &'a Node, &'a Node),
    Row(Row, &'a [Node]),
    Let(&'a [Node], &'a Node),
    Loop(&'a [Node], &'a Node),
    Dosync(&'a Node),
    Look(LookForm, &'a Node),
    Put(PutForm, &'a Node, &'a Node),
    Update(UpdateForm, &'a Node, Callee, &'a [Node]),
    Send(&'a Node, Callee, &'a [Node]),
}

/// What this node is.
pub fn view<'a>(node: &'a Node) -> Shape<'a>
    ensures { tree_of node.now ≡ view_tree result (mark_of node.now.span node.now.wanted) }
{
    match &node.kind {
        NodeKind::Const(value) => Shape::Const(value),
        NodeKind::Local(number) => Shape::Local(*number),
        NodeKind::If(test, yes, no) => Shape::If(test, yes, no),
        NodeKind::Do(items) => Shape::Row(Row::Do, items),
        NodeKind::Let(values, body) => Shape::Let(values, body),
        NodeKind::Loop(values, body) => Shape::Loop(values, body),
        NodeKind::Recur(values) => Shape::Row(Row::Recur, values),
        NodeKind::Core(op, args) => Shape::Row(Row::Core(*op), args),
        NodeKind::Call(number, args) => Shape::Row(Row::Call(*number), args),
        NodeKind::Vector(items) => Shape::Row(Row::Vector, items),
        NodeKind::Println(args) => Shape::Row(Row::Println, args),
        NodeKind::Dosync(body) => Shape::Dosync(body),
        NodeKind::Look(form, cell) => Shape::Look(*form, cell),
        NodeKind::Put(form, cell, value) => Shape::Put(*form, cell, value),
        NodeKind::Update(form, cell, callee, args) => Shape::Update(*form, cell, *callee, args),
        NodeKind::Send(cell, callee, args) => Shape::Send(cell, *callee, args),
    }
}
