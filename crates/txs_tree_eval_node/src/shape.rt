//! How nodes are evaluated.

ghost use Rattle.std.specs.Prelude.{◌≡◌};
ghost use Rattle.txs_tree_eval_node.specs.Shapes.{IsShape, form_of_act};
ghost use Rattle.txs_tree_meaning.specs.View.{tree_of, mark_of};

use std::slice::from_ref;
use txs_tree_meaning::{Node, NodeKind};
use txs_value_cell::{CellForm, LookForm, PutForm, UpdateForm};
use txs_value_data::{Callee, Op, Value};

/// What is done with the values of a node's parts, which come from left to right.
#[derive(Clone, Copy)]
pub(crate) enum Strict {
    Recur,
    Core(Op),
    Call(u16),
    Vector,
    Println,
}

/// A form on a cell, without its parts.
#[derive(Clone, Copy)]
pub(crate) enum Act {
    Look(LookForm),
    Put(PutForm),
    Update(UpdateForm, Callee),
    Send(Callee),
}

/// A node by how it is evaluated: those whose parts all come first are one, and so are the forms on cells, each with its cell and
/// its arguments.
#[derive(Clone, Copy)]
pub(crate) enum Shape<'a> {
    Const(&'a Value),
    Local(u8),
    If(&'a Node, &'a Node, &'a Node),
    Do(&'a [Node]),
    Let(&'a [Node], &'a Node),
    Loop(&'a [Node], &'a Node),
    Strict(Strict, &'a [Node]),
    Dosync(&'a Node),
    Form(Act, &'a Node, &'a [Node]),
}

impl Act {
    /// The form.
    pub(crate) fn form(self) -> CellForm
        ensures { result ≡ form_of_act self }
    {
        match self {
            Act::Look(form) => CellForm::Look(form),
            Act::Put(form) => CellForm::Put(form),
            Act::Update(form, _) => CellForm::Update(form),
            Act::Send(_) => CellForm::Send,
        }
    }
}

/// How the node is evaluated.
pub(crate) fn shape_of<'a>(node: &'a Node) -> Shape<'a>
    ensures { IsShape result (mark_of node.now.span node.now.wanted) (tree_of node.now) }
{
    match &node.kind {
        NodeKind::Const(value) => Shape::Const(value),
        NodeKind::Local(place) => Shape::Local(*place),
        NodeKind::If(test, yes, no) => Shape::If(test, yes, no),
        NodeKind::Do(items) => Shape::Do(items),
        NodeKind::Let(values, body) => Shape::Let(values, body),
        NodeKind::Loop(values, body) => Shape::Loop(values, body),
        NodeKind::Recur(args) => Shape::Strict(Strict::Recur, args),
        NodeKind::Core(op, args) => Shape::Strict(Strict::Core(*op), args),
        NodeKind::Call(function, args) => Shape::Strict(Strict::Call(*function), args),
        NodeKind::Vector(args) => Shape::Strict(Strict::Vector, args),
        NodeKind::Println(args) => Shape::Strict(Strict::Println, args),
        NodeKind::Dosync(body) => Shape::Dosync(body),
        NodeKind::Look(form, cell) => Shape::Form(Act::Look(*form), cell, &[]),
        NodeKind::Put(form, cell, new) => Shape::Form(Act::Put(*form), cell, from_ref(new)),
        NodeKind::Update(form, cell, callee, args) => {
            Shape::Form(Act::Update(*form, *callee), cell, args)
        }
        NodeKind::Send(agent, callee, args) => Shape::Form(Act::Send(*callee), agent, args),
    }
}
