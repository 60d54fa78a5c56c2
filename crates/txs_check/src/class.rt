//! What is known of functions: how many parameters each has, and what its body is.

ghost use Rattle.std.specs.Prelude.{◌≡◌, false, IfOk};
ghost use Rattle.txs_tree_meaning.specs.Known.{known};
ghost use Rattle.txs_value_cell.specs.Forms.{rule};
ghost use Rattle.txs_value_data.specs.Places.{nth};
ghost use Rattle.txs_tree_meaning.specs.View.{tree_of, trees_of, function_of, functions_of};
ghost use Rattle.txs_check.specs.Signatures.{joined, class_above, class_in, class_in_all, class_standing, bare, known_as, known_if};

use crate::parts::parts;
use std::alloc::{AllocError, Global};
use txs_tree_meaning::{Function, Node, NodeKind};
use txs_value_cell::{CellForm, Standing};

/// What a body is: for transactions alone, for outside alone, or pure.
#[derive(Clone, Copy)]
pub struct Class {
    pub inside: bool,
    pub outside: bool,
    pub pure: bool,
}

/// What is known of a function.
#[derive(Clone, Copy)]
pub struct Signature {
    pub parameters: u8,
    pub class: Class,
}

/// What has nothing in it that is for one side alone.
const PURE: Class = Class {
    inside: false,
    outside: false,
    pure: true,
};

/// What isn't pure, and is allowed on both sides.
const IMPURE: Class = Class {
    inside: false,
    outside: false,
    pure: false,
};

/// What is for transactions alone.
const INSIDE: Class = Class {
    inside: true,
    outside: false,
    pure: false,
};

/// What is for outside alone.
const OUTSIDE: Class = Class {
    inside: false,
    outside: true,
    pure: false,
};

impl Class {
    /// What two parts are together.
    fn join(self, other: Class) -> Class
        ensures { result ≡ joined self other }
    {
        Class {
            inside: self.inside || other.inside,
            outside: self.outside || other.outside,
            pure: self.pure && other.pure,
        }
    }
}

/// What is known of the function of this number, if there is one.
pub fn signature_of(signatures: &[Signature], number: u16) -> Option<Signature>
    ensures { known_if result ≡ nth (known_as signatures.now) number }
{
    let number = usize::from(number);
    if number < signatures.len() {
        Some(signatures[number])
    } else {
        None
    }
}

/// What a form on a cell is, without its parts: none is pure.
fn class_of_form(form: CellForm) -> Class
    ensures { result ≡ class_standing (rule form).stands }
{
    match form.rule().stands {
        Standing::Anywhere => IMPURE,
        Standing::Inside => INSIDE,
        Standing::Outside => OUTSIDE,
    }
}

/// What a node is whose parts are this together.
fn class_above(signatures: &[Signature], node: &Node, parts: Class) -> Class
    ensures { result ≡ class_above (known_as signatures.now) (tree_of node.now) parts }
{
    match &node.kind {
        NodeKind::Const(_)
        | NodeKind::Local(_)
        | NodeKind::If(_, _, _)
        | NodeKind::Do(_)
        | NodeKind::Let(_, _)
        | NodeKind::Loop(_, _)
        | NodeKind::Recur(_)
        | NodeKind::Core(_, _)
        | NodeKind::Vector(_) => parts,
        NodeKind::Call(number, _) => match signature_of(signatures, *number) {
            None => IMPURE.join(parts),
            Some(signature) => signature.class.join(parts),
        },
        NodeKind::Println(_) => OUTSIDE.join(parts),
        NodeKind::Dosync(_) => Class {
            inside: false,
            outside: parts.outside,
            pure: false,
        },
        NodeKind::Look(form, _) => class_of_form(CellForm::Look(*form)).join(parts),
        NodeKind::Put(form, _, _) => class_of_form(CellForm::Put(*form)).join(parts),
        NodeKind::Update(form, _, _, _) => class_of_form(CellForm::Update(*form)).join(parts),
        NodeKind::Send(_, _, _) => class_of_form(CellForm::Send).join(parts),
    }
}

/// What a node is, where so much is known of functions.
#[cycle(class)]
fn class_of(signatures: &[Signature], node: &Node) -> Class
    ensures { result ≡ class_in (known_as signatures.now) (tree_of node.now) }
{
    let (first, second, third) = parts(node);
    let behind = class_of_all(signatures, second).join(class_of_all(signatures, third));
    let together = class_of_all(signatures, first).join(behind);
    class_above(signatures, node, together)
}

/// What the nodes are together.
#[cycle(class)]
fn class_of_all(signatures: &[Signature], nodes: &[Node]) -> Class
    ensures { result ≡ class_in_all (known_as signatures.now) (trees_of nodes.now) }
{
    let mut class = PURE;
    for node in nodes {
        class = class.join(class_of(signatures, node));
    }
    class
}

/// What is known of each function, all of which are in script order.
pub fn signatures_of(alloc: Global, functions: &[Function]) -> Result<Vec<Signature>, AllocError>
    ensures { IfOk result (λ signatures. bare (known_as signatures.items) ≡ bare (known (functions_of functions.now))) }
{
    let mut signatures = Vec::with_capacity(alloc, functions.len())?;
    for function in functions {
        let class = class_of(signatures.as_slice(), &function.body);
        signatures.push(Signature {
            parameters: function.parameters,
            class,
        })?;
    }
    Ok(signatures)
}
