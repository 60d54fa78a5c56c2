//! Recurs to the function whose body a node is.

ghost use Rattle.std.specs.Prelude.{◌≡◌};
ghost use Rattle.txs_opt.specs.Inline.{last_recurs, recurs};
ghost use Rattle.txs_tree_meaning.specs.Shapes.{row_tree};
ghost use Rattle.txs_tree_meaning.specs.Tree.{Mark};
ghost use Rattle.txs_tree_meaning.specs.View.{tree_of, trees_of};

use txs_tree_meaning::{Node, Row, Shape, view};

/// Whether there is such a recur in the last of the nodes.
#[cycle(recurs)]
fn last_has_recur(nodes: &[Node]) -> bool
    ensures { result ≡ last_recurs (trees_of nodes.now) }
{
    let count = nodes.len();
    if count == 0 {
        return false;
    }
    has_recur(&nodes[count - 1])
}

/// Whether there is such a recur in a form that is a row of parts.
#[cycle(recurs)]
fn row_has_recur(row: Row, parts: &[Node]) -> bool
    ensures { (m : Mark) → result ≡ recurs (row_tree row (trees_of parts.now) m) }
{
    match row {
        Row::Do => last_has_recur(parts),
        Row::Recur => true,
        Row::Core(_) | Row::Call(_) | Row::Vector | Row::Println => false,
    }
}

/// Whether there is a recur to the function whose body this is.
#[cycle(recurs)]
pub fn has_recur(node: &Node) -> bool
    ensures { result ≡ recurs (tree_of node.now) }
{
    match view(node) {
        Shape::If(_, yes, no) => {
            if has_recur(yes) {
                return true;
            }
            has_recur(no)
        }
        Shape::Row(row, parts) => row_has_recur(row, parts),
        Shape::Let(_, body) => has_recur(body),
        Shape::Const(_)
        | Shape::Local(_)
        | Shape::Loop(_, _)
        | Shape::Dosync(_)
        | Shape::Look(_, _)
        | Shape::Put(_, _, _)
        | Shape::Update(_, _, _, _)
        | Shape::Send(_, _, _) => false,
    }
}
